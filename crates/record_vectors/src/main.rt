// Holds records to the images in records.txt, in both directions.
#![tactic(auto)]

mod vector;

use std::{fs, io};
use vector::{Outcome, judged};

fn main(rt: HostRuntime) -> io::Result<()> {
    let text = fs::read_to_string(&rt, "records.txt")?;
    let (mut kept, mut refused, mut failed) = (0u64, 0u64, 0u64);
    for line in text.as_str().lines() {
        match judged(line) {
            Outcome::Kept => kept = kept.saturating_add(1),
            Outcome::Refused => refused = refused.saturating_add(1),
            Outcome::Failed => failed = failed.saturating_add(1),
        }
    }
    println!(rt; "{kept} images read and written again, {refused} refused, {failed} failed")
}
