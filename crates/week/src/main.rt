// One label size through a week. So far: the label table goes to a log, and then to a leaf on a card.
#![tactic(auto)]

mod show;

use anyhow::{Context, anyhow};
use device::{Card, PageDevice};
use field::Value;
use label::LabelSize;
use order::ByteOrder;
use page_edit::{format, put};
use page_view::Ordered;
use record::{EntryKey, Record};
use show::{Line, show_card, show_record};
use std::alloc::Global;
use wal::{Log, SlotLog};

const TABLE: [LabelSize; 3] = [
    LabelSize {
        width: 50,
        height: 30,
    },
    LabelSize {
        width: 100,
        height: 50,
    },
    LabelSize {
        width: 100,
        height: 150,
    },
];

fn line_of(heap: Global, size: LabelSize) -> anyhow::Result<Line> {
    let bytes = size.bitmap_bytes();
    let key = format!(in heap; "{size}")?;
    let value = format!(in heap; "{bytes}")?;
    Ok(Line {
        key: EntryKey::try_from(key.as_bytes())
            .ok()
            .context("a line does not fit")?,
        value: Value::try_from(value.as_bytes())
            .ok()
            .context("a line does not fit")?,
    })
}

// Appends the line's put to the log, which gives it its position, and tells that.
fn log_line(
    rt: &impl Print,
    log: &mut SlotLog<'_>,
    previous: u32,
    line: &Line,
) -> anyhow::Result<u32> {
    let record = Record::Put {
        page: 0,
        previous,
        key: line.key,
        value: line.value,
    };
    let position = appended(log, &record)?;
    show_record(rt, log, position, line)?;
    Ok(position)
}

fn appended(log: &mut SlotLog<'_>, record: &Record) -> anyhow::Result<u32> {
    log.append(&record.to_bytes(0))
        .map_err(|_| anyhow!("the log has no room"))
}

// The leaf with one line more, if it is a page in byte order and has room.
fn with_line(image: &[u8; 512], lsn: u32, line: &Line) -> Option<[u8; 512]> {
    put(
        Ordered::new(&ByteOrder, image)?,
        lsn,
        &line.key.key,
        &line.value,
    )
}

// Each line goes to the log first, then the changed leaf to page 0 of the card.
fn store_table(rt: &HostRuntime, log: &mut SlotLog<'_>, card: &mut Card<'_>) -> anyhow::Result<()> {
    let mut position = appended(log, &Record::Format)?;
    let mut leaf = format(position);
    let _ = card.write(0, &leaf);
    for size in &TABLE {
        let line = line_of(rt.alloc(), *size)?;
        position = log_line(rt, log, position, &line)?;
        leaf = with_line(&leaf, position, &line).context("the leaf has no room")?;
        let _ = card.write(0, &leaf);
    }
    Ok(())
}

// Changes one bit of byte 503 of page 0.
fn harm(card: &mut Card<'_>) {
    if let Ok(mut leaf) = card.read(0) {
        leaf[503] ^= 2;
        let _ = card.write(0, &leaf);
    }
}

fn run(rt: &HostRuntime) -> anyhow::Result<()> {
    let mut slots = [0; 1024];
    let mut pages = [0; 2048];
    let mut log = SlotLog::new(&mut slots);
    let mut card = Card::new(&mut pages);
    println!(rt; "Label sizes in millimetres, and bitmap bytes at eight dots to the millimetre.")?;
    println!(rt; "Each line goes to the log, behind the format of page 0:")?;
    store_table(rt, &mut log, &mut card)?;
    println!(rt; "and then to the card, whose page 0 holds by now:")?;
    show_card(rt, &mut card)?;
    harm(&mut card);
    println!(rt; "One bit of byte 503 changed, which makes the third buffer too short:")?;
    show_card(rt, &mut card)?;
    harm(&mut card);
    println!(rt; "The bit changed back:")?;
    show_card(rt, &mut card)
}

fn main(rt: HostRuntime) -> anyhow::Result<()> {
    run(&rt)
}
