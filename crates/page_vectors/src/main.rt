// Decodes the pages of a list of vectors, compares each part with the content that its line tells, and builds the page again.
// A line has 512 bytes in hexadecimal, and then `refused`, or number, LSN, level, low fence, high fence, foster key, foster
// child, and the entries: key and value in a leaf, key and child in a branch. `-` is an empty string, and `*` no bound.
#![tactic(auto)]

use order::ByteOrder;
use page_build::{EntryRow, Header, Spliced, fitted};
use page_view::{Page, PageView};
use std::io;
use std::str::SplitWhitespace;

#[derive(Clone, Copy)]
enum Outcome {
    Decoded,
    Refused,
    Otherwise,
}

fn main(rt: HostRuntime) -> io::Result<()> {
    let mut decoded = 0u32;
    let mut refused = 0u32;
    let mut otherwise = 0u32;
    for line in rt.lines(rt.alloc()) {
        match tried(line?.as_str()) {
            Outcome::Decoded => decoded = decoded.saturating_add(1),
            Outcome::Refused => refused = refused.saturating_add(1),
            Outcome::Otherwise => otherwise = otherwise.saturating_add(1),
        }
    }
    println!(rt; "decoded as told, and built again: {decoded}")?;
    println!(rt; "refused as told: {refused}")?;
    println!(rt; "otherwise: {otherwise}")
}

fn tried(line: &str) -> Outcome {
    let mut words = line.split_whitespace();
    let Some(image) = image_of(words.next()) else {
        return Outcome::Otherwise;
    };
    // no guards: on a pattern that binds a page they get no proof
    match Page::new(&ByteOrder, image) {
        Some(page) => {
            if is_told(page.view(), words) && is_built_again(page.view(), &image) {
                Outcome::Decoded
            } else {
                Outcome::Otherwise
            }
        }
        None => {
            if words.next() == Some("refused") {
                Outcome::Refused
            } else {
                Outcome::Otherwise
            }
        }
    }
}

fn is_told(page: PageView<'_>, mut words: SplitWhitespace<'_>) -> bool {
    let numbers = is_number(words.next(), page.number())
        & is_number(words.next(), page.lsn())
        & is_number(words.next(), u32::from(page.level()));
    let low = is_bytes(words.next(), page.low());
    let high = words.next();
    let foster = words.next();
    let upper = if foster == Some("*") { high } else { foster };
    if !(numbers & low & is_bound(high, page.high()) & is_bound(upper, page.upper())) {
        return false;
    }
    let (key, child) = page.foster().map_or((None, 0), |f| (Some(f.key), f.child));
    is_bound(foster, key) & is_number(words.next(), child) && are_entries_told(page, words)
}

// Header and entries make the same image again.
fn is_built_again(page: PageView<'_>, image: &[u8; 512]) -> bool {
    let n = page.count();
    let row = Spliced {
        old: page,
        keep: n,
        fresh: None,
        resume: n,
    };
    fitted(&Header::of(page, page.lsn()), &row) == Some(*image)
}

fn are_entries_told(page: PageView<'_>, mut words: SplitWhitespace<'_>) -> bool {
    for entry in page.entries() {
        let key = is_bytes(words.next(), entry.key());
        let other = words.next();
        let told = if page.level() == 0 {
            is_bytes(other, entry.value())
        } else {
            is_number(other, entry.child())
        };
        if !(key & told) {
            return false;
        }
    }
    words.next().is_none()
}

fn is_number(word: Option<&str>, n: u32) -> bool {
    word.and_then(|w| w.parse().ok()) == Some(n)
}

fn is_bound(word: Option<&str>, bound: Option<&[u8]>) -> bool {
    match bound {
        Some(key) => is_bytes(word, key),
        None => word == Some("*"),
    }
}

fn is_bytes(word: Option<&str>, bytes: &[u8]) -> bool {
    match word {
        Some("-") => bytes.is_empty(),
        Some(w) => is_hex(w, bytes),
        None => false,
    }
}

// A digit too many, at the end, is passed over.
fn is_hex(digits: &str, bytes: &[u8]) -> bool {
    let (pairs, _) = digits.as_bytes().as_chunks::<2>();
    pairs.len() == bytes.len() && pairs.iter().zip(bytes).all(|(pair, b)| byte(*pair) == *b)
}

fn image_of(word: Option<&str>) -> Option<[u8; 512]> {
    let (pairs, []) = word?.as_bytes().as_chunks::<2>() else {
        return None;
    };
    let mut image = [0; 512];
    if pairs.len() != image.len() {
        return None;
    }
    for (b, pair) in image.iter_mut().zip(pairs) {
        *b = byte(*pair);
    }
    Some(image)
}

// Not by the library's `hex`: it takes capitals and refuses other letters, and it is slower.
fn byte(pair: [u8; 2]) -> u8 {
    let [high, low] = pair.map(digit);
    high.wrapping_mul(16).wrapping_add(low)
}

// The vectors write digits in lower case; any other letter reads as zero.
fn digit(c: u8) -> u8 {
    match c {
        b'0'..=b'9' => c - b'0',
        b'a'..=b'f' => c - b'a' + 10,
        _ => 0,
    }
}
