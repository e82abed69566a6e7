// What the week's logs and pages look like.
use device::{Card, PageDevice};
use field::Value;
use order::ByteOrder;
use page_edit::cost;
use page_view::{Ordered, PageView};
use record::EntryKey;
use std::fmt;
use wal::{Log, SlotLog};

// A line of the table as key and value.
#[derive(Clone, Copy)]
pub(crate) struct Line {
    pub key: EntryKey,
    pub value: Value,
}

impl fmt::Display for Line {
    fn fmt<W: fmt::Write>(&self, f: &mut fmt::Formatter<W>) -> fmt::Result {
        let entry = Entry(self.key.bytes(), self.value.bytes());
        write!(f, "{entry}")
    }
}

// An entry of a leaf.
#[derive(Clone, Copy)]
struct Entry<'a>(&'a [u8], &'a [u8]);

impl fmt::Display for Entry<'_> {
    fn fmt<W: fmt::Write>(&self, f: &mut fmt::Formatter<W>) -> fmt::Result {
        let (key, value) = (Text(self.0), Text(self.1));
        write!(f, "{key} = {value}")
    }
}

// Bytes that are text.
#[derive(Clone, Copy)]
struct Text<'a>(&'a [u8]);

impl fmt::Display for Text<'_> {
    fn fmt<W: fmt::Write>(&self, f: &mut fmt::Formatter<W>) -> fmt::Result {
        for b in self.0 {
            f.write_char(char::from(*b))?;
        }
        Ok(())
    }
}

// The put of a line at its position, and its seal.
pub(crate) fn show_record(
    rt: &impl Print,
    log: &mut SlotLog<'_>,
    position: u32,
    line: &Line,
) -> anyhow::Result<()> {
    print!(rt; "  {position}: put {line}")?;
    if let Ok(image) = log.read(position) {
        let [.., s0, s1, s2, s3] = image;
        print!(rt; ", sealed {s0:02x} {s1:02x} {s2:02x} {s3:02x}")?;
    }
    println!(rt; "")?;
    Ok(())
}

fn show_entries(rt: &impl Print, page: PageView<'_>) -> anyhow::Result<()> {
    let number = page.number();
    let lsn = page.lsn();
    let spent = cost(page);
    println!(rt; "  page {number} at LSN {lsn}, {spent} of 436 bytes:")?;
    if page.level() == 0 {
        for entry in page.entries() {
            let line = Entry(entry.key(), entry.value());
            println!(rt; "    {line}")?;
        }
    }
    Ok(())
}

pub(crate) fn show_card(rt: &impl Print, card: &mut Card<'_>) -> anyhow::Result<()> {
    let Ok(leaf) = card.read(0) else {
        println!(rt; "  page 0 cannot be read")?;
        return Ok(());
    };
    match Ordered::new(&ByteOrder, &leaf) {
        Some(page) => show_entries(rt, page.view),
        None => {
            println!(rt; "  refused: these bytes are no page")?;
            Ok(())
        }
    }
}
