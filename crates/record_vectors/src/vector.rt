// A line of the vectors: an image, the position that it is read at, and then the word `refused` or the other fields.
use field::Value;
use hex::FromHex;
use record::{EntryKey, Kind, Record};

#[derive(Clone, Copy)]
pub(crate) enum Outcome {
    Kept,
    Refused,
    Failed,
}

// Digits as the vectors write them, in lower case; the library takes both.
fn are_lower(word: &str) -> bool {
    !word.as_bytes().iter().any(|b| b.is_ascii_uppercase())
}

fn image_of(word: &str) -> Option<[u8; 128]> {
    let image = <[u8; 128] as FromHex>::from_hex(word).ok()?;
    are_lower(word).then_some(image)
}

fn number(word: &str) -> Option<u32> {
    word.parse::<u32>().ok()
}

fn kind_of(word: &str) -> Option<Kind> {
    Kind::try_from(word.parse::<u8>().ok()?).ok()
}

// No bytes are written `-`. A key is read so, too: a kind without one may have any bytes there.
fn value_of(word: &str) -> Option<Value> {
    let digits = if word == "-" { "" } else { word };
    let mut room = [0; 64];
    let bytes = room.get_mut(..digits.len() / 2)?;
    hex::decode_to_slice(digits.as_bytes(), bytes).ok()?;
    if !are_lower(digits) {
        return None;
    }
    Value::try_from(&*bytes).ok()
}

fn content(kind: Kind, numbers: [u32; 5], key: &[u8], value: Value) -> Option<Record> {
    let [page, previous, other, other_previous, child] = numbers;
    let key = EntryKey::try_from(key).ok();
    Some(match kind {
        Kind::Format => Record::Format,
        Kind::Put => Record::Put {
            page,
            previous,
            key: key?,
            value,
        },
        Kind::Remove => Record::Remove {
            page,
            previous,
            key: key?,
        },
        Kind::Foster => Record::Foster {
            page,
            previous,
            other,
            key: key?,
        },
        Kind::Adopt => Record::Adopt {
            page,
            previous,
            other,
            other_previous,
            child,
            key: key?,
        },
        Kind::Grow => Record::Grow { previous, other },
    })
}

// The record that the fields of a line say; None within for `refused`.
fn expected(fields: &str) -> Option<Option<Record>> {
    if fields == "refused" {
        return Some(None);
    }
    let mut words = fields.split(' ');
    let kind = kind_of(words.next()?)?;
    let mut numbers = [0; 5];
    for n in numbers.iter_mut() {
        *n = number(words.next()?)?;
    }
    let key = value_of(words.next()?)?;
    let value = value_of(words.next()?)?;
    Some(Some(content(kind, numbers, key.bytes(), value)?))
}

fn compared(image: &[u8; 128], position: u32, expected: Option<Record>) -> Outcome {
    match (Record::from_bytes_at(position, image), expected) {
        (None, None) => Outcome::Refused,
        (Some(read), Some(said)) if read == said && said.to_bytes(position) == *image =>
            Outcome::Kept,
        _ => Outcome::Failed,
    }
}

fn read(line: &str) -> Option<Outcome> {
    let (image, rest) = line.split_once(' ')?;
    let (position, fields) = rest.split_once(' ')?;
    let image = image_of(image)?;
    Some(compared(&image, number(position)?, expected(fields)?))
}

pub(crate) fn judged(line: &str) -> Outcome {
    read(line).unwrap_or(Outcome::Failed)
}
