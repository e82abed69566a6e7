use order::{ByteOrder, KeyOrder, LengthFirst};
use std::cmp::Ordering;
use std::process::Abort;

// Byte by byte, with none of the library's comparisons of slices.
fn plain(a: &[u8], b: &[u8]) -> Ordering {
    a.iter()
        .zip(b.iter())
        .map(|(x, y)| x.cmp(y))
        .find(|o| o.is_ne())
        .unwrap_or(a.len().cmp(&b.len()))
}

fn plain_by_length(a: &[u8], b: &[u8]) -> Ordering {
    a.len().cmp(&b.len()).then(plain(a, b))
}

fn agree(rt: &impl Abort, a: &[u8], b: &[u8]) {
    assert!(rt; ByteOrder.compare(a, b) == plain(a, b));
    assert!(rt; LengthFirst.compare(a, b) == plain_by_length(a, b));
}

const TEXT: [u8; 17] = *b"0123456789abcdefg";

#[test]
fn prefixes(rt: HostRuntime) {
    let text = TEXT;
    for m in 0..18 {
        for n in 0..18 {
            agree(&rt, &text[0..m], &text[0..n]);
        }
    }
}

#[test]
fn one_byte_apart(rt: HostRuntime) {
    let text = TEXT;
    for n in 1..18 {
        // by place: the byte there is changed in two keys
        for i in 0..n {
            let mut low = TEXT;
            let mut high = TEXT;
            low[i] = 0x00;
            high[i] = 0xff;
            agree(&rt, &low[0..n], &high[0..n]);
            agree(&rt, &high[0..n], &low[0..n]);
            agree(&rt, &high[0..n], &text[0..17]);
        }
    }
}

#[test]
fn zeros_and_ones(rt: HostRuntime) {
    assert!(rt; ByteOrder.compare(b"\xff", b"\0\0") == Ordering::Greater);
    assert!(rt; LengthFirst.compare(b"\xff", b"\0\0") == Ordering::Less);
}
