use order::{ByteOrder, KeyOrder, LengthFirst, LentKeys, MAX_KEY, ascends, find, floor};
use std::process::Abort;
use std::test::Fail;

// Finds a key in a row that ascends, and compares both answers.
fn answers<O: KeyOrder>(
    rt: &impl Abort,
    order: &O,
    keys: &[&[u8]],
    key: &[u8],
    found: Result<usize, usize>,
    last: Option<usize>,
) -> Result<(), Fail> {
    let row = LentKeys(keys);
    if key.len() > MAX_KEY || !ascends(order, &row) {
        return Err(Fail::new("the row or the key is not as `find` asks"));
    }
    assert!(rt; find(order, &row, key) == found);
    assert!(rt; floor(order, &row, key) == last);
    Ok(())
}

#[test]
fn every_slot(rt: HostRuntime) -> Result<(), Fail> {
    let keys: [&[u8]; 5] = [b"", b"a", b"ab", b"b", b"\xff"];
    for (slot, key) in keys.iter().enumerate() {
        answers(&rt, &ByteOrder, &keys, key, Ok(slot), Some(slot))?;
    }
    Ok(())
}

#[test]
fn between_slots(rt: HostRuntime) -> Result<(), Fail> {
    let keys: [&[u8]; 4] = [b"b", b"c", b"cc", b"d"];
    answers(&rt, &ByteOrder, &keys, b"", Err(0), None)?;
    answers(&rt, &ByteOrder, &keys, b"bb", Err(1), Some(0))?;
    answers(&rt, &ByteOrder, &keys, b"ca", Err(2), Some(1))?;
    answers(&rt, &ByteOrder, &keys, b"dd", Err(4), Some(3))
}

#[test]
fn no_slots(rt: HostRuntime) -> Result<(), Fail> {
    let keys: [&[u8]; 1] = [b"b"];
    answers(&rt, &ByteOrder, &keys[0..0], b"a", Err(0), None)
}

#[test]
fn by_length(rt: HostRuntime) -> Result<(), Fail> {
    let keys: [&[u8]; 3] = [b"z", b"aa", b"ab"];
    answers(&rt, &LengthFirst, &keys, b"aa", Ok(1), Some(1))?;
    answers(&rt, &LengthFirst, &keys, b"zz", Err(3), Some(2))?;
    assert!(rt; !ascends(&ByteOrder, &LentKeys(&keys)));
    Ok(())
}

#[test]
fn rows_refused(rt: HostRuntime) {
    let equal: [&[u8]; 2] = [b"a", b"a"];
    let long: [&[u8]; 1] = [b"0123456789abcdefg"];
    assert!(rt; !ascends(&ByteOrder, &LentKeys(&equal)));
    assert!(rt; !ascends(&ByteOrder, &LentKeys(&long)));
}
