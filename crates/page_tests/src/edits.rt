use crate::checked::{adopt_into, is_page, lower, measures, put_into, remove_from, upper};
use field::{Key, Value};
use page_edit::format;
use std::test::Fail;

// The n-th of some keys of sixteen bytes, in order.
fn full_key(n: u8) -> Key {
    Key::new(&[9, 9, 9, 9, 9, 9, 9, 9, 9, 9, 9, 9, 9, 9, 9, n])
}

// A leaf with so many full entries.
fn full_leaf(n: u8) -> Option<[u8; 512]> {
    let mut leaf = format(1);
    for i in 0..n {
        leaf = put_into(&leaf, 2, &full_key(i), &Value::new(&[i; 64]))?;
    }
    Some(leaf)
}

#[test]
fn five_full_entries_leave_sixteen_bytes(rt: HostRuntime) -> Result<(), Fail> {
    let leaf = full_leaf(5).ok_or("five entries fit")?;
    assert_eq!(rt; measures(&leaf), Some((420, 3)));
    let key = Key::new(&[1, 2, 3, 4]);
    assert!(rt; put_into(&leaf, 7, &key, &Value::new(&[0; 9])).is_none());
    let full = put_into(&leaf, 7, &key, &Value::new(&[0; 8])).ok_or("sixteen bytes fit")?;
    assert_eq!(rt; measures(&full).map(|m| m.0), Some(436));
    assert!(rt; put_into(&full, 8, &full_key(5), &Value::new(&[])).is_none());
    Ok(())
}

#[test]
fn a_replaced_value_frees_its_bytes(rt: HostRuntime) -> Result<(), Fail> {
    let leaf = full_leaf(5).ok_or("five entries fit")?;
    let other = put_into(&leaf, 7, &full_key(2), &Value::new(&[7; 64])).ok_or("as long as before")?;
    assert_eq!(rt; measures(&other).map(|m| m.0), Some(420));
    assert_ne!(rt; other, leaf);
    let shorter = put_into(&leaf, 7, &full_key(2), &Value::new(&[])).ok_or("shorter than before")?;
    assert_eq!(rt; measures(&shorter).map(|m| m.0), Some(356));
    Ok(())
}

#[test]
fn halves_are_pages_that_hold_what_was_there(rt: HostRuntime) -> Result<(), Fail> {
    let leaf = full_leaf(5).ok_or("five entries fit")?;
    let low = lower(&leaf, 7, 3, 1).ok_or("slot 3 is there")?;
    let high = upper(&leaf, 7, 3, 1).ok_or("slot 3 is there")?;
    assert_eq!(rt; measures(&low).map(|m| m.0), Some(252));
    assert_eq!(rt; measures(&high).map(|m| m.0), Some(168));
    assert!(rt; is_page(&low) && is_page(&high));
    assert!(rt; lower(&leaf, 7, 5, 1).is_none());
    Ok(())
}

#[test]
fn what_is_absent_is_not_removed(rt: HostRuntime) -> Result<(), Fail> {
    let leaf = full_leaf(2).ok_or("two entries fit")?;
    assert!(rt; remove_from(&leaf, 7, &full_key(2)).is_none());
    let one = remove_from(&leaf, 7, &full_key(0)).ok_or("it was there")?;
    assert_eq!(rt; measures(&one).map(|m| m.0), Some(84));
    assert!(rt; remove_from(&one, 8, &full_key(0)).is_none());
    assert!(rt; adopt_into(&[0; 512], 8, &full_key(0), 1).is_none());
    Ok(())
}
