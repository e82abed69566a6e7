use order::{ByteOrder, LengthFirst, below, holds};

#[test]
fn at_the_fences(rt: HostRuntime) {
    assert!(rt; holds(&ByteOrder, b"b", b"b", Some(b"d")));
    assert!(rt; !holds(&ByteOrder, b"b", b"a", Some(b"d")));
    assert!(rt; !holds(&ByteOrder, b"b", b"d", Some(b"d")));
    assert!(rt; holds(&ByteOrder, b"b", b"\xff", None));
    assert!(rt; !holds(&LengthFirst, b"b", b"cc", Some(b"d")));
    assert!(rt; below(&ByteOrder, b"cc", Some(b"d")));
}
