//! Lengths that no line can have.

use crate::checks::check;
use bytes::Bytes;
use rpki_der::{Piece, put_value};
use std::alloc::Global;
use std::process::Abort;

// The head of an OCTET STRING with so many octets, as it is written and read.
fn assert_head(rt: &impl Abort, alloc: Global, len: usize, head: &[u8]) {
    let mut content = Vec::new(alloc);
    content.resize(len, 7).expect(rt, "memory");
    let mut out = Vec::new(alloc);
    put_value(&mut out, 0x04, &content).expect(rt, "memory");
    check(rt, out.starts_with(head), "the head of a value");
    let value = Piece::from(Bytes::from_vec(out).expect(rt, "memory"));
    let mut cursor = value.cursor();
    let inner = cursor.take_value(0x04).expect(rt, "a value");
    check(
        rt,
        inner.rest() == content.as_slice(),
        "the content of a value",
    );
    check(rt, cursor.is_empty(), "nothing left");
    drop(value);
    drop(content);
}

#[test]
fn long_values(rt: HostRuntime) {
    let alloc = rt.alloc();
    assert_head(&rt, alloc, 0xffff, b"\x04\x82\xff\xff");
    assert_head(&rt, alloc, 0x10000, b"\x04\x83\x01\x00\x00");
    assert_head(&rt, alloc, 0xffffff, b"\x04\x83\xff\xff\xff");
    assert_head(&rt, alloc, 0x1000000, b"\x04\x84\x01\x00\x00\x00");
}
