//! A source without an end.

use crate::devices::scripts::four_reads;
use byte_io::{Endless, Source};
use test_support::same;

#[test]
fn one_byte_comes_for_ever(rt: HostRuntime) {
    let front = Vec::from_slice(rt.alloc(), b"abcde").expect(&rt, "memory");
    let mut source = Endless::new(front, b'x');
    let found = (four_reads(&mut source), source.failures());
    drop(source);
    let buffers = [*b"abcd", *b"exxx", *b"xxxx", *b"xxxx"];
    assert!(rt; same(&rt, &found, &(([Ok(4); 4], buffers), 0)));
}
