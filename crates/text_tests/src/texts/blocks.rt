//! A text that is read in blocks.
use crate::texts::cases::{SYMMETRIC, WIDE, joined};
use byte_io::{Script, Source};
use mm_text::{Cell, MmFault, TextReader};
use std::alloc::Global;
use std::process::Abort;
use test_support::{pieces, same};

// Reads the next block of up to three cells: how many it has, and whether it is not the last.
fn read_next(
    rt: &impl Abort,
    source: &mut Script,
    reader: &mut TextReader,
    block: &mut Vec<Cell>,
) -> (usize, Result<bool, MmFault>) {
    block.clear();
    assert!(rt; source.failures() == 0);
    let more = reader.read_block(source, block, 3);
    (block.len(), more)
}

// Reads a symmetric text of three entries, one of them on the diagonal, in three blocks.
fn read_blocks(
    rt: &impl Abort,
    alloc: Global,
    reader: &mut TextReader,
) -> [(usize, Result<bool, MmFault>); 3] {
    let text = joined(rt, alloc, SYMMETRIC, &[("9 9 3\n9 1 3\n2 2 4\n9 1 3\n", 1)]);
    let pieces = pieces(alloc, &text, 6).expect(rt, "memory");
    drop(text);
    let mut source = Script::new(alloc, pieces, None, None);
    let mut block = Vec::new(alloc);
    let first = read_next(rt, &mut source, reader, &mut block);
    let second = read_next(rt, &mut source, reader, &mut block);
    let third = read_next(rt, &mut source, reader, &mut block);
    drop(source);
    drop(block);
    [first, second, third]
}

// The two cells of an entry come together, so that a block may have one cell fewer than it has room for.
#[test]
fn blocks(rt: HostRuntime) {
    let mut reader = TextReader::new(rt.alloc(), WIDE).expect(&rt, "memory");
    let is_unknown = reader.size().is_none();
    let found = read_blocks(&rt, rt.alloc(), &mut reader);
    let size = reader
        .size()
        .map(|size| (size.rows, size.cols, size.entries));
    drop(reader);
    assert!(rt; same(&rt, &found, &[(2, Ok(true)), (3, Ok(true)), (0, Ok(false))]));
    assert!(rt; same(&rt, &(is_unknown, size), &(true, Some((9, 9, 3)))));
}
