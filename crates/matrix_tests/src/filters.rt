//! Tests of the matrix beside its filter: few places without an entry pass, all do where there is no filter, and a
//! filter that is refused its memory comes out the next time.
use crate::fixtures::{built, cell, mixed};
use filtered_matrix::FilteredMatrix;
use hyper_matrix::Hyper;
use std::alloc::Global;
use std::process::Abort;
use test_support::{same, same_at};

/// The rows, and the columns: the most that a matrix may have.
const SIDE: u64 = 1 << 60;

const LAST: u64 = SIDE - 1;

/// How places lie. Each shape has a place of its own for each number below 2^16.
#[derive(Clone, Copy, Debug)]
enum Shape {
    /// Anywhere.
    Spread,
    /// One after the other in a row, and in a column.
    Row,
    Column,
    /// In rows of 100.
    Block,
    /// The same at the last row and column.
    End,
    Diagonal,
}

static SHAPES: &[Shape] = &[
    Shape::Spread,
    Shape::Row,
    Shape::Column,
    Shape::Block,
    Shape::End,
    Shape::Diagonal,
];

impl Shape {
    // The k-th place.
    fn place(self, k: u64) -> (u64, u64) {
        match self {
            Shape::Spread => (mixed(k) >> 4, mixed(mixed(k)) >> 20 << 16 | k & 0xffff),
            Shape::Row => (5, k),
            Shape::Column => (k, 5),
            Shape::Block => (k / 100, k % 100),
            Shape::End => (LAST - k / 100 % SIDE, LAST - k % 100),
            Shape::Diagonal => (k, k),
        }
    }
}

// The matrix of the first n places of a shape.
fn shaped(rt: &impl Abort, alloc: Global, shape: Shape, n: u64) -> Hyper {
    let mut cells = Vec::new(alloc);
    for k in 0..n {
        let (row, col) = shape.place(k);
        cells.push(cell((row, col, 1))).expect(rt, "memory");
    }
    let m = built(rt, alloc, SIDE, &cells);
    drop(cells);
    m
}

// How many places that have no entry are asked for.
const ASKED: u64 = 10_000;

// Numbers of entries, and how many of the places asked for may pass. 8,191 are the most for 1,024 words, and one more
// takes 2,048. With hashes drawn at random 376 and 80 of the 10,000 would pass (three bits in a word with Poisson's
// number of entries, 8 and 4 on the average), with standard deviations of 19 and 9: these are six of them more.
static BOUNDS: &[(u64, u64)] = &[(8_191, 490), (8_192, 134)];

// How many of the places after the first n pass.
fn passing(m: &FilteredMatrix, shape: Shape, n: u64) -> u64 {
    let mut passing = 0u64;
    for k in n..n.saturating_add(ASKED) {
        let (row, col) = shape.place(k);
        if m.may_have(row, col) {
            passing = passing.saturating_add(1);
        }
    }
    passing
}

// A matrix with a filter. Where memory is refused, it is to come out the next time.
fn filtered(rt: &impl Abort, alloc: Global, m: Hyper) -> FilteredMatrix {
    let copy = m.copy(alloc).expect(rt, "memory");
    match FilteredMatrix::with_filter(alloc, m) {
        Ok(filtered) => {
            drop(copy);
            filtered
        }
        Err(_) => FilteredMatrix::with_filter(alloc, copy).expect(rt, "memory"),
    }
}

#[test]
fn few_places_without_an_entry_pass(rt: HostRuntime) {
    for shape in SHAPES {
        for (n, bound) in BOUNDS {
            let m = filtered(&rt, rt.alloc(), shaped(&rt, rt.alloc(), *shape, *n));
            let others = passing(&m, *shape, *n);
            let (row, col) = shape.place(0);
            let found = (m.has_filter(), m.get(row, col), others <= *bound);
            drop(m);
            assert!(rt;
                same_at(
                    &rt,
                    &(others, ASKED, shape, n),
                    &found,
                    &(true, Some(1), true)
                )
            );
        }
    }
}

#[test]
fn all_pass_without_a_filter(rt: HostRuntime) {
    for shape in SHAPES {
        let m = FilteredMatrix::new(rt.alloc(), shaped(&rt, rt.alloc(), *shape, 1_000));
        let found = (m.has_filter(), passing(&m, *shape, 1_000));
        drop(m);
        assert!(rt; same_at(&rt, shape, &found, &(false, ASKED)));
    }
}

// How many of some places pass.
fn passing_of(m: &FilteredMatrix, places: &[(u64, u64)]) -> usize {
    places
        .iter()
        .filter(|(row, col)| m.may_have(*row, *col))
        .count()
}

static OF_NO_ENTRY: &[(u64, u64)] = &[(0, 0), (0, LAST), (1, 0), (u64::MAX, u64::MAX)];

#[test]
fn nothing_passes_in_the_empty_matrix(rt: HostRuntime) {
    let empty = Hyper::new(rt.alloc(), 1, SIDE);
    let m = filtered(&rt, rt.alloc(), empty);
    let size = (m.matrix().entries(), m.matrix().dims());
    let found = (m.has_filter(), passing_of(&m, OF_NO_ENTRY), size);
    drop(m);
    assert!(rt; same(&rt, &found, &(true, 0, (0, (1, SIDE)))));
}
