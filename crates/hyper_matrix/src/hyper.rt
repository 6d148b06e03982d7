//! The public matrix: its dimensions, its total, and its cells in a list that other matrices may share.
//!
//! Each operation stands in a file of its own.
ghost use Rattle.std.specs.Prelude.{◌≡◌, ℕ};
ghost use Rattle.std.specs.FinMap.{empty, len};
ghost use Rattle.cells.specs.Bounds.{IsDimension};
ghost use Rattle.hyper_matrix.specs.Matrix.{matrix};

mod build;
mod dup;
mod ewise_add;
mod extract;
mod iter;
mod part;
mod parts;
mod reduce;
mod widen;

use crate::piece::Piece;
use std::alloc::Global;
use std::marker::Model;

/// A hypersparse matrix of counts: `GrB_Matrix` of GraphBLAS C API 2.0 over UINT64 and plus.
///
/// Contracts see its dimensions, each from 1 to 2^60, and a finite map from places (row, column), counted from 0,
/// to counts. A stored zero is in the map. Every place lies within the dimensions, and the total of all counts is
/// below 2^64.
///
/// The cells lie in a list by row and then by column, each place once, 24 bytes each. Several matrices may share a
/// list, also each a piece of it, and nobody changes it. It takes memory as long as one of them is there.
#[derive(Drop)]
pub struct Hyper {
    rows: u64,
    cols: u64,
    sum: u64,
    piece: Piece,
}

impl Model for Hyper {
    ghost use Rattle.hyper_matrix.specs.Cells.{built_of};
    ghost use Rattle.hyper_matrix.specs.Matrix.{Matrix, coded_matrix};
    ghost use Rattle.hyper_matrix.specs.Shared.{Holds};

    ghost Value = { Matrix };

    ghost coded = { coded_matrix };

    ghost view = { λ a. record { rows = a.rows; cols = a.cols; counts = built_of a.piece } };

    ghost invariant = { λ a. Holds a.rows a.cols a.sum a.piece };
}

impl Hyper {
    /// The empty matrix of these dimensions. It takes no memory.
    pub fn new(_alloc: Global, rows: u64, cols: u64) -> Hyper
        requires rows { IsDimension rows }
        requires cols { IsDimension cols }
        ensures { result ≡ matrix rows cols empty }
    {
        Hyper {
            rows,
            cols,
            sum: 0,
            piece: Piece::none(),
        }
    }

    /// The numbers of rows and of columns, each from 1 to 2^60. Constant time.
    pub fn dims(&self) -> (u64, u64)
        ensures value { result ≡ (self.now.rows, self.now.cols) }
        ensures rows { IsDimension self.now.rows }
        ensures cols { IsDimension self.now.cols }
    {
        (self.rows, self.cols)
    }

    /// The number of entries, stored zeros included. Constant time.
    pub fn entries(&self) -> u64
        ensures { result ≡ len self.now.counts }
    {
        self.piece.len() as u64
    }
}
