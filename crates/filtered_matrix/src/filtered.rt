//! The matrix and its filter.
ghost use Rattle.std.specs.Prelude.{◌≡◌, ◌≤◌, ◌⊎◌, IfOk, IsFalse, None};
ghost use Rattle.std.specs.FinMap.{get};

use crate::filter::PlaceFilter;
use hyper_matrix::Hyper;
use std::alloc::{AllocError, Global};
use std::marker::Model;

/// A matrix that doesn't change, and beside it a filter of the places of its entries, or none.
#[derive(Drop)]
pub struct FilteredMatrix {
    matrix: Hyper,
    filter: PlaceFilter,
}

impl Model for FilteredMatrix {
    ghost use Rattle.hyper_matrix.specs.Matrix.{Matrix, coded_matrix};
    ghost use Rattle.filtered_matrix.specs.Filter.{Covers};

    ghost Value = { Matrix };

    ghost coded = { coded_matrix };

    ghost view = { λ a. a.matrix };

    ghost invariant = { λ a. Covers a.filter a.matrix.counts };
}

impl FilteredMatrix {
    /// The matrix without a filter. Takes constant time and no memory.
    pub fn new(alloc: Global, m: Hyper) -> FilteredMatrix
        ensures { result ≡ m }
    {
        FilteredMatrix {
            matrix: m,
            filter: PlaceFilter::none(alloc),
        }
    }

    /// The matrix with a filter of its places: 8 to 16 bits for each entry, and 8 bytes at least, allocated once. Takes
    /// time in the number of entries.
    ///
    /// # Errors
    ///
    /// The growth was refused, and the matrix is dropped.
    pub fn with_filter(alloc: Global, m: Hyper) -> Result<FilteredMatrix, AllocError>
        ensures { IfOk result (λ filtered. filtered ≡ m) }
    {
        let filter = PlaceFilter::of(alloc, &m)?;
        Ok(FilteredMatrix { matrix: m, filter })
    }

    /// Whether it has a filter. Constant time.
    pub fn has_filter(&self) -> bool {
        self.filter.is_some()
    }

    /// The matrix itself.
    pub fn matrix(&self) -> &Hyper
        ensures { result.now ≡ self.now }
    {
        &self.matrix
    }

    /// Whether it may have an entry at a place: true without a filter, and mostly false where it has a filter and no
    /// entry. Constant time.
    pub fn may_have(&self, row: u64, col: u64) -> bool
        ensures { IsFalse result → get self.now.counts (row, col) ≡ None }
    {
        self.filter.may_have(row, col)
    }

    /// The count at a place, as `Hyper::get` gives it. Asks the filter first, and takes constant time where that says
    /// that there is none.
    pub fn get(&self, row: u64, col: u64) -> Option<u64>
        ensures value { result ≡ get self.now.counts (row, col) }
        ensures outside { (self.now.rows ≤ row) ⊎ (self.now.cols ≤ col) → result ≡ None }
    {
        if !self.may_have(row, col) {
            return None;
        }
        self.matrix.get(row, col)
    }
}
