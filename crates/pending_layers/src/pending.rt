//! Layers to which cells are only added, and the latest of these in a list.
//!
//! Layers of matrices can be asked for a count at any time. Where they are only added to, the small ones needn't be
//! matrices: cells are put one behind the other as they come, and all are sorted and added up once.
//! SuiteSparse:GraphBLAS calls such cells pending tuples. A cell is so appended, sorted once among many, and put into a
//! matrix once, where a cascade of matrices lists and builds it at each layer.
//!
//! Where places come again the list is added up early, since it holds few places then. Else it waits until it has as
//! many cells as there may be, becomes a matrix and goes through the layers. At the end the layers' cells go back into
//! the list, which is added up once more: a matrix of all would be built to be read once.
ghost use Rattle.std.specs.Prelude.{◌≡◌, ℕ, ◌+◌, ◌<◌, ◌^◌, ◌↔◌, IfOk};
ghost use Rattle.std.specs.FinMap.{empty};
ghost use Rattle.cells.specs.Bounds.{IsDimension, AreWithin};
ghost use Rattle.cells.specs.Order.{Rise};
ghost use Rattle.hyper_matrix.specs.Cells.{built_of, cell_total};
ghost use Rattle.hyper_matrix.specs.Counts.{ewise_add, total};
ghost use Rattle.hyper_matrix.specs.Matrix.{matrix};
ghost use Rattle.layer_compaction.specs.Shared.{content};
ghost use Rattle.layer_cascade.specs.Cuts.{AreCuts};

use crate::limits::{FIRST_DUE, MAX_PENDING, SPARED_SHARE};
use cells::{Cell, into_summed, rises, total_of};
use hyper_matrix::Hyper;
use layer_cascade::{CascadeFault, Layers};
use layer_compaction::merged;
use std::alloc::{AllocError, Global};
use std::marker::Model;

/// Layers to which cells are only added, the latest of which wait in a list.
///
/// Contracts see it as the matrix that all of it adds up to. Its total is below 2^64.
#[derive(Drop)]
pub struct PendingLayers {
    layers: Layers,
    // Cells as they came, which aren't in the layers.
    pending: Vec<Cell>,
    // The counts of the layers and of the list together.
    total: u64,
    // Cells: the list is added up before it has more.
    due: usize,
    // Cells: the most that may wait, and the most that `due` is.
    most: usize,
}

impl Model for PendingLayers {
    ghost use Rattle.hyper_matrix.specs.Matrix.{Matrix, coded_matrix};
    ghost use Rattle.pending_layers.specs.Pending.{with_pending, KeepsPending};

    ghost Value = { Matrix };

    ghost coded = { coded_matrix };

    ghost view = { λ a. with_pending a.layers a.pending.items };

    ghost invariant = { λ a. KeepsPending a.layers a.pending.items a.total };
}

// How many cells may wait before the list is added up again, where adding up so many has left so many, and at most so
// many may wait.
fn next_due(before: usize, left: usize, most: usize) -> usize {
    if left > before - before / SPARED_SHARE {
        return most;
    }
    left.saturating_mul(2).max(FIRST_DUE).min(most)
}

// Layers with a list of cells added in which each place stands once, by row and then by column.
fn with_places(alloc: Global, layers: Layers, cells: &[Cell]) -> Result<Layers, AllocError>
    requires rises { Rise cells.now }
    requires within { AreWithin layers.rows layers.cols cells.now }
    requires fits { total (content layers.layers) + cell_total cells.now < 2 ^ 64 }
    ensures dims { IfOk result (λ after. (after.rows ≡ layers.rows) × (after.cols ≡ layers.cols)) }
    ensures sum { IfOk result (λ after. content after.layers ≡
        ewise_add (content layers.layers) (built_of cells.now)) }
{
    let mut layers = layers;
    let (rows, cols) = layers.dims();
    let none = Hyper::new(alloc, rows, cols);
    let m = none.into_sum_with_cells(alloc, cells)?;
    let plan = layers.plan(alloc, &m)?;
    layers.commit(plan);
    Ok(layers)
}

impl PendingLayers {
    /// Nothing yet, in layers as `Layers::new` makes them: one more than there are cuts, of these numbers of rows and
    /// columns, each from 1 to 2^60.
    ///
    /// At most `MAX_PENDING` cells wait in the list, whatever the cuts are: these decide the time of what comes once as
    /// many have passed. For `expected` cells, or as many of them as may wait, room is made at once, 24 bytes for each:
    /// with 0 it is made as they come. It is a hint, and bounds nothing.
    ///
    /// # Errors
    ///
    /// - `BadCuts`: there are more than 7 cuts, a cut is outside 1 to 2^40, or one isn't greater than the one before
    ///   it. This is judged first, before any growth.
    /// - `Memory`: a growth was refused.
    pub fn new(
        alloc: Global,
        rows: u64,
        cols: u64,
        cuts: &[u64],
        expected: u64,
    ) -> Result<PendingLayers, CascadeFault>
        requires rows { IsDimension rows }
        requires cols { IsDimension cols }
        ensures ok { IfOk result (λ layers. layers ≡ matrix rows cols empty) }
        ensures cuts { (result ≡ Err CascadeFault.BadCuts) ↔ (AreCuts cuts.now → ⊥) }
    {
        let layers = Layers::new(alloc, rows, cols, cuts)?;
        let pending = Vec::with_capacity(alloc, expected.min(MAX_PENDING as u64) as usize)?;
        Ok(PendingLayers {
            layers,
            pending,
            total: 0,
            due: FIRST_DUE,
            most: MAX_PENDING,
        })
    }

    /// The same, where at most so many cells wait from now on, but for those of one addition that is larger by itself. It
    /// decides time and memory alone.
    pub fn with_most(self, most: usize) -> PendingLayers
        ensures { result ≡ self }
    {
        PendingLayers {
            layers: self.layers,
            pending: self.pending,
            total: self.total,
            due: self.due.min(most),
            most,
        }
    }

    /// The numbers of rows and of columns, each from 1 to 2^60. Constant time.
    pub fn dims(&self) -> (u64, u64)
        ensures value { result ≡ (self.now.rows, self.now.cols) }
        ensures rows { IsDimension self.now.rows }
        ensures cols { IsDimension self.now.cols }
    {
        self.layers.dims()
    }

    /// The sum of all counts, below 2^64. Constant time.
    pub fn total(&self) -> u64
        ensures value { result ≡ total self.now.counts }
        ensures fits { total self.now.counts < 2 ^ 64 }
    {
        self.total
    }

    /// The same with a list of cells added, in any order and with places that may stand in it more than once. The
    /// caller sees to it that they lie within the dimensions and that all counts together stay below 2^64.
    ///
    /// The cells are appended to the list, 24 bytes for each. Where that has come to its bound it is sorted and added
    /// up first, in its own memory; and where it then has more than half of the cells that may wait, it becomes a
    /// matrix, which is added to the layers as `Layers::plan` says.
    ///
    /// # Errors
    ///
    /// A growth was refused. What was added so far is gone then.
    pub fn add_cells(self, alloc: Global, cells: &[Cell]) -> Result<PendingLayers, AllocError>
        requires within { AreWithin self.rows self.cols cells.now }
        requires fits { total self.counts + cell_total cells.now < 2 ^ 64 }
        ensures { IfOk result (λ after.
            after ≡ record self { counts = ewise_add self.counts (built_of cells.now) }) }
    {
        let own = self.with_room(alloc, cells.len())?;
        let mut pending = own.pending;
        pending.extend_from_slice(cells)?;
        Ok(PendingLayers {
            layers: own.layers,
            pending,
            total: own.total + total_of(cells),
            due: own.due,
            most: own.most,
        })
    }

    /// The same with a matrix added: as `add_cells` with the matrix's cells.
    ///
    /// # Errors
    ///
    /// A growth was refused. What was added so far is gone then.
    pub fn add(self, alloc: Global, m: &Hyper) -> Result<PendingLayers, AllocError>
        requires rows { m.now.rows ≡ self.rows }
        requires cols { m.now.cols ≡ self.cols }
        requires fits { total self.counts + total m.now.counts < 2 ^ 64 }
        ensures { IfOk result (λ after. after ≡ record self { counts = ewise_add self.counts m.now.counts }) }
    {
        let own = self.with_room(alloc, m.entries() as usize)?;
        let mut pending = own.pending;
        // Room beyond what these take: `push_cells` alone would copy the list for each matrix.
        pending.reserve(m.entries() as usize)?;
        m.push_cells(&mut pending)?;
        Ok(PendingLayers {
            layers: own.layers,
            pending,
            total: own.total + m.total(),
            due: own.due,
            most: own.most,
        })
    }

    // The same, with the list added up where it would come to more than its bound with so many cells.
    fn with_room(self, alloc: Global, more: usize) -> Result<PendingLayers, AllocError>
        ensures { IfOk result (λ after. after ≡ self) }
    {
        if self.pending.len().saturating_add(more) <= self.due {
            return Ok(self);
        }
        self.settled(alloc)
    }

    // The same with the list added up, and as a matrix in the layers where it has more than half of the cells that may
    // wait. Its memory is kept for those that come.
    fn settled(self, alloc: Global) -> Result<PendingLayers, AllocError>
        ensures { IfOk result (λ after. after ≡ self) }
    {
        let before = self.pending.len();
        let mut pending = into_summed(self.pending);
        if pending.len() <= self.most / 2 {
            let due = next_due(before, pending.len(), self.most);
            return Ok(PendingLayers {
                layers: self.layers,
                pending,
                total: self.total,
                due,
                most: self.most,
            });
        }
        let layers = with_places(alloc, self.layers, &pending)?;
        pending.clear();
        Ok(PendingLayers {
            layers,
            pending,
            total: self.total,
            due: self.most,
            most: self.most,
        })
    }

    /// All of it as one list of cells, by row and then by column, each place once.
    ///
    /// Those that wait are put in order first, in their own memory. The cells of the layers are appended to them, in
    /// room that is made once and exactly; then the layers' memory is free, and all are merged, in half as much memory
    /// again.
    ///
    /// # Errors
    ///
    /// A growth was refused. What was added is gone then too.
    pub fn into_cells(self, alloc: Global) -> Result<Vec<Cell>, AllocError>
        ensures rises { IfOk result (λ list. Rise list.items) }
        ensures within { IfOk result (λ list. AreWithin self.rows self.cols list.items) }
        ensures sum { IfOk result (λ list. built_of list.items ≡ self.counts) }
        ensures fits { total self.counts < 2 ^ 64 }
    {
        let layers = self.layers;
        let mut cells = into_summed(self.pending);
        layers.push_cells(&mut cells)?;
        drop(layers);
        // Where the layers hold nothing there is nothing to merge.
        if rises(&cells) {
            return Ok(cells);
        }
        let list = merged(alloc, cells)?;
        Ok(list)
    }
}
