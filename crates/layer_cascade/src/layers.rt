//! The layers, the two steps of an addition, and the look-ups in the sum of all layers.
//!
//! What a layer holds is the sum of the matrices that stand side by side in it. A matrix is put beside those of layer 1
//! as long as the entries of all are within its cut, since their sum has no more; else the exact number of entries is
//! counted, of a few matrices as they are and of many once they are added up into one or two, and decides whether they
//! stay or go on to the next layer, side by side. With cuts that grow by a constant factor an entry is so merged a few
//! times for each layer, where one large matrix would be written anew for each addition.
//!
//! Below the last layer lies what was handed down: at one moment all layers are, by pointers, and empty ones take over
//! from them. No addition and no compaction reaches it, and its sum, once it is made, is exchanged for it. Contracts see
//! it as a part of the last layer.
//!
//! Each layer is shared and never changed in place, so a plan takes over the layers that it leaves by a pointer, and to
//! commit it is to exchange pointers. A look-up asks each matrix of each layer and puts the answers together; only
//! `Layers::sum` builds the sum. Most of these matrices have no entry at the place, so beside most stands a filter of
//! their places, which mostly says so from one word.
ghost use Rattle.std.specs.Prelude.{◌≡◌, ℕ, ◌+◌, ◌<◌, ◌≤◌, ◌^◌, ◌⊎◌, ◌↔◌, IfOk, OnErr, OnOk, length};
ghost use Rattle.std.specs.Arc.{arc_value};
ghost use Rattle.std.specs.FinMap.{get, len};
ghost use Rattle.cells.specs.Bounds.{IsDimension, AreWithin};
ghost use Rattle.hyper_matrix.specs.Cells.{built_of};
ghost use Rattle.hyper_matrix.specs.Counts.{ewise_add, total};
ghost use Rattle.hyper_matrix.specs.Matrix.{matrix};
ghost use Rattle.merged_cells.specs.Within.{LieWithin};
ghost use Rattle.layer_cascade.specs.Cascade.{cascade};
ghost use Rattle.layer_compaction.specs.Shared.{content, values, all_counts};
ghost use Rattle.layer_cascade.specs.Cuts.{AreCuts};
ghost use Rattle.hyper_matrix.specs.RowOf.{row_of};
ghost use Rattle.layer_cascade.specs.Layering.{IsLayering, no_layers, layers_on, entries_of_layer};
ghost use Rattle.layer_cascade.specs.Stored.{seen_layers, lowest};

use crate::addition::{cascade_end, layers_after, push_copies, push_layers};
use crate::below::{are_countable, entries_over, side_by_side};
use crate::compaction::{begin_next, settle};
use crate::cuts::are_cuts;
use crate::fault::CascadeFault;
use crate::limits::MAX_CUTS;
use crate::row_entries::columns_with_layer;
use cells::Cell;
use hyper_matrix::{Hyper, RowSum};
use layer_compaction::{Compaction, Layer, plus};
use merged_cells::Sources;
use std::alloc::{AllocError, Global};
use std::marker::Model;
use std::mem;
use std::sync::{Arc, ArcSlice};

/// From 1 to 8 layers of matrices of the same dimensions, and a cut for each layer but the last: the most entries that
/// it may have between additions.
///
/// Contracts see the dimensions, each from 1 to 2^60, the cuts, the list of what each layer holds, the first layer
/// first, and what was handed down, which is a part of what the last layer holds. The cuts are kept at any time, and the
/// total of all layers is below 2^64.
#[derive(Drop)]
pub struct Layers {
    rows: u64,
    cols: u64,
    cuts: ArcSlice<u64>,
    // The empty layer, shared by all that hold nothing.
    empty: Arc<Layer>,
    // The layers, and after the last one what was handed down.
    layers: Vec<Arc<Layer>>,
    // From which layer on `begin` looks for what is due, by the first layer that it may choose; both count from 0.
    turns: [usize; MAX_CUTS + 1],
}

impl Model for Layers {
    ghost use Rattle.layer_cascade.specs.Layering.{Layering, layering, coded_layering};
    ghost use Rattle.layer_compaction.specs.Shared.{values, all_counts};
    ghost use Rattle.layer_cascade.specs.Stored.{KeepsLayers, seen_layers, lowest};
    ghost use Rattle.std.specs.Arc.{arc_value, arc_slice_items};

    ghost Value = { Layering };

    ghost coded = { coded_layering };

    ghost view = { λ a. layering a.rows a.cols (arc_slice_items a.cuts)
        (seen_layers (all_counts (values a.layers.items))) (lowest (all_counts (values a.layers.items))) };

    ghost invariant = { λ a.
        KeepsLayers a.rows a.cols (arc_slice_items a.cuts) (values a.layers.items) (arc_value a.empty) };
}

/// An addition that has been worked out, and that `Layers::commit` makes.
///
/// Contracts see it as the layers that it leaves. It owns what is new in them, and shares the rest with the layers that
/// it was made from. To drop it is to give the addition up.
#[derive(Drop)]
pub struct Plan {
    pub(crate) after: Layers,
}

impl Model for Plan {
    ghost use Rattle.layer_cascade.specs.Layering.{Layering, coded_layering};

    ghost Value = { Layering };

    ghost coded = { coded_layering };

    ghost view = { λ a. a.after };
}

// Empty layers with these cuts.
fn empty_layers(alloc: Global, rows: u64, cols: u64, cuts: &[u64]) -> Result<Layers, AllocError>
    requires rows { IsDimension rows }
    requires cols { IsDimension cols }
    requires cuts { AreCuts cuts.now }
    ensures { IfOk result (λ layers. layers ≡ no_layers rows cols cuts.now) }
{
    let nothing = Arc::new(alloc, Layer::new(alloc, rows, cols))?;
    Layers::with_base(alloc, rows, cols, cuts, nothing)
}

impl Layers {
    /// Empty layers, one more than there are cuts, for matrices with these numbers of rows and columns, each from 1 to
    /// 2^60. The first cut is that of layer 1. Takes memory for the layers alone.
    ///
    /// # Errors
    ///
    /// - `BadCuts`: there are more than 7 cuts, a cut is outside 1 to 2^40, or one isn't greater than the one before
    ///   it. This is judged first, before any growth.
    /// - `Memory`: a growth was refused.
    pub fn new(alloc: Global, rows: u64, cols: u64, cuts: &[u64]) -> Result<Layers, CascadeFault>
        requires rows { IsDimension rows }
        requires cols { IsDimension cols }
        ensures ok { IfOk result (λ layers. layers ≡ no_layers rows cols cuts.now) }
        ensures cuts { (result ≡ Err CascadeFault.BadCuts) ↔ (AreCuts cuts.now → ⊥) }
    {
        if !are_cuts(cuts) {
            return Err(CascadeFault::BadCuts);
        }
        let layers = empty_layers(alloc, rows, cols, cuts)?;
        Ok(layers)
    }

    /// Empty layers over what is handed down to them. Takes memory for the layers alone.
    ///
    /// # Errors
    ///
    /// A growth was refused.
    pub fn with_base(
        alloc: Global,
        rows: u64,
        cols: u64,
        cuts: &[u64],
        base: Arc<Layer>,
    ) -> Result<Layers, AllocError>
        requires rows { IsDimension rows }
        requires cols { IsDimension cols }
        requires cuts { AreCuts cuts.now }
        requires base_rows { (arc_value base).rows ≡ rows }
        requires base_cols { (arc_value base).cols ≡ cols }
        ensures { IfOk result (λ layers. layers ≡ layers_on rows cols cuts.now (arc_value base).counts) }
    {
        // They bound the total, and the entries.
        let (_total, _most) = (base.total(), base.most_entries());
        let empty = Arc::new(alloc, Layer::new(alloc, rows, cols))?;
        let mut layers = Vec::with_capacity(alloc, cuts.len() + 2)?;
        push_copies(&mut layers, &empty, cuts.len() + 1)?;
        layers.push(base)?;
        let cuts = ArcSlice::from_slice(alloc, cuts)?;
        Ok(Layers {
            rows,
            cols,
            cuts,
            empty,
            layers,
            turns: [0; MAX_CUTS + 1],
        })
    }

    /// Hands all layers down: they lie below the last one, with what was handed down before, and empty ones take over.
    /// It gives all of it, shared. Takes the time and memory of a pointer for each matrix.
    ///
    /// # Errors
    ///
    /// A growth was refused. The layers are as before.
    pub fn hand_down(&mut self, alloc: Global) -> Result<Arc<Layer>, AllocError>
        ensures handed { OnOk result
            (self.new ≡ layers_on self.old.rows self.old.cols self.old.cuts (content self.old.layers)) }
        ensures below { IfOk result (λ below.
            arc_value below ≡ matrix self.old.rows self.old.cols (content self.old.layers)) }
        ensures err { OnErr result (self.new ≡ self.old) }
    {
        let all = side_by_side(alloc, &self.layers, self.rows, self.cols)?;
        let below = Arc::new(alloc, all)?;
        let shared = Arc::try_clone(&below)?;
        let layers = Layers::with_base(alloc, self.rows, self.cols, &self.cuts, below)?;
        *self = layers;
        Ok(shared)
    }

    /// Puts a layer that holds the same in place of what was handed down, and gives that, to be dropped when no lock is
    /// held. It takes no memory.
    pub fn replace_below(&mut self, below: Arc<Layer>) -> Arc<Layer>
        requires { arc_value below ≡ matrix self.old.rows self.old.cols self.old.below }
        ensures { self.new ≡ self.old }
    {
        let place = self.cuts.len() + 1;
        mem::replace(&mut self.layers[place], below)
    }

    /// The numbers of rows and of columns, each from 1 to 2^60. Constant time.
    pub fn dims(&self) -> (u64, u64)
        ensures value { result ≡ (self.now.rows, self.now.cols) }
        ensures kept { IsLayering self.now }
    {
        (self.rows, self.cols)
    }

    /// The cuts, in entries, that of layer 1 first: at most 7, from 1 to 2^40, each greater than the one before it.
    /// Constant time.
    pub fn cuts(&self) -> &[u64]
        ensures value { result.now ≡ self.now.cuts }
        ensures kept { IsLayering self.now }
    {
        self.cuts.as_slice()
    }

    /// Works out the addition of `m`, and makes all its growth. The layers are as before, also on an error.
    ///
    /// `m` with the layers from 1 up to the first one that can hold them within its cut becomes that layer, and the
    /// layers below it are empty: each cascades into the next (Kepner, Davis and others, 2020). The caller sees to it
    /// that the dimensions are equal and that both totals together stay below 2^64.
    ///
    /// Where `m` is put beside the matrices of a layer, that takes the time of a pointer for each of these, at most 32.
    /// Where all together may pass its cut, their places are counted, and they stay or go on. Those of which the places
    /// aren't known yet, but for a large first one, are added up before where they have at most 16,384
    /// cells together; more are counted by one list of their cells and a walk through each of the others. Where there are
    /// more than 32, all are added up, or all but a large first one: one that has a third of what the others have, or more,
    /// where all have more than 2,048 entries. A list takes 24 bytes for each of its cells, at most 2^21, and at most as
    /// much again while it is sorted. The layers above that one aren't read.
    ///
    /// No filter for look-ups is made here: matrices get theirs by compactions (`begin`).
    ///
    /// # Errors
    ///
    /// A growth was refused.
    pub fn plan(&self, alloc: Global, m: &Hyper) -> Result<Plan, AllocError>
        requires rows { m.now.rows ≡ self.now.rows }
        requires cols { m.now.cols ≡ self.now.cols }
        requires fits { total (content self.now.layers) + total m.now.counts < 2 ^ 64 }
        ensures { IfOk result (λ plan.
            plan ≡ record self.now { layers = cascade self.now.layers self.now.cuts m.now.counts }) }
    {
        let (live, below) = self.layers.split_at(self.cuts.len() + 1);
        let end = cascade_end(alloc, live, &self.cuts, m)?;
        let layers = layers_after(alloc, live, below, &self.empty, end)?;
        if !are_countable(&layers) {
            return Err(AllocError);
        }
        let cuts = self.cuts.clone()?;
        let empty = Arc::try_clone(&self.empty)?;
        let after = Layers {
            rows: self.rows,
            cols: self.cols,
            cuts,
            empty,
            layers,
            turns: self.turns,
        };
        Ok(Plan { after })
    }

    /// Puts the planned layers in place of these. It can't fail and takes no memory; what nobody else shares of the old
    /// layers is freed.
    ///
    /// The plan is to be of these layers as they are now. One that was made before another addition would undo that.
    pub fn commit(&mut self, plan: Plan)
        ensures { self.new ≡ plan }
    {
        *self = plan.after;
    }

    /// Chooses matrices that lie side by side in one of the layers from the place `from` on and before `until`, which
    /// count from 0, and are to be added up, and makes a place for their sum; None where nothing is due there.
    /// `Compaction::run` makes the sum, without these layers and whatever lock they are behind, and `settle` takes it
    /// over. What the layers hold stays, also on an error.
    ///
    /// All matrices of a layer are due where it is about to pass its cut and has at most 131,072 entries. Else in layer 1
    /// none are as long as there are fewer than 16. Else, where there are 10 or more, the last ones are, from the first on
    /// that has no more entries than all after it; else one that is to have a filter.
    ///
    /// Each of these layers has its turn, so that none is forgotten; calls with another `from` have turns of their own.
    /// A sum that was begun and isn't made is begun again when its layer's turn comes, since it may have been given up:
    /// who begins the next one before the last one is made may have the same one made twice. So where several threads
    /// compact the same layers at once, each has layers of its own. In a layer whose sum was made and not taken over
    /// nothing is due.
    ///
    /// Takes the time and memory of some pointers for each matrix of a layer, at most 32. To drop what it gives is to
    /// give it up, and does no harm, and neither does an addition that comes before the sum is taken over: where it
    /// carries the matrices on, the sum isn't used.
    ///
    /// # Errors
    ///
    /// A growth was refused.
    pub fn begin(
        &mut self,
        alloc: Global,
        from: usize,
        until: usize,
    ) -> Result<Option<Compaction>, AllocError>
        ensures { self.new ≡ self.old }
    {
        let Some(turn) = self.turns.get(from).copied() else {
            return Ok(None);
        };
        // What was handed down is none of them.
        let until = until.min(self.cuts.len() + 1);
        let begun = begin_next(&mut self.layers, &self.cuts, turn, from, until, alloc)?;
        let Some((place, compaction)) = begun else {
            return Ok(None);
        };
        self.turns[from] = place + 1;
        Ok(Some(compaction))
    }

    /// Puts the sums that were made in the stead of their matrices. Whether any was. What the layers hold stays, also
    /// on an error. Takes the time and memory of a pointer for each matrix of the layers that have such a sum, and else a
    /// step for each layer; what nobody else shares of the matrices is freed.
    ///
    /// # Errors
    ///
    /// A growth was refused. Sums that weren't taken over wait for the next call.
    pub fn settle(&mut self, alloc: Global) -> Result<bool, AllocError>
        ensures { self.new ≡ self.old }
    {
        settle(&mut self.layers, alloc)
    }

    /// The same layers once more, which share all matrices with these. Takes one growth, of a pointer for each layer.
    pub(crate) fn share(&self, alloc: Global) -> Result<Layers, AllocError>
        ensures { IfOk result (λ layers. layers ≡ self.now) }
    {
        let mut layers = Vec::with_capacity(alloc, self.layers.len())?;
        push_layers(&mut layers, &self.layers)?;
        let cuts = self.cuts.clone()?;
        let empty = Arc::try_clone(&self.empty)?;
        Ok(Layers {
            rows: self.rows,
            cols: self.cols,
            cuts,
            empty,
            layers,
            turns: self.turns,
        })
    }

    // The cells of all matrices of all layers, up to 2^64 - 1: those of a place in several of them count in each.
    pub(crate) fn listed_cells(&self) -> u64 {
        let mut cells = 0u64;
        for layer in &self.layers {
            cells = cells.saturating_add(layer.listed_cells());
        }
        cells
    }

    /// Appends the cells of all layers to a list, those of each matrix of each layer by row and then by column. A place
    /// that several matrices have stands in it several times. Room for all is made at once and exactly, 24 bytes for
    /// each cell.
    ///
    /// # Errors
    ///
    /// A growth was refused. The layers are as before in any case.
    pub fn push_cells(&self, out: &mut Vec<Cell>) -> Result<(), AllocError>
        ensures sum { OnOk result (built_of out.new.items
            ≡ ewise_add (built_of out.old.items) (content self.now.layers)) }
        ensures within { AreWithin self.now.rows self.now.cols out.old.items →
            OnOk result (AreWithin self.now.rows self.now.cols out.new.items) }
    {
        out.reserve_exact(self.listed_cells() as usize)?;
        'layers: for layer in &self.layers {
            layer.push_cells(out)?;
        }
        Ok(())
    }

    /// Adds all matrices of all layers to those whose cells are to be merged.
    pub(crate) fn add_to<'a>(&'a self, sources: &mut Sources<'a>) -> Result<(), AllocError>
        ensures sum { OnOk result (sources.new ≡ ewise_add sources.old (content self.now.layers)) }
        ensures within { LieWithin self.now.rows self.now.cols sources.old →
            OnOk result (LieWithin self.now.rows self.now.cols sources.new) }
    {
        'layers: for layer in &self.layers {
            layer.add_to(sources)?;
        }
        Ok(())
    }

    /// The sum of all layers, as a matrix of its own. Takes the time and memory of adding the layers up, from the first
    /// to the last.
    ///
    /// # Errors
    ///
    /// A growth was refused. The layers are as before in any case.
    pub fn sum(&self, alloc: Global) -> Result<Hyper, AllocError>
        ensures sum { IfOk result (λ m. m ≡ matrix self.now.rows self.now.cols (content self.now.layers)) }
        ensures kept { IsLayering self.now }
    {
        let mut sum = Hyper::new(alloc, self.rows, self.cols);
        'layers: for layer in &self.layers {
            sum = layer.added(alloc, sum)?;
        }
        Ok(sum)
    }

    /// The sum of all counts of all layers, below 2^64. No memory, constant time for each layer.
    pub fn total(&self) -> u64
        ensures value { result ≡ total (content self.now.layers) }
        ensures fits { total (content self.now.layers) < 2 ^ 64 }
    {
        let mut sum = 0;
        'totals: for layer in &self.layers {
            sum += layer.total();
        }
        sum
    }

    /// All layers, the first one first, and after the last one what was handed down. Constant time.
    pub(crate) fn all(&self) -> &[Arc<Layer>]
        ensures seen { seen_layers (all_counts (values result.now)) ≡ self.now.layers }
        ensures below { lowest (all_counts (values result.now)) ≡ self.now.below }
    {
        self.layers.as_slice()
    }

    /// The number of entries of layer `i`, counted from 1; `None` for 0 and past the last layer. No memory.
    /// Constant time where the layer holds one matrix, and for those in front whose places are known (`plan`), and a
    /// step for each cell where it holds two of like size. Else each cell, but those of the first, is looked up in the
    /// matrices before its own: at most 31 bisections. For the last layer each is also looked up in what was handed down.
    pub fn layer_entries(&self, i: usize) -> Option<u64>
        ensures { result ≡ entries_of_layer self.now.layers i }
    {
        let last = self.cuts.len() + 1;
        if i == 0 || i > last {
            return None;
        }
        let layer = &self.layers[i - 1];
        if i < last {
            return Some(layer.entries());
        }
        Some(entries_over(layer, &self.layers[i]))
    }
}

impl Layers {
    /// The count at a place of the sum of all layers, or `None` if no layer has an entry there. Rows and columns count
    /// from 0; a place out of range has none. Takes no memory; a word of the filter of each matrix that has one, and a
    /// bisection in each that may have the place.
    pub fn get(&self, row: u64, col: u64) -> Option<u64>
        ensures value { result ≡ get (content self.now.layers) (row, col) }
        ensures outside { (self.now.rows ≤ row) ⊎ (self.now.cols ≤ col) → result ≡ None }
    {
        let mut count = None;
        'counts: for layer in &self.layers {
            count = plus(count, layer.get(row, col));
        }
        count
    }

    /// The entries of a row, counted from 0, of the sum of all layers: how many columns have one, and the sum of their
    /// counts. Zeros for a row out of range. No memory. The first matrix that has the row, from the deepest layer on,
    /// is counted by itself; in the others each cell of the row takes a bisection, and a look-up, as `get` takes it, in
    /// each matrix before until one has the column.
    pub fn row_total(&self, row: u64) -> RowSum
        ensures entries { result.entries ≡ len (row_of (content self.now.layers) row) }
        ensures total { result.total ≡ total (row_of (content self.now.layers) row) }
        ensures outside { self.now.rows ≤ row → (result.entries ≡ 0) × (result.total ≡ 0) }
    {
        RowSum {
            entries: self.row_entries(row),
            total: self.row_counts(row),
        }
    }

    // The counts of a row together.
    fn row_counts(&self, row: u64) -> u64
        ensures value { result ≡ total (row_of (content self.now.layers) row) }
        ensures outside { self.now.rows ≤ row → result ≡ 0 }
    {
        let mut sum = 0;
        'rows: for layer in &self.layers {
            sum += layer.row_counts(row);
        }
        sum
    }

    // The number of columns with an entry in a row, counted from the deepest layer to the first.
    fn row_entries(&self, row: u64) -> u64
        ensures value { result ≡ len (row_of (content self.now.layers) row) }
        ensures outside { self.now.rows ≤ row → result ≡ 0 }
    {
        let layers = self.layers.as_slice();
        let mut entries = 0;
        let mut place = layers.len();
        'layers: while place > 0 {
            let deeper = &layers[place..];
            place -= 1;
            entries = columns_with_layer(entries, &layers[place], deeper, row);
        }
        entries
    }
}
