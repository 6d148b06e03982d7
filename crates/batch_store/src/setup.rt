//! What a store is made with: dimensions, cuts, shards and limits, each within its range.
ghost use Rattle.std.specs.Prelude.{◌≡◌, ℕ, ◌-◌, ◌<◌, ◌≤◌, ◌^◌, ◌++◌, length, take, replicate, IfOk, IfErr};
ghost use Rattle.cells.specs.Bounds.{IsDimension};
ghost use Rattle.layer_cascade.specs.Cuts.{AreCuts};
ghost use Rattle.batch_store.specs.Setups.{Setting, setting, IsSetting, FirstFails, padded};

use crate::fault::SetupFault;
use crate::limits::{MAX_BATCHES, MAX_SHARDS};
use cells::MAX_DIMENSION;
use layer_cascade::{MAX_CUTS, are_cuts};
use std::alloc::AllocError;
use std::marker::Model;

/// The dimensions, cuts, shards and limits of a store: 112 bytes, copied freely.
///
/// Contracts see each value under the name of its call. Each lies within its range, and each call says so.
pub struct Setup {
    rows: u64,
    cols: u64,
    // The cuts, and zeros behind them.
    cuts: [u64; MAX_CUTS],
    cut_count: usize,
    shards: u64,
    limit: u64,
    max_batches: u64,
}

impl Model for Setup {
    ghost use Rattle.std.specs.Prelude.{length, take};
    ghost use Rattle.batch_store.specs.Setups.{Setting, setting, coded_setting, padded, KeepsSetting};
    ghost use Rattle.std.proofs.Common.{ap, ◌∙◌};

    ghost Value = { Setting };

    ghost coded = { coded_setting };

    ghost view = { λ a. setting a.rows a.cols (take a.cut_count a.cuts) a.shards a.limit a.max_batches };

    ghost invariant = { λ a. KeepsSetting
        (setting a.rows a.cols (take a.cut_count a.cuts) a.shards a.limit a.max_batches) a.cuts a.cut_count };

    ghost inverse = { λ v. record {
      rows = v.rows;
      cols = v.cols;
      cuts = padded v.cuts;
      cut_count = length v.cuts;
      shards = v.shards;
      limit = v.limit;
      max_batches = v.max_batches;
    } };

    ghost inverse_ok = { λ a h i. record {
      rows = a.rows;
      cols = a.cols;
      cuts = h.padded.told i;
      cut_count = h.padded.counted i;
      shards = a.shards;
      limit = a.limit;
      max_batches = a.max_batches;
    } };
}

impl Clone for Setup {
    fn clone(&self) -> Result<Setup, AllocError> {
        Ok(*self)
    }
}

impl Copy for Setup {}

// These cuts, with zeros behind them.
fn padded_cuts(cuts: &[u64]) -> [u64; MAX_CUTS]
    requires { length cuts.now ≤ 7 }
    ensures { result ≡ padded cuts.now }
{
    let mut places = [0; MAX_CUTS];
    'fill: for i in 0..cuts.len() {
        places[i] = cuts[i];
    }
    places
}

impl Setup {
    /// A setup of these values. Takes no memory.
    ///
    /// - `rows` and `cols`: the dimensions of every matrix, each from 1 to 2^60.
    /// - `cuts`: those of each shard's layers, in entries, that of layer 1 first: at most 7, from 1 to 2^40, each
    ///   greater than the one before it.
    /// - `shards`: how many there are, from 1 to 64.
    /// - `limit`: the greatest total of all counts that may be accepted, from 1 to 2^64 - 1.
    /// - `max_batches`: the most batches that may be accepted, from 1 to 2^30.
    ///
    /// # Errors
    ///
    /// The fault of the first value, in this order, that lies outside its range.
    pub fn new(
        rows: u64,
        cols: u64,
        cuts: &[u64],
        shards: u64,
        limit: u64,
        max_batches: u64,
    ) -> Result<Setup, SetupFault>
        ensures ok { IfOk result (λ s. (s ≡ setting rows cols cuts.now shards limit max_batches) × IsSetting s) }
        ensures err { IfErr result (FirstFails (setting rows cols cuts.now shards limit max_batches)) }
    {
        if rows < 1 || rows > MAX_DIMENSION || cols < 1 || cols > MAX_DIMENSION {
            return Err(SetupFault::BadDimension);
        }
        if !are_cuts(cuts) {
            return Err(SetupFault::BadCuts);
        }
        if shards < 1 || shards > MAX_SHARDS {
            return Err(SetupFault::BadShards);
        }
        if limit < 1 {
            return Err(SetupFault::BadLimit);
        }
        if max_batches < 1 || max_batches > MAX_BATCHES {
            return Err(SetupFault::BadBatches);
        }
        Ok(Setup {
            rows,
            cols,
            cuts: padded_cuts(cuts),
            cut_count: cuts.len(),
            shards,
            limit,
            max_batches,
        })
    }

    /// The number of rows of every matrix, from 1 to 2^60. Constant time, as each of these calls.
    pub fn rows(&self) -> u64
        ensures value { result ≡ self.now.rows }
        ensures kept { IsSetting self.now }
    {
        self.rows
    }

    /// The number of columns of every matrix, from 1 to 2^60.
    pub fn cols(&self) -> u64
        ensures value { result ≡ self.now.cols }
        ensures kept { IsSetting self.now }
    {
        self.cols
    }

    /// The cuts of each shard's layers, in entries, that of layer 1 first.
    pub fn cuts(&self) -> &[u64]
        ensures value { result.now ≡ self.now.cuts }
        ensures kept { IsSetting self.now }
    {
        &self.cuts[..self.cut_count]
    }

    /// The number of shards, from 1 to 64.
    pub fn shards(&self) -> u64
        ensures value { result ≡ self.now.shards }
        ensures kept { IsSetting self.now }
    {
        self.shards
    }

    /// The greatest total of all counts that may be accepted, at least 1.
    pub fn limit(&self) -> u64
        ensures value { result ≡ self.now.limit }
        ensures kept { IsSetting self.now }
    {
        self.limit
    }

    /// The most batches that may be accepted, from 1 to 2^30.
    pub fn max_batches(&self) -> u64
        ensures value { result ≡ self.now.max_batches }
        ensures kept { IsSetting self.now }
    {
        self.max_batches
    }
}
