//! A file that a snapshot is made in.
ghost use Rattle.std.specs.Prelude.{◌≡◌, ◌⊎◌, ◌+◌, ◌<◌, ◌≤◌, ◌^◌, Result, length, OnOk, IfErr};
ghost use Rattle.byte_io.specs.Writing.{HasTaken};
ghost use Rattle.batch_store.specs.Accepted.{Accepted, count_in, total_in};
ghost use Rattle.batch_store.specs.Books.{AreAccepted, accepted_in};
ghost use Rattle.batch_store.specs.Setups.{Setting};
ghost use Rattle.snap_file.specs.Snapshots.{HasBase};
ghost use Rattle.snap_file.specs.declared.fault.SaveFault.{SaveFault};
ghost use Rattle.snap_file.specs.declared.origin.Origin.{Origin};
ghost use Rattle.snap_report.specs.Made.{IsMade, LeavesMade, made_line};

use crate::check::{LINE_CAPACITY, push_number};
use crate::fault::CheckFault;
use crate::sum::total_of_list;
use arrayvec::ArrayString;
use batch_store::{BookList, GrowthFault, Misfit, Setup};
use byte_io::{Sink, WriteFault, write_all};
use snap_file::{Origin, SaveFault};
use std::alloc::Global;
use thiserror::Error;

/// Why a snapshot was not made of what was read, or that not reported.
#[derive(Clone, Copy, Debug, PartialEq, Eq, Error)]
pub enum MakeFault {
    /// The snapshot or the log could not be read, or they don't belong together, or there was no memory.
    #[error(transparent)]
    Read(CheckFault),
    /// The snapshot is of a window, which has its book's name and stays in it.
    #[error("snapshot: HasWindow")]
    HasWindow,
    /// A number that was given is too small for what was read.
    #[error("settings: SnapshotDiffers ({0})")]
    TooSmall(Misfit),
    /// Other numbers than the snapshot's were given without the log that goes with it: that may have more batches.
    #[error("settings: NeedsLog (PATH: a log goes with it)")]
    NeedsLog,
    /// The file could not be made: a new one's name is taken, or a call has failed.
    #[error(transparent)]
    Save(SaveFault),
    /// The line was not written whole. The file is made.
    #[error(transparent)]
    Output(WriteFault),
}

impl From<CheckFault> for MakeFault {
    ghost use Rattle.std.specs.Prelude.{◌≡◌};
    ghost use Rattle.snap_report.specs.declared.making.MakeFault.TheVariants.{Read};

    ghost from_gives = { λ fault e. e ≡ Read fault };

    fn from(fault: CheckFault) -> MakeFault {
        MakeFault::Read(fault)
    }
}

impl From<GrowthFault> for MakeFault {
    ghost use Rattle.std.specs.Prelude.{◌≡◌};
    ghost use Rattle.snap_report.specs.Made.{make_fault_of_growth};

    ghost from_gives = { λ fault e. e ≡ make_fault_of_growth fault };

    fn from(fault: GrowthFault) -> MakeFault {
        match fault {
            GrowthFault::TooSmall(misfit) => MakeFault::TooSmall(misfit),
            GrowthFault::Memory => MakeFault::Read(CheckFault::Memory),
        }
    }
}

/// A file that a snapshot is made in: a new one, where nothing may have its name, or one that takes another's place.
///
/// As of a `SnapshotFile`, one call is a relation between what is before it, its answer and what is after it.
pub trait NewSnapshot {
    // What the making of a snapshot of this origin, of this setup and of what was accepted may answer, and what it
    // leaves.
    ghost make_gives: { Self → Origin → Setting → Accepted → Result (Unit {0}) SaveFault → Self → Type 0 };

    /// Makes the file, whole and durable. `Rename` where something has a name that must be free.
    fn make(
        &mut self,
        alloc: Global,
        origin: Origin,
        setup: &Setup,
        list: &BookList,
    ) -> Result<(), SaveFault>
        requires accepted { AreAccepted setup.now (accepted_in list.now) }
        requires based { HasBase setup.now list.now }
        ensures { make_gives self.old origin setup.now (accepted_in list.now) result self.new };
}

// A word, so many batches, and this total.
pub(crate) fn line_of(word: &str, batches: u64, total: u64) -> ArrayString<LINE_CAPACITY>
    requires { length word.now ≤ 100 }
    ensures { result.bytes ≡ made_line word.now batches total }
{
    let mut line = ArrayString::new();
    push_number(&mut line, word, batches);
    push_number(&mut line, " total ", total);
    line.push_str("\n");
    line
}

// How many batches a list has, folded or not.
fn count_of(list: &BookList) -> u64
    ensures { result ≡ count_in (accepted_in list.now) }
{
    list.folded.len() as u64 + list.batches.len() as u64
}

// Their total.
fn accepted_total(setup: &Setup, list: &BookList) -> u64
    requires { AreAccepted setup.now (accepted_in list.now) }
    ensures { result ≡ total_in (accepted_in list.now) }
{
    total_of_list(setup, list)
}

// Makes the file of a setup and a list.
pub(crate) fn make_file<N: NewSnapshot>(
    alloc: Global,
    origin: Origin,
    setup: &Setup,
    list: &BookList,
    new: &mut N,
) -> Result<(), MakeFault>
    requires accepted { AreAccepted setup.now (accepted_in list.now) }
    requires based { HasBase setup.now list.now }
    ensures made { OnOk result (IsMade N.make_gives new.old new.new origin setup.now (accepted_in list.now)) }
    ensures later { IfErr result LeavesMade }
{
    match new.make(alloc, origin, setup, list) {
        Ok(()) => Ok(()),
        Err(fault) => Err(MakeFault::Save(fault)),
    }
}

// Writes the line of a list that a file was made of.
pub(crate) fn write_made<W: Sink>(
    w: &mut W,
    word: &str,
    setup: &Setup,
    list: &BookList,
) -> Result<(), MakeFault>
    requires failures { W.failure_count w.old + 1 < 2 ^ 64 }
    requires word { length word.now ≤ 100 }
    requires accepted { AreAccepted setup.now (accepted_in list.now) }
    ensures written { OnOk result (HasTaken W.write_takes W.failure_count w.old w.new
        (made_line word.now (count_in (accepted_in list.now)) (total_in (accepted_in list.now)))) }
    ensures later { IfErr result LeavesMade }
{
    let line = line_of(word, count_of(list), accepted_total(setup, list));
    match write_all(w, line.as_str().as_bytes()) {
        Ok(()) => Ok(()),
        Err(fault) => Err(MakeFault::Output(fault)),
    }
}
