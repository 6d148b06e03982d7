//! Puts the log that was read behind a snapshot's list.
ghost use Rattle.std.specs.Prelude.{◌≡◌, IfErr, IfOk, OnOk, length};
ghost use Rattle.batch_store.specs.Batches.{values};
ghost use Rattle.batch_store.specs.Books.{AreAccepted, HaveDims, accepted_in};
ghost use Rattle.snap_file.specs.Origins.{IsOtherBook};
ghost use Rattle.log_join.specs.Joins.{Joins, RefusesJoin, known_entries};
ghost use Rattle.log_join.specs.declared.fault.JoinFault.{JoinFault};
ghost use Rattle.log_start.specs.Starts.{of_join};

use crate::fault::StartFault;
use crate::read::FoundLog;
use crate::told::fault_of_join;
use batch_store::{BookList, Setup};
use log_join::join_log;
use snap_file::Identity;
use std::alloc::Global;

/// How many batches a list has.
pub fn count_of(list: &BookList) -> u64
    ensures { result ≡ length (known_entries list.now) }
{
    (list.folded.len() + list.batches.len()) as u64
}

/// The list of a snapshot of this identity, where it says one, and the log that was read.
pub fn join_found(
    alloc: Global,
    setup: &Setup,
    whose: &Identity,
    known: BookList,
    log: &FoundLog,
) -> Result<BookList, StartFault>
    requires accepted { AreAccepted setup.now (accepted_in known) }
    requires dims { HaveDims log.now.head.setup.rows log.now.head.setup.cols (values log.now.batches.items) }
    ensures book { OnOk result (IsOtherBook whose.now log.now.head.identity → ⊥) }
    ensures ok { IfOk result (Joins setup.now known log.now.head (values log.now.batches.items)) }
    ensures err { IfErr result (λ fault. (why : JoinFault) × (fault ≡ of_join why)
        × RefusesJoin setup.now whose.now known log.now.head (values log.now.batches.items) why) }
{
    match join_log(alloc, setup, whose, known, &log.head, &log.batches) {
        Ok(list) => Ok(list),
        Err(fault) => Err(fault_of_join(fault)),
    }
}
