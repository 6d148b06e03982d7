//! What a save asks of the folder of a log.
ghost use Rattle.std.specs.Prelude.{◌≡◌, ◌⊎◌, ℕ, List, [], true, false, IfOk, OnOk, OnErr, IsSomeAnd};
ghost use Rattle.batch_store.specs.declared.verdict.Entry.{Entry};
ghost use Rattle.batch_store.specs.Accepted.{entries_in};
ghost use Rattle.batch_store.specs.Books.{AreAccepted, accepted_in};
ghost use Rattle.batch_store.specs.Setups.{Setting};
ghost use Rattle.snap_file.specs.declared.origin.Identity.{Identity};
ghost use Rattle.session_pool.specs.Saves.{of_book};

use crate::disk::Disk;
use batch_store::{BookList, Setup};
use log_desk::Log;
use log_folder::LogNews;
use snap_file::{Identity, SaveFault};
use std::alloc::Global;
use std::sync::Arc;

/// A place where a log can be begun anew. As of a `Disk`, workers know this trait, and every runtime with files has it
/// for logs in files.
///
/// `path` is that of the log, and `snapshot` that of the snapshot beside which it stands, if there is one. Why a call on
/// the new log or its folder fails is noted in `news`, where there are some.
pub trait LogPlace<L: Log> {
    // What it has answered to be named: under this path, a log of these entries. Of a real folder's files no clause can
    // speak, so there it is any; but since callers are proved for every place, a log that they tell to have taken the
    // place of another was named by it.
    ghost names: { Self → List ℕ → List Entry → Type 0 };

    // What it has answered to be begun: beside the log under this path, a log of this setup and this identity, after
    // these entries.
    ghost begins: { Self → List ℕ → Setting → Identity → List Entry → Type 0 };

    /// Makes a new log of this setup and this identity beside the one under `path`, without blocks, after what the list
    /// has. The one in use isn't touched. Of the list's batches the new log has none: whoever begins it has saved them
    /// under `snapshot` of this disk, as of the same book, or the list has none.
    ///
    /// # Errors
    ///
    /// `Memory`, `Create`, `Write` or `Sync` where that step failed; `Create` too where the log of another book is under
    /// `path`. The new file is removed then, where that can be done.
    fn begin_log<D: Disk>(
        &self,
        disk: &D,
        alloc: Global,
        path: &str,
        snapshot: Option<&str>,
        identity: Identity,
        setup: &Setup,
        list: &BookList,
        news: Option<&Arc<LogNews>>,
    ) -> Result<L, SaveFault>
        requires accepted { AreAccepted setup.now (accepted_in list.now) }
        requires held { (entries_in (accepted_in list.now) ≡ []) ⊎ IsSomeAnd snapshot (λ saved.
            of_book D.saves identity disk.now saved.now setup.now (accepted_in list.now)) }
        ensures working { IfOk result (λ new. L.failed new ≡ false) }
        ensures durable { IfOk result (λ new. L.durable new ≡ entries_in (accepted_in list.now)) }
        ensures synced { IfOk result (λ new. L.was_synced (L.durable new)) }
        ensures begun { OnOk result (begins self.now path.now setup.now identity
            (entries_in (accepted_in list.now))) };

    /// Gives the new log, which is of this identity, the name, and makes that durable. Then it is in use, and the other
    /// one is closed.
    ///
    /// # Errors
    ///
    /// `Create` where the log of another book is under `path`, and `Memory` where the folder couldn't be named: the log in
    /// use is as it was, and the new one is given up.
    /// `Rename` where the new log wasn't renamed or the folder not synced. Then none is in use, since a loss of power
    /// may leave either: the log is failed.
    fn name_log(
        &self,
        alloc: Global,
        path: &str,
        snapshot: Option<&str>,
        identity: Identity,
        in_use: &mut L,
        new: L,
        news: Option<&Arc<LogNews>>,
    ) -> Result<(), SaveFault>
        requires working { L.failed new ≡ false }
        ensures working { OnOk result (L.failed in_use.new ≡ false) }
        ensures durable { OnOk result (L.durable in_use.new ≡ L.durable new) }
        ensures has_name { OnOk result (L.has_name in_use.new path.now) }
        ensures named { OnOk result (names self.now path.now (L.durable new)) }
        ensures stands { OnErr result ((in_use.new ≡ in_use.old) ⊎ ((L.failed in_use.new ≡ true) × L.has_failed)) };

    /// Gives a new log up: it is closed, and removed where that can be done. The one in use isn't touched.
    fn abandon_log(&self, alloc: Global, path: &str, new: L);
}
