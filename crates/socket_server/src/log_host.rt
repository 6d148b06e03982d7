//! What a server asks of the place of its log at the start.
ghost use Rattle.std.specs.Prelude.{◌≡◌, ℕ, List, Option, Result, IfOk, false, ⊤};
ghost use Rattle.batch_store.specs.Accepted.{entries_in};
ghost use Rattle.batch_store.specs.Books.{Listing, AreAccepted, accepted_in};
ghost use Rattle.batch_store.specs.Setups.{Setting};
ghost use Rattle.log_start.specs.declared.fault.StartFault.{StartFault};
ghost use Rattle.log_start.specs.declared.owner.LogOwner.{LogOwner};
ghost use Rattle.socket_server.specs.declared.log_host.LogOrigin.{LogOrigin};
ghost use Rattle.snap_file.specs.Snapshots.{HasBase};
ghost use Rattle.socket_server.specs.Ends.{GoesOn};
ghost use Rattle.socket_server.specs.Starts.{IsAnswer, StartAnswer};

use batch_store::{BookList, Setup};
use log_desk::Log;
use log_folder::LogNews;
use log_start::{LogOwner, StartFault};
use snap_file::Identity;
use std::alloc::Global;
use std::sync::Arc;

/// What the head of a log says of itself: the setup of its blocks, and whose it is.
#[derive(Clone, Copy)]
pub struct LogOrigin {
    pub setup: Setup,
    /// Where it isn't known the log's version doesn't say it.
    pub identity: Identity,
}

/// A place where logs are found and begun. As with `Host`, a server knows this trait, and every runtime with files has
/// it for logs in files.
pub trait LogHost<L: Log> {
    // What it has answered to a start of the log under this path, of this setup and this owner, over what is known: the
    // bytes that it has read of the log's file, or none where none is there, the list of both together and the head of
    // the log; or why there is none. Of a real host's files no clause can speak, so there it is any.
    ghost log_starts: { Self → List ℕ → Setting → LogOwner → Listing → StartAnswer → Type 0 };

    // What it has answered to a look at the log under this path: the setup that its head says, or that there is none.
    ghost log_heads: { Self → List ℕ → Result (Option Setting) StartFault → Type 0 };

    /// The setup that the head of the log under `path` says, and None where no log is there. The caller holds the lock
    /// of the path.
    ///
    /// # Errors
    ///
    /// `Create` where the file can't be opened, and `Log` where its first page can't be read or isn't the head of a log.
    fn log_setup(&self, path: &str) -> Result<Option<Setup>, StartFault>
        ensures answer { log_heads self.now path.now result };

    /// Starts the log under `path`, beside the snapshot under `snapshot`, if there is one: finds it and joins it with
    /// what is known, or begins it after that. The list is what is known and the log's batches after it, all of them
    /// durable; the head is the log's. The caller holds the lock of the log's path. It is noted in `news` which log
    /// that is, and as long as it is in use why a call on it fails.
    ///
    /// # Errors
    ///
    /// As `log_start::start_log` says.
    fn start_log(
        &self,
        alloc: Global,
        path: &str,
        snapshot: Option<&str>,
        setup: &Setup,
        owner: &LogOwner,
        known: BookList,
        news: &Arc<LogNews>,
    ) -> Result<(L, BookList, LogOrigin), StartFault>
        requires accepted { AreAccepted setup.now (accepted_in known) }
        requires based { HasBase setup.now known }
        // The list is that of what is known and of the log that was read; of what is known alone only where no log is
        // there, and none must be.
        ensures answer { IsAnswer (log_starts self.now path.now setup.now owner.now known) setup.now owner.now known
            result }
        ensures accepted { IfOk result (λ r. AreAccepted setup.now (accepted_in r.1)) }
        ensures based { IfOk result (λ r. HasBase setup.now r.1) }
        ensures later { IfOk result (λ r. GoesOn (accepted_in known) (accepted_in r.1)) }
        ensures folded { IfOk result (λ r. r.1.folded ≡ known.folded) }
        ensures works { IfOk result (λ r. L.failed r.0 ≡ false) }
        ensures named { IfOk result (λ r. L.has_name r.0 path.now) }
        ensures durable { IfOk result (λ r. L.durable r.0 ≡ entries_in (accepted_in r.1)) }
        ensures synced { IfOk result (λ r. L.was_synced (entries_in (accepted_in r.1))) };
}
