//! A log in memory that is begun anew as the name of its path says.
ghost use Rattle.std.specs.Prelude.{⊤};

use batch_store::{Batch, BookList, Entry, Setup};
use log_desk::{FailAt, Log, LogFailed, MemoryLog, NoPause, RoomFault};
use log_folder::LogNews;
use session_pool::{Disk, LogPlace};
use snap_file::{Identity, SaveFault};
use std::alloc::Global;
use std::sync::Arc;

/// The path of a log that is begun anew without a fault.
pub const WELL: &str = "well";

/// That of one that can't be begun anew.
pub const NOT_BEGUN: &str = "not begun";

/// That of one whose new one has no room.
pub const NO_ROOM: &str = "no room";

/// That of one whose new one fails at its first sync.
pub const NOT_SYNCED: &str = "not synced";

/// That of one whose new one isn't given the name.
pub const NOT_NAMED: &str = "not named";

/// A log in memory, of a type of this crate.
#[derive(Drop)]
pub struct TestLog {
    pub log: MemoryLog<NoPause>,
}

impl Log for TestLog {
    ghost use Rattle.std.specs.Prelude.{length, ⊤};

    ghost durable = { λ l. l.log.entries.items };

    ghost failed = { λ l. l.log.failed };

    ghost ready = { λ l. l.log.ready };

    ghost takes = { λ list. length list };

    ghost has_name = { λ l path. ⊤ };

    ghost was_synced = { λ entries. ⊤ };

    ghost has_failed = { ⊤ };

    ghost was_full = { ⊤ };

    fn is_failed(&self) -> bool {
        self.log.is_failed()
    }

    fn room(&self) -> u64 {
        self.log.room()
    }

    fn pages_of(batches: &[Arc<Batch>]) -> u64 {
        batches.len() as u64
    }

    fn append(&mut self, batches: &[Arc<Batch>]) -> Result<(), LogFailed> {
        self.log.append(batches)
    }

    fn make_room(&mut self, pages: u64) -> Result<(), RoomFault> {
        self.log.make_room(pages)
    }
}

// How many pages a new log has that is begun under this path.
fn pages_under(path: &str) -> u64 {
    if path == NO_ROOM { 0 } else { 100_000 }
}

// Which call of it fails.
fn failure_under(path: &str) -> FailAt {
    if path == NOT_SYNCED {
        FailAt::Append(0)
    } else {
        FailAt::Never
    }
}

impl LogPlace<TestLog> for HostRuntime {
    ghost names = { λ place path entries. ⊤ };

    ghost begins = { λ place path setup identity entries. ⊤ };

    fn begin_log<D: Disk>(
        &self,
        _disk: &D,
        alloc: Global,
        path: &str,
        _snapshot: Option<&str>,
        _identity: Identity,
        _setup: &Setup,
        list: &BookList,
        _news: Option<&Arc<LogNews>>,
    ) -> Result<TestLog, SaveFault> {
        if path == NOT_BEGUN {
            return Err(SaveFault::Create);
        }
        let pages = pages_under(path);
        match MemoryLog::behind(alloc, list, pages, failure_under(path), NoPause) {
            Ok(log) => Ok(TestLog { log }),
            Err(_) => Err(SaveFault::Memory),
        }
    }

    fn name_log(
        &self,
        _alloc: Global,
        path: &str,
        _snapshot: Option<&str>,
        _identity: Identity,
        in_use: &mut TestLog,
        new: TestLog,
        _news: Option<&Arc<LogNews>>,
    ) -> Result<(), SaveFault> {
        if path == NOT_NAMED {
            in_use.log.fail();
            return Err(SaveFault::Rename);
        }
        *in_use = new;
        Ok(())
    }

    fn abandon_log(&self, _alloc: Global, _path: &str, new: TestLog) {
        drop(new);
    }
}
