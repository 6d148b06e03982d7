//! Makes room behind a log.
ghost use Rattle.std.specs.Prelude.{◌≡◌, ◌≢◌, ◌⊎◌, ◌+◌, ◌-◌, ◌*◌, ◌^◌, ◌<◌, ◌≤◌, OnOk, Err, true, false};
ghost use Rattle.log_file.specs.declared.room.RoomFault.{RoomFault};
ghost use Rattle.log_file.specs.Logs.{Log};
ghost use Rattle.log_file.specs.Writer.{IsSettled};
ghost use Rattle.stored_log.specs.Kept.{IsFull};
ghost use Rattle.stored_log.specs.Sizes.{most_pages};

use log_disk::LogDisk;
use log_file::RoomFault;
use open_log::OpenLog;

/// How many pages a log's file has at most: 2^40 bytes.
const MOST_PAGES: u64 = 268_435_456;

/// Whether a log with so many pages beside its own would get longer than logs may be, or so many calls of its disk have
/// failed that they can't be counted on.
fn is_at_limit<D: LogDisk>(log: &OpenLog<D>, pages: u64) -> bool
    requires { log.now.writer.page + log.now.writer.room ≤ most_pages }
    ensures yes { result ≡ true →
        (most_pages < log.now.writer.page + pages) ⊎ (2 ^ 64 - 2 ≤ D.failure_count log.now.file.disk) }
    ensures pages { result ≡ false → log.now.writer.page + pages ≤ most_pages }
    ensures failures { result ≡ false → D.failure_count log.now.file.disk + 2 < 2 ^ 64 }
{
    pages > MOST_PAGES - log.writer.mark().page || log.file.disk.failures() >= u64::MAX - 1
}

/// Makes so many pages ready behind a log.
///
/// # Errors
///
/// `Full`: they are not to be had; the log is in use as before, and what was written for them is cut off again.
/// `Failed`: a sync or that cut failed, and the disk is in doubt.
pub(crate) fn make_ready<D: LogDisk>(log: &mut OpenLog<D>, pages: u64) -> Result<(), RoomFault>
    ghost known: { Log }
    requires settled { D.telling → D.tells log.old.file.disk ×
        IsSettled D.written D.may_leave log.old.file.disk log.old.writer known }
    requires working { D.in_doubt log.old.file.disk ≡ false }
    requires failures { D.failure_count log.old.file.disk + 1 < 2 ^ 64 }
    requires pages { log.old.writer.page + log.old.writer.room ≤ most_pages }
    requires places { log.old.writer.next ≤ 2 ^ 62 + 170 * log.old.writer.page }
    ensures settled { D.telling → D.tells log.new.file.disk ×
        IsSettled D.written D.may_leave log.new.file.disk log.new.writer known }
    ensures room { OnOk result (pages ≤ log.new.writer.room) }
    ensures kept { log.old.writer.room ≤ log.new.writer.room }
    ensures working { result ≢ Err RoomFault.Failed → D.in_doubt log.new.file.disk ≡ false }
    ensures doubt { result ≡ Err RoomFault.Failed → D.in_doubt log.new.file.disk ≡ true }
    ensures full { result ≡ Err RoomFault.Full →
        (0 < D.failure_count log.new.file.disk) ⊎ (most_pages < log.new.writer.page + pages) }
    ensures cause { result ≡ Err RoomFault.Full → IsFull D.tells D.written D.failure_count log.old log.new pages }
    ensures failures { D.in_doubt log.new.file.disk ≡ false → D.failure_count log.new.file.disk + 1 < 2 ^ 64 }
    ensures pages { log.new.writer.page + log.new.writer.room ≤ most_pages }
    ensures places { log.new.writer.next ≤ 2 ^ 62 + 170 * log.new.writer.page }
    ensures number { log.new.file.number ≡ log.old.file.number }
{
    let room = log.writer.room();
    if pages <= room {
        return Ok(());
    }
    if is_at_limit(log, pages) {
        return Err(RoomFault::Full);
    }
    let answer = log.writer.make_room(&mut log.file.disk, pages - room);
    if answer != Err(RoomFault::Full) {
        return answer;
    }
    // The zeros that were written would keep a snapshot from the rest of the disk.
    if log.writer.cut_room(&mut log.file.disk).is_err() {
        return Err(RoomFault::Failed);
    }
    answer
}
