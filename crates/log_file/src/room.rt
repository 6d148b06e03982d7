//! Makes room for blocks: zeros behind a log.
ghost use Rattle.std.specs.Prelude.{◌≡◌, ◌⊎◌, ℕ, ◌+◌, ◌*◌, ◌<◌, ◌≤◌, ◌^◌, List, length, slice_index};
ghost use Rattle.std.specs.Prelude.{OnOk, OnErr, IsErrOf, true, false};
ghost use Rattle.log_disk.specs.Disk.{LeavesOnly};
ghost use Rattle.log_file.specs.declared.room.RoomFault.TheVariants.{Full, Failed};
ghost use Rattle.log_file.specs.Logs.{Log, HoldsLog};
ghost use Rattle.log_file.specs.Runs.{Stays};
ghost use Rattle.log_file.specs.Writer.{IsBehind, IsLong, IsSettled};

use crate::writer::LogWriter;
use byte_io::DeviceFault;
use log_disk::LogDisk;
use thiserror::Error;

/// Why there is no room.
#[derive(Clone, Copy, Debug, PartialEq, Eq, Error)]
pub enum RoomFault {
    /// The zeros could not be written, as on a disk without space. The log is in use as before.
    #[error("the disk has no room")]
    Full,
    /// A sync failed. No other call of the file may be made.
    #[error("a sync failed")]
    Failed,
}

/// As many pages as are written as zeros in one call, and their bytes.
const STRETCH_PAGES: u64 = 16;

const STRETCH: usize = 65536;

/// Zeros for one call.
fn stretch_of_zeros() -> [u8; STRETCH]
    ensures { (j : ℕ) → slice_index result j ≡ 0 }
{
    [0; STRETCH]
}

/// Zeros of so many pages, at most a stretch.
fn zeros_of(stretch: &[u8; STRETCH], pages: u64) -> &[u8]
    requires pages { pages ≤ 16 }
    requires zeros { (j : ℕ) → slice_index stretch.now j ≡ 0 }
    ensures zeros { (j : ℕ) → slice_index result.now j ≡ 0 }
    ensures long { length result.now ≡ 4096 * pages }
{
    &stretch[..4096 * pages as usize]
}

/// Writes zeros behind a log, from a page on.
fn fill_pages<D: LogDisk>(disk: &mut D, from: u64, pages: u64) -> Result<(), DeviceFault>
    ghost log: { Log }
    requires told { D.telling → D.tells disk.old ×
        IsBehind D.written D.may_leave disk.old (4096 * from) log }
    requires working { D.in_doubt disk.old ≡ false }
    requires failures { D.failure_count disk.old + 1 < 2 ^ 64 }
    requires fits { 4096 * (from + pages) < 2 ^ 63 }
    ensures stays { D.telling →
        Stays D.written D.may_leave D.moment D.left_since (HoldsLog log) disk.old disk.new }
    ensures long { D.tells disk.old →
        OnOk result (0 < pages → 4096 * (from + pages) ≤ length (D.written disk.new)) }
    ensures no_shorter { D.tells disk.old → (n : ℕ) → IsLong D.written D.may_leave disk.old n →
        IsLong D.written D.may_leave disk.new n }
    ensures tells { D.tells disk.old → D.tells disk.new }
    ensures sound { D.in_doubt disk.new ≡ false }
    ensures ok { OnOk result (D.failure_count disk.new ≡ D.failure_count disk.old) }
    ensures err { OnErr result (D.failure_count disk.new ≡ D.failure_count disk.old + 1) }
{
    let stretch = stretch_of_zeros();
    let count = (pages + (STRETCH_PAGES - 1)) / STRETCH_PAGES;
    for i in 0..count {
        let done = STRETCH_PAGES * i;
        let zeros = zeros_of(&stretch, STRETCH_PAGES.min(pages - done));
        disk.fill(4096 * (from + done), zeros)?;
    }
    Ok(())
}

impl LogWriter {
    /// Writes zeros behind the log and its room for so many pages more, and syncs them, so that blocks which fit the
    /// room need no space of the disk. On a file system that copies what is written the room is no promise.
    ///
    /// Whatever it answers, the log is settled as before.
    pub fn make_room<D: LogDisk>(&mut self, disk: &mut D, pages: u64) -> Result<(), RoomFault>
        ghost log: { Log }
        requires told { D.telling → D.tells disk.old ×
            IsSettled D.written D.may_leave disk.old self.old log }
        requires working { D.in_doubt disk.old ≡ false }
        requires failures { D.failure_count disk.old + 1 < 2 ^ 64 }
        requires fits { 4096 * (self.old.page + self.old.room + pages) < 2 ^ 63 }
        ensures settled { D.telling → IsSettled D.written D.may_leave disk.new self.new log }
        // A loss of power at any moment of the call leaves the log, which is read as it is (`settled_logs_are_read`).
        ensures any_moment { D.telling →
            LeavesOnly D.moment D.left_since disk.old disk.new (HoldsLog log) }
        ensures mark { (self.new.first ≡ self.old.first) × (self.new.next ≡ self.old.next)
            × (self.new.page ≡ self.old.page) }
        ensures room { OnOk result (self.new.room ≡ self.old.room + pages) }
        // The room is in the file, and a loss of power leaves it there.
        ensures written { D.tells disk.old → OnOk result (0 < pages →
            IsLong D.written D.may_leave disk.new (4096 * (self.new.page + self.new.room))) }
        // Whatever it answers, no room is lost.
        ensures room_stays { D.telling →
            IsLong D.written D.may_leave disk.old (4096 * (self.old.page + self.old.room)) →
            IsLong D.written D.may_leave disk.new (4096 * (self.new.page + self.new.room)) }
        ensures same { OnErr result (self.new ≡ self.old) }
        ensures working { OnOk result ((D.in_doubt disk.new ≡ false)
            × (D.failure_count disk.new ≡ D.failure_count disk.old)) }
        ensures cause { OnErr result (D.failure_count disk.new ≡ D.failure_count disk.old + 1) }
        ensures full { IsErrOf result Full → D.in_doubt disk.new ≡ false }
        ensures failed { IsErrOf result Failed → D.in_doubt disk.new ≡ true }
        ensures tells { D.tells disk.old → D.tells disk.new }
    {
        if fill_pages(disk, self.page + self.room, pages).is_err() {
            return Err(RoomFault::Full);
        }
        if disk.sync().is_err() {
            return Err(RoomFault::Failed);
        }
        self.room += pages;
        Ok(())
    }

    /// Cuts off what stands behind the room, as zeros that were written for room that wasn't to be had, so that they
    /// take no space from others. Whatever it answers, the log is settled as before.
    ///
    /// # Errors
    ///
    /// `DeviceFault`: the cut failed. No other call of the file may be made.
    pub fn cut_room<D: LogDisk>(&self, disk: &mut D) -> Result<(), DeviceFault>
        ghost log: { Log }
        requires told { D.telling → D.tells disk.old ×
            IsSettled D.written D.may_leave disk.old self.now log }
        requires working { D.in_doubt disk.old ≡ false }
        requires failures { D.failure_count disk.old + 1 < 2 ^ 64 }
        requires fits { 4096 * (self.now.page + self.now.room) < 2 ^ 63 }
        ensures settled { D.telling → IsSettled D.written D.may_leave disk.new self.now log }
        // A loss of power at any moment of the call leaves the log, which is read as it is (`settled_logs_are_read`).
        ensures any_moment { D.telling →
            LeavesOnly D.moment D.left_since disk.old disk.new (HoldsLog log) }
        // The file ends with the room, and has all of it.
        ensures cut { D.tells disk.old →
            OnOk result (length (D.written disk.new) ≤ 4096 * (self.now.page + self.now.room)) }
        ensures room_stays { D.tells disk.old →
            IsLong D.written D.may_leave disk.old (4096 * (self.now.page + self.now.room)) →
            IsLong D.written D.may_leave disk.new (4096 * (self.now.page + self.now.room)) }
        ensures working { OnOk result ((D.in_doubt disk.new ≡ false)
            × (D.failure_count disk.new ≡ D.failure_count disk.old)) }
        ensures doubt { OnErr result (D.in_doubt disk.new ≡ true) }
        ensures cause { OnErr result (D.failure_count disk.new ≡ D.failure_count disk.old + 1) }
        ensures tells { D.tells disk.old → D.tells disk.new }
    {
        disk.cut(4096 * (self.page + self.room))
    }
}
