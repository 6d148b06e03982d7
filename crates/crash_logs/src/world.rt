//! What stands on the disk: the files of the log, its name and the snapshot. It stays from one life to the next.
ghost use Rattle.std.specs.Prelude.{◌≡◌, ℕ, ◌+◌, ◌<◌, ◌^◌, slice_index, false};

use crate::fault::{DEVICES, Fault, Place};
use crate::names::{Names, Snapshot};
use byte_io::DeviceFault;
use log_disk::{LogDisk, MemoryDisk, Picks};
use std::alloc::{AllocError, Global};

/// The bytes of a page.
const PAGE: usize = 4096;

/// A byte of a page that is 01 in each page of a block.
const KIND: usize = 7;

/// What becomes of a call.
#[derive(Clone, Copy, PartialEq, Eq)]
enum Call {
    Goes,
    Fails,
    /// The program has ended.
    Over,
}

/// The files, the names, and the life that uses them.
#[derive(Drop)]
pub struct World {
    alloc: Global,
    files: Vec<MemoryDisk>,
    names: Names,
    snapshot: Snapshot,
    fault: Fault,
    // The calls of each device so far.
    calls: [u64; DEVICES],
    picks: Picks,
    is_met: bool,
    is_over: bool,
}

/// Whether a file may be called no more.
fn is_unusable(disk: &MemoryDisk) -> bool
    ensures sound { result ≡ false → disk.now.calls.in_doubt ≡ false }
    ensures failures { result ≡ false → disk.now.calls.failed + 1 < 2 ^ 64 }
{
    disk.is_in_doubt() || disk.failures() > 1000
}

impl World {
    /// Of these files, for a life that goes wrong so.
    fn of(
        alloc: Global,
        files: Vec<MemoryDisk>,
        names: Names,
        snapshot: Snapshot,
        fault: Fault,
    ) -> World {
        World {
            alloc,
            files,
            names,
            snapshot,
            fault,
            calls: [0; DEVICES],
            picks: Picks::new(1),
            is_met: false,
            is_over: false,
        }
    }

    /// Of no file and no snapshot.
    pub fn new(alloc: Global, fault: Fault) -> World {
        let names = Names::new(alloc, None);
        World::of(alloc, Vec::new(alloc), names, Snapshot::of(0), fault)
    }

    /// How many batches the snapshot has.
    pub fn saved(&self) -> usize {
        self.snapshot.named
    }

    /// Whether the life has gone wrong.
    pub fn is_met(&self) -> bool {
        self.is_met
    }

    /// Whether the program has ended.
    pub fn is_over(&self) -> bool {
        self.is_over
    }

    /// Counts a call of a device.
    fn begin(&mut self, device: usize) -> Call {
        let Some(made) = self.calls.get_mut(device) else {
            return Call::Over;
        };
        let call = *made;
        *made = call.saturating_add(1);
        if self.is_over {
            return Call::Over;
        }
        let here = Place { device, call };
        let fault = self.fault;
        match fault {
            Fault::Fails(place) if place == here => {
                self.is_met = true;
                Call::Fails
            }
            Fault::Ends(place) if place == here => {
                self.is_met = true;
                self.is_over = true;
                Call::Goes
            }
            Fault::Fails(_) | Fault::Ends(_) | Fault::None => Call::Goes,
        }
    }

    // A call of a file that is to fail does so by itself.
    fn is_gone(&mut self, file: usize) -> bool {
        self.begin(file.saturating_add(1)) == Call::Over
    }

    pub fn read_at(&mut self, file: usize, at: u64, buf: &mut [u8]) -> Result<(), DeviceFault> {
        if self.is_gone(file) {
            return Err(DeviceFault);
        }
        match self.files.get_mut(file) {
            Some(disk) if !is_unusable(disk) => disk.read_at(at, buf),
            _ => Err(DeviceFault),
        }
    }

    pub fn write_at(&mut self, file: usize, at: u64, bytes: &[u8]) -> Result<(), DeviceFault> {
        if self.is_gone(file) {
            return Err(DeviceFault);
        }
        match self.files.get_mut(file) {
            Some(disk) if !is_unusable(disk) => disk.write_at(at, bytes),
            _ => Err(DeviceFault),
        }
    }

    pub fn fill(&mut self, file: usize, at: u64, zeros: &[u8]) -> Result<(), DeviceFault>
        requires zeros { (j : ℕ) → slice_index zeros.now j ≡ 0 }
    {
        if self.is_gone(file) {
            return Err(DeviceFault);
        }
        match self.files.get_mut(file) {
            Some(disk) if !is_unusable(disk) => disk.fill(at, zeros),
            _ => Err(DeviceFault),
        }
    }

    pub fn cut(&mut self, file: usize, len: u64) -> Result<(), DeviceFault> {
        if self.is_gone(file) {
            return Err(DeviceFault);
        }
        match self.files.get_mut(file) {
            Some(disk) if !is_unusable(disk) => disk.cut(len),
            _ => Err(DeviceFault),
        }
    }

    pub fn sync(&mut self, file: usize) -> Result<(), DeviceFault> {
        if self.is_gone(file) {
            return Err(DeviceFault);
        }
        match self.files.get_mut(file) {
            Some(disk) if !is_unusable(disk) => disk.sync(),
            _ => Err(DeviceFault),
        }
    }

    /// The file under the log's name, and how many bytes it has.
    pub fn find(&mut self) -> Result<Option<(usize, u64)>, DeviceFault> {
        if self.begin(0) != Call::Goes {
            return Err(DeviceFault);
        }
        let Some(file) = self.names.named else {
            return Ok(None);
        };
        match self.files.get(file) {
            Some(disk) => Ok(Some((file, disk.bytes().len() as u64))),
            None => Err(DeviceFault),
        }
    }

    /// Makes a file, and tells its number.
    pub fn make_new(&mut self) -> Result<usize, DeviceFault> {
        if self.begin(0) != Call::Goes {
            return Err(DeviceFault);
        }
        let file = self.files.len();
        let fail_at = self.fault.failing_in(file);
        let Ok(disk) = MemoryDisk::new(self.alloc, &[], file as u64, fail_at) else {
            return Err(DeviceFault);
        };
        match self.files.push(disk) {
            Ok(()) => Ok(file),
            Err(_) => Err(DeviceFault),
        }
    }

    /// Gives a file the log's name. A rename that fails may be done.
    pub fn take_name(&mut self, file: usize) -> Result<(), DeviceFault> {
        let call = self.begin(0);
        let is_done = match call {
            Call::Goes => true,
            Call::Fails => self.picks.below(2) == 1,
            Call::Over => false,
        };
        if is_done && self.names.put(file).is_err() {
            return Err(DeviceFault);
        }
        if call == Call::Goes {
            Ok(())
        } else {
            Err(DeviceFault)
        }
    }

    /// Makes the names of the log and of the snapshot durable.
    pub fn sync_names(&mut self) -> Result<(), DeviceFault> {
        if self.begin(0) != Call::Goes {
            return Err(DeviceFault);
        }
        self.names.sync();
        self.snapshot = Snapshot::of(self.snapshot.named);
        Ok(())
    }

    /// Gives a snapshot of so many batches, whose bytes are durable, its name. A rename that fails may be done.
    pub fn rename_snapshot(&mut self, count: usize) -> Result<(), DeviceFault> {
        let call = self.begin(0);
        let is_done = match call {
            Call::Goes => true,
            Call::Fails => self.picks.below(2) == 1,
            Call::Over => false,
        };
        if is_done {
            self.snapshot.named = count;
        }
        if call == Call::Goes {
            Ok(())
        } else {
            Err(DeviceFault)
        }
    }

    /// Makes the snapshot's name durable.
    pub fn sync_snapshot(&mut self) -> Result<(), DeviceFault> {
        if self.begin(0) != Call::Goes {
            return Err(DeviceFault);
        }
        self.snapshot = Snapshot::of(self.snapshot.named);
        Ok(())
    }

    /// A world of this file under the log's name, or of none, all of it durable.
    fn left_with(
        &self,
        file: Option<MemoryDisk>,
        snapshot: Snapshot,
        fault: Fault,
    ) -> Result<World, AllocError> {
        let mut files = Vec::new(self.alloc);
        let mut named = None;
        if let Some(disk) = file {
            files.push(disk)?;
            named = Some(0);
        }
        let names = Names::new(self.alloc, named);
        Ok(World::of(self.alloc, files, names, snapshot, fault))
    }

    /// The file under a name.
    fn file_at(&self, number: Option<usize>) -> Option<&MemoryDisk> {
        match number {
            Some(number) => self.files.get(number),
            None => None,
        }
    }

    /// What a loss of power leaves, as it is picked, for a life that goes wrong so.
    pub fn crash(&self, picks: &mut Picks, fault: Fault) -> Result<World, AllocError> {
        let named = self.names.left(picks);
        let snapshot = self.snapshot.left(picks);
        let file = match self.file_at(named) {
            Some(disk) => Some(disk.crash(self.alloc, picks, fault.failing_in(0))?),
            None => None,
        };
        self.left_with(file, snapshot, fault)
    }

    /// How many bytes the file under the log's name has.
    pub fn written(&self) -> usize {
        match self.file_at(self.names.named) {
            Some(disk) => disk.bytes().len(),
            None => 0,
        }
    }

    /// Whether this byte of the file under the log's name isn't durable.
    pub fn is_pending(&self, at: usize) -> bool {
        match self.file_at(self.names.named) {
            Some(disk) => disk.bytes().get(at) != disk.durable_bytes().get(at),
            None => false,
        }
    }

    /// What a loss of power leaves that has brought the first so many bytes of the file under the log's name.
    pub fn cut_at(&self, count: usize) -> Result<World, AllocError> {
        let mut bytes = Vec::new(self.alloc);
        if let Some(disk) = self.file_at(self.names.named) {
            bytes.extend_from_slice(front(disk.bytes(), count))?;
            bytes.extend_from_slice(behind(disk.durable_bytes(), count))?;
        }
        let file = MemoryDisk::new(self.alloc, &bytes, 1, None)?;
        self.left_with(Some(file), self.snapshot, Fault::None)
    }

    /// Whether a page of the file under the log's name and the one before it aren't durable.
    pub fn is_torn_at(&self, page: usize) -> bool {
        match page.checked_mul(PAGE) {
            Some(at) if at >= PAGE => {
                self.is_pending(at.saturating_add(KIND)) && self.is_pending(at - PAGE + KIND)
            }
            _ => false,
        }
    }

    /// What a loss of power leaves that has brought what was written from this page on, and nothing before it, for a
    /// life that goes wrong so.
    pub fn torn_at(&self, page: usize, fault: Fault) -> Result<World, AllocError> {
        let at = page.saturating_mul(PAGE);
        let mut bytes = Vec::new(self.alloc);
        if let Some(disk) = self.file_at(self.names.named) {
            bytes.extend_from_slice(front(disk.durable_bytes(), at))?;
            bytes.extend_from_slice(behind(disk.bytes(), at))?;
        }
        let file = MemoryDisk::new(self.alloc, &bytes, 1, fault.failing_in(0))?;
        self.left_with(Some(file), self.snapshot, fault)
    }

    /// What a kill leaves, for a life that goes wrong so: all that is written, of which no later sync brings what none
    /// has brought yet.
    pub fn kill(&self, fault: Fault) -> Result<World, AllocError> {
        let mut files = Vec::new(self.alloc);
        for disk in &self.files {
            files.push(disk.kill(self.alloc, fault.failing_in(files.len()))?)?;
        }
        let names = self.names.copy(self.alloc)?;
        Ok(World::of(self.alloc, files, names, self.snapshot, fault))
    }
}

/// The first so many bytes, or all where there are fewer.
fn front(bytes: &[u8], count: usize) -> &[u8] {
    if count < bytes.len() {
        &bytes[..count]
    } else {
        bytes
    }
}

/// The bytes from a place on, none where there are fewer.
fn behind(bytes: &[u8], from: usize) -> &[u8] {
    if from < bytes.len() {
        &bytes[from..]
    } else {
        &[]
    }
}
