//! A log's folder in memory that doesn't tell its files, as a real one, and notes its calls.
ghost use Rattle.std.specs.Prelude.{◌≡◌, ◌+◌, ◌<◌, ◌^◌, None, ⊤};

use crate::disk::Untold;
use byte_io::DeviceFault;
use log_disk::{LogDisk, MemoryDisk};
use log_folder::{FoundFile, LogFolder, NumberedFile};
use std::alloc::Global;

/// One call of the folder.
#[derive(Clone, Copy, Debug, PartialEq, Eq)]
pub enum Call {
    SyncNames,
    Find,
    MakeNew,
    TakeName,
    RemoveNew,
}

/// A folder with this file under the name, or none. The call that `fails` says fails, counted from 0 over all calls but
/// `RemoveNew`, and so does call number `disk_fails` of each file that it makes.
#[derive(Drop)]
pub struct TestFolder {
    alloc: Global,
    stored: Option<MemoryDisk>,
    fails: Option<u64>,
    disk_fails: Option<u64>,
    made: u64,
    failed: u64,
    // The calls so far, in their order.
    pub calls: Vec<Call>,
    // The number of the file under the name.
    pub named: Option<u64>,
}

impl TestFolder {
    pub fn new(
        alloc: Global,
        stored: Option<MemoryDisk>,
        fails: Option<u64>,
        disk_fails: Option<u64>,
    ) -> TestFolder
        ensures { result.failed ≡ 0 }
    {
        let named = if stored.is_some() { Some(0) } else { None };
        TestFolder {
            alloc,
            stored,
            fails,
            disk_fails,
            made: 0,
            failed: 0,
            calls: Vec::new(alloc),
            named,
        }
    }

    // Notes a call, and tells whether it fails.
    fn begins(&mut self, call: Call) -> bool
        ensures { self.new.failed ≡ self.old.failed }
    {
        let fails = self.fails == Some(self.made) || self.calls.push(call).is_err();
        self.made = self.made.saturating_add(1);
        fails
    }

    // Counts a call that failed.
    fn fail(&mut self) -> DeviceFault
        requires { self.old.failed + 1 < 2 ^ 64 }
        ensures { self.new.failed ≡ self.old.failed + 1 }
    {
        self.failed += 1;
        DeviceFault
    }
}

impl LogFolder for TestFolder {
    type Disk = Untold;

    ghost tells = { λ s. ⊥ };

    ghost stored = { λ s disk. ⊥ };

    ghost named = { λ s. None };

    ghost made = { λ s. None };

    ghost may_name = { λ s x. ⊥ };

    ghost call_gives = { λ s call answer t. ⊤ };

    ghost failure_count = { λ s. s.failed };

    ghost files_tell = { λ folder. (λ told. told, λ told. told) };

    fn find(&mut self) -> Result<Option<FoundFile<Untold>>, DeviceFault> {
        if self.begins(Call::Find) {
            return Err(self.fail());
        }
        let Some(disk) = self.stored.take() else {
            return Ok(None);
        };
        if disk.failures() != 0 || disk.is_in_doubt() {
            return Err(self.fail());
        }
        let length = disk.bytes().len() as u64;
        let file = NumberedFile {
            disk: Untold { disk },
            number: 0,
        };
        Ok(Some(FoundFile { file, length }))
    }

    fn make_new(&mut self) -> Result<NumberedFile<Untold>, DeviceFault> {
        if self.begins(Call::MakeNew) {
            return Err(self.fail());
        }
        let Ok(disk) = MemoryDisk::new(self.alloc, &[], 1, self.disk_fails) else {
            return Err(self.fail());
        };
        Ok(NumberedFile {
            disk: Untold { disk },
            number: 1,
        })
    }

    fn take_name(&mut self, file: &NumberedFile<Untold>) -> Result<(), DeviceFault> {
        if self.begins(Call::TakeName) {
            return Err(self.fail());
        }
        self.named = Some(file.number);
        Ok(())
    }

    fn sync_names(&mut self) -> Result<(), DeviceFault> {
        if self.begins(Call::SyncNames) {
            return Err(self.fail());
        }
        Ok(())
    }

    fn remove_new(&mut self) {
        let _ = self.calls.push(Call::RemoveNew);
    }

    fn failures(&self) -> u64 {
        self.failed
    }
}
