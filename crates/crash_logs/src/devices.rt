//! A folder and its files as a life sees them. They don't tell what they hold, as real ones: contracts say when they
//! failed, and the rest is for this program to see.
ghost use Rattle.std.specs.Prelude.{◌≡◌, ◌+◌, ◌<◌, ◌^◌, [], None, ⊤, true, false};

use crate::world::World;
use byte_io::DeviceFault;
use log_disk::LogDisk;
use log_folder::{FoundFile, LogFolder, NumberedFile};
use std::cell::RefCell;

/// A file of the world.
#[derive(Drop)]
pub struct CrashDisk<'a> {
    world: &'a RefCell<World>,
    file: usize,
    in_doubt: bool,
    failures: u64,
}

impl<'a> CrashDisk<'a> {
    fn new(world: &'a RefCell<World>, file: usize) -> CrashDisk<'a>
        ensures sound { result.in_doubt ≡ false }
        ensures failures { result.failures ≡ 0 }
    {
        CrashDisk {
            world,
            file,
            in_doubt: false,
            failures: 0,
        }
    }

    /// Counts a call that fails.
    fn fail(&mut self) -> DeviceFault
        requires { self.old.failures + 1 < 2 ^ 64 }
        ensures failures { self.new.failures ≡ self.old.failures + 1 }
        ensures sound { self.new.in_doubt ≡ self.old.in_doubt }
    {
        self.failures += 1;
        DeviceFault
    }

    /// Counts a call that fails and leaves the file in doubt.
    fn doubt(&mut self) -> DeviceFault
        requires { self.old.failures + 1 < 2 ^ 64 }
        ensures failures { self.new.failures ≡ self.old.failures + 1 }
        ensures sound { self.new.in_doubt ≡ true }
    {
        self.in_doubt = true;
        self.fail()
    }
}

impl<'a> LogDisk for CrashDisk<'a> {
    ghost telling = { ⊥ };

    ghost tells = { λ s. ⊥ };

    ghost written = { λ s. [] };

    ghost may_leave = { λ s left. ⊥ };

    ghost is_fresh = { λ s i. ⊥ };

    ghost moment = { λ s. 0 };

    ghost left_since = { λ s t left. ⊥ };

    ghost failure_count = { λ s. s.failures };

    ghost in_doubt = { λ s. s.in_doubt };

    ghost lost_name = { ⊤ };

    ghost counts_now = { λ file t left later may. may };

    ghost only_now = { λ file left since. since };

    fn read_at(&mut self, at: u64, buf: &mut [u8]) -> Result<(), DeviceFault> {
        if let Ok(mut world) = self.world.try_borrow_mut() {
            if world.read_at(self.file, at, buf).is_ok() {
                return Ok(());
            }
        }
        Err(self.fail())
    }

    fn write_at(&mut self, at: u64, bytes: &[u8]) -> Result<(), DeviceFault> {
        if let Ok(mut world) = self.world.try_borrow_mut() {
            if world.write_at(self.file, at, bytes).is_ok() {
                return Ok(());
            }
        }
        Err(self.doubt())
    }

    fn fill(&mut self, at: u64, zeros: &[u8]) -> Result<(), DeviceFault> {
        if let Ok(mut world) = self.world.try_borrow_mut() {
            if world.fill(self.file, at, zeros).is_ok() {
                return Ok(());
            }
        }
        Err(self.fail())
    }

    fn cut(&mut self, len: u64) -> Result<(), DeviceFault> {
        if let Ok(mut world) = self.world.try_borrow_mut() {
            if world.cut(self.file, len).is_ok() {
                return Ok(());
            }
        }
        Err(self.doubt())
    }

    fn sync(&mut self) -> Result<(), DeviceFault> {
        if let Ok(mut world) = self.world.try_borrow_mut() {
            if world.sync(self.file).is_ok() {
                return Ok(());
            }
        }
        Err(self.doubt())
    }

    fn failures(&self) -> u64 {
        self.failures
    }

    fn is_in_doubt(&self) -> bool {
        self.in_doubt
    }
}

/// The folder of the world.
#[derive(Drop)]
pub struct CrashFolder<'a> {
    world: &'a RefCell<World>,
    failures: u64,
}

impl<'a> CrashFolder<'a> {
    pub fn new(world: &'a RefCell<World>) -> CrashFolder<'a>
        ensures { result.failures ≡ 0 }
    {
        CrashFolder { world, failures: 0 }
    }

    /// Counts a call that fails.
    fn fail(&mut self) -> DeviceFault
        requires { self.old.failures + 1 < 2 ^ 64 }
        ensures { self.new.failures ≡ self.old.failures + 1 }
    {
        self.failures += 1;
        DeviceFault
    }

    fn found(&self) -> Result<Option<(usize, u64)>, DeviceFault> {
        match self.world.try_borrow_mut() {
            Ok(mut world) => world.find(),
            Err(_) => Err(DeviceFault),
        }
    }

    fn made(&self) -> Result<usize, DeviceFault> {
        match self.world.try_borrow_mut() {
            Ok(mut world) => world.make_new(),
            Err(_) => Err(DeviceFault),
        }
    }
}

impl<'a> LogFolder for CrashFolder<'a> {
    type Disk = CrashDisk<'a>;

    ghost tells = { λ s. ⊥ };

    ghost stored = { λ s disk. ⊥ };

    ghost named = { λ s. None };

    ghost made = { λ s. None };

    ghost may_name = { λ s x. ⊥ };

    ghost call_gives = { λ s call answer t. ⊤ };

    ghost failure_count = { λ s. s.failures };

    ghost files_tell = { λ folder. (λ told. told, λ told. told) };

    fn find(&mut self) -> Result<Option<FoundFile<CrashDisk<'a>>>, DeviceFault> {
        match self.found() {
            Ok(Some((file, length))) => {
                let disk = CrashDisk::new(self.world, file);
                let file = NumberedFile {
                    disk,
                    number: file as u64,
                };
                Ok(Some(FoundFile { file, length }))
            }
            Ok(None) => Ok(None),
            Err(_) => Err(self.fail()),
        }
    }

    fn make_new(&mut self) -> Result<NumberedFile<CrashDisk<'a>>, DeviceFault> {
        match self.made() {
            Ok(file) => Ok(NumberedFile {
                disk: CrashDisk::new(self.world, file),
                number: file as u64,
            }),
            Err(_) => Err(self.fail()),
        }
    }

    fn take_name(&mut self, file: &NumberedFile<CrashDisk<'a>>) -> Result<(), DeviceFault> {
        if let Ok(mut world) = self.world.try_borrow_mut() {
            if world.take_name(file.disk.file).is_ok() {
                return Ok(());
            }
        }
        Err(self.fail())
    }

    fn sync_names(&mut self) -> Result<(), DeviceFault> {
        if let Ok(mut world) = self.world.try_borrow_mut() {
            if world.sync_names().is_ok() {
                return Ok(());
            }
        }
        Err(self.fail())
    }

    /// A file without a name takes no room in memory that matters.
    fn remove_new(&mut self) {}

    fn failures(&self) -> u64 {
        self.failures
    }
}
