//! A disk that doesn't tell what it holds, as a real one: what the contracts say of such a one is when it failed, and
//! the rest is for the tests.
ghost use Rattle.std.specs.Prelude.{⊤};
ghost use Rattle.log_disk_tests.specs.Untold.{no_bytes};

use byte_io::DeviceFault;
use log_disk::{LogDisk, MemoryDisk};

#[derive(Drop)]
pub struct Untold {
    pub disk: MemoryDisk,
}

impl LogDisk for Untold {
    ghost telling = { ⊥ };

    ghost tells = { λ _. ⊥ };

    ghost written = { λ _. no_bytes };

    ghost may_leave = { λ _ _. ⊥ };

    ghost is_fresh = { λ _ _. ⊥ };

    ghost moment = { λ _. 0 };

    ghost left_since = { λ _ _ _. ⊥ };

    ghost failure_count = { λ d. d.disk.calls.failed };

    ghost in_doubt = { λ d. d.disk.calls.in_doubt };

    ghost lost_name = { ⊤ };

    ghost counts_now = { λ file t left le now. now };

    ghost only_now = { λ file left since. since };

    fn read_at(&mut self, at: u64, buf: &mut [u8]) -> Result<(), DeviceFault> {
        self.disk.read_at(at, buf)
    }

    fn write_at(&mut self, at: u64, bytes: &[u8]) -> Result<(), DeviceFault> {
        self.disk.write_at(at, bytes)
    }

    fn fill(&mut self, at: u64, zeros: &[u8]) -> Result<(), DeviceFault> {
        self.disk.fill(at, zeros)
    }

    fn cut(&mut self, len: u64) -> Result<(), DeviceFault> {
        self.disk.cut(len)
    }

    fn sync(&mut self) -> Result<(), DeviceFault> {
        self.disk.sync()
    }

    fn failures(&self) -> u64 {
        self.disk.failures()
    }

    fn is_in_doubt(&self) -> bool {
        self.disk.is_in_doubt()
    }
}
