//! The calls of a disk in memory: which one fails, and how many have failed.
ghost use Rattle.std.specs.Prelude.{◌≡◌, ℕ, ◌+◌, ◌<◌, ◌^◌, true, false, IsTrue, ◌↔◌, Some};

use byte_io::DeviceFault;

/// The calls so far, and the one that fails.
#[derive(Drop)]
pub(crate) struct Calls {
    // After 2^64 - 1 calls they are counted no further.
    made: u64,
    fail_at: Option<u64>,
    failed: u64,
    in_doubt: bool,
}

impl Calls {
    /// None so far; call number `fail_at`, counted from 0, fails.
    pub(crate) fn new(fail_at: Option<u64>) -> Calls
        ensures failed { result.failed ≡ 0 }
        ensures in_doubt { result.in_doubt ≡ false }
    {
        Calls {
            made: 0,
            fail_at,
            failed: 0,
            in_doubt: false,
        }
    }

    /// Counts a call, and tells whether it is the one that fails.
    pub(crate) fn next_fails(&mut self) -> bool
        ensures told { IsTrue result ↔ (self.old.fail_at ≡ Some self.old.made) }
        ensures failed { self.new.failed ≡ self.old.failed }
        ensures in_doubt { self.new.in_doubt ≡ self.old.in_doubt }
    {
        let fails = self.fail_at == Some(self.made);
        self.made = self.made.saturating_add(1);
        fails
    }

    /// Counts a call that failed.
    pub(crate) fn fail(&mut self) -> DeviceFault
        requires { self.old.failed + 1 < 2 ^ 64 }
        ensures failed { self.new.failed ≡ self.old.failed + 1 }
        ensures in_doubt { self.new.in_doubt ≡ self.old.in_doubt }
    {
        self.failed += 1;
        DeviceFault
    }

    /// Counts a call that failed, since when the file is in doubt.
    pub(crate) fn doubt(&mut self) -> DeviceFault
        requires { self.old.failed + 1 < 2 ^ 64 }
        ensures failed { self.new.failed ≡ self.old.failed + 1 }
        ensures in_doubt { self.new.in_doubt ≡ true }
    {
        self.failed += 1;
        self.in_doubt = true;
        DeviceFault
    }

    /// How many have failed.
    pub(crate) fn failures(&self) -> u64
        ensures { result ≡ self.now.failed }
    {
        self.failed
    }

    /// Whether one has failed that leaves the file in doubt.
    pub(crate) fn is_in_doubt(&self) -> bool
        ensures { result ≡ self.now.in_doubt }
    {
        self.in_doubt
    }
}
