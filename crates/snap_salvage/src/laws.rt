//! Laws of the front of a log.
ghost use Rattle.std.specs.Prelude.{ℕ, ◌*◌, ◌<◌, ◌≤◌, ◌^◌, List, length, take};
ghost use Rattle.log_page.specs.Pages.{IsBytes};
ghost use Rattle.log_blocks.specs.declared.fault.LogFault.{LogFault};
ghost use Rattle.log_read.specs.Logs.{HoldsLog};
ghost use Rattle.log_read.specs.Outcomes.{HasLogFault};
ghost use Rattle.log_read.specs.declared.file.LogFile.{LogFile};
ghost use Rattle.snap_salvage.specs.Fronts.{IsFront};

/// A log that reads whole is its own front.
pub fn whole_logs_are_fronts()
    ensures { (bytes : List ℕ) (pages : ℕ) (file : LogFile) → IsBytes bytes → length bytes < 2 ^ 50 →
        length bytes ≤ 4096 * pages → HoldsLog bytes file → IsFront bytes pages file }
{}

/// Where bytes have a fault, the log that the pages before that of the fault are is their front.
pub fn fronts_end_at_faults()
    ensures { (bytes : List ℕ) (fault : LogFault) (file : LogFile) → IsBytes bytes → length bytes < 2 ^ 50 →
        HasLogFault bytes fault → HoldsLog (take (4096 * fault.page) bytes) file → IsFront bytes fault.page file }
{}

/// Where bytes have a fault, the pages before that of the fault have none.
pub fn pages_before_faults_have_none()
    ensures { (bytes : List ℕ) (fault other : LogFault) → IsBytes bytes → length bytes < 2 ^ 50 →
        HasLogFault bytes fault → 1 ≤ fault.page → HasLogFault (take (4096 * fault.page) bytes) other → ⊥ }
{}
