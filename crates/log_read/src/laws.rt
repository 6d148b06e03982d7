//! Laws of logs as bytes.
ghost use Rattle.std.specs.Prelude.{◌≡◌, ◌<◌, ◌^◌, ℕ, List, length};
ghost use Rattle.log_page.specs.Pages.{IsBytes};
ghost use Rattle.log_blocks.specs.declared.fault.LogFault.{LogFault};
ghost use Rattle.log_read.specs.Logs.{HoldsLog, IsSameLog};
ghost use Rattle.log_read.specs.Outcomes.{HasLogFault};
ghost use Rattle.log_read.specs.declared.file.LogFile.{LogFile};

/// Bytes are one log at most, and then nothing is wrong with them.
pub fn bytes_are_one_log()
    ensures one { (bytes : List ℕ) (file other : LogFile) → IsBytes bytes → HoldsLog bytes file →
        HoldsLog bytes other → IsSameLog file other }
    ensures no_fault { (bytes : List ℕ) (file : LogFile) (fault : LogFault) → IsBytes bytes → length bytes < 2 ^ 50 →
        HoldsLog bytes file → HasLogFault bytes fault → ⊥ }
{}

/// One fault at most is the first that bytes have.
pub fn bytes_have_one_fault()
    ensures { (bytes : List ℕ) (fault other : LogFault) → IsBytes bytes → length bytes < 2 ^ 50 →
        HasLogFault bytes fault → HasLogFault bytes other → fault ≡ other }
{}
