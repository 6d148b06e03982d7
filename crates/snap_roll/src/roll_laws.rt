//! Laws of windows that are taken into a coarser file, in terms of the definitions alone.
//!
//! Each is a function without parameters whose `ensures` is the law. They hold for all lists and windows.
ghost use Rattle.std.specs.Prelude.{ℕ, List, ◌++◌, Option};
ghost use Rattle.batch_store.specs.Accepted.{Accepted};
ghost use Rattle.batch_store.specs.Setups.{Setting};
ghost use Rattle.snap_roll.specs.Rolls.{AreAdded, AreTakenIn, HaveRolled, Roll, Window};

use snap_export::SnapshotFiles;

/// Taking in the same windows once more changes nothing.
pub fn a_roll_may_be_repeated()
    ensures { (client : ℕ) (a : Accepted) (ws : List Window) (b : Accepted) →
        AreTakenIn client a ws b → AreTakenIn client b ws b }
{}

/// Windows that are taken in by two rolls, one after the other, are taken in as by one.
pub fn rolls_may_come_in_parts()
    ensures both { (client : ℕ) (a : Accepted) (vs ws : List Window) (m b : Accepted) →
        AreTakenIn client a vs m → AreTakenIn client m ws b → AreTakenIn client a (vs ++ ws) b }
    ensures parts { (client : ℕ) (a : Accepted) (vs ws : List Window) (b : Accepted) →
        AreTakenIn client a (vs ++ ws) b → (m : Accepted) × AreTakenIn client a vs m × AreTakenIn client m ws b }
{}

/// Some of the windows are added, each with its entry and its sum: the sum grows by those of the windows whose entries
/// are new, and by nothing else.
pub fn the_sum_is_what_the_entries_say()
    ensures { (client : ℕ) (a : Accepted) (ws : List Window) (b : Accepted) →
        AreTakenIn client a ws b → (new : List Window) × AreAdded client a new b }
{}

/// What a roll does with the windows' files takes their windows in, one after another.
pub fn rolled_windows_are_taken_in<S: SnapshotFiles>()
    ensures { (client : ℕ) (t : Setting) (given : List (Option ℕ)) (ws : List Window) (u : S) (r : Roll) (v : S)
        (q : Roll) → HaveRolled S.load_gives client t given ws u r v q → AreTakenIn client r.state ws q.state }
{}
