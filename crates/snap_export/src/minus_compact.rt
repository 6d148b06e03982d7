//! `export --minus --compact`: what a snapshot has more than an earlier one, without empty rows and columns.
ghost use Rattle.std.specs.Prelude.{◌≡◌, ℕ, ◌+◌, ◌<◌, ◌^◌, ◌⊎◌, List, Err, OnOk, IfErr};
ghost use Rattle.file_folder.specs.Files.{WhereTold};
ghost use Rattle.hyper_matrix.specs.Counts.{Counts};
ghost use Rattle.snap_file.specs.Snapshots.{Saved};
ghost use Rattle.snap_file.specs.declared.fault.SaveFault.{SaveFault};
ghost use Rattle.snap_export.specs.Compact.{IsCompact};
ghost use Rattle.snap_export.specs.Minus.{HaveBoth, IsLater, IsMore, TellsDifference, LeavesFolder};
ghost use Rattle.snap_export.specs.Saved.{AreSaved, SaysWhy, HasAll, KeepsNamed};
ghost use Rattle.snap_export.specs.Told.{compact_parts};

use crate::compact::{compact_more, save};
use crate::minus::load_more;
use crate::minus_fault::DifferenceFault;
use crate::several::SnapshotFiles;
use file_folder::Folder;
use std::alloc::Global;

/// Loads two snapshots of one book, the later one first, and saves what it has more in a folder, as `run_compact` saves
/// a sum: the matrix of `run_export_minus`, without empty rows and columns, and the numbers of those that it has.
///
/// Takes the memory and the time of `run_export_minus`, and 8 bytes more for each row with an entry and for each cell.
///
/// # Errors
///
/// Those of `run_export_minus` but for `Output`: the folder isn't touched then. `Save` where a file could not be made,
/// written, synced or renamed: but for `Rename` what is under the three names is as it was.
pub fn run_compact_minus<F: SnapshotFiles, D: Folder>(
    alloc: Global,
    files: &mut F,
    folder: &mut D,
) -> Result<(), DifferenceFault>
    requires { D.failure_count folder.old + 1 < 2 ^ 64 }

    // Two loads have answered snapshots, and the first goes on from the second. What has to be added to the sum of the
    // second was numbered anew, and these are the calls that saved it.
    ensures ok { OnOk result ((a b : Saved) × (x : Counts) × (row_labels col_labels : List ℕ) × (n : Counts)
        × HaveBoth F.load_gives files.old files.new a b × IsLater a b × IsMore a b x
        × IsCompact x row_labels col_labels n
        × AreSaved D.call_gives D.write_takes D.failure_count folder.old folder.new
        (compact_parts row_labels col_labels n)
        × WhereTold (HasAll (compact_parts row_labels col_labels n)) (D.files folder.old) (D.files folder.new)) }

    ensures save { (why : SaveFault) → result ≡ Err (DifferenceFault.Save why) →
        (a b : Saved) × (x : Counts) × (row_labels col_labels : List ℕ) × (n : Counts)
        × HaveBoth F.load_gives files.old files.new a b × IsLater a b × IsMore a b x
        × IsCompact x row_labels col_labels n
        × SaysWhy D.call_gives D.write_takes D.failure_count folder.old folder.new
        (compact_parts row_labels col_labels n) why
        × ((why ≡ SaveFault.Rename) ⊎ WhereTold (KeepsNamed (compact_parts row_labels col_labels n))
        (D.files folder.old) (D.files folder.new)) }
    ensures told { IfErr result (λ fault. TellsDifference F.load_gives files.old files.new fault) }
    ensures untouched { IfErr result (λ fault. LeavesFolder fault ⊎ (folder.new ≡ folder.old)) }
{
    let more = load_more(alloc, files)?;
    let compact = compact_more(alloc, more)?;
    match save(folder, &compact) {
        Ok(()) => Ok(()),
        Err(why) => Err(DifferenceFault::Save(why)),
    }
}
