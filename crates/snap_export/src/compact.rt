//! `export --compact`: the sum of snapshots as a matrix without empty rows and columns, and which they are.

ghost use Rattle.std.specs.Prelude.{◌≡◌, ℕ, ◌+◌, ◌<◌, ◌^◌, ◌⊎◌, List, map, length, Err, OnOk, IfOk, IfErr};
ghost use Rattle.std.specs.List.{Contains};
ghost use Rattle.cells.specs.Bounds.{IsDimension, AreWithin};
ghost use Rattle.cells.specs.Order.{Rise};
ghost use Rattle.file_folder.specs.Files.{WhereTold};
ghost use Rattle.hyper_matrix.specs.Cells.{built_of};
ghost use Rattle.hyper_matrix.specs.Counts.{Counts};
ghost use Rattle.snap_file.specs.Snapshots.{Saved};
ghost use Rattle.snap_file.specs.declared.fault.SaveFault.{SaveFault};
ghost use Rattle.snap_export.specs.Several.{added_up, AddUp};
ghost use Rattle.snap_export.specs.Labels.{numbers_of, AreLabels, back, label_lines};
ghost use Rattle.snap_export.specs.Compact.{IsCompact, dimension, compact_text};
ghost use Rattle.snap_export.specs.Saved.{AreSaved, SaysWhy, HasAll, KeepsNamed};
ghost use Rattle.snap_export.specs.Files.{parts_of};
ghost use Rattle.snap_export.specs.Told.{CompactTells, LeavesFiles, compact_parts};
ghost use Rattle.snap_export.specs.declared.axis.Axis.{Axis};

use crate::axis::{Axis, labels_of};
use crate::content::{CellText, LabelLines};
use crate::fault::ExportFault;
use crate::minus::More;
use crate::relabel::relabel;
use crate::saving::save_files;
use crate::several::{SnapshotFiles, load_sum};
use cells::Cell;
use file_folder::Folder;
use hyper_matrix::Hyper;
use snap_file::SaveFault;
use std::alloc::{AllocError, Global};

/// Cells whose rows and columns are numbered anew, and what each number stands for.
#[derive(Drop)]
pub struct Compact {
    pub rows: Vec<u64>,
    pub cols: Vec<u64>,
    pub cells: Vec<Cell>,
}

// The number of rows or columns of so many labels: a text has none of 0.
fn dimension(labels: &[u64]) -> u64
    ensures { result ≡ dimension labels.now }
{
    match labels.len() {
        0 => 1,
        count => count as u64,
    }
}

// Cells in order, with rows and columns numbered anew.
fn compacted(alloc: Global, cells: Vec<Cell>) -> Result<Compact, AllocError>
    ensures rows { IfOk result (λ c. AreLabels (Contains (numbers_of Axis.Rows cells.items)) c.rows.items) }
    ensures cols { IfOk result (λ c. AreLabels (Contains (numbers_of Axis.Cols cells.items)) c.cols.items) }
    ensures within { IfOk result (λ c. AreWithin (length c.rows.items) (length c.cols.items) c.cells.items) }
    ensures back { IfOk result (λ c. map (back c.rows.items c.cols.items) c.cells.items ≡ cells.items) }
{
    let rows = labels_of(alloc, &cells, Axis::Rows)?;
    let cols = labels_of(alloc, &cells, Axis::Cols)?;
    let mut list = cells;
    relabel(&mut list, &rows, &cols);
    Ok(Compact {
        rows,
        cols,
        cells: list,
    })
}

/// Cells by row and then by column with rows and columns numbered anew.
pub fn compact_more(alloc: Global, more: More) -> Result<Compact, AllocError>
    requires dims { IsDimension more.rows × IsDimension more.cols }
    requires rises { Rise more.cells.items }
    requires within { AreWithin more.rows more.cols more.cells.items }
    ensures compact { IfOk result (λ c.
        IsCompact (built_of more.cells.items) c.rows.items c.cols.items (built_of c.cells.items)) }
    ensures rises { IfOk result (λ c. Rise c.cells.items) }
    ensures within { IfOk result (λ c. AreWithin (length c.rows.items) (length c.cols.items) c.cells.items) }
    ensures few { IfOk result (λ c. IsDimension (dimension c.rows.items) × IsDimension (dimension c.cols.items)) }
{
    compacted(alloc, more.cells)
}

// A matrix with rows and columns numbered anew.
fn compact_of(alloc: Global, sum: Hyper) -> Result<Compact, AllocError>
    ensures compact { IfOk result (λ c.
        IsCompact sum.counts c.rows.items c.cols.items (built_of c.cells.items)) }
    ensures rises { IfOk result (λ c. Rise c.cells.items) }
    ensures within { IfOk result (λ c. AreWithin (length c.rows.items) (length c.cols.items) c.cells.items) }
    ensures few { IfOk result (λ c. IsDimension (dimension c.rows.items) × IsDimension (dimension c.cols.items)) }
{
    // They are at most 2^60, and labels no more.
    let _dims = sum.dims();
    let cells = sum.cells(alloc)?;
    // The matrix goes before labels take memory.
    drop(sum);
    compacted(alloc, cells)
}

/// Saves the matrix and its labels.
pub fn save<D: Folder>(folder: &mut D, compact: &Compact) -> Result<(), SaveFault>
    requires failures { D.failure_count folder.old + 1 < 2 ^ 64 }
    requires rises { Rise compact.now.cells.items }
    requires within { AreWithin (length compact.now.rows.items) (length compact.now.cols.items)
        compact.now.cells.items }
    requires few { IsDimension (dimension compact.now.rows.items) × IsDimension (dimension compact.now.cols.items) }
    ensures saved { OnOk result (WhereTold (HasAll (compact_parts compact.now.rows.items compact.now.cols.items
        (built_of compact.now.cells.items))) (D.files folder.old) (D.files folder.new)) }
    ensures calls { OnOk result (AreSaved D.call_gives D.write_takes D.failure_count folder.old folder.new
        (compact_parts compact.now.rows.items compact.now.cols.items (built_of compact.now.cells.items))) }
    ensures kept { IfErr result (λ why. (why ≡ SaveFault.Rename)
        ⊎ WhereTold (KeepsNamed (compact_parts compact.now.rows.items compact.now.cols.items
        (built_of compact.now.cells.items))) (D.files folder.old) (D.files folder.new)) }
    ensures why { IfErr result (SaysWhy D.call_gives D.write_takes D.failure_count folder.old folder.new
        (compact_parts compact.now.rows.items compact.now.cols.items (built_of compact.now.cells.items))) }
{
    let rows = LabelLines {
        labels: &compact.rows,
    };
    let cols = LabelLines {
        labels: &compact.cols,
    };
    let matrix = CellText {
        rows: dimension(&compact.rows),
        cols: dimension(&compact.cols),
        cells: &compact.cells,
    };
    save_files(folder, &rows, &cols, &matrix)
}

/// Loads so many snapshots of the same dimensions, one behind the other, and saves their sum in a folder as a matrix
/// without empty rows and columns, in three files: `rows.txt` and `cols.txt` have a line for each row and each column
/// that has an entry, its number, counted from 0, in rising order; and `matrix.mtx` is the canonical text of the matrix
/// whose row i, counted from 1, is the row that line i of `rows.txt` names, and so for columns. Where there is no
/// entry, the matrix is one of 1 by 1.
///
/// Beside what `load_sum` takes, memory goes to a list of the cells, 24 bytes each, while the sum is there, and
/// then to 8 bytes for each row with an entry and for each cell; the time is that of sorting the columns of all cells,
/// and of two bisections for each.
///
/// # Errors
///
/// Those of `load_sum`: the folder isn't touched then. `Save` where a file could not be made,
/// written, synced or renamed: but for `Rename` what stands under the three names is as it was.
pub fn run_compact<F: SnapshotFiles, D: Folder>(
    alloc: Global,
    files: &mut F,
    count: u64,
    folder: &mut D,
) -> Result<(), ExportFault>
    requires some { 0 < count }
    requires failures { D.failure_count folder.old + 1 < 2 ^ 64 }

    // So many loads were made, one behind the other, and have answered snapshots of one size that fit together. What
    // they add up to was numbered anew, and these are the calls that saved it.
    ensures ok { OnOk result ((rows cols : ℕ) × (xs : List Saved) × (row_labels col_labels : List ℕ) × (n : Counts)
        × AddUp F.load_gives files.old files.new count rows cols xs
        × IsCompact (added_up xs) row_labels col_labels n
        × AreSaved D.call_gives D.write_takes D.failure_count folder.old folder.new
        (compact_parts row_labels col_labels n)
        × WhereTold (HasAll (compact_parts row_labels col_labels n)) (D.files folder.old) (D.files folder.new)) }

    ensures save { (why : SaveFault) → result ≡ Err (ExportFault.Save why) →
        (rows cols : ℕ) × (xs : List Saved) × (row_labels col_labels : List ℕ) × (n : Counts)
        × AddUp F.load_gives files.old files.new count rows cols xs
        × IsCompact (added_up xs) row_labels col_labels n
        × SaysWhy D.call_gives D.write_takes D.failure_count folder.old folder.new
        (compact_parts row_labels col_labels n) why
        × ((why ≡ SaveFault.Rename) ⊎ WhereTold (KeepsNamed (compact_parts row_labels col_labels n))
        (D.files folder.old) (D.files folder.new)) }
    ensures told { IfErr result (λ fault. CompactTells F.load_gives files.old files.new count fault) }
    ensures untouched { IfErr result (λ fault. LeavesFiles fault ⊎ (folder.new ≡ folder.old)) }
{
    let sum = load_sum(alloc, files, count)?;
    let compact = compact_of(alloc, sum)?;
    match save(folder, &compact) {
        Ok(()) => Ok(()),
        Err(why) => Err(ExportFault::Save(why)),
    }
}
