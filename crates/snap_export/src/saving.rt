//! Files of a folder that are saved together: none of them gets its name before all are whole.

ghost use Rattle.std.specs.Prelude.{◌≡◌, ℕ, ◌⊎◌, ◌+◌, ◌<◌, ◌^◌, List, Ok, IsSome, IfSome, IfErr, OnOk, OnErr};
ghost use Rattle.std.specs.FinMap.{get};
ghost use Rattle.byte_io.specs.Writing.{HasTaken, HasStopped};
ghost use Rattle.file_folder.specs.Calls.{rename};
ghost use Rattle.file_folder.specs.Files.{WhereTold, KeepsOthers, HasFile, IsMoved};
ghost use Rattle.snap_file.specs.Saving.{Fails, IsFileSynced, SaysWhyNotMade};
ghost use Rattle.snap_file.specs.declared.fault.SaveFault.{SaveFault};
ghost use Rattle.snap_export.specs.Saved.{AreMade, AreNamed, AreSaved, IsNotMade, StopsNaming};
ghost use Rattle.snap_export.specs.Saved.{SaysWhy, HasAll, KeepsNamed};
ghost use Rattle.snap_export.specs.Files.{parts_of, HaveNew, AreThere, AreMoved};

use crate::content::Content;
use crate::new_file::NewFile;
use byte_io::WriteFault;
use file_folder::Folder;
use snap_file::SaveFault;

/// The labels of the rows.
pub const ROWS: &str = "rows.txt";

/// The labels of the columns.
pub const COLS: &str = "cols.txt";

/// The text of the matrix.
pub const MATRIX: &str = "matrix.mtx";

// Under these names they stand until all are whole.
const NEW_ROWS: &str = "rows.txt.new";

const NEW_COLS: &str = "cols.txt.new";

const NEW_MATRIX: &str = "matrix.mtx.new";

/// All of those.
pub static UNFINISHED: [&str; 3] = [NEW_ROWS, NEW_COLS, NEW_MATRIX];

// Writes a content to the file that a folder last created, which stays the one that was lent.
fn write_to<F: Folder, C: Content>(
    new_file: &mut NewFile<'_, F>,
    content: &C,
) -> Result<(), WriteFault>
    requires failures { F.failure_count new_file.old.folder.now + 1 < 2 ^ 64 }
    requires sound { C.sound content.now }
    ensures same_reference { new_file.new.folder.ghost_name ≡ new_file.old.folder.ghost_name }
    ensures ok { OnOk result (HasTaken F.write_takes F.failure_count new_file.old.folder.now new_file.new.folder.now
        (C.text content.now)) }
    ensures err { IfErr result (λ f. HasStopped F.write_takes F.failure_count new_file.old.folder.now
        new_file.new.folder.now (C.text content.now) f.written) }
{
    content.write_to(new_file)
}

// Writes a content to the file that a folder last created, which is empty.
fn write_new<F: Folder, C: Content>(f: &mut F, content: &C) -> Result<(), WriteFault>
    requires failures { F.failure_count f.old + 1 < 2 ^ 64 }
    requires created { IsSome (F.last_created f.old) }
    requires sound { C.sound content.now }
    ensures ok { OnOk result (HasTaken F.write_takes F.failure_count f.old f.new (C.text content.now)) }
    ensures err { IfErr result (λ fault.
        HasStopped F.write_takes F.failure_count f.old f.new (C.text content.now) fault.written) }
{
    let mut new_file = NewFile::new(f);
    write_to(&mut new_file, content)
}

// Makes a file of a content, and syncs it.
fn make_file<F: Folder, C: Content>(f: &mut F, name: &str, content: &C) -> Result<(), SaveFault>
    requires failures { F.failure_count f.old + 1 < 2 ^ 64 }
    requires sound { C.sound content.now }
    ensures made { OnOk result (WhereTold (HasFile name.now (C.text content.now)) (F.files f.old) (F.files f.new)) }
    ensures kept { OnErr result (WhereTold (KeepsOthers name.now) (F.files f.old) (F.files f.new)) }
    ensures calls { OnOk result (IsFileSynced F.call_gives F.write_takes F.failure_count f.old f.new name.now
        (C.text content.now)) }
    ensures why { IfErr result (λ fault. SaysWhyNotMade F.call_gives F.write_takes F.failure_count f.old f.new name.now
        (C.text content.now) fault) }
    ensures no_failure { OnOk result (F.failure_count f.new ≡ F.failure_count f.old) }
{
    if f.create(name).is_err() {
        return Err(SaveFault::Create);
    }
    if let Err(fault) = write_new(f, content) {
        return Err(SaveFault::Write(fault));
    }
    match f.sync() {
        Ok(()) => Ok(()),
        Err(_) => Err(SaveFault::Sync),
    }
}

// Gives a file its name.
fn take_name<F: Folder>(f: &mut F, from: &str, to: &str) -> Result<(), SaveFault>
    requires failures { F.failure_count f.old + 1 < 2 ^ 64 }
    requires is_there { IfSome (F.files f.old) (λ m. IsSome (get m from.now)) }
    ensures moved { OnOk result (WhereTold (IsMoved from.now to.now) (F.files f.old) (F.files f.new)) }
    ensures call { OnOk result (F.call_gives f.old (rename from.now to.now) (Ok tt) f.new) }
    ensures why { IfErr result (λ fault. (fault ≡ SaveFault.Rename)
        × Fails F.call_gives f.old (rename from.now to.now) f.new) }
    ensures no_failure { OnOk result (F.failure_count f.new ≡ F.failure_count f.old) }
{
    match f.rename(from, to) {
        Ok(()) => Ok(()),
        Err(_) => Err(SaveFault::Rename),
    }
}

// Makes all three files, and syncs each.
fn make_files<F: Folder, L: Content, M: Content>(
    f: &mut F,
    rows: &L,
    cols: &L,
    matrix: &M,
) -> Result<(), SaveFault>
    requires failures { F.failure_count f.old + 1 < 2 ^ 64 }
    requires sound { L.sound rows.now × L.sound cols.now × M.sound matrix.now }
    ensures made { OnOk result (WhereTold (HaveNew (L.text rows.now) (L.text cols.now) (M.text matrix.now))
        (F.files f.old) (F.files f.new)) }
    ensures kept { OnErr result (WhereTold
        (KeepsNamed (parts_of (L.text rows.now) (L.text cols.now) (M.text matrix.now)))
        (F.files f.old) (F.files f.new)) }
    ensures calls { OnOk result (AreMade F.call_gives F.write_takes F.failure_count f.old f.new
        (parts_of (L.text rows.now) (L.text cols.now) (M.text matrix.now))) }
    ensures why { IfErr result (IsNotMade F.call_gives F.write_takes F.failure_count f.old f.new
        (parts_of (L.text rows.now) (L.text cols.now) (M.text matrix.now))) }
    ensures no_failure { OnOk result (F.failure_count f.new ≡ F.failure_count f.old) }
{
    make_file(f, NEW_ROWS, rows)?;
    make_file(f, NEW_COLS, cols)?;
    make_file(f, NEW_MATRIX, matrix)
}

// Gives all three their names, the matrix last.
fn take_names<F: Folder>(f: &mut F) -> Result<(), SaveFault>
    requires failures { F.failure_count f.old + 1 < 2 ^ 64 }
    requires are_there { IfSome (F.files f.old) AreThere }
    ensures moved { OnOk result (WhereTold AreMoved (F.files f.old) (F.files f.new)) }
    ensures calls { OnOk result ((rows cols matrix : List ℕ) →
        AreNamed F.call_gives F.write_takes F.failure_count f.old f.new (parts_of rows cols matrix)) }
    ensures why { IfErr result (λ fault. (fault ≡ SaveFault.Rename) × ((rows cols matrix : List ℕ) →
        StopsNaming F.call_gives F.write_takes F.failure_count f.old f.new (parts_of rows cols matrix))) }
{
    take_name(f, NEW_ROWS, ROWS)?;
    take_name(f, NEW_COLS, COLS)?;
    take_name(f, NEW_MATRIX, MATRIX)
}

/// Saves three contents in a folder under their names: makes each under a name with `.new` behind it, writes it whole
/// and syncs it, and then gives each its name, the matrix last.
///
/// # Errors
///
/// `Create`, `Write`, `Sync` or `Rename` where that call failed; no call follows. Before the first rename what stands
/// under the names is as it was.
pub fn save_files<F: Folder, L: Content, M: Content>(
    f: &mut F,
    rows: &L,
    cols: &L,
    matrix: &M,
) -> Result<(), SaveFault>
    requires failures { F.failure_count f.old + 1 < 2 ^ 64 }
    requires sound { L.sound rows.now × L.sound cols.now × M.sound matrix.now }
    // Where the folder tells its files, each name has its text, and every other file is as before.
    ensures saved { OnOk result (WhereTold (HasAll (parts_of (L.text rows.now) (L.text cols.now) (M.text matrix.now)))
        (F.files f.old) (F.files f.new)) }
    // Where it tells its files, and none was to be renamed yet, every file but those with `.new` is as before.
    ensures kept { IfErr result (λ fault. (fault ≡ SaveFault.Rename)
        ⊎ WhereTold (KeepsNamed (parts_of (L.text rows.now) (L.text cols.now) (M.text matrix.now)))
        (F.files f.old) (F.files f.new)) }
    // Over every folder, these are the calls: each file is made, written whole and synced, and then each is renamed.
    ensures calls { OnOk result (AreSaved F.call_gives F.write_takes F.failure_count f.old f.new
        (parts_of (L.text rows.now) (L.text cols.now) (M.text matrix.now))) }
    // And a fault names the call that failed, or the write that took nothing: those before it are these, and none
    // follows.
    ensures why { IfErr result (SaysWhy F.call_gives F.write_takes F.failure_count f.old f.new
        (parts_of (L.text rows.now) (L.text cols.now) (M.text matrix.now))) }
{
    make_files(f, rows, cols, matrix)?;
    take_names(f)
}
