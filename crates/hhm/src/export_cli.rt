//! The word `export`, as `clap` reads it.

use crate::query_cli::snapshots_command;
use clap::builder::ValueParser;
use clap::{Arg, Command};
use std::alloc::{AllocError, Global};

const EXPORT_ABOUT: &str =
    "Read snapshots, and write the canonical text of the sum of their batches";

const EXPORT_HELP: &str = "\
Reads the snapshots in the files PATH to their ends, one after the other, and
writes the sum of all their batches to standard output: a Matrix Market text
(matrix coordinate integer general) with the cells by row and then by column. All
have the rows and columns of the first; a file that is named twice counts twice.

With --compact it writes no text, and saves the sum in the folder DIR without
empty rows and columns, which tools with a place for each row can't hold. DIR is
made where it isn't there:

  matrix.mtx  a Matrix Market text of the matrix, rows and columns from 1
  rows.txt    line i is the row that row i of the matrix stands for, from 0
  cols.txt    the same of columns

Of a sum without an entry the matrix is 1 by 1, and the others are empty. Other
files of DIR stay, and files of these names are replaced once all are whole.

With --minus it writes what one snapshot, PATH, has more than an earlier one of the
same book, OLD: where OLD has no entry the entry of PATH, and where it has one what
the count has risen by, if it has. The batches of OLD are the first of PATH, folded
or not. It is a text of counts by the time of their acceptance; with --compact it is
saved in DIR as a sum is.

With --log, given once for each PATH and then OLD, the log in the file LOG is
read too, and joined as a start joins both; LOG - is none. A log may be asked alone,
without a PATH. Without --log, a line on standard error says where PATH goes with a log:
batches may be missing. No lock is taken; files that a server has changed
meanwhile are read again where they made a fault, three times at most.

Nothing is written unless all snapshots were read without a fault. A fault is one
line on standard error, the first in the order of the files; where several are
named it has ' in FILE' behind it, if it is of one:

  hhm: file: NotFound, OpenFailed  status 4
  hhm: snapshot: KIND              status 3 (KIND Read: 4)
  hhm: snapshot: DimensionsDiffer  status 3
  hhm: snapshot: OtherBook         status 3 (of --minus, as the next two)
  hhm: snapshot: NotBefore at batch N      status 3
  hhm: snapshot: Falls at row R col C      status 3
  hhm: log: NotFound, OpenFailed   status 4
  hhm: log: KIND at page N         status 3 (KIND Read: 4)
  hhm: settings: LogDiffers        status 2
  hhm: log: OtherBook, LinkDiffers status 3
  hhm: log: Gap, EntryDiffers, NotFresh at batch N  status 3
  hhm: sum: SumTooLarge            status 3
  hhm: file: Create, Write, Sync, Rename  status 4
  hhm: output failed after N bytes status 4
  hhm: memory                      status 5";

/// The word `export`.
pub fn export_command<'a>(alloc: Global) -> Result<Command<'a>, AllocError> {
    let compact = Arg::new(alloc, "compact")
        .long("compact")
        .value_name("DIR")
        .value_parser(ValueParser::NonEmptyString)
        .help("Save the sum in this folder, without empty rows and columns");
    let minus = Arg::new(alloc, "minus")
        .long("minus")
        .value_name("OLD")
        .value_parser(ValueParser::NonEmptyString)
        .help("Write what PATH has more than this earlier snapshot of its book");
    snapshots_command(alloc, "export", EXPORT_ABOUT, EXPORT_HELP)?
        .arg(compact)?
        .arg(minus)
}
