//! The words that ask snapshots, `top`, `list`, `degrees` and `has`, as `clap` reads them.

use clap::builder::ValueParser;
use clap::{Arg, ArgAction, Command};
use std::alloc::{AllocError, Global};

/// How many rows `top` tells where no `-n` is given.
pub const DEFAULT_MOST: &str = "10";

const TOP_ABOUT: &str = "Write the rows or columns of the sum of snapshots that lead";

const TOP_HELP: &str = "\
Reads the snapshots in the files PATH to their ends, and writes a line to standard
output for each of the rows that lead in the sum of all batches, the highest
first, and equal ones by row:

  row entries total

The row counts from 0, as in queries. With --cols the lines are of columns.

Several files are asked together: of their sum. All have the rows and columns of
the first; a file that is named twice counts twice.

With --log, given once for each PATH and in their order, the log in the file LOG is
read too, and joined as a start joins both; LOG - is none. A log may be asked alone,
without a PATH. Without --log, a line on standard error says where PATH goes with a log:
batches may be missing. No lock is taken; files that a server has changed
meanwhile are read again where they made a fault, three times at most.

A fault is one line on standard error, which of several files ends with ' in FILE':

  hhm: settings: BadNumber         status 2
  hhm: file: NotFound, OpenFailed  status 4
  hhm: snapshot: KIND              status 3 (KIND Read: 4)
  hhm: snapshot: DimensionsDiffer  status 3
  hhm: log: NotFound, OpenFailed   status 4
  hhm: log: KIND at page N         status 3 (KIND Read: 4)
  hhm: settings: LogDiffers        status 2
  hhm: log: OtherBook, LinkDiffers status 3
  hhm: log: Gap, EntryDiffers, NotFresh at batch N  status 3
  hhm: sum: SumTooLarge            status 3
  hhm: output failed after N bytes status 4
  hhm: memory                      status 5";

const LIST_ABOUT: &str = "Write the cells in a range of the sum of snapshots";

const LIST_HELP: &str = "\
Reads the snapshots in the files PATH to their ends, and writes the cells of the sum
of all batches that lie in these rows and columns to standard output: a Matrix
Market text (matrix coordinate integer general) with the dimensions of the whole
and the cells by row and then by column. The bounds A and B count from 0, as in
queries, and are both in; the text counts from 1.

Several files are asked together: of their sum. All have the rows and columns of
the first; a file that is named twice counts twice.

With --log, given once for each PATH and in their order, the log in the file LOG is
read too, and joined as a start joins both; LOG - is none. A log may be asked alone,
without a PATH. Without --log, a line on standard error says where PATH goes with a log:
batches may be missing. No lock is taken; files that a server has changed
meanwhile are read again where they made a fault, three times at most.

A fault is one line on standard error, which of several files ends with ' in FILE':

  hhm: settings: BadNumber         status 2
  hhm: file: NotFound, OpenFailed  status 4
  hhm: snapshot: KIND              status 3 (KIND Read: 4)
  hhm: snapshot: DimensionsDiffer  status 3
  hhm: log: NotFound, OpenFailed   status 4
  hhm: log: KIND at page N         status 3 (KIND Read: 4)
  hhm: settings: LogDiffers        status 2
  hhm: log: OtherBook, LinkDiffers status 3
  hhm: log: Gap, EntryDiffers, NotFresh at batch N  status 3
  hhm: sum: SumTooLarge            status 3
  hhm: output failed after N bytes status 4
  hhm: memory                      status 5";

const DEGREES_ABOUT: &str =
    "Write how many rows or columns of the sum of snapshots have how many entries";

const DEGREES_HELP: &str = "\
Reads the snapshots in the files PATH to their ends, and writes a line to standard
output for 1 entry, 2 to 3, 4 to 7 and so on: how many rows of the sum of all
batches have so many. Where no row has, there is no line:

  from to rows

With --cols the lines are of columns.

Several files are asked together: of their sum. All have the rows and columns of
the first; a file that is named twice counts twice.

With --log, given once for each PATH and in their order, the log in the file LOG is
read too, and joined as a start joins both; LOG - is none. A log may be asked alone,
without a PATH. Without --log, a line on standard error says where PATH goes with a log:
batches may be missing. No lock is taken; files that a server has changed
meanwhile are read again where they made a fault, three times at most.

A fault is one line on standard error, which of several files ends with ' in FILE':

  hhm: file: NotFound, OpenFailed  status 4
  hhm: snapshot: KIND              status 3 (KIND Read: 4)
  hhm: snapshot: DimensionsDiffer  status 3
  hhm: log: NotFound, OpenFailed   status 4
  hhm: log: KIND at page N         status 3 (KIND Read: 4)
  hhm: settings: LogDiffers        status 2
  hhm: log: OtherBook, LinkDiffers status 3
  hhm: log: Gap, EntryDiffers, NotFresh at batch N  status 3
  hhm: sum: SumTooLarge            status 3
  hhm: output failed after N bytes status 4
  hhm: memory                      status 5";

const HAS_ABOUT: &str = "Say whether a snapshot has the batch of a client with a number";

const HAS_HELP: &str = "\
Reads the snapshot in the file FILE to its end, and writes one line to standard
output: of the batch that CLIENT sent under NUMBER

  index I cells C total T

where I counts from 0 over all batches, C is how many cells it has, and T their
total; or, with status 1, where there is no such batch

  none

Folded batches are found too. A fault is one line on standard error:

  hhm: settings: BadNumber         status 2
  hhm: file: NotFound, OpenFailed  status 4
  hhm: snapshot: KIND              status 3 (KIND Read: 4)
  hhm: output failed after N bytes status 4
  hhm: memory                      status 5";

/// A word that reads the snapshots in files, and the logs beside them.
pub fn snapshots_command<'a>(
    alloc: Global,
    name: &'a str,
    about: &'a str,
    help: &'a str,
) -> Result<Command<'a>, AllocError> {
    let path = Arg::new(alloc, "path")
        .value_name("PATH")
        .action(ArgAction::Append)
        .num_args(1..)
        .value_parser(ValueParser::NonEmptyString)
        .help("The snapshots' files")
        .required_unless_present("log")?;
    let log = Arg::new(alloc, "log")
        .long("log")
        .value_name("LOG")
        .action(ArgAction::Append)
        .value_parser(ValueParser::NonEmptyString)
        .help("The log beside each PATH, in their order, - for none; or a log alone");
    Command::new(alloc, name)
        .about(about)
        .after_help(help)
        .arg(path)?
        .arg(log)
}

// Whether rows or columns are told.
fn with_side<'a>(alloc: Global, command: Command<'a>) -> Result<Command<'a>, AllocError> {
    let rows = Arg::new(alloc, "rows")
        .long("rows")
        .action(ArgAction::SetTrue)
        .help("Tell of rows, as without it")
        .conflicts_with("cols")?;
    let cols = Arg::new(alloc, "cols")
        .long("cols")
        .action(ArgAction::SetTrue)
        .help("Tell of columns");
    command.arg(rows)?.arg(cols)
}

/// The word `top`.
pub fn top_command<'a>(alloc: Global) -> Result<Command<'a>, AllocError> {
    let by = Arg::new(alloc, "by")
        .long("by")
        .value_name("NUMBER")
        .value_parser(ValueParser::Names(&["total", "entries"]))
        .default_value("total")
        .help("What they are compared by");
    let most = Arg::new(alloc, "most")
        .short('n')
        .value_name("N")
        .default_value(DEFAULT_MOST)
        .help("How many are told");
    let top = snapshots_command(alloc, "top", TOP_ABOUT, TOP_HELP)?;
    with_side(alloc, top)?.arg(by)?.arg(most)
}

/// The word `list`.
pub fn list_command<'a>(alloc: Global) -> Result<Command<'a>, AllocError> {
    let rows = Arg::new(alloc, "rows").long("rows").value_name("A-B").help(
        "The rows from A to B, counted from 0; all where it is left out",
    );
    let cols = Arg::new(alloc, "cols").long("cols").value_name("A-B").help(
        "The columns from A to B, counted from 0; all where it is left out",
    );
    let list = snapshots_command(alloc, "list", LIST_ABOUT, LIST_HELP)?;
    list.arg(rows)?.arg(cols)
}

/// The word `degrees`.
pub fn degrees_command<'a>(alloc: Global) -> Result<Command<'a>, AllocError> {
    let degrees = snapshots_command(alloc, "degrees", DEGREES_ABOUT, DEGREES_HELP)?;
    with_side(alloc, degrees)
}

// A number that has to be given, as the argument of this name.
fn number<'a>(alloc: Global, name: &'a str, word: &'a str, help: &'a str) -> Arg<'a> {
    Arg::new(alloc, name)
        .value_name(word)
        .required(true)
        .help(help)
}

/// The word `has`.
pub fn has_command<'a>(alloc: Global) -> Result<Command<'a>, AllocError> {
    let path = Arg::new(alloc, "path")
        .value_name("FILE")
        .required(true)
        .value_parser(ValueParser::NonEmptyString)
        .help("The snapshot's file");
    Command::new(alloc, "has")
        .about(HAS_ABOUT)
        .after_help(HAS_HELP)
        .arg(path)?
        .arg(number(alloc, "client", "CLIENT", "Who sent the batch"))?
        .arg(number(alloc, "number", "NUMBER", "The client's number of it"))
}
