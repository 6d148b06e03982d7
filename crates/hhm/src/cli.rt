//! The command line: the words of the program, as `clap` reads them.

use crate::asking_cli::{end_command, status_command};
use crate::export_cli::export_command;
use crate::query_cli::{
    degrees_command, has_command, list_command, snapshots_command, top_command,
};
use crate::roll_cli::roll_command;
use crate::serve_cli::{serve_command, with_numbers};
use clap::builder::ValueParser;
use clap::{Arg, ArgAction, Command};
use server_counters::VERSION;
use std::alloc::{AllocError, Global};

/// The cuts of `sum` where no `--cuts` is given.
pub const DEFAULT_SUM_CUTS: &str = "4096";

const ABOUT: &str = "Sums counted cells (row, column, count) into a hypersparse matrix, exactly";

const SUM_ABOUT: &str =
    "Sum the entries of Matrix Market texts, and write the canonical text of the sum";

const SUM_HELP: &str = "\
Reads Matrix Market texts (matrix coordinate, integer or unsigned-integer,
general or symmetric), each to its end before the next is opened, adds the counts
of each cell, and writes the sum to standard output: a Matrix Market text with
the cells by row and then by column. Counts and totals go up to
18446744073709551615. All texts have the dimensions of the first. FILE - is
standard input, which is read too where no FILE is named.

Nothing is written unless all texts were read without a fault. A fault is one
line on standard error, the first in the order of the files; of a text that was
named it has ' of FILE' or ' in FILE' behind it, unless that is - alone:

  hhm: settings: NAME              status 2
  hhm: file: NotFound, OpenFailed  status 4
  hhm: text: KIND at line N        status 3 (KIND Read: 4)
  hhm: text: DimensionsDiffer      status 3
  hhm: sum: SumTooLarge            status 3
  hhm: output failed after N bytes status 4
  hhm: memory                      status 5";

const CHECK_ABOUT: &str = "Read snapshots, and say in one line what they hold";

const CHECK_HELP: &str = "\
Reads the snapshots in the files PATH to their ends, and writes one line to standard
output, where E is the number of cells of the sum of all batches:

  rows R cols C shards K batches B total T entries E

All have the rows and columns of the first, and K is of the first; a file that is
named twice counts twice.

With --log, given once for each PATH and in their order, the log in the file LOG is
read too, and joined as a start joins both; LOG - is none, and a log may be asked
alone, without a PATH. The line is then of what both have together. After one PATH
or none there is a second line: the index of the log's first batch, how many batches
it has, how many whole pages of 4096 bytes with its head, and how many pages after
them aren't empty, which are of a block that was being written:

  log first F batches N pages P rest R

Where a log is given, a snapshot that isn't there counts as an empty one. No file is
changed, and no lock is taken; files that a server has changed meanwhile are read
again where they made a fault, three times at most.

A fault is one line on standard error, which of several files ends with ' in FILE':

  hhm: file: NotFound, OpenFailed  status 4
  hhm: snapshot: KIND              status 3 (KIND Read: 4)
  hhm: snapshot: DimensionsDiffer  status 3
  hhm: sum: SumTooLarge            status 3
  hhm: log: NotFound, OpenFailed   status 4
  hhm: log: KIND at page N         status 3 (KIND Read: 4)
  hhm: settings: LogDiffers        status 2
  hhm: log: OtherBook, LinkDiffers status 3
  hhm: log: Gap, EntryDiffers, NotFresh at batch N  status 3
  hhm: output failed after N bytes status 4
  hhm: memory                      status 5";

const FOLD_ABOUT: &str = "Fold the batches of a snapshot, and of its log, into one matrix";

const FOLD_HELP: &str = "\
Reads the snapshot in the file PATH to its end, and with --log the log beside it
as a start does, folds all their batches into one matrix, saves it under PATH,
and writes one line to standard output:

  folded F total T

F is how many batches are folded then, and T their total. A server that starts
from the file, and with --log from that log, answers as before: cells, rows,
exports, its status, and batches that are sent again, with their first replies.
Of each batch only its client, its number, its number of cells and its total are
kept. The log stays as it is. The locks of both are held: while a server with
one of them runs, it is told Busy.

With --to the fold is made in the file OUT, a copy of the same book, and PATH
and the log stay as they are; no lock is taken. With --log, or where PATH goes
with a log, OUT goes with that log too, and starts with it alone.

Numbers of rows, columns, cuts, shards and limits that aren't given are those of
the file. Given ones may differ as at a start: rows and columns may be more, the
limits any that all batches fit, cuts and shards any. Where PATH goes with a log,
other numbers need that log too.

A fault is one line on standard error. Where the output failed, the file is
saved already; else it is as it was (after Rename it may be saved):

  hhm: settings: BadPath (PATH), (LOG), (OUT)  status 2 (it ends in .new or .lock)
  hhm: settings: BadNumber, BadDimension, BadCuts, BadShards, BadLimit, BadBatches  status 2
  hhm: settings: SnapshotDiffers (NUMBER: the file has N, N was given)  status 2
  hhm: settings: NeedsLog (PATH: a log goes with it)  status 2
  hhm: settings: LogDiffers        status 2
  hhm: file: Exists (OUT)          status 4
  hhm: file: NotFound, OpenFailed, Busy   status 4
  hhm: log: NotFound, OpenFailed, Busy    status 4
  hhm: snapshot: KIND              status 3 (KIND Read: 4)
  hhm: log: KIND at page N         status 3 (KIND Read: 4)
  hhm: log: OtherBook, LinkDiffers status 3
  hhm: log: Gap, EntryDiffers, NotFresh at batch N  status 3
  hhm: file: Create, Write, Sync, Rename  status 4
  hhm: output failed after N bytes status 4
  hhm: memory                      status 5";

const FORK_ABOUT: &str = "Make a snapshot of a new book of what a snapshot and its log have";

const FORK_HELP: &str = "\
Reads the snapshot in the file PATH, and with --log the log beside it, as a start
does, makes a new snapshot of both in the file OUT, and writes one line to
standard output:

  forked B total T

B is how many batches it has, and T their total. OUT is of a new book, which no
other file has, and goes with no log. Use it for a copy that lives beside the
original (a mirror, a test, a second server), and to go on where a log is lost
for ever. Without --log a line on standard error says where batches may be
missing. PATH and the log stay as they are; their locks are held.

A fault is one line on standard error, and OUT isn't made, but where the output
failed:

  hhm: settings: BadPath (OUT), (PATH), (LOG)  status 2 (it ends in .new or .lock)
  hhm: settings: LogDiffers        status 2
  hhm: file: Exists (OUT)          status 4
  hhm: file: NotFound, OpenFailed, Busy   status 4
  hhm: log: NotFound, OpenFailed, Busy    status 4
  hhm: snapshot: KIND              status 3 (KIND Read: 4)
  hhm: snapshot: HasWindow         status 3
  hhm: log: KIND at page N         status 3 (KIND Read: 4)
  hhm: log: OtherBook, LinkDiffers status 3
  hhm: log: Gap, EntryDiffers, NotFresh at batch N  status 3
  hhm: file: Create, Write, Sync, Rename  status 4
  hhm: no random numbers           status 4
  hhm: output failed after N bytes status 4
  hhm: memory                      status 5";

const SALVAGE_ABOUT: &str = "Make a snapshot of what can be read of files that a start refuses";

const SALVAGE_HELP: &str = "\
Reads the snapshot in the file PATH, if one is given, and the front of the log in
the file LOG, which ends before the first page with a fault. Makes a new snapshot
of what both have, as a start joins them, in the file OUT, and writes one line to
standard output:

  salvaged B total T until the end
  salvaged B total T until KIND at page P pages Q whole W batches N
  salvaged B total T until Gap at batch F pages Q whole W batches N

B is how many batches OUT has, and T their total. The first line says that nothing
was left out. Else the front ends at page P with the fault KIND, or the log begins
at batch F, after the end of the snapshot, which is all that is salvaged then. Q is
how many pages the log has after what is salvaged that aren't empty, W how many of
them are whole, and N how many batches these say that they have. They are left out,
since nobody knows what is missing before them.

OUT is of a new book, but for the files of a window, and goes with no log. PATH and
the log stay as they are; their locks are held. Where the head of the log is damaged
the snapshot alone is salvaged, and without one nothing is. Without PATH the log
must begin with the first batch.

A fault is one line on standard error, and OUT isn't made, but where the output
failed:

  hhm: settings: BadPath (OUT), (PATH), (LOG)  status 2 (it ends in .new or .lock)
  hhm: settings: LogDiffers        status 2
  hhm: file: Exists (OUT)          status 4
  hhm: file: OpenFailed, Busy      status 4
  hhm: log: NotFound, OpenFailed, Busy    status 4
  hhm: snapshot: KIND              status 3 (KIND Read: 4)
  hhm: log: KIND at page N         status 3 (KIND Read: 4)
  hhm: log: OtherBook, LinkDiffers status 3
  hhm: log: Gap, EntryDiffers, NotFresh at batch N  status 3
  hhm: file: Create, Write, Sync, Rename  status 4
  hhm: no random numbers           status 4
  hhm: output failed after N bytes status 4
  hhm: memory                      status 5";

const CUTS_HELP: &str =
    "The cuts of the layers, rising, each 1 to 1099511627776, at most 7, with commas between; or none";

fn sum_command<'a>(alloc: Global) -> Result<Command<'a>, AllocError> {
    let cuts = Arg::new(alloc, "cuts")
        .long("cuts")
        .value_name("LIST")
        .default_value(DEFAULT_SUM_CUTS)
        .help(CUTS_HELP);
    let file = Arg::new(alloc, "file")
        .value_name("FILE")
        .action(ArgAction::Append)
        .num_args(1..)
        .value_parser(ValueParser::NonEmptyString)
        .help("The files of the texts, - for standard input");
    Command::new(alloc, "sum")
        .about(SUM_ABOUT)
        .after_help(SUM_HELP)
        .arg(cuts)?
        .arg(file)
}

// A word that reads the snapshot in a file.
fn snapshot_command<'a>(
    alloc: Global,
    name: &'a str,
    about: &'a str,
    help: &'a str,
) -> Result<Command<'a>, AllocError> {
    let path = Arg::new(alloc, "path")
        .value_name("PATH")
        .required(true)
        .value_parser(ValueParser::NonEmptyString)
        .help("The snapshot's file");
    Command::new(alloc, name)
        .about(about)
        .after_help(help)
        .arg(path)
}

// `fold`, which reads a log too, and may make a file.
fn fold_command<'a>(alloc: Global) -> Result<Command<'a>, AllocError> {
    let log = Arg::new(alloc, "log")
        .long("log")
        .value_name("LOG")
        .value_parser(ValueParser::NonEmptyString)
        .help("The file of the log to fold with it");
    let to = Arg::new(alloc, "to")
        .long("to")
        .value_name("OUT")
        .value_parser(ValueParser::NonEmptyString)
        .help("The file to make in place of PATH, where nothing may be");
    let fold = snapshot_command(alloc, "fold", FOLD_ABOUT, FOLD_HELP)?;
    with_numbers(alloc, fold.arg(log)?.arg(to)?)
}

// `fork`, which makes a file.
fn fork_command<'a>(alloc: Global) -> Result<Command<'a>, AllocError> {
    let out = Arg::new(alloc, "out")
        .value_name("OUT")
        .required(true)
        .value_parser(ValueParser::NonEmptyString)
        .help("The file to make, where nothing may be");
    let path = Arg::new(alloc, "path")
        .value_name("PATH")
        .required(true)
        .value_parser(ValueParser::NonEmptyString)
        .help("The snapshot's file");
    let log = Arg::new(alloc, "log")
        .long("log")
        .value_name("LOG")
        .value_parser(ValueParser::NonEmptyString)
        .help("The file of the log that goes with it");
    Command::new(alloc, "fork")
        .about(FORK_ABOUT)
        .after_help(FORK_HELP)
        .arg(out)?
        .arg(path)?
        .arg(log)
}

// `salvage`, which makes a file too.
fn salvage_command<'a>(alloc: Global) -> Result<Command<'a>, AllocError> {
    let out = Arg::new(alloc, "out")
        .value_name("OUT")
        .required(true)
        .value_parser(ValueParser::NonEmptyString)
        .help("The file to make, where nothing may be");
    let path = Arg::new(alloc, "path")
        .value_name("PATH")
        .value_parser(ValueParser::NonEmptyString)
        .help("The snapshot's file");
    let log = Arg::new(alloc, "log")
        .long("log")
        .value_name("LOG")
        .required(true)
        .value_parser(ValueParser::NonEmptyString)
        .help("The file of the log");
    Command::new(alloc, "salvage")
        .about(SALVAGE_ABOUT)
        .after_help(SALVAGE_HELP)
        .arg(out)?
        .arg(path)?
        .arg(log)
}

// The program without a word.
fn program<'a>(alloc: Global) -> Result<Command<'a>, AllocError> {
    let program = Command::new(alloc, "hhm").bin_name("hhm")?;
    Ok(
        program
            .version(VERSION)
            .about(ABOUT)
            .subcommand_required(true)
            .arg_required_else_help(true),
    )
}

// The program with one word more, if there was memory for it.
fn with<'a>(
    program: Command<'a>,
    word: Result<Command<'a>, AllocError>,
) -> Result<Command<'a>, AllocError> {
    program.subcommand(word?)
}

/// The command line of the program.
pub fn command<'a>(alloc: Global) -> Result<Command<'a>, AllocError> {
    let mut hhm = with(program(alloc)?, sum_command(alloc))?;
    hhm = with(
        hhm,
        snapshots_command(alloc, "check", CHECK_ABOUT, CHECK_HELP),
    )?;
    hhm = with(hhm, export_command(alloc))?;
    hhm = with(hhm, fold_command(alloc))?;
    hhm = with(hhm, fork_command(alloc))?;
    hhm = with(hhm, salvage_command(alloc))?;
    hhm = with(hhm, top_command(alloc))?;
    hhm = with(hhm, list_command(alloc))?;
    hhm = with(hhm, degrees_command(alloc))?;
    hhm = with(hhm, has_command(alloc))?;
    hhm = with(hhm, roll_command(alloc))?;
    hhm = with(hhm, status_command(alloc))?;
    hhm = with(hhm, end_command(alloc))?;
    with(hhm, serve_command(alloc))
}
