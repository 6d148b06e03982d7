//! The word `roll`, as `clap` reads it.

use clap::builder::ValueParser;
use clap::{Arg, ArgAction, Command};
use std::alloc::{AllocError, Global};

const ROLL_ABOUT: &str = "Take the snapshots of closed windows into a coarser one, each once";

const ROLL_HELP: &str = "\
Reads the snapshot in the file TO, if it is there, and then the ones in the files
FILE, one after the other. Each is that of a closed window, as an hour of a day. A
window that TO doesn't have is added: its sum, and one folded batch that CLIENT has
sent under the window's number, with the cells and the total of that sum. One that
TO has already, with as many cells and the same total, is passed over. So a roll may
be repeated. TO is saved where a window was added, and one line is written:

  rolled A batches B total T

A is how many windows were added, B how many batches TO has, and T their total.

A window is known by what its file says, and not by the file's name. The file of a
server without windows says none, and is given as W=FILE, where W is its number of
at most 20 digits. All have TO's rows and columns; where TO isn't there it is begun
with the numbers of the first FILE. The lock of TO is held.

A FILE that a log goes with isn't taken unless that log is given: by --log, once for
each FILE and in their order, - for none. It is joined as a start joins both.

A fault is one line on standard error, and TO stays as it was, but where the output
failed (after Rename it may be saved). The line of a file ends with ' in FILE':

  hhm: settings: BadNumber         status 2
  hhm: settings: BadPath (TO), (FILE)  status 2 (it ends in .new or .lock)
  hhm: settings: SamePath          status 2 (a FILE is TO)
  hhm: file: NotFound, OpenFailed, Busy   status 4
  hhm: snapshot: KIND              status 3 (KIND Read: 4)
  hhm: log: NotFound, OpenFailed   status 4
  hhm: log: KIND at page N         status 3 (KIND Read: 4)
  hhm: settings: LogDiffers        status 2
  hhm: log: OtherBook, LinkDiffers status 3
  hhm: log: Gap, EntryDiffers, NotFresh at batch N  status 3
  hhm: snapshot: NoWindow, NotClosed, OtherBook, DimensionsDiffer  status 3
  hhm: snapshot: NumberReused, OverTotal, BookFull, HasWindow      status 3
  hhm: file: Create, Write, Sync, Rename  status 4
  hhm: output failed after N bytes status 4
  hhm: memory                      status 5";

/// The word `roll`.
pub fn roll_command<'a>(alloc: Global) -> Result<Command<'a>, AllocError> {
    let to = Arg::new(alloc, "to")
        .value_name("TO")
        .required(true)
        .value_parser(ValueParser::NonEmptyString)
        .help("The coarser snapshot's file, which is made where it isn't there");
    let client = Arg::new(alloc, "client")
        .value_name("CLIENT")
        .required(true)
        .help("The client under which TO has the windows");
    let file = Arg::new(alloc, "file")
        .value_name("FILE")
        .required(true)
        .action(ArgAction::Append)
        .num_args(1..)
        .value_parser(ValueParser::NonEmptyString)
        .help("The windows' files, each FILE or W=FILE");
    let log = Arg::new(alloc, "log")
        .long("log")
        .value_name("LOG")
        .action(ArgAction::Append)
        .value_parser(ValueParser::NonEmptyString)
        .help("The log beside each FILE, in their order, - for none");
    Command::new(alloc, "roll")
        .about(ROLL_ABOUT)
        .after_help(ROLL_HELP)
        .arg(to)?
        .arg(client)?
        .arg(file)?
        .arg(log)
}
