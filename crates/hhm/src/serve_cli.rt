//! The options of `serve`, as `clap` reads them.
ghost use Rattle.std.specs.Prelude.{◌≡◌, IfOk, Some, codes, map, option_map, option_to_list};
ghost use Rattle.clap.specs.Words.{items_of};
ghost use Rattle.hhm.specs.Given.{IsNamed};

use clap::builder::ValueParser;
use clap::{Arg, ArgAction, ArgGroup, Command};
use std::alloc::{AllocError, Global};

const SERVE_ABOUT: &str =
    "Take batches of counted cells over TCP and Unix sockets, each of them once, and answer queries";

const SERVE_HELP: &str = "\
Writes 'listening tcp ADDRESS' and 'listening unix PATH' to standard output once
it listens, and 'stopped batches B total T' at the end. A client ends it by a
Stop. With --snapshot it starts from that file, if there is one, and saves what
was accepted there, when a client asks for it, by itself as --save-log-above and
--save-every say, and at the end; without --log, what came after the last save
is lost if the process is killed. At a Unix
socket's path there must be nothing at the start, or a socket that nobody
listens at, which is removed; it is removed at the end.

With --log each batch is written to that file and synced before it is answered:
what was answered as accepted is there after a kill or a loss of power, once the
server is started again with the same --snapshot and --log. Each save begins the
log anew behind the snapshot. Without --snapshot it grows, and nothing is saved.
Where the disk is full, or a write failed, new batches are refused (LogFull,
LogFailed) and the server goes on; after LogFailed a save makes it take batches
again, and with --snapshot it saves by itself then. Without --snapshot 'stopped' counts what is durable in the log, and a
line says how many accepted batches aren't.

Numbers of rows, columns, cuts, shards and limits that aren't given are those of
the snapshot, or where there is none of the log. Given ones may differ: rows and
columns may be more, the limits any that what was accepted fits, cuts and shards
any. Both files then say so before the server listens.

As long as it runs it holds the lock of the file PATH.lock, so that no second
server and no 'hhm fold' saves there ('hhm: file: Busy'), and that of the log's
path ('hhm: log: Busy'). It waits for the time of --lock-wait while another has
one of them. No path may end in .new or .lock: beside a file it makes others of
these names.

A connection keeps its worker until it is closed, whether it sends or not, or
until it has sent nothing for the time of --idle, or until the time of --drain
after a Stop is over.

A fault is one line on standard error:

  hhm: settings: NAME              status 2
  hhm: settings: SnapshotDiffers (NUMBER: the file has N, N was given)   status 2
  hhm: settings: LogDiffers (NUMBER: the file has N, N was given)   status 2
  hhm: settings: NeedsNumber (NUMBER: no file says it)   status 2
  hhm: settings: NeedsLog (PATH: a log goes with it)   status 2
  hhm: snapshot: KIND              status 3 (KIND Read: 4)
  hhm: file: KIND                  status 4
  hhm: log: KIND at page N         status 3 (KIND Read: 4)
  hhm: log: KIND at batch N        status 3
  hhm: log: OtherBook, LinkDiffers status 3
  hhm: log: NotFound, Create, Write, Sync, Rename, Busy   status 4
  hhm: log: NotDurable (N batches) status 4
  hhm: log: Hangs (N batches are durable)   status 4
  hhm: listen failed: ADDRESS      status 4
  hhm: no worker                   status 4
  hhm: no random numbers           status 4
  hhm: output failed after N bytes status 4
  hhm: memory                      status 5
  hhm: records differ              status 6";

/// An option of `serve`.
struct ServeOption {
    name: &'static str,
    value: &'static str,
    default: Option<&'static str>,
    /// Whether an empty word is refused, as the name of a file that is none.
    is_path: bool,
    help: &'static str,
}

// An option that may be left out.
const LEFT_OUT: ServeOption = ServeOption {
    name: "",
    value: "",
    default: None,
    is_path: false,
    help: "",
};

/// A word of `serve` that is there or not, and that is of use with another alone, or with one of a group.
struct ServeFlag {
    name: &'static str,
    with: &'static str,
    help: &'static str,
}

/// The group of the options that name a file.
const FILES: &str = "files";

static FLAGS: &[ServeFlag] = &[
    ServeFlag {
        name: "must-load",
        with: FILES,
        help: "Don't start where neither the snapshot nor the log is there",
    },
    ServeFlag {
        name: "must-save",
        with: "snapshot",
        help: "Don't start where no snapshot can be saved",
    },
];

/// Where it listens and saves.
static PLACES: &[ServeOption] = &[
    ServeOption {
        name: "tcp",
        value: "ADDR",
        help: "Listen at this address, as 127.0.0.1:7000; port 0 is a free one",
        ..LEFT_OUT
    },
    ServeOption {
        name: "unix",
        value: "PATH",
        help: "Listen at a Unix socket that is made at this path",
        ..LEFT_OUT
    },
    ServeOption {
        name: "snapshot",
        value: "PATH",
        is_path: true,
        help: "Start from this snapshot, and save there",
        ..LEFT_OUT
    },
    ServeOption {
        name: "log",
        value: "PATH",
        is_path: true,
        help: "Write each batch to this log before it is answered, and start from it too",
        ..LEFT_OUT
    },
];

/// The numbers of a setup, of `fold` too.
static NUMBERS: &[ServeOption] = &[
    ServeOption {
        name: "rows",
        value: "N",
        help: "The number of rows, 1 to 1152921504606846976; where files say it, no fewer",
        ..LEFT_OUT
    },
    ServeOption {
        name: "cols",
        value: "N",
        help: "The number of columns, 1 to 1152921504606846976; where files say it, no fewer",
        ..LEFT_OUT
    },
    ServeOption {
        name: "cuts",
        value: "LIST",
        help: "The cuts of each shard's layers, rising, at most 7, or none [default: the files', else 4096,65536,1048576]",
        ..LEFT_OUT
    },
    ServeOption {
        name: "shards",
        value: "N",
        help: "The number of shards, 1 to 64 [default: the files', else 8]",
        ..LEFT_OUT
    },
    ServeOption {
        name: "limit",
        value: "N",
        help: "The highest accepted total, at least 1 [default: the files', else 18446744073709551615]",
        ..LEFT_OUT
    },
    ServeOption {
        name: "max-batches",
        value: "N",
        help: "The highest number of accepted batches, 1 to 1073741824 [default: the files', else 1000000]",
        ..LEFT_OUT
    },
];

/// How it serves.
static OPTIONS: &[ServeOption] = &[
    ServeOption {
        name: "workers",
        value: "N",
        default: Some("4"),
        help: "The number of connections that are served at once, 1 to 32",
        ..LEFT_OUT
    },
    ServeOption {
        name: "compactors",
        value: "N",
        default: Some("2"),
        help: "The number of threads that add up what batches leave, 1 or 2",
        ..LEFT_OUT
    },
    ServeOption {
        name: "sessions",
        value: "N",
        default: Some("1099511627776"),
        help: "End after so many connections",
        ..LEFT_OUT
    },
    ServeOption {
        name: "fold-above",
        value: "CELLS",
        default: Some("1048576"),
        help: "Add up what was accepted once batches have so many cells more; 0: never",
        ..LEFT_OUT
    },
    ServeOption {
        name: "save-log-above",
        value: "BYTES",
        default: Some("268435456"),
        help: "Save once the log has more bytes, and more than the snapshot; 0: never",
        ..LEFT_OUT
    },
    ServeOption {
        name: "save-every",
        value: "SECONDS",
        help: "Save so long after the last such save what came since; 0: never, as without it",
        ..LEFT_OUT
    },
    ServeOption {
        name: "lock-wait",
        value: "SECONDS",
        default: Some("5"),
        help: "Wait so long at the start while another process has a lock; 0: not at all",
        ..LEFT_OUT
    },
    ServeOption {
        name: "idle",
        value: "SECONDS",
        help: "End a connection that has sent or taken nothing for so long; 0: never, as without it",
        ..LEFT_OUT
    },
    ServeOption {
        name: "drain",
        value: "SECONDS",
        help: "End all connections so long after a Stop; 0: never, as without it",
        ..LEFT_OUT
    },
];

// Whether what happens is told.
fn events_arg<'a>(alloc: Global) -> Arg<'a>
    ensures { IsNamed result (codes "events") }
{
    Arg::new(alloc, "events")
        .long("events")
        .action(ArgAction::SetTrue)
        .help("Write a line to standard error for what happens: starts, saves, refusals, ends")
}

// An option under its own name, with its default.
fn arg_of<'a>(alloc: Global, option: &'a ServeOption) -> Arg<'a>
    ensures named { IsNamed result option.entry.now.name.now }
    ensures defaults { map (λ word. word.now) (items_of result.default_vals)
        ≡ option_to_list (option_map (λ word. word.now) option.entry.now.default) }
{
    let arg = Arg::new(alloc, option.name)
        .long(option.name)
        .value_name(option.value)
        .help(option.help);
    let arg = if option.is_path {
        arg.value_parser(ValueParser::NonEmptyString)
    } else {
        arg
    };
    match option.default {
        Some(value) => arg.default_value(value),
        None => arg,
    }
}

// A flag under its own name.
fn flag_of<'a>(alloc: Global, flag: &'a ServeFlag) -> Result<Arg<'a>, AllocError>
    ensures { IfOk result (λ arg. IsNamed arg flag.entry.now.name.now) }
{
    Arg::new(alloc, flag.name)
        .long(flag.name)
        .action(ArgAction::SetTrue)
        .help(flag.help)
        .requires_arg(flag.with)
}

fn files_group<'a>(alloc: Global) -> Result<ArgGroup<'a>, AllocError> {
    ArgGroup::new(alloc, FILES)
        .multiple(true)
        .arg("snapshot")?
        .arg("log")
}

// A word with these options more.
fn with_options<'a>(
    alloc: Global,
    word: Command<'a>,
    options: &'a [ServeOption],
) -> Result<Command<'a>, AllocError> {
    let mut command = word;
    for option in options {
        command = command.arg(arg_of(alloc, option))?;
    }
    Ok(command)
}

/// A word with the options of a setup's numbers.
pub fn with_numbers<'a>(alloc: Global, word: Command<'a>) -> Result<Command<'a>, AllocError> {
    with_options(alloc, word, NUMBERS)
}

/// The word `serve`.
pub fn serve_command<'a>(alloc: Global) -> Result<Command<'a>, AllocError> {
    let word = Command::new(alloc, "serve")
        .about(SERVE_ABOUT)
        .after_help(SERVE_HELP);
    let places = with_options(alloc, word, PLACES)?;
    let numbers = with_numbers(alloc, places)?;
    let mut command = with_options(alloc, numbers, OPTIONS)?;
    for flag in FLAGS {
        command = command.arg(flag_of(alloc, flag)?)?;
    }
    command.arg(events_arg(alloc))?.group(files_group(alloc)?)
}
