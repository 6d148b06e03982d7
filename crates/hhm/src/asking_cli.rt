//! The words that ask a server, `status` and `end`, as `clap` reads them.

use clap::builder::ValueParser;
use clap::{Arg, Command};
use std::alloc::{AllocError, Global};

const STATUS_ABOUT: &str = "Ask a server how much it has accepted";

const STATUS_HELP: &str = "\
Asks the server at ADDR for its status, and writes one line to standard output:

  batches N total T

ADDR is unix:PATH or tcp:HOST:PORT, or a path, if it has a slash, or HOST:PORT. A server
that is loading its files doesn't listen yet. It may take ten seconds to answer.

A fault is one line on standard error:

  hhm: server: NotReached          status 4
  hhm: server: NoAnswer            status 4
  hhm: server: BadReply            status 3
  hhm: server: Refused (CODE)      status 4 (code 1: 5)
  hhm: output failed after N bytes status 4
  hhm: memory                      status 5";

const END_ABOUT: &str = "Ask a server to save and to end";

const END_HELP: &str = "\
Asks the server at ADDR to save, and then to stop, and writes 'stopping' to standard
output. The server ends once its open sessions are served. Where it refuses the save,
a line on standard error reports the code, and it is stopped all the same: it saves
once more at its end. A server without a snapshot's path has nothing to save to.

ADDR is unix:PATH or tcp:HOST:PORT, or a path, if it has a slash, or HOST:PORT.

A fault is one line on standard error:

  hhm: server: NotReached          status 4
  hhm: server: NoAnswer            status 4
  hhm: server: BadReply            status 3
  hhm: server: Refused (CODE)      status 4 (code 1, for want of memory: 5; ask again)
  hhm: output failed after N bytes status 4
  hhm: memory                      status 5";

// A word that is given an address.
fn address_command<'a>(
    alloc: Global,
    name: &'a str,
    about: &'a str,
    help: &'a str,
) -> Result<Command<'a>, AllocError> {
    let address = Arg::new(alloc, "address")
        .value_name("ADDR")
        .required(true)
        .value_parser(ValueParser::NonEmptyString)
        .help("The server's address: unix:PATH or tcp:HOST:PORT");
    Command::new(alloc, name)
        .about(about)
        .after_help(help)
        .arg(address)
}

/// The word `status`.
pub fn status_command<'a>(alloc: Global) -> Result<Command<'a>, AllocError> {
    address_command(alloc, "status", STATUS_ABOUT, STATUS_HELP)
}

/// The word `end`.
pub fn end_command<'a>(alloc: Global) -> Result<Command<'a>, AllocError> {
    address_command(alloc, "end", END_ABOUT, END_HELP)
}
