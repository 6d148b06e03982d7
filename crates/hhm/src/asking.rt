//! The words that ask a server: `status` and `end`.

use crate::report::Fault;
use ask_server::{Save, ask_save, ask_stop, run_status};
use byte_io::{Counted, write_all};
use clap::ArgMatches;
use std::io::{Read, Write};
use std::net::TcpStream;
use std::os::unix::net::UnixStream;
use std::time::Duration;

/// How many seconds a server may take to answer `status`. An end waits for a save, as long as that takes.
const PATIENCE: u64 = 10;

/// The code by which a server without a snapshot's path refuses a save.
const NO_PATH: u16 = 43;

/// What a server is asked over a connection of its own.
#[derive(Clone, Copy)]
enum Question {
    Status,
    Save,
    Stop,
}

/// Where a server listens.
#[derive(Clone, Copy)]
enum Address<'a> {
    Unix(&'a str),
    Tcp(&'a str),
}

impl<'a> Address<'a> {
    /// The address of a word: unix:PATH or tcp:HOST:PORT, or a path, which has a slash, or HOST:PORT.
    fn of(word: &'a str) -> Address<'a> {
        if let Some(path) = word.strip_prefix("unix:") {
            return Address::Unix(path);
        }
        match word.strip_prefix("tcp:") {
            Some(host) => Address::Tcp(host),
            None if word.contains('/') => Address::Unix(word),
            None => Address::Tcp(word),
        }
    }
}

/// Asks the server at the address that is given.
pub fn ask_word(rt: &HostRuntime, word: &str, given: &ArgMatches) -> Result<(), Fault> {
    let address = Address::of(given.get_str("address").unwrap_or(""));
    if word == "status" {
        return ask_at(rt, address, Question::Status);
    }
    ask_at(rt, address, Question::Save)?;
    ask_at(rt, address, Question::Stop)?;
    let mut out = Counted::new(rt.stdout());
    write_all(&mut out, b"stopping\n")?;
    Ok(())
}

/// Connects, and asks. A server that refuses for want of memory ends the session, so each question has its own.
fn ask_at(rt: &HostRuntime, address: Address, question: Question) -> Result<(), Fault> {
    let limit = match question {
        Question::Status => Some(Duration::from_secs(PATIENCE)),
        Question::Save | Question::Stop => None,
    };
    match address {
        Address::Unix(path) => {
            let Ok(stream) = UnixStream::connect(rt, path) else {
                return Err(Fault::NotReached);
            };
            let _ = stream.set_read_timeout(limit);
            ask_over(rt, question, stream)
        }
        Address::Tcp(host) => {
            let Ok(stream) = TcpStream::connect(rt, host) else {
                return Err(Fault::NotReached);
            };
            let _ = stream.set_read_timeout(limit);
            ask_over(rt, question, stream)
        }
    }
}

/// Asks over a connection. A refused save is no fault: the server saves at its end, if it can.
fn ask_over<S: Read + Write + Drop>(
    rt: &HostRuntime,
    question: Question,
    stream: S,
) -> Result<(), Fault> {
    let mut link = Counted::new(stream);
    match question {
        Question::Status => run_status(rt.alloc(), &mut link, &mut Counted::new(rt.stdout()))?,
        Question::Save => match ask_save(rt.alloc(), &mut link)? {
            Save::Made | Save::Refused(NO_PATH) => {}
            Save::Refused(code) => {
                let _ = eprintln!(rt; "hhm: the save was refused ({code})");
            }
        },
        Question::Stop => ask_stop(rt.alloc(), &mut link)?,
    }
    Ok(())
}
