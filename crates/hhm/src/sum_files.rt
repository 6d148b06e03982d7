//! The texts that `sum` is given by name: files, each opened when its turn comes, and standard input.
ghost use Rattle.std.specs.Prelude.{◌≡◌, ◌<◌, length, false, ⊤};

use crate::report::Fault;
use byte_io::{DeviceFault, Source};
use mm_sum::{OpenFault, Texts, TextsFault};
use progress::Watch;
use std::fmt::{self, Display, Formatter, Write};
use std::fs::{self, File};
use std::io::{self, Read};
use std::rt::Files;

/// The word that names standard input.
const STANDARD_INPUT: &str = "-";

/// Whether standard input is the one text that is summed, which is so too where no name is given.
pub fn is_input_alone(names: &[&str]) -> bool
    ensures { result ≡ false → 0 < length names.now }
{
    if names.is_empty() {
        return true;
    }
    names.len() == 1 && has_input(names)
}

/// Whether standard input is one of the texts that are summed.
pub fn has_input(names: &[&str]) -> bool {
    names.is_empty() || names.iter().any(|name| *name == STANDARD_INPUT)
}

/// The texts of these names, and who is told of what is read of them. No file is open but that of the last text that
/// was opened.
#[derive(Drop)]
pub struct NamedTexts<'a, R: Files<File = File>, I: Read + Drop, W: Watch> {
    rt: &'a R,
    input: I,
    names: &'a [&'a str],
    watch: &'a mut W,
    // How many were opened, or tried.
    opened: usize,
    // None is standard input.
    file: Option<File>,
    failures: u64,
}

impl<'a, R: Files<File = File>, I: Read + Drop, W: Watch> NamedTexts<'a, R, I, W> {
    /// The texts of these names, of which none is open yet.
    pub fn new(
        rt: &'a R,
        input: I,
        names: &'a [&'a str],
        watch: &'a mut W,
    ) -> NamedTexts<'a, R, I, W>
        ensures { result.failures ≡ 0 }
    {
        NamedTexts {
            rt,
            input,
            names,
            watch,
            opened: 0,
            file: None,
            failures: 0,
        }
    }
}

impl<'a, R: Files<File = File>, I: Read + Drop, W: Watch> Source for NamedTexts<'a, R, I, W> {
    ghost read_gives = { λ s answer t. ⊤ };

    ghost at_end = { λ s. ⊤ };

    ghost failure_count = { λ s. s.failures };

    fn read(&mut self, buf: &mut [u8]) -> Result<usize, DeviceFault> {
        let answer = match &mut self.file {
            Some(file) => file.read(buf),
            None => self.input.read(buf),
        };
        match answer {
            Ok(count) => {
                self.watch.saw(&buf[..count]);
                Ok(count)
            }
            Err(_) => {
                self.failures += 1;
                Err(DeviceFault)
            }
        }
    }

    fn failures(&self) -> u64 {
        self.failures
    }
}

impl<'a, R: Files<File = File>, I: Read + Drop, W: Watch> Texts for NamedTexts<'a, R, I, W> {
    ghost open_gives = { λ s answer t. ⊤ };

    fn open_next(&mut self) -> Result<(), OpenFault> {
        self.file = None;
        let Some(name) = self.names.get(self.opened) else {
            return Err(OpenFault::NotFound);
        };
        self.opened += 1;
        if *name == STANDARD_INPUT {
            return Ok(());
        }
        match fs::open(self.rt, *name) {
            Ok(file) => {
                self.file = Some(file);
                Ok(())
            }
            Err(error) => Err(opening_fault(error.kind())),
        }
    }
}

// Why a file wasn't opened.
fn opening_fault(kind: io::ErrorKind) -> OpenFault {
    match kind {
        io::ErrorKind::NotFound => OpenFault::NotFound,
        io::ErrorKind::OutOfMemory => OpenFault::Memory,
        _ => OpenFault::OpenFailed,
    }
}

/// The text that a fault is of, as it stands behind the fault.
#[derive(Clone, Copy)]
pub enum Place<'a> {
    /// The line is one of this text.
    Of(&'a str),
    /// The fault is of this text as a whole.
    In(&'a str),
    /// The fault is of no text, or of the only one.
    Nowhere,
}

/// The text that a fault is of, if these were summed.
pub fn place_of<'a>(fault: &Fault, names: &[&'a str]) -> Place<'a> {
    let (text, is_line) = match fault {
        Fault::Texts(TextsFault::Text(text, _)) => (*text, true),
        Fault::Texts(TextsFault::File(text, _)) => (*text, false),
        Fault::Texts(TextsFault::DimensionsDiffer(text)) => (*text, false),
        _ => return Place::Nowhere,
    };
    match names.get(text as usize) {
        Some(name) if is_line => Place::Of(*name),
        Some(name) => Place::In(*name),
        None => Place::Nowhere,
    }
}

impl<'a> Display for Place<'a> {
    fn fmt<W: Write>(&self, f: &mut Formatter<W>) -> fmt::Result {
        match self {
            Place::Of(name) => write!(f, " of {name}"),
            Place::In(name) => write!(f, " in {name}"),
            Place::Nowhere => Ok(()),
        }
    }
}
