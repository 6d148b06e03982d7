//! Matrix Market texts (NIST, coordinate format) of counted cells, read from any source of bytes.
//!
//! The definitions in `specs/` say what a text spells and which fault of it comes first, in the standard's terms: over
//! whole lists of bytes and lines. `read_matrix` and `TextReader` meet them.
#![tactic(auto)]

mod carrying;
mod fault;
mod file;
mod judging;
mod laws;
mod limits;
mod line_reader;
mod pieces;
mod plain;
mod progress;
mod size;
mod stages;
mod text_reader;
mod whole_text;
mod words;
mod writer;

pub use byte_io::{Counted, DeviceFault, Script, Sink, Source, WriteFault, write_all};
pub use cells::Cell;
pub use fault::{MmFault, MmKind};
pub use file::MmFile;
pub use laws::{one_file_spelled, one_first_fault, spelled_or_faulty, spelled_within};
pub use limits::{MAX_BYTES, TextLimits};
pub use size::Size;
pub use text_reader::TextReader;
pub use whole_text::{read_matrix, read_text};
pub use writer::{TextWriter, write_matrix};
