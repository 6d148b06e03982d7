//! A log in use.

use log_file::LogWriter;
use log_folder::NumberedFile;

/// A log that can be appended to: its file, and the writer that belongs to it.
#[derive(Drop)]
pub struct OpenLog<D> {
    pub file: NumberedFile<D>,
    pub writer: LogWriter,
}
