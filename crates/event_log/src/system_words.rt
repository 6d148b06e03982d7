//! What the system says of an error.

use arrayvec::ArrayString;
use std::fmt::{self, Display, Formatter, Write};
use std::io;

/// The most bytes of such words that are written.
const MOST: usize = 160;

/// What stands between the words of an error and its number.
const BEFORE_NUMBER: &str = " (os error ";

/// What the system says of the error of this number, as `No space left on device`.
#[derive(Clone, Copy, Debug, PartialEq, Eq)]
pub struct SystemWords(pub i32);

impl Display for SystemWords {
    fn fmt<W: Write>(&self, f: &mut Formatter<W>) -> fmt::Result {
        let mut text: ArrayString<MOST> = ArrayString::new();
        let error = io::Error::from_raw_os_error(self.0);
        let _ = write!(text, "{error}");
        match text.as_str().split_once(BEFORE_NUMBER) {
            Some((words, _)) => f.write_str(words),
            None => f.write_str(text.as_str()),
        }
    }
}
