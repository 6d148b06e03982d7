//! Who is told of what is read.

/// Is told of what is read, beside whoever reads it.
pub trait Watch {
    /// These bytes were read: none where the end was.
    fn saw(&mut self, bytes: &[u8]);
}

/// Nobody is told.
#[derive(Clone, Copy)]
pub struct Unwatched;

impl Watch for Unwatched {
    fn saw(&mut self, _bytes: &[u8]) {}
}

impl<W: Watch> Watch for Option<W> {
    fn saw(&mut self, bytes: &[u8]) {
        if let Some(watch) = self {
            watch.saw(bytes);
        }
    }
}
