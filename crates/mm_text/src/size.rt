//! The size line of a text.

/// What a size line declares.
#[derive(Clone, Copy, Debug, PartialEq, Eq)]
pub struct Size {
    pub rows: u64,
    pub cols: u64,
    pub entries: u64,
}
