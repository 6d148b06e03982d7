//! The sizes of the buffers, in bytes.

/// How many bytes a `ReadBuffer` has room for, and asks a source for at most.
pub const READ_CAPACITY: usize = 65_536;

/// How many bytes a `WriteBuffer` has room for. More would take room on the stack and save few calls.
pub const WRITE_CAPACITY: usize = 16_384;
