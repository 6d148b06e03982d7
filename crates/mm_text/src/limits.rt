//! Every limit of texts and of their reading and writing, with its unit.

/// What a text may take.
#[derive(Clone, Copy, Debug, PartialEq, Eq)]
pub struct TextLimits {
    /// The most bytes that a text may have.
    pub max_bytes: u64,
    /// The most entry lines that a size line may declare.
    pub max_entries: u64,
}

/// The most bytes that `max_bytes` may be, so that lines can be counted in 64 bits.
pub const MAX_BYTES: u64 = 1 << 63;

/// The most bytes that a line may have before its LF or CR LF, comments excepted.
pub const MAX_LINE: usize = 1024;

/// The most bytes that are carried of a line: one of full length, and a CR that may end it.
pub const CARRY: usize = 1025;

/// The most digits of a number that is read with no test for 64 bits: the largest has 20.
pub const MAX_DIGITS: usize = 19;

/// How many digits are read at once.
pub const WORD_DIGITS: usize = 8;

/// The most digits of such a number behind two words of them.
pub const LAST_DIGITS: usize = MAX_DIGITS - 2 * WORD_DIGITS;

/// The bytes of the longest line that is written: three numbers of at most 20 digits, two spaces and LF.
pub const LONGEST_LINE: usize = 63;
