//! Why no sum is written.
ghost use Rattle.std.specs.Prelude.{◌≡◌};
ghost use Rattle.mm_sum.specs.declared.fault.SumFault.TheVariants.{Memory, Text};
ghost use Rattle.mm_sum.specs.declared.fault.TextsFault.TheVariants as texts;

use byte_io::WriteFault;
use mm_text::MmFault;
use std::alloc::AllocError;
use thiserror::Error;

/// Why a sum was not written.
#[derive(Clone, Copy, Debug, PartialEq, Eq, Error)]
pub enum SumFault {
    /// The cuts are more than seven, don't rise strictly, or one isn't 1 to 2^40. Nothing was read.
    #[error("settings: BadCuts")]
    BadCuts,
    /// The text has this fault, or reading it failed. Its kind is never Memory.
    #[error("text: {0}")]
    Text(MmFault),
    /// The counts of the text's list add up to more than 2^64 - 1.
    #[error("sum: SumTooLarge")]
    SumTooLarge,
    /// There was no memory: for the reader, its block, the layers or the sum. No fault of the text stands before, and
    /// the counts of what was read up to there fit 64 bits.
    #[error("memory")]
    Memory,
    /// The sink failed, or took nothing of what it was offered. What it took before is the front of the sum's text.
    #[error(transparent)]
    Output(WriteFault),
}

impl From<MmFault> for SumFault {
    ghost from_gives = { λ fault e. e ≡ Text fault };

    fn from(fault: MmFault) -> SumFault {
        SumFault::Text(fault)
    }
}

impl From<AllocError> for SumFault {
    ghost from_gives = { λ _ e. e ≡ Memory };

    fn from(_: AllocError) -> SumFault {
        SumFault::Memory
    }
}

/// Why a text was not opened.
#[derive(Clone, Copy, Debug, PartialEq, Eq, Error)]
pub enum OpenFault {
    /// There is no such file.
    #[error("NotFound")]
    NotFound,
    /// It can't be opened.
    #[error("OpenFailed")]
    OpenFailed,
    /// There was no memory for it.
    #[error("memory")]
    Memory,
}

/// Why the sum of several texts was not written. Texts are counted from 0.
#[derive(Clone, Copy, Debug, PartialEq, Eq, Error)]
pub enum TextsFault {
    /// The cuts are more than seven, don't rise strictly, or one isn't 1 to 2^40. Nothing was opened or read.
    #[error("settings: BadCuts")]
    BadCuts,
    /// This text could not be opened. The fault is never want of memory.
    #[error("file: {1}")]
    File(u64, OpenFault),
    /// This text has this fault, or reading it failed. Its kind is never Memory.
    #[error("text: {1}")]
    Text(u64, MmFault),
    /// This text bears no fault, and has other dimensions than the first.
    #[error("text: DimensionsDiffer")]
    DimensionsDiffer(u64),
    /// The counts of all lists add up to more than 2^64 - 1.
    #[error("sum: SumTooLarge")]
    SumTooLarge,
    /// There was no memory: for the reader, its block, the opening of a text, the layers or the sum. No fault stands
    /// before, and but for an opening the counts of what was read up to there fit 64 bits.
    #[error("memory")]
    Memory,
    /// The sink failed, or took nothing of what it was offered. What it took before is the front of the sum's text.
    #[error(transparent)]
    Output(WriteFault),
}

impl From<AllocError> for TextsFault {
    ghost from_gives = { λ _ e. e ≡ texts.Memory };

    fn from(_: AllocError) -> TextsFault {
        TextsFault::Memory
    }
}
