//! Reads the text of a Put.
ghost use Rattle.std.specs.Prelude.{◌≡◌, ◌≢◌, ◌≤◌, IfOk, IfErr};
ghost use Rattle.mm_text.specs.Texts.{Spells, FirstFault};
ghost use Rattle.wire_proto.specs.Answering.{put_limits, kind_number};
ghost use Rattle.wire_proto.specs.PutTexts.{Leads};

use crate::limits::MAX_ENTRIES;
use batch_store::{Batch, BatchFault, Setup};
use mm_text::{MmFault, MmFile, MmKind, TextLimits, read_text};
use std::alloc::Global;
use std::sync::Arc;
use wire_frames::MAX_BODY;

const LIMITS: TextLimits = TextLimits {
    max_bytes: MAX_BODY as u64,
    max_entries: MAX_ENTRIES,
};

/// Why the body of a put is refused before the keeper is asked.
#[derive(Clone, Copy)]
pub enum BodyRefusal {
    Memory,
    Refused { code: u16, detail: u64 },
}

/// The matrix that a text spells, or its first fault.
fn spelled_file(alloc: Global, text: &[u8]) -> Result<MmFile, MmFault>
    ensures ok { IfOk result (λ m. Spells text.now put_limits m.rows m.cols m.cells.items) }
    ensures err { IfErr result (λ f. f.kind ≢ MmKind.Memory → FirstFault text.now put_limits f.kind f.line) }
{
    read_text(alloc, text, LIMITS)
}

/// The number of a kind of fault.
fn number_of(kind: MmKind) -> u16
    ensures value { result ≡ kind_number kind }
    ensures short { result ≤ 16 }
{
    match kind {
        MmKind::Read => 1,
        MmKind::Memory => 2,
        MmKind::BadBanner => 3,
        MmKind::Unsupported => 4,
        MmKind::LineTooLong => 5,
        MmKind::BadSize => 6,
        MmKind::BadDimension => 7,
        MmKind::NotSquare => 8,
        MmKind::TooManyEntries => 9,
        MmKind::BadEntry => 10,
        MmKind::Negative => 11,
        MmKind::NumberTooLarge => 12,
        MmKind::IndexOutOfRange => 13,
        MmKind::TooFewEntries => 14,
        MmKind::ExtraText => 15,
        MmKind::TooLong => 16,
    }
}

/// The batch that a Put's text spells, in the setup's dimensions, or the first refusal.
///
/// The text is read where it lies; of it only the cells are kept, and of these only the batch's matrix.
pub fn batch_of(
    alloc: Global,
    setup: &Setup,
    client: u64,
    number: u64,
    text: &[u8],
) -> Result<Arc<Batch>, BodyRefusal>
    ensures { Leads setup.now client number text.now result }
{
    match spelled_file(alloc, text) {
        Ok(file) => match Batch::make(alloc, setup, client, number, &file) {
            Ok(batch) => Ok(batch),
            Err(BatchFault::Memory) => Err(BodyRefusal::Memory),
            Err(BatchFault::DimensionsTooLarge) => Err(BodyRefusal::Refused {
                code: 20,
                detail: 0,
            }),
            Err(BatchFault::SumTooLarge) => Err(BodyRefusal::Refused {
                code: 21,
                detail: 0,
            }),
        },
        Err(fault) => match fault.kind {
            MmKind::Memory => Err(BodyRefusal::Memory),
            kind => Err(BodyRefusal::Refused {
                code: 100 + number_of(kind),
                detail: fault.line,
            }),
        },
    }
}
