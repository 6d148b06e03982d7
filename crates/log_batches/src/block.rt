//! Reads blocks.
ghost use Rattle.std.specs.Prelude.{◌≡◌, ◌⊎◌, ◌≤◌, List, length, IfOk, IfErr};
ghost use Rattle.batch_store.specs.Batches.{Submission, values};
ghost use Rattle.log_page.specs.Pages.{is_blank};
ghost use Rattle.log_blocks.specs.Blocks.{Block, FillsPages};
ghost use Rattle.log_blocks.specs.Files.{joined};
ghost use Rattle.log_blocks.specs.declared.fault.LogKind.{LogKind};
ghost use Rattle.log_batches.specs.Held.{IsFor, IsTaken, HasNoBatches, HoldsBatches, is_filled, refusal_of};

use crate::bytes::Bytes;
use crate::list::read_list;
use batch_store::{Batch, Setup};
use log_blocks::LogKind;
use log_page::CHUNK;
use snap_file::{ByteReader, CellTally, Head, SnapFault};
use std::alloc::{AllocError, Global};
use std::marker::Model;
use std::sync::Arc;

/// The version of snapshots whose cells are those of a block.
const VERSION: u32 = 3;

/// Reads the batches of blocks, one block after another. Contracts see the setup of the log.
///
/// It keeps 64 KiB in which bytes wait.
#[derive(Drop)]
pub struct BlockReader {
    head: Head,
    reader: ByteReader,
    tally: CellTally,
}

impl Model for BlockReader {
    ghost use Rattle.batch_store.specs.Setups.{Setting};
    ghost use Rattle.log_batches.specs.Held.{IsFor};

    ghost Value = { Setting };

    ghost view = { λ r. r.head.setup };

    ghost invariant = { λ r. IsFor r.head };
}

/// Whether all bytes are 00.
fn is_blank(bytes: &[u8]) -> bool
    ensures { result ≡ is_blank bytes.now }
{
    bytes.iter().all(|byte| *byte == 0)
}

/// Whether 00 alone follows the first bytes, and less than a page of it.
fn is_filled(bytes: &[u8], taken: usize) -> bool
    requires { taken ≤ length bytes.now }
    ensures { result ≡ is_filled taken bytes.now }
{
    bytes.len() - taken < CHUNK && is_blank(bytes.split_at(taken).1)
}

/// What is told of a block where a part of it isn't read.
fn refusal(fault: SnapFault) -> LogKind
    ensures { result ≡ refusal_of fault }
{
    match fault {
        SnapFault::Memory => LogKind::Memory,
        _ => LogKind::BadBlock,
    }
}

/// Reads the batches with which bytes begin, and tells how many bytes they take.
fn take_list(
    alloc: Global,
    head: &Head,
    reader: &mut ByteReader,
    tally: &mut CellTally,
    bytes: &[u8],
) -> Result<(Vec<Arc<Batch>>, usize), LogKind>
    requires { IsFor head.now }
    ensures within { IfOk result (λ found. found.1 ≤ length bytes.now) }
    ensures ok { IfOk result (λ found. IsTaken head.now.setup bytes.now (values found.0.items) found.1) }
    ensures err { IfErr result (λ kind. (kind ≡ LogKind.Memory) ⊎
        ((kind ≡ LogKind.BadBlock) × HasNoBatches head.now.setup bytes.now)) }
{
    reader.restart(bytes.len() as u64);
    let mut source = Bytes::new(bytes);
    match read_list(alloc, reader, &mut source, head, tally) {
        Ok(list) => Ok((list, reader.taken() as usize)),
        Err(fault) => Err(refusal(fault)),
    }
}

impl BlockReader {
    /// A reader of the blocks of a log of this setup.
    ///
    /// # Errors
    ///
    /// The growth was refused.
    pub fn new(alloc: Global, setup: &Setup) -> Result<BlockReader, AllocError>
        ensures { IfOk result (λ reader. reader ≡ setup.now) }
    {
        let reader = ByteReader::new(alloc, 0)?;
        let _dimensions = (setup.rows(), setup.cols());
        Ok(BlockReader {
            head: Head {
                setup: *setup,
                version: VERSION,
                batches: 0,
                total: setup.limit(),
            },
            reader,
            tally: CellTally::new(alloc, 0),
        })
    }

    /// The batches of a block, of whose chunks these are the bytes. Takes time in proportion to them, and the memory of
    /// the batches.
    ///
    /// # Errors
    ///
    /// - `BadBlock`: the block isn't made of batches. It says that it has none, a cell lies outside of the dimensions
    /// or   out of order, the total of a batch passes the setup's limit, or it has not as many pages as its batches
    /// take, or   other bytes than 00 behind them. That a pair of client and number stands twice is no fault here.
    /// - `Memory`: a growth was refused.
    pub fn read(&mut self, alloc: Global, bytes: &[u8]) -> Result<Vec<Arc<Batch>>, LogKind>
        ensures setup { self.new ≡ self.old }
        ensures ok { IfOk result (λ list. (block : Block) → FillsPages block → joined block ≡ bytes.now →
            HoldsBatches self.old block (values list.items)) }
        ensures err { IfErr result (λ kind. (kind ≡ LogKind.Memory) ⊎ ((kind ≡ LogKind.BadBlock) ×
            ((block : Block) (list : List Submission) → FillsPages block → joined block ≡ bytes.now →
            HoldsBatches self.old block list → ⊥))) }
    {
        let found = take_list(alloc, &self.head, &mut self.reader, &mut self.tally, bytes);
        let (list, taken) = found?;
        if !is_filled(bytes, taken) {
            return Err(LogKind::BadBlock);
        }
        Ok(list)
    }
}
