//! Makes the blocks of a log of its pages, one page after another.
ghost use Rattle.std.specs.Prelude.{◌≡◌, ◌⊎◌, ℕ, ◌+◌, ◌<◌, ◌≤◌, ◌^◌, List, [], ◌∷◌, ◌++◌, OnOk, IfOk, IfErr};
ghost use Rattle.batch_store.specs.Batches.{Submission};
ghost use Rattle.log_page.specs.Pages.{IsBytes, chunk_field};
ghost use Rattle.log_blocks.specs.Blocks.{Page, FillsPages};
ghost use Rattle.log_blocks.specs.Blocks.{Block as Chunks};
ghost use Rattle.log_blocks.specs.Files.{joined};
ghost use Rattle.log_blocks.specs.Scanning.{IsBounded};
ghost use Rattle.log_blocks.specs.declared.fault.LogKind.{LogKind};
ghost use Rattle.log_batches.specs.Held.{HoldsBatches};
ghost use Rattle.log_read.specs.Logs.{HasFaultBehind};
ghost use Rattle.log_read.specs.Scans.{HasCome, HasRead, Keeps, Refuses};

use crate::file::Block;
use batch_store::Setup;
use log_batches::BlockReader;
use log_blocks::{BlockScan, LogFault, LogKind, Step};
use log_page::{CHUNK, PAGE};
use std::alloc::Global;

/// A log as far as its pages were taken: the blocks that were read, the scan of the pages, and the chunks of the next
/// block.
#[derive(Drop)]
pub struct LogScan {
    reader: BlockReader,
    scan: BlockScan,
    chunks: Vec<u8>,
    blocks: Vec<Block>,
}

// Keeps the chunk of a page.
fn keep_chunk(chunks: &mut Vec<u8>, page: &[u8; PAGE]) -> Result<(), LogKind>
    ensures ok { OnOk result (chunks.new.items ≡ chunks.old.items ++ chunk_field page.now) }
    ensures err { IfErr result (λ kind. kind ≡ LogKind.Memory) }
{
    match chunks.extend_from_slice(page.split_at(PAGE - CHUNK).1) {
        Ok(()) => Ok(()),
        Err(_) => Err(LogKind::Memory),
    }
}

// Appends a block.
fn push_block(blocks: &mut Vec<Block>, block: Block) -> Result<(), LogKind>
    ensures ok { OnOk result (blocks.new.items ≡ blocks.old.items ++ block ∷ []) }
    ensures err { IfErr result (λ kind. kind ≡ LogKind.Memory) }
{
    match blocks.push(block) {
        Ok(()) => Ok(()),
        Err(_) => Err(LogKind::Memory),
    }
}

// Reads the batches of a block that begins at this page, of whose chunks these are the bytes.
fn read_block(
    alloc: Global,
    reader: &mut BlockReader,
    bytes: &[u8],
    at: u64,
    blocks: &mut Vec<Block>,
) -> Result<(), LogKind>
    ensures setup { reader.new ≡ reader.old }
    ensures ok { OnOk result ((block : Chunks) → FillsPages block → joined block ≡ bytes.now →
        HasRead reader.old at block blocks.old.items blocks.new.items) }
    ensures err { IfErr result (λ kind. (kind ≡ LogKind.Memory) ⊎ ((kind ≡ LogKind.BadBlock) ×
        ((block : Chunks) (list : List Submission) → FillsPages block → joined block ≡ bytes.now →
        HoldsBatches reader.old block list → ⊥))) }
{
    let batches = reader.read(alloc, bytes)?;
    push_block(blocks, Block { page: at, batches })?;
    Ok(())
}

// Takes the last page of a block that begins at this page.
fn end_block(
    alloc: Global,
    reader: &mut BlockReader,
    chunks: &mut Vec<u8>,
    page: &[u8; PAGE],
    at: u64,
    blocks: &mut Vec<Block>,
) -> Result<(), LogKind>
    ensures setup { reader.new ≡ reader.old }
    ensures cleared { OnOk result (chunks.new.items ≡ []) }
    ensures ok { OnOk result ((made : Chunks) → joined made ≡ chunks.old.items →
        FillsPages (made ++ chunk_field page.now ∷ []) →
        HasRead reader.old at (made ++ chunk_field page.now ∷ []) blocks.old.items blocks.new.items) }
    ensures err { IfErr result (λ kind. (kind ≡ LogKind.Memory) ⊎ ((kind ≡ LogKind.BadBlock) ×
        ((made : Chunks) (list : List Submission) → joined made ≡ chunks.old.items →
        FillsPages (made ++ chunk_field page.now ∷ []) →
        HoldsBatches reader.old (made ++ chunk_field page.now ∷ []) list → ⊥))) }
{
    keep_chunk(chunks, page)?;
    read_block(alloc, reader, chunks, at, blocks)?;
    chunks.clear();
    Ok(())
}

// Does what a step asks: keeps the page's chunk, and reads the block of which it is the last. The block begins at page
// `at`.
fn keep(
    alloc: Global,
    reader: &mut BlockReader,
    chunks: &mut Vec<u8>,
    page: &[u8; PAGE],
    at: u64,
    blocks: &mut Vec<Block>,
    step: Step,
) -> Result<(), LogKind>
    ensures setup { reader.new ≡ reader.old }
    ensures ok { OnOk result (Keeps reader.old at page.now chunks.old.items chunks.new.items
        blocks.old.items blocks.new.items step) }
    ensures err { IfErr result (Refuses reader.old page.now chunks.old.items step) }
{
    match step {
        Step::Torn => Ok(()),
        Step::Part => keep_chunk(chunks, page),
        Step::Last => end_block(alloc, reader, chunks, page, at, blocks),
    }
}

impl LogScan {
    /// A scan that has taken nothing, of a log of this setup whose first batch has this place. It keeps 64 KiB in which
    /// bytes wait.
    ///
    /// # Errors
    ///
    /// `Memory`: a growth was refused.
    pub fn new(alloc: Global, setup: &Setup, first: u64) -> Result<LogScan, LogKind>
        requires { first ≤ 2 ^ 62 }
        ensures setup { IfOk result (λ log. log.reader ≡ setup.now) }
        ensures come { IfOk result (λ log. HasCome first log []) }
        ensures bounded { IfOk result (λ log. IsBounded log.scan) }
        ensures pages { IfOk result (λ log. log.scan.page + log.scan.made ≡ 1) }
        ensures err { IfErr result (λ kind. kind ≡ LogKind.Memory) }
    {
        match BlockReader::new(alloc, setup) {
            Err(_) => Err(LogKind::Memory),
            Ok(reader) => Ok(LogScan {
                reader,
                scan: BlockScan::new(first),
                chunks: Vec::new(alloc),
                blocks: Vec::new(alloc),
            }),
        }
    }

    /// The blocks, and how many of the pages behind them aren't empty.
    pub fn finish(self) -> (Vec<Block>, u64)
        ensures blocks { result.0.items ≡ self.blocks.items }
        ensures rest { result.1 ≡ self.scan.used }
    {
        let rest = self.scan.used();
        (self.blocks, rest)
    }

    /// Takes the next page of the file, with 00 behind the file's end. Takes time in proportion to the page, and the
    /// memory of its chunk, or of the batches of the block that it ends.
    ///
    /// # Errors
    ///
    /// The scan isn't to be used again.
    ///
    /// - `Damaged`, with its number: the page doesn't belong where it stands.
    /// - `BadBlock`, with the block's first page: it is the last page of a block that holds no batches.
    /// - `Memory`: a growth was refused. The page that is told says nothing.
    pub fn take(&mut self, alloc: Global, page: &[u8; PAGE]) -> Result<(), LogFault>
        requires bytes { IsBytes page.now }
        requires bounded { IsBounded self.old.scan }
        requires few { self.old.scan.page + self.old.scan.made < 2 ^ 40 }
        ensures setup { OnOk result (self.new.reader ≡ self.old.reader) }
        ensures bounded { OnOk result (IsBounded self.new.scan) }
        ensures pages { OnOk result (self.new.scan.page + self.new.scan.made ≡
            self.old.scan.page + self.old.scan.made + 1) }
        ensures ok { OnOk result ((first : ℕ) (pages : List Page) → HasCome first self.old pages →
            HasCome first self.new (pages ++ page.now ∷ [])) }
        ensures err { IfErr result (λ fault. (fault.kind ≡ LogKind.Memory) ⊎ ((first : ℕ) (pages rest : List Page) →
            HasCome first self.old pages →
            HasFaultBehind self.old.reader first (pages ++ page.now ∷ rest) fault)) }
    {
        let step = self.scan.take_page(page)?;
        let at = self.scan.last();
        match keep(
            alloc,
            &mut self.reader,
            &mut self.chunks,
            page,
            at,
            &mut self.blocks,
            step,
        ) {
            Ok(()) => Ok(()),
            Err(kind) => Err(LogFault { kind, page: at }),
        }
    }
}
