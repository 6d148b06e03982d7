//! A batch: a matrix that a client sends under a number of its own.
ghost use Rattle.std.specs.Prelude.{◌≡◌, ◌≢◌, ℕ, ◌<◌, ◌≤◌, ◌^◌, Err, IfOk, IfErr, OnOk};
ghost use Rattle.std.specs.Arc.{arc_value};
ghost use Rattle.hyper_matrix.specs.Counts.{total as total_of};
ghost use Rattle.hyper_matrix.specs.Cells.{built_of, cell_total};
ghost use Rattle.hyper_matrix.specs.Matrix.{matrix};
ghost use Rattle.batch_store.specs.Batches.{submission, batch_total, entry_of};
ghost use Rattle.batch_store.specs.Parts.{concerns};
ghost use Rattle.batch_store.specs.Files.{Fits, RefusesCells, RefusesFile};
ghost use Rattle.batch_store.specs.Lists.{MakesBatch, RefusesList};
ghost use Rattle.batch_store.specs.declared.fault.CellsFault.{CellsFault};

use crate::fault::{BatchFault, CellsFault};
use crate::given::given_list_matrix;
use crate::listed::list_matrix;
use crate::part::has_part;
use crate::setup::Setup;
use crate::verdict::Entry;
use cells::Cell;
use hyper_matrix::{BuildFault, Hyper};
use mm_text::MmFile;
use std::alloc::Global;
use std::marker::Model;
use std::sync::Arc;

/// A matrix of a client, under a number that the client chose, with its total.
///
/// Contracts see the client, the number and the matrix. The total is always the matrix's.
#[derive(Drop)]
pub struct Batch {
    /// Who sent it.
    pub client: u64,
    /// The client's number of it.
    pub number: u64,
    /// Its cells, each place once with the sum of its counts.
    pub matrix: Hyper,
    /// The sum of all its counts.
    pub total: u64,
}

impl Model for Batch {
    ghost use Rattle.std.specs.Prelude.{◌≡◌};
    ghost use Rattle.hyper_matrix.specs.Counts.{total as total_of};
    ghost use Rattle.batch_store.specs.Batches.{Submission, submission, coded_submission};

    ghost Value = { Submission };

    ghost coded = { coded_submission };

    ghost view = { λ a. submission a.client a.number a.matrix };

    ghost invariant = { λ a. a.total ≡ total_of a.matrix.counts };
}

// The matrix of a file's cells in the setup's dimensions: they lie within the file's, which are no larger.
fn file_matrix(alloc: Global, setup: &Setup, file: &MmFile) -> Result<Hyper, BatchFault>
    requires { Fits setup.now file.now }
    ensures ok { IfOk result (λ m. m ≡ matrix setup.now.rows setup.now.cols (built_of file.now.cells.items)) }
    ensures err { IfErr result (RefusesCells file.now.cells.items) }
{
    match Hyper::build(alloc, setup.rows(), setup.cols(), &file.cells) {
        Ok(m) => Ok(m),
        Err(BuildFault::Memory) => Err(BatchFault::Memory),
        Err(BuildFault::IndexOutOfRange) => unreachable!(),
        Err(BuildFault::SumTooLarge) => Err(BatchFault::SumTooLarge),
    }
}

impl Batch {
    /// The batch of a file's cells, ready to be shared: its matrix has the setup's dimensions, also where the file's
    /// are smaller. It is built from the cells once, and nothing else of the file is kept. Takes the time of
    /// `Hyper::build`.
    ///
    /// # Errors
    ///
    /// - `DimensionsTooLarge`: the file has more rows or more columns than the setup. This is judged first.
    /// - `SumTooLarge`: the counts together pass 2^64 - 1. This is judged before any growth.
    /// - `Memory`: a growth was refused.
    pub fn make(
        alloc: Global,
        setup: &Setup,
        client: u64,
        number: u64,
        file: &MmFile,
    ) -> Result<Arc<Batch>, BatchFault>
        ensures ok { IfOk result (λ b. arc_value b ≡
            submission client number (matrix setup.now.rows setup.now.cols (built_of file.now.cells.items))) }
        ensures fits { OnOk result (Fits setup.now file.now × (cell_total file.now.cells.items < 2 ^ 64)) }
        ensures err { IfErr result (RefusesFile setup.now file.now) }
    {
        if file.rows > setup.rows() || file.cols > setup.cols() {
            return Err(BatchFault::DimensionsTooLarge);
        }
        let matrix = file_matrix(alloc, setup, file)?;
        let total = matrix.total();
        let batch = Batch {
            client,
            number,
            matrix,
            total,
        };
        match Arc::new(alloc, batch) {
            Ok(b) => Ok(b),
            Err(_) => Err(BatchFault::Memory),
        }
    }

    /// The batch of a list of cells, of which at most 1,048,576, ready to be shared. Rows and columns count from 0, and
    /// a place may stand more than once: its counts are added up.
    ///
    /// The list is judged in its order and before any growth: first its length, and then at each cell its place and the
    /// running total. Takes the time and memory of `Hyper::build`: a list in strict order isn't sorted.
    ///
    /// # Errors
    ///
    /// `TooManyCells`, `IndexOutOfRange` with the cell's place in the list, and `SumTooLarge` stand exactly where that
    /// is the first fault of the list. `Memory`: the list has none, and a growth was refused.
    pub fn from_cells(
        alloc: Global,
        setup: &Setup,
        client: u64,
        number: u64,
        cells: &[Cell],
    ) -> Result<Arc<Batch>, CellsFault>
        ensures ok { IfOk result (λ b. arc_value b ≡
            submission client number (matrix setup.now.rows setup.now.cols (built_of cells.now))) }
        ensures fits { OnOk result (MakesBatch setup.now cells.now) }
        ensures err { IfErr result (λ fault. RefusesList setup.now cells.now fault) }
        ensures exact { (fault : CellsFault) → fault ≢ CellsFault.Memory → RefusesList setup.now cells.now fault →
            result ≡ Err fault }
    {
        let matrix = match list_matrix(alloc, setup, cells) {
            Ok(matrix) => matrix,
            Err(fault) => return Err(fault),
        };
        let total = matrix.total();
        let batch = Batch {
            client,
            number,
            matrix,
            total,
        };
        match Arc::new(alloc, batch) {
            Ok(b) => Ok(b),
            Err(_) => Err(CellsFault::Memory),
        }
    }

    /// The same of a list that is given away: it is sorted and added up in its own memory, so that beside the batch no
    /// memory is taken. The list is gone, also where it is refused.
    ///
    /// # Errors
    ///
    /// Those of `from_cells`.
    pub fn from_cell_list(
        alloc: Global,
        setup: &Setup,
        client: u64,
        number: u64,
        cells: Vec<Cell>,
    ) -> Result<Arc<Batch>, CellsFault>
        ensures ok { IfOk result (λ b. arc_value b ≡
            submission client number (matrix setup.now.rows setup.now.cols (built_of cells.items))) }
        ensures fits { OnOk result (MakesBatch setup.now cells.items) }
        ensures err { IfErr result (λ fault. RefusesList setup.now cells.items fault) }
        ensures exact { (fault : CellsFault) → fault ≢ CellsFault.Memory → RefusesList setup.now cells.items fault →
            result ≡ Err fault }
    {
        let matrix = match given_list_matrix(alloc, setup, cells) {
            Ok(matrix) => matrix,
            Err(fault) => return Err(fault),
        };
        let total = matrix.total();
        let batch = Batch {
            client,
            number,
            matrix,
            total,
        };
        match Arc::new(alloc, batch) {
            Ok(b) => Ok(b),
            Err(_) => Err(CellsFault::Memory),
        }
    }

    /// What a verdict reads of the batch: whose it is, and its size. Constant time.
    pub fn entry(&self) -> Entry
        ensures { result ≡ entry_of self.now }
    {
        Entry {
            client: self.client,
            number: self.number,
            cells: self.matrix.entries(),
            total: self.total,
        }
    }

    /// Whether a cell of the batch, a stored zero too, lies in shard `s` of `k`: whether its row, counted from 0,
    /// leaves `s` when divided by `k`. Reads the cells up to the first that does, and takes no memory.
    pub fn concerns(&self, s: u64, k: u64) -> bool
        requires { 0 < k }
        ensures { result ≡ concerns s k self.now.matrix.counts }
    {
        has_part(&self.matrix, s, k)
    }
}
