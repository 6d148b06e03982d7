//! The sum of what shards hold, as a view of each: it is never built, but gone through cell by cell.
ghost use Rattle.std.specs.Prelude.{◌≡◌, IfOk, IfSome};
ghost use Rattle.std.specs.FinMap.{entries};
ghost use Rattle.cell_queries.specs.Tallies.{tallies};
ghost use Rattle.cell_queries.specs.Tops.{IsTop};
ghost use Rattle.cells.specs.Bounds.{IsDimension};
ghost use Rattle.hyper_matrix.specs.Matrix.{matrix};
ghost use Rattle.merged_cells.specs.Within.{LieWithin};
ghost use Rattle.plain_engine.specs.Views.{Show, HaveSize, sights_content};

use batch_store::{Setup, Shard, ShardView};
use cell_queries::{Leaders, RowTally, TopBy, top_of};
use cells::Cell;
use hyper_matrix::Hyper;
use merged_cells::{MergedCells, Sources};
use std::alloc::{AllocError, Global};
use std::marker::Model;

/// A view of each of these shards, in order.
pub fn views_of(shards: &[Shard], alloc: Global) -> Result<Vec<ShardView>, AllocError>
    ensures { IfOk result (λ views. Show views.items shards.now) }
{
    let mut views = Vec::with_capacity(alloc, shards.len())?;
    'shards: for shard in shards {
        views.push(shard.view(alloc)?)?;
    }
    Ok(views)
}

/// The sum of what views of shards show, in the setup's dimensions.
///
/// It keeps the matrices that the views share from being freed, and has no cell of its own. Contracts see it as the
/// matrix that the sum is.
#[derive(Drop)]
pub struct ViewedSum {
    setup: Setup,
    views: Vec<ShardView>,
}

impl Model for ViewedSum {
    ghost use Rattle.hyper_matrix.specs.Matrix.{Matrix, matrix, coded_matrix};
    ghost use Rattle.plain_engine.specs.Views.{HaveSize, sights_content};

    ghost Value = { Matrix };

    ghost coded = { coded_matrix };

    ghost view = { λ a. matrix a.setup.rows a.setup.cols (sights_content a.views.items) };

    ghost invariant = { λ a. HaveSize a.setup.rows a.setup.cols a.views.items };
}

impl ViewedSum {
    /// The sum of what these views show. Constant time, and no memory.
    pub fn new(setup: Setup, views: Vec<ShardView>) -> ViewedSum
        requires { HaveSize setup.rows setup.cols views.items }
        ensures { result ≡ matrix setup.rows setup.cols (sights_content views.items) }
    {
        ViewedSum { setup, views }
    }

    /// The numbers of rows and of columns.
    pub fn dims(&self) -> (u64, u64)
        ensures value { result ≡ (self.now.rows, self.now.cols) }
        ensures rows { IsDimension self.now.rows }
        ensures cols { IsDimension self.now.cols }
    {
        (self.setup.rows(), self.setup.cols())
    }

    /// The way through the cells, by row and then by column, each within the dimensions. It borrows the views, and
    /// takes all its memory now: some 100 bytes for each of their matrices.
    ///
    /// # Errors
    ///
    /// A growth was refused, or the views' totals together pass 2^64 - 1.
    pub fn cells(&self, alloc: Global) -> Result<MergedCells<'_>, AllocError>
        ensures sum { IfOk result (λ cells. cells ≡ self.now.counts) }
        ensures within { IfOk result (λ cells. LieWithin self.now.rows self.now.cols cells) }
    {
        let mut sources = Sources::new(alloc);
        'views: for view in &self.views {
            view.add_to(&mut sources)?;
        }
        Ok(sources.merged())
    }

    // The first `most` rows by this number, as `top`, where each view has the rows of the shard at its place alone.
    fn top_of_shards(
        &self,
        alloc: Global,
        by: TopBy,
        most: usize,
    ) -> Result<Option<Vec<RowTally>>, AllocError>
        ensures { IfOk result (λ found. IfSome found (λ rows.
            IsTop by most (tallies (entries self.now.counts)) rows.items)) }
    {
        let k = self.views.len() as u64;
        let mut leaders = Leaders::new(alloc, by, most);
        'views: for (s, view) in self.views.iter().enumerate() {
            let mut sources = Sources::new(alloc);
            view.add_to(&mut sources)?;
            let mut cells = sources.merged();
            if !leaders.offer_shard(&mut cells, s as u64, k)? {
                return Ok(None);
            }
        }
        Ok(Some(leaders.into_rows(alloc)?))
    }

    /// The first `most` rows that have an entry, or all, by this number: the highest first, and equal ones by row.
    ///
    /// A row lies in one shard, so the rows of one shard after the other are gone through: rows of several shards lie
    /// between one another, and a merge of all would go from shard to shard at nearly each row. Views of other rows
    /// are merged. It takes memory for the rows, and for some 100 bytes for each matrix of one view.
    ///
    /// # Errors
    ///
    /// A growth was refused, or the views' totals together pass 2^64 - 1.
    pub fn top(&self, alloc: Global, by: TopBy, most: usize) -> Result<Vec<RowTally>, AllocError>
        ensures { IfOk result (λ rows. IsTop by most (tallies (entries self.now.counts)) rows.items) }
    {
        if let Some(rows) = self.top_of_shards(alloc, by, most)? {
            return Ok(rows);
        }
        let mut cells = self.cells(alloc)?;
        top_of(alloc, &mut cells, by, most)
    }

    /// The matrix itself: a list of its cells is made on the way, of 24 bytes each.
    ///
    /// # Errors
    ///
    /// A growth was refused, or the views' totals together pass 2^64 - 1.
    pub fn build(&self, alloc: Global) -> Result<Hyper, AllocError>
        ensures { IfOk result (λ m. m ≡ self.now) }
    {
        let mut list = Vec::new(alloc);
        'cells: for cell in self.cells(alloc)? {
            list.push(cell)?;
        }
        match Hyper::build(alloc, self.setup.rows(), self.setup.cols(), &list) {
            Ok(sum) => Ok(sum),
            Err(_) => Err(AllocError),
        }
    }
}
