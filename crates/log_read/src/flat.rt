//! The batches of all blocks in one list.
ghost use Rattle.std.specs.Prelude.{◌≡◌, ◌++◌, OnOk, IfOk};
ghost use Rattle.batch_store.specs.Batches.{values};
ghost use Rattle.log_read.specs.Logs.{batches_in};

use crate::file::Block;
use batch_store::Batch;
use std::alloc::{AllocError, Global};
use std::sync::Arc;

// Appends batches to a list, which shares them.
fn append_shared(list: &mut Vec<Arc<Batch>>, batches: &[Arc<Batch>]) -> Result<(), AllocError>
    ensures { OnOk result (values list.new.items ≡ values list.old.items ++ values batches.now) }
{
    list.reserve(batches.len())?;
    'batches: for batch in batches {
        let shared = Arc::try_clone(batch)?;
        list.push(shared)?;
    }
    Ok(())
}

/// The batches of all blocks, one block behind another. The list shares them, and takes a place for each.
pub fn all_batches(alloc: Global, blocks: &[Block]) -> Result<Vec<Arc<Batch>>, AllocError>
    ensures { IfOk result (λ list. values list.items ≡ batches_in blocks.now) }
{
    let mut list = Vec::new(alloc);
    'all: for block in blocks {
        append_shared(&mut list, &block.batches)?;
    }
    Ok(list)
}
