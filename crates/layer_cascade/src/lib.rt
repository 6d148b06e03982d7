//! Hierarchical hypersparse matrices: layers of matrices with cuts.
//!
//! A sum of many small matrices is dear when each is added into one large matrix, which is then written anew each time.
//! Here a matrix is added into the first of up to eight layers; a layer that then has more entries than its cut is
//! added into the next and cleared. So most additions touch small layers alone, and what was added is the sum of all
//! layers at any time (Kepner, Davis and others, 2020, "75,000,000,000 Streaming Inserts/Second Using Hierarchical
//! Hypersparse GraphBLAS Matrices").
//!
//! An addition has two steps: `Layers::plan` makes all growth and changes nothing, and `Layers::commit` puts the
//! planned layers in place and cannot fail. `Layers::view` shows a reader the layers of one moment.
//!
//! `Layers::hand_down` puts all layers below the last one, where no addition and no compaction reaches them, and
//! `Layers::replace_below` puts their sum in place of them.
//!
//! Where cells are only added, and the sum is asked for once, lists of them can wait to be added up by
//! `cells::into_summed`, and `Layers::push_cells` lists what the layers hold, for `layer_compaction::merged`.
#![tactic(auto)]

mod addition;
mod below;
mod compaction;
mod cuts;
mod fault;
mod laws;
mod layers;
mod limits;
mod row_entries;
mod view;
mod view_reads;

pub use cuts::are_cuts;
pub use fault::CascadeFault;
pub use laws::{cascades_add, cascades_add_all, cascades_end_once, cascades_keep_cuts};
pub use layer_compaction::Compaction;
pub use layers::{Layers, Plan};
pub use limits::{MAX_CUT, MAX_CUTS};
pub use view::LayerView;
