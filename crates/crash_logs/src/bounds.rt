//! How many batches a log must have, and may have.

/// The batches that are acknowledged, which must be there, and those that were put, which may be.
#[derive(Clone, Copy, Debug, PartialEq, Eq)]
pub struct Bounds {
    pub least: usize,
    pub most: usize,
}

impl Bounds {
    /// So many, and no others.
    pub fn just(count: usize) -> Bounds {
        Bounds {
            least: count,
            most: count,
        }
    }

    pub fn allow(&self, count: usize) -> bool {
        self.least <= count && count <= self.most
    }
}
