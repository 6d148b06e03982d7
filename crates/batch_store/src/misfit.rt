//! A number of a setup that is too small for what was accepted.

use std::fmt;

/// A number of a setup.
#[derive(Clone, Copy, Debug, PartialEq, Eq)]
pub enum Number {
    Rows,
    Cols,
    Limit,
    MaxBatches,
}

impl fmt::Display for Number {
    fn fmt<W: fmt::Write>(&self, f: &mut fmt::Formatter<W>) -> fmt::Result {
        f.write_str(match self {
            Number::Rows => "rows",
            Number::Cols => "cols",
            Number::Limit => "limit",
            Number::MaxBatches => "max-batches",
        })
    }
}

/// A number of a setup that is too small: for the rows or columns of the matrices, for the total of what was accepted,
/// or for the number of batches.
#[derive(Clone, Copy, Debug, PartialEq, Eq)]
pub struct Misfit {
    pub number: Number,
    /// What the matrices or the batches have.
    pub has: u64,
    /// What the setup says.
    pub given: u64,
}

impl fmt::Display for Misfit {
    fn fmt<W: fmt::Write>(&self, f: &mut fmt::Formatter<W>) -> fmt::Result {
        let Misfit { number, has, given } = *self;
        write!(f, "{number}: the file has {has}, {given} was given")
    }
}
