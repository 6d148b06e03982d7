//! The numbers of a setup that a command is given.
ghost use Rattle.std.specs.Prelude.{◌≡◌, if◌then◌else◌};
ghost use Rattle.batch_store.specs.Growth.{given_over, with_dims};

use crate::setup::Setup;

/// The numbers of a setup that a command is given. Each that isn't given is that of the files: of the snapshot, or where
/// there is none of the log's head. Where no file says one it is the default; of rows and columns there is none.
#[derive(Clone, Copy)]
pub struct GivenNumbers {
    /// The given numbers, and the defaults of the others.
    pub setup: Setup,
    /// Whether the number of rows is given, and so on.
    pub rows: bool,
    pub cols: bool,
    pub cuts: bool,
    pub shards: bool,
    pub limit: bool,
    pub max_batches: bool,
}

// A number that is given, or else that of the files.
fn chosen(is_given: bool, given: u64, file: u64) -> u64
    ensures { result ≡ (if is_given then given else file) }
{
    if is_given { given } else { file }
}

// So of cuts.
fn chosen_cuts<'a>(is_given: bool, given: &'a [u64], file: &'a [u64]) -> &'a [u64]
    ensures { result.now ≡ (if is_given then given.now else file.now) }
{
    if is_given { given } else { file }
}

/// A setup, with the rows and columns of another.
pub fn with_dims(setup: &Setup, dims: &Setup) -> Setup
    ensures { result ≡ with_dims setup.now dims.now }
{
    let cuts = setup.cuts();
    match Setup::new(
        dims.rows(),
        dims.cols(),
        cuts,
        setup.shards(),
        setup.limit(),
        setup.max_batches(),
    ) {
        Ok(setup) => setup,
        Err(_) => unreachable!(),
    }
}

impl GivenNumbers {
    /// All numbers of a setup.
    pub fn all(setup: Setup) -> GivenNumbers
        ensures { result.setup ≡ setup }
    {
        GivenNumbers {
            setup,
            rows: true,
            cols: true,
            cuts: true,
            shards: true,
            limit: true,
            max_batches: true,
        }
    }

    /// The setup where the files say this one.
    pub fn over(&self, files: &Setup) -> Setup
        ensures { result ≡ given_over self.now files.now }
    {
        let given = &self.setup;
        let rows = chosen(self.rows, given.rows(), files.rows());
        let cols = chosen(self.cols, given.cols(), files.cols());
        let cuts = chosen_cuts(self.cuts, given.cuts(), files.cuts());
        let shards = chosen(self.shards, given.shards(), files.shards());
        let limit = chosen(self.limit, given.limit(), files.limit());
        let most = chosen(self.max_batches, given.max_batches(), files.max_batches());
        match Setup::new(rows, cols, cuts, shards, limit, most) {
            Ok(setup) => setup,
            Err(_) => unreachable!(),
        }
    }
}
