//! What a start finds under its snapshot's path, and the setup that it starts with.
ghost use Rattle.std.specs.Prelude.{◌≡◌, ◌↔◌, ◌⊎◌, ◌≤◌, [], Bool, IfOk, IfErr, IfSome, IsSomeAnd, OnOk, Some, None};
ghost use Rattle.std.specs.Prelude.{is_some, true};
ghost use Rattle.batch_store.specs.Accepted.{Accepted, unfolded};
ghost use Rattle.batch_store.specs.Books.{AreAccepted, accepted_in, listed_in};
ghost use Rattle.batch_store.specs.Growth.{IsGrowthMisfit, RefusesGrowth, with_dims};
ghost use Rattle.batch_store.specs.Setups.{Setting};
ghost use Rattle.snap_file.specs.Snapshots.{HasBase};
ghost use Rattle.socket_server.specs.Faults.{IsMet, TellsNoFile, TellsNoLog};
ghost use Rattle.socket_server.specs.Growth.{IsHeadMisfit, IsPlan};
ghost use Rattle.socket_server.specs.Starts.{IsFiles, IsFound, IsHeadTold, IsListOf, IsLoadTold, IsNotGiven, needs_file};
ghost use Rattle.batch_store.specs.declared.misfit.Misfit.{Misfit};
ghost use Rattle.batch_store.specs.declared.misfit.Number.{Number};

use crate::fault::ServerFault;
use crate::host::Host;
use crate::log_host::LogHost;
use crate::settings::{MAX_BYTES, Settings};
use crate::start::{log_fault, note};
use batch_store::{BookList, GivenNumbers, GrowthFault, Number, Pieces, Setup, with_dims};
use event_log::Event;
use hyper_matrix::Hyper;
use log_desk::Log;
use log_start::StartFault;
use snap_file::{FileFault, Origin, Snapshot};
use std::alloc::Global;
use std::sync::Wait;

/// What was loaded, and what the snapshot says of itself, if there is one.
#[derive(Drop)]
pub(crate) struct Loaded {
    pub list: BookList,
    pub origin: Option<Origin>,
}

/// The setup of a server, and what its files say.
#[derive(Clone, Copy)]
pub(crate) struct SetupPlan {
    /// What the files say; where none does, what is given.
    pub files: Setup,
    /// Of the files' rows and columns, else as the server's. By it the files are joined and judged.
    pub first: Setup,
    /// The server's.
    pub last: Setup,
}

/// The list of nothing.
pub(crate) fn empty_list(alloc: Global, setup: &Setup) -> Result<BookList, ServerFault>
    ensures list { IfOk result (λ list. list ≡ listed_in setup.now (unfolded [])) }
    ensures accepted { AreAccepted setup.now (unfolded []) }
    ensures memory { IfErr result (λ f. f ≡ ServerFault.Memory) }
{
    let base = Hyper::new(alloc, setup.rows(), setup.cols());
    let Ok(base) = Pieces::one(alloc, &base) else {
        return Err(ServerFault::Memory);
    };
    Ok(BookList {
        base,
        folded: Vec::new(alloc),
        batches: Vec::new(alloc),
    })
}

/// The snapshot at the path; none where there is no path, or no file and none must be there.
pub(crate) fn find_snapshot<R: Wait + Host>(
    rt: &R,
    alloc: Global,
    settings: &Settings,
) -> Result<Option<Snapshot>, ServerFault>
    ensures found { IfOk result (λ found. IsFound R.loads rt.now settings.now.snapshot
        (needs_file settings.now.must_load settings.now.log) found) }
    ensures met { IfErr result (λ f. IsMet (needs_file settings.now.must_load settings.now.log) f) }
    ensures told { IfErr result (λ f.
        IsLoadTold R.loads R.locks rt.now settings.now.snapshot settings.now.numbers f) }
    ensures no_log { IfErr result TellsNoLog }
{
    let Some(path) = &settings.snapshot else {
        return Ok(None);
    };
    note(rt, &settings.events, Event::Loading);
    match rt.load_snapshot(alloc, path.as_str(), MAX_BYTES) {
        Ok(snapshot) => Ok(Some(snapshot)),
        Err(FileFault::NotFound) if !settings.needs_file() => {
            note(rt, &settings.events, Event::NoSnapshot);
            Ok(None)
        }
        Err(FileFault::Memory) => Err(ServerFault::Memory),
        Err(fault) => Err(ServerFault::File(fault)),
    }
}

// The given setup, where no file says one.
fn given_setup(numbers: &GivenNumbers) -> Result<Setup, ServerFault>
    ensures ok { IfOk result (λ f. f ≡ numbers.now.setup) }
    ensures given { OnOk result ((numbers.now.rows ≡ true) × (numbers.now.cols ≡ true)) }
    ensures err { IfErr result (λ f. (number : Number) × (f ≡ ServerFault.NeedsNumber number)
        × IsNotGiven numbers.now number) }
{
    if !numbers.rows {
        return Err(ServerFault::NeedsNumber(Number::Rows));
    }
    if !numbers.cols {
        return Err(ServerFault::NeedsNumber(Number::Cols));
    }
    Ok(numbers.setup)
}

/// The setup that the files say: the snapshot's, or where there is none that of the log's head; and where there is no
/// log either, the given one.
pub(crate) fn files_setup<L: Log, R: LogHost<L>>(
    rt: &R,
    settings: &Settings,
    found: &Option<Snapshot>,
) -> Result<Setup, ServerFault>
    ensures files { IfOk result (λ f. IsFiles R.log_heads rt.now settings.now.log settings.now.numbers found.now f) }
    ensures met { IfErr result (λ f. (must_load : Bool) → IsMet must_load f) }
    ensures told { IfErr result (λ f. IsHeadTold R.log_heads rt.now settings.now.log settings.now.must_load
        settings.now.numbers f) }
    ensures no_file { IfErr result (λ f. TellsNoFile f
        ⊎ ((number : Number) × (f ≡ ServerFault.NeedsNumber number) × (found.now ≡ None))) }
{
    if let Some(snapshot) = found {
        return Ok(snapshot.setup);
    }
    let Some(path) = &settings.log else {
        return given_setup(&settings.numbers);
    };
    match rt.log_setup(path.as_str()) {
        Ok(Some(setup)) => Ok(setup),
        Ok(None) if settings.must_load => Err(ServerFault::Log(StartFault::NotFound)),
        Ok(None) => given_setup(&settings.numbers),
        Err(fault) => Err(log_fault(fault)),
    }
}

/// The setup that a server starts with whose files say this one.
pub(crate) fn plan_setup(
    settings: &Settings,
    found: &Option<Snapshot>,
    files: Setup,
) -> Result<SetupPlan, ServerFault>
    ensures plan { IfOk result (λ x. IsPlan settings.now.numbers x.files x.first x.last) }
    ensures files { IfOk result (λ x. x.files ≡ files) }
    ensures met { IfErr result (λ f. (must_load : Bool) → IsMet must_load f) }
    ensures err { IfErr result (λ f. (m : Misfit) × IsHeadMisfit settings.now.numbers files m
        × (((is_some found.now ≡ true) × (f ≡ ServerFault.SnapshotDiffers m))
        ⊎ ((found.now ≡ None) × (f ≡ ServerFault.LogDiffers m)))) }
{
    let last = settings.numbers.over(&files);
    match last.judge_dims(&files) {
        Ok(()) => Ok(SetupPlan {
            files,
            first: with_dims(&last, &files),
            last,
        }),
        Err(misfit) if found.is_some() => Err(ServerFault::SnapshotDiffers(misfit)),
        Err(misfit) => Err(ServerFault::LogDiffers(misfit)),
    }
}

// Why a snapshot's list isn't one that a setup accepts.
fn growth_fault(fault: GrowthFault) -> ServerFault
    ensures { (to from : Setting) (a : Accepted) → RefusesGrowth to from a fault → (result ≡ ServerFault.Memory)
        ⊎ ((m : Misfit) × (result ≡ ServerFault.SnapshotDiffers m) × IsGrowthMisfit from to a m) }
{
    match fault {
        GrowthFault::TooSmall(misfit) => ServerFault::SnapshotDiffers(misfit),
        GrowthFault::Memory => ServerFault::Memory,
    }
}

// What a snapshot has, judged by the first setup of a plan.
fn judged(alloc: Global, plan: &SetupPlan, snapshot: Snapshot) -> Result<Loaded, ServerFault>
    requires first { plan.now.first ≡ with_dims plan.now.last plan.now.files }
    requires files { snapshot.setup ≡ plan.now.files }
    ensures accepted { IfOk result (λ r. AreAccepted plan.now.first (accepted_in r.list)) }
    ensures based { IfOk result (λ r. HasBase plan.now.first r.list) }
    ensures list { IfOk result (λ r. r.list ≡ snapshot.list) }
    ensures origin { IfOk result (λ r. r.origin ≡ Some snapshot.origin) }
    ensures err { IfErr result (λ f. (f ≡ ServerFault.Memory) ⊎ ((m : Misfit) × (f ≡ ServerFault.SnapshotDiffers m)
        × IsGrowthMisfit snapshot.setup plan.now.first (accepted_in snapshot.list) m)) }
{
    let Snapshot {
        origin,
        setup,
        list,
    } = snapshot;
    match list.grown(alloc, &setup, &plan.first) {
        Ok(list) => Ok(Loaded {
            list,
            origin: Some(origin),
        }),
        Err(fault) => Err(growth_fault(fault)),
    }
}

/// What a snapshot has, where there is one, judged by the first setup of a plan; and else nothing.
pub(crate) fn load_found(
    alloc: Global,
    plan: &SetupPlan,
    found: Option<Snapshot>,
) -> Result<Loaded, ServerFault>
    requires first { plan.now.first ≡ with_dims plan.now.last plan.now.files }
    requires files { IfSome found (λ s. s.setup ≡ plan.now.files) }
    ensures accepted { IfOk result (λ r. AreAccepted plan.now.first (accepted_in r.list)) }
    ensures based { IfOk result (λ r. HasBase plan.now.first r.list) }
    ensures list { IfOk result (λ r. IsListOf found r.origin r.list) }
    ensures folded { found ≡ None → IfOk result (λ r. r.list.folded ≡ []) }
    ensures err { IfErr result (λ f. (f ≡ ServerFault.Memory) ⊎ ((m : Misfit) × (f ≡ ServerFault.SnapshotDiffers m)
        × IsSomeAnd found (λ s. IsGrowthMisfit s.setup plan.now.first (accepted_in s.list) m))) }
{
    match found {
        Some(snapshot) => judged(alloc, plan, snapshot),
        None => match empty_list(alloc, &plan.first) {
            Ok(list) => Ok(Loaded { list, origin: None }),
            Err(fault) => Err(fault),
        },
    }
}
