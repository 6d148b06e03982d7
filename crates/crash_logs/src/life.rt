//! One life of a log.
ghost use Rattle.std.specs.Prelude.{◌≡◌};
ghost use Rattle.batch_store.specs.Books.{AreAccepted, accepted_in};

use crate::bounds::Bounds;
use crate::devices::{CrashDisk, CrashFolder};
use crate::plan::Plan;
use crate::stop::Stop;
use crate::world::World;
use batch_store::{Batch, BookList};
use log_blocks::LogKind;
use log_desk::Log;
use log_folder::LogFolder;
use log_start::{LogOwner, StartFault, Started, start_log};
use snap_file::{Identity, NO_WINDOW};
use std::cell::RefCell;
use std::random::RandomSource;
use std::sync::Arc;
use stored_log::{StoredFault, StoredLog, abandon_stored, begin_stored, name_stored};

/// A log in use.
#[derive(Drop)]
pub struct Life<'a> {
    plan: &'a Plan,
    world: &'a RefCell<World>,
    folder: CrashFolder<'a>,
    log: StoredLog<CrashDisk<'a>>,
    pub bounds: Bounds,
}

/// The book of the logs.
const BOOK: Identity = Identity {
    book_high: 0x0011_2233_4455_6677,
    book_low: 0x8899_aabb_ccdd_eeff,
    window: NO_WINDOW,
};

/// Its snapshot, beside which a log needn't be there.
const OWNER: LogOwner = LogOwner {
    known: BOOK,
    drawn: BOOK,
    must_be_there: false,
};

/// What becomes of a group.
#[derive(Clone, Copy, PartialEq, Eq)]
enum Put {
    /// Nothing was written.
    Refused,
    /// A write or a sync has failed.
    Failed,
    Acknowledged,
}

/// Whether a call that fails may lead to this refusal of a start.
fn is_of_a_call(fault: StartFault) -> bool {
    match fault {
        StartFault::Create | StartFault::Write | StartFault::Sync | StartFault::Rename => true,
        StartFault::Log(log) => log.kind == LogKind::Read,
        _ => false,
    }
}

fn is_met(world: &RefCell<World>) -> bool {
    match world.try_borrow() {
        Ok(world) => world.is_met(),
        Err(_) => false,
    }
}

fn is_over(world: &RefCell<World>) -> bool {
    match world.try_borrow() {
        Ok(world) => world.is_over(),
        Err(_) => false,
    }
}

fn saved(world: &RefCell<World>) -> usize {
    match world.try_borrow() {
        Ok(world) => world.saved(),
        Err(_) => 0,
    }
}

/// Puts a snapshot of so many batches in the place of the last, and tells whether that is durable.
fn save_snapshot(world: &RefCell<World>, count: usize) -> bool {
    match world.try_borrow_mut() {
        Ok(mut world) => world.rename_snapshot(count).is_ok() && world.sync_snapshot().is_ok(),
        Err(_) => false,
    }
}

/// Makes room for a group, and appends it.
fn put_group(log: &mut StoredLog<CrashDisk<'_>>, batches: &[Arc<Batch>]) -> Put {
    let pages = StoredLog::<CrashDisk<'_>>::pages_of(batches);
    if log.is_failed() || log.make_room(pages).is_err() {
        return Put::Refused;
    }
    match log.append(batches) {
        Ok(()) => Put::Acknowledged,
        Err(_) => Put::Failed,
    }
}

/// Starts the log of a folder behind a snapshot of so many batches: None where a call of it has failed.
fn start_stored<'a>(
    rt: &impl RandomSource,
    plan: &Plan,
    world: &RefCell<World>,
    folder: &mut CrashFolder<'a>,
) -> Result<Option<(StoredLog<CrashDisk<'a>>, BookList)>, Stop>
    requires { folder.old.failures ≡ 0 }
{
    let known = plan.list_of(rt, saved(world))?;
    let Started {
        log,
        list,
        identity: _,
        setup: _,
    } = match start_log(folder, plan.alloc, &plan.setup, &OWNER, known) {
        Ok(started) => started,
        Err(fault) if is_of_a_call(fault) && is_met(world) => return Ok(None),
        Err(fault) => return Err(Stop::Refused(fault)),
    };
    match StoredLog::of_start(plan.alloc, log, &list) {
        Ok(log) => Ok(Some((log, list))),
        Err(_) => Err(Stop::Memory),
    }
}

/// Begins the log anew behind a list, and brings these batches over.
fn rotate<'a>(
    plan: &Plan,
    folder: &mut CrashFolder<'a>,
    log: &mut StoredLog<CrashDisk<'a>>,
    list: &BookList,
    rest: &[Arc<Batch>],
) -> Result<(), Stop>
    requires accepted { AreAccepted plan.now.setup (accepted_in list.now) }
{
    if folder.failures() > 1000 {
        return Ok(());
    }
    let mut new = match begin_stored(folder, plan.alloc, &plan.setup, OWNER.known, list) {
        Ok(new) => new,
        Err(StoredFault::Memory) => return Err(Stop::Memory),
        Err(StoredFault::File(_)) => return Ok(()),
    };
    let is_whole = rest.is_empty() || put_group(&mut new, rest) == Put::Acknowledged;
    if !is_whole || new.is_failed() || folder.failures() > 1000 {
        abandon_stored(folder, new);
        return Ok(());
    }
    let _ = name_stored(folder, log, new);
    Ok(())
}

impl<'a> Life<'a> {
    /// Starts the log of a world, which must have batches within these bounds. None where a call of it has failed.
    pub fn start(
        rt: &impl RandomSource,
        plan: &'a Plan,
        world: &'a RefCell<World>,
        bounds: Bounds,
    ) -> Result<Option<Life<'a>>, Stop> {
        let mut folder = CrashFolder::new(world);
        let Some((log, list)) = start_stored(rt, plan, world, &mut folder)? else {
            return Ok(None);
        };
        let found = plan.count_of(&list)?;
        if !bounds.allow(found) {
            let Bounds { least, most } = bounds;
            return Err(Stop::Lost { found, least, most });
        }
        Ok(Some(Life {
            plan,
            world,
            folder,
            log,
            bounds: Bounds::just(found),
        }))
    }

    /// Puts the batches up to a place, as one group.
    fn put(&mut self, to: usize) {
        let batches = self.plan.part(self.bounds.least, to);
        if batches.is_empty() {
            return;
        }
        match put_group(&mut self.log, batches) {
            Put::Refused => {}
            Put::Failed => self.bounds.most = to,
            Put::Acknowledged => self.bounds = Bounds::just(to),
        }
    }

    /// Puts batches until those up to a place are acknowledged, or the program has ended. From a log that has failed a
    /// save of all that was put is the way out.
    fn reach(&mut self, rt: &impl RandomSource, to: usize) -> Result<(), Stop> {
        for _ in 0..3 {
            if self.log.is_failed() {
                self.save(rt, self.bounds.most)?;
            }
            self.put(to);
        }
        if is_over(self.world) || self.bounds.least >= to {
            Ok(())
        } else {
            Err(Stop::NotTaken)
        }
    }

    /// Saves a snapshot of so many batches, and begins the log anew behind it.
    fn save(&mut self, rt: &impl RandomSource, count: usize) -> Result<(), Stop> {
        if !save_snapshot(self.world, count) {
            return Ok(());
        }
        self.bounds.least = self.bounds.least.max(count);
        let list = self.plan.list_of(rt, count)?;
        let rest = self.plan.part(count, self.bounds.least);
        rotate(self.plan, &mut self.folder, &mut self.log, &list, rest)
    }

    /// Puts four batches more, the second and the third as one group, and saves all but the third before the fourth.
    pub fn live(&mut self, rt: &impl RandomSource) -> Result<(), Stop> {
        let first = self.bounds.least;
        if first > self.plan.batches.len() || self.plan.batches.len() - first < 4 {
            return Ok(());
        }
        self.reach(rt, first + 1)?;
        self.reach(rt, first + 3)?;
        if !is_over(self.world) {
            self.save(rt, first + 2)?;
        }
        self.reach(rt, first + 4)
    }
}
