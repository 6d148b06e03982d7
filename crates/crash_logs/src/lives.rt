//! All lives: each call of a first one and of a second one goes wrong in turn.

use crate::bounds::Bounds;
use crate::fault::{DEVICES, Fault};
use crate::life::Life;
use crate::plan::Plan;
use crate::stop::Stop;
use crate::world::World;
use log_disk::Picks;
use std::alloc::AllocError;
use std::cell::RefCell;
use std::random::RandomSource;

/// How many pages the log of a first life has at most.
const PAGES: usize = 8;

/// What stands behind a life, and how many batches its log may have.
#[derive(Drop)]
struct Lived {
    world: World,
    bounds: Bounds,
}

/// Starts the log of a world, and lives on it.
fn live(rt: &impl RandomSource, plan: &Plan, world: World, bounds: Bounds) -> Result<Lived, Stop> {
    let world = RefCell::new(world);
    let bounds = match Life::start(rt, plan, &world, bounds)? {
        Some(mut life) => {
            life.live(rt)?;
            life.bounds
        }
        None => bounds,
    };
    Ok(Lived {
        world: world.into_inner(),
        bounds,
    })
}

/// Starts the log that a loss of power has left.
fn judge(rt: &impl RandomSource, plan: &Plan, left: World, bounds: Bounds) -> Result<(), Stop> {
    let world = RefCell::new(left);
    match Life::start(rt, plan, &world, bounds)? {
        Some(_) => Ok(()),
        None => Err(Stop::NotTaken),
    }
}

/// Loses power so many times behind a life.
fn crashes(
    rt: &impl RandomSource,
    plan: &Plan,
    world: &World,
    bounds: Bounds,
    tries: u64,
) -> Result<(), Stop> {
    let mut picks = Picks::new(tries);
    for _ in 0..tries {
        let left = world.crash(&mut picks, Fault::None)?;
        judge(rt, plan, left, bounds)?;
    }
    Ok(())
}

/// Loses power at each byte of what isn't durable.
fn cuts(rt: &impl RandomSource, plan: &Plan, world: &World, bounds: Bounds) -> Result<(), Stop> {
    for at in 0..world.written() {
        if world.is_pending(at) {
            judge(rt, plan, world.cut_at(at + 1)?, bounds)?;
        }
    }
    Ok(())
}

/// A second life on what a first one left, and losses of power behind it. Whether it went wrong.
fn second_life(
    rt: &impl RandomSource,
    plan: &Plan,
    left: World,
    bounds: Bounds,
    tries: u64,
) -> Result<bool, Stop> {
    let Lived { world, bounds } = live(rt, plan, left, bounds)?;
    crashes(rt, plan, &world, bounds, tries)?;
    Ok(world.is_met())
}

/// What a second life finds.
#[derive(Clone, Copy)]
enum Left {
    /// What a kill leaves.
    Killed,
    /// What a loss of power leaves that has brought what was written from this page on.
    Torn(usize),
}

/// What was left, for a life that goes wrong so.
fn left_of(world: &World, left: Left, fault: Fault) -> Result<World, AllocError> {
    match left {
        Left::Killed => world.kill(fault),
        Left::Torn(page) => world.torn_at(page, fault),
    }
}

/// Second lives on what was left, each of which goes wrong at another call.
fn second_lives(
    rt: &impl RandomSource,
    plan: &Plan,
    world: &World,
    left: Left,
    bounds: Bounds,
    tries: u64,
) -> Result<(), Stop> {
    let mut done = None;
    for n in 0..Fault::all() {
        let fault = Fault::number(n);
        if fault.device() != done {
            let found = left_of(world, left, fault)?;
            if !second_life(rt, plan, found, bounds, tries)? {
                done = fault.device();
            }
        }
    }
    Ok(())
}

/// Second lives on blocks of which the last pages alone are there.
fn torn_lives(
    rt: &impl RandomSource,
    plan: &Plan,
    world: &World,
    bounds: Bounds,
    tries: u64,
) -> Result<(), Stop> {
    for page in 1..PAGES {
        if world.is_torn_at(page) {
            second_lives(rt, plan, world, Left::Torn(page), bounds, tries)?;
        }
    }
    Ok(())
}

/// Loses power so many times behind a first life, and lives on from there.
fn lives_behind_crashes(
    rt: &impl RandomSource,
    plan: &Plan,
    world: &World,
    bounds: Bounds,
    tries: u64,
) -> Result<(), Stop> {
    let mut picks = Picks::new(tries);
    for _ in 0..tries {
        let left = world.crash(&mut picks, Fault::None)?;
        second_life(rt, plan, left, bounds, 1)?;
    }
    Ok(())
}

/// A first life, losses of power behind it, and second lives. Whether it went wrong.
fn first_life(rt: &impl RandomSource, plan: &Plan, fault: Fault, tries: u64) -> Result<bool, Stop> {
    let world = World::new(plan.alloc, fault);
    let Lived { world, bounds } = live(rt, plan, world, Bounds::just(0))?;
    crashes(rt, plan, &world, bounds, tries)?;
    cuts(rt, plan, &world, bounds)?;
    lives_behind_crashes(rt, plan, &world, bounds, tries / 4)?;
    second_lives(rt, plan, &world, Left::Killed, bounds, tries / 32)?;
    torn_lives(rt, plan, &world, bounds, tries / 32)?;
    Ok(world.is_met())
}

/// First lives, each of which goes wrong at another call. It tells how many calls of each device did.
pub fn first_lives<R: RandomSource + Print>(rt: &R, plan: &Plan, tries: u64) -> Result<(), Stop> {
    let mut done = None;
    let mut met = [0u64; DEVICES];
    for n in 0..Fault::all() {
        let fault = Fault::number(n);
        if fault.device() != done {
            if first_life(rt, plan, fault, tries)? {
                count(&mut met, fault);
            } else {
                done = fault.device();
            }
        }
    }
    let [names, first, second, ..] = met;
    let _ = println!(rt;
        "calls: {names} of the names, {first} of the first log, {second} of the second"
    );
    Ok(())
}

/// Counts a call that failed.
fn count(met: &mut [u64; DEVICES], fault: Fault) {
    if let Fault::Fails(place) = fault {
        if place.device < DEVICES {
            met[place.device] = met[place.device].saturating_add(1);
        }
    }
}
