//! Threads that put batches into an engine over a log in memory, and share its syncs: a put is durable once it is
//! answered. Syncs and rooms that fail, logs that are full, and a fresh log after a failed one.
ghost use Rattle.std.specs.Prelude.{List};
ghost use Rattle.batch_store.specs.declared.verdict.Entry.{Entry};

mod failures;
mod groups;
mod puts;
mod renewals;
mod rooms;

use crate::cases;
use crate::cases::{Act, Case, NOTHING};
use locked_engine::{Engine, Named, Seat};
use log_desk::DeskFault::{LogFailed, LogFull};
use log_desk::FailAt;
use std::alloc::Global;
use std::io::Eprint;
use std::process::Abort;
use std::sync::Wait;
use std::sync::ledger::Ledger;
use std::thread::Threads;
use std::time::Clock;
use test_batches::setup_up_to;

/// What is done over a log.
#[derive(Clone, Copy)]
pub enum Story {
    /// The first sync answers when all seats' batches are admitted.
    Share,
    /// Eight seats put fifty batches each.
    PutMany,
    /// One seat puts sixteen batches before it waits for the first.
    Pipeline,
    /// The first sync answers when all seats' batches are admitted, and fails.
    FailFirst,
    /// The sync of the first room fails.
    FailRoom,
    /// There is no room at all.
    LackRoom,
    /// There is room for three pages.
    FillUp,
    /// The second sync fails, and then a fresh log is put in place.
    Renew,
}

// How many seats there are, what is done, and how many batches of total 1 are accepted then.
static STORIES: &[(usize, Story, u64)] = &[
    (4, Story::Share, 4),
    (8, Story::PutMany, 400),
    (1, Story::Pipeline, 16),
    (4, Story::FailFirst, 4),
    (1, Story::FailRoom, 0),
    (1, Story::LackRoom, 0),
    (1, Story::FillUp, 3),
    (1, Story::Renew, 3),
];

#[test]
fn puts_are_durable_once_they_are_answered(rt: HostRuntime) {
    for (seats, story, accepted) in STORIES {
        let case = Case {
            seats: *seats,
            act: Act::Log(*story),
            accepted: (*accepted, *accepted),
            ..NOTHING
        };
        cases::play(
            &rt,
            rt.alloc(),
            setup_up_to(1_000, 500).expect(&rt, "a setup"),
            &case,
        );
    }
}

/// Does what a story says.
pub fn play<
    N: Named + Send + Sync,
    H: Ledger + Send + Sync,
    R: Threads + Wait + Clock + Abort + Eprint + Sync,
>(rt: &R, alloc: Global, engine: &Engine<N, H>, seats: &mut [Seat<N, H>], story: Story)
    requires { (entries : List Entry) → N.synced entries }
{
    match story {
        Story::Share => groups::share_a_sync(rt, alloc, engine, seats),
        Story::PutMany => groups::put_many(rt, alloc, engine, seats),
        Story::Pipeline => groups::pipeline(rt, alloc, engine, seats),
        Story::FailFirst => failures::fail_first(rt, alloc, engine, seats),
        Story::FailRoom => rooms::refuse(rt, alloc, engine, seats, 16, FailAt::Room(0), LogFailed),
        Story::LackRoom => rooms::refuse(rt, alloc, engine, seats, 0, FailAt::Never, LogFull),
        Story::FillUp => rooms::fill_up(rt, alloc, engine, seats),
        Story::Renew => renewals::renew(rt, alloc, engine, seats),
    }
}
