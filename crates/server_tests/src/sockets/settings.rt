//! Settings of small servers.

use batch_store::{GivenNumbers, Setup};
use socket_server::Settings;
use std::alloc::Global;
use std::process::Abort;

/// A port of TCP that is free.
pub const ANY_PORT: &str = "127.0.0.1:0";

/// What differs between the servers of the tests: how many workers they have and how many sessions they take, above
/// how many cells they fold, their addresses, the paths of their snapshot and of their log, and whether the snapshot must
/// be there and be saved to.
#[derive(Clone, Copy)]
pub struct Plan<'a> {
    pub workers: u64,
    pub compactors: u64,
    pub sessions: u64,
    pub fold_above: u64,
    pub tcp: Option<&'a str>,
    pub unix: Option<&'a str>,
    pub snapshot: Option<&'a str>,
    pub log: Option<&'a str>,
    pub must_load: bool,
    pub must_save: bool,
}

/// Two workers, no address, no snapshot and no log.
pub const PLAIN: Plan<'static> = Plan {
    workers: 2,
    compactors: 2,
    sessions: 1 << 40,
    fold_above: 0,
    tcp: None,
    unix: None,
    snapshot: None,
    log: None,
    must_load: false,
    must_save: false,
};

// A word, if it is given.
fn owned(rt: &impl Abort, alloc: Global, word: Option<&str>) -> Option<String> {
    match word {
        Some(word) => Some(word.to_string(alloc).expect(rt, "memory")),
        None => None,
    }
}

/// A server of this plan over an engine of three rows, three columns, two shards, a limit of 100 and at most 10
/// batches.
pub fn settings(rt: &impl Abort, alloc: Global, plan: &Plan) -> Settings {
    Settings {
        tcp: owned(rt, alloc, plan.tcp),
        unix: owned(rt, alloc, plan.unix),
        numbers: GivenNumbers::all(Setup::new(3, 3, &[2, 4], 2, 100, 10).expect(rt, "setup")),
        workers: plan.workers,
        compactors: plan.compactors,
        snapshot: owned(rt, alloc, plan.snapshot),
        log: owned(rt, alloc, plan.log),
        must_load: plan.must_load,
        must_save: plan.must_save,
        lock_wait: None,
        sessions: plan.sessions,
        fold_above: plan.fold_above,
        save_log_above: 0,
        save_every: None,
        idle: None,
        drain: None,
        events: None,
        ending: None,
    }
}
