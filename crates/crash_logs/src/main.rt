//! Lives of a log that end at each of its calls, and what a loss of power leaves of them. It is for tests alone.
//!
//! A life starts the log of a folder, puts batches, saves meanwhile and puts more. In one a call fails, or the program
//! ends behind it: each call of the names and of the files in turn. Behind each life power is lost many times, and at
//! each byte of what was written last, and the log is started anew. It must have all that was acknowledged, in its order
//! and once, and nothing that was never put. Second lives go on from what losses of power leave, and from what a kill
//! leaves; of those each call goes wrong in turn too.
//!
//! The one argument is how many losses of power are tried behind each life, 64 where there is none. The files are in
//! memory; all else are the calls that a server makes.
#![tactic(auto)]

mod bounds;
mod devices;
mod fault;
mod life;
mod lives;
mod names;
mod plan;
mod stop;
mod world;

use crate::lives::first_lives;
use crate::plan::Plan;
use crate::stop::Stop;
use std::env;
use std::process::ExitCode;

/// How many losses of power are tried behind each life, where no argument says.
const TRIES: u64 = 64;

fn main(rt: HostRuntime) -> ExitCode {
    match run(&rt) {
        Ok(()) => {
            let _ = println!(rt; "all was there");
            ExitCode::SUCCESS
        }
        Err(stop) => {
            let _ = println!(rt; "{stop}");
            ExitCode::FAILURE
        }
    }
}

/// The number that was asked for.
fn tries(rt: &HostRuntime) -> Result<u64, Stop> {
    let Ok(mut words) = env::args(rt) else {
        return Err(Stop::Memory);
    };
    match words.nth(1) {
        None => Ok(TRIES),
        Some(word) => match word.parse() {
            Ok(tries) => Ok(tries),
            Err(_) => Err(Stop::NoNumber),
        },
    }
}

fn run(rt: &HostRuntime) -> Result<(), Stop> {
    let tries = tries(rt)?;
    let plan = Plan::new(rt.alloc())?;
    first_lives(rt, &plan, tries)
}
