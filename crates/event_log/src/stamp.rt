//! Times and spans of time as they stand in lines.

use jiff::Timestamp;
use std::fmt;
use std::fmt::{Display, Formatter, Write};
use std::time::{Clock, Duration, Instant};

/// The time of a line, in UTC and whole seconds, or `-` where the clock can't be read.
#[derive(Clone, Copy)]
pub struct Stamp {
    time: Option<Timestamp>,
}

impl Stamp {
    pub fn now(clock: &impl Clock) -> Stamp {
        Stamp {
            time: read_time(clock),
        }
    }
}

fn read_time(clock: &impl Clock) -> Option<Timestamp> {
    let since = clock.since_1970().ok()?;
    let seconds = i64::try_from(since.as_secs()).ok()?;
    Timestamp::from_second(seconds).ok()
}

impl Display for Stamp {
    fn fmt<W: Write>(&self, f: &mut Formatter<W>) -> fmt::Result {
        match &self.time {
            Some(time) => write!(f, "{time}"),
            None => f.write_str("-"),
        }
    }
}

/// So many seconds, with three digits behind the point.
#[derive(Clone, Copy)]
pub struct Seconds(pub Duration);

impl Display for Seconds {
    fn fmt<W: Write>(&self, f: &mut Formatter<W>) -> fmt::Result {
        let millis = self.0.subsec_millis();
        write!(f, "{}.{millis:03}", self.0.as_secs())
    }
}

/// How long it is since then; none where the clock can't be read, or couldn't.
pub fn since(clock: &impl Clock, begun: Option<Instant>) -> Duration {
    match begun {
        Some(begun) => begun.elapsed(clock).unwrap_or(Duration::ZERO),
        None => Duration::ZERO,
    }
}
