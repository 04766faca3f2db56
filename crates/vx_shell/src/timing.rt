// How long a run takes, as a clock tells it.
use std::time::{Clock, Instant};

/// The time of a clock. None where it can't be read.
pub(crate) fn now_of<C: Clock>(clock: &C) -> Option<Instant> {
    match Instant::now(clock) {
        Ok(now) => Some(now),
        Err(_) => None,
    }
}

/// How many milliseconds passed since a time of the clock. None where there is no such time, the clock can't be read now, or they are 2^64 or more.
pub(crate) fn milliseconds_since<C: Clock>(clock: &C, begun: Option<Instant>) -> Option<u64> {
    let begun = begun?;
    match begun.elapsed(clock) {
        Ok(elapsed) => u64::try_from(elapsed.as_millis()).ok(),
        Err(_) => None,
    }
}
