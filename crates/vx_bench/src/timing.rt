// Times of calls.
use anyhow::Result;
use std::time::Instant;

/// How often each call is timed: the first time may be that of cold memory.
pub(crate) const ROUNDS: u32 = 3;

/// Prints the nanoseconds since a start under a name.
pub(crate) fn print_since(rt: &HostRuntime, name: &str, start: &Instant) -> Result<()> {
    let nanoseconds = start.elapsed(rt)?.as_nanos();
    println!(rt; "{name} {nanoseconds}")?;
    Ok(())
}
