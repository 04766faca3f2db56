//! Where bytes come from and where they go: sources and sinks that count their faults, ends in memory and the standard
//! ones, reading up to a limit and writing whole.
#![tactic(auto)]

mod memory_sink;
mod memory_source;
mod reading;
mod sinks;
mod sources;
mod standard;
mod writing;

pub use memory_sink::MemorySink;
pub use memory_source::MemorySource;
pub use reading::{InputError, read_up_to};
pub use sinks::{Sink, WriteFailed};
pub use sources::{ReadFailed, Source};
pub use standard::{ReaderSource, StdinSource, StdoutSink, WriterSink};
pub use writing::write_whole;
