//! Sources of bytes and sinks for them, each with a count of its faults, and the calls that read a
//! source to its end and write a text whole.
#![tactic(auto)]

mod memory;
mod sink;
mod source;
mod standard;
#[cfg(test)]
mod tests;
mod whole;

pub use memory::{MemorySink, MemorySource};
pub use sink::Sink;
pub use source::Source;
pub use standard::{StdSink, StdSource};
pub use whole::{ReadEnd, WriteFault, read_all, write_text};

/// The one error of a source and of a sink: the call moved no byte.
#[derive(Clone, Copy, Debug, PartialEq, Eq, thiserror::Error)]
#[error("a source or a sink failed")]
pub struct Failed;
