//! The edge of the library: where bytes come from, where they go, and the gate round each command.
//! A source and a sink say by ghost members which bytes they have left or hold, where they tell,
//! and how many faults they met. Whatever reads or writes in this library does it through these.
#![tactic(auto)]

mod chunk;
mod copy;
mod in_memory;
mod standard;
mod traits;

pub use chunk::{Chunk, DIGITS, SIZE, write_all};
pub use in_memory::{MemorySink, MemorySource};
pub use standard::{NeverFails, OpenGate, StdSink, StdSource};
pub use traits::{Failed, Gate, Sink, Source};
