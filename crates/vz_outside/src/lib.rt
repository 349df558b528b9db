//! The outside world as contracts see it: a shelf of named files, a sink for printed text, and a
//! gate around each step.
#![tactic(auto)]

mod gate;
mod memory;
mod memory_sink;
mod numbering;
mod opening;
mod real;
mod shelf;
mod sink;
mod transfer;

pub use gate::{Gate, OpenGate, Turn, gated};
pub use memory::MemoryShelf;
pub use memory_sink::MemorySink;
pub use real::{RealShelf, RealSink};
pub use shelf::{Shelf, ShelfError};
pub use sink::Sink;
pub use transfer::{print, read_upto, write_all};
