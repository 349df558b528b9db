//! The frame sink hierarchy: which sink is a child of which, and which clients get begin-frames.
//!
//! A client is attached if the first client's sink reaches its sink over the relations.
#![tactic(auto)]

pub mod laws;
mod reaching;
mod refusals;
mod relations;
mod seats;
mod sinks;

pub use refusals::SinkError;
pub use sinks::Sinks;
