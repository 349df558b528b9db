//! A display that uses its buffers in turn and repaints only the stale rectangle of each.
#![tactic(auto)]

mod display;
pub mod laws;

pub use display::Display;
