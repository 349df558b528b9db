//! The deadlines of submissions that wait: the tick at which each becomes active even if it lacks
//! a dependency, after Chromium's `SurfaceDependencyDeadline`. A tick is the number of a
//! begin-frame.
#![tactic(auto)]

mod deadlines;
mod due;
pub mod laws;
mod numbers;
mod slots;
mod walk;

pub use deadlines::Deadlines;
