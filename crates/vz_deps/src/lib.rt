//! The dependencies of waiting submissions: which surfaces each of them still lacks.
#![tactic(auto)]

mod bunches;
mod lacks;
pub mod laws;
mod placing;
mod releasing;
mod tracker;

pub use tracker::Tracker;
