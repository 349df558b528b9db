//! Checks whether a log and its frames are those that the machine makes. It uses only the plain
//! machine and the plain painter.
#![tactic(auto)]

mod end;
mod entry;
mod frame;
mod judge;
pub mod laws;
mod line;
mod step;
mod verdict;

pub use judge::check;
pub use verdict::{Verdict, What};
