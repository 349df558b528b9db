//! What every crate of the compositor uses: the limits of files, frames and displays, and the
//! error of a failed allocation.
#![tactic(auto)]

pub mod limits;
mod memory;

pub use memory::Memory;
