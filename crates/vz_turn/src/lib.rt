//! A hub: callers share one machine, and each call is a turn in which the machine takes one
//! event.
//!
//! Example: two callers share a machine. Caller 0 takes a message of client 1, and then caller
//! 1 takes the next one. Their entries have the places 1 and 2 in the history. Caller 0 has
//! seen its own entry, and caller 1 has seen both. Once caller 0 meets caller 1, it has seen
//! both too.
//!
//! A `Hub` has a lock of turns (`vz_loans`), and each caller has a `Pass`. From a pass,
//! contracts know the plan, the number of the caller, and the entries that it has seen, which
//! are a front part of one legal history. Threads may call a hub at once, as `call` and `meet`
//! take it by a shared reference. No clause says that a turn ever comes.
#![tactic(auto)]

mod brief;
mod hub;
pub mod laws;
pub mod own_laws;
mod pass;
mod register;
mod step;

pub use brief::{Brief, ClientBrief, DisplayBrief, Told};
pub use hub::Hub;
pub use pass::Pass;
pub use register::Register;
