//! A lock with turns, for any state of type `Kept`. Callers get the state one after the other, in
//! the order in which they came, and each adds at most one entry to the state's list in its turn.
//!
//! Each caller has a token. From a token, contracts know the plan of the state, the entries that
//! the caller has seen, and which of them are its own. Two callers may meet, and then one learns
//! what the other has seen.
//!
//! The lock is built on a table of atomic words. Word 0 counts the tickets that were taken, word
//! 1 counts the turns that ended, and slot 0 holds the state. `specs/Rule.antt` has the rule that
//! each step keeps.
#![tactic(auto)]

mod kept;
mod lock;
mod plays;
#[cfg(test)]
mod tests;
mod view;

pub use kept::{Kept, MOST_CALLERS};
pub use lock::{Lock, Token};
