//! Lists that only proofs read.
//!
//! Part of the machine often represents a list that it no longer holds. For example, the store
//! keeps at most two frames of a surface, but it represents every submission that was ever
//! accepted. `GhostList` is such a list. It takes no bytes, and nothing of it is left when the
//! program runs.
#![tactic(auto)]

mod list;

pub use list::GhostList;
