//! What keeps surfaces alive: the ranges that active frames reference, and the temporary
//! references. A new surface has a temporary reference for a while, until an active frame
//! references it.
//!
//! A surface is reached if it is the root or temporary, or if a range of a reached surface shows
//! it.
#![tactic(auto)]

mod indexes;
pub mod laws;
mod listing;
mod marking;
mod naming;
mod notes;
mod references;
mod seats;
mod sets;
mod surfaces;
mod temporaries;

pub use references::{References, Shows};
