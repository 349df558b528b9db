//! What is drawn on a display, as a list of operations from back to front.
#![tactic(auto)]

mod flattening;
mod gutter;
pub mod laws;
mod nesting;
mod op;
mod put;
mod scene;
mod surface;
mod tile;

pub use op::{MOST_OPEN, Op, Ops};
pub use scene::flatten;
