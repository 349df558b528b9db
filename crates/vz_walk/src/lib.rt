//! The walk over a store, quad by quad.
//!
//! The walk starts at the root pass of the root surface and visits each quad as often as it is
//! drawn. It enters the pass or the surface that a quad draws, unless that surface is on the
//! path.
#![tactic(auto)]

mod both;
mod path;
mod visitor;
mod walker;
mod weigher;

pub use both::Both;
pub use path::Path;
pub use visitor::Visitor;
pub use walker::walk;
pub use weigher::{Weigher, weight};
