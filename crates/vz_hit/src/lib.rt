//! Which surface is hit at a point: the regions of a display, from front to back.
#![tactic(auto)]

mod builder;
mod parts;
mod region;
mod regions;
mod scene;

pub use region::{Hit, Region};
pub use regions::Regions;
pub use scene::build;
