//! What can be seen at one moment, and the walk through it.
//!
//! A scene is the root surface and the active frames. The walk goes through it quad by quad, and
//! stops if it passes the limit on weight or depth. Along the walk it claims what changed since
//! the last aggregation. The active frames are kept by group and an aggregation is kept sorted,
//! so that each item is found fast among many.
//!
//! Each call returns what the definitions of `vz_rules` say. The only error of a call is
//! `AllocError`, if an allocation fails.
#![tactic(auto)]

mod active_frames;
mod aggregation;
mod claims;
mod cursor;
mod damage;
mod group;
mod index;
mod key;
mod newest;
mod scene;
mod submitted;
mod surface_set;
mod visit;
mod walk;

pub use active_frames::ActiveFrames;
pub use aggregation::Aggregation;
pub use claims::drawn_damage;
pub use damage::{remember, walked_subs};
pub use newest::Newest;
pub use submitted::SubmittedFrame;
pub use surface_set::SurfaceSet;
pub use visit::{Visit, Walked};
pub use walk::{LEVELS, walk_of};
