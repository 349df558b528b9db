//! Draw occlusion: items of a picture that lie wholly behind an opaque one are not painted.
#![tactic(auto)]

mod bound;
mod cover;
mod culler;
pub mod laws;
mod occluder;
mod picture;
mod role;
mod texels;

pub use bound::MOST_OCCLUDERS;
pub use picture::{FlatPicture, Thin, occlude};
