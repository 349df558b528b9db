//! What a display and a desk need of a machine and of the pictures that it draws, and a picture
//! that holds all its pixels.
#![tactic(auto)]

mod machine;
mod picture;
mod pixels;

pub use machine::{Machine, Step};
pub use picture::{Picture, ThinPicture};
pub use pixels::PixelPicture;
