//! The plain painter: the colours of the display, by the definitions, and what is hit at a point.
//!
//! A row is painted in pieces of at most 256 points. For example, a quad that covers the last 28
//! points of a piece lays its colour on these: which points it covers, and what its material
//! names, is found once for the piece. Each function leaves at each point what the definition of
//! the same name does. The path through surfaces, the rows of passes and surfaces inside one
//! another, and the passes that a search for what is hit is inside of are on the heap.
#![tactic(auto)]

mod finder;
mod hits;
mod inks;
mod layers;
mod level;
mod named;
mod paint;
mod pictures;
mod point;
mod searched;
mod span;
mod tile;
mod trail;

pub use hits::hit_at;
pub use pictures::picture;
