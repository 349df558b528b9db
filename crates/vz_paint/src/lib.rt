//! The painter: it turns drawing operations into the pixels of a buffer, operation by operation.
#![tactic(auto)]

mod alone;
mod brush;
mod choice;
mod drawing;
mod ground;
mod group;
mod painting;
mod repeats;
mod rows;
mod span;

pub use alone::paint_alone;
pub use painting::paint;
