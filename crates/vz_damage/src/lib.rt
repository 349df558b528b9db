//! Which part of each surface changed since the last aggregation.
//!
//! The caller reports the damage of each accepted submission, and which submission of a surface
//! becomes active. In memory there are two rectangles for each surface: one around the damages
//! since the last aggregation up to the active submission, and one around those after it.
#![tactic(auto)]

mod damage;
pub mod laws;
mod measured;
mod measurer;
mod noted;
mod ranges;
mod running;

pub use damage::Damage;
pub use measured::Measured;
