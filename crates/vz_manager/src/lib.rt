//! The incremental machine that `run`, `step` and `demo` use: the parts that each keep a piece of
//! the machine's state, and the steps over them. A step's cost grows with what it touches, and a
//! draw's cost with what is on the display.
//!
//! All room of a step is reserved before its first change: if an allocation fails, the step
//! returns `Memory` and nothing has changed.
#![tactic(auto)]

mod arriving;
mod asking;
mod client;
mod drawing;
mod ensuing;
mod judging;
mod kind;
mod landing;
mod manager;
mod opening;
mod outcome;
mod parts;
mod picture;
mod quiet;
mod regions;
mod room;
mod submitting;

pub use manager::Manager;
