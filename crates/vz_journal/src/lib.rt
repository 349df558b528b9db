//! The log as text: read and written.
#![tactic(auto)]

mod effects;
mod item;
pub mod laws;
mod lines;
mod one_entry;
mod reader;
mod reading;
mod replies;
mod stop;
mod writer;

pub use one_entry::{read_entry, write_entry};
pub use reading::read;
pub use stop::LogError;
pub use writer::{push_entry, push_rest, write};
