//! Generates three message files: of a page that embeds two children, and of the children, which
//! answer a given number of begin-frames.
#![tactic(auto)]

mod child;
mod files;
pub mod laws;
mod page;
mod parts;

pub use files::make;
