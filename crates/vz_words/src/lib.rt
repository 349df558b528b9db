//! The words of the command line: which command they ask for, with which numbers and names.
#![tactic(auto)]

mod commands;
mod front;
pub mod laws;
mod names;
mod numbers;
mod options;
mod reader;

pub use commands::{CheckWords, Command, HitWords, MakeWords, RunWords, StepWords, TurnsWords};
pub use reader::command;
