//! A run: each client of a plan has a thread, and beside them the display makes its rounds and
//! writes the frames.
#![tactic(auto)]

mod back;
mod beside;
mod chosen;
mod crew;
mod finish;
mod halt;
mod joined;
mod left;
mod messages;
mod opening;
mod outlet;
mod piped;
mod piping;
mod playing;
mod progress;
mod ran;
mod rounds;
mod run;
mod tail;
mod writer;
mod writing;

pub use run::{Course, play_course};
