//! Players: a machine that takes events one after the other, with a gate around each, its
//! history, and a display that shows what is drawn.
//!
//! `play_frames` writes what a player shows to a shelf, and `write_log` its history; `play` gives
//! the bytes of its frames. A hit tester is a player without a display, and knows what is hit at
//! one point of the last drawing.
#![tactic(auto)]

mod actors;
mod client_file;
mod events;
mod frame_file;
mod hit_tester;
mod log;
mod outputs;
mod player;
mod result_frame;
mod results;
mod show;
mod take;
mod to_shelf;

pub use actors::{Actors, MOST_ACTORS, actor_of};
pub use client_file::write_file;
pub use events::is_of_plan;
pub use frame_file::{FrameFile, write_frame};
pub use hit_tester::HitTester;
pub use log::write_log;
pub use outputs::{Outputs, create_outputs};
pub use player::Player;
pub use results::{Results, play};
pub use to_shelf::play_frames;
