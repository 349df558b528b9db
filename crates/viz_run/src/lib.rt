//! The top call of the display compositor, `viz`: it carries out a command, and says how it
//! ended.
//!
//! Its inputs are here, too. Client files and the schedule are read whole, and then accepted, or
//! refused with the place and the reason. `demo_plan` is the plan of the generated files, which
//! are so run without being written.
#![tactic(auto)]

mod client_files;
mod coursing;
mod demo;
mod end;
mod events;
mod given;
mod hit;
mod judging;
pub mod laws;
mod lines;
mod made_plan;
mod make;
mod named_files;
mod opening;
mod perform;
mod planning;
mod playing;
mod refused;
mod run;
mod running;
mod schedule;
mod sides;
mod step;
mod stop;
mod telling;
mod turns;

pub use client_files::{plan_in_turn, plan_of};
pub use made_plan::demo_plan;
pub use named_files::{read_file, read_files};
pub use refused::{InputError, Reason, Refused};
pub use run::{Run, viz};
pub use schedule::{event_of, events_of};
