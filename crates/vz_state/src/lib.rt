//! The parts of the plain machine's state, and what changes each of them.
//!
//! The parts are clients with their resources and queues, surfaces, submissions, and what holds
//! resources. The plain machine joins them to a world, and steps by changing each part.
//!
//! Each call returns what the definitions of `vz_rules` say, and scans plain lists. The only
//! error of a call is `AllocError`, if an allocation fails.
#![tactic(auto)]

mod accept;
mod change;
mod client;
mod copy;
mod files;
mod flags;
mod held;
mod lost;
mod names;
mod refusal;
mod resource;
mod returns;
mod risen;
mod room;
mod sinks;
mod submission;
mod surface;

pub use accept::{blocks_of, count_created, count_of_client, count_on, number_after, replace_all};
pub use change::{Change, change_alone, change_one};
pub use client::{
    Client, client_of, deliver_all, has_closed, is_gone, is_known, new_client, new_clients,
};
pub use copy::{copy_clients, copy_submissions};
pub use files::{file_of, next_message};
pub use flags::{go_on_by, mark_by, name_by};
pub use held::all_held;
pub use lost::{by_client, destroy_all, drop_all};
pub use names::{all_shown, named_flags, range_ends};
pub use refusal::{is_last, submit_refusal};
pub use resource::{Resource, in_use};
pub use returns::{Holders, feed_all, give_back_clients, outs_of, unfed_of};
pub use risen::{Risen, Signs, add_risen, is_before_one, is_one_on};
pub use room::make_room;
pub use sinks::{has_sink, reached, reaches};
pub use submission::{Submission, accepted_frames, active_frames, met_by};
pub use surface::{Surface, exists, last_created, mark_client, number_of};
