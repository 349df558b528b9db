//! The client side of the compositor, after Chromium's CompositorFrameSinkSupport: the messages
//! that each client has still to send, the blocks that it uploaded, and its pending begin-frames.
//!
//! Messages are moved out of the files as they are taken. The block of an upload is kept under
//! its id. Each call of `Support` makes one change of the machine's state in the part that is kept
//! here. Its contract says: if this part is right for some state before the call, it is right for
//! the next state after it.
#![tactic(auto)]

mod blocks;
mod client;
mod clients;
pub mod laws;
mod messages;
mod opening;
mod own_messages;
mod reading;
mod requests;
mod submissions;
mod support;
mod ticks;

pub use clients::Clients;
pub use support::Support;
