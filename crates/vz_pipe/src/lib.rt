//! A pipe from one thread to another, for frames that one thread writes while another draws.
//!
//! Example: one thread sends five frames, and another takes the first three before the sender
//! is ended. The receiver then takes the other two with `left`, which waits for nobody.
//!
//! A pipe is a bounded channel and a list that the sender owns. A frame waits in the list until
//! it goes into the channel, and one that the channel hands back waits there again. What the
//! receiver has taken is always a front part of what was sent, in the same order. A frame is of
//! any type that can be dropped.
//!
//! The channel is the one of `crossbeam_channel` that keeps a rule: `specs/Rule.antt` has the
//! rule that each step keeps, and `specs/Ends.antt` what contracts see in the two ends.
#![tactic(auto)]

mod opening;
mod parcel;
mod plays;
mod receiver;
mod remains;
mod sender;
#[cfg(test)]
mod tests;
mod view;

pub use opening::{MOST_SLOTS, pipe};
pub use receiver::Receiver;
pub use sender::{Sender, Sent};
