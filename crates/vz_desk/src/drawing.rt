//! The answer to a drawing.

use crate::{Hold, Note};
use vz_machine::Machine;

/// The answer to a drawing.
pub enum Drawing<M: Machine + Send, S: Copy + Send + Sync> {
    /// A frame was drawn: this is its token, and its picture.
    Drawn(Hold<M, S>, M::Picture),
    /// The drawing made this entry, and nothing was drawn.
    Other(Note),
    /// The drawing made no entry, as the desk was stopped. This is the reason of the first stop.
    Stopped(S),
}
