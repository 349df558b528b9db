//! What remains of a desk.

use vz_frame::Room;
use vz_rules::Entry;

/// A machine with its whole history.
pub struct Gathered<M> {
    /// The machine, in the world after the history.
    pub machine: M,
    /// All entries, in the order in which they were made.
    pub history: Room<Entry>,
}
