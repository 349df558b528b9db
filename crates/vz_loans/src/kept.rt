//! The state that a lock keeps.
ghost use Rattle.std.specs.Prelude.{ℕ, List};

use vz_base::limits::MOST_FILES;

/// The greatest number of callers of a lock: the display and the clients of a plan.
pub const MOST_CALLERS: usize = MOST_FILES + 1;

/// A state that callers use in turns.
pub trait Kept: Send {
    /// What is fixed when the state is made.
    type Plan;

    /// What a caller adds to the state in its turn.
    type Entry;

    /// The plan, which no caller changes.
    ghost plan: { Self → Self.Plan };

    /// The entries added so far, in order, each with the number of its caller.
    ghost entries: { Self → List (ℕ × Self.Entry) };
}
