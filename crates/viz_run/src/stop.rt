//! Why a call stops early.
ghost use Rattle.std.specs.Prelude.{◌≡◌};
ghost use Rattle.viz_run.specs.Stops.{stop_of, stop_for};
ghost use Rattle.viz_run.specs.declared.stop.Stop.TheVariants as stop;

use crate::{InputError, Refused};
use vz_base::Memory;
use vz_outside::ShelfError;

/// Why a call stops before its end.
#[derive(Clone, Copy, Debug, PartialEq, Eq)]
pub enum Stop {
    /// The words are those of no command that the program has.
    Words,
    /// An input is refused.
    Input(Refused),
    /// The shelf or the sink had a fault, and counted it.
    Fault,
    /// An allocation failed.
    Memory,
}

impl From<ShelfError> for Stop {
    ghost from_gives = { λ e s. s ≡ stop_of e };

    fn from(error: ShelfError) -> Self {
        match error {
            ShelfError::Failed => Stop::Fault,
            ShelfError::Memory => Stop::Memory,
        }
    }
}

impl From<InputError> for Stop {
    ghost from_gives = { λ e s. s ≡ stop_for e };

    fn from(error: InputError) -> Self {
        match error {
            InputError::Refused(refused) => Stop::Input(refused),
            InputError::Memory => Stop::Memory,
        }
    }
}

impl From<Memory> for Stop {
    ghost from_gives = { λ _ s. s ≡ stop.Memory };

    fn from(_error: Memory) -> Self {
        Stop::Memory
    }
}
