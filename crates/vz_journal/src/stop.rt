//! Why a text cannot be read as a log.
ghost use Rattle.std.specs.Prelude.{◌≡◌, Some};
ghost use Rattle.vz_journal.specs.declared.stop.Stop.TheVariants.{Memory};

use std::alloc::{AllocError, AllocFailed};
use std::error::Error;
use std::fmt;

/// Why a log cannot be read.
#[derive(Clone, Copy, Debug, PartialEq, Eq)]
pub enum LogError {
    /// The number, from 1 on, of the first line that is not in the grammar at its place.
    Refused { line: u64 },
    /// An allocation failed.
    Memory,
}

impl fmt::Display for LogError {
    ghost use Rattle.vz_journal.specs.Messages.{error_text};

    ghost output = { λ error. Some (error_text error) };

    fn fmt<W: fmt::Write>(&self, f: &mut fmt::Formatter<W>) -> fmt::Result {
        match self {
            LogError::Refused { line } => write!(f, "line {line} of the log is refused"),
            LogError::Memory => f.write_str("out of memory"),
        }
    }
}

impl Error for LogError {}

/// Why a part of a line cannot be read: an allocation failed, or the bytes are not in the
/// grammar.
#[derive(Clone, Copy, Debug, PartialEq, Eq)]
pub enum Stop {
    Memory,
    Unlike,
}

impl From<vz_base::Memory> for Stop {
    ghost from_gives = { λ _ e. e ≡ Memory };

    fn from(_e: vz_base::Memory) -> Stop {
        Stop::Memory
    }
}

impl From<AllocError> for Stop {
    ghost from_gives = { λ _ e. e ≡ Memory };

    fn from(_e: AllocError) -> Stop {
        Stop::Memory
    }
}

impl<T: Drop> From<AllocFailed<T>> for Stop {
    ghost from_gives = { λ _ e. e ≡ Memory };

    fn from(_e: AllocFailed<T>) -> Stop {
        Stop::Memory
    }
}
