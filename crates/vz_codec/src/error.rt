//! Why a field cannot be read.
ghost use Rattle.std.specs.Prelude.{◌≡◌};
ghost use Rattle.vz_codec.specs.declared.error.ReadError.TheVariants.{Memory};

use crate::fault::FileRule;
use std::alloc::{AllocError, AllocFailed};

/// Why a field cannot be read: an allocation failed, or this rule is broken at the field where
/// `left` bytes were left.
#[derive(Clone, Copy, Debug, PartialEq, Eq)]
pub enum ReadError {
    Memory,
    Wrong { left: usize, rule: FileRule },
}

impl ReadError {
    ghost use Rattle.vz_codec.specs.declared.error.ReadError.TheVariants.{Wrong};

    /// The error that the field with `left` bytes left breaks a rule.
    pub fn refused(left: usize, rule: FileRule) -> ReadError
        ensures { result ≡ Wrong left rule }
    {
        ReadError::Wrong { left, rule }
    }
}

impl From<AllocError> for ReadError {
    ghost from_gives = { λ _ e. e ≡ Memory };

    fn from(_e: AllocError) -> ReadError {
        ReadError::Memory
    }
}

impl From<vz_base::Memory> for ReadError {
    ghost from_gives = { λ _ e. e ≡ Memory };

    fn from(_e: vz_base::Memory) -> ReadError {
        ReadError::Memory
    }
}

impl<T: Drop> From<AllocFailed<T>> for ReadError {
    ghost from_gives = { λ _ e. e ≡ Memory };

    fn from(_e: AllocFailed<T>) -> ReadError {
        ReadError::Memory
    }
}
