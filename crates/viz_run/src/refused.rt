//! Why an input is refused.
ghost use Rattle.std.specs.Prelude.{◌≡◌, Some};
ghost use Rattle.viz_run.specs.declared.refused.InputError.TheVariants as input_error;

use std::alloc::AllocFailed;
use std::error::Error;
use std::fmt;
use vz_base::Memory;
use vz_codec::FileRule;

/// What is wrong with an input.
#[derive(Clone, Copy, Debug, PartialEq, Eq)]
pub enum Reason {
    /// A field of a client's file, or an event of the schedule, breaks this rule.
    Rule(FileRule),
    /// An earlier client's file has the same sink.
    SinkTaken,
    /// The input is longer than such an input may be.
    Long,
}

/// An input that is refused: which one, where and why.
#[derive(Clone, Copy, Debug, PartialEq, Eq)]
pub struct Refused {
    /// The number of the client whose file it is, from 1 on, or 0 for the schedule or a log.
    pub file: u32,
    /// How many bytes come before the fault.
    pub at: usize,
    /// What is wrong there.
    pub reason: Reason,
}

/// Why inputs are not accepted.
#[derive(Clone, Copy, Debug, PartialEq, Eq)]
pub enum InputError {
    /// This input is the first that is refused.
    Refused(Refused),
    /// An allocation failed.
    Memory,
}

impl From<Memory> for InputError {
    ghost from_gives = { λ _ e. e ≡ input_error.Memory };

    fn from(_error: Memory) -> Self {
        InputError::Memory
    }
}

impl<T: Drop> From<AllocFailed<T>> for InputError {
    ghost from_gives = { λ _ e. e ≡ input_error.Memory };

    fn from(_error: AllocFailed<T>) -> Self {
        InputError::Memory
    }
}

impl fmt::Display for Reason {
    ghost use Rattle.viz_run.specs.Messages.{reason_told};

    ghost output = { λ reason. Some (reason_told reason) };

    fn fmt<W: fmt::Write>(&self, f: &mut fmt::Formatter<W>) -> fmt::Result {
        match self {
            Reason::Rule(rule) => write!(f, "{rule}"),
            Reason::SinkTaken => f.write_str("an earlier file has this sink"),
            Reason::Long => f.write_str("it is too long"),
        }
    }
}

impl fmt::Display for Refused {
    ghost use Rattle.viz_run.specs.Messages.{refusal_told};

    ghost output = { λ refused. Some (refusal_told refused) };

    fn fmt<W: fmt::Write>(&self, f: &mut fmt::Formatter<W>) -> fmt::Result {
        write!(f, "file {} at {}: {}", self.file, self.at, self.reason)
    }
}

impl fmt::Display for InputError {
    ghost use Rattle.viz_run.specs.Messages.{error_told};

    ghost output = { λ error. Some (error_told error) };

    fn fmt<W: fmt::Write>(&self, f: &mut fmt::Formatter<W>) -> fmt::Result {
        match self {
            InputError::Refused(refused) => write!(f, "{refused}"),
            InputError::Memory => f.write_str("memory ran out"),
        }
    }
}

impl Error for Refused {}

impl Error for InputError {}
