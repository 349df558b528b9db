//! Why a relation is refused.
ghost use Rattle.std.specs.Prelude.{◌≡◌, Some};
ghost use Rattle.vz_sinks.specs.declared.refusals.SinkError.TheVariants as error;
ghost use Rattle.vz_sinks.specs.Relating.{refusal_for};

use std::error::Error;
use std::fmt;
use vz_base::Memory;

/// Why a relation is refused. If several reasons hold, the first of `Loop`, `UnknownSink` and
/// `ParentOfOther` is given.
#[derive(Clone, Copy, Debug, PartialEq, Eq)]
pub enum SinkError {
    /// The child already reaches the parent.
    Loop,
    /// The parent or the child is not the sink of any client.
    UnknownSink,
    /// The parent is not the sink of the client that asks.
    ParentOfOther,
    /// An allocation failed.
    Memory,
}

impl fmt::Display for SinkError {
    ghost use Rattle.vz_sinks.specs.Messages.{refusal_text};

    ghost output = { λ error. Some (refusal_text error) };

    fn fmt<W: fmt::Write>(&self, f: &mut fmt::Formatter<W>) -> fmt::Result {
        match self {
            SinkError::Loop => f.write_str("the child reaches the parent"),
            SinkError::UnknownSink => f.write_str("no client has the parent or the child"),
            SinkError::ParentOfOther => f.write_str("the parent is another client's sink"),
            SinkError::Memory => f.write_str("out of memory"),
        }
    }
}

impl Error for SinkError {}

impl From<Memory> for SinkError {
    ghost from_gives = { λ _ e. e ≡ error.Memory };

    fn from(_error: Memory) -> SinkError {
        SinkError::Memory
    }
}

/// The first reason that holds, or None if the relation is allowed.
pub(crate) fn refusal_for(is_loop: bool, are_known: bool, is_own: bool) -> Option<SinkError>
    ensures { result ≡ refusal_for is_loop are_known is_own }
{
    if is_loop {
        Some(SinkError::Loop)
    } else if !are_known {
        Some(SinkError::UnknownSink)
    } else if !is_own {
        Some(SinkError::ParentOfOther)
    } else {
        None
    }
}
