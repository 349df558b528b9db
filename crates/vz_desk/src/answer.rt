//! What the calls of a desk return.
ghost use Rattle.std.specs.Prelude.{◌≡◌};

/// What a call reports of the entry that it made.
#[derive(Clone, Copy, Drop)]
pub struct Note {
    /// The position of the entry in the history, from 1 on.
    pub place: u64,
    /// Whether the entry accepts a submission.
    pub accepted: bool,
    /// Whether the entry refuses a client's message.
    pub refused: bool,
    /// How many references the entry lent: one for each resource of the frame that it accepts.
    pub lent: u64,
    /// How many references the entry gave back to the client, up to 2^64 - 1.
    pub back: u64,
}

impl Note {
    /// The same note with another position.
    pub(crate) fn at(self, place: u64) -> Note
        ensures { result ≡ record self { place = place } }
    {
        Note { place, ..self }
    }
}

/// The answer to a call of a desk.
#[derive(Clone, Copy, Drop)]
pub enum Answer<S> {
    /// The call made this entry.
    Did(Note),
    /// The call made no entry, as the desk was stopped. This is the reason of the first stop.
    Stopped(S),
}
