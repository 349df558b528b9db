//! The totals of a client's entries.
ghost use Rattle.std.specs.Prelude.{◌≡◌, ◌+◌, ◌<◌, ◌≤◌, ◌^◌, ◌-◌, if◌then◌else◌};
ghost use Rattle.vz_desk.specs.Totals.{with_note, AreFew};

use crate::Note;

/// The totals of a client's entries. Numbers of references do not rise above 2^64 - 1.
#[derive(Clone, Copy, Drop)]
pub struct Totals {
    /// How many entries the client made.
    pub calls: u64,
    /// How many messages were taken.
    pub taken: u64,
    /// How many submissions were accepted.
    pub accepted: u64,
    /// How many messages were refused.
    pub refused: u64,
    /// How many references accepted submissions lent.
    pub lent: u64,
    /// How many references were given back.
    pub back: u64,
}

impl Totals {
    /// The totals before the first entry.
    pub const NONE: Totals = Totals {
        calls: 0,
        taken: 0,
        accepted: 0,
        refused: 0,
        lent: 0,
        back: 0,
    };

    /// The totals after one more entry. `in_time` says whether the entry took a message.
    pub(crate) fn with(&self, note: &Note, in_time: bool) -> Totals
        requires few { AreFew self.now }
        ensures { result ≡ with_note self.now in_time note.now }
    {
        Totals {
            calls: self.calls + 1,
            taken: raised(self.taken, in_time),
            accepted: raised(self.accepted, note.accepted),
            refused: raised(self.refused, note.refused),
            lent: self.lent.saturating_add(note.lent),
            back: self.back.saturating_add(note.back),
        }
    }
}

/// A count, plus one if `by_one` is true.
fn raised(count: u64, by_one: bool) -> u64
    requires { count < 2 ^ 64 - 1 }
    ensures { result ≡ (if by_one then count + 1 else count) }
{
    if by_one { count + 1 } else { count }
}
