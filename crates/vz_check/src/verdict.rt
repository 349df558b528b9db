//! Verdicts on a log and its frames.
ghost use Rattle.std.specs.Prelude.{◌≡◌, ◌+◌, ◌<◌, ◌^◌};
ghost use Rattle.vz_check.specs.Judged.{verdict_at};

/// What is wrong at a place. The first three are tested for each entry in this order; the first
/// and the last two are tested after the last entry, also in this order.
#[derive(Clone, Copy, Debug, PartialEq, Eq)]
pub enum What {
    /// The line is not in the grammar at its place, or the log does not end with the line `end`.
    LogText,
    /// The plan has no such client, or the machine gives another reply or other effects.
    Reply,
    /// The next bytes of the frames are not the picture that the entry draws.
    Frame,
    /// The `held` and `open` lines are not what the machine has outstanding.
    Rest,
    /// Bytes are left after the last frame.
    Length,
}

/// The verdict on a log and its frames.
#[derive(Clone, Copy, Debug, PartialEq, Eq)]
pub enum Verdict {
    /// The log is that of a history that the machine makes and of what is outstanding at its end,
    /// and the bytes are its frames.
    Yes,
    /// Something is wrong, and this is the first place.
    No {
        /// The position of the entry, from 1 on. After the last entry it is the number of entries
        /// plus one.
        entry: u64,
        /// What is wrong there first.
        what: What,
    },
}

/// The verdict after `count` entries without a fault.
pub(crate) fn verdict_at(count: u64, what: Option<What>) -> Verdict
    requires { count + 1 < 2 ^ 64 }
    ensures { result ≡ verdict_at (count + 1) what }
{
    match what {
        None => Verdict::Yes,
        Some(what) => Verdict::No {
            entry: count + 1,
            what,
        },
    }
}
