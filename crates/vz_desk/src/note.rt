//! The note of a client's entry.
ghost use Rattle.std.specs.Prelude.{◌≡◌};
ghost use Rattle.std.specs.List.{sum_by};
ghost use Rattle.vz_rules.specs.Accounts.{accepts};
ghost use Rattle.vz_rules.specs.Whole.{is_in_time};
ghost use Rattle.vz_desk.specs.Totals.{noted_with, refuses, handed_back, upto_most};

use crate::Note;
use vz_rules::{Entry, Refusal, Reply, Returned};

/// The note of an entry without its position. The entry's message lists `listed` resources.
pub(crate) fn note_of(entry: &Entry, listed: u64) -> Note
    ensures { result ≡ noted_with entry.now listed 0 }
{
    let accepted = is_accepted(entry);
    Note {
        place: 0,
        accepted,
        refused: is_refused(entry),
        lent: if accepted { listed } else { 0 },
        back: handed_back(entry),
    }
}

/// Whether the entry's message was taken.
pub(crate) fn is_in_time(reply: &Reply) -> bool
    ensures { result ≡ is_in_time reply.now }
{
    match reply {
        Reply::Refused(Refusal::NotYet) => false,
        Reply::Refused(Refusal::NoMessage) => false,
        _ => true,
    }
}

/// Whether the entry accepts a submission.
fn is_accepted(entry: &Entry) -> bool
    ensures { result ≡ accepts entry.now }
{
    match &entry.reply {
        Reply::Accepted { .. } => true,
        _ => false,
    }
}

/// Whether the entry refuses a message.
fn is_refused(entry: &Entry) -> bool
    ensures { result ≡ refuses entry.now }
{
    match &entry.reply {
        Reply::Refused(_) => true,
        _ => false,
    }
}

/// How many references the entry gives back to the client, up to 2^64 - 1.
fn handed_back(entry: &Entry) -> u64
    ensures { result ≡ upto_most (handed_back entry.now) }
{
    match &entry.reply {
        Reply::Reclaimed(returns) => counted(returns.as_slice()),
        _ => 0,
    }
}

/// How many references these returns have together, up to 2^64 - 1.
fn counted(returns: &[Returned]) -> u64
    ensures { result ≡ upto_most (sum_by (λ r. r.count) returns.now) }
{
    let mut count: u64 = 0;
    for returned in returns {
        count = count.saturating_add(u64::from(returned.count));
    }
    count
}
