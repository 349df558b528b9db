//! What a call reports of its entry.
ghost use Rattle.std.specs.Prelude.{◌≡◌};
ghost use Rattle.vz_turn.specs.Briefs.{brief_in, short_count};

use vz_base::limits::GREATEST_NUMBER;
use vz_geom::Rect;
use vz_rules::{Refusal, Reply, Returned};

/// A reply in short: as `Reply`, with the number of returns in place of their list, so that it
/// takes no memory.
#[derive(Clone, Copy, Debug, PartialEq, Eq)]
pub enum Brief {
    /// The answer to a message of a client.
    Client(ClientBrief),
    /// The answer to an event of the display.
    Display(DisplayBrief),
}

/// An answer to a message of a client, in short.
#[derive(Clone, Copy, Debug, PartialEq, Eq)]
pub enum ClientBrief {
    /// The uploaded block is stored.
    Stored,
    /// The submission is accepted.
    Accepted {
        /// Its position among the accepted submissions of the client, from 1 on.
        ordinal: u32,
        /// Its position among the accepted submissions to its surface, from 1 on.
        index: u32,
    },
    /// It is noted that the client sends no frame for the begin-frame.
    Noted,
    /// How many returns were in the client's queue, up to `GREATEST_NUMBER`. By the law
    /// `returns_are_counted` they are never more.
    Reclaimed(u32),
    /// The root is named.
    Rooted,
    /// The parent and the child are registered.
    Joined,
    /// The awaited begin-frame has this number.
    Began(u32),
    /// No begin-frame is pending for the client, and it waits for none, as Over has come.
    Over,
    /// The client is closed.
    Left,
    /// The message is refused.
    Refused(Refusal),
}

/// An answer to an event of the display.
#[derive(Clone, Copy, Debug, PartialEq, Eq)]
pub enum DisplayBrief {
    /// The tick is now this number.
    Ticked(u32),
    /// A frame is drawn, with this damage of the display in pixels.
    Drawn(Rect),
    /// Nothing is drawn, as the damage since the last aggregation is empty.
    Unchanged,
    /// Nothing is drawn, as no root is named, or the named surface does not exist or has no
    /// active frame.
    NoRoot,
    /// Nothing is drawn, as the drawing would meet more than `MOST_WEIGHT` quads or have a path
    /// of more than `MOST_ON_PATH` surfaces.
    TooMuch,
    /// Nothing is drawn, as the frame drawn before is not done.
    Busy,
    /// The drawn frame is on the screen.
    Shown,
    /// No drawn frame was in flight.
    Nothing,
    /// From now on no client waits for a begin-frame.
    Ended,
}

/// What a call reports of the entry that it made.
#[derive(Clone, Copy, Debug, PartialEq, Eq)]
pub struct Told {
    /// The position of the entry in the history, from 1 on.
    pub place: u64,
    /// The reply of the entry, in short.
    pub reply: Brief,
}

/// The brief of a reply.
pub(crate) fn brief_of(reply: &Reply) -> Brief
    ensures { result ≡ brief_in reply.now }
{
    match reply {
        Reply::Stored => Brief::Client(ClientBrief::Stored),
        Reply::Accepted { ordinal, index } => Brief::Client(ClientBrief::Accepted {
            ordinal: *ordinal,
            index: *index,
        }),
        Reply::Noted => Brief::Client(ClientBrief::Noted),
        Reply::Reclaimed(returns) => {
            Brief::Client(ClientBrief::Reclaimed(short_count(returns.as_slice())))
        }
        Reply::Rooted => Brief::Client(ClientBrief::Rooted),
        Reply::Joined => Brief::Client(ClientBrief::Joined),
        Reply::Began(tick) => Brief::Client(ClientBrief::Began(*tick)),
        Reply::Over => Brief::Client(ClientBrief::Over),
        Reply::Left => Brief::Client(ClientBrief::Left),
        Reply::Refused(refusal) => Brief::Client(ClientBrief::Refused(*refusal)),
        Reply::Ticked(tick) => Brief::Display(DisplayBrief::Ticked(*tick)),
        Reply::Drawn(damage) => Brief::Display(DisplayBrief::Drawn(*damage)),
        Reply::Unchanged => Brief::Display(DisplayBrief::Unchanged),
        Reply::NoRoot => Brief::Display(DisplayBrief::NoRoot),
        Reply::TooMuch => Brief::Display(DisplayBrief::TooMuch),
        Reply::Busy => Brief::Display(DisplayBrief::Busy),
        Reply::Shown => Brief::Display(DisplayBrief::Shown),
        Reply::Nothing => Brief::Display(DisplayBrief::Nothing),
        Reply::Ended => Brief::Display(DisplayBrief::Ended),
    }
}

/// How many returns there are, up to `GREATEST_NUMBER`.
fn short_count(returns: &[Returned]) -> u32
    ensures { result ≡ short_count returns.now }
{
    if returns.len() < GREATEST_NUMBER as usize {
        returns.len() as u32
    } else {
        GREATEST_NUMBER
    }
}
