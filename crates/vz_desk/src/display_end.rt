//! What the thread of the display owns of a desk.
ghost use Rattle.std.specs.Prelude.{◌≡◌};
ghost use Rattle.vz_desk.specs.Displays.{DisplayStands};

use crate::Book;
use std::marker::Model;
use vz_loans::Token;
use vz_machine::Machine;

/// The display's end of a desk. From it, contracts know the plan, the history up to the display's
/// last turn, and the totals of the display's entries in it. It keeps room for the list of all
/// tokens, so that `gather` needs no memory.
#[derive(Drop)]
pub struct DisplayEnd<M: Machine + Send, S: Copy + Send + Sync> {
    pub(crate) token: Token<Book<M, S>>,
    pub(crate) begins: u64,
    pub(crate) draws: u64,
    pub(crate) drawn: u64,
    pub(crate) dones: u64,
    pub(crate) in_flight: bool,
    pub(crate) room: Vec<Token<Book<M, S>>>,
}

impl<M: Machine + Send, S: Copy + Send + Sync> Model for DisplayEnd<M, S> {
    ghost use Rattle.std.specs.Prelude.{◌≡◌, ◌≤◌, [], vec_capacity};
    ghost use Rattle.vz_loans.specs.declared.kept.TheConstants.{MOST_CALLERS};
    ghost use Rattle.vz_desk.specs.Totals.{DisplayTotals};
    ghost use Rattle.vz_desk.specs.Owners.{Owner, owner_of, IsDisplayEnd};

    ghost Value = { Owner DisplayTotals };

    ghost view = { λ e. owner_of e.token (record {
      begins = e.begins;
      draws = e.draws;
      drawn = e.drawn;
      dones = e.dones;
      in_flight = e.in_flight;
    }) };

    ghost invariant = { λ e. IsDisplayEnd e.token (record {
      begins = e.begins;
      draws = e.draws;
      drawn = e.drawn;
      dones = e.dones;
      in_flight = e.in_flight;
    }) × (e.room.items ≡ []) × (MOST_CALLERS ≤ vec_capacity e.room) };
}

impl<M: Machine + Send, S: Copy + Send + Sync> DisplayEnd<M, S>
where
    M::Picture: Send,
{
    /// How many begin-frames the display made.
    pub fn begins(&self) -> u64
        ensures { result ≡ self.now.totals.begins }
    {
        self.begins
    }

    /// How many times the display drew, also if nothing was drawn.
    pub fn draws(&self) -> u64
        ensures { result ≡ self.now.totals.draws }
    {
        self.draws
    }

    /// How many frames were drawn.
    pub fn drawn(&self) -> u64
        ensures { result ≡ self.now.totals.drawn }
    {
        self.drawn
    }

    /// How many times the display called Done, also if no frame was in flight.
    pub fn dones(&self) -> u64
        ensures { result ≡ self.now.totals.dones }
    {
        self.dones
    }

    /// Whether a frame is in flight. What the end has seen is a legal history of its plan, and
    /// its totals are those of the display's entries in it.
    pub fn in_flight(&self) -> bool
        ensures value { result ≡ self.now.totals.in_flight }
        ensures stands { DisplayStands self.now }
    {
        self.in_flight
    }
}
