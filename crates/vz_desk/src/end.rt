//! What the thread of a client owns of a desk.
ghost use Rattle.std.specs.Prelude.{◌≡◌};
ghost use Rattle.vz_desk.specs.Owners.{Stands};

use crate::{Book, Totals};
use std::marker::Model;
use vz_loans::Token;
use vz_machine::Machine;

/// A client's end of a desk. From it, contracts know the plan, the history up to the client's
/// last turn, and the totals of the client's entries in it.
#[derive(Drop)]
pub struct End<M: Machine + Send, S: Copy + Send + Sync> {
    pub(crate) token: Token<Book<M, S>>,
    pub(crate) totals: Totals,
}

impl<M: Machine + Send, S: Copy + Send + Sync> Model for End<M, S> {
    ghost use Rattle.vz_desk.specs.declared.totals.Totals.{Totals};
    ghost use Rattle.vz_desk.specs.Owners.{Owner, owner_of, IsEnd};

    ghost Value = { Owner Totals };

    ghost view = { λ e. owner_of e.token e.totals };

    ghost invariant = { λ e. IsEnd e.token e.totals };
}

impl<M: Machine + Send, S: Copy + Send + Sync> End<M, S>
where
    M::Picture: Send,
{
    /// The number of the client, from 1 on.
    pub fn client(&self) -> u32
        ensures number { result ≡ self.now.number }
        ensures stands { Stands self.now }
    {
        self.token.number()
    }

    /// How many entries the client made.
    pub fn calls(&self) -> u64
        ensures { result ≡ self.now.totals.calls }
    {
        self.totals.calls
    }

    /// How many messages of the client were taken.
    pub fn taken(&self) -> u64
        ensures { result ≡ self.now.totals.taken }
    {
        self.totals.taken
    }

    /// How many submissions of the client were accepted.
    pub fn accepted(&self) -> u64
        ensures { result ≡ self.now.totals.accepted }
    {
        self.totals.accepted
    }

    /// How many messages of the client were refused, also as NotYet.
    pub fn refused(&self) -> u64
        ensures { result ≡ self.now.totals.refused }
    {
        self.totals.refused
    }

    /// How many references the client's accepted submissions lent, up to 2^64 - 1.
    pub fn lent(&self) -> u64
        ensures { result ≡ self.now.totals.lent }
    {
        self.totals.lent
    }

    /// How many references were given back to the client, up to 2^64 - 1.
    pub fn back(&self) -> u64
        ensures { result ≡ self.now.totals.back }
    {
        self.totals.back
    }
}
