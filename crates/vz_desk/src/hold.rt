//! The token of a drawn frame.

use crate::Book;
use std::marker::Model;
use std::snapshot::Snapshot;
use vz_loans::Token;
use vz_machine::Machine;

/// The token of a drawn frame. Done takes it, and so does `gather` if a frame is still in flight.
pub struct Hold<M: Machine + Send, S: Copy + Send + Sync> {
    pub(crate) by: Snapshot<Token<Book<M, S>>>,
}

impl<M: Machine + Send, S: Copy + Send + Sync> Model for Hold<M, S> {
    ghost use Rattle.atomic_table.specs.Seated.{TableId};

    ghost Value = { TableId };

    ghost view = { λ h. h.by.value.lock };
}

impl<M: Machine + Send, S: Copy + Send + Sync> Hold<M, S> {
    // Ends the token.
    pub(crate) fn spend(self) {
        let Hold { by: _ } = self;
    }
}
