//! The rule of the table, and what each step does under it. These types are only for proofs.
//!
//! There are eight kinds of steps. A caller takes a ticket (`Take`), looks whether its turn has
//! come (`Look`), takes the state out of the slot and puts it back, which change no view, and
//! ends its turn (`End`). A seat is split: `Cut` gives the new seat a number, and `Note` does
//! not. Two seats are joined (`Glue`). A seat compares its list with those that it was given
//! (`Compare`).
ghost use Rattle.vz_loans.specs.Rule.{took, looked, ended, compared, given, left, note, joined, spent};

use crate::kept::Kept;
use crate::view::View;
use atomic_table::{Join, Play, Split, TableRule};
use std::marker::PhantomData;
use std::snapshot::Snapshot;

/// What is said to the table at its beginning: the first state, and how many callers there are.
#[derive(Drop)]
pub struct About<K> {
    pub state: Snapshot<K>,
    pub callers: u32,
}

/// The rule of the table.
pub struct Ordered<K> {
    state: PhantomData<K>,
}

impl<K: Kept> TableRule<Option<K>, View<K::Plan, K::Entry>, About<K>> for Ordered<K> {
    ghost use Rattle.vz_loans.specs.Rule.{Turns, newcomer};

    ghost holds = { λ a. Turns K.plan K.entries (K.plan a.state.value) a.callers };

    ghost first = { λ a. newcomer (K.plan a.state.value) };
}

/// A caller takes a ticket: word 0 rises by one.
pub struct Take;

impl<K, P, E> Play<Option<K>, View<P, E>> for Take {
    ghost then = { took };
}

/// A caller reads word 1. If it equals the seat's ticket, the seat may take the slot.
pub struct Look<K> {
    state: PhantomData<K>,
}

impl<K: Kept> Play<Option<K>, View<K::Plan, K::Entry>> for Look<K> {
    ghost then = { looked K.plan K.entries };
}

/// A caller ends its turn: word 1 rises by one, and the slot is the table's again.
pub struct End<K> {
    state: PhantomData<K>,
}

impl<K: Kept> Play<Option<K>, View<K::Plan, K::Entry>> for End<K> {
    ghost then = { ended K.plan K.entries };
}

/// The smallest number that a seat keeps and no caller has goes to a new seat.
pub struct Cut;

impl<P, E> Split<View<P, E>> for Cut {
    ghost left = { left };

    ghost right = { given };
}

/// Two seats become one seat.
pub struct Glue;

impl<P, E> Join<View<P, E>> for Glue {
    ghost both = { joined };

    ghost spent = { spent };
}

/// A new seat gets only the plan and the list of the old one, which stays.
pub struct Note;

impl<P, E> Split<View<P, E>> for Note {
    ghost left = { λ v. v };

    ghost right = { note };
}

/// A caller reads word 0. Each list that was joined into its seat is then known to be a front
/// part of the seat's own list, and the seat no longer keeps it.
pub struct Compare;

impl<K, P, E> Play<Option<K>, View<P, E>> for Compare {
    ghost then = { compared };
}
