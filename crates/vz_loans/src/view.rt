//! What a seat at the table knows. These types are only for proofs; no value of them is made.
use std::collections::LinkedList;

/// The stage of a seat's turn.
pub enum Stage {
    /// It has no ticket.
    Idle,
    /// It has this ticket and waits for its turn.
    Waiting(u64),
    /// It has this ticket, its turn has come, and it may use the slot.
    Inside(u64),
}

/// What a seat knows.
pub struct View<P, E> {
    pub stage: Stage,
    /// The plan, or None in a view that was spent.
    pub plan: Option<P>,
    /// The entries that it has seen, in order, each with its caller's number.
    pub seen: LinkedList<(u64, E)>,
    /// The plans of the seats that were joined into this one, each with the list that the seat
    /// had seen.
    pub olds: LinkedList<(Option<P>, LinkedList<(u64, E)>)>,
    /// The numbers of callers that it keeps, each with the positions of its entries.
    pub claims: LinkedList<(u64, LinkedList<u64>)>,
    /// The numbers that it keeps and that no caller has.
    pub spares: LinkedList<u64>,
}
