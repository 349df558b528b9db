//! A row that is played.
use crate::call::{Failing, Left, is_judged, left_by};
use crate::compare::difference;
use crate::failing::calls_of_shelf;
use crate::hits::are_hit_alike;
use crate::row::Row;
use std::rt::Files;
use std::sync::Wait;
use std::sync::ledger::Ledger;
use std::thread::Threads;
use vz_buffers::Steps;

/// What is said for want of memory.
const MEMORY: How = How::Differs("want of memory");

/// How a row went.
#[derive(Clone, Copy)]
pub enum How {
    /// All was as it must be.
    Same,
    /// So too where one of so many calls of the shelf failed.
    SameInTurn(u64),
    /// This was other than it must be.
    Differs(&'static str),
}

/// Plays the row of some lines. Answers its name, and how it went.
pub fn played<'t, L: Ledger, R: Threads + Wait + AllocGlobal + Files + Sync>(
    rt: &R,
    text: &'t str,
    steps: &mut Steps<L>,
) -> (&'t str, How) {
    match Row::of_text(rt, text) {
        Ok(Some(row)) => (row.name, called(rt, &row, steps)),
        Ok(None) => (text, How::Differs("no row")),
        Err(_) => (text, MEMORY),
    }
}

/// Makes the call of a row.
fn called<L: Ledger, R: Threads + Wait + AllocGlobal + Sync>(
    rt: &R,
    row: &Row<'_>,
    steps: &mut Steps<L>,
) -> How {
    match left_by(rt, row, Failing::NONE, steps) {
        Ok(left) => compared(rt, row, left, steps),
        Err(_) => MEMORY,
    }
}

/// Compares what the call of a row left, and makes the others.
fn compared<L: Ledger, R: Threads + Wait + AllocGlobal + Sync>(
    rt: &R,
    row: &Row<'_>,
    left: Left,
    steps: &mut Steps<L>,
) -> How {
    if let Some(what) = difference(row, &left) {
        return How::Differs(what);
    }
    if !are_hit_alike(rt, row) {
        return How::Differs("hits");
    }
    match is_judged(rt, row, left.shelf, steps) {
        Ok(true) => in_turn(rt, row, steps),
        Ok(false) => How::Differs("judged"),
        Err(_) => MEMORY,
    }
}

/// Makes the calls of which one of the shelf or the sink fails, where the row has them.
fn in_turn<L: Ledger, R: Threads + Wait + AllocGlobal + Sync>(
    rt: &R,
    row: &Row<'_>,
    steps: &mut Steps<L>,
) -> How {
    if !row.fails_in_turn {
        return How::Same;
    }
    match calls_of_shelf(rt, row, steps) {
        Ok(Some(calls)) => How::SameInTurn(calls),
        Ok(None) => How::Differs("a call that fails"),
        Err(_) => MEMORY,
    }
}
