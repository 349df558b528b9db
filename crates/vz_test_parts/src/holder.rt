//! Histories of `Holder`.
use crate::telling::tell;
use anyhow::Result;
use std::alloc::Global;
use vz_draws::Draws;
use vz_frame::Room;
use vz_returns::Holder;
use vz_rules::Returned;

/// A call with its answer: of a release the count that goes back, 0 if none does, and of lists each
/// resource with its count.
#[derive(Clone, Copy)]
enum Call {
    Lend(u32),
    Hold(u32),
    Release(u32, u32),
    InUse(u32, bool),
    Queued(usize),
    Listed(usize),
    Take(&'static [(u32, u32)]),
    Held(&'static [(u32, u32)]),
}

use Call::{Held, Hold, InUse, Lend, Listed, Queued, Release, Take};

/// Worked histories, each a name with its calls.
const WORKED: [(&str, &[Call]); 7] = [
    (
        "nothing",
        &[InUse(1, false), Queued(0), Listed(0), Take(&[]), Held(&[])],
    ),
    (
        "three_lent_one_return",
        &[
            Lend(7),
            Lend(7),
            Lend(7),
            Release(7, 0),
            Release(7, 0),
            Queued(0),
            Release(7, 3),
            Queued(1),
            Take(&[(7, 3)]),
            Queued(0),
        ],
    ),
    (
        "the_drawn_frame_holds",
        &[
            Lend(1),
            Hold(1),
            Release(1, 0),
            InUse(1, true),
            Release(1, 1),
            Listed(0),
            Take(&[(1, 1)]),
            InUse(1, false),
        ],
    ),
    (
        "in_use_until_taken",
        &[
            Lend(4),
            Release(4, 1),
            InUse(4, true),
            InUse(5, false),
            Take(&[(4, 1)]),
            InUse(4, false),
        ],
    ),
    (
        "lent_again_while_queued",
        &[
            Lend(2),
            Release(2, 1),
            Lend(2),
            Lend(2),
            Take(&[(2, 1)]),
            InUse(2, true),
            Release(2, 0),
            Release(2, 2),
            Take(&[(2, 2)]),
            InUse(2, false),
        ],
    ),
    (
        "held_by_rising_id",
        &[
            Lend(9),
            Lend(3),
            Lend(3),
            Lend(4_294_967_295),
            Lend(0),
            Listed(4),
            Held(&[(0, 1), (3, 2), (9, 1), (4_294_967_295, 1)]),
        ],
    ),
    (
        "returns_in_the_order_of_releases",
        &[
            Lend(5),
            Lend(1),
            Release(5, 1),
            Release(1, 1),
            Queued(2),
            Take(&[(5, 1), (1, 1)]),
            Listed(0),
        ],
    ),
];

/// How many calls the drawn history has.
const DRAWN: u32 = 4_000;

/// Lends a reference; whether there was memory, and no count is full.
fn lend(part: &mut Holder, id: u32) -> bool {
    part.received(id) < u32::MAX && part.alive(id) < u32::MAX && part.lend(id).is_ok()
}

/// Holds a reference; whether one is alive, and the count is not full.
fn hold(part: &mut Holder, id: u32) -> bool {
    let alive = part.alive(id);
    if alive == 0 || alive == u32::MAX {
        return false;
    }
    part.hold(id);
    true
}

/// Releases a reference; the count that goes back, 0 if none does, if one was alive.
fn release(part: &mut Holder, id: u32) -> Option<u32> {
    if part.alive(id) == 0 {
        return None;
    }
    match part.release(id) {
        Some(back) => Some(back.count),
        None => Some(0),
    }
}

/// Takes the queue; whether there was memory.
fn take(part: &mut Holder, out: &mut Room<Returned>) -> bool {
    out.clear();
    if out.reserve(part.queued()).is_err() {
        return false;
    }
    part.take(out);
    true
}

/// Lists what is held; whether there was memory.
fn list(part: &Holder, out: &mut Room<Returned>) -> bool {
    out.clear();
    if out.reserve(part.listed()).is_err() {
        return false;
    }
    part.held(out);
    true
}

/// Whether these are the first client's resources with these counts.
fn are_counts(all: &[Returned], counts: &[(u32, u32)]) -> bool {
    all.len() == counts.len()
        && all
            .iter()
            .zip(counts)
            .all(|(back, count)| is_count(back, count))
}

fn is_count(back: &Returned, count: &(u32, u32)) -> bool {
    back.client == 1 && (back.id, back.count) == *count
}

/// Whether a call is answered as it says.
fn is_answered(part: &mut Holder, out: &mut Room<Returned>, call: Call) -> bool {
    match call {
        Lend(id) => lend(part, id),
        Hold(id) => hold(part, id),
        Release(id, count) => release(part, id) == Some(count),
        InUse(id, so) => part.in_use(id) == so,
        Queued(n) => part.queued() == n,
        Listed(n) => part.listed() == n,
        Take(counts) => take(part, out) && are_counts(out.as_slice(), counts),
        Held(counts) => list(part, out) && are_counts(out.as_slice(), counts),
    }
}

/// How many calls are answered as they say, up to the first that is not.
fn answered(part: &mut Holder, out: &mut Room<Returned>, calls: &[Call]) -> usize {
    for (place, call) in calls.iter().enumerate() {
        if !is_answered(part, out, *call) {
            return place;
        }
    }
    calls.len()
}

/// Makes a drawn call; whether there was memory.
fn make(part: &mut Holder, out: &mut Room<Returned>, draws: &mut Draws) -> bool {
    let id = draws.below(100);
    match draws.below(8) {
        0 | 1 | 2 => lend(part, id),
        3 => {
            hold(part, id);
            true
        }
        4 => list(part, out),
        5 => take(part, out),
        _ => {
            release(part, id);
            true
        }
    }
}

/// How many drawn calls have memory, up to the first that has none.
fn made(part: &mut Holder, out: &mut Room<Returned>) -> u32 {
    let mut draws = Draws::new(1);
    for place in 0..DRAWN {
        if !make(part, out, &mut draws) {
            return place;
        }
    }
    DRAWN
}

/// How many calls of a worked history are answered as they say.
fn worked(alloc: Global, calls: &[Call]) -> usize {
    answered(&mut Holder::new(alloc, 1), &mut Room::new(alloc), calls)
}

/// How many calls of the drawn history have memory.
fn long(alloc: Global) -> u32 {
    made(&mut Holder::new(alloc, 1), &mut Room::new(alloc))
}

/// Plays all of them and prints a line for each.
pub(crate) fn play(rt: &HostRuntime) -> Result<()> {
    for (name, calls) in WORKED {
        tell(rt, "holder", name, worked(rt.alloc(), calls), calls.len())?;
    }
    tell(
        rt,
        "holder",
        "drawn",
        long(rt.alloc()) as usize,
        DRAWN as usize,
    )
}
