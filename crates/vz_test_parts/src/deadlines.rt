//! Histories of `Deadlines`.
use crate::telling::tell;
use anyhow::Result;
use std::alloc::Global;
use vz_deadlines::Deadlines;
use vz_draws::Draws;
use vz_frame::Room;
use vz_ids::Sub;

/// A call: a submission of the first client is set until a tick or cleared, or a tick begins and
/// exactly these are due.
#[derive(Clone, Copy)]
enum Call {
    Set(u32, u32),
    Clear(u32),
    Begin(u32, &'static [u32]),
}

use Call::{Begin, Clear, Set};

/// Worked histories, each a name with its calls.
const WORKED: [(&str, &[Call]); 4] = [
    ("none_waits", &[Begin(5, &[]), Clear(1), Begin(9, &[])]),
    (
        "the_tick_itself_is_due",
        &[Set(1, 4), Begin(3, &[]), Begin(4, &[1]), Begin(5, &[])],
    ),
    (
        "in_the_order_of_set",
        &[
            Set(3, 9),
            Set(1, 2),
            Set(2, 9),
            Set(4, 11),
            Begin(10, &[3, 1, 2]),
            Begin(11, &[4]),
        ],
    ),
    (
        "cleared_and_set_again",
        &[Set(1, 2), Set(2, 2), Clear(1), Set(1, 2), Begin(2, &[2, 1])],
    ),
];

/// How many calls the drawn history has.
const DRAWN: u32 = 4_000;

fn sub(ordinal: u32) -> Sub {
    Sub { client: 1, ordinal }
}

/// Sets a submission anew; whether there was memory.
fn set(part: &mut Deadlines, ordinal: u32, tick: u32) -> bool {
    let s = sub(ordinal);
    part.clear(s);
    part.set(s, tick).is_ok()
}

/// Begins a tick, and leaves what is due; whether there was memory.
fn begin(part: &mut Deadlines, tick: u32, due: &mut Room<Sub>) -> bool {
    due.clear();
    if due.reserve(part.waiting()).is_err() {
        return false;
    }
    part.begin(tick, due);
    true
}

/// Whether submissions have exactly these ordinals.
fn are_ordinals(subs: &[Sub], ordinals: &[u32]) -> bool {
    subs.len() == ordinals.len() && subs.iter().zip(ordinals).all(|(s, o)| s.ordinal == *o)
}

/// Whether a call is answered as it says.
fn is_answered(part: &mut Deadlines, due: &mut Room<Sub>, call: Call) -> bool {
    match call {
        Set(ordinal, tick) => set(part, ordinal, tick),
        Clear(ordinal) => {
            part.clear(sub(ordinal));
            true
        }
        Begin(tick, ordinals) => {
            begin(part, tick, due) && are_ordinals(due.as_slice(), ordinals)
        }
    }
}

/// How many calls are answered as they say, up to the first that is not.
fn answered(part: &mut Deadlines, due: &mut Room<Sub>, calls: &[Call]) -> usize {
    for (place, call) in calls.iter().enumerate() {
        if !is_answered(part, due, *call) {
            return place;
        }
    }
    calls.len()
}

/// Makes a drawn call, the ordinals of which are few; whether there was memory.
fn make(part: &mut Deadlines, due: &mut Room<Sub>, tick: u32, draws: &mut Draws) -> bool {
    let ordinal = draws.below(300);
    match draws.below(8) {
        0 => {
            part.clear(sub(ordinal));
            true
        }
        1 => begin(part, draws.below(tick), due),
        _ => set(part, ordinal, draws.below(DRAWN)),
    }
}

/// How many drawn calls have memory, up to the first that has none.
fn made(part: &mut Deadlines, due: &mut Room<Sub>) -> u32 {
    let mut draws = Draws::new(2);
    for place in 0..DRAWN {
        if !make(part, due, place, &mut draws) {
            return place;
        }
    }
    DRAWN
}

/// How many calls of a worked history are answered as they say.
fn worked(alloc: Global, calls: &[Call]) -> usize {
    answered(&mut Deadlines::new(alloc), &mut Room::new(alloc), calls)
}

/// How many calls of the drawn history have memory.
fn long(alloc: Global) -> u32 {
    made(&mut Deadlines::new(alloc), &mut Room::new(alloc))
}

/// Plays all of them and prints a line for each.
pub(crate) fn play(rt: &HostRuntime) -> Result<()> {
    for (name, calls) in WORKED {
        tell(
            rt,
            "deadlines",
            name,
            worked(rt.alloc(), calls),
            calls.len(),
        )?;
    }
    tell(
        rt,
        "deadlines",
        "drawn",
        long(rt.alloc()) as usize,
        DRAWN as usize,
    )
}
