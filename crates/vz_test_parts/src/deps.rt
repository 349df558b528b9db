//! Histories of `Tracker`.
use crate::telling::tell;
use anyhow::Result;
use std::alloc::Global;
use vz_deps::Tracker;
use vz_draws::Draws;
use vz_frame::Room;
use vz_ids::{EmbedToken, FrameSinkId, LocalSurfaceId, Sub, SurfaceId};

/// A call: a submission of the first client is blocked by two surfaces or forgotten, or a surface
/// becomes active, or two do in one round, or a sink is closed, and exactly these submissions are
/// freed. A surface is three digits: its sink, its token, and the number that its parent raises.
#[derive(Clone, Copy)]
enum Call {
    Block(u32, u32, u32),
    Forget(u32),
    Active(u32, &'static [u32]),
    Both(u32, u32, &'static [u32]),
    Closed(u32, &'static [u32]),
}

use Call::{Active, Block, Both, Closed, Forget};

/// Worked histories, each a name with its calls.
const WORKED: [(&str, &[Call]); 6] = [
    (
        "nothing_is_lacked",
        &[Active(111, &[]), Forget(1), Closed(1, &[])],
    ),
    (
        "the_last_one_frees",
        &[
            Block(1, 112, 211),
            Active(112, &[]),
            Active(112, &[]),
            Active(211, &[1]),
        ],
    ),
    (
        "newer_ones_meet_and_older_ones_do_not",
        &[
            Block(1, 113, 113),
            Active(112, &[]),
            Active(129, &[]),
            Active(219, &[]),
            Active(114, &[1]),
        ],
    ),
    (
        "in_the_order_of_block",
        &[
            Block(3, 111, 111),
            Block(1, 211, 211),
            Block(2, 112, 112),
            Block(4, 115, 211),
            Both(211, 113, &[3, 1, 2]),
            Active(115, &[4]),
        ],
    ),
    (
        "a_forgotten_one_is_not_freed",
        &[
            Block(1, 111, 211),
            Block(2, 111, 111),
            Forget(1),
            Active(111, &[2]),
            Block(1, 212, 212),
            Active(211, &[]),
            Active(212, &[1]),
        ],
    ),
    (
        "a_closed_sink_meets_all_its_groups",
        &[
            Block(1, 111, 127),
            Block(2, 131, 211),
            Block(3, 122, 122),
            Closed(1, &[1, 3]),
            Closed(2, &[2]),
        ],
    ),
];

/// How many calls the drawn history has.
const DRAWN: u32 = 4_000;

fn sub(ordinal: u32) -> Sub {
    Sub { client: 1, ordinal }
}

/// The id of the surface of three digits.
fn id_of(surface: u32) -> SurfaceId {
    SurfaceId {
        sink: sink_at(surface / 100),
        local: LocalSurfaceId {
            parent: surface % 10,
            child: 1,
            token: EmbedToken(u128::from(surface / 10 % 10)),
        },
    }
}

/// A sink's id.
fn sink_at(sink_id: u32) -> FrameSinkId {
    FrameSinkId {
        client_id: 1,
        sink_id,
    }
}

/// Blocks a submission anew; whether there was memory.
fn block(part: &mut Tracker, ordinal: u32, a: u32, b: u32) -> bool {
    let s = sub(ordinal);
    part.forget(s);
    part.block(s, &[id_of(a), id_of(b)]).is_ok()
}

/// Surfaces become active in one round, which leaves what is freed; whether there was memory.
fn activate(part: &mut Tracker, ids: &[SurfaceId], freed: &mut Room<Sub>) -> bool {
    freed.clear();
    if freed.reserve(part.blocked()).is_err() {
        return false;
    }
    match ids {
        [id] => part.activated(id, freed),
        _ => part.all_activated(ids, freed),
    }
    true
}

/// Closes a sink, which leaves what is freed; whether there was memory.
fn close(part: &mut Tracker, sink_id: u32, freed: &mut Room<Sub>) -> bool {
    freed.clear();
    if freed.reserve(part.blocked()).is_err() {
        return false;
    }
    part.sink_gone(sink_at(sink_id), freed);
    true
}

/// Whether submissions have exactly these ordinals.
fn are_ordinals(subs: &[Sub], ordinals: &[u32]) -> bool {
    subs.len() == ordinals.len() && subs.iter().zip(ordinals).all(|(s, o)| s.ordinal == *o)
}

/// Whether a call is answered as it says.
fn is_answered(part: &mut Tracker, freed: &mut Room<Sub>, call: Call) -> bool {
    match call {
        Block(ordinal, a, b) => block(part, ordinal, a, b),
        Forget(ordinal) => {
            part.forget(sub(ordinal));
            true
        }
        Active(a, ordinals) => {
            activate(part, &[id_of(a)], freed) && are_ordinals(freed.as_slice(), ordinals)
        }
        Both(a, b, ordinals) => {
            activate(part, &[id_of(a), id_of(b)], freed) && are_ordinals(freed.as_slice(), ordinals)
        }
        Closed(sink_id, ordinals) => {
            close(part, sink_id, freed) && are_ordinals(freed.as_slice(), ordinals)
        }
    }
}

/// How many calls are answered as they say, up to the first that is not.
fn answered(part: &mut Tracker, freed: &mut Room<Sub>, calls: &[Call]) -> usize {
    for (place, call) in calls.iter().enumerate() {
        if !is_answered(part, freed, *call) {
            return place;
        }
    }
    calls.len()
}

/// A drawn surface: of few groups, and of few numbers.
fn drawn(draws: &mut Draws) -> u32 {
    let sink = draws.below(4);
    let token = draws.below(3);
    100 * sink + 10 * token + draws.below(6)
}

/// Makes a drawn call; whether there was memory.
fn make(part: &mut Tracker, freed: &mut Room<Sub>, draws: &mut Draws) -> bool {
    let (a, b) = (drawn(draws), drawn(draws));
    match draws.below(12) {
        0 => {
            part.forget(sub(draws.below(100)));
            true
        }
        1 | 2 => activate(part, &[id_of(a)], freed),
        3 => activate(part, &[id_of(a), id_of(b)], freed),
        4 => close(part, draws.below(40), freed),
        _ => block(part, draws.below(100), a, b),
    }
}

/// How many drawn calls have memory, up to the first that has none.
fn made(part: &mut Tracker, freed: &mut Room<Sub>) -> u32 {
    let mut draws = Draws::new(3);
    for place in 0..DRAWN {
        if !make(part, freed, &mut draws) {
            return place;
        }
    }
    DRAWN
}

/// How many calls of a worked history are answered as they say.
fn worked(alloc: Global, calls: &[Call]) -> usize {
    answered(&mut Tracker::new(alloc), &mut Room::new(alloc), calls)
}

/// How many calls of the drawn history have memory.
fn long(alloc: Global) -> u32 {
    made(&mut Tracker::new(alloc), &mut Room::new(alloc))
}

/// Plays all of them and prints a line for each.
pub(crate) fn play(rt: &HostRuntime) -> Result<()> {
    for (name, calls) in WORKED {
        tell(rt, "deps", name, worked(rt.alloc(), calls), calls.len())?;
    }
    tell(
        rt,
        "deps",
        "drawn",
        long(rt.alloc()) as usize,
        DRAWN as usize,
    )
}
