//! Histories of `References`.
ghost use Rattle.std.specs.Prelude.{◌≡◌, []};

use crate::telling::tell;
use anyhow::Result;
use std::alloc::Global;
use vz_draws::Draws;
use vz_frame::Room;
use vz_ids::{EmbedToken, FrameSinkId, LocalSurfaceId, SurfaceId, SurfaceRange};
use vz_refs::{References, Shows};

/// A call: the ranges that end at these surfaces are set for a surface, or none are, a surface is
/// removed or kept until a tick, a tick ends, or from a root exactly these are reached, where each
/// range shows its end if ranges are set for it. A surface is four digits: its client, its token,
/// and the numbers that its parent and it raise.
#[derive(Clone, Copy)]
enum Call {
    Set(u32, [u32; 3]),
    SetNone(u32),
    Remove(u32),
    Keep(u32, u32),
    Tick(u32),
    Reach(u32, &'static [u32]),
}

use Call::{Keep, Reach, Remove, Set, SetNone, Tick};

/// Worked histories, each a name with its calls.
const WORKED: [(&str, &[Call]); 6] = [
    ("only_the_root", &[Reach(1121, &[1121])]),
    (
        "two_keep_one_another",
        &[
            Set(1121, [1131, 1131, 1131]),
            Set(1131, [1231, 1231, 1231]),
            Set(1231, [1131, 1131, 1131]),
            Reach(1121, &[1121, 1131, 1231]),
            SetNone(1121),
            Reach(1121, &[1121]),
        ],
    ),
    (
        "kept_until_its_tick",
        &[
            Keep(1122, 3),
            Reach(1121, &[1121, 1122]),
            Tick(2),
            Reach(1121, &[1121, 1122]),
            Tick(3),
            Reach(1121, &[1121]),
        ],
    ),
    (
        "a_newer_end_of_the_group_ends_it",
        &[
            Keep(1131, 9),
            Set(1121, [1141, 1141, 1141]),
            Reach(1121, &[1121]),
        ],
    ),
    (
        "an_end_of_another_group_does_not",
        &[
            Keep(1131, 9),
            Set(1121, [1242, 1242, 1242]),
            Reach(1121, &[1121, 1131]),
        ],
    ),
    (
        "set_again_and_removed",
        &[
            Set(1121, [1131, 1231, 1131]),
            SetNone(1131),
            Set(1231, [1121, 1121, 1121]),
            Reach(1121, &[1121, 1131, 1231]),
            Set(1121, [1231, 1231, 1231]),
            Reach(1121, &[1121, 1231]),
            Remove(1231),
            Reach(1121, &[1121]),
        ],
    ),
];

/// How many calls the drawn history has.
const DRAWN: u32 = 4_000;

/// The surface of four digits.
fn surface(digits: u32) -> SurfaceId {
    SurfaceId {
        sink: FrameSinkId {
            client_id: digits / 1000,
            sink_id: 1,
        },
        local: LocalSurfaceId {
            parent: digits / 10 % 10,
            child: digits % 10,
            token: EmbedToken(u128::from(digits / 100 % 10)),
        },
    }
}

/// The range that ends at a surface.
fn range(number: u32) -> SurfaceRange {
    SurfaceRange {
        start: None,
        end: surface(number),
    }
}

/// What shows the ends for which ranges are set.
#[derive(Drop)]
struct Ends<'a> {
    part: &'a References,
}

impl<'a> Shows for Ends<'a> {
    ghost use Rattle.std.specs.Prelude.{Some, None, if◌then◌else◌};
    ghost use Rattle.vz_refs.specs.Referring.{is_set};

    ghost shows = { λ s r. if is_set s.part.now.sets r.end then Some r.end else None };

    fn shown(&self, r: &SurfaceRange) -> Option<SurfaceId> {
        if self.part.is_set(&r.end) {
            Some(r.end)
        } else {
            None
        }
    }
}

/// Sets the ranges that end at these surfaces; whether there was memory.
fn set(part: &mut References, number: u32, ends: [u32; 3]) -> bool {
    let [a, b, c] = ends;
    part.set(surface(number), &[range(a), range(b), range(c)])
        .is_ok()
}

/// Keeps a surface until a tick; whether there was memory.
fn keep(part: &mut References, number: u32, until: u32) -> bool {
    if part.reserve().is_err() {
        return false;
    }
    part.keep(surface(number), until);
    true
}

/// Leaves what is reached from a root; whether there was memory.
fn reach(part: &References, root: u32, out: &mut Room<SurfaceId>) -> bool {
    let Some(all) = part.surfaces().checked_add(part.temporary()) else {
        return false;
    };
    let Some(room) = all.checked_add(1) else {
        return false;
    };
    out.clear();
    if out.reserve(room).is_err() {
        return false;
    }
    part.reachable(Some(surface(root)), &Ends { part }, out);
    true
}

/// Whether exactly these surfaces are there, each once.
fn are_surfaces(ids: &[SurfaceId], numbers: &[u32]) -> bool {
    ids.len() == numbers.len() && numbers.iter().all(|number| ids.contains(&surface(*number)))
}

/// Whether a call is answered as it says.
fn is_answered(part: &mut References, out: &mut Room<SurfaceId>, call: Call) -> bool {
    match call {
        Set(number, ends) => set(part, number, ends),
        SetNone(number) => part.set(surface(number), &[]).is_ok(),
        Remove(number) => {
            part.remove(&surface(number));
            true
        }
        Keep(number, until) => keep(part, number, until),
        Tick(n) => {
            part.tick(n);
            true
        }
        Reach(root, numbers) => reach(part, root, out) && are_surfaces(out.as_slice(), numbers),
    }
}

/// How many calls are answered as they say, up to the first that is not.
fn answered(part: &mut References, out: &mut Room<SurfaceId>, calls: &[Call]) -> usize {
    for (place, call) in calls.iter().enumerate() {
        if !is_answered(part, out, *call) {
            return place;
        }
    }
    calls.len()
}

/// A drawn surface, of few groups, and of few numbers.
fn drawn(draws: &mut Draws) -> u32 {
    let client = draws.below(4);
    let token = draws.below(2);
    let parent = draws.below(4);
    1000 * client + 100 * token + 10 * parent + draws.below(2)
}

/// Makes a drawn call; whether there was memory.
fn make(part: &mut References, out: &mut Room<SurfaceId>, tick: u32, draws: &mut Draws) -> bool {
    let number = drawn(draws);
    match draws.below(12) {
        0 => {
            part.remove(&surface(number));
            true
        }
        1 => {
            part.tick(tick);
            true
        }
        2 => {
            part.sink_gone(surface(number).sink);
            true
        }
        3 | 4 => keep(part, number, tick.saturating_add(draws.below(6))),
        5 | 6 => reach(part, number, out),
        _ => set(part, number, [drawn(draws), drawn(draws), drawn(draws)]),
    }
}

/// How many drawn calls have memory, up to the first that has none.
fn made(part: &mut References, out: &mut Room<SurfaceId>) -> u32 {
    let mut draws = Draws::new(3);
    for place in 0..DRAWN {
        if !make(part, out, place / 4, &mut draws) {
            return place;
        }
    }
    DRAWN
}

/// How many calls of a worked history are answered as they say.
fn worked(alloc: Global, calls: &[Call]) -> usize {
    answered(&mut References::new(alloc), &mut Room::new(alloc), calls)
}

/// How many calls of the drawn history have memory.
fn long(alloc: Global) -> u32 {
    made(&mut References::new(alloc), &mut Room::new(alloc))
}

/// Plays all of them and prints a line for each.
pub(crate) fn play(rt: &HostRuntime) -> Result<()> {
    for (name, calls) in WORKED {
        tell(
            rt,
            "references",
            name,
            worked(rt.alloc(), calls),
            calls.len(),
        )?;
    }
    tell(
        rt,
        "references",
        "drawn",
        long(rt.alloc()) as usize,
        DRAWN as usize,
    )
}
