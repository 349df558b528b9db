//! Histories of `Sinks`.
use crate::telling::tell;
use anyhow::Result;
use std::alloc::Global;
use vz_draws::Draws;
use vz_ids::FrameSinkId;
use vz_sinks::{SinkError, Sinks};

/// A call with its answer. Clients are numbered from 1 on, and a sink has the number of its
/// client; no client has another number.
#[derive(Clone, Copy)]
enum Call {
    Register(u32, u32, u32, Option<SinkError>),
    Attached(u32, bool),
    Begin(u32),
    Stands(u32, bool),
    Take(u32, Option<u32>),
    Close(u32),
}

use Call::{Attached, Begin, Close, Register, Stands, Take};

const LOOP: Option<SinkError> = Some(SinkError::Loop);

const UNKNOWN: Option<SinkError> = Some(SinkError::UnknownSink);

const OF_OTHER: Option<SinkError> = Some(SinkError::ParentOfOther);

/// How many clients there are.
const CLIENTS: u32 = 6;

/// Worked histories, each a name with its calls.
const WORKED: [(&str, &[Call]); 8] = [
    (
        "the_first_alone",
        &[
            Attached(1, true),
            Attached(2, false),
            Begin(1),
            Take(1, Some(1)),
            Take(2, None),
        ],
    ),
    (
        "a_sink_reaches_itself",
        &[
            Register(2, 2, 2, LOOP),
            Register(1, 9, 9, LOOP),
            Attached(2, false),
        ],
    ),
    (
        "a_loop_of_three",
        &[
            Register(1, 1, 2, None),
            Register(2, 2, 3, None),
            Register(3, 3, 1, LOOP),
            Register(3, 3, 2, LOOP),
        ],
    ),
    (
        "the_first_reason",
        &[
            Register(1, 9, 2, UNKNOWN),
            Register(1, 2, 9, UNKNOWN),
            Register(1, 2, 3, OF_OTHER),
            Register(2, 2, 3, None),
            Register(1, 3, 2, LOOP),
        ],
    ),
    (
        "attached_over_another",
        &[
            Register(2, 2, 3, None),
            Attached(3, false),
            Register(1, 1, 2, None),
            Attached(3, true),
            Begin(7),
            Stands(3, true),
            Take(3, Some(7)),
            Stands(3, false),
            Stands(2, true),
        ],
    ),
    (
        "closed_gets_none",
        &[
            Register(1, 1, 2, None),
            Begin(1),
            Close(2),
            Begin(2),
            Take(2, Some(1)),
            Begin(3),
            Take(2, None),
            Attached(2, true),
        ],
    ),
    (
        "there_already",
        &[
            Register(1, 1, 2, None),
            Register(1, 1, 2, None),
            Attached(2, true),
        ],
    ),
    (
        "the_last_stands",
        &[Begin(1), Begin(2), Take(1, Some(2)), Take(1, None)],
    ),
];

/// How many calls the drawn history has.
const DRAWN: u32 = 1_000;

fn sink(number: u32) -> FrameSinkId {
    FrameSinkId {
        client_id: number,
        sink_id: 1,
    }
}

/// The sinks of all clients, without a relation, if there is memory.
fn sinks_of(alloc: Global) -> Option<Sinks> {
    let sinks = [sink(1), sink(2), sink(3), sink(4), sink(5), sink(6)];
    Sinks::new(&sinks, alloc).ok()
}

/// Asks for a relation; the reason if it is refused.
fn register(
    part: &mut Sinks,
    alloc: Global,
    by: u32,
    parent: u32,
    child: u32,
) -> Option<SinkError> {
    part.register(by, sink(parent), sink(child), alloc).err()
}

/// Whether a call is answered as it says.
fn is_answered(part: &mut Sinks, alloc: Global, call: Call) -> bool {
    match call {
        Register(by, parent, child, reason) => register(part, alloc, by, parent, child) == reason,
        Attached(c, so) => part.attached(c) == so,
        Begin(n) => {
            part.begin(n);
            true
        }
        Stands(c, so) => part.stands(c) == so,
        Take(c, n) => part.take(c) == n,
        Close(c) => {
            part.close(c);
            true
        }
    }
}

/// How many calls are answered as they say, up to the first that is not.
fn answered(part: &mut Sinks, alloc: Global, calls: &[Call]) -> usize {
    for (place, call) in calls.iter().enumerate() {
        if !is_answered(part, alloc, *call) {
            return place;
        }
    }
    calls.len()
}

/// How many drawn relations have memory, up to the first that has none.
fn made(part: &mut Sinks, alloc: Global) -> u32 {
    let mut draws = Draws::new(3);
    for place in 0..DRAWN {
        let parent = draws.below(CLIENTS) + 1;
        let child = draws.below(CLIENTS) + 1;
        if register(part, alloc, parent, parent, child) == Some(SinkError::Memory) {
            return place;
        }
    }
    DRAWN
}

/// How many calls of a worked history are answered as they say.
fn worked(alloc: Global, calls: &[Call]) -> usize {
    match sinks_of(alloc) {
        Some(mut part) => answered(&mut part, alloc, calls),
        None => 0,
    }
}

/// How many calls of the drawn history have memory.
fn long(alloc: Global) -> u32 {
    match sinks_of(alloc) {
        Some(mut part) => made(&mut part, alloc),
        None => 0,
    }
}

/// Plays all of them and prints a line for each.
pub(crate) fn play(rt: &HostRuntime) -> Result<()> {
    for (name, calls) in WORKED {
        tell(rt, "sinks", name, worked(rt.alloc(), calls), calls.len())?;
    }
    tell(
        rt,
        "sinks",
        "drawn",
        long(rt.alloc()) as usize,
        DRAWN as usize,
    )
}
