//! A gate that knows which calls must come.
use crate::call::status_through;
use crate::gate::{Side, TestGate};
use std::sync::Wait;
use std::sync::atomic::{AtomicBool, AtomicUsize, Ordering};
use std::thread::Threads;

/// A `step` on a file without a message.
const STEP: &str = "step 4 2 s f l a";

/// A `hit` on the same files.
const HIT: &str = "hit 4 2 s 1 1 a";

/// The file of a client without a message: the magic, the version, the sink (1, 1) and the count.
const NO_MESSAGE: [u8; 18] = [
    0x56, 0x49, 0x5a, 0x43, 1, 0, 1, 0, 0, 0, 1, 0, 0, 0, 0, 0, 0, 0,
];

/// A message of the client, a begin-frame, another message, and a drawing.
const SCHEDULE: [u8; 4] = [0x01, 0x11, 0x01, 0x12];

/// What the gate must be told: each of the four steps, before it and after it, as whose step it is
/// (of the display, 0, or of the client) and which of that actor's steps.
const DUE: [(u32, u64, Side); 8] = [
    (1, 1, Side::Before),
    (1, 1, Side::After),
    (0, 1, Side::Before),
    (0, 1, Side::After),
    (1, 2, Side::Before),
    (1, 2, Side::After),
    (0, 2, Side::Before),
    (0, 2, Side::After),
];

/// A gate that counts its calls, and marks one that is not due.
#[derive(Drop)]
pub struct OrderGate {
    calls: AtomicUsize,
    other: AtomicBool,
}

impl OrderGate {
    fn new() -> Self {
        OrderGate {
            calls: AtomicUsize::new(0),
            other: AtomicBool::new(false),
        }
    }

    /// Takes a call.
    pub fn call(&self, actor: u32, turn: u64, side: Side) {
        let place = self.calls.fetch_add(1, Ordering::SeqCst);
        if DUE.get(place) != Some(&(actor, turn, side)) {
            self.other.store(true, Ordering::SeqCst);
        }
    }

    /// Whether exactly what is due was told.
    pub fn is_told(&self) -> bool {
        let other = self.other.load(Ordering::SeqCst);
        self.calls.load(Ordering::SeqCst) == DUE.len() && !other
    }
}

/// Whether a command on the schedule and the file ends well, and tells the gate exactly what is due.
fn tells_what_is_due<R: Threads + Wait + AllocGlobal + Sync>(rt: &R, line: &str) -> bool {
    let files = [("s", SCHEDULE.as_slice()), ("a", NO_MESSAGE.as_slice())];
    let gate = TestGate::Order(OrderGate::new());
    let status = status_through(rt, line, files.as_slice(), &gate);
    status == Some(0) && gate.is_content()
}

#[test]
fn the_gate_is_round_each_step(rt: HostRuntime) {
    assert!(rt; tells_what_is_due(&rt, STEP));
}

#[test]
fn the_gate_is_round_each_step_of_a_hit(rt: HostRuntime) {
    assert!(rt; tells_what_is_due(&rt, HIT));
}
