//! A gate that knows how many steps each actor of a command takes. The threads come to it in any
//! order, but each of them makes its own calls one after the other.
use crate::call::status_through;
use crate::gate::{Side, TestGate};
use std::sync::atomic::{AtomicBool, AtomicUsize, Ordering};

/// A `run` of two files, with one begin-frame and nothing to be drawn.
const RUN: &str = "run --paced 4 2 1 f l a b";

/// The steps of the display and of clients 1 to 3 in it: the display begins a frame, draws, ends
/// the begin-frames and draws once more, and each client sends its messages.
const RUN_STEPS: [usize; 4] = [4, 2, 1, 0];

/// The `turns` of two files, with two rounds of the display.
const TURNS: &str = "turns 4 2 2 a b";

/// The steps of each actor in it: a round begins a frame, draws and calls Done.
const TURNS_STEPS: [usize; 4] = [6, 2, 1, 0];

/// The `demo` of one round.
const DEMO: &str = "demo 1";

/// The steps of each actor in it: its three clients send four messages each.
const DEMO_STEPS: [usize; 4] = [3, 4, 4, 4];

/// The file of client 1, with the sink (1, 1) and two messages, a Reclaim each.
const FIRST: [u8; 20] = [
    0x56, 0x49, 0x5a, 0x43, 1, 0, 1, 0, 0, 0, 1, 0, 0, 0, 2, 0, 0, 0, 4, 4,
];

/// The file of client 2, with the sink (2, 1) and one message, an Await.
const SECOND: [u8; 19] = [
    0x56, 0x49, 0x5a, 0x43, 1, 0, 2, 0, 0, 0, 1, 0, 0, 0, 1, 0, 0, 0, 7,
];

/// A gate that counts the calls of each actor, and marks one that is not due.
#[derive(Drop)]
pub struct CourseGate {
    /// How many steps the display and clients 1 to 3 take.
    steps: [usize; 4],
    display: AtomicUsize,
    first: AtomicUsize,
    second: AtomicUsize,
    third: AtomicUsize,
    other: AtomicBool,
}

impl CourseGate {
    /// A gate that was not called.
    pub fn new(steps: [usize; 4]) -> Self {
        CourseGate {
            steps,
            display: AtomicUsize::new(0),
            first: AtomicUsize::new(0),
            second: AtomicUsize::new(0),
            third: AtomicUsize::new(0),
            other: AtomicBool::new(false),
        }
    }

    /// Takes a call: the steps of an actor have the numbers 1, 2 and so on, and of each it is told
    /// before it and after it.
    pub fn call(&self, actor: u32, turn: u64, side: Side) {
        let calls = match actor {
            0 => self.display.fetch_add(1, Ordering::SeqCst),
            1 => self.first.fetch_add(1, Ordering::SeqCst),
            2 => self.second.fetch_add(1, Ordering::SeqCst),
            3 => self.third.fetch_add(1, Ordering::SeqCst),
            _ => usize::MAX,
        };
        if !is_due(calls, turn, side) {
            self.other.store(true, Ordering::SeqCst);
        }
    }

    /// Whether each actor made exactly the calls that are due.
    pub fn is_told(&self) -> bool {
        let display = are_made(&self.display, self.steps[0]);
        let first = are_made(&self.first, self.steps[1]);
        let second = are_made(&self.second, self.steps[2]);
        let third = are_made(&self.third, self.steps[3]);
        display && first && second && third && !self.other.load(Ordering::SeqCst)
    }
}

/// Whether an actor made the calls of so many steps, two each.
fn are_made(calls: &AtomicUsize, steps: usize) -> bool {
    let calls = calls.load(Ordering::SeqCst);
    calls / 2 == steps && calls % 2 == 0
}

/// Whether a call of an actor is due, after so many others of it.
fn is_due(calls: usize, turn: u64, side: Side) -> bool {
    let due = if calls % 2 == 0 {
        Side::Before
    } else {
        Side::After
    };
    calls < usize::MAX && turn == calls as u64 / 2 + 1 && side == due
}

#[test]
fn the_gate_is_round_each_step_of_a_run(rt: HostRuntime) {
    let files = [("a", FIRST.as_slice()), ("b", SECOND.as_slice())];
    let gate = TestGate::Course(CourseGate::new(RUN_STEPS));
    let status = status_through(&rt, RUN, files.as_slice(), &gate);
    assert!(rt; status == Some(0) && gate.is_content());
}

#[test]
fn the_gate_is_round_each_step_of_turns(rt: HostRuntime) {
    let files = [("a", FIRST.as_slice()), ("b", SECOND.as_slice())];
    let gate = TestGate::Course(CourseGate::new(TURNS_STEPS));
    let status = status_through(&rt, TURNS, files.as_slice(), &gate);
    assert!(rt; status == Some(0) && gate.is_content());
}

#[test]
fn the_gate_is_round_each_step_of_a_demo(rt: HostRuntime) {
    let gate = TestGate::Course(CourseGate::new(DEMO_STEPS));
    let status = status_through(&rt, DEMO, [].as_slice(), &gate);
    assert!(rt; status == Some(0) && gate.is_content());
}
