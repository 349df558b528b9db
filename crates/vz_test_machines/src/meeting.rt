//! A gate at which two clients and the display meet.
use crate::call::status_through;
use crate::gate::TestGate;
use std::sync::atomic::{AtomicBool, Ordering};
use std::thread;

/// How often a thread yields at most while it waits for another one.
const MOST_TURNS: u32 = 100_000;

/// A `run` of two files.
const RUN: &str = "run 4 2 1 f l a b";

/// The `turns` of two files.
const TURNS: &str = "turns 4 2 1 a b";

/// The file of client 1, with the sink (1, 1) and one message, a Reclaim.
const FIRST: [u8; 19] = [
    0x56, 0x49, 0x5a, 0x43, 1, 0, 1, 0, 0, 0, 1, 0, 0, 0, 1, 0, 0, 0, 4,
];

/// The file of client 2, with the sink (2, 1) and one message, a Reclaim.
const SECOND: [u8; 19] = [
    0x56, 0x49, 0x5a, 0x43, 1, 0, 2, 0, 0, 0, 1, 0, 0, 0, 1, 0, 0, 0, 4,
];

/// A gate at which the first step of client 1 waits until that of client 2 has begun, and the other
/// way round, and the first step of the display waits for both.
#[derive(Drop)]
pub struct MeetingGate {
    first_came: AtomicBool,
    second_came: AtomicBool,
    /// A thread waited in vain.
    missed: AtomicBool,
}

impl MeetingGate {
    fn new() -> Self {
        MeetingGate {
            first_came: AtomicBool::new(false),
            second_came: AtomicBool::new(false),
            missed: AtomicBool::new(false),
        }
    }

    /// Whether both clients came, and none waited in vain.
    pub fn all_met(&self) -> bool {
        let both = came(&self.first_came) && came(&self.second_came);
        both && !came(&self.missed)
    }

    /// Takes a call before a step: the first step of each is where it waits.
    pub fn before(&self, actor: u32, turn: u64) {
        match (actor, turn) {
            (0, 1) => self.wait_for_both(),
            (1, 1) => self.meet(&self.first_came, &self.second_came),
            (2, 1) => self.meet(&self.second_came, &self.first_came),
            _ => {}
        }
    }

    /// Tells that a client came, and waits for the other one.
    fn meet(&self, own: &AtomicBool, other: &AtomicBool) {
        own.store(true, Ordering::SeqCst);
        self.wait_for(other);
    }

    /// Waits for both clients.
    fn wait_for_both(&self) {
        self.wait_for(&self.first_came);
        self.wait_for(&self.second_came);
    }

    /// Waits until a mark is set.
    fn wait_for(&self, mark: &AtomicBool) {
        for _ in 0..MOST_TURNS {
            if came(mark) {
                return;
            }
            thread::yield_now();
        }
        self.missed.store(true, Ordering::SeqCst);
    }
}

/// Whether a mark is set.
fn came(mark: &AtomicBool) -> bool {
    mark.load(Ordering::SeqCst)
}

#[test]
fn each_client_has_a_thread(rt: HostRuntime) {
    let files = [("a", FIRST.as_slice()), ("b", SECOND.as_slice())];
    let gate = TestGate::Meeting(MeetingGate::new());
    let status = status_through(&rt, RUN, files.as_slice(), &gate);
    assert!(rt; status == Some(0) && gate.is_content());
}

#[test]
fn each_client_of_turns_has_a_thread(rt: HostRuntime) {
    let files = [("a", FIRST.as_slice()), ("b", SECOND.as_slice())];
    let gate = TestGate::Meeting(MeetingGate::new());
    let status = status_through(&rt, TURNS, files.as_slice(), &gate);
    assert!(rt; status == Some(0) && gate.is_content());
}
