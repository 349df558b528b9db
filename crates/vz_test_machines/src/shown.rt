//! A gate and a shelf that show that a frame is written before the display calls Done.
use crate::call::status_through;
use crate::gate::TestGate;
use crate::piped::ONE_QUAD;
use std::sync::atomic::{AtomicBool, Ordering};
use std::thread;

/// How often a thread yields at most while it waits for another one.
const MOST_TURNS: u32 = 100_000;

/// A `run` of one file with one round: a begin-frame, a drawing and Done.
const RUN: &str = "run 4 2 1 f l a";

/// A gate at which the display waits for its client's root, and which knows whether a frame was
/// written before the display's third step.
#[derive(Drop)]
pub struct ShownGate {
    /// The client made its second step, which names the root.
    rooted: AtomicBool,
    wrote: AtomicBool,
    /// The display waited in vain, or called Done before the frame was written.
    missed: AtomicBool,
}

impl ShownGate {
    fn new() -> Self {
        ShownGate {
            rooted: AtomicBool::new(false),
            wrote: AtomicBool::new(false),
            missed: AtomicBool::new(false),
        }
    }

    /// Whether the frame was written before Done.
    pub fn all_met(&self) -> bool {
        self.wrote.load(Ordering::SeqCst) && !self.missed.load(Ordering::SeqCst)
    }

    /// Takes a call before a step of the display.
    pub fn before(&self, actor: u32, turn: u64) {
        match (actor, turn) {
            (0, 1) => self.wait_for_root(),
            (0, 3) => self.check_written(),
            _ => {}
        }
    }

    /// Takes a call after a step of the client.
    pub fn after(&self, actor: u32, turn: u64) {
        if actor == 1 && turn == 2 {
            self.rooted.store(true, Ordering::SeqCst);
        }
    }

    /// Takes a call before a write.
    pub fn write(&self) {
        self.wrote.store(true, Ordering::SeqCst);
    }

    fn wait_for_root(&self) {
        for _ in 0..MOST_TURNS {
            if self.rooted.load(Ordering::SeqCst) {
                return;
            }
            thread::yield_now();
        }
        self.missed.store(true, Ordering::SeqCst);
    }

    fn check_written(&self) {
        if !self.wrote.load(Ordering::SeqCst) {
            self.missed.store(true, Ordering::SeqCst);
        }
    }
}

#[test]
fn a_frame_is_shown_before_it_ends(rt: HostRuntime) {
    let files = [("a", ONE_QUAD.as_slice())];
    let gate = TestGate::Shown(ShownGate::new());
    let status = status_through(&rt, RUN, files.as_slice(), &gate);
    assert!(rt; status == Some(0) && gate.is_content());
}
