//! A step stands between the two calls of a gate that tell of it.
use std::sync::atomic::{AtomicU32, Ordering};
use vz_outside::{Gate, Turn, gated};

/// Nothing was told of the step.
const NONE: u32 = 0;

/// The gate was told before the step.
const BEFORE: u32 = 1;

/// The step was taken.
const TAKEN: u32 = 2;

/// The gate was told after the step.
const AFTER: u32 = 3;

/// Something came out of this order.
const OTHER: u32 = 4;

/// The one step that is taken.
const STEP: Turn = Turn {
    actor: 3,
    number: 7,
};

/// A gate that keeps how far a step is.
#[derive(Drop)]
struct StageGate {
    stage: AtomicU32,
}

impl StageGate {
    /// Goes on from one stage to the next.
    fn pass(&self, from: u32, to: u32) {
        let stage = if self.stage.load(Ordering::SeqCst) == from {
            to
        } else {
            OTHER
        };
        self.stage.store(stage, Ordering::SeqCst);
    }
}

impl Gate for StageGate {
    ghost told = { λ _ _. Unit {0} };

    fn before(&self, actor: u32, turn: u64) {
        let is_told = actor == STEP.actor && turn == STEP.number;
        self.pass(NONE, if is_told { BEFORE } else { OTHER });
    }

    fn after(&self, actor: u32, turn: u64) {
        let is_told = actor == STEP.actor && turn == STEP.number;
        self.pass(TAKEN, if is_told { AFTER } else { OTHER });
    }
}

#[test]
fn a_step_stands_between_both_calls(rt: HostRuntime) {
    let gate = StageGate {
        stage: AtomicU32::new(NONE),
    };
    let mut taken = false;
    gated(&gate, STEP, &mut taken, |taken| {
        gate.pass(BEFORE, TAKEN);
        *taken = true;
    });
    assert!(rt; taken && gate.stage.load(Ordering::SeqCst) == AFTER);
}
