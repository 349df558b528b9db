//! Gates, which are called around each step.
ghost use Rattle.std.specs.Fn.{FnOnceReturnsAtMut, FnOnceTakesAtMut};
ghost use Rattle.vz_outside.specs.Told.{Call, Before, After, IsTold};

/// A gate is called before and after each step, while no lock is held. Tests use one to hold a
/// caller back.
pub trait Gate {
    /// What the gate was told, for proofs alone: only a call shows it.
    ghost told: { Self → Call → Type 0 };

    /// Called before a step. Actor 0 is the display, and actor c is client c. `turn` numbers the
    /// steps of that actor from 1.
    fn before(&self, actor: u32, turn: u64)
        ensures { told self.now (Before actor turn) };

    /// Called after that step, with the same numbers.
    fn after(&self, actor: u32, turn: u64)
        requires { told self.now (Before actor turn) }
        ensures { told self.now (After actor turn) };
}

/// A gate that does nothing.
#[derive(Clone, Copy, Debug, PartialEq, Eq)]
pub struct OpenGate;

impl Gate for OpenGate {
    ghost told = { λ _ _. Unit {0} };

    fn before(&self, _actor: u32, _turn: u64) {}

    fn after(&self, _actor: u32, _turn: u64) {}
}

/// The name of a step for a gate: the actor, and which of that actor's steps it is.
#[derive(Clone, Copy, Debug, PartialEq, Eq)]
pub struct Turn {
    /// 0 for the display, or the number of the client.
    pub actor: u32,
    /// Which step of that actor it is, from 1 on. It does not rise above `u64::MAX`.
    pub number: u64,
}

/// Takes a step that changes a state, and calls the gate before and after it. It returns the
/// answer of the step. Condition: after the gate was told, the step may be taken in this state.
pub fn gated<G: Gate, S, T, F: FnOnce(&mut S) -> T>(
    gate: &G,
    turn: Turn,
    state: &mut S,
    step: F,
) -> T
    requires { G.told gate.now (Before turn.actor turn.number)
        → FnOnceTakesAtMut F.FnOnce step state.old }
    ensures answer { FnOnceReturnsAtMut F.FnOnce step state.old result state.new }
    ensures told { IsTold (G.told gate.now) turn.actor turn.number }
{
    gate.before(turn.actor, turn.number);
    let answer = step(state);
    gate.after(turn.actor, turn.number);
    answer
}
