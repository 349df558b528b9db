//! The calls of one caller. The gate is called before and after each.
ghost use Rattle.std.specs.Prelude.{◌≡◌, ◌+◌, ◌*◌, ◌++◌, ◌∷◌, [], OnOk, OnErr};
ghost use Rattle.std.specs.Option.{ForSome};
ghost use Rattle.vz_loans.specs.Tokens.{IsAtRest};
ghost use Rattle.vz_rules.specs.Step.{NamesClient};
ghost use Rattle.vz_callers.specs.Callers.{events_of, Stays, MayCall, MakesCalls};
ghost use Rattle.vz_callers.specs.Callers.{HasTold, IsNext, IsDisplay, Enters};
ghost use Rattle.vz_callers.specs.Turns.{round, rounds};

use std::alloc::AllocGlobal;
use std::sync::Wait;
use vz_base::Memory;
use vz_machine::Machine;
use vz_outside::{Gate, Turn, gated};
use vz_rules::Event;
use vz_turn::{Hub, Pass};

/// What a client's thread gives back.
#[derive(Drop)]
pub(crate) struct Called<M: Machine + Send> {
    /// The client's pass.
    pub(crate) pass: Pass<M>,
    /// How many entries the thread made.
    pub(crate) made: u64,
}

/// Makes a call with the gate around it, which is told that it is the caller's call number `turn`.
/// The only error is `Memory`, and then the call made no entry. Conditions: the pass belongs to
/// the hub and is not in a turn, and the client of a client's event is one of the plan.
fn make_call<M: Machine + Send, G: Gate, R: Wait + AllocGlobal>(
    rt: &R,
    hub: &Hub<M>,
    gate: &G,
    pass: &mut Pass<M>,
    turn: u64,
    event: Event,
) -> Result<(), Memory>
where
    M::Picture: Send + Drop,
    requires ours { IsAtRest hub.now.id pass.old }
    requires client { ForSome pass.old.plan (λ p. NamesClient p event) }
    ensures stays { Stays pass.old pass.new }
    ensures ok { OnOk result (events_of pass.new ≡ events_of pass.old ++ event ∷ []) }
    ensures err { OnErr result (events_of pass.new ≡ events_of pass.old) }
    ensures told { IsNext pass.old turn event
        → HasTold (G.told gate.now) pass.old → HasTold (G.told gate.now) pass.new }
{
    let turn = Turn {
        actor: pass.number(),
        number: turn,
    };
    gated(
        gate,
        turn,
        pass,
        |pass|
            requires ours { IsAtRest hub.now.id pass.now }
            requires client { ForSome pass.now.plan (λ p. NamesClient p event) }
        { enter(rt, hub, pass, event) },
    )
}

/// Makes a call. The only error is `Memory`, and then it made no entry. Conditions: those of
/// `make_call`.
fn enter<M: Machine + Send, R: Wait + AllocGlobal>(
    rt: &R,
    hub: &Hub<M>,
    pass: &mut Pass<M>,
    event: Event,
) -> Result<(), Memory>
where
    M::Picture: Send + Drop,
    requires ours { IsAtRest hub.now.id pass.old }
    requires client { ForSome pass.old.plan (λ p. NamesClient p event) }
    ensures { Enters pass.old pass.new event result }
{
    match hub.call(rt, pass, event) {
        Ok(_) => Ok(()),
        Err(memory) => Err(memory),
    }
}

/// Makes `count` calls for the next message of the pass's client. It stops early if an allocation
/// fails. Conditions: the pass belongs to the hub and is not in a turn, and its number is that of
/// a client of the plan.
pub(crate) fn make_calls<M: Machine + Send, G: Gate, R: Wait + AllocGlobal>(
    rt: &R,
    hub: &Hub<M>,
    gate: &G,
    mut pass: Pass<M>,
    count: u64,
) -> Called<M>
where
    M::Picture: Send + Drop,
    requires { MayCall hub.now.id pass }
    ensures { MakesCalls (G.told gate.now) pass result.pass result.made }
{
    let client = Event::Client(pass.number());
    for made in 0..count {
        if make_call(rt, hub, gate, &mut pass, made + 1, client).is_err() {
            return Called { pass, made };
        }
    }
    Called { pass, made: count }
}

/// Makes a round of the display, which made so many rounds before. The only error is `Memory`.
/// Condition: the pass belongs to the hub and is not in a turn.
fn make_round<M: Machine + Send, G: Gate, R: Wait + AllocGlobal>(
    rt: &R,
    hub: &Hub<M>,
    gate: &G,
    pass: &mut Pass<M>,
    before: u32,
) -> Result<(), Memory>
where
    M::Picture: Send + Drop,
    requires { IsAtRest hub.now.id pass.old }
    ensures stays { Stays pass.old pass.new }
    ensures ok { OnOk result (events_of pass.new ≡ events_of pass.old ++ round) }
    ensures told { IsDisplay (3 * before) pass.old
        → HasTold (G.told gate.now) pass.old → HasTold (G.told gate.now) pass.new }
{
    let turn = 3 * u64::from(before);
    make_call(rt, hub, gate, pass, turn + 1, Event::Begin)?;
    make_call(rt, hub, gate, pass, turn + 2, Event::Draw)?;
    make_call(rt, hub, gate, pass, turn + 3, Event::Done)
}

/// Makes so many rounds of the display. The only error is `Memory`, and then it stops early.
/// Condition: the pass belongs to the hub and is not in a turn.
pub(crate) fn make_rounds<M: Machine + Send, G: Gate, R: Wait + AllocGlobal>(
    rt: &R,
    hub: &Hub<M>,
    gate: &G,
    pass: &mut Pass<M>,
    ticks: u32,
) -> Result<(), Memory>
where
    M::Picture: Send + Drop,
    requires { IsAtRest hub.now.id pass.old }
    ensures stays { Stays pass.old pass.new }
    ensures ok { OnOk result (events_of pass.new ≡ events_of pass.old ++ rounds ticks) }
    ensures told { IsDisplay 0 pass.old → HasTold (G.told gate.now) pass.new }
{
    for before in 0..ticks {
        make_round(rt, hub, gate, pass, before)?;
    }
    Ok(())
}
