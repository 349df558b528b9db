//! A machine's step for an event of any kind, and its entry.
ghost use Rattle.std.specs.Prelude.{◌≡◌, IfOk, OnOk, OnErr};
ghost use Rattle.vz_rules.specs.Step.{NamesClient};
ghost use Rattle.vz_machine.specs.Stepping.{Answers, Goes};

use std::alloc::Global;
use vz_base::Memory;
use vz_machine::{Machine, Step};
use vz_rules::{Entry, Event};

/// Lets the machine take an event, and drops the picture if it draws. The only error is
/// `Memory`, and then the world is unchanged. Condition: the client of a client's event is one
/// of the plan.
pub(crate) fn step_of<M: Machine>(
    machine: &mut M,
    alloc: Global,
    event: Event,
) -> Result<Step, Memory>
where
    M::Picture: Drop,
    requires { NamesClient (M.state machine.old).plan event }
    ensures answer { IfOk result (λ s. Answers (M.state machine.old) event s) }
    ensures world { OnOk result (Goes (M.state machine.old) event (M.state machine.new)) }
    ensures err { OnErr result (M.state machine.new ≡ M.state machine.old) }
{
    match event {
        Event::Client(client) => machine.client(alloc, client),
        Event::Begin => machine.begin(alloc),
        Event::Draw => {
            let (step, _picture) = machine.draw(alloc)?;
            Ok(step)
        }
        Event::Done => Ok(machine.done()),
        Event::Over => Ok(machine.over()),
    }
}

/// The entry of an event with the step that it led to.
pub(crate) fn entry_of(event: Event, step: Step) -> Entry
    ensures { result ≡ record { event = event; reply = step.reply; effects = step.effects } }
{
    Entry {
        event,
        reply: step.reply,
        effects: step.effects,
    }
}
