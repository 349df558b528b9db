//! Gives events to a machine, and makes their entries.
ghost use Rattle.std.specs.Prelude.{◌≡◌, true, None, IfOk, OnOk, OnErr};
ghost use Rattle.std.specs.Option.{option_map};
ghost use Rattle.vz_rules.specs.declared.entry.Event.TheVariants as event;
ghost use Rattle.vz_rules.specs.Step.{entry_in, NamesClient};
ghost use Rattle.vz_machine.specs.Stepping.{Goes, ShowsDrawn};
ghost use Rattle.vz_outside.specs.Told.{IsTold};
ghost use Rattle.vz_player.specs.Played.{is_plain};

use std::alloc::Global;
use vz_base::Memory;
use vz_machine::{Machine, Step};
use vz_outside::{Gate, Turn, gated};
use vz_rules::{Entry, Event};

/// Takes a client's event with the gate around it, and returns its entry. Condition: the plan has
/// the client. The only error is `Memory`, and then the machine is unchanged.
pub fn client_gated<M: Machine, G: Gate>(
    alloc: Global,
    gate: &G,
    turn: Turn,
    machine: &mut M,
    client: u32,
) -> Result<Entry, Memory>
    requires { NamesClient (M.state machine.old).plan (event.Client client) }
    ensures entry { IfOk result (λ e.
        e ≡ entry_in (M.state machine.old).plan (M.state machine.old).world (event.Client client)) }
    ensures picture { IfOk result (λ e. ShowsDrawn (M.state machine.old) e.reply None) }
    ensures world { OnOk result
        (Goes (M.state machine.old) (event.Client client) (M.state machine.new)) }
    ensures err { OnErr result (M.state machine.new ≡ M.state machine.old) }
    ensures told { IsTold (G.told gate.now) turn.actor turn.number }
{
    gated(
        gate,
        turn,
        machine,
        |machine|
            requires { NamesClient (M.state machine.now).plan (event.Client client) }
        { take_client(alloc, machine, client) },
    )
}

/// Takes a client's event, and returns its entry. Condition: the plan has the client. The only
/// error is `Memory`, and then the machine is unchanged.
fn take_client<M: Machine>(alloc: Global, machine: &mut M, client: u32) -> Result<Entry, Memory>
    requires { NamesClient (M.state machine.old).plan (event.Client client) }
    ensures entry { IfOk result (λ e.
        e ≡ entry_in (M.state machine.old).plan (M.state machine.old).world (event.Client client)) }
    ensures picture { IfOk result (λ e. ShowsDrawn (M.state machine.old) e.reply None) }
    ensures world { OnOk result
        (Goes (M.state machine.old) (event.Client client) (M.state machine.new)) }
    ensures err { OnErr result (M.state machine.new ≡ M.state machine.old) }
{
    let step = machine.client(alloc, client)?;
    Ok(entry_of(Event::Client(client), step))
}

/// Takes an event of the display other than a drawing, with the gate around it, and returns its
/// entry. The only error is `Memory`, and then the machine is unchanged.
pub fn take_gated<M: Machine, G: Gate>(
    alloc: Global,
    gate: &G,
    turn: Turn,
    machine: &mut M,
    event: Event,
) -> Result<Entry, Memory>
    requires { is_plain event ≡ true }
    ensures entry { IfOk result (λ e.
        e ≡ entry_in (M.state machine.old).plan (M.state machine.old).world event) }
    ensures picture { IfOk result (λ e. ShowsDrawn (M.state machine.old) e.reply None) }
    ensures world { OnOk result (Goes (M.state machine.old) event (M.state machine.new)) }
    ensures err { OnErr result (M.state machine.new ≡ M.state machine.old) }
    ensures told { IsTold (G.told gate.now) turn.actor turn.number }
{
    gated(
        gate,
        turn,
        machine,
        |machine|
            requires { is_plain event ≡ true }
        { take(alloc, machine, event) },
    )
}

/// Takes an event of the display other than a drawing, and returns its entry. The only error is
/// `Memory`, and then the machine is unchanged.
fn take<M: Machine>(alloc: Global, machine: &mut M, event: Event) -> Result<Entry, Memory>
    requires { is_plain event ≡ true }
    ensures entry { IfOk result (λ e.
        e ≡ entry_in (M.state machine.old).plan (M.state machine.old).world event) }
    ensures picture { IfOk result (λ e. ShowsDrawn (M.state machine.old) e.reply None) }
    ensures world { OnOk result (Goes (M.state machine.old) event (M.state machine.new)) }
    ensures err { OnErr result (M.state machine.new ≡ M.state machine.old) }
{
    match event {
        Event::Client(_) => unreachable!(),
        Event::Begin => Ok(entry_of(event, machine.begin(alloc)?)),
        Event::Draw => unreachable!(),
        Event::Done => Ok(entry_of(event, machine.done())),
        Event::Over => Ok(entry_of(event, machine.over())),
    }
}

/// Draws with the gate around it, and returns the entry, with the picture if there is one. The
/// only error is `Memory`, and then the machine is unchanged.
pub fn draw_gated<M: Machine, G: Gate>(
    alloc: Global,
    gate: &G,
    turn: Turn,
    machine: &mut M,
) -> Result<(Entry, Option<M::Picture>), Memory>
    ensures entry { IfOk result (λ r.
        r.0 ≡ entry_in (M.state machine.old).plan (M.state machine.old).world event.Draw) }
    ensures picture { IfOk result (λ r. ShowsDrawn (M.state machine.old) r.0.reply
        (option_map M.Picture.pictured r.1)) }
    ensures world { OnOk result (Goes (M.state machine.old) event.Draw (M.state machine.new)) }
    ensures err { OnErr result (M.state machine.new ≡ M.state machine.old) }
    ensures told { IsTold (G.told gate.now) turn.actor turn.number }
{
    gated(gate, turn, machine, |machine| { draw(alloc, machine) })
}

/// Draws, and returns the entry, with the picture if there is one. The only error is `Memory`,
/// and then the machine is unchanged.
fn draw<M: Machine>(alloc: Global, machine: &mut M) -> Result<(Entry, Option<M::Picture>), Memory>
    ensures entry { IfOk result (λ r.
        r.0 ≡ entry_in (M.state machine.old).plan (M.state machine.old).world event.Draw) }
    ensures picture { IfOk result (λ r. ShowsDrawn (M.state machine.old) r.0.reply
        (option_map M.Picture.pictured r.1)) }
    ensures world { OnOk result (Goes (M.state machine.old) event.Draw (M.state machine.new)) }
    ensures err { OnErr result (M.state machine.new ≡ M.state machine.old) }
{
    let (step, picture) = machine.draw(alloc)?;
    Ok((entry_of(Event::Draw, step), picture))
}

/// The entry of an event.
fn entry_of(event: Event, step: Step) -> Entry
    ensures { result ≡ record { event = event; reply = step.reply; effects = step.effects } }
{
    Entry {
        event,
        reply: step.reply,
        effects: step.effects,
    }
}
