//! The events of `demo`.
ghost use Rattle.std.specs.Prelude.{◌≡◌, ◌++◌, IfOk, OnOk, replicate};
ghost use Rattle.vz_rules.specs.declared.entry.Event.TheVariants as event;
ghost use Rattle.viz_run.specs.Demo.{demo_events, round, four};

use std::alloc::Global;
use vz_base::Memory;
use vz_rules::Event;

/// How many messages a child sends in a round.
const MESSAGES: u32 = 4;

/// The events of `demo` for this number of rounds: the page's messages, and then for each round a
/// begin-frame, the messages of both children, a drawing, and its Done.
pub fn demo_events(alloc: Global, rounds: u32) -> Result<Vec<Event>, Memory>
    ensures { IfOk result (λ events. events.items ≡ demo_events rounds) }
{
    let mut events = Vec::new(alloc);
    push_messages(&mut events, 1)?;
    for _ in 0..rounds {
        push_round(&mut events)?;
    }
    Ok(events)
}

/// Appends the events of a round.
fn push_round(events: &mut Vec<Event>) -> Result<(), Memory>
    ensures { OnOk result (events.new.items ≡ events.old.items ++ round) }
{
    events.push(Event::Begin)?;
    push_messages(events, 2)?;
    push_messages(events, 3)?;
    events.push(Event::Draw)?;
    events.push(Event::Done)?;
    Ok(())
}

/// Appends the events for the messages that a client sends in a round.
fn push_messages(events: &mut Vec<Event>, client: u32) -> Result<(), Memory>
    ensures { OnOk result (events.new.items ≡ events.old.items ++ four client) }
{
    for _ in 0..MESSAGES {
        events.push(Event::Client(client))?;
    }
    Ok(())
}
