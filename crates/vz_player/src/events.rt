//! The events of a plan.
ghost use Rattle.std.specs.Prelude.{◌↔◌, IsTrue};
ghost use Rattle.vz_rules.specs.Step.{NamesClient};

use vz_rules::{Event, Plan};

/// Whether an event is the display's, or that of a client of the plan.
pub fn is_of_plan(plan: &Plan, event: Event) -> bool
    ensures { IsTrue result ↔ NamesClient plan.now event }
{
    match event {
        Event::Client(client) => 0 < client && client as usize <= plan.files().len(),
        _ => true,
    }
}
