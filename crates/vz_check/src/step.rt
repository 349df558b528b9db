//! Steps of the plain machine.
ghost use Rattle.std.specs.Prelude.{◌≡◌, IfOk, OnOk};
ghost use Rattle.std.specs.Option.{option_map};
ghost use Rattle.vz_rules.specs.Step.{step_in, entry_in, NamesClient};
ghost use Rattle.vz_slow.specs.Drawn.{drawn_picture};
ghost use Rattle.vz_check.specs.Judged.{is_drawing};

use vz_base::Memory;
use vz_pixels::Pixel;
use vz_rules::{Entry, Event};
use vz_slow::Slow;

/// Takes an event, and returns the entry that the machine makes and, for a drawing, its pixels
/// row by row. Condition: a client's event names a client of the plan.
pub(crate) fn take(
    machine: &mut Slow<'_>,
    event: Event,
) -> Result<(Entry, Option<Vec<Pixel>>), Memory>
    requires { NamesClient machine.old.plan event }
    ensures entry { IfOk result (λ r. r.0 ≡ entry_in machine.old.plan machine.old.world event) }
    ensures picture { IfOk result (λ r. option_map (λ v. v.items) r.1
        ≡ drawn_picture machine.old.plan machine.old.world r.0.reply) }
    ensures world { OnOk result (machine.new.world
        ≡ (step_in machine.old.plan machine.old.world event).world) }
    ensures plan { machine.new.plan ≡ machine.old.plan }
{
    if is_drawing(event) {
        let (reply, effects, pixels) = machine.draw_picture()?;
        let made = Entry {
            event,
            reply,
            effects,
        };
        return Ok((made, pixels));
    }
    let (reply, effects) = machine.step(event)?;
    let made = Entry {
        event,
        reply,
        effects,
    };
    Ok((made, None))
}

/// Whether an event is a drawing.
fn is_drawing(event: Event) -> bool
    ensures { result ≡ is_drawing event }
{
    match event {
        Event::Draw => true,
        _ => false,
    }
}
