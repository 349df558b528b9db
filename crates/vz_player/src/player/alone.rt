//! Taking events without a runtime.
ghost use Rattle.std.specs.Prelude.{◌≡◌, ◌+◌, false, is_some, IfOk, IfSome, OnOk, OnErr};
ghost use Rattle.std.specs.Option.{option_map};
ghost use Rattle.vz_rules.specs.declared.entry.Event.TheVariants as event;
ghost use Rattle.vz_rules.specs.Step.{NamesClient};
ghost use Rattle.vz_player.specs.Gated.{IsGated};
ghost use Rattle.vz_player.specs.Played.{played_on, painted_by, Shows, Costs, Writes, StopsAt};

use crate::Player;
use crate::actors::DISPLAY;
use crate::take::draw_gated;
use std::alloc::Global;
use std::sync::ledger::Ledger;
use vz_base::Memory;
use vz_buffers::Steps;
use vz_display::Display;
use vz_machine::{Machine, Picture};
use vz_outside::Gate;
use vz_rules::Event;

impl<M: Machine + Drop> Player<M>
where
    M::Picture: Drop,
{
    /// Takes an event as `turn` does, and paints on the caller's thread alone. So it needs no
    /// runtime, and a static library can call it.
    pub fn turn_alone<G: Gate, L: Ledger>(
        &mut self,
        alloc: Global,
        gate: &G,
        event: Event,
        steps: &mut Steps<L>,
    ) -> Result<bool, Memory>
        requires going { self.old.stopped ≡ false }
        requires named { NamesClient self.old.plan event }
        ensures taken { OnOk result (self.new ≡ played_on self.old event) }
        ensures written { IfOk result (λ drawn. Writes self.old self.new drawn) }
        ensures counted { OnOk result
            (steps.new + painted_by self.old ≡ steps.old + painted_by self.new) }
        ensures err { OnErr result (StopsAt self.old event self.new) }
        ensures gated { IsGated (G.told gate.now) self.old.history self.new.history }
    {
        match event {
            Event::Client(client) => self.take_client(alloc, gate, client),
            Event::Draw => self.draw_alone(alloc, gate, steps),
            _ => self.take_plain(alloc, gate, event),
        }
    }

    // Draws, and shows the picture if one is drawn, on the caller's thread. It is a separate
    // function, as at its beginning it clears the room for a picture.
    #[inline(never)]
    fn draw_alone<G: Gate, L: Ledger>(
        &mut self,
        alloc: Global,
        gate: &G,
        steps: &mut Steps<L>,
    ) -> Result<bool, Memory>
        requires going { self.old.stopped ≡ false }
        ensures taken { OnOk result (self.new ≡ played_on self.old event.Draw) }
        ensures written { IfOk result (λ drawn. Writes self.old self.new drawn) }
        ensures counted { OnOk result
            (steps.new + painted_by self.old ≡ steps.old + painted_by self.new) }
        ensures err { OnErr result (StopsAt self.old event.Draw self.new) }
        ensures gated { IsGated (G.told gate.now) self.old.history self.new.history }
    {
        self.history.reserve(1)?;
        let turn = self.actors.next_turn(DISPLAY);
        let (entry, picture) = draw_gated(alloc, gate, turn, &mut self.machine)?;
        self.history.put(entry);
        self.actors.count(DISPLAY);
        self.stopped = true;
        let drawn = show_some_alone(alloc, picture, &mut self.display, steps)?;
        self.stopped = false;
        Ok(drawn)
    }
}

/// Shows the picture as `show_some` does, and paints on the caller's thread alone.
fn show_some_alone<P: Picture + Drop, L: Ledger>(
    alloc: Global,
    picture: Option<P>,
    display: &mut Display,
    steps: &mut Steps<L>,
) -> Result<bool, Memory>
    requires { IfSome picture (λ p. (P.pictured p).size ≡ display.old.shown.turns.size) }
    ensures display { OnOk result (Shows P.pictured picture display.old.shown display.new.shown) }
    ensures counted { OnOk result (Costs P.pictured picture display.old.shown steps.old steps.new) }
    ensures drawn { IfOk result (λ drawn. drawn ≡ is_some (option_map P.pictured picture)) }
{
    let Some(picture) = picture else {
        return Ok(false);
    };
    let thin = picture.occlude(alloc)?;
    display.show_alone(alloc, &thin, steps)?;
    Ok(true)
}
