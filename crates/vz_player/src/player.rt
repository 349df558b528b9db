//! The player.
ghost use Rattle.std.specs.Prelude.{◌≡◌, ◌+◌, ◌≤◌, ◌++◌, ◌∷◌, [], true, false, length, IfOk, OnOk, OnErr, List as Row};
ghost use Rattle.vz_base.specs.declared.limits.TheConstants.{MOST_FILES};
ghost use Rattle.vz_geom.specs.Display.{IsDisplaySize};
ghost use Rattle.vz_pixels.specs.Colour.{Colour};
ghost use Rattle.vz_buffers.specs.Canvas.{pixel_count};
ghost use Rattle.vz_rules.specs.declared.entry.Event.TheVariants as event;
ghost use Rattle.vz_rules.specs.World.{opening};
ghost use Rattle.vz_rules.specs.Step.{NamesClient, Legal, world};
ghost use Rattle.vz_rules.specs.Log.{rest_of};
ghost use Rattle.vz_display.specs.Displayed.{current, buffer_with, display_at};
ghost use Rattle.vz_player.specs.Gated.{IsGated};
ghost use Rattle.vz_player.specs.Played.{is_plain, first_played, played_at, played_on, machine_of, display_of, frames_of, painted_by, Writes, StopsAt};

mod alone;

use crate::actors::{Actors, DISPLAY, actor_of};
use crate::show::show_some;
use crate::take::{client_gated, draw_gated, take_gated};
use std::alloc::Global;
use std::marker::Model;
use std::sync::ledger::Ledger;
use std::thread::Threads;
use vz_base::Memory;
use vz_base::limits::MOST_BUFFERS;
use vz_buffers::Steps;
use vz_display::Display;
use vz_frame::{List, Room};
use vz_geom::Size;
use vz_machine::Machine;
use vz_outside::Gate;
use vz_rules::{Entry, Event, Rest};

/// A machine with its history so far, and a display that shows what the machine draws.
#[derive(Drop)]
pub struct Player<M: Machine + Drop> {
    machine: M,
    display: Display,
    history: Room<Entry>,
    actors: Actors,
    buffers: u32,
    stopped: bool,
}

impl<M: Machine + Drop> Model for Player<M> {
    ghost use Rattle.vz_player.specs.declared.actors.TheConstants.{MOST_ACTORS};
    ghost use Rattle.vz_player.specs.Played.{Played, IsPlayed, HasCounted};

    ghost Value = { Played };

    ghost view = { λ p. record {
      plan = (M.state p.machine).plan;
      history = p.history.list;
      buffers = p.buffers;
      stopped = p.stopped;
    } };

    ghost invariant = { λ p. IsPlayed (M.state p.machine) p.display.shown (record {
      plan = (M.state p.machine).plan;
      history = p.history.list;
      buffers = p.buffers;
      stopped = p.stopped;
    }) × HasCounted MOST_ACTORS p.history.list p.actors };
}

impl<M: Machine + Drop> Player<M> {
    /// Makes a player before the first event, with room for the entries of `events` events if that
    /// can be allocated; if not, each entry makes its own room. Conditions: the machine is in the
    /// opening world of its plan, which has at most `MOST_FILES` files and a display of this
    /// size, and there are 1 to `MOST_BUFFERS` buffers.
    pub fn new(alloc: Global, machine: M, size: Size, buffers: u32, events: usize) -> Player<M>
        requires opening { (M.state machine).world ≡ opening (M.state machine).plan }
        requires files { length (M.state machine).plan.files ≤ MOST_FILES }
        requires size { (M.state machine).plan.size ≡ size }
        requires sides { IsDisplaySize size }
        requires from { 1 ≤ buffers }
        requires upto { buffers ≤ MOST_BUFFERS }
        ensures { result ≡ first_played (M.state machine).plan buffers }
    {
        let mut history = Room::new(alloc);
        let _ = history.reserve(events);
        Player {
            machine,
            display: Display::new(size, buffers),
            history,
            actors: Actors::new(),
            buffers,
            stopped: false,
        }
    }

    /// Makes a player that continues a history made elsewhere. It takes no memory. Conditions:
    /// the history is legal and the machine is in the world after it, its plan has at most
    /// `MOST_FILES` files and a size that a display may have, there is at least 1 buffer, and the
    /// display has this number of buffers and is in the state after that history.
    pub fn resume(machine: M, display: Display, history: Room<Entry>, buffers: u32) -> Player<M>
        requires behind { (M.state machine).world ≡ world (M.state machine).plan history.list }
        requires legal { Legal (M.state machine).plan history.list }
        requires files { length (M.state machine).plan.files ≤ MOST_FILES }
        requires sides { IsDisplaySize (M.state machine).plan.size }
        requires from { 1 ≤ buffers }
        requires display { display.shown ≡ display_at (M.state machine).plan history.list buffers }
        ensures { result ≡ played_at (M.state machine).plan history.list buffers }
    {
        let actors = Actors::after(history.as_slice());
        Player {
            machine,
            display,
            history,
            actors,
            buffers,
            stopped: false,
        }
    }

    /// Takes an event with the gate around it, appends its entry to the history, and shows the
    /// picture if one is drawn. It returns true if a frame was drawn. Conditions: no failed
    /// allocation has stopped the player, and a client's event names a client of the plan. The
    /// only error is `Memory`. After it the history is the one before or has the event's entry
    /// too, and only the history may still be used.
    pub fn turn<G: Gate, L: Ledger, R: Threads + Sync>(
        &mut self,
        rt: &R,
        alloc: Global,
        gate: &G,
        event: Event,
        steps: &mut Steps<L>,
    ) -> Result<bool, Memory>
    where
        M::Picture: Drop,
        requires going { self.old.stopped ≡ false }
        requires named { NamesClient self.old.plan event }
        ensures taken { OnOk result (self.new ≡ played_on self.old event) }
        ensures written { IfOk result (λ drawn. Writes self.old self.new drawn) }
        ensures counted { OnOk result
            (steps.new + painted_by self.old ≡ steps.old + painted_by self.new) }
        ensures err { OnErr result (StopsAt self.old event self.new) }
        ensures gated { IsGated (G.told gate.now) self.old.history self.new.history }
    {
        match event {
            Event::Client(client) => self.take_client(alloc, gate, client),
            Event::Draw => self.draw(rt, alloc, gate, steps),
            _ => self.take_plain(alloc, gate, event),
        }
    }

    // Takes a client's event, which draws no frame. Most events of a run are of clients, so it
    // has a separate path, on which the step goes directly into the history.
    fn take_client<G: Gate>(&mut self, alloc: Global, gate: &G, client: u32) -> Result<bool, Memory>
        requires going { self.old.stopped ≡ false }
        requires named { NamesClient self.old.plan (event.Client client) }
        ensures taken { OnOk result (self.new ≡ played_on self.old (event.Client client)) }
        ensures written { IfOk result (λ drawn. Writes self.old self.new drawn) }
        ensures counted { OnOk result (painted_by self.old ≡ painted_by self.new) }
        ensures err { OnErr result (StopsAt self.old (event.Client client) self.new) }
        ensures gated { IsGated (G.told gate.now) self.old.history self.new.history }
    {
        self.history.reserve(1)?;
        let turn = self.actors.next_turn(client);
        let taken = client_gated(alloc, gate, turn, &mut self.machine, client)?;
        self.history.put(taken);
        self.actors.count(client);
        Ok(false)
    }

    // Takes an event of the display other than a drawing, which draws no frame. It is a separate
    // function, as at its beginning it clears the room for the steps of all such events.
    #[inline(never)]
    fn take_plain<G: Gate>(&mut self, alloc: Global, gate: &G, event: Event) -> Result<bool, Memory>
        requires going { self.old.stopped ≡ false }
        requires named { NamesClient self.old.plan event }
        requires plain { is_plain event ≡ true }
        ensures taken { OnOk result (self.new ≡ played_on self.old event) }
        ensures written { IfOk result (λ drawn. Writes self.old self.new drawn) }
        ensures counted { OnOk result (painted_by self.old ≡ painted_by self.new) }
        ensures err { OnErr result (StopsAt self.old event self.new) }
        ensures gated { IsGated (G.told gate.now) self.old.history self.new.history }
    {
        self.history.reserve(1)?;
        let actor = actor_of(event);
        let turn = self.actors.next_turn(actor);
        let plain = take_gated(alloc, gate, turn, &mut self.machine, event)?;
        self.history.put(plain);
        self.actors.count(actor);
        Ok(false)
    }

    // Draws, and shows the picture if one is drawn. It is a separate function, as at its
    // beginning it clears the room for a picture.
    #[inline(never)]
    fn draw<G: Gate, L: Ledger, R: Threads + Sync>(
        &mut self,
        rt: &R,
        alloc: Global,
        gate: &G,
        steps: &mut Steps<L>,
    ) -> Result<bool, Memory>
    where
        M::Picture: Drop,
        requires going { self.old.stopped ≡ false }
        ensures taken { OnOk result (self.new ≡ played_on self.old event.Draw) }
        ensures written { IfOk result (λ drawn. Writes self.old self.new drawn) }
        ensures counted { OnOk result
            (steps.new + painted_by self.old ≡ steps.old + painted_by self.new) }
        ensures err { OnErr result (StopsAt self.old event.Draw self.new) }
        ensures gated { IsGated (G.told gate.now) self.old.history self.new.history }
    {
        self.history.reserve(1)?;
        let turn = self.actors.next_turn(DISPLAY);
        let (entry, picture) = draw_gated(alloc, gate, turn, &mut self.machine)?;
        self.history.put(entry);
        self.actors.count(DISPLAY);
        self.stopped = true;
        let drawn = show_some(rt, alloc, picture, &mut self.display, steps)?;
        self.stopped = false;
        Ok(drawn)
    }

    /// The history so far, in order.
    pub fn history(&self) -> &[Entry]
        ensures value { result.now ≡ self.now.history }
        ensures legal { Legal self.now.plan self.now.history }
    {
        self.history.as_slice()
    }

    /// Returns the history and drops the rest of the player. It takes no memory.
    pub fn into_history(self) -> List<Entry>
        ensures value { result ≡ self.history }
        ensures legal { Legal self.plan self.history }
    {
        self.history.into_list()
    }

    /// The display. Its current buffer has the last written frame, with a pixel for each point.
    /// Condition: no failed allocation has stopped the player.
    pub fn display(&self) -> &Display
        requires { self.now.stopped ≡ false }
        ensures value { result.now.shown ≡ display_of self.now }
        ensures size { result.now.shown.turns.size ≡ self.now.plan.size }
        ensures current { (earlier : Row (Row Colour)) (frame : Row Colour)
            → frames_of self.now ≡ earlier ++ frame ∷ []
            → current result.now.shown ≡ buffer_with self.now.plan.size frame }
        ensures whole { (earlier : Row (Row Colour)) (frame : Row Colour)
            → frames_of self.now ≡ earlier ++ frame ∷ []
            → length frame ≡ pixel_count self.now.plan.size }
    {
        &self.display
    }

    /// The machine, in the world after the history.
    pub fn machine(&self) -> &M
        ensures { M.state result.now ≡ machine_of self.now }
    {
        &self.machine
    }

    /// What is outstanding: the references that were not given back, and the submissions without
    /// feedback. The only error is `Memory`.
    pub fn rest(&self, alloc: Global) -> Result<Rest, Memory>
        ensures { IfOk result (λ rest. rest ≡ rest_of self.now.plan self.now.history) }
    {
        Ok(self.machine.rest(alloc)?)
    }
}
