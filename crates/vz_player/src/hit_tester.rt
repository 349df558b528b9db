//! The hit tester.
ghost use Rattle.std.specs.Prelude.{◌≡◌, ◌≤◌, true, length, OnOk, OnErr};
ghost use Rattle.vz_base.specs.declared.limits.TheConstants.{MOST_FILES};
ghost use Rattle.vz_rules.specs.declared.entry.Event.TheVariants as event;
ghost use Rattle.vz_rules.specs.World.{opening};
ghost use Rattle.vz_rules.specs.Step.{NamesClient, Legal};
ghost use Rattle.vz_rules.specs.Whole.{hit_last};
ghost use Rattle.vz_machine.specs.Stepping.{IsOnDisplay};
ghost use Rattle.vz_player.specs.Gated.{IsGated};
ghost use Rattle.vz_player.specs.Played.{is_plain};
ghost use Rattle.vz_player.specs.Tested.{first_tested, tested_on, hit_then};

use crate::actors::{Actors, DISPLAY, actor_of};
use crate::take::{client_gated, draw_gated, take_gated};
use std::alloc::Global;
use std::marker::Model;
use vz_base::Memory;
use vz_frame::{List, Room};
use vz_geom::Point;
use vz_ids::SurfaceId;
use vz_machine::Machine;
use vz_outside::Gate;
use vz_rules::{Entry, Event, Reply};

/// A machine with its history so far, and what is hit at one point of the last drawing. It shows
/// nothing.
#[derive(Drop)]
pub struct HitTester<M: Machine + Drop> {
    machine: M,
    history: Room<Entry>,
    actors: Actors,
    point: Point,
    hit: Option<(SurfaceId, Point)>,
}

impl<M: Machine + Drop> Model for HitTester<M> {
    ghost use Rattle.vz_player.specs.declared.actors.TheConstants.{MOST_ACTORS};
    ghost use Rattle.vz_player.specs.Played.{HasCounted};
    ghost use Rattle.vz_player.specs.Tested.{Tested, IsTested};

    ghost Value = { Tested };

    ghost view = { λ t. record {
      plan = (M.state t.machine).plan;
      history = t.history.list;
      point = t.point;
    } };

    ghost invariant = { λ t. IsTested (M.state t.machine) t.hit (record {
      plan = (M.state t.machine).plan;
      history = t.history.list;
      point = t.point;
    }) × HasCounted MOST_ACTORS t.history.list t.actors };
}

impl<M: Machine + Drop> HitTester<M> {
    /// Makes a hit tester before the first event, for a point in pixels from the top left of the
    /// display. It takes no memory. Conditions: the machine is in the opening world of its plan,
    /// which has at most `MOST_FILES` files, and the point is on the display.
    pub fn new(alloc: Global, machine: M, point: Point) -> HitTester<M>
        requires opening { (M.state machine).world ≡ opening (M.state machine).plan }
        requires files { length (M.state machine).plan.files ≤ MOST_FILES }
        requires on { IsOnDisplay (M.state machine) point }
        ensures { result ≡ first_tested (M.state machine).plan point }
    {
        HitTester {
            machine,
            history: Room::new(alloc),
            actors: Actors::new(),
            point,
            hit: None,
        }
    }

    /// Takes an event with the gate around it, and appends its entry to the history. Condition: a
    /// client's event names a client of the plan. The only error is `Memory`, and then nothing
    /// changes.
    pub fn turn<G: Gate>(&mut self, alloc: Global, gate: &G, event: Event) -> Result<(), Memory>
    where
        M::Picture: Drop,
        requires { NamesClient self.old.plan event }
        ensures taken { OnOk result (self.new ≡ tested_on self.old event) }
        ensures err { OnErr result (self.new ≡ self.old) }
        ensures gated { IsGated (G.told gate.now) self.old.history self.new.history }
    {
        match event {
            Event::Client(client) => self.take_client(alloc, gate, client),
            Event::Draw => self.draw(alloc, gate),
            _ => self.take_plain(alloc, gate, event),
        }
    }

    // Takes a client's event, which draws no frame.
    fn take_client<G: Gate>(&mut self, alloc: Global, gate: &G, client: u32) -> Result<(), Memory>
        requires { NamesClient self.old.plan (event.Client client) }
        ensures taken { OnOk result (self.new ≡ tested_on self.old (event.Client client)) }
        ensures err { OnErr result (self.new ≡ self.old) }
        ensures gated { IsGated (G.told gate.now) self.old.history self.new.history }
    {
        self.history.reserve(1)?;
        let turn = self.actors.next_turn(client);
        let taken = client_gated(alloc, gate, turn, &mut self.machine, client)?;
        self.history.put(taken);
        self.actors.count(client);
        Ok(())
    }

    // Takes an event of the display other than a drawing, which draws no frame.
    fn take_plain<G: Gate>(&mut self, alloc: Global, gate: &G, event: Event) -> Result<(), Memory>
        requires named { NamesClient self.old.plan event }
        requires plain { is_plain event ≡ true }
        ensures taken { OnOk result (self.new ≡ tested_on self.old event) }
        ensures err { OnErr result (self.new ≡ self.old) }
        ensures gated { IsGated (G.told gate.now) self.old.history self.new.history }
    {
        self.history.reserve(1)?;
        let actor = actor_of(event);
        let turn = self.actors.next_turn(actor);
        let plain = take_gated(alloc, gate, turn, &mut self.machine, event)?;
        self.history.put(plain);
        self.actors.count(actor);
        Ok(())
    }

    // Draws, drops the picture if there is one, and notes what is hit if a frame is drawn. The
    // machine is asked before it draws, so that want of memory changes nothing.
    fn draw<G: Gate>(&mut self, alloc: Global, gate: &G) -> Result<(), Memory>
    where
        M::Picture: Drop,
        ensures taken { OnOk result (self.new ≡ tested_on self.old event.Draw) }
        ensures err { OnErr result (self.new ≡ self.old) }
        ensures gated { IsGated (G.told gate.now) self.old.history self.new.history }
    {
        self.history.reserve(1)?;
        let now = self.machine.hit(alloc, self.point)?;
        let turn = self.actors.next_turn(DISPLAY);
        let (entry, _picture) = draw_gated(alloc, gate, turn, &mut self.machine)?;
        self.hit = hit_after(now, &entry.reply, self.hit);
        self.history.put(entry);
        self.actors.count(DISPLAY);
        Ok(())
    }

    /// What is hit at the point in the last drawing: the topmost surface there, and the same point
    /// from the top left of that surface. None if nothing is there, or if nothing was drawn yet.
    pub fn hit(&self) -> Option<(SurfaceId, Point)>
        ensures { result ≡ hit_last self.now.plan self.now.history self.now.point }
    {
        self.hit
    }

    /// The history so far, in order.
    pub fn history(&self) -> &[Entry]
        ensures value { result.now ≡ self.now.history }
        ensures legal { Legal self.now.plan self.now.history }
    {
        self.history.as_slice()
    }

    /// Returns the history and drops the rest of the hit tester. It takes no memory.
    pub fn into_history(self) -> List<Entry>
        ensures value { result ≡ self.history }
        ensures legal { Legal self.plan self.history }
    {
        self.history.into_list()
    }
}

/// What is hit at the last drawing after an entry with this reply, by what is hit in the scene at
/// that entry and what was hit before it.
fn hit_after(
    now: Option<(SurfaceId, Point)>,
    reply: &Reply,
    before: Option<(SurfaceId, Point)>,
) -> Option<(SurfaceId, Point)>
    ensures { result ≡ hit_then now reply.now before }
{
    match reply {
        Reply::Drawn(_) => now,
        _ => before,
    }
}
