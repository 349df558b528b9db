//! A machine that is given one event at a time, and what it left to tell.
ghost use Rattle.std.specs.Prelude.{◌≡◌, ◌<◌, false, None, Some, true, is_some, length, IfOk, OnOk, OnErr};
ghost use Rattle.vz_rules.specs.declared.entry.Event.TheVariants as event;
ghost use Rattle.vz_rules.specs.Step.{entry_in, NamesClient};
ghost use Rattle.vz_machine.specs.Stepping.{Goes, ShowsDrawn};
ghost use Rattle.vz_occlude.specs.Pictures.{flat_picture};
ghost use Rattle.std.specs.Option.{option_map};
ghost use Rattle.viz_c.specs.Staging.{draws, first_stage, flat_of, is_event_of, newer, IsNext, IsShotOf};

use crate::shot::{Shot, shoot};
use crate::solo::{SoloMachine, SoloPicture};
use std::alloc::Global;
use std::marker::Model;
use std::sync::ledger::{Blank, Ledger};
use vz_base::Memory;
use vz_geom::Size;
use vz_machine::{Machine, Step};
use vz_rules::{Entry, Event, Plan};

/// A machine, the entry of its last event, and the picture of its last drawing.
#[derive(Drop)]
pub struct Stage {
    machine: SoloMachine,
    clients: usize,
    size: Size,
    last: Option<Entry>,
    picture: Option<SoloPicture>,
}

impl Model for Stage {
    ghost use Rattle.viz_c.specs.Staging.{Staged, IsStaged, flat_of};
    ghost use Rattle.std.specs.Option.{option_map};

    ghost Value = { Staged };

    ghost view = { λ s. record {
      machine = s.machine.machine;
      last = s.last;
      picture = option_map flat_of s.picture;
    } };

    ghost invariant = { λ s. IsStaged s.clients s.size (record {
      machine = s.machine.machine;
      last = s.last;
      picture = option_map flat_of s.picture;
    }) };
}

impl Stage {
    /// Creates the machine in the opening world of a plan, before its first event. The only error
    /// is `Memory`, and then the plan is dropped.
    pub fn open(alloc: Global, plan: Plan) -> Result<Stage, Memory>
        ensures { IfOk result (λ s. s ≡ first_stage plan) }
    {
        let clients = plan.files().len();
        let size = plan.size();
        let machine = SoloMachine::open(alloc, plan)?;
        Ok(Stage {
            machine,
            clients,
            size,
            last: None,
            picture: None,
        })
    }

    /// Whether an event is the display's, or that of a client of the plan.
    pub fn knows(&self, event: Event) -> bool
        ensures { result ≡ is_event_of (length self.now.machine.plan.files) event }
    {
        is_of(self.clients, event)
    }

    /// Takes an event. Condition: a client's event is that of a client of the plan. The only error
    /// is `Memory`, and then nothing changes.
    pub fn next(&mut self, alloc: Global, event: Event) -> Result<(), Memory>
        requires { NamesClient self.old.machine.plan event }
        ensures taken { OnOk result (IsNext self.old event self.new) }
        ensures err { OnErr result (self.new ≡ self.old) }
    {
        match event {
            Event::Draw => self.draw(alloc),
            _ => self.take(alloc, event),
        }
    }

    // Takes an event that is no drawing.
    fn take(&mut self, alloc: Global, event: Event) -> Result<(), Memory>
        requires named { NamesClient self.old.machine.plan event }
        requires other { draws event ≡ false }
        ensures taken { OnOk result (IsNext self.old event self.new) }
        ensures err { OnErr result (self.new ≡ self.old) }
    {
        let entry = entry_after(alloc, &mut self.machine, event)?;
        self.last = Some(entry);
        Ok(())
    }

    // Draws, and keeps the picture if there is one.
    fn draw(&mut self, alloc: Global) -> Result<(), Memory>
        ensures taken { OnOk result (IsNext self.old event.Draw self.new) }
        ensures err { OnErr result (self.new ≡ self.old) }
    {
        let (entry, picture) = drawn(alloc, &mut self.machine)?;
        self.last = Some(entry);
        keep_newer(&mut self.picture, picture);
        Ok(())
    }

    /// The entry of the last event; None before the first one.
    pub fn last(&self) -> &Option<Entry>
        ensures { result.now ≡ self.now.last }
    {
        &self.last
    }

    /// Paints the whole picture of the last drawing; None if nothing was drawn yet. `blank` makes
    /// the counter of painted pixels. The only error is `Memory`.
    pub fn shot<L: Ledger>(&self, alloc: Global, blank: Blank) -> Result<Option<Shot>, Memory>
        requires name { blank.name ≡ L.name }
        requires parts { blank.parts ≡ L.parts }
        requires owned { 0 < L.parts }
        ensures shot { IfOk result (λ shot. IsShotOf self.now.picture shot) }
        ensures err { OnErr result (is_some self.now.picture ≡ true) }
    {
        match &self.picture {
            Some(picture) => {
                let shot = shoot::<L>(alloc, blank, self.size, picture)?;
                Ok(Some(shot))
            }
            None => Ok(None),
        }
    }
}

/// Whether an event is the display's, or that of one of so many clients.
fn is_of(clients: usize, event: Event) -> bool
    ensures { result ≡ is_event_of clients event }
{
    match event {
        Event::Client(client) => 1 <= client && client as usize <= clients,
        _ => true,
    }
}

/// Gives the machine an event that is no drawing, and returns its entry. Condition: a client's
/// event is that of a client of the plan. The only error is `Memory`, and then nothing changes.
fn entry_after(alloc: Global, machine: &mut SoloMachine, event: Event) -> Result<Entry, Memory>
    requires named { NamesClient machine.old.machine.plan event }
    requires other { draws event ≡ false }
    ensures entry { IfOk result (λ e.
        e ≡ entry_in machine.old.machine.plan machine.old.machine.world event) }
    ensures world { OnOk result (Goes machine.old.machine event machine.new.machine) }
    ensures err { OnErr result (machine.new.machine ≡ machine.old.machine) }
{
    match event {
        Event::Client(client) => Ok(entry_of(event, machine.client(alloc, client)?)),
        Event::Begin => Ok(entry_of(event, machine.begin(alloc)?)),
        Event::Draw => unreachable!(),
        Event::Done => Ok(entry_of(event, machine.done())),
        Event::Over => Ok(entry_of(event, machine.over())),
    }
}

/// Draws, and returns the entry, with the picture if there is one. The only error is `Memory`, and
/// then nothing changes.
fn drawn(alloc: Global, machine: &mut SoloMachine) -> Result<(Entry, Option<SoloPicture>), Memory>
    ensures entry { IfOk result (λ d.
        d.0 ≡ entry_in machine.old.machine.plan machine.old.machine.world event.Draw) }
    ensures picture { IfOk result (λ d. ShowsDrawn machine.old.machine d.0.reply
        (option_map flat_picture (option_map flat_of d.1))) }
    ensures world { OnOk result (Goes machine.old.machine event.Draw machine.new.machine) }
    ensures err { OnErr result (machine.new.machine ≡ machine.old.machine) }
{
    let (step, picture) = machine.draw(alloc)?;
    Ok((entry_of(Event::Draw, step), picture))
}

/// The entry of an event.
fn entry_of(event: Event, step: Step) -> Entry
    ensures { result ≡ record { event = event; reply = step.reply; effects = step.effects } }
{
    Entry {
        event,
        reply: step.reply,
        effects: step.effects,
    }
}

/// Puts a picture into a place, if there is one.
fn keep_newer(place: &mut Option<SoloPicture>, picture: Option<SoloPicture>)
    ensures { place.new ≡ newer picture place.old }
{
    match picture {
        Some(picture) => *place = Some(picture),
        None => {}
    }
}
