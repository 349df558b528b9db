//! The state in a desk's lock.
ghost use Rattle.std.specs.Prelude.{◌≡◌, ◌<◌, ◌≤◌, [], length, IfOk, OnOk, OnErr, IsTrue, is_some, None};
ghost use Rattle.std.specs.Option.{option_map};
ghost use Rattle.vz_base.specs.declared.limits.TheConstants.{MOST_FILES};
ghost use Rattle.vz_rules.specs.declared.entry.Event.TheVariants as event;
ghost use Rattle.vz_rules.specs.World.{opening};
ghost use Rattle.vz_rules.specs.Step.{NamesClient, Legal};
ghost use Rattle.vz_machine.specs.Stepping.{ShowsDrawn, waits_at, idle_at};
ghost use Rattle.vz_desk.specs.Books.{booked_on, stopped_with, next_entry, machine_of};
ghost use Rattle.vz_desk.specs.Totals.{TellsNext};

use crate::Note;
use crate::note::{is_in_time, note_of};
use std::alloc::Global;
use std::marker::Model;
use vz_base::Memory;
use vz_frame::Room;
use vz_loans::Kept;
use vz_machine::{Machine, Step};
use vz_rules::{Entry, Event, Plan};

mod shown;

/// A machine with its history so far, and the reason of the first stop, if there was one. While
/// the display waits in a pause, `awaited` is a client for which it had to wait when it last
/// looked.
#[derive(Drop)]
pub struct Book<M: Machine, S> {
    machine: M,
    clients: u32,
    history: Room<Entry>,
    reason: Option<S>,
    awaited: Option<u32>,
}

impl<M: Machine, S> Model for Book<M, S> {
    ghost use Rattle.vz_desk.specs.Books.{Booked, IsBooked};

    ghost Value = { Booked S };

    ghost view = { λ b. record {
      plan = (M.state b.machine).plan;
      history = b.history.list;
      reason = b.reason;
      awaited = b.awaited;
    } };

    ghost invariant = { λ b. IsBooked (M.state b.machine) b.clients b.history.spare (record {
      plan = (M.state b.machine).plan;
      history = b.history.list;
      reason = b.reason;
      awaited = b.awaited;
    }) };
}

impl<M: Machine + Send, S: Send> Kept for Book<M, S> {
    ghost use Rattle.vz_desk.specs.Books.{numbered};

    type Plan = Plan;

    type Entry = Entry;

    ghost plan = { λ b. b.plan };

    ghost entries = { λ b. numbered b.history };
}

impl<M: Machine, S: Copy> Book<M, S> {
    /// Makes a book before the first event. It takes no memory. Conditions: the machine is in the
    /// opening world of its plan, which has this number of clients, at most `MOST_FILES`.
    pub fn new(alloc: Global, machine: M, clients: u32) -> Book<M, S>
        requires opening { (M.state machine).world ≡ opening (M.state machine).plan }
        requires counted { clients ≡ length (M.state machine).plan.files }
        requires files { length (M.state machine).plan.files ≤ MOST_FILES }
        ensures plan { result.plan ≡ (M.state machine).plan }
        ensures history { result.history ≡ [] }
        ensures reason { result.reason ≡ None }
        ensures awaited { result.awaited ≡ None }
    {
        Book {
            machine,
            clients,
            history: Room::new(alloc),
            reason: None,
            awaited: None,
        }
    }

    /// Takes the next message of a client, and appends its entry to the history. It returns the
    /// note of the entry, and whether the entry took a message. Conditions: the plan has that
    /// client, and no reason is kept. The only error is `Memory`, and then nothing changes.
    pub fn client(&mut self, alloc: Global, client: u32) -> Result<(Note, bool), Memory>
        requires known { NamesClient self.old.plan (event.Client client) }
        requires running { self.old.reason ≡ None }
        ensures ok { OnOk result (self.new ≡ booked_on self.old (event.Client client)) }
        ensures told { IfOk result (λ r. TellsNext self.old client r.0 r.1) }
        ensures err { OnErr result (self.new ≡ self.old) }
    {
        self.history.reserve(2)?;
        let listed = self.machine.listed(client);
        let step = self.machine.client(alloc, client)?;
        let entry = entry_of(Event::Client(client), step);
        let in_time = is_in_time(&entry.reply);
        let told = note_of(&entry, listed);
        self.history.put(entry);
        Ok((told.at(self.history.as_slice().len() as u64), in_time))
    }

    /// Whether a client would be answered NotYet if it sent its next message now. Conditions: the
    /// plan has that client, and no reason is kept, so that nobody waits after a stop.
    pub fn waits(&self, client: u32) -> bool
        requires known { NamesClient self.now.plan (event.Client client) }
        requires running { self.now.reason ≡ None }
        ensures { result ≡ waits_at (machine_of self.now) client }
    {
        self.machine.waits(client)
    }

    /// Begins a frame. Condition: no reason is kept. The only error is `Memory`, and then nothing
    /// changes.
    pub fn begin(&mut self, alloc: Global) -> Result<(), Memory>
        requires running { self.old.reason ≡ None }
        ensures ok { OnOk result (self.new ≡ booked_on self.old event.Begin) }
        ensures err { OnErr result (self.new ≡ self.old) }
    {
        self.history.reserve(2)?;
        let step = self.machine.begin(alloc)?;
        self.history.put(entry_of(Event::Begin, step));
        Ok(())
    }

    /// Draws. It returns a picture exactly if the answer is Drawn. Condition: no reason is kept.
    /// The only error is `Memory`, and then nothing changes.
    pub fn draw(&mut self, alloc: Global) -> Result<Option<M::Picture>, Memory>
        requires running { self.old.reason ≡ None }
        ensures ok { OnOk result (self.new ≡ booked_on self.old event.Draw) }
        ensures picture { IfOk result (λ p. ShowsDrawn (machine_of self.old)
            (next_entry self.old event.Draw).reply (option_map M.Picture.pictured p)) }
        ensures err { OnErr result (self.new ≡ self.old) }
    {
        self.history.reserve(2)?;
        let (step, picture) = self.machine.draw(alloc)?;
        self.history.put(entry_of(Event::Draw, step));
        Ok(picture)
    }

    /// Ends the drawn frame, also after a stop. It takes no memory. Condition: a frame is in
    /// flight.
    pub fn done(&mut self)
        requires { IsTrue (is_some (machine_of self.old).world.in_flight) }
        ensures { self.new ≡ booked_on self.old event.Done }
    {
        let step = self.machine.done();
        self.history.put(entry_of(Event::Done, step));
    }

    /// Takes the event Over: from now on no client waits for a begin-frame. Condition: no reason
    /// is kept. The only error is `Memory`, and then nothing changes.
    pub fn over(&mut self) -> Result<(), Memory>
        requires running { self.old.reason ≡ None }
        ensures ok { OnOk result (self.new ≡ booked_on self.old event.Over) }
        ensures err { OnErr result (self.new ≡ self.old) }
    {
        self.history.reserve(2)?;
        let step = self.machine.over();
        self.history.put(entry_of(Event::Over, step));
        Ok(())
    }

    /// Whether a client is closed, has no message left, or would be answered NotYet. Condition:
    /// the plan has that client.
    pub fn idle(&self, client: u32) -> bool
        requires { NamesClient self.now.plan (event.Client client) }
        ensures value { result ≡ idle_at (machine_of self.now) client }
        ensures legal { Legal self.now.plan self.now.history }
    {
        self.machine.idle(client)
    }

    /// The reason of the first stop, or None if there was no stop.
    pub fn reason(&self) -> Option<S>
        ensures value { result ≡ self.now.reason }
        ensures legal { Legal self.now.plan self.now.history }
    {
        self.reason
    }

    /// Keeps a reason, unless one is kept already.
    pub fn stop(&mut self, why: S)
        ensures value { self.new ≡ stopped_with self.old why }
        ensures legal { Legal self.new.plan self.new.history }
    {
        if self.reason.is_none() {
            self.reason = Some(why);
        }
    }
}

/// Makes the entry of an event.
fn entry_of(event: Event, step: Step) -> Entry
    ensures { result ≡ record { event = event; reply = step.reply; effects = step.effects } }
{
    Entry {
        event,
        reply: step.reply,
        effects: step.effects,
    }
}
