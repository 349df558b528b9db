//! What the display asks of a book, and how a book ends.
ghost use Rattle.std.specs.Prelude.{◌≡◌, OnOk, OnErr, None, IfSome, length, is_none, is_some, true, ◌&&◌, Some, unwrap_or};
ghost use Rattle.vz_rules.specs.declared.entry.Event.TheVariants as event;
ghost use Rattle.vz_rules.specs.Step.{NamesClient, Legal};
ghost use Rattle.vz_desk.specs.Books.{booked_on, awaiting, machine_of};
ghost use Rattle.vz_rules.specs.Course.{is_calm};
ghost use Rattle.vz_desk.specs.Calm.{restless_at};

use super::{Book, entry_of};
use crate::Gathered;
use vz_base::Memory;
use vz_machine::Machine;
use vz_rules::Event;

impl<M: Machine, S: Copy> Book<M, S> {
    /// How many entries the history has.
    pub fn places(&self) -> u64
        ensures value { result ≡ length self.now.history }
        ensures legal { Legal self.now.plan self.now.history }
    {
        self.history.as_slice().len() as u64
    }

    /// Takes the event Done: it ends the drawn frame, if one is in flight. Condition: no reason is
    /// kept. The only error is `Memory`, and then nothing changes.
    pub fn empty_done(&mut self) -> Result<(), Memory>
        requires running { self.old.reason ≡ None }
        ensures ok { OnOk result (self.new ≡ booked_on self.old event.Done) }
        ensures err { OnErr result (self.new ≡ self.old) }
    {
        self.history.reserve(2)?;
        let step = self.machine.done();
        self.history.put(entry_of(Event::Done, step));
        Ok(())
    }

    /// Whether a pause has to wait for a client: it is attached, it is not idle, and it has not
    /// answered the current begin-frame. Condition: the plan has that client.
    pub fn is_restless(&self, client: u32) -> bool
        requires { NamesClient self.now.plan (event.Client client) }
        ensures { result ≡ restless_at (machine_of self.now) client }
    {
        self.machine.attached(client)
            && !self.machine.idle(client)
            && !self.machine.answered(client)
    }

    // The first client for which a pause has to wait, if there is one.
    fn first_restless(&self) -> Option<u32>
        ensures calm { is_none result ≡ is_calm self.now.plan (machine_of self.now).world }
        ensures restless { IfSome result (λ c. restless_at (machine_of self.now) c ≡ true) }
    {
        for before in 0..self.clients {
            if self.is_restless(before + 1) {
                return Some(before + 1);
            }
        }
        None
    }

    /// A client for which a pause has to wait. If `last` is such a client, the answer is `last`,
    /// and the others are not asked. It is None exactly if each attached client is idle or has
    /// answered the current begin-frame. Condition: no reason is kept, so that no pause goes on
    /// after a stop.
    pub fn restless(&self, last: u32) -> Option<u32>
        requires running { self.now.reason ≡ None }
        ensures calm { is_none result ≡ is_calm self.now.plan (machine_of self.now).world }
        ensures restless { IfSome result (λ c. restless_at (machine_of self.now) c ≡ true) }
    {
        if 0 < last && last <= self.clients && self.is_restless(last) {
            return Some(last);
        }
        self.first_restless()
    }

    /// Whether a pause may end: each attached client is idle or has answered the current
    /// begin-frame. If it may not, the book keeps that a pause waits, and a client for which it
    /// has to wait. Condition: no reason is kept.
    pub fn pause(&mut self) -> bool
        requires running { self.old.reason ≡ None }
        ensures same { self.new ≡ awaiting self.old self.new.awaited }
        ensures calm { result ≡ is_calm self.old.plan (machine_of self.old).world }
        ensures awaits { is_none self.new.awaited ≡ result }
        ensures restless { IfSome self.new.awaited
            (λ c. restless_at (machine_of self.old) c ≡ true) }
    {
        let restless = self.restless(self.awaited.unwrap_or(0));
        let calm = restless.is_none();
        self.awaited = restless;
        calm
    }

    /// Whether a pause waits, and may end now. Condition: no reason is kept.
    pub fn ends_pause(&self) -> bool
        requires running { self.now.reason ≡ None }
        ensures { result ≡ (is_some self.now.awaited
            && is_calm self.now.plan (machine_of self.now).world) }
    {
        match self.awaited {
            None => false,
            Some(client) => self.restless(client).is_none(),
        }
    }

    /// Does nothing. Who stops a desk calls it at the end of its turn, and so owes its condition:
    /// the book keeps the reason that was found, or else the one that was given.
    pub fn keeps_first(&self, found: &Option<S>, why: &S)
        requires { self.now.reason ≡ Some (unwrap_or found.now why.now) }
    {}

    /// Returns the machine and the history. It takes no memory.
    pub fn into_gathered(self) -> Gathered<M>
        ensures machine { M.state result.machine ≡ machine_of self }
        ensures history { result.history.list ≡ self.history }
        ensures legal { Legal self.plan self.history }
    {
        let Book {
            machine,
            clients: _,
            history,
            reason: _,
            awaited: _,
        } = self;
        Gathered { machine, history }
    }
}
