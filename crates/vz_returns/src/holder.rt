//! The references that a client lent, and what is returned to it.
ghost use Rattle.std.specs.Prelude.{◌≡◌, ◌≤◌, ◌<◌, ◌+◌, [], ◌++◌, length, IsOk, OnOk, OnErr};
ghost use Rattle.vz_returns.specs.Held.{MOST_REFERENCES, received_of, alive_of, lent, shared, released, return_at, taken, in_use, held};

use crate::counts::{Counts, Table};
use crate::queue::Queue;
use std::alloc::Global;
use std::marker::Model;
use vz_base::Memory;
use vz_frame::Room;
use vz_rules::Returned;

/// The references that a client lent, after Chromium's `SurfaceResourceHolder`: for each resource
/// how many were received since it was last returned and how many are alive, and the queue of
/// returned resources that the client has not reclaimed yet.
///
/// For example: two frames that list resource 7 are accepted, and `lend` is called for each. Two
/// references are received and alive. After `release` was called for each, one return of resource
/// 7 with the count 2 is in the queue.
///
/// Contracts see the resources of which some reference is alive (by rising id), the queue, and
/// the room that was reserved before. `lend` reserves the place of a resource's return in the
/// queue, so that the return itself allocates nothing.
#[derive(Drop)]
pub struct Holder {
    client: u32,
    counts: Table,
    queue: Queue,
}

impl Model for Holder {
    ghost use Rattle.std.specs.Prelude.{◌-◌, ◌≤◌, min, length};
    ghost use Rattle.vz_returns.specs.Held.{Held};

    ghost Value = { Held };

    ghost view = { λ a. record {
      holding = record { client = a.client; counted = a.counts.list; queue = a.queue.list };
      spare = min a.counts.spare (a.queue.spare - length a.counts.list);
    } };

    ghost invariant = { λ a. length a.counts.list ≤ a.queue.spare };
}

impl Holder {
    /// Creates the holder of a client that has lent nothing. It allocates nothing.
    pub fn new(alloc: Global, client: u32) -> Holder
        ensures client { result.holding.client ≡ client }
        ensures counted { result.holding.counted ≡ [] }
        ensures queue { result.holding.queue ≡ [] }
    {
        Holder {
            client,
            counts: Table::new(alloc),
            queue: Queue::new(alloc),
        }
    }

    /// Makes room for at least `n` more resources. The only error is `Memory`, if an allocation
    /// fails. In either case nothing else changes and no room is lost.
    pub fn ready(&mut self, n: usize) -> Result<(), Memory>
        ensures holding { self.new.holding ≡ self.old.holding }
        ensures ok { OnOk result (n ≤ self.new.spare) }
        ensures succeeds { n ≤ self.old.spare → IsOk result }
        ensures spare { self.old.spare ≤ self.new.spare }
    {
        self.counts.reserve(n)?;
        self.queue.reserve(n, self.counts.len())?;
        Ok(())
    }

    /// Counts one more reference of a resource as received and as alive, and reserves the place
    /// of its return. It returns `Memory` if an allocation fails; then nothing changes and no room
    /// is lost. If there is room for one, it returns Ok and uses up no more than that. Condition:
    /// since the resource was last returned fewer than 4,294,967,295 references of it were
    /// received, and fewer than that are alive.
    pub fn lend(&mut self, id: u32) -> Result<(), Memory>
        requires received { received_of id self.old.holding.counted < MOST_REFERENCES }
        requires alive { alive_of id self.old.holding.counted < MOST_REFERENCES }
        ensures holding { OnOk result (self.new.holding ≡ lent id self.old.holding) }
        ensures err { OnErr result (self.new.holding ≡ self.old.holding) }
        ensures kept { OnErr result (self.old.spare ≤ self.new.spare) }
        ensures succeeds { 0 < self.old.spare → IsOk result }
        ensures spare { self.old.spare ≤ self.new.spare + 1 }
    {
        let counts = self.counts.get(id);
        let more = Counts {
            received: counts.received + 1,
            alive: counts.alive + 1,
        };
        if counts.alive == 0 {
            self.ready(1)?;
            return self.counts.put(id, more);
        }
        self.counts.set(id, more);
        Ok(())
    }

    /// Counts one more reference of a resource as alive, but not as received. Condition: one at
    /// least is alive, and fewer than 4,294,967,295 are.
    pub fn hold(&mut self, id: u32)
        requires some { 0 < alive_of id self.old.holding.counted }
        requires alive { alive_of id self.old.holding.counted < MOST_REFERENCES }
        ensures holding { self.new.holding ≡ shared id self.old.holding }
        ensures spare { self.old.spare ≤ self.new.spare }
    {
        let counts = self.counts.get(id);
        let more = Counts {
            received: counts.received,
            alive: counts.alive + 1,
        };
        self.counts.set(id, more);
    }

    /// Counts one reference of a resource less as alive. If it was the last, the resource is
    /// returned with the count of all references received: this is appended to the queue, and is
    /// the answer. Otherwise the answer is None. It allocates nothing. Condition: a reference is
    /// alive.
    pub fn release(&mut self, id: u32) -> Option<Returned>
        requires { 0 < alive_of id self.old.holding.counted }
        ensures value { result ≡ return_at id self.old.holding }
        ensures holding { self.new.holding ≡ released id self.old.holding }
        ensures spare { self.old.spare ≤ self.new.spare }
    {
        let counts = self.counts.get(id);
        if counts.alive != 1 {
            let fewer = Counts {
                received: counts.received,
                alive: counts.alive - 1,
            };
            self.counts.set(id, fewer);
            return None;
        }
        self.counts.remove(id);
        let returned = Returned {
            client: self.client,
            id,
            count: counts.received,
        };
        self.queue.put(returned);
        Some(returned)
    }

    /// How many returned resources are in the queue.
    pub fn queued(&self) -> usize
        ensures { result ≡ length self.now.holding.queue }
    {
        self.queue.len()
    }

    /// How many resources have some reference that is alive.
    pub fn listed(&self) -> usize
        ensures { result ≡ length self.now.holding.counted }
    {
        self.counts.len()
    }

    /// How many references of a resource were received since it was last returned.
    pub fn received(&self, id: u32) -> u32
        ensures { result ≡ received_of id self.now.holding.counted }
    {
        self.counts.get(id).received
    }

    /// How many references of a resource are alive.
    pub fn alive(&self, id: u32) -> u32
        ensures { result ≡ alive_of id self.now.holding.counted }
    {
        self.counts.get(id).alive
    }

    /// Appends the queue of returned resources to `out`, in the order in which they were
    /// returned, and empties it. It allocates nothing, and the places of later returns stay
    /// reserved. Condition: `out` has room for the whole queue.
    pub fn take(&mut self, out: &mut Room<Returned>)
        requires { length self.old.holding.queue ≤ out.old.spare }
        ensures out { out.new.list ≡ out.old.list ++ self.old.holding.queue }
        ensures holding { self.new.holding ≡ taken self.old.holding }
        ensures spare { self.old.spare ≤ self.new.spare }
        ensures room { out.old.spare ≡ out.new.spare + length self.old.holding.queue }
    {
        self.queue.take(out);
    }

    /// Whether a resource is in use: a reference of it is alive, or a return of it is in the
    /// queue.
    pub fn in_use(&self, id: u32) -> bool
        ensures { result ≡ in_use id self.now.holding }
    {
        self.counts.get(id).alive > 0 || self.queue.has(id)
    }

    /// Appends each resource of which some reference is alive, by rising id, with all references
    /// received as its count. It allocates nothing. Its time grows with the square of the number
    /// of resources, as it is meant for the end of a run. Condition: `out` has room for all.
    pub fn held(&self, out: &mut Room<Returned>)
        requires { length self.now.holding.counted ≤ out.old.spare }
        ensures out { out.new.list ≡ out.old.list ++ held self.now.holding }
        ensures room { out.old.spare ≡ out.new.spare + length self.now.holding.counted }
    {
        self.counts.put_all(self.client, out);
    }
}
