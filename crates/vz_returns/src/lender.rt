//! The references that one client lent, and those released since resources were last given back.
ghost use Rattle.std.specs.Prelude.{◌≡◌, ◌≤◌, ◌<◌, ◌+◌, [], ◌∷◌, ◌++◌, length, option_to_list, IsTrue, IsFalse, IsOk, OnOk};
ghost use Rattle.vz_rules.specs.World.{World, Client};
ghost use Rattle.vz_rules.specs.Returns.{returns_of, queue_returns, give_back};
ghost use Rattle.vz_rules.specs.Kept.{AreRising};
ghost use Rattle.vz_returns.specs.Held.{alive_of, is_rising, in_use, lent, shared, return_at, released, taken, held};
ghost use Rattle.vz_returns.specs.Released.{AreCounts, release_all, returns_in};
ghost use Rattle.vz_returns.specs.Lent.{Suffice, IsCountable, AreCountable, lent_all, shared_all};
ghost use Rattle.vz_returns.specs.Listed.{ids_of, lists_twice};

use crate::Holder;
use std::alloc::Global;
use std::marker::Model;
use vz_base::Memory;
use vz_frame::{Listing, Room};
use vz_rules::Returned;

/// What a client lent, and the ids of the references released since resources were last given
/// back. A place is reserved for each reference that is alive, so that its release allocates
/// nothing.
#[derive(Drop)]
pub(crate) struct Lender {
    holder: Holder,
    released: Vec<u32>,
    alive: usize,
}

impl Model for Lender {
    ghost use Rattle.std.specs.Prelude.{◌≡◌, ◌-◌, ◌≤◌, IsTrue, vec_capacity};
    ghost use Rattle.vz_returns.specs.Held.{is_rising};
    ghost use Rattle.vz_returns.specs.Lent.{Lent, all_alive};

    ghost Value = { Lent };

    ghost view = { λ a. record {
      holding = a.holder.holding;
      released = a.released.items;
      spare = a.holder.spare;
      places = vec_capacity a.released - a.alive;
    } };

    ghost invariant = { λ a. (a.alive ≡ all_alive a.holder.holding.counted)
        × (a.alive ≤ vec_capacity a.released)
        × IsTrue (is_rising a.holder.holding.counted) };
}

impl Lender {
    /// Creates the record of a client that has lent nothing. It allocates nothing.
    pub(crate) fn new(alloc: Global, client: u32) -> Lender
        ensures client { result.holding.client ≡ client }
        ensures counted { result.holding.counted ≡ [] }
        ensures queue { result.holding.queue ≡ [] }
        ensures released { result.released ≡ [] }
    {
        Lender {
            holder: Holder::new(alloc, client),
            released: Vec::new(alloc),
            alive: 0,
        }
    }

    /// Reserves places for at least `n` more references. The only error is `Memory`, if an
    /// allocation fails. In either case nothing else changes and no room is lost.
    pub(crate) fn make_places(&mut self, n: usize) -> Result<(), Memory>
        ensures holding { self.new.holding ≡ self.old.holding }
        ensures released { self.new.released ≡ self.old.released }
        ensures ok { OnOk result (n ≤ self.new.places) }
        ensures succeeds { self.old.released ≡ [] → n ≤ self.old.places → IsOk result }
        ensures spare { self.old.spare ≤ self.new.spare }
        ensures places { self.old.places ≤ self.new.places }
    {
        match self.alive.checked_add(n) {
            Some(all) => {
                self.released.try_reserve(all)?;
                Ok(())
            }
            None => Err(Memory),
        }
    }

    /// Makes room for at least `n` more resources and for a reference of each. The only error is
    /// `Memory`, if an allocation fails. In either case nothing else changes and no room is lost.
    pub(crate) fn ready(&mut self, n: usize) -> Result<(), Memory>
        ensures holding { self.new.holding ≡ self.old.holding }
        ensures released { self.new.released ≡ self.old.released }
        ensures spare { OnOk result (n ≤ self.new.spare) }
        ensures places { OnOk result (n ≤ self.new.places) }
        ensures succeeds { self.old.released ≡ [] → n ≤ self.old.spare → n ≤ self.old.places
            → IsOk result }
        ensures no_less { self.old.spare ≤ self.new.spare }
        ensures no_fewer { self.old.places ≤ self.new.places }
    {
        self.holder.ready(n)?;
        self.make_places(n)
    }

    /// Counts one more reference of a resource as received and as alive. Conditions: both counts
    /// are below their limit, and there is room for one.
    pub(crate) fn lend(&mut self, id: u32)
        requires countable { IsCountable id self.old.holding }
        requires spare { 0 < self.old.spare }
        requires places { 0 < self.old.places }
        ensures holding { self.new.holding ≡ lent id self.old.holding }
        ensures released { self.new.released ≡ self.old.released }
        ensures spare { self.old.spare ≤ self.new.spare + 1 }
        ensures places { self.old.places ≡ self.new.places + 1 }
    {
        self.holder.lend(id).unwrap();
        self.alive += 1;
    }

    /// Counts one more reference of a resource as alive. Conditions: one is alive, the count is
    /// below its limit, and there is a place for one.
    pub(crate) fn hold(&mut self, id: u32)
        requires some { 0 < alive_of id self.old.holding.counted }
        requires countable { IsCountable id self.old.holding }
        requires places { 0 < self.old.places }
        ensures holding { self.new.holding ≡ shared id self.old.holding }
        ensures released { self.new.released ≡ self.old.released }
        ensures spare { self.old.spare ≤ self.new.spare }
        ensures places { self.old.places ≡ self.new.places + 1 }
    {
        self.holder.hold(id);
        self.alive += 1;
    }

    /// Notes that a reference of a resource is released. Condition: one is alive and not
    /// released.
    pub(crate) fn release(&mut self, id: u32)
        requires { Suffice (self.old.released ++ id ∷ []) self.old.holding }
        ensures holding { self.new.holding ≡ self.old.holding }
        ensures released { self.new.released ≡ self.old.released ++ id ∷ [] }
        ensures spare { self.new.spare ≡ self.old.spare }
        ensures places { self.new.places ≡ self.old.places }
    {
        self.released.push_reserved(id);
    }

    /// Lends each listed resource once more. Conditions: no resource is listed twice, each count
    /// is below its limit, and there is room for all.
    pub(crate) fn lend_all(&mut self, listings: &[Listing])
        requires once { IsFalse (lists_twice listings.now) }
        requires countable { AreCountable (ids_of listings.now) self.old.holding }
        requires spare { length listings.now ≤ self.old.spare }
        requires places { length listings.now ≤ self.old.places }
        ensures holding { self.new.holding ≡ lent_all (ids_of listings.now) self.old.holding }
        ensures released { self.new.released ≡ self.old.released }
        ensures spare { self.old.spare ≤ self.new.spare + length listings.now }
        ensures places { self.old.places ≡ self.new.places + length listings.now }
    {
        for listing in listings {
            self.lend(listing.id);
        }
    }

    /// Holds each listed resource once more. Conditions: no resource is listed twice, each has a
    /// reference that is alive and a count below its limit, and there is a place for each.
    pub(crate) fn hold_all(&mut self, listings: &[Listing])
        requires once { IsFalse (lists_twice listings.now) }
        requires countable { AreCountable (ids_of listings.now) self.old.holding }
        requires some { Suffice (ids_of listings.now) self.old.holding }
        requires places { length listings.now ≤ self.old.places }
        ensures holding { self.new.holding ≡ shared_all (ids_of listings.now) self.old.holding }
        ensures released { self.new.released ≡ self.old.released }
        ensures spare { self.old.spare ≤ self.new.spare }
        ensures places { self.old.places ≡ self.new.places + length listings.now }
    {
        for listing in listings {
            self.hold(listing.id);
        }
    }

    /// Releases a reference of each listed resource. Condition: that many are alive and not
    /// released.
    pub(crate) fn release_all(&mut self, listings: &[Listing])
        requires { Suffice (self.old.released ++ ids_of listings.now) self.old.holding }
        ensures holding { self.new.holding ≡ self.old.holding }
        ensures released { self.new.released ≡ self.old.released ++ ids_of listings.now }
        ensures spare { self.new.spare ≡ self.old.spare }
        ensures places { self.new.places ≡ self.old.places }
    {
        for listing in listings {
            self.release(listing.id);
        }
    }

    /// Lends each resource of `listings` once more, and releases a reference of each one of
    /// `replaced`. Conditions: no resource is listed twice, each count is below its limit, there
    /// is room for all, and the references to release are alive and not released.
    pub(crate) fn accept(&mut self, listings: &[Listing], replaced: &[Listing])
        requires once { IsFalse (lists_twice listings.now) }
        requires countable { AreCountable (ids_of listings.now) self.old.holding }
        requires spare { length listings.now ≤ self.old.spare }
        requires places { length listings.now ≤ self.old.places }
        requires suffice { Suffice (self.old.released ++ ids_of replaced.now) self.old.holding }
        ensures holding { self.new.holding ≡ lent_all (ids_of listings.now) self.old.holding }
        ensures released { self.new.released ≡ self.old.released ++ ids_of replaced.now }
        ensures out { length self.new.holding.counted
            ≤ length self.old.holding.counted + length listings.now }
    {
        self.lend_all(listings);
        self.release_all(replaced);
    }

    /// Releases a reference of each resource in two lists. Condition: that many are alive and not
    /// released.
    pub(crate) fn drop_all(&mut self, waiting: &[Listing], active: &[Listing])
        requires { Suffice (self.old.released ++ (ids_of waiting.now ++ ids_of active.now))
            self.old.holding }
        ensures holding { self.new.holding ≡ self.old.holding }
        ensures released { self.new.released
            ≡ self.old.released ++ (ids_of waiting.now ++ ids_of active.now) }
    {
        self.release_all(waiting);
        self.release_all(active);
    }

    /// Gives back what was released: each resource that has no reference alive any more is
    /// returned, by rising id, and appended to `out`. Afterwards no released reference is noted.
    /// If none was released it looks at nothing else. It allocates nothing. Conditions: the
    /// released references are alive, and `out` has room for all resources with a reference that
    /// is alive.
    pub(crate) fn give_back(&mut self, out: &mut Room<Returned>)
        requires suffice { Suffice self.old.released self.old.holding }
        requires room { length self.old.holding.counted ≤ out.old.spare }
        ensures given { (w : World) (c : Client) → AreRising c.resources
            → AreCounts w c self.old.holding self.old.released
            → (out.new.list ≡ out.old.list ++ returns_of w c)
            × AreCounts (give_back w) (queue_returns w c) self.new.holding [] }
        ensures released { self.new.released ≡ [] }
        ensures room { out.old.spare + length self.new.holding.counted
            ≤ out.new.spare + length self.old.holding.counted }
        ensures fewer { length self.new.holding.counted ≤ length self.old.holding.counted }
        ensures spare { self.old.spare ≤ self.new.spare }
        ensures places { self.old.places ≤ self.new.places }
    {
        if self.released.is_empty() {
            return;
        }
        self.released.sort_unstable();
        give_back_all(&self.released, &mut self.holder, out);
        self.alive -= self.released.len();
        self.released.clear();
    }

    /// Appends the queue of returned resources to `out` and empties it. It allocates nothing.
    /// Condition: `out` has room for all.
    pub(crate) fn take(&mut self, out: &mut Room<Returned>)
        requires { length self.old.holding.queue ≤ out.old.spare }
        ensures out { out.new.list ≡ out.old.list ++ self.old.holding.queue }
        ensures holding { self.new.holding ≡ taken self.old.holding }
        ensures released { self.new.released ≡ self.old.released }
        ensures spare { self.old.spare ≤ self.new.spare }
        ensures places { self.new.places ≡ self.old.places }
        ensures room { out.old.spare ≡ out.new.spare + length self.old.holding.queue }
    {
        self.holder.take(out);
    }

    /// How many returned resources are in the queue.
    pub(crate) fn queued(&self) -> usize
        ensures { result ≡ length self.now.holding.queue }
    {
        self.holder.queued()
    }

    /// How many resources have some reference that is alive.
    pub(crate) fn listed(&self) -> usize
        ensures { result ≡ length self.now.holding.counted }
    {
        self.holder.listed()
    }

    /// Whether a resource is in use: a reference of it is alive, or a return of it is in the
    /// queue.
    pub(crate) fn in_use(&self, id: u32) -> bool
        ensures { result ≡ in_use id self.now.holding }
    {
        self.holder.in_use(id)
    }

    /// Appends each resource of which some reference is alive, by rising id, with all references
    /// received as its count. It allocates nothing. Condition: `out` has room for all.
    pub(crate) fn held(&self, out: &mut Room<Returned>)
        requires { length self.now.holding.counted ≤ out.old.spare }
        ensures out { out.new.list ≡ out.old.list ++ held self.now.holding }
        ensures room { out.old.spare ≡ out.new.spare + length self.now.holding.counted }
    {
        self.holder.held(out);
    }
}

/// Releases references one after the other, and appends what is returned. It allocates nothing.
/// Conditions: the references are alive, and `out` has room for all resources with one that is
/// alive.
fn give_back_all(ids: &[u32], holder: &mut Holder, out: &mut Room<Returned>)
    requires suffice { Suffice ids.now holder.old.holding }
    requires rising { IsTrue (is_rising holder.old.holding.counted) }
    requires room { length holder.old.holding.counted ≤ out.old.spare }
    ensures holding { holder.new.holding ≡ release_all ids.now holder.old.holding }
    ensures out { out.new.list ≡ out.old.list ++ returns_in ids.now holder.old.holding }
    ensures room { out.old.spare + length holder.new.holding.counted
        ≤ out.new.spare + length holder.old.holding.counted }
    ensures spare { holder.old.spare ≤ holder.new.spare }
{
    for id in ids {
        give_back_one(*id, holder, out);
    }
}

/// Releases a reference, and appends what is returned. Conditions: it is alive, and `out` has
/// room.
fn give_back_one(id: u32, holder: &mut Holder, out: &mut Room<Returned>)
    requires alive { 0 < alive_of id holder.old.holding.counted }
    requires rising { IsTrue (is_rising holder.old.holding.counted) }
    requires room { length holder.old.holding.counted ≤ out.old.spare }
    ensures holding { holder.new.holding ≡ released id holder.old.holding }
    ensures out { out.new.list
        ≡ out.old.list ++ option_to_list (return_at id holder.old.holding) }
    ensures room { out.old.spare + length holder.new.holding.counted
        ≤ out.new.spare + length holder.old.holding.counted }
    ensures spare { holder.old.spare ≤ holder.new.spare }
{
    if let Some(returned) = holder.release(id) {
        out.put(returned);
    }
}
