//! How many references of each resource were received and how many are alive.
ghost use Rattle.std.specs.Prelude.{◌≡◌, ◌≤◌, ◌<◌, ◌+◌, [], ◌++◌, length, IsTrue, IsOk, OnOk, OnErr};
ghost use Rattle.vz_returns.specs.Held.{received_of, alive_of, put_in, without, is_rising, first_from, nearer, as_returns};
ghost use Rattle.vz_returns.specs.Ordered.{counted_of};

use indexmap::IndexMap;
use std::alloc::Global;
use std::marker::Model;
use vz_base::Memory;
use vz_frame::Room;
use vz_rules::Returned;

/// The counts of a resource: the references received since it was last returned, and those that
/// are alive.
#[derive(Clone, Copy)]
pub(crate) struct Counts {
    pub(crate) received: u32,
    pub(crate) alive: u32,
}

/// The counts of resources. Contracts see them by rising id, and the room that was reserved
/// before.
#[derive(Drop)]
pub(crate) struct Table {
    counts: IndexMap<u32, Counts>,
}

impl Model for Table {
    ghost use Rattle.vz_returns.specs.Held.{Counting};
    ghost use Rattle.vz_returns.specs.Ordered.{in_order};
    ghost use Rattle.indexmap.specs.IndexMap.{spare as spare_of};

    ghost Value = { Counting };

    ghost view = { λ a. record { list = in_order a.counts.entries; spare = spare_of a.counts } };
}

impl Table {
    pub(crate) fn new(alloc: Global) -> Table
        ensures { result.list ≡ [] }
    {
        Table {
            counts: IndexMap::new(alloc),
        }
    }

    /// Makes room for at least `n` more resources.
    pub(crate) fn reserve(&mut self, n: usize) -> Result<(), Memory>
        ensures list { self.new.list ≡ self.old.list }
        ensures ok { OnOk result (n ≤ self.new.spare) }
        ensures succeeds { n ≤ self.old.spare → IsOk result }
        ensures spare { self.old.spare ≤ self.new.spare }
    {
        self.counts.reserve(n)?;
        Ok(())
    }

    /// How many resources have counts.
    pub(crate) fn len(&self) -> usize
        ensures { result ≡ length self.now.list }
    {
        self.counts.len()
    }

    /// The counts of a resource; both are 0 if it has none.
    pub(crate) fn get(&self, id: u32) -> Counts
        ensures received { result.received ≡ received_of id self.now.list }
        ensures alive { result.alive ≡ alive_of id self.now.list }
    {
        match self.counts.get(&id) {
            Some(counts) => *counts,
            None => Counts {
                received: 0,
                alive: 0,
            },
        }
    }

    /// Sets the counts of a resource. If there is room for one, it returns Ok.
    pub(crate) fn put(&mut self, id: u32, counts: Counts) -> Result<(), Memory>
        ensures list { OnOk result (self.new.list ≡ put_in (counted_of id counts) self.old.list) }
        ensures err { OnErr result (self.new.list ≡ self.old.list) }
        ensures len { length self.new.list ≤ length self.old.list + 1 }
        ensures succeeds { 0 < self.old.spare → IsOk result }
        ensures spare { self.old.spare ≤ self.new.spare + 1 }
    {
        self.counts.insert(id, counts)?;
        Ok(())
    }

    /// Changes the counts of a resource. Condition: some reference of it is alive.
    pub(crate) fn set(&mut self, id: u32, counts: Counts)
        requires { 0 < alive_of id self.old.list }
        ensures list { self.new.list ≡ put_in (counted_of id counts) self.old.list }
        ensures len { length self.new.list ≡ length self.old.list }
        ensures spare { self.old.spare ≤ self.new.spare }
    {
        if let Some(place) = self.counts.get_mut(&id) {
            *place = counts;
        }
    }

    /// Removes the counts of a resource.
    pub(crate) fn remove(&mut self, id: u32)
        ensures list { self.new.list ≡ without id self.old.list }
        ensures len { 0 < alive_of id self.old.list
            → length self.new.list + 1 ≡ length self.old.list }
        ensures spare { self.old.spare ≤ self.new.spare }
    {
        self.counts.swap_remove(&id);
    }
    /// The least id that is `from` or greater, with its references received, or None if there is
    /// no such id.
    fn next_from(&self, from: u64) -> Option<(u32, u32)>
        ensures value { result ≡ first_from from self.now.list }
        ensures rising { IsTrue (is_rising self.now.list) }
    {
        let len = self.counts.len();
        let mut least = None;
        for k in 0..len {
            if let Some((id, counts)) = self.counts.get_index(len - 1 - k) {
                least = nearer(least, from, *id, counts.received);
            }
        }
        least
    }

    /// Appends each resource with its references received, by rising id. Condition: `out` has
    /// room for all.
    pub(crate) fn put_all(&self, client: u32, out: &mut Room<Returned>)
        requires { length self.now.list ≤ out.old.spare }
        ensures list { out.new.list ≡ out.old.list ++ as_returns client self.now.list }
        ensures room { out.old.spare ≡ out.new.spare + length self.now.list }
    {
        let mut from = 0;
        while let Some((id, count)) = self.next_from(from) {
            out.put(Returned { client, id, count });
            from = u64::from(id) + 1;
        }
    }
}

/// The lesser of the least id so far and one more id; ids less than `from` do not count.
fn nearer(least: Option<(u32, u32)>, from: u64, id: u32, received: u32) -> Option<(u32, u32)>
    ensures { result ≡ nearer from least id received }
{
    if u64::from(id) < from {
        return least;
    }
    match least {
        Some((other, _)) if other < id => least,
        _ => Some((id, received)),
    }
}
