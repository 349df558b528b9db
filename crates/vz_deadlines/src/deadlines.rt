//! The submissions that wait for a deadline.
ghost use Rattle.std.specs.Prelude.{◌≡◌, ◌≤◌, ◌<◌, ◌+◌, [], ◌∷◌, ◌++◌, length, IsTrue, IsFalse, IsOk, OnOk, OnErr};
ghost use Rattle.vz_deadlines.specs.Timing.{waits, without, due_at, left_at};

use crate::due::Due;
use crate::numbers::{forget_all, number_all};
use crate::slots::Slots;
use indexmap::IndexMap;
use std::alloc::Global;
use std::marker::Model;
use vz_base::Memory;
use vz_frame::Room;
use vz_ids::Sub;

/// The submissions that wait, each until its deadline, a tick. Contracts see them in the order in
/// which they were set, and the room that was reserved before.
///
/// Each is in a slot; the slots are in the order of `set`, and a map has the slot of each
/// submission. A free slot is not used again until there is no other room. Then, if half of the
/// slots are free, the others close up, so that this costs no more than the calls that freed
/// them.
#[derive(Drop)]
pub struct Deadlines {
    slots: Slots,
    used: usize,
    waiting: usize,
    places: IndexMap<Sub, usize>,
}

impl Model for Deadlines {
    ghost use Rattle.std.specs.Prelude.{◌-◌, length};
    ghost use Rattle.indexmap.specs.IndexMap.{get, spare as spare_of};
    ghost use Rattle.vz_ids.specs.Ids.{same_sub};
    ghost use Rattle.vz_deadlines.specs.Timing.{Timed};
    ghost use Rattle.vz_deadlines.specs.Slots.{standing, AreKept};

    ghost Value = { Timed };

    ghost view = { λ a. record { list = standing a.slots; spare = length a.slots - a.used } };

    ghost invariant = { λ a. AreKept a.slots a.used a.waiting (get same_sub a.places) (spare_of a.places) };
}

impl Deadlines {
    /// Creates an empty list. It allocates nothing.
    pub fn new(alloc: Global) -> Deadlines
        ensures { result.list ≡ [] }
    {
        Deadlines {
            slots: Slots::new(alloc),
            used: 0,
            waiting: 0,
            places: IndexMap::new(alloc),
        }
    }

    /// Makes room for at least `n` more submissions. The only error is `Memory`, if an allocation
    /// fails. In either case nothing else changes and no room is lost.
    pub fn ready(&mut self, n: usize) -> Result<(), Memory>
        ensures list { self.new.list ≡ self.old.list }
        ensures ok { OnOk result (n ≤ self.new.spare) }
        ensures err { OnErr result (self.new ≡ self.old) }
        ensures succeeds { n ≤ self.old.spare → IsOk result }
        ensures spare { self.old.spare ≤ self.new.spare }
    {
        let len = self.slots.len();
        if n <= len - self.used {
            return Ok(());
        }
        if self.waiting <= len / 2 && n <= len - self.waiting {
            self.places.reserve(len - self.waiting)?;
            self.slots.close_up();
            number_all(&self.slots, &mut self.places);
            self.used = self.waiting;
            return Ok(());
        }
        let more = n.max(len);
        let Some(all) = (len - self.used).checked_add(more) else {
            return Err(Memory);
        };
        self.places.reserve(all)?;
        self.slots.grow(more)?;
        Ok(())
    }

    /// Adds a submission that waits until `tick`. It returns `Memory` if an allocation fails;
    /// then nothing changes. If there is room for one, it returns Ok and uses up no more than
    /// that. Condition: the submission does not wait yet.
    pub fn set(&mut self, s: Sub, tick: u32) -> Result<(), Memory>
        requires { IsFalse (waits self.old.list s) }
        ensures list { OnOk result (self.new.list
            ≡ self.old.list ++ record { sub = s; tick = tick } ∷ []) }
        ensures err { OnErr result (self.new ≡ self.old) }
        ensures succeeds { 0 < self.old.spare → IsOk result }
        ensures spare { self.old.spare ≤ self.new.spare + 1 }
    {
        self.ready(1)?;
        self.places.insert(s, self.used).unwrap();
        self.slots.put(self.used, Due { sub: s, tick });
        self.used += 1;
        self.waiting += 1;
        Ok(())
    }

    /// Removes a submission, which waits no longer. If it did not wait, nothing changes.
    pub fn clear(&mut self, s: Sub)
        ensures list { self.new.list ≡ without s self.old.list }
        ensures gone { IsFalse (waits self.new.list s) }
        ensures spare { self.old.spare ≤ self.new.spare }
    {
        match self.places.swap_remove(&s) {
            Some(place) => {
                if self.slots.has(place, s) {
                    self.slots.free(place);
                    self.waiting -= 1;
                }
            }
            None => {}
        }
    }

    /// How many submissions wait.
    pub fn waiting(&self) -> usize
        ensures { result ≡ length self.now.list }
    {
        self.waiting
    }

    /// Begins a tick: appends to `out` the submissions whose deadline has come, in the order in
    /// which they were set, and removes them. It allocates nothing. Condition: `out` has room for
    /// all that wait.
    pub fn begin(&mut self, tick: u32, out: &mut Room<Sub>)
        requires { length self.old.list ≤ out.old.spare }
        ensures out { out.new.list ≡ out.old.list ++ due_at tick self.old.list }
        ensures list { self.new.list ≡ left_at tick self.old.list }
        ensures spare { self.old.spare ≤ self.new.spare }
        ensures room { out.old.spare ≡ out.new.spare + length (due_at tick self.old.list) }
    {
        let before = out.as_slice().len();
        self.slots.take_due(tick, out);
        let due = &out.as_slice()[before..];
        forget_all(due, &mut self.places);
        self.waiting -= due.len();
    }
}
