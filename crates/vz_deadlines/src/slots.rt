//! Slots in which submissions wait for their tick.
ghost use Rattle.std.specs.Prelude.{◌≡◌, ◌≤◌, ◌<◌, ◌+◌, ◌-◌, ◌*◌, ◌^◌, ◌/◌, None, Some, [], ◌++◌, length, map, replicate, slice_get, slice_set, vec_len, vec_capacity, IsTrue, OnOk, OnErr};
ghost use Rattle.vz_deadlines.specs.Timing.{due_at};
ghost use Rattle.vz_deadlines.specs.Slots.{standing, stands_at, held_in, left_in, are_unbounded};

use crate::due::Due;
use crate::walk::{put_in, take_due};
use std::alloc::Global;
use std::marker::Model;
use vz_base::Memory;
use vz_frame::Room;
use vz_ids::Sub;

/// From this number of slots on, they are searched by halves.
const GROUP: usize = 16;

/// A slot, which may hold a submission, and a tick before which none of the slots that it leads
/// is due.
#[derive(Clone, Copy)]
pub(crate) struct Slot {
    pub(crate) due: Option<Due>,
    pub(crate) soonest: u32,
}

/// The slots. Contracts see what each of them holds.
#[derive(Drop)]
pub(crate) struct Slots {
    slots: Vec<Slot>,
    levels: u32,
}

impl Model for Slots {
    ghost use Rattle.std.specs.Prelude.{Option, List};
    ghost use Rattle.vz_deadlines.specs.declared.due.Due.{Due};
    ghost use Rattle.vz_deadlines.specs.Slots.{held_in, AreBounded};

    ghost Value = { List (Option Due) };

    ghost view = { λ a. held_in a.slots.items };

    ghost invariant = { λ a. AreBounded a.levels a.slots.items };
}

impl Slots {
    /// Creates a list without slots.
    pub(crate) fn new(alloc: Global) -> Slots
        ensures { result ≡ [] }
    {
        Slots {
            slots: Vec::new(alloc),
            levels: 0,
        }
    }

    /// How many slots there are, free or not.
    pub(crate) fn len(&self) -> usize
        ensures { result ≡ length self.now }
    {
        self.slots.len()
    }

    /// Appends `more` free slots. If an allocation fails, nothing changes.
    pub(crate) fn grow(&mut self, more: usize) -> Result<(), Memory>
        ensures ok { OnOk result (self.new ≡ self.old ++ replicate more None) }
        ensures err { OnErr result (self.new ≡ self.old) }
    {
        self.slots.try_reserve(more)?;
        fill(&mut self.slots, more);
        forget_ticks(&mut self.slots);
        self.levels = levels_of(self.slots.len());
        Ok(())
    }

    /// Moves the submissions into the first slots, in their order.
    pub(crate) fn close_up(&mut self)
        ensures { self.new ≡ map Some (standing self.old)
            ++ replicate (length self.old - length (standing self.old)) None }
    {
        let len = self.slots.len();
        self.slots.retain(|slot| slot.due.is_some());
        let free = len - self.slots.len();
        fill(&mut self.slots, free);
        forget_ticks(&mut self.slots);
    }

    /// The submission in a slot, if it has one. Condition: the slot exists.
    pub(crate) fn at(&self, place: usize) -> Option<Due>
        requires { place < length self.now }
        ensures { slice_get self.now place ≡ Some result }
    {
        self.slots[place].due
    }

    /// Whether a submission is in a slot.
    pub(crate) fn has(&self, place: usize, s: Sub) -> bool
        ensures { result ≡ stands_at self.now place s }
    {
        match self.slots.get(place) {
            Some(slot) => match slot.due {
                Some(due) => due.sub == s,
                None => false,
            },
            None => false,
        }
    }

    /// Puts a submission into a slot. Condition: the slot exists.
    pub(crate) fn put(&mut self, place: usize, due: Due)
        requires { place < length self.old }
        ensures slots { self.new ≡ slice_set self.old place (Some due) }
        ensures small { length self.new < 2 ^ 63 }
    {
        put_in(&mut self.slots, self.levels, place, due);
    }

    /// Frees a slot. Condition: the slot exists.
    pub(crate) fn free(&mut self, place: usize)
        requires { place < length self.old }
        ensures { self.new ≡ slice_set self.old place None }
    {
        self.slots[place].due = None;
    }

    /// Appends the submissions that are due at a tick, in order, and frees their slots.
    /// Condition: `out` has room for the submissions of all slots.
    pub(crate) fn take_due(&mut self, tick: u32, out: &mut Room<Sub>)
        requires { length (standing self.old) ≤ out.old.spare }
        ensures out { out.new.list ≡ out.old.list ++ due_at tick (standing self.old) }
        ensures slots { self.new ≡ map (left_in tick) self.old }
        ensures room { out.old.spare ≡ out.new.spare + length (due_at tick (standing self.old)) }
    {
        take_due(&mut self.slots, self.levels, tick, out);
    }
}

/// How often the slots are halved so that fewer than `GROUP` are left in a part.
fn levels_of(len: usize) -> u32
    ensures enough { len / 16 < 2 ^ result }
    ensures few { 2 ^ result ≤ 2 * (len / 16) + 1 }
{
    usize::BITS - (len / GROUP).leading_zeros()
}

/// Appends `more` free slots. Condition: there is room for them.
fn fill(slots: &mut Vec<Slot>, more: usize)
    requires { vec_len slots.old + more ≤ vec_capacity slots.old }
    ensures { held_in slots.new.items ≡ held_in slots.old.items ++ replicate more None }
{
    for _ in 0..more {
        slots.push_reserved(Slot {
            due: None,
            soonest: 0,
        });
    }
}

/// Resets the tick of each slot, which then says nothing of the slots that it leads.
fn forget_ticks(slots: &mut [Slot])
    ensures held { held_in slots.new ≡ held_in slots.old }
    ensures unbounded { IsTrue (are_unbounded slots.new) }
{
    for slot in slots {
        slot.soonest = 0;
    }
}
