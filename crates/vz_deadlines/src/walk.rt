//! The slots as a tree: the first slot leads all of them, the first slot of each half of the
//! others leads that half, and so on. A leader knows a tick before which none of those that it
//! leads is due, so that a half in which nothing is due is not entered.
ghost use Rattle.std.specs.Prelude.{◌≡◌, ◌≤◌, ◌<◌, ◌+◌, Some, [], ◌∷◌, ◌++◌, length, map, min, slice_set, IsTrue};
ghost use Rattle.vz_deadlines.specs.Timing.{due_at};
ghost use Rattle.vz_deadlines.specs.Slots.{standing, held_in, left_in, slot_at, are_from, AreBounded};

use crate::due::Due;
use crate::slots::Slot;
use vz_frame::Room;
use vz_ids::Sub;

/// Puts a submission into a slot. Condition: the slot exists.
pub(crate) fn put_in(slots: &mut [Slot], levels: u32, place: usize, due: Due)
    requires { place < length slots.old }
    ensures held { held_in slots.new ≡ slice_set (held_in slots.old) place (Some due) }
    ensures bounded { AreBounded levels slots.old → AreBounded levels slots.new }
{
    if levels == 0 {
        slots[place].due = Some(due);
        return;
    }
    let Some((first, rest)) = slots.split_first_mut() else {
        return;
    };
    first.soonest = smaller(first.soonest, due.tick);
    if place == 0 {
        first.due = Some(due);
        return;
    }
    let half = rest.len() / 2;
    let (left, right) = rest.split_at_mut(half);
    if place - 1 < half {
        put_in(left, levels - 1, place - 1, due);
    } else {
        put_in(right, levels - 1, place - 1 - half, due);
    }
}

/// Appends the submissions that are due at a tick, frees their slots, and returns a tick before
/// which none of the others is due. Condition: `out` has room for the submissions of all slots.
pub(crate) fn take_due(slots: &mut [Slot], levels: u32, tick: u32, out: &mut Room<Sub>) -> u32
    requires bounded { AreBounded levels slots.old }
    requires room { length (standing (held_in slots.old)) ≤ out.old.spare }
    ensures out { out.new.list ≡ out.old.list ++ due_at tick (standing (held_in slots.old)) }
    ensures held { held_in slots.new ≡ map (left_in tick) (held_in slots.old) }
    ensures bounded { AreBounded levels slots.new }
    ensures least { IsTrue (are_from result (held_in slots.new)) }
    ensures room { out.old.spare
        ≡ out.new.spare + length (due_at tick (standing (held_in slots.old))) }
{
    if levels == 0 {
        return take_each(slots, tick, out);
    }
    match slots.split_first_mut() {
        None => u32::MAX,
        Some((first, rest)) => {
            if tick < first.soonest {
                return first.soonest;
            }
            let of_first = take_one(first, tick, out);
            let half = rest.len() / 2;
            let (left, right) = rest.split_at_mut(half);
            let of_left = take_due(left, levels - 1, tick, out);
            let of_right = take_due(right, levels - 1, tick, out);
            let least = smaller(of_first, smaller(of_left, of_right));
            first.soonest = least;
            least
        }
    }
}

/// As `take_due`, for a few slots; it looks at each of them.
fn take_each(slots: &mut [Slot], tick: u32, out: &mut Room<Sub>) -> u32
    requires { length (standing (held_in slots.old)) ≤ out.old.spare }
    ensures out { out.new.list ≡ out.old.list ++ due_at tick (standing (held_in slots.old)) }
    ensures slots { slots.new ≡ map (slot_at tick) slots.old }
    ensures least { IsTrue (are_from result (held_in slots.new)) }
    ensures room { out.old.spare
        ≡ out.new.spare + length (due_at tick (standing (held_in slots.old))) }
{
    let mut least = u32::MAX;
    for slot in slots {
        least = smaller(least, take_one(slot, tick, out));
    }
    least
}

/// As `take_due`, for one slot.
fn take_one(slot: &mut Slot, tick: u32, out: &mut Room<Sub>) -> u32
    requires { length (standing (slot.old.due ∷ [])) ≤ out.old.spare }
    ensures out { out.new.list ≡ out.old.list ++ due_at tick (standing (slot.old.due ∷ [])) }
    ensures slot { slot.new ≡ slot_at tick slot.old }
    ensures least { IsTrue (are_from result (slot.new.due ∷ [])) }
    ensures room { out.old.spare
        ≡ out.new.spare + length (due_at tick (standing (slot.old.due ∷ []))) }
{
    match slot.due {
        Some(due) => {
            if tick < due.tick {
                return due.tick;
            }
            out.put(due.sub);
            slot.due = None;
            u32::MAX
        }
        None => u32::MAX,
    }
}

/// The smaller of two ticks.
fn smaller(a: u32, b: u32) -> u32
    ensures { result ≡ min a b }
{
    if a < b { a } else { b }
}
