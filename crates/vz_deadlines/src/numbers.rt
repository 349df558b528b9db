//! The map with the slot of each submission.
ghost use Rattle.std.specs.Prelude.{◌≡◌, ◌≤◌, Some, None, if◌then◌else◌, IsTrue, IsFalse, IsSome};
ghost use Rattle.indexmap.specs.IndexMap.{get, spare as spare_of};
ghost use Rattle.vz_ids.specs.declared.Sub.{Sub};
ghost use Rattle.vz_ids.specs.Ids.{same_sub};
ghost use Rattle.vz_rules.specs.World.{has_sub};
ghost use Rattle.vz_deadlines.specs.Slots.{standing, are_distinct, AreFound, AreTold};

use crate::slots::Slots;
use indexmap::IndexMap;
use vz_ids::Sub;

/// Writes the slot of each submission into the map. Condition: the map has some slot for each of
/// them, and no submission is in two slots.
pub(crate) fn number_all(slots: &Slots, places: &mut IndexMap<Sub, usize>)
    requires told { AreTold (get same_sub places.old) slots.now }
    requires distinct { IsTrue (are_distinct (standing slots.now)) }
    ensures found { AreFound (get same_sub places.new) slots.now }
    ensures spare { spare_of places.old ≤ spare_of places.new }
{
    for place in 0..slots.len() {
        match slots.at(place) {
            Some(due) => number(places, due.sub, place),
            None => {}
        }
    }
}

/// Writes the slot of one submission. Condition: the map has some slot for it.
fn number(places: &mut IndexMap<Sub, usize>, s: Sub, place: usize)
    requires { IsSome (get same_sub places.old s) }
    ensures own { get same_sub places.new s ≡ Some place }
    ensures others { (t : Sub) → IsFalse (same_sub s t)
        → get same_sub places.new t ≡ get same_sub places.old t }
    ensures spare { spare_of places.old ≤ spare_of places.new }
{
    if let Some(told) = places.get_mut(&s) {
        *told = place;
    }
}

/// Removes the submissions of a list from the map. The other entries do not change.
pub(crate) fn forget_all(list: &[Sub], places: &mut IndexMap<Sub, usize>)
    ensures told { (t : Sub) → get same_sub places.new t
        ≡ if has_sub list.now t then None else get same_sub places.old t }
    ensures spare { spare_of places.old ≤ spare_of places.new }
{
    for s in list {
        places.swap_remove(s);
    }
}
