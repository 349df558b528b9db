//! Writes into indexes whose room was reserved before.
ghost use Rattle.std.specs.Prelude.{◌≡◌, ◌≤◌, if◌then◌else◌};
ghost use Rattle.std.specs.Option.{option_map};
ghost use Rattle.indexmap.specs.IndexMap.{get, spare as spare_of};
ghost use Rattle.vz_refs.specs.declared.sets.Nth.{Nth as Slot};
ghost use Rattle.vz_refs.specs.Indexing.{or_zero, same_nth, same_key};

use crate::sets::{Edge, Nth};
use indexmap::IndexMap;
use std::hash::Hash;
use vz_ids::GroupKey;

/// Replaces the value of a key. If the map does not have the key, nothing changes.
pub(crate) fn write<K: Copy + Eq + Hash, V: Copy>(map: &mut IndexMap<K, V>, key: K, value: V)
    ensures values { (q : K) → get K.eq map.new q
        ≡ (if K.eq key q then option_map (λ _. value) (get K.eq map.old q) else get K.eq map.old q) }
    ensures spare { spare_of map.old ≤ spare_of map.new }
{
    if let Some(place) = map.get_mut(&key) {
        *place = value;
    }
}

/// How many ranges or surfaces are in a group; 0 if the group is not in the map.
pub(crate) fn size_of(sizes: &IndexMap<GroupKey, usize>, group: GroupKey) -> usize
    ensures { result ≡ or_zero (get same_key sizes.now group) }
{
    match sizes.get(&group) {
        Some(size) => *size,
        None => 0,
    }
}

/// Notes at which place of its group a range now is.
pub(crate) fn move_edge(edges: &mut IndexMap<Nth, Edge>, slot: Nth, at: usize)
    ensures values { (q : Slot) → get same_nth edges.new q
        ≡ (if same_nth slot q then option_map (λ e. record { range = e.range; at = at }) (get same_nth edges.old q) else get same_nth edges.old q) }
    ensures spare { spare_of edges.old ≤ spare_of edges.new }
{
    if let Some(edge) = edges.get_mut(&slot) {
        edge.at = at;
    }
}
