//! Temporary surfaces by name, each with its place in its group.
ghost use Rattle.std.specs.Prelude.{◌≡◌, ◌≤◌, ◌<◌, ◌+◌, ◌-◌, ℕ, Bool, true, false, None, Some, [], if◌then◌else◌, not, IsOk, OnOk, IsTrue};
ghost use Rattle.std.specs.Option.{option_map};
ghost use Rattle.std.specs.Map.{lookup};
ghost use Rattle.indexmap.specs.IndexMap.{spare as spare_of};
ghost use Rattle.vz_ids.specs.Ids.{same_sink};
ghost use Rattle.vz_ids.specs.declared.SurfaceId.{SurfaceId as SurfaceOf};
ghost use Rattle.vz_ids.specs.declared.GroupKey.{GroupKey as GroupOf};
ghost use Rattle.vz_refs.specs.declared.sets.Place.{Place as PlaceOf};
ghost use Rattle.vz_refs.specs.declared.seats.Name.{Name as NameOf};
ghost use Rattle.vz_refs.specs.declared.seats.Kept.{Kept as KeptOf};
ghost use Rattle.vz_refs.specs.Indexing.{same_key, same_place, or_zero};
ghost use Rattle.vz_refs.specs.Lasting.{same_name, kept_in, surface_in, name_in, size_in, room_in, Stands, Ends, IsRid, named_by, is_among, of_sink, not_of};

use crate::indexes::{size_of, write};
use crate::naming::names;
use crate::sets::Place;
use indexmap::IndexMap;
use std::alloc::Global;
use vz_base::Memory;
use vz_ids::{FrameSinkId, GroupKey, SurfaceId, SurfaceRange};

/// The name of a temporary surface: its last tick, and a number that is used only once.
#[derive(Clone, Copy, PartialEq, Eq, Hash)]
pub(crate) struct Name {
    pub(crate) until: u32,
    pub(crate) number: u64,
}

/// A temporary surface, and its place in its group.
#[derive(Clone, Copy)]
pub(crate) struct Kept {
    pub(crate) id: SurfaceId,
    pub(crate) at: usize,
}

/// Temporary surfaces by name. The places of a group are numbered without gaps, so that the
/// surfaces that a range names are looked for in one group alone.
#[derive(Drop)]
pub(crate) struct Seats {
    pub(crate) kept: IndexMap<Name, Kept>,
    pub(crate) names: IndexMap<Place, Name>,
    pub(crate) sizes: IndexMap<GroupKey, usize>,
}

impl Seats {
    /// Creates an empty table. It allocates nothing.
    pub(crate) fn new(alloc: Global) -> Seats
        ensures stands { Stands result }
        ensures none { result.kept.entries ≡ [] }
    {
        Seats {
            kept: IndexMap::new(alloc),
            names: IndexMap::new(alloc),
            sizes: IndexMap::new(alloc),
        }
    }

    /// Makes room for one more surface.
    pub(crate) fn reserve(&mut self) -> Result<(), Memory>
        ensures kept { self.new.kept.entries ≡ self.old.kept.entries }
        ensures names { self.new.names.entries ≡ self.old.names.entries }
        ensures sizes { self.new.sizes.entries ≡ self.old.sizes.entries }
        ensures ok { OnOk result (0 < room_in self.new) }
        ensures succeeds { 0 < room_in self.old → IsOk result }
        ensures room { room_in self.old ≤ room_in self.new }
    {
        self.kept.reserve(1)?;
        self.names.reserve(1)?;
        self.sizes.reserve(1)?;
        Ok(())
    }

    /// Adds a surface under a name. Conditions: the name is new, and there is room for it.
    pub(crate) fn put(&mut self, name: Name, id: SurfaceId)
        requires stands { Stands self.old }
        requires new { kept_in self.old name ≡ None }
        requires room { 0 < room_in self.old }
        ensures stands { Stands self.new }
        ensures surface { (n : NameOf) → surface_in self.new n
            ≡ (if same_name name n then Some id else surface_in self.old n) }
        ensures room { room_in self.old ≤ room_in self.new + 1 }
    {
        let group = id.group();
        let at = size_of(&self.sizes, group);
        prove!(self.names.len() < usize::MAX);
        self.kept.insert(name, Kept { id, at }).unwrap();
        self.names.insert(Place { group, at }, name).unwrap();
        self.sizes.insert(group, at + 1).unwrap();
    }

    /// Removes the surface of a name, if there is one. The last surface of its group takes its
    /// place.
    pub(crate) fn take(&mut self, name: &Name)
        requires stands { Stands self.old }
        ensures stands { Stands self.new }
        ensures surface { (n : NameOf) → surface_in self.new n
            ≡ (if same_name name.now n then None else surface_in self.old n) }
        ensures names { (p : PlaceOf) (n : NameOf) → name_in self.new p ≡ Some n
            → (j : ℕ) × (p.at ≤ j) × (name_in self.old (record p { at = j }) ≡ Some n) }
        ensures room { room_in self.old ≤ room_in self.new }
    {
        if let Some(gone) = self.kept.swap_remove(name) {
            let group = gone.id.group();
            let last = shrink(&mut self.sizes, &group);
            let moved = self.names.swap_remove(&Place { group, at: last }).unwrap();
            write(&mut self.names, Place { group, at: gone.at }, moved);
            seat(&mut self.kept, &moved, gone.at);
        }
    }

    /// Whether a range names the surface of a name.
    fn is_named(&self, name: &Name, range: &SurfaceRange) -> bool
        ensures yes { result ≡ true → (d : SurfaceOf) → surface_in self.now name.now ≡ Some d
            → named_by range.now name.now d ≡ true }
        ensures no { result ≡ false → (d : SurfaceOf) → surface_in self.now name.now ≡ Some d
            → named_by range.now name.now d ≡ false }
    {
        match self.kept.get(name) {
            Some(kept) => names(range, &kept.id),
            None => false,
        }
    }

    /// Removes the surface at a place if a range names it.
    fn look(&mut self, range: &SurfaceRange, place: &Place)
        requires stands { Stands self.old }
        ensures ends { Ends (named_by range.now) self.old self.new }
        ensures rid { (n : NameOf) (d : SurfaceOf) → name_in self.old place.now ≡ Some n
            → surface_in self.new n ≡ Some d → named_by range.now n d ≡ false }
    {
        if let Some(name) = self.names.get(place).copied() {
            if self.is_named(&name, range) {
                self.take(&name);
            }
        }
    }

    /// Removes the surfaces that a range names. It looks at one group alone.
    pub(crate) fn end_named(&mut self, range: &SurfaceRange)
        requires stands { Stands self.old }
        ensures ends { Ends (named_by range.now) self.old self.new }
        ensures rid { IsRid (named_by range.now) self.new }
    {
        let group = range.end.group();
        let size = size_of(&self.sizes, group);
        for k in 0..size {
            let at = size - 1 - k;
            self.look(range, &Place { group, at });
        }
    }

    /// Removes the surfaces whose last tick is `until` and whose number is at least `first` and
    /// less than `next`.
    pub(crate) fn end_until(&mut self, until: u32, first: u64, next: u64)
        requires stands { Stands self.old }
        ensures ends { Ends (is_among until first next) self.old self.new }
        ensures rid { (n : NameOf) → n.until ≡ until → first ≤ n.number → n.number < next
            → surface_in self.new n ≡ None }
    {
        for number in first..next {
            self.take(&Name { until, number });
        }
    }

    /// Removes the surfaces of a sink, which are whole groups.
    pub(crate) fn end_of(&mut self, sink: FrameSinkId)
        requires stands { Stands self.old }
        ensures ends { Ends (of_sink sink) self.old self.new }
        ensures rid { IsRid (of_sink sink) self.new }
    {
        keep_others(&mut self.kept, sink);
        keep_other_places(&mut self.names, sink);
        keep_other_groups(&mut self.sizes, sink);
    }
}

/// Lowers the size of a group by one and returns the new size. Condition: it was not 0.
fn shrink(sizes: &mut IndexMap<GroupKey, usize>, group: &GroupKey) -> usize
    requires { 0 < or_zero (lookup (same_key group.now) sizes.old.entries) }
    ensures size { result + 1 ≡ or_zero (lookup (same_key group.now) sizes.old.entries) }
    ensures sizes { (g : GroupOf) → or_zero (lookup (same_key g) sizes.new.entries)
        ≡ (if same_key group.now g then result
        else or_zero (lookup (same_key g) sizes.old.entries)) }
    ensures spare { spare_of sizes.old ≤ spare_of sizes.new }
{
    match sizes.get_mut(group) {
        Some(size) if *size > 1 => {
            *size -= 1;
            *size
        }
        _ => {
            sizes.swap_remove(group);
            0
        }
    }
}

/// Moves the surface of a name, if there is one, to another place of its group.
fn seat(kept: &mut IndexMap<Name, Kept>, name: &Name, at: usize)
    ensures kept { (n : NameOf) → lookup (same_name n) kept.new.entries
        ≡ (if same_name name.now n then option_map (λ (k : KeptOf). record k { at = at })
        (lookup (same_name n) kept.old.entries) else lookup (same_name n) kept.old.entries) }
    ensures spare { spare_of kept.old ≤ spare_of kept.new }
{
    if let Some(one) = kept.get_mut(name) {
        one.at = at;
    }
}

/// Keeps only the surfaces of other sinks.
fn keep_others(kept: &mut IndexMap<Name, Kept>, sink: FrameSinkId)
    ensures kept { (n : NameOf) → lookup (same_name n) kept.new.entries
        ≡ not_of sink (lookup (same_name n) kept.old.entries) }
    ensures spare { spare_of kept.old ≤ spare_of kept.new }
{
    prove!(kept.len() < usize::MAX);
    kept.retain(
        |_name: &Name, one: &mut Kept| -> bool
            ensures { (result ≡ not (same_sink one.old.id.sink sink)) × (one.new ≡ one.old) }
        { one.id.sink != sink },
    );
}

/// Keeps only the places in groups of other sinks.
fn keep_other_places(names: &mut IndexMap<Place, Name>, sink: FrameSinkId)
    ensures names { (p : PlaceOf) → lookup (same_place p) names.new.entries
        ≡ (if not (same_sink p.group.sink sink) then lookup (same_place p) names.old.entries
        else None) }
    ensures spare { spare_of names.old ≤ spare_of names.new }
{
    names.retain(
        |place: &Place, _name: &mut Name| -> bool
            ensures { (result ≡ not (same_sink place.now.group.sink sink))
                × (_name.new ≡ _name.old) }
        { place.group.sink != sink },
    );
}

/// Keeps only the sizes of groups of other sinks.
fn keep_other_groups(sizes: &mut IndexMap<GroupKey, usize>, sink: FrameSinkId)
    ensures sizes { (g : GroupOf) → or_zero (lookup (same_key g) sizes.new.entries)
        ≡ (if not (same_sink g.sink sink) then or_zero (lookup (same_key g) sizes.old.entries)
        else 0) }
    ensures spare { spare_of sizes.old ≤ spare_of sizes.new }
{
    sizes.retain(
        |group: &GroupKey, _size: &mut usize| -> bool
            ensures { (result ≡ not (same_sink group.now.sink sink)) × (_size.new ≡ _size.old) }
        { group.sink != sink },
    );
}
