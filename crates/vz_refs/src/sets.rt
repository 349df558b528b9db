//! The ranges that are set for each surface, with an index of their ends by group.
ghost use Rattle.std.specs.Prelude.{◌≡◌, ◌≤◌, ◌<◌, ◌+◌, [], ◌++◌, length, map, position, IsTrue, IsOk, OnOk, Some, slice_get};
ghost use Rattle.vz_ids.specs.Ids.{same_surface};
ghost use Rattle.vz_refs.specs.Referring.{is_set, ranges_of, set_one, setting, removing, is_named_in};
ghost use Rattle.vz_refs.specs.Indexing.{opening, changing, one_more, but_last};

use crate::indexes::{move_edge, size_of, write};
use crate::listing::Listing;
use crate::naming::names_at;
use indexmap::IndexMap;
use std::alloc::Global;
use std::marker::Model;
use vz_base::Memory;
use vz_ids::{GroupKey, SurfaceId, SurfaceRange};

/// One of the ranges of a surface, by its place among them.
#[derive(Clone, Copy, PartialEq, Eq, Hash)]
pub(crate) struct Nth {
    pub(crate) of: SurfaceId,
    pub(crate) nth: usize,
}

/// A place in a group.
#[derive(Clone, Copy, PartialEq, Eq, Hash)]
pub(crate) struct Place {
    pub(crate) group: GroupKey,
    pub(crate) at: usize,
}

/// A range that is set, and its place in the group of its end.
#[derive(Clone, Copy)]
pub(crate) struct Edge {
    pub(crate) range: SurfaceRange,
    pub(crate) at: usize,
}

/// The ranges that are set for surfaces. Contracts see them in the order in which the surfaces
/// were first set, and the room that was reserved before. The ranges whose end is in a group have
/// places without gaps there, so that the ranges that name a surface are looked for in one group
/// alone.
#[derive(Drop)]
pub(crate) struct Sets {
    counts: IndexMap<SurfaceId, usize>,
    edges: IndexMap<Nth, Edge>,
    ends: IndexMap<Place, Nth>,
    sizes: IndexMap<GroupKey, usize>,
    listing: Listing,
}

impl Model for Sets {
    ghost use Rattle.std.specs.Prelude.{min};
    ghost use Rattle.indexmap.specs.IndexMap.{get, keys, spare as spare_of};
    ghost use Rattle.vz_ids.specs.Ids.{same_surface};
    ghost use Rattle.vz_refs.specs.Indexing.{Known, IsIndexed, same_nth, same_place, same_key};

    ghost Value = { Known };

    ghost view = { λ a. record {
      list = a.listing;
      keys = keys a.counts;
      spare = min (spare_of a.counts) (min (spare_of a.edges) (min (spare_of a.ends) (spare_of a.sizes)));
    } };

    ghost invariant = { λ a. IsIndexed a.listing (get same_surface a.counts) (get same_nth a.edges)
        (get same_place a.ends) (get same_key a.sizes) };
}

impl Sets {
    /// Creates a table in which no surface is set.
    pub(crate) fn new(alloc: Global) -> Sets
        ensures { result.list ≡ [] }
    {
        Sets {
            counts: IndexMap::new(alloc),
            edges: IndexMap::new(alloc),
            ends: IndexMap::new(alloc),
            sizes: IndexMap::new(alloc),
            listing: Listing::new(),
        }
    }

    /// Makes room for at least `n` more surfaces and ranges together.
    pub(crate) fn reserve(&mut self, n: usize) -> Result<(), Memory>
        ensures list { self.new.list ≡ self.old.list }
        ensures ok { OnOk result (n ≤ self.new.spare) }
        ensures succeeds { n ≤ self.old.spare → IsOk result }
        ensures spare { self.old.spare ≤ self.new.spare }
    {
        self.counts.reserve(n)?;
        self.edges.reserve(n)?;
        self.ends.reserve(n)?;
        self.sizes.reserve(n)?;
        Ok(())
    }

    /// Whether a surface is set.
    pub(crate) fn has(&self, id: &SurfaceId) -> bool
        ensures { result ≡ is_set self.now.list id.now }
    {
        self.counts.contains_key(id)
    }

    /// Whether a surface is set without ranges and is to get none, so that nothing changes.
    pub(crate) fn is_bare(&self, id: &SurfaceId, ranges: &[SurfaceRange]) -> bool
        ensures none { IsTrue result → ranges.now ≡ [] }
        ensures same { IsTrue result → setting id.now ranges.now self.now.list ≡ self.now.list }
    {
        if !ranges.is_empty() {
            return false;
        }
        match self.counts.get(id) {
            Some(count) => *count == 0,
            None => false,
        }
    }

    /// How many ranges a surface has.
    pub(crate) fn count(&self, id: &SurfaceId) -> usize
        ensures { result ≡ length (ranges_of self.now.list id.now) }
    {
        match self.counts.get(id) {
            Some(count) => *count,
            None => 0,
        }
    }

    /// One range of a surface. Condition: the surface has more than `nth` ranges.
    pub(crate) fn nth(&self, of: SurfaceId, nth: usize) -> SurfaceRange
        requires { nth < length (ranges_of self.now.list of) }
        ensures { slice_get (ranges_of self.now.list of) nth ≡ Some result }
    {
        self.edges.get(&Nth { of, nth }).unwrap().range
    }

    /// Sets a surface, without ranges so far.
    pub(crate) fn open(&mut self, id: SurfaceId)
        requires { 0 < self.old.spare }
        ensures list { self.new.list ≡ opening id self.old.list }
        ensures spare { self.old.spare ≤ self.new.spare + 1 }
    {
        if !self.counts.contains_key(&id) {
            self.counts.insert(id, 0).unwrap();
            self.listing.open(id);
        }
    }

    /// Appends a range to those of a surface that is set.
    pub(crate) fn append(&mut self, id: SurfaceId, range: SurfaceRange)
        requires set { IsTrue (is_set self.old.list id) }
        requires room { 0 < self.old.spare }
        ensures list { self.new.list ≡ changing (one_more range) id self.old.list }
        ensures spare { self.old.spare ≤ self.new.spare + 1 }
    {
        prove!(self.edges.len() < 1 << 63);
        prove!(self.ends.len() < 1 << 63);
        let slot = Nth {
            of: id,
            nth: self.count(&id),
        };
        let group = range.end.group();
        let at = size_of(&self.sizes, group);
        self.edges.insert(slot, Edge { range, at }).unwrap();
        self.ends.insert(Place { group, at }, slot).unwrap();
        self.sizes.insert(group, at + 1).unwrap();
        write(&mut self.counts, id, slot.nth + 1);
        self.listing.lengthen(id, range);
    }

    /// Removes the last range of a surface. Condition: it has one.
    pub(crate) fn pop(&mut self, id: SurfaceId)
        requires { 0 < length (ranges_of self.old.list id) }
        ensures list { self.new.list ≡ changing but_last id self.old.list }
        ensures spare { self.old.spare ≤ self.new.spare }
    {
        let slot = Nth {
            of: id,
            nth: self.count(&id) - 1,
        };
        let edge = self.edges.swap_remove(&slot).unwrap();
        let group = edge.range.end.group();
        let last = size_of(&self.sizes, group) - 1;
        let moved = self.ends.swap_remove(&Place { group, at: last }).unwrap();
        let at = edge.at;
        write(&mut self.ends, Place { group, at }, moved);
        move_edge(&mut self.edges, moved, at);
        write(&mut self.sizes, group, last);
        write(&mut self.counts, id, slot.nth);
        self.listing.shorten(id);
    }

    /// Removes a surface. Condition: it has no ranges.
    pub(crate) fn forget(&mut self, id: SurfaceId)
        requires { ranges_of self.old.list id ≡ [] }
        ensures list { self.new.list ≡ removing id self.old.list }
        ensures spare { self.old.spare ≤ self.new.spare }
    {
        self.counts.swap_remove(&id);
        self.listing.remove(id);
    }

    /// Removes all ranges of a surface, which is still set.
    pub(crate) fn clear(&mut self, id: SurfaceId)
        ensures list { self.new.list ≡ map (set_one id []) self.old.list }
        ensures spare { self.old.spare ≤ self.new.spare }
    {
        prove!(self.edges.len() < 1 << 63);
        for taken in 0..self.count(&id) {
            self.pop(id);
        }
    }

    /// Appends ranges to those of a surface that is set.
    pub(crate) fn extend(&mut self, id: SurfaceId, ranges: &[SurfaceRange])
        requires set { IsTrue (is_set self.old.list id) }
        requires room { length ranges.now ≤ self.old.spare }
        ensures list { self.new.list ≡ changing (λ old. old ++ ranges.now) id self.old.list }
        ensures spare { self.old.spare ≤ self.new.spare + length ranges.now }
    {
        for range in ranges {
            self.append(id, *range);
        }
    }

    /// Whether a range that is set names a surface.
    pub(crate) fn is_named(&self, id: &SurfaceId) -> bool
        ensures { result ≡ is_named_in self.now.list id.now }
    {
        let group = id.group();
        for at in 0..size_of(&self.sizes, group) {
            if names_at(&self.edges, &self.ends, Place { group, at }, id) {
                return true;
            }
        }
        false
    }

    /// The place of a surface in the index.
    pub(crate) fn place(&self, id: &SurfaceId) -> Option<usize>
        ensures { result ≡ position (same_surface id.now) self.now.keys }
    {
        self.counts.get_index_of(id)
    }

    /// How many surfaces are set.
    pub(crate) fn len(&self) -> usize
        ensures { result ≡ length self.now.list }
    {
        self.counts.len()
    }
}
