//! Notes of the place of each surface in a list, so that the list is not searched.
ghost use Rattle.std.specs.Prelude.{◌≡◌};
ghost use Rattle.vz_refs.specs.Noted.{noted, noted_in, IsNoted};

use crate::indexes::write;
use crate::seats::{Kept, Name};
use crate::sets::Sets;
use indexmap::IndexMap;
use std::alloc::Global;
use vz_ids::SurfaceId;

/// A place for each surface that is set, by its index, and one for each temporary surface that is
/// not set. A place that was noted for another list means nothing.
#[derive(Drop)]
pub(crate) struct Notes {
    pub(crate) places: Vec<usize>,
    pub(crate) others: IndexMap<SurfaceId, usize>,
}

impl Notes {
    /// Notes without places. It allocates nothing.
    pub(crate) fn new(alloc: Global) -> Notes {
        Notes {
            places: Vec::new(alloc),
            others: IndexMap::new(alloc),
        }
    }

    /// Makes a place for each of `n` surfaces that are set. If an allocation fails, the list is
    /// searched for those without a place.
    pub(crate) fn make_places(&mut self, n: usize) {
        if self.places.len() < n {
            let _ = self.places.resize(n, 0);
        }
    }

    /// Makes room for the places of more than `n` temporary surfaces. If an allocation fails, the
    /// list is searched for those without a place.
    pub(crate) fn make_room(&mut self, n: usize) {
        if self.others.capacity() <= n {
            self.others.clear();
            let _ = self.others.reserve(n.saturating_add(1));
        }
    }

    /// Gives each temporary surface that is not set a place, as far as there is room. It
    /// allocates nothing.
    pub(crate) fn seat(&mut self, sets: &Sets, kept: &IndexMap<Name, Kept>) {
        self.others.clear();
        for one in kept.values() {
            if !sets.has(&one.id) && self.others.len() < self.others.capacity() {
                let _ = self.others.insert(one.id, 0);
            }
        }
    }

    /// Notes a surface's place in the list, if it has a note.
    fn note(&mut self, sets: &Sets, id: &SurfaceId, place: usize)
        ensures { IsNoted (noted_in sets.now.keys self.old) (noted_in sets.now.keys self.new) id.now place }
    {
        match sets.place(id) {
            Some(index) => {
                if index < self.places.len() {
                    self.places[index] = place;
                }
            }
            None => write(&mut self.others, *id, place),
        }
    }
}

/// The place that is noted for a surface, if one is.
pub(crate) fn noted(sets: &Sets, id: &SurfaceId, notes: &Option<Notes>) -> Option<usize>
    ensures { result ≡ noted sets.now.keys notes.now id.now }
{
    let Some(notes) = notes else { return None };
    match sets.place(id) {
        Some(index) => notes.places.get(index).copied(),
        None => notes.others.get(id).copied(),
    }
}

/// Notes a surface's place in the list, if there are notes and it has one.
pub(crate) fn note(sets: &Sets, id: &SurfaceId, notes: &mut Option<Notes>, place: usize)
    ensures { IsNoted (noted sets.now.keys notes.old) (noted sets.now.keys notes.new) id.now place }
{
    if let Some(notes) = notes {
        notes.note(sets, id, place);
    }
}
