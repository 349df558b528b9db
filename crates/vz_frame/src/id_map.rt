//! A map of ids on the stack, which allocates nothing.
ghost use Rattle.std.specs.Prelude.{◌≡◌, ◌<◌, ◌+◌, [], length, IsTrue, IsFalse, IfOk, IfErr, is_none};
ghost use Rattle.vz_frame.specs.Pairs.{get, IsAt, IsGapFor, GetsAfterSet};

use arrayvec::ArrayVec;
use std::marker::Model;
use vz_base::limits::MOST_RESOURCES;

/// A map from ids to indices, sorted by id. It has room for as many ids as a frame of a message
/// file may list.
#[derive(Drop)]
pub struct IdMap {
    pairs: ArrayVec<(u32, usize), MOST_RESOURCES>,
}

impl Model for IdMap {
    ghost use Rattle.vz_frame.specs.Pairs.{Pairs, IsStrictlySorted};

    ghost Value = { Pairs };

    ghost view = { λ m. m.pairs.items };

    ghost invariant = { λ m. IsStrictlySorted m.pairs.items };
}

impl IdMap {
    pub fn new() -> IdMap
        ensures { result ≡ [] }
    {
        IdMap {
            pairs: ArrayVec::new(),
        }
    }

    /// The index of an id, or None if the map has none for it.
    pub fn get(&self, id: u32) -> Option<usize>
        ensures { result ≡ get self.now id }
    {
        match self.search(id) {
            Ok(at) => Some(self.pairs[at].1),
            Err(_) => None,
        }
    }

    /// Gives an id its index, and returns true if it had none. An id that has an index keeps it.
    pub fn insert(&mut self, id: u32, place: usize) -> bool
        requires { length self.old < MOST_RESOURCES }
        ensures answer { result ≡ is_none (get self.old id) }
        ensures new { IsTrue result → (GetsAfterSet self.old self.new id place) }
        ensures longer { IsTrue result → (length self.new ≡ length self.old + 1) }
        ensures kept { IsFalse result → (self.new ≡ self.old) }
    {
        match self.search(id) {
            Ok(_) => false,
            Err(at) => {
                self.pairs.insert(at, (id, place));
                true
            }
        }
    }

    /// The position of an id in the map, or the position at which it would be inserted.
    fn search(&self, id: u32) -> Result<usize, usize>
        ensures found { IfOk result (IsAt self.now id) }
        ensures absent { IfErr result (IsGapFor self.now id) }
    {
        self.pairs.as_slice().binary_search_by_key(&id, |&(n, _)| n)
    }
}
