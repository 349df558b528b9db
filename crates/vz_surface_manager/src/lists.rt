//! The work lists of a collection.
ghost use Rattle.std.specs.Prelude.{◌≡◌, ◌≤◌, [], OnOk};

use crate::index::Index;
use std::alloc::Global;
use vz_base::Memory;
use vz_frame::Room;
use vz_ids::SurfaceId;

/// The work lists of a collection. Their room is reserved before a step and kept from one
/// collection to the next.
#[derive(Drop)]
pub struct Lists {
    /// The marked surfaces that exist.
    pub marked: Room<SurfaceId>,
    /// The surfaces that are reached.
    pub reached: Room<SurfaceId>,
    /// The same surfaces, as a set with a fast lookup.
    pub index: Index,
}

/// Empties a list and makes room for `n` surfaces. The only error is `Memory`, if an allocation
/// fails.
fn make_room(list: &mut Room<SurfaceId>, n: usize) -> Result<(), Memory>
    ensures list { list.new.list ≡ [] }
    ensures room { OnOk result (n ≤ list.new.spare) }
{
    list.clear();
    list.reserve(n)
}

impl Lists {
    /// Creates empty lists. It allocates nothing.
    pub fn new(alloc: Global) -> Lists
        ensures marked { result.marked.list ≡ [] }
        ensures reached { result.reached.list ≡ [] }
        ensures index { result.index.list ≡ [] }
    {
        Lists {
            marked: Room::new(alloc),
            reached: Room::new(alloc),
            index: Index::new(alloc),
        }
    }

    /// Empties the lists and makes room for this many marked and this many reached surfaces. The
    /// only error is `Memory`, if an allocation fails.
    pub fn ready(&mut self, marked: usize, reached: usize) -> Result<(), Memory>
        ensures none_marked { OnOk result (self.new.marked.list ≡ []) }
        ensures none_reached { OnOk result (self.new.reached.list ≡ []) }
        ensures none_found { OnOk result (self.new.index.list ≡ []) }
        ensures marked { OnOk result (marked ≤ self.new.marked.spare) }
        ensures reached { OnOk result (reached ≤ self.new.reached.spare) }
        ensures found { OnOk result (reached ≤ self.new.index.spare) }
    {
        make_room(&mut self.marked, marked)?;
        make_room(&mut self.reached, reached)?;
        self.index.ready(reached)
    }
}
