//! A set of surfaces with a fast lookup.
ghost use Rattle.std.specs.Prelude.{◌≡◌, ◌≤◌, ◌||◌, [], length, OnOk};
ghost use Rattle.indexmap.specs.IndexSet.{spare as spare_of};
ghost use Rattle.vz_ids.specs.declared.SurfaceId.{SurfaceId as Id};
ghost use Rattle.vz_rules.specs.Reach.{has_id};

use indexmap::IndexSet;
use std::alloc::Global;
use std::marker::Model;
use vz_base::Memory;
use vz_ids::SurfaceId;

/// A set of surfaces with a fast lookup. Contracts see the surfaces, and the room that was
/// reserved before.
#[derive(Drop)]
pub struct Index {
    ids: IndexSet<SurfaceId>,
}

impl Model for Index {
    ghost use Rattle.indexmap.specs.IndexSet.{spare as spare_of};
    ghost use Rattle.vz_ids.specs.declared.SurfaceId.{SurfaceId as Id};
    ghost use Rattle.vz_frame.specs.Roomy.{Roomy};

    ghost Value = { Roomy Id };

    ghost view = { λ a. record {
      list = a.ids.keys;
      spare = spare_of a.ids;
    } };
}

/// Puts surfaces into a set. Condition: there is room for them.
fn insert_all(set: &mut IndexSet<SurfaceId>, ids: &[SurfaceId])
    requires { length ids.now ≤ spare_of set.old }
    ensures { (id : Id) → has_id set.new.keys id ≡ (has_id ids.now id || has_id set.old.keys id) }
{
    for id in ids {
        set.insert(*id).unwrap();
    }
}

impl Index {
    /// Creates an empty set. It allocates nothing.
    pub fn new(alloc: Global) -> Index
        ensures { result.list ≡ [] }
    {
        Index {
            ids: IndexSet::new(alloc),
        }
    }

    /// Empties the set, and makes room for `n` surfaces. The only error is `Memory`, if an
    /// allocation fails.
    pub fn ready(&mut self, n: usize) -> Result<(), Memory>
        ensures list { self.new.list ≡ [] }
        ensures ok { OnOk result (n ≤ self.new.spare) }
    {
        self.ids.clear();
        self.ids.reserve(n)?;
        Ok(())
    }

    /// Puts surfaces into the set. Conditions: it is empty, and there is room for them.
    pub(crate) fn fill(&mut self, ids: &[SurfaceId])
        requires empty { self.old.list ≡ [] }
        requires room { length ids.now ≤ self.old.spare }
        ensures { (id : Id) → has_id self.new.list id ≡ has_id ids.now id }
    {
        insert_all(&mut self.ids, ids);
    }

    /// Whether the set has a surface.
    pub(crate) fn has(&self, id: &SurfaceId) -> bool
        ensures { result ≡ has_id self.now.list id.now }
    {
        self.ids.contains(id)
    }
}
