//! Laws of identifiers. Each is the contract of an empty function; a caller that calls it may use
//! its clauses.
ghost use Rattle.std.specs.Prelude.{◌≡◌, ◌+◌, ◌⊎◌, IsTrue};
ghost use Rattle.vz_ids.specs.declared.LocalSurfaceId.{LocalSurfaceId};
ghost use Rattle.vz_ids.specs.declared.SurfaceId.{SurfaceId};
ghost use Rattle.vz_ids.specs.Ids.{newer, same_local, same_group, same_surface, at_least};
ghost use Rattle.vz_ids.specs.Allocating.{with_parent, with_child};

/// 'Newer' is a strict order in each group: no id is newer than itself, an id that is newer than
/// a newer one is newer, and no two ids are newer than each other.
pub fn newer_is_an_order()
    ensures irreflexive { (a : LocalSurfaceId) → IsTrue (newer a a) → ⊥ }
    ensures transitive { (a b c : LocalSurfaceId) → IsTrue (newer a b) → IsTrue (newer b c)
        → IsTrue (newer a c) }
    ensures asymmetric { (a b : LocalSurfaceId) → IsTrue (newer a b) → IsTrue (newer b a) → ⊥ }
{}

/// 'In the same group' is an equivalence of surfaces.
pub fn groups_are_classes()
    ensures reflexive { (a : SurfaceId) → IsTrue (same_group a a) }
    ensures symmetric { (a b : SurfaceId) → IsTrue (same_group a b) → IsTrue (same_group b a) }
    ensures transitive { (a b c : SurfaceId) → IsTrue (same_group a b) → IsTrue (same_group b c)
        → IsTrue (same_group a c) }
{}

/// The id that an allocator gives next is newer than the one that it gave last.
pub fn allocated_ids_are_newer()
    ensures parent { (id : LocalSurfaceId) → IsTrue (newer (with_parent (id.parent + 1) id) id) }
    ensures child { (id : LocalSurfaceId) → IsTrue (newer (with_child (id.child + 1) id) id) }
{}
