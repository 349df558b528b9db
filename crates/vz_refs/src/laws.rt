//! Laws of references: each is the contract of a function with an empty body.
ghost use Rattle.std.specs.Prelude.{◌≡◌, Option, List, [], if◌then◌else◌, ◌||◌, ◌&&◌, not};
ghost use Rattle.vz_ids.specs.declared.SurfaceId.{SurfaceId};
ghost use Rattle.vz_ids.specs.declared.SurfaceRange.{SurfaceRange};
ghost use Rattle.vz_ids.specs.Ids.{same_surface};
ghost use Rattle.vz_rules.specs.World.{World};
ghost use Rattle.vz_rules.specs.Closure.{IsLeastClosed};
ghost use Rattle.vz_rules.specs.Scene.{shown};
ghost use Rattle.vz_rules.specs.Reach.{has_id, reach};
ghost use Rattle.vz_refs.specs.Referring.{Ranged, Temporary, is_set, ranges_of, setting, removing, next_in, starts};
ghost use Rattle.vz_refs.specs.Meaning.{AreReferences, AreRoots};

/// The ranges of a surface are those that were set last. After a removal it has none.
pub fn ranges_are_kept()
    ensures set { (sets : List Ranged) (id other : SurfaceId) (ranges : List SurfaceRange)
        → ranges_of (setting id ranges sets) other
        ≡ (if same_surface id other then ranges else ranges_of sets other) }
    ensures has_set { (sets : List Ranged) (id other : SurfaceId) (ranges : List SurfaceRange)
        → is_set (setting id ranges sets) other ≡ (same_surface id other || is_set sets other) }
    ensures removed { (sets : List Ranged) (id other : SurfaceId)
        → ranges_of (removing id sets) other
        ≡ (if same_surface id other then [] else ranges_of sets other) }
    ensures has_removed { (sets : List Ranged) (id other : SurfaceId)
        → is_set (removing id sets) other ≡ (not (same_surface id other) && is_set sets other) }
{}

/// If the sets are the active frames' references and marking starts at the roots, the least
/// closed list contains exactly the surfaces that are reached.
pub fn least_is_reached()
    ensures { (w : World) (sets : List Ranged) (kept : List Temporary) (root : Option SurfaceId) (ids : List SurfaceId)
        → AreReferences w sets → AreRoots w root kept
        → IsLeastClosed same_surface (next_in (shown w) sets) (starts root kept) ids
        → (id : SurfaceId) → has_id ids id ≡ has_id (reach w) id }
{
    vz_rules::laws::reached_are_least();
}
