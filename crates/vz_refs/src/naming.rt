//! Which ranges name a surface: those whose end is in the surface's group and is the surface
//! itself or a newer one.
ghost use Rattle.std.specs.Prelude.{◌≡◌, false};
ghost use Rattle.std.specs.Option.{option_map_or};
ghost use Rattle.indexmap.specs.IndexMap.{get};
ghost use Rattle.vz_rules.specs.Reach.{names};
ghost use Rattle.vz_refs.specs.Indexing.{same_nth, same_place};

use crate::sets::{Edge, Nth, Place};
use indexmap::IndexMap;
use vz_ids::{SurfaceId, SurfaceRange};

/// Whether a range names a surface.
pub(crate) fn names(range: &SurfaceRange, id: &SurfaceId) -> bool
    ensures { result ≡ names id.now range.now }
{
    range.end.is_at_least(id)
}

/// Whether the range at a place of a group names a surface.
pub(crate) fn names_at(
    edges: &IndexMap<Nth, Edge>,
    ends: &IndexMap<Place, Nth>,
    place: Place,
    id: &SurfaceId,
) -> bool
    ensures { result ≡ option_map_or (λ n. option_map_or (λ e. names id.now e.range)
        (get same_nth edges.now n) false) (get same_place ends.now place) false }
{
    match ends.get(&place) {
        Some(slot) => match edges.get(slot) {
            Some(edge) => names(&edge.range, id),
            None => false,
        },
        None => false,
    }
}
