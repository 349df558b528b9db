//! The surfaces that a painter or a search is inside of, on the heap.
ghost use Rattle.std.specs.Prelude.{◌≡◌, ◌∷◌, [], IfOk};
ghost use Rattle.std.specs.List.{list_any};
ghost use Rattle.vz_ids.specs.Ids.{same_surface};

use std::alloc::{AllocError, Global};
use std::marker::Model;
use std::sync::Arc;
use vz_ids::SurfaceId;

/// A path through surfaces, the last one first. Several passes of a surface share one.
#[derive(Drop)]
pub(crate) struct Trail {
    ids: Arc<Vec<SurfaceId>, Global>,
}

impl Model for Trail {
    ghost use Rattle.std.specs.Prelude.{List};
    ghost use Rattle.std.specs.Arc.{arc_value};
    ghost use Rattle.vz_ids.specs.declared.SurfaceId.{SurfaceId};

    ghost Value = { List SurfaceId };

    ghost view = { λ t. (arc_value t.ids).items };
}

/// A path of these surfaces.
fn trail_of(alloc: Global, ids: Vec<SurfaceId>) -> Result<Trail, AllocError>
    ensures { IfOk result (λ t. t ≡ ids.items) }
{
    match Arc::new(alloc, ids) {
        Ok(ids) => Ok(Trail { ids }),
        Err(_) => Err(AllocError),
    }
}

impl Trail {
    /// The empty path.
    pub(crate) fn start(alloc: Global) -> Result<Trail, AllocError>
        ensures { IfOk result (λ t. t ≡ []) }
    {
        Ok(trail_of(alloc, Vec::new(alloc))?)
    }

    /// The path that goes on into a surface.
    pub(crate) fn behind(&self, alloc: Global, id: SurfaceId) -> Result<Trail, AllocError>
        ensures { IfOk result (λ t. t ≡ id ∷ self.now) }
    {
        let mut ids = Vec::new(alloc);
        ids.push(id)?;
        ids.extend_from_slice(self.ids.as_slice())?;
        Ok(trail_of(alloc, ids)?)
    }

    /// The same path once more. No list is copied.
    pub(crate) fn share(&self) -> Result<Trail, AllocError>
        ensures { IfOk result (λ t. t ≡ self.now) }
    {
        let ids = Arc::try_clone(&self.ids)?;
        Ok(Trail { ids })
    }

    /// Whether a surface is on the path.
    pub(crate) fn has(&self, id: &SurfaceId) -> bool
        ensures { result ≡ list_any (same_surface id.now) self.now }
    {
        self.ids.as_slice().contains(id)
    }
}
