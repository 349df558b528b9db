//! The surfaces that a walk is inside of.
ghost use Rattle.std.specs.Prelude.{◌≡◌};
ghost use Rattle.std.specs.List.{list_any};
ghost use Rattle.vz_ids.specs.Ids.{same_surface};
ghost use Rattle.vz_walk.specs.Walking.{ids};

use vz_ids::SurfaceId;

/// A path through surfaces. It is on the call stack of the functions that walk.
#[derive(Drop)]
pub enum Path<'p> {
    /// The empty path.
    Start,
    /// A path that goes on into a surface.
    Behind {
        /// The surface.
        id: SurfaceId,
        /// The path that leads to it.
        before: &'p Path<'p>,
    },
}

impl<'p> Path<'p> {
    /// Whether a surface is on the path.
    pub fn has(&self, id: &SurfaceId) -> bool
        ensures { result ≡ list_any (same_surface id.now) (ids self.now) }
    {
        match self {
            Path::Start => false,
            Path::Behind { id: last, before } => *id == *last || before.has(id),
        }
    }
}
