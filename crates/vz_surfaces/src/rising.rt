//! A surface of which the waiting submission is about to become active.
use crate::held::Held;
use vz_ids::SurfaceId;

/// A surface, with what waits and what is active on it.
#[derive(Clone, Copy)]
pub struct Rising<'a> {
    /// The id of the surface.
    pub id: SurfaceId,
    /// The submission that waits on it.
    pub waiting: &'a Held,
    /// The submission that is active on it, or None.
    pub active: Option<&'a Held>,
}
