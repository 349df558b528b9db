//! What a region is, and what it answers.
use vz_geom::{Point, Rect};
use vz_ids::SurfaceId;

/// A part of the display in which a surface is hit.
#[derive(Clone, Copy, Debug, PartialEq, Eq)]
pub struct Region {
    /// The rectangle of the display that it takes.
    pub area: Rect,
    /// The surface that is hit.
    pub id: SurfaceId,
    /// What moves a point of the display to the surface's root pass.
    pub shift: Point,
}

/// What is hit at a point.
#[derive(Clone, Copy, Debug, PartialEq, Eq)]
pub struct Hit {
    /// The surface.
    pub id: SurfaceId,
    /// The point of its root pass.
    pub local: Point,
}

/// A region without its area.
#[derive(Clone, Copy)]
pub(crate) struct Owner {
    /// The surface that is hit.
    pub(crate) id: SurfaceId,
    /// What moves a point of the display to the surface's root pass.
    pub(crate) shift: Point,
}
