//! What the machine remembers of an aggregation.
ghost use Rattle.std.specs.Prelude.{◌≡◌, IfOk};

use std::alloc::{AllocError, Global};
use std::marker::Model;
use vz_ids::{SurfaceId, SurfaceRange};

/// What the machine remembers of the last aggregation: the root, the number of each frame that
/// was active, and the surface that each range showed which the walk met, or None.
#[derive(Drop)]
pub struct Aggregation {
    pub(crate) root: SurfaceId,
    pub(crate) indices: Vec<(SurfaceId, u32)>,
    pub(crate) ranges: Vec<(SurfaceRange, Option<SurfaceId>)>,
}

impl Model for Aggregation {
    ghost use Rattle.vz_rules.specs.World.{Aggregation};

    ghost Value = { Aggregation };

    ghost view = { λ a. record { root = a.root; indices = a.indices.items; ranges = a.ranges.items } };
}

impl Aggregation {
    /// Makes a copy.
    pub fn copy(&self, alloc: Global) -> Result<Aggregation, AllocError>
        ensures { IfOk result (λ a. a ≡ self.now) }
    {
        Ok(Aggregation {
            root: self.root,
            indices: self.indices.iter().copied().collect(alloc)?,
            ranges: self.ranges.iter().copied().collect(alloc)?,
        })
    }
}
