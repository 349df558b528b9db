//! What a walk measured, before it is remembered.
ghost use Rattle.std.specs.Prelude.{◌≡◌};

use crate::ranges::Ranges;
use std::marker::Model;
use vz_geom::Rect;
use vz_ids::SurfaceId;

/// What a walk measured: what changed since the last aggregation, and what `Damage::remember`
/// will keep (the root and what each range showed). If the value is dropped, nothing of the walk
/// is kept.
#[derive(Drop)]
pub struct Measured {
    pub(crate) changed: Option<Rect>,
    pub(crate) root: SurfaceId,
    pub(crate) ranges: Ranges,
}

impl Model for Measured {
    ghost use Rattle.std.specs.Prelude.{[]};
    ghost use Rattle.vz_damage.specs.Measured.{Measurement};

    ghost Value = { Measurement };

    ghost view = { λ m. record {
      changed = m.changed;
      kept = record { root = m.root; indices = []; ranges = m.ranges };
    } };
}

impl Measured {
    /// The rectangle that changed, in display pixels, or None if nothing did.
    pub fn changed(&self) -> Option<Rect>
        ensures { result ≡ self.now.changed }
    {
        self.changed
    }
}
