//! The weight of a walk.
ghost use Rattle.std.specs.Prelude.{◌≡◌};
ghost use Rattle.vz_geom.specs.declared.Size.{Size as AnySize};
ghost use Rattle.vz_surfaces.specs.Keeping.{KeepsStored, KeepsFrames};
ghost use Rattle.vz_walk.specs.Scenes.{walked_in};
ghost use Rattle.vz_walk.specs.Weighing.{IsWeightOf};

use crate::visitor::Visitor;
use crate::walker::walk;
use vz_base::limits::{MOST_ON_PATH, MOST_WEIGHT};
use vz_geom::{Rect, Size};
use vz_ids::{SurfaceId, SurfaceRange};
use vz_placement::Placement;
use vz_surfaces::{Seen, Store};

/// A visitor that counts quads and stops the walk at the limit: exactly if more than
/// `MOST_WEIGHT` quads are visited, or a path has more than `MOST_ON_PATH` surfaces.
#[derive(Drop)]
pub struct Weigher {
    quads: u32,
}

impl Weigher {
    /// Creates a weigher that has met no quad.
    pub fn new() -> Weigher
        ensures { result ≡ record { quads = 0 } }
    {
        Weigher { quads: 0 }
    }
}

impl Visitor for Weigher {
    ghost use Rattle.vz_walk.specs.Weighing.{IsWeighed, IsHeavy};

    ghost has_met = { λ _ w visits. IsWeighed w.quads visits };

    ghost has_stopped = { λ w visits. IsHeavy visits };

    fn quad(&mut self) -> bool {
        if self.quads >= MOST_WEIGHT {
            return false;
        }
        self.quads += 1;
        true
    }

    fn shows(&mut self, _: &SurfaceRange, _: &Option<Seen<'_>>, _: &Rect) -> bool {
        true
    }

    fn enters(&mut self, depth: u32, _: &Seen<'_>, _: &Placement) -> bool {
        depth <= MOST_ON_PATH as u32
    }
}

/// The weight of the scene below a root surface: how many quads a walk from it visits, each as
/// often as it is drawn. It does not depend on the size of the display. It is None exactly if
/// more than `MOST_WEIGHT` are visited or a path has more than `MOST_ON_PATH` surfaces. It
/// allocates nothing. Conditions: the store keeps its invariants, and the frames fit message
/// files.
///
/// A draw computes the weight and the damage in one walk.
pub fn weight(store: &Store, root: &SurfaceId) -> Option<u32>
    requires keeps { KeepsStored store.now }
    requires frames { KeepsFrames store.now }
    ensures { (size : AnySize) → IsWeightOf (walked_in size root.now store.now) result }
{
    let mut weigher = Weigher { quads: 0 };
    if walk(store, root, Size { w: 1, h: 1 }, &mut weigher) {
        Some(weigher.quads)
    } else {
        None
    }
}
