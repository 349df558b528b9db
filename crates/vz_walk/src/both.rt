//! Two visitors that go along on one walk.
ghost use Rattle.std.specs.Prelude.{◌≡◌, false};

use crate::visitor::Visitor;
use vz_geom::Rect;
use vz_ids::SurfaceRange;
use vz_placement::Placement;
use vz_surfaces::Seen;

/// Two visitors that go along on one walk: each visit is reported to the first, and then to the
/// second. The walk stops as soon as one of them stops it.
#[derive(Drop)]
pub struct Both<A, B> {
    /// The first one.
    pub first: A,
    /// The second one.
    pub second: B,
    /// Whether it was the first visitor that stopped the walk.
    pub first_stopped: bool,
}

impl<A, B> Both<A, B> {
    /// Joins two visitors, neither of which has stopped the walk.
    pub fn new(first: A, second: B) -> Both<A, B>
        ensures { result ≡ record { first = first; second = second; first_stopped = false } }
    {
        Both {
            first,
            second,
            first_stopped: false,
        }
    }
}

impl<A: Visitor, B: Visitor> Visitor for Both<A, B> {
    ghost use Rattle.std.specs.Prelude.{◌≡◌, true, false};

    ghost has_met = { λ start b visits. A.has_met start.first b.first visits
        × B.has_met start.second b.second visits × (b.first_stopped ≡ false) };

    ghost has_stopped = { λ b visits.
        (b.first_stopped ≡ true → A.has_stopped b.first visits)
        × (b.first_stopped ≡ false → B.has_stopped b.second visits) };

    fn quad(&mut self) -> bool {
        if !self.first.quad() {
            self.first_stopped = true;
            return false;
        }
        self.second.quad()
    }

    fn shows(&mut self, range: &SurfaceRange, shown: &Option<Seen<'_>>, seen: &Rect) -> bool {
        if !self.first.shows(range, shown, seen) {
            self.first_stopped = true;
            return false;
        }
        self.second.shows(range, shown, seen)
    }

    fn enters(&mut self, depth: u32, frame: &Seen<'_>, place: &Placement) -> bool {
        if !self.first.enters(depth, frame, place) {
            self.first_stopped = true;
            return false;
        }
        self.second.enters(depth, frame, place)
    }
}
