//! What goes along on a walk.
ghost use Rattle.std.specs.Prelude.{List, [], ◌∷◌};
ghost use Rattle.vz_rules.specs.Walk.{Visit, Quad, Shows, Enters};
ghost use Rattle.vz_placement.specs.Limits.{FitsFile, HasRoom};
ghost use Rattle.vz_walk.specs.Meeting.{Meets};

use vz_geom::Rect;
use vz_ids::SurfaceRange;
use vz_placement::Placement;
use vz_surfaces::Seen;

/// Gets a report of each visit of a walk, in order. Each method returns whether the walk goes on.
pub trait Visitor {
    /// The visitor has met these visits since the start, when it was the first value, and each
    /// time it let the walk go on.
    ghost has_met: { Self → Self → List Visit → Type 0 };

    /// The visitor has met these visits, and stopped the walk at the last one.
    ghost has_stopped: { Self → List Visit → Type 0 };

    /// The walk visits a quad.
    fn quad(&mut self) -> bool
        ensures { Meets has_met has_stopped result self.old self.new (Quad ∷ []) };

    /// The walk visits the range of a surface quad. `shown` is the frame that the range shows, if
    /// any, and `seen` the part of the display in which the quad is visible.
    fn shows(&mut self, range: &SurfaceRange, shown: &Option<Seen<'_>>, seen: &Rect) -> bool
        ensures { Meets has_met has_stopped result self.old self.new
            (Shows range.now shown.now seen.now ∷ []) };

    /// The walk enters a surface: `depth` surfaces are on the path then, and the frame and its
    /// place are given. Conditions: the frame fits a message file, and the place is within the
    /// limits.
    fn enters(&mut self, depth: u32, frame: &Seen<'_>, place: &Placement) -> bool
        requires fits { FitsFile frame.now.frame }
        requires room { HasRoom 0 place.now.shift }
        ensures { Meets has_met has_stopped result self.old self.new
            (Enters depth frame.now place.now ∷ []) };
}
