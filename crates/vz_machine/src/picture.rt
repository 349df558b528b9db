//! The pictures of drawings, and what a display shows of them.
ghost use Rattle.std.specs.Prelude.{◌≡◌, ◌+◌, ℕ, IfOk, OnOk};
ghost use Rattle.std.specs.Thread.{IsSync};
ghost use Rattle.vz_geom.specs.Rectangle.{Covers, sized, points_of, area_of};
ghost use Rattle.vz_rules.specs.Frames.{patched};
ghost use Rattle.vz_machine.specs.Pictured.{Pictured, IsPictured, colours_in};

use std::alloc::Global;
use std::sync::ledger::Ledger;
use std::thread::Threads;
use vz_base::Memory;
use vz_buffers::{Buffer, Steps};
use vz_geom::{Rect, Size};

/// The picture of a drawing, before its occluded items are removed. A display shows what `occlude`
/// makes of it, and nothing else.
pub trait Picture {
    /// What contracts know of the picture.
    ghost pictured: { Self → Pictured };

    /// How many items of the picture are occluded.
    ghost occluded: { Self → ℕ };

    /// What a display shows of such a picture.
    type Thin: ThinPicture + Drop + Send;

    /// Removes what is occluded: each point keeps its colour, and size and damage stay. The only
    /// error is `Memory`, and then the picture is given up.
    fn occlude(self, alloc: Global) -> Result<Self::Thin, Memory>
        ensures pictured { IfOk result (λ thin. Self.Thin.pictured thin ≡ pictured self) }
        ensures gone { IfOk result (λ thin. Self.Thin.gone thin ≡ occluded self) };
}

/// What a display is to show: a colour for each of its points, and the damage, which is the
/// rectangle of the points that changed since the picture before. Occluded items were removed.
pub trait ThinPicture {
    /// What contracts know of the picture.
    ghost pictured: { Self → Pictured };

    /// How many occluded items were removed of the picture.
    ghost gone: { Self → ℕ };

    /// The size of the display in pixels.
    fn size(&self) -> Size
        ensures value { result ≡ (pictured self.now).size }
        ensures proper { IsPictured (pictured self.now) };

    /// The rectangle of the points that changed since the picture before. It may be empty.
    fn damage(&self) -> Rect
        ensures { result ≡ (pictured self.now).changed };

    /// How many occluded items were removed. A group that was removed counts once.
    fn gone(&self) -> u64
        ensures { result ≡ gone self.now };

    /// Paints an area of a buffer: exactly the points of the area get their colours, and each
    /// counts as a step. Conditions: the buffer has the picture's size, and the area is inside
    /// it. A large area may be painted on several threads. The only error is `Memory`; after it
    /// some points of the area may have their colours already.
    fn paint<L: Ledger, R: Threads + Sync>(
        &self,
        rt: &R,
        alloc: Global,
        area: Rect,
        buffer: &mut Buffer,
        steps: &mut Steps<L>,
    ) -> Result<(), Memory>
        requires sync { IsSync R.row }
        requires same { buffer.old.size ≡ (pictured self.now).size }
        requires inside { Covers (sized (pictured self.now).size) area }
        ensures size { buffer.new.size ≡ buffer.old.size }
        ensures painted { OnOk result (buffer.new.pixels ≡ patched area
            (points_of (pictured self.now).size) (colours_in (pictured self.now))
            buffer.old.pixels) }
        ensures counted { OnOk result (steps.new ≡ steps.old + area_of area) };

    /// Paints an area of a buffer as `paint` does, on the caller's thread. So it needs no runtime,
    /// and a static library can call it.
    fn paint_alone<L: Ledger>(
        &self,
        alloc: Global,
        area: Rect,
        buffer: &mut Buffer,
        steps: &mut Steps<L>,
    ) -> Result<(), Memory>
        requires same { buffer.old.size ≡ (pictured self.now).size }
        requires inside { Covers (sized (pictured self.now).size) area }
        ensures size { buffer.new.size ≡ buffer.old.size }
        ensures painted { OnOk result (buffer.new.pixels ≡ patched area
            (points_of (pictured self.now).size) (colours_in (pictured self.now))
            buffer.old.pixels) }
        ensures counted { OnOk result (steps.new ≡ steps.old + area_of area) };
}
