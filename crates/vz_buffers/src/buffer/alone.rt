//! Putting the rows of an area into a buffer without a runtime.
ghost use Rattle.std.specs.Prelude.{◌≡◌, ◌+◌};
ghost use Rattle.vz_geom.specs.Rectangle.{area_of};
ghost use Rattle.vz_buffers.specs.Bands.{MayPut, ArePut};

use crate::bands::{height, place_of};
use crate::pages::paint_memory_alone;
use crate::{Buffer, RowPainter, Steps};
use std::sync::ledger::Ledger;
use vz_geom::Rect;

impl Buffer {
    /// Puts the same rows into the buffer, on the caller's thread: the first painter draws all of
    /// them. The conditions are those of `put_rows`.
    pub fn put_rows_alone<P: RowPainter, L: Ledger>(
        &mut self,
        area: &Rect,
        painters: &mut [P],
        steps: &mut Steps<L>,
    )
        requires { MayPut P.able P.strip self.old.size area.now painters.old }
        ensures size { self.new.size ≡ self.old.size }
        ensures put { ArePut P.strip self.old area.now painters.old self.new.pixels }
        ensures counted { steps.new ≡ steps.old + area_of area.now }
    {
        let place = place_of(&self.size, area);
        paint_memory_alone(place, height(area), painters, &mut self.memory);
        steps.add(area.area());
    }
}
