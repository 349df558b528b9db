//! What is hit at a point.
ghost use Rattle.std.specs.Prelude.{◌≡◌, IfOk};
ghost use Rattle.vz_rules.specs.Whole.{hit_in};

use crate::slow::Slow;
use vz_geom::Point;
use vz_ids::SurfaceId;
use vz_pixels::Memory;
use vz_plain::hit_at;
use vz_scene::{ActiveFrames, walk_of};

impl<'a> Slow<'a> {
    /// What is hit at a point, in pixels from the top left of the display: the topmost surface
    /// there in the scene that a draw would show if no frame were in flight, and the same point
    /// from the top left of that surface. None if nothing is there, if nothing can be seen, or if
    /// a draw would answer TooMuch. The only error is `Memory`, if an allocation fails.
    pub fn hit(&self, point: Point) -> Result<Option<(SurfaceId, Point)>, Memory>
        ensures { IfOk result (λ h. h ≡ hit_in self.now.plan self.now.world point) }
    {
        match self.root() {
            None => Ok(None),
            Some(root) => {
                let frames = self.active()?;
                let active = ActiveFrames::new(self.alloc, &frames)?;
                match walk_of(self.alloc, &active, &root, self.plan.size())? {
                    None => Ok(None),
                    Some(_) => Ok(hit_at(self.alloc, &frames, &root, point)?),
                }
            }
        }
    }
}
