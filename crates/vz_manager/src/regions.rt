//! Where each surface is hit on the display.
ghost use Rattle.std.specs.Prelude.{◌≡◌, ◌↔◌, true, false, None, IfOk};
ghost use Rattle.vz_geom.specs.declared.Point.{Point as DisplayPoint};
ghost use Rattle.vz_geom.specs.Rectangle.{has, sized};
ghost use Rattle.vz_rules.specs.Plan.{Plan};
ghost use Rattle.vz_rules.specs.World.{World};
ghost use Rattle.vz_rules.specs.Whole.{drawable_in, hit_in};
ghost use Rattle.vz_hit.specs.Regions.{found};
ghost use Rattle.vz_manager.specs.Serving.{Serves};
ghost use Rattle.vz_manager.specs.Hitting.{found_in, scene_on};

use crate::parts::Parts;
use std::alloc::Global;
use vz_base::Memory;
use vz_geom::Point;
use vz_hit::{Regions, build};
use vz_ids::SurfaceId;
use vz_walk::weight;

/// What regions answer at a point: a surface, with the point from its top left.
pub(crate) fn hit_in_regions(regions: &Regions, p: Point) -> Option<(SurfaceId, Point)>
    ensures { result ≡ found regions.now p }
{
    let hit = regions.find(p)?;
    Some((hit.id, hit.local))
}

impl Parts {
    /// The root from which a draw would walk if no frame were in flight: it has an active frame,
    /// and the walk is not too much. None if there is no such root. It allocates nothing.
    fn drawable_root(&self) -> Option<SurfaceId>
        requires stands { (p : Plan) × (w : World) × Serves p w self.now }
        ensures { (p : Plan) (w : World) → Serves p w self.now
            → drawable_in p w ≡ scene_on w result }
    {
        let root = self.support.root()?;
        let store = self.settling.live.store();
        store.frame_on(&root)?;
        weight(store, &root)?;
        Some(root)
    }

    /// The regions of the display in which surfaces are hit, from front to back. None exactly if
    /// a draw would be answered NoRoot or TooMuch if no frame were in flight. The only error is
    /// `Memory`, if an allocation fails.
    pub(crate) fn regions(&self, alloc: Global) -> Result<Option<Regions>, Memory>
        requires stands { (p : Plan) × (w : World) × Serves p w self.now }
        ensures none { (p : Plan) (w : World) → Serves p w self.now
            → IfOk result (λ r. (r ≡ None) ↔ (drawable_in p w ≡ None)) }
        ensures hit { (p : Plan) (w : World) (q : DisplayPoint) → Serves p w self.now
            → has (sized p.size) q ≡ true → IfOk result (λ r. found_in r q ≡ hit_in p w q) }
        ensures outside { (p : Plan) (w : World) (q : DisplayPoint) → Serves p w self.now
            → has (sized p.size) q ≡ false → IfOk result (λ r. found_in r q ≡ None) }
    {
        let Some(root) = self.drawable_root() else {
            return Ok(None);
        };
        let regions = build(alloc, self.settling.live.store(), &root, self.size)?;
        Ok(Some(regions))
    }
}
