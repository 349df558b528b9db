//! The picture of a draw.
ghost use Rattle.std.specs.Prelude.{◌≡◌, Some, IfOk};
ghost use Rattle.vz_rules.specs.declared.entry.Reply.TheVariants as reply;
ghost use Rattle.vz_rules.specs.Plan.{Plan};
ghost use Rattle.vz_rules.specs.World.{World};
ghost use Rattle.vz_surface_manager.specs.Drawn_frame.{IsShowing};
ghost use Rattle.vz_manager.specs.Picturing.{LookLike, IsAnswered, IsPainted};

use std::alloc::Global;
use vz_base::Memory;
use vz_flat::{Ops, flatten};
use vz_geom::{Rect, Size};
use vz_ids::SurfaceId;
use vz_occlude::FlatPicture;
use vz_surface_manager::LiveSurfaces;

/// The drawing operations that give, at each point of a display, what can be seen from the root.
/// They are made before the frame is drawn, as a draw cannot be undone. The only error is
/// `Memory`, if an allocation fails. Condition: a draw walks from this root.
pub(crate) fn operations(
    alloc: Global,
    live: &LiveSurfaces,
    root: &SurfaceId,
    size: Size,
) -> Result<Ops, Memory>
    requires shows { (p : Plan) × (w : World) × IsShowing p w root.now size live.now }
    ensures look { (p : Plan) (w : World) → IsShowing p w root.now size live.now
        → IfOk result (λ ops. LookLike p w ops) }
{
    let ops = flatten(alloc, live.store(), root, size)?;
    Ok(ops)
}

/// The picture of a draw that found a change. Condition: the reply to the draw has this damage,
/// on a display of this size.
pub(crate) fn picture_of(size: Size, ops: Ops, damage: Rect) -> FlatPicture
    requires answered { (p : Plan) × (w : World) × IsAnswered p w size (reply.Drawn damage) }
    ensures painted { (p : Plan) (w : World) → IsAnswered p w size (reply.Drawn damage)
        → LookLike p w ops → IsPainted p w (reply.Drawn damage) (Some result) }
{
    FlatPicture::new(size, ops, damage)
}
