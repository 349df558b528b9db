//! The areas of the last occluders of a list, beginning with the last one.
ghost use Rattle.std.specs.Prelude.{◌≡◌, ◌≤◌, ◌++◌, List, length, take, drop, true, OnOk};
ghost use Rattle.std.specs.List.{list_any};
ghost use Rattle.vz_geom.specs.Rectangle.{Rectangle, covers_rect};
ghost use Rattle.vz_flat.specs.Ops.{is_inside};
ghost use Rattle.vz_occlude.specs.Occluders.{listed_if};
ghost use Rattle.vz_occlude.specs.Roles.{occludes};

use crate::MOST_OCCLUDERS;
use crate::cover::{Cover, FEW_COVERS};
use crate::role::occludes;
use smallvec::SmallVec;
use vz_base::Memory;
use vz_flat::Op;
use vz_geom::Rect;

/// Whether one of them covers an area.
fn is_covered(occluders: &[Cover], area: &Rect) -> bool
    ensures { result ≡ list_any (λ cover. covers_rect cover area.now) occluders.now }
{
    occluders.iter().any(|cover| cover.area().covers(area))
}

/// Whether one of those from an index on covers an area.
pub(crate) fn is_occluded(occluders: &[Cover], start: usize, area: &Rect) -> bool
    requires { start ≤ length occluders.now }
    ensures { result ≡ list_any (λ cover. covers_rect cover area.now)
        (drop start occluders.now) }
{
    is_covered(&occluders[start..], area)
}

/// Puts the area of an operation at the end if it is an occluder, and if fewer than
/// `MOST_OCCLUDERS` stand from an index on. The texels of a `Blit` are inside its block. The only
/// error is `Memory`.
pub(crate) fn put_occluder(
    occluders: &mut SmallVec<Cover, FEW_COVERS>,
    start: usize,
    area: &Rect,
    op: &Op,
) -> Result<(), Memory>
    requires start { start ≤ length occluders.old.items }
    requires inside { is_inside op.now ≡ true }
    ensures { (outer own : List Rectangle) → start ≡ length outer
        → occluders.old.items ≡ outer ++ take MOST_OCCLUDERS own
        → OnOk result (occluders.new.items
        ≡ outer ++ take MOST_OCCLUDERS (own ++ listed_if (occludes op.now) area.now)) }
{
    if occluders.len() - start >= MOST_OCCLUDERS {
        return Ok(());
    }
    if !occludes(op) {
        return Ok(());
    }
    occluders.push(Cover::new(*area))?;
    Ok(())
}
