//! Places of passes and surfaces in the parts of the display in which they have points, and the
//! part round a surface that is too small.
ghost use Rattle.std.specs.Prelude.{◌≡◌, ◌&&◌, int_le};
ghost use Rattle.vz_geom.specs.Rectangle.{has, sized, IsNear};
ghost use Rattle.vz_frame.specs.Frame.{frame_size};
ghost use Rattle.vz_rules.specs.Kept.{IsWhole};
ghost use Rattle.vz_placement.specs.Limits.{HasRoom, IsInReach, IsPassInReach, coordinates};
ghost use Rattle.vz_flat.specs.Parts.{surface_place};
ghost use Rattle.vz_hit.specs.Parts.{group_place, past_size, from_origin};

use vz_frame::RenderPass;
use vz_geom::{Point, Rect};
use vz_placement::{Placement, frame_rect, moved};
use vz_surfaces::Seen;

/// What moves a point of the display to the pass or surface at a place. Condition: the place is
/// within 52,000,000 of the origin.
pub(crate) fn shift_back(place: &Placement) -> Point
    requires { HasRoom 0 place.now.shift }
    ensures value { result ≡ from_origin place.now.shift }
    ensures near { HasRoom 0 result }
{
    let by = place.shift();
    Point {
        x: 0 - by.x,
        y: 0 - by.y,
    }
}

/// The place of a pass that a quad names, in the part in which it has points. Conditions: the pass
/// is in reach, and the quad's place has room for its first point.
pub(crate) fn group_place(pass: &RenderPass, place: &Placement) -> Placement
    requires pass { IsPassInReach pass.now }
    requires room { HasRoom (coordinates 1) place.now.shift }
    ensures { result ≡ group_place pass.now place.now }
{
    let inner = place.inside(pass);
    let output = moved(&pass.output, inner.shift());
    inner.within(&output)
}

/// The rectangle of a surface's size. Condition: its frame is whole.
fn size_rect(seen: &Seen<'_>) -> Rect
    requires { IsWhole seen.now }
    ensures value { result ≡ sized (frame_size seen.now.frame) }
    ensures reach { IsInReach result }
{
    frame_rect(seen.held().frame.frame())
}

/// The place of a surface in the part in which it has points. Conditions: its frame is whole, and
/// the place is within 52,000,000 of the origin.
pub(crate) fn surface_place(seen: &Seen<'_>, place: &Placement) -> Placement
    requires whole { IsWhole seen.now }
    requires room { HasRoom 0 place.now.shift }
    ensures { result ≡ surface_place seen.now place.now }
{
    let size = size_rect(seen);
    let part = moved(&size, place.shift());
    place.within(&part)
}

/// The column after the last one of a surface at a place, and the row after its last one.
/// Conditions: its frame is whole, and the place is within 52,000,000 of the origin.
pub(crate) fn past_size(seen: &Seen<'_>, place: &Placement) -> Point
    requires whole { IsWhole seen.now }
    requires room { HasRoom 0 place.now.shift }
    ensures value { result ≡ past_size seen.now place.now }
    ensures near { IsNear result }
{
    let size = size_rect(seen);
    let at = place.shift();
    Point {
        x: at.x + size.w(),
        y: at.y + size.h(),
    }
}

/// The part of a rectangle from the column of a point on. Condition: the point is within the limit
/// of edges.
pub(crate) fn right_from(r: &Rect, at: Point) -> Rect
    requires { IsNear at }
    ensures { (p : Point) → has result p ≡ (has r.now p && int_le at.x p.x) }
{
    // The test for points says that the edges are within the limit.
    let _ = r.is_empty();
    let right = r.right();
    if right <= at.x {
        return Rect::empty();
    }
    Rect::new(at.x, r.y(), right - at.x, r.h()).intersect(r)
}

/// The part of a rectangle from the row of a point on. Condition: the point is within the limit of
/// edges.
pub(crate) fn down_from(r: &Rect, at: Point) -> Rect
    requires { IsNear at }
    ensures { (p : Point) → has result p ≡ (has r.now p && int_le at.y p.y) }
{
    // The test for points says that the edges are within the limit.
    let _ = r.is_empty();
    let bottom = r.bottom();
    if bottom <= at.y {
        return Rect::empty();
    }
    Rect::new(r.x(), at.y, r.w(), bottom - at.y).intersect(r)
}
