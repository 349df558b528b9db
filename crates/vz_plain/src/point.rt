//! Points of passes, quads and surfaces. No sum overflows.
ghost use Rattle.std.specs.Prelude.{◌≡◌, ◌-ℤ◌, FitsSigned, SomeIff, MatchOption, true, false};
ghost use Rattle.std.specs.Int.{w32};
ghost use Rattle.vz_geom.specs.Rectangle.{has, plus, minus, corner, sized, IsNear};
ghost use Rattle.vz_frame.specs.Frame.{frame_size};
ghost use Rattle.vz_rules.specs.Paint.{covers, in_clip, local_point};
ghost use Rattle.vz_plain.specs.Points.{IsClose};

use vz_frame::{DrawQuad, RenderPass};
use vz_geom::{Point, Rect};
use vz_scene::SubmittedFrame;

/// A point moved back by an offset, or None if that does not fit 32 bits.
fn moved_back(point: Point, by: Point) -> Option<Point>
    ensures { SomeIff result (FitsSigned w32 (point.x -ℤ by.x) × FitsSigned w32 (point.y -ℤ by.y))
        (minus point by) }
{
    match point.x.checked_sub(by.x) {
        None => None,
        Some(x) => match point.y.checked_sub(by.y) {
            None => None,
            Some(y) => Some(Point { x, y }),
        },
    }
}

/// The point moved back by an offset, if the rectangle contains it.
fn found_in(r: &Rect, q: Point, by: Point) -> Option<Point>
    ensures { MatchOption result (has r.now (minus q by) ≡ false)
        (λ p. (has r.now (minus q by) ≡ true) × (p ≡ minus q by) × IsNear p) }
{
    let _ = r.is_empty();
    match moved_back(q, by) {
        None => None,
        Some(p) => { if r.contains(p) { Some(p) } else { None } }
    }
}

/// A point relative to the top left point of a rectangle. Condition: it is near.
fn from_corner(p: Point, r: &Rect) -> Point
    requires { IsNear p }
    ensures value { result ≡ minus p (corner r.now) }
    ensures close { IsClose result }
{
    let first = r.corner();
    Point {
        x: p.x - first.x,
        y: p.y - first.y,
    }
}

/// The point of a rectangle from one relative to its top left point. Condition: it is close.
pub(crate) fn in_rectangle(p: Point, r: &Rect) -> Point
    requires { IsClose p }
    ensures { result ≡ plus p (corner r.now) }
{
    let first = r.corner();
    Point {
        x: p.x + first.x,
        y: p.y + first.y,
    }
}

/// Whether a point is inside the size of a submitted frame.
pub(crate) fn is_inside(submitted: &SubmittedFrame<'_>, point: Point) -> bool
    ensures { result ≡ has (sized (frame_size submitted.now.frame)) point }
{
    match submitted.frame().root_pass() {
        None => false,
        Some(root) => {
            (0 <= point.x && point.x < root.output.w())
                && (0 <= point.y && point.y < root.output.h())
        }
    }
}

/// Whether the clip contains a point, or there is no clip.
fn is_in_clip(clip: &Option<Rect>, point: Point) -> bool
    ensures { result ≡ in_clip clip.now point }
{
    match clip {
        None => true,
        Some(r) => r.contains(point),
    }
}

/// The point relative to the top left point of a quad's rectangle, if the quad covers it.
#[tactic(auto, unfolding(vz_rules::specs::Paint::covers))]
pub(crate) fn point_of(pass: &RenderPass, quad: &DrawQuad, point: Point) -> Option<Point>
    ensures { MatchOption result (covers pass.now quad.now point ≡ false)
        (λ l. (covers pass.now quad.now point ≡ true)
        × (l ≡ local_point quad.now point) × IsClose l) }
{
    if !pass.output.contains(point) || !is_in_clip(&quad.clip, point) {
        return None;
    }
    match found_in(&quad.visible, point, quad.offset) {
        None => None,
        Some(found) => Some(from_corner(found, &quad.area)),
    }
}
