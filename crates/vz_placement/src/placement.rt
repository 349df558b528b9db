//! The offset and the window of a pass or a surface on the display.
ghost use Rattle.std.specs.Prelude.{◌≡◌};
ghost use Rattle.vz_geom.specs.Rectangle.{plus, minus, corner, meet, moved};
ghost use Rattle.vz_geom.specs.Rectangle.{IsOffset};
ghost use Rattle.vz_geom.specs.Display.{IsDisplaySize};
ghost use Rattle.vz_rules.specs.Walk.{cut, seen_part, place_in, whole};
ghost use Rattle.vz_placement.specs.Limits.{HasRoom, IsInReach, coordinates, IsPassInReach, IsQuadInReach, IsClipInReach};

use std::marker::Model;
use vz_frame::{DrawQuad, RenderPass};
use vz_geom::{Point, Rect, Size};

/// Where a pass or a surface is on the display: the offset from its points to display pixels,
/// within 52,000,000 either way, and the part of the display that the clips on the path leave.
#[derive(Clone, Copy)]
pub struct Placement {
    shift: Point,
    window: Rect,
}

impl Model for Placement {
    ghost use Rattle.vz_rules.specs.Walk.{Placement as OnePlacement};
    ghost use Rattle.vz_placement.specs.Limits.{HasRoom};

    ghost Value = { OnePlacement };

    ghost view = { λ p. record { shift = p.shift; window = p.window } };

    ghost invariant = { λ p. HasRoom 0 p.shift };

    ghost inverse = { λ p. record { shift = p.shift; window = p.window } };
}

/// A point moved by an offset. Condition: it has room for that.
fn plus(p: Point, by: Point) -> Point
    requires room { HasRoom (coordinates 1) p }
    requires offset { IsOffset by }
    ensures { result ≡ plus p by }
{
    Point {
        x: p.x + by.x,
        y: p.y + by.y,
    }
}

/// A rectangle moved by an offset. Conditions: the rectangle and the offset are within the
/// limits.
pub fn moved(r: &Rect, by: Point) -> Rect
    requires reach { IsInReach r.now }
    requires room { HasRoom 0 by }
    ensures { result ≡ moved r.now by }
{
    r.translate(by)
}

/// The part of a rectangle inside the clip, if there is a clip. Conditions: the clip and the
/// offset by which it is moved are within the limits.
fn cut(clip: &Option<Rect>, shift: Point, r: Rect) -> Rect
    requires reach { IsClipInReach clip.now }
    requires room { HasRoom 0 shift }
    ensures { result ≡ cut clip.now shift r }
{
    match clip {
        None => r,
        Some(c) => moved(c, shift).intersect(&r),
    }
}

impl Placement {
    /// The placement of the root on the display. Condition: the size is that of a display.
    pub fn whole(size: Size) -> Placement
        requires { IsDisplaySize size }
        ensures { result ≡ whole size }
    {
        Placement {
            shift: Point { x: 0, y: 0 },
            window: Rect::of_display(size),
        }
    }

    /// The offset from its points to display pixels.
    pub fn shift(&self) -> Point
        ensures value { result ≡ self.now.shift }
        ensures room { HasRoom 0 result }
    {
        self.shift
    }

    /// The part of the display, in pixels, that the clips on the path leave. It may be empty.
    pub fn window(&self) -> Rect
        ensures { result ≡ self.now.window }
    {
        self.window
    }

    /// The part of the display in which a quad is visible. It may be empty. Conditions: the pass
    /// and the quad are within the limits, and the place has room for the quad's offset.
    #[tactic(auto, unfolding(vz_rules::specs::Walk::seen_part))]
    pub fn seen_part(&self, pass: &RenderPass, quad: &DrawQuad) -> Rect
        requires pass { IsPassInReach pass.now }
        requires quad { IsQuadInReach quad.now }
        requires room { HasRoom (coordinates 1) self.now.shift }
        ensures { result ≡ seen_part self.now pass.now quad.now }
    {
        let output = moved(&pass.output, self.shift);
        let window = self.window.intersect(&output);
        let visible = moved(&quad.visible, plus(self.shift, quad.offset));
        let part = cut(&quad.clip, self.shift, visible);
        window.intersect(&part)
    }

    /// The placement of what a quad draws. Conditions: the pass and the quad are within the limits,
    /// and the place has room for the quad's offset and the top left point of its rectangle.
    pub fn place_in(&self, pass: &RenderPass, quad: &DrawQuad) -> Placement
        requires pass { IsPassInReach pass.now }
        requires quad { IsQuadInReach quad.now }
        requires room { HasRoom (coordinates 2) self.now.shift }
        ensures { result ≡ place_in self.now pass.now quad.now }
    {
        let by = plus(self.shift, quad.offset);
        Placement {
            shift: plus(by, quad.area.corner()),
            window: self.seen_part(pass, quad),
        }
    }

    /// The placement of the top left point of a pass. Conditions: the pass is within the limits, and
    /// the place has room for that point.
    pub fn inside(&self, pass: &RenderPass) -> Placement
        requires pass { IsPassInReach pass.now }
        requires room { HasRoom (coordinates 1) self.now.shift }
        ensures { result
            ≡ record self.now { shift = minus self.now.shift (corner pass.now.output) } }
    {
        Placement {
            shift: self.shift.minus(pass.output.corner()),
            window: self.window,
        }
    }

    /// The same placement, with its window cut to a part of the display.
    pub fn within(&self, part: &Rect) -> Placement
        ensures { result ≡ record self.now { window = meet self.now.window part.now } }
    {
        Placement {
            shift: self.shift,
            window: self.window.intersect(part),
        }
    }
}
