//! The colour on which an area is painted.
ghost use Rattle.std.specs.Prelude.{◌≡◌, ◌≤◌, ℕ, List, length, map, drop, IfSome, true};
ghost use Rattle.vz_geom.specs.declared.Point.{Point as Place};
ghost use Rattle.vz_geom.specs.Rectangle.{has};
ghost use Rattle.vz_pixels.specs.Colour.{black, scale};
ghost use Rattle.vz_frame.specs.Blending.{laid};
ghost use Rattle.vz_flat.specs.Ops.{value, is_whole, deepest};
ghost use Rattle.vz_paint.specs.Ground.{IsGround};

use crate::span::shade;
use vz_flat::Op;
use vz_frame::Blend;
use vz_geom::Rect;
use vz_pixels::Pixel;

/// The one colour that a whole area has after the first `drawn` operations.
#[derive(Clone, Copy)]
pub(crate) struct Ground {
    pub(crate) color: Pixel,
    pub(crate) drawn: usize,
}

/// The result of a colour that is blended with opaque black.
fn on_black(color: Pixel, opacity: u8, mode: Blend) -> Pixel
    ensures { result ≡ laid mode color opacity black }
{
    let own = shade(color, opacity);
    match mode {
        Blend::Over => own.over(Pixel::black()),
        Blend::Src => own,
        Blend::DstIn => Pixel::black().scale(own.a()),
    }
}

/// The colour that an operation makes of opaque black on all of an area, if it fills all of it.
fn ground_by(op: &Op, area: &Rect) -> Option<Pixel>
    ensures { IfSome result (λ c. IsGround area.now op.now c) }
{
    match op {
        Op::Fill {
            area: own,
            color,
            opacity,
            blend,
        } => {
            if own.covers(area) {
                return Some(on_black(*color, *opacity, *blend));
            }
            None
        }
        Op::Blit { .. } => None,
        Op::Push { .. } => None,
        Op::Pop => None,
    }
}

/// The ground of an area: the result of the first operation if that fills all of it with one
/// colour, and else opaque black.
pub(crate) fn ground_of(ops: &[&Op], area: &Rect) -> Ground
    ensures drawn { result.drawn ≤ length ops.now }
    ensures same { (p : Place) → has area.now p ≡ true
        → value (drop result.drawn (map (λ r. r.now) ops.now)) p result.color
        ≡ value (map (λ r. r.now) ops.now) p black }
    ensures whole { is_whole (drop result.drawn (map (λ r. r.now) ops.now))
        ≡ is_whole (map (λ r. r.now) ops.now) }
    ensures deep { deepest 0 (drop result.drawn (map (λ r. r.now) ops.now))
        ≡ deepest 0 (map (λ r. r.now) ops.now) }
{
    let bare = Ground {
        color: Pixel::black(),
        drawn: 0,
    };
    if ops.is_empty() {
        return bare;
    }
    match ground_by(ops[0], area) {
        None => bare,
        Some(color) => Ground { color, drawn: 1 },
    }
}

/// The operations after the first `drawn`.
pub(crate) fn behind<'a, 'b>(ops: &'b [&'a Op], drawn: usize) -> &'b [&'a Op]
    requires { drawn ≤ length ops.now }
    ensures { map (λ r. r.now) result.now ≡ drop drawn (map (λ r. r.now) ops.now) }
{
    &ops[drawn..]
}
