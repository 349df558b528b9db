//! What one operation draws in some rows at once.
ghost use Rattle.std.specs.Prelude.{◌≡◌, ◌+◌, ◌*◌, ◌≤◌, ◌<◌, ◌+ℤ◌, ◌≤ℤ◌, pos, nat_le, nat_lt, ◌&&◌, ℕ, length, true, false};
ghost use Rattle.vz_base.specs.declared.limits.TheConstants.{GREATEST_DISPLAY_SIDE};
ghost use Rattle.vz_geom.specs.Rectangle.{has};
ghost use Rattle.vz_flat.specs.declared.op.Op.TheVariants.{Fill, Blit};
ghost use Rattle.vz_flat.specs.Ops.{is_inside};
ghost use Rattle.vz_paint.specs.Row.{IsStart};
ghost use Rattle.vz_paint.specs.Redraw.{point_of, AreLines, IsRedrawn, step_of, lays};

use crate::group::OpenGroup;
use crate::span::{columns_before, level, mix, print, right_of, shade, texel_at, texels, tint};
use vz_flat::Op;
use vz_frame::Blend;
use vz_geom::{Point, Rect};
use vz_pixels::{Pixel, PixelBlock};

/// Where rows of which the same columns are drawn stand among the pixels of a display: its width,
/// the first of the columns, and how many columns and rows.
#[derive(Clone, Copy)]
pub(crate) struct Lines {
    pub(crate) width: usize,
    pub(crate) left: usize,
    pub(crate) wide: usize,
    pub(crate) count: usize,
}

/// The columns and the rows that an area covers: from `from` up to, but without, `to`, and from
/// `top` up to, but without, `bottom`.
#[derive(Clone, Copy)]
struct Patch {
    from: usize,
    to: usize,
    top: usize,
    bottom: usize,
}

/// The index of the first pixel that is drawn in a row.
pub(crate) fn place(width: usize, left: usize, row: usize) -> usize
    requires width { width ≤ GREATEST_DISPLAY_SIDE }
    requires left { left ≤ GREATEST_DISPLAY_SIDE }
    requires row { row ≤ GREATEST_DISPLAY_SIDE }
    ensures value { result ≡ row * width + left }
{
    row * width + left
}

/// The point that is `by` rows below another.
fn below(start: Point, by: usize) -> Point
    requires top { pos 0 ≤ℤ start.y }
    requires near { (start.y +ℤ pos by) ≤ℤ pos GREATEST_DISPLAY_SIDE }
    ensures { result ≡ record { x = start.x; y = start.y +ℤ pos by } }
{
    Point {
        x: start.x,
        y: start.y + by as i32,
    }
}

/// How many of the first `count` rows are above row `y`.
fn rows_before(start: Point, y: &i32, count: usize) -> usize
    requires top { pos 0 ≤ℤ start.y }
    requires bottom { start.y ≤ℤ pos GREATEST_DISPLAY_SIDE }
    ensures most { result ≤ count }
    ensures left { 0 < result → (start.y +ℤ pos result) ≤ℤ y.now }
    ensures right { result < count → y.now ≤ℤ (start.y +ℤ pos result) }
{
    if *y <= start.y {
        return 0;
    }
    let before = (*y - start.y) as usize;
    if before < count { before } else { count }
}

/// The columns and the rows that an area covers.
fn patch_of(area: &Rect, start: Point, wide: usize, count: usize) -> Patch
    requires start { IsStart start }
    requires top { pos 0 ≤ℤ start.y }
    requires bottom { start.y ≤ℤ pos GREATEST_DISPLAY_SIDE }
    ensures ordered { result.from ≤ result.to }
    ensures most { result.to ≤ wide }
    ensures down { result.bottom ≤ count }
    ensures above { (r : ℕ) (i : ℕ) → r < result.top
        → has area.now (point_of start r i) ≡ false }
    ensures under { (r : ℕ) (i : ℕ) → r < count → result.bottom ≤ r
        → has area.now (point_of start r i) ≡ false }
    ensures exact { (r : ℕ) (i : ℕ) → r < count → result.top ≤ r → r < result.bottom → i < wide
        → has area.now (point_of start r i) ≡ (nat_le result.from i && nat_lt i result.to) }
{
    if area.is_empty() {
        return Patch {
            from: 0,
            to: 0,
            top: 0,
            bottom: 0,
        };
    }
    let from = columns_before(start, &area.x(), wide);
    let to = columns_before(start, &area.right(), wide);
    let top = rows_before(start, &area.y(), count);
    let bottom = rows_before(start, &area.bottom(), count);
    Patch {
        from,
        to,
        top,
        bottom,
    }
}

/// Fills rows with one colour.
pub(crate) fn level_rows(lines: Lines, start: Point, ground: Pixel, pixels: &mut [Pixel])
    requires { AreLines start lines.width lines.left lines.wide lines.count pixels.old }
    ensures { IsRedrawn lines.width lines.left lines.wide lines.count (λ r i d. ground)
        pixels.old pixels.new }
{
    for k in 0..lines.count {
        let at = place(lines.width, lines.left, k);
        level(&mut pixels[at..at + lines.wide], ground);
    }
}

/// Blends one colour, scaled by an opacity, with the pixels of rows inside an area.
fn fill_rows(
    lines: Lines,
    start: Point,
    area: &Rect,
    color: Pixel,
    opacity: u8,
    mode: Blend,
    pixels: &mut [Pixel],
)
    requires { AreLines start lines.width lines.left lines.wide lines.count pixels.old }
    ensures { IsRedrawn lines.width lines.left lines.wide lines.count
        (step_of start (Fill area.now color opacity mode)) pixels.old pixels.new }
{
    let here = patch_of(area, start, lines.wide, lines.count);
    let own = shade(color, opacity);
    for k in here.top..here.bottom {
        let at = place(lines.width, lines.left, k);
        tint(&mut pixels[at + here.from..at + here.to], own, mode);
    }
}

/// Blends texels, scaled by an opacity, with the pixels of rows inside an area. The texel in
/// column `tx` and row `ty` is at the top left point of the area.
fn blit_rows(
    lines: Lines,
    start: Point,
    area: &Rect,
    block: &PixelBlock,
    tx: &i32,
    ty: &i32,
    opacity: u8,
    mode: Blend,
    pixels: &mut [Pixel],
)
    requires lines { AreLines start lines.width lines.left lines.wide lines.count pixels.old }
    requires inside { is_inside (Blit area.now block.now tx.now ty.now opacity mode) ≡ true }
    ensures { IsRedrawn lines.width lines.left lines.wide lines.count
        (step_of start (Blit area.now block.now tx.now ty.now opacity mode))
        pixels.old pixels.new }
{
    let here = patch_of(area, start, lines.wide, lines.count);
    if here.to <= here.from {
        return;
    }
    for k in here.top..here.bottom {
        let first = below(start, k);
        let p = right_of(first, here.from);
        let texel = texel_at(block, p, area, tx, ty);
        let source = texels(block, texel, here.to - here.from);
        let at = place(lines.width, lines.left, k);
        print(
            &mut pixels[at + here.from..at + here.to],
            source,
            block.is_opaque(),
            opacity,
            mode,
        );
    }
}

/// Blends the rows of a group with the pixels of rows inside its area.
pub(crate) fn lay_rows(lines: Lines, start: Point, group: &OpenGroup, pixels: &mut [Pixel])
    requires lines { AreLines start lines.width lines.left lines.wide lines.count pixels.old }
    requires whole { (lines.count * lines.wide) ≤ length group.now.pixels.items }
    ensures { IsRedrawn lines.width lines.left lines.wide lines.count
        (lays start lines.wide group.now) pixels.old pixels.new }
{
    let here = patch_of(&group.area, start, lines.wide, lines.count);
    for k in here.top..here.bottom {
        let own = place(lines.wide, 0, k);
        let at = place(lines.width, lines.left, k);
        mix(
            &mut pixels[at + here.from..at + here.to],
            &group.pixels[own + here.from..own + here.to],
            group.opacity,
            group.mode,
        );
    }
}

/// Draws a `Fill` or a `Blit` in rows.
pub(crate) fn draw_in_rows(op: &Op, lines: Lines, start: Point, pixels: &mut [Pixel])
    requires lines { AreLines start lines.width lines.left lines.wide lines.count pixels.old }
    requires inside { is_inside op.now ≡ true }
    ensures { IsRedrawn lines.width lines.left lines.wide lines.count (step_of start op.now)
        pixels.old pixels.new }
{
    match op {
        Op::Fill {
            area,
            color,
            opacity,
            blend,
        } => fill_rows(lines, start, area, *color, *opacity, *blend, pixels),
        Op::Blit {
            area,
            block,
            tx,
            ty,
            opacity,
            blend,
        } => blit_rows(lines, start, area, block, tx, ty, *opacity, *blend, pixels),
        Op::Push { .. } => {}
        Op::Pop => {}
    }
}
