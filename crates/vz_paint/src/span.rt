//! A part of a row, and colours that are blended there.
ghost use Rattle.std.specs.Prelude.{◌≡◌, ◌==◌, ◌+◌, ◌*◌, ◌≤◌, ◌<◌, ◌+ℤ◌, ◌-ℤ◌, ◌≤ℤ◌, ◌<ℤ◌, pos, true, length, map, take, drop, replicate};
ghost use Rattle.std.specs.List.{list_all};
ghost use Rattle.vz_base.specs.declared.limits.TheConstants.{GREATEST_DISPLAY_SIDE, GREATEST_BLOCK_SIDE};
ghost use Rattle.vz_pixels.specs.Colour.{scale};
ghost use Rattle.vz_frame.specs.declared.blend.Blend.TheVariants.{Over};
ghost use Rattle.vz_frame.specs.Blending.{blend, laid};
ghost use Rattle.vz_paint.specs.Row.{right_of, IsStart};
ghost use lib.Lanes.{zip2};

use vz_frame::Blend;
use vz_geom::{Point, Rect};
use vz_kernel::{dst_in_fill, dst_in_row, fill_row, over_fill, over_row, src_row};
use vz_pixels::{Pixel, PixelBlock};

/// How many of the first `count` columns of a row are left of column `x`.
pub(crate) fn columns_before(start: Point, x: &i32, count: usize) -> usize
    requires start { IsStart start }
    ensures most { result ≤ count }
    ensures left { 0 < result → (start.x +ℤ pos result) ≤ℤ x.now }
    ensures right { result < count → x.now ≤ℤ (start.x +ℤ pos result) }
{
    if *x <= start.x {
        return 0;
    }
    let before = (*x - start.x) as usize;
    if before < count { before } else { count }
}

/// Fills a row with one colour.
pub(crate) fn level(row: &mut [Pixel], ground: Pixel)
    ensures { row.new ≡ replicate (length row.old) ground }
{
    row.fill(ground);
}

/// Blends one colour with each pixel of a row.
pub(crate) fn tint(row: &mut [Pixel], color: Pixel, mode: Blend)
    ensures { row.new ≡ map (blend mode color) row.old }
{
    match mode {
        Blend::Over => over_fill(row, color),
        Blend::Src => fill_row(row, color),
        Blend::DstIn => dst_in_fill(row, color),
    }
}

/// Blends each colour, scaled by an opacity, with the pixel at its place.
pub(crate) fn mix(row: &mut [Pixel], source: &[Pixel], opacity: u8, mode: Blend)
    requires { length row.old ≡ length source.now }
    ensures { row.new ≡ zip2 (λ s d. laid mode s opacity d) source.now row.old }
{
    match mode {
        Blend::Over => over_row(row, source, opacity),
        Blend::Src => src_row(row, source, opacity),
        Blend::DstIn => dst_in_row(row, source, opacity),
    }
}

/// A colour scaled by an opacity. Full opacity does not change it.
pub(crate) fn shade(color: Pixel, opacity: u8) -> Pixel
    ensures { result ≡ scale color opacity }
{
    if opacity == 255 {
        return color;
    }
    color.scale(opacity)
}

/// How many texels are tested for opacity, as that costs less than to blend them.
const FEW: usize = 16;

/// Whether all of these colours are opaque.
fn are_opaque(source: &[Pixel]) -> bool
    ensures { result ≡ list_all (λ c. c.a == 255) source.now }
{
    source.iter().all(|c| c.a() == 255)
}

/// Whether all of these colours are opaque, if they are few. Many are not tested.
fn are_few_opaque(source: &[Pixel]) -> bool
    ensures { result ≡ true → list_all (λ c. c.a == 255) source.now ≡ true }
{
    source.len() <= FEW && are_opaque(source)
}

/// Whether texels, scaled by an opacity, hide what is below them. Of a block that is not opaque
/// only a few texels are tested. Condition: the texels of an opaque block are opaque.
fn do_hide(source: &[Pixel], is_opaque: bool, opacity: u8, mode: Blend) -> bool
    requires { is_opaque ≡ true → list_all (λ c. c.a == 255) source.now ≡ true }
    ensures { result ≡ true
        → (mode ≡ Over) × (opacity ≡ 255) × (list_all (λ c. c.a == 255) source.now ≡ true) }
{
    if opacity != 255 {
        return false;
    }
    match mode {
        Blend::Over => {
            if is_opaque {
                return true;
            }
            are_few_opaque(source)
        }
        Blend::Src => false,
        Blend::DstIn => false,
    }
}

/// Blends each texel, scaled by an opacity, with the pixel at its place. Those of an opaque block
/// are copied, and also a few opaque ones of another. Condition: the texels of an opaque block are
/// opaque.
pub(crate) fn print(row: &mut [Pixel], source: &[Pixel], is_opaque: bool, opacity: u8, mode: Blend)
    requires same { length row.old ≡ length source.now }
    requires opaque { is_opaque ≡ true → list_all (λ c. c.a == 255) source.now ≡ true }
    ensures { row.new ≡ zip2 (λ s d. laid mode s opacity d) source.now row.old }
{
    if do_hide(source, is_opaque, opacity, mode) {
        row.copy_from_slice(source);
        return;
    }
    mix(row, source, opacity, mode);
}

/// The column and row of a texel in a block.
#[derive(Clone, Copy)]
pub(crate) struct Texel {
    column: usize,
    row: usize,
}

/// The point that is `by` pixels right of the first one of a row.
pub(crate) fn right_of(start: Point, by: usize) -> Point
    requires start { IsStart start }
    requires near { by ≤ GREATEST_DISPLAY_SIDE }
    ensures { result ≡ right_of start by }
{
    Point {
        x: start.x + by as i32,
        y: start.y,
    }
}

/// The texel of a block at a point of an area, if the texel in column `tx` and row `ty` is at the
/// top left point.
pub(crate) fn texel_at(block: &PixelBlock, p: Point, area: &Rect, tx: &i32, ty: &i32) -> Texel
    requires left { area.now.x ≤ℤ p.x }
    requires top { area.now.y ≤ℤ p.y }
    requires columns { ((p.x -ℤ area.now.x) +ℤ tx.now) <ℤ pos block.now.w }
    requires rows { ((p.y -ℤ area.now.y) +ℤ ty.now) <ℤ pos block.now.h }
    requires column { pos 0 ≤ℤ tx.now }
    requires row { pos 0 ≤ℤ ty.now }
    ensures column { pos result.column ≡ (p.x -ℤ area.now.x) +ℤ tx.now }
    ensures row { pos result.row ≡ (p.y -ℤ area.now.y) +ℤ ty.now }
    ensures inside { result.row < block.now.h }
    ensures small { block.now.h ≤ GREATEST_BLOCK_SIDE }
{
    // No side of a block exceeds the limit, so that the numbers stay small.
    let _sides = (block.w(), block.h());
    let column = (p.x - area.x() + *tx) as usize;
    let row = (p.y - area.y() + *ty) as usize;
    Texel { column, row }
}

/// `count` texels of a row of a block, from one on.
pub(crate) fn texels(block: &PixelBlock, at: Texel, count: usize) -> &[Pixel]
    requires across { (at.column + count) ≤ block.now.w }
    requires down { at.row < block.now.h }
    requires small { block.now.h ≤ GREATEST_BLOCK_SIDE }
    ensures value { result.now
        ≡ take count (drop (at.row * block.now.w + at.column) block.now.pixels) }
    ensures counted { length block.now.pixels ≡ block.now.w * block.now.h }
{
    let from = at.row * block.w() as usize + at.column;
    &block.pixels()[from..from + count]
}
