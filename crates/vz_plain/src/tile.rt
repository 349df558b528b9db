//! The colours of tiles.
ghost use Rattle.std.specs.Prelude.{◌≡◌, ◌≤◌, ◌<◌, ◌≤ℤ◌, ℕ, Some, pos, map, slice_index_or, length};
ghost use Rattle.vz_geom.specs.Rectangle.{plus};
ghost use Rattle.vz_pixels.specs.Colour.{transparent};
ghost use Rattle.std.specs.Option.{option_copied};
ghost use Rattle.vz_rules.specs.Paint.{block_of, texel_of, tile_colour};
ghost use Rattle.vz_frame.specs.Blending.{laid};
ghost use Rattle.vz_plain.specs.declared.span.TheConstants.{PIECE};
ghost use Rattle.vz_plain.specs.Points.{IsClose};
ghost use Rattle.vz_plain.specs.Rows.{IsPainted, right_of};

use crate::inks::{lay_colour, lay_row};
use crate::span::PIECE;
use vz_frame::{Blend, Listing};
use vz_geom::Point;
use vz_pixels::{Pixel, PixelBlock};
use vz_scene::SubmittedFrame;

/// The pixel block of a listed resource.
fn block_of<'a>(id: u32, listings: &[Listing], blocks: &[&'a PixelBlock]) -> Option<&'a PixelBlock>
    ensures { option_copied result ≡ block_of id listings.now (map (λ b. b.now) blocks.now) }
{
    let Some((listing, other_listings)) = listings.split_first() else {
        return None;
    };
    let Some((block, others)) = blocks.split_first() else {
        return None;
    };
    if listing.id == id {
        Some(*block)
    } else {
        block_of(id, other_listings, others)
    }
}

/// The pixel at a place, or transparent if there is none.
fn pixel_at(pixels: &[Pixel], k: usize) -> Pixel
    ensures { result ≡ slice_index_or pixels.now k transparent }
{
    if k < pixels.len() {
        pixels[k]
    } else {
        Pixel::transparent()
    }
}

/// The texel of a block at a place of the row from a point on, or transparent outside the block.
#[tactic(auto, unfolding(vz_pixels::specs::Block::texel))]
fn texel_at(block: &PixelBlock, first: Point, k: usize) -> Pixel
    requires { k < PIECE }
    ensures { result ≡ texel_of (Some block.now) (right_of first k) }
{
    let x = (i64::from(first.x) + k as i64).unsigned_abs();
    let y = u64::from(first.y.unsigned_abs());
    let w = u64::from(block.w());
    if x < w {
        pixel_at(block.pixels(), (y * w + x) as usize)
    } else {
        Pixel::transparent()
    }
}

/// The texels of a block in the row from a point on, at most `count`; none outside the block.
/// Condition: the point is not left of column 0.
fn texels(block: &PixelBlock, first: Point, count: usize) -> &[Pixel]
    requires { pos 0 ≤ℤ first.x }
    ensures most { length result.now ≤ count }
    ensures each { (k : ℕ) → k < count → slice_index_or result.now k transparent
        ≡ texel_of (Some block.now) (right_of first k) }
{
    let x = first.x.unsigned_abs() as usize;
    let y = first.y.unsigned_abs() as usize;
    let w = block.w() as usize;
    let h = block.h() as usize;
    if w <= x || h <= y {
        return &block.pixels()[0..0];
    }
    let from = y * w + x;
    &block.pixels()[from..from + count.min(w - x)]
}

/// Lays texels, scaled by an opacity, on a row by a mode, one by one.
fn lay_each(block: &PixelBlock, first: Point, mode: Blend, opacity: u8, row: &mut [Pixel])
    requires { length row.old ≤ PIECE }
    ensures long { length row.new ≡ length row.old }
    ensures each { (k : ℕ) → k < length row.old → slice_index_or row.new k transparent
        ≡ laid mode (texel_of (Some block.now) (right_of first k)) opacity
        (slice_index_or row.old k transparent) }
{
    for k in 0..row.len() {
        row[k] = mode.laid(texel_at(block, first, k), opacity, row[k]);
    }
}

/// Lays the texels of a block in the row from a point on, and transparent outside the block,
/// scaled by an opacity, on a row by a mode. The definitions mirror a block at column 0: left of
/// it the texels stand in the opposite order.
fn lay_texels(block: &PixelBlock, first: Point, mode: Blend, opacity: u8, row: &mut [Pixel])
    requires { length row.old ≤ PIECE }
    ensures long { length row.new ≡ length row.old }
    ensures each { (k : ℕ) → k < length row.old → slice_index_or row.new k transparent
        ≡ laid mode (texel_of (Some block.now) (right_of first k)) opacity
        (slice_index_or row.old k transparent) }
{
    if first.x < 0 {
        lay_each(block, first, mode, opacity, row);
    } else {
        lay_row(texels(block, first, row.len()), mode, opacity, row);
    }
}

/// The point of a block at a point of a tile whose texel (tx, ty) is at the top left point.
/// Condition: the point is close.
fn in_block(p: Point, tx: u16, ty: u16) -> Point
    requires { IsClose p }
    ensures { result ≡ plus p (record { x = pos tx; y = pos ty }) }
{
    Point {
        x: p.x + i32::from(tx),
        y: p.y + i32::from(ty),
    }
}

/// Lays a tile, whose texel (tx, ty) is at the top left point of a quad's rectangle, on a piece
/// of a row. `p` is the piece's first point, relative to that top left point. Condition: it is
/// close.
pub(crate) fn lay_tile(
    submitted: &SubmittedFrame<'_>,
    id: u32,
    tx: u16,
    ty: u16,
    p: Point,
    mode: Blend,
    opacity: u8,
    row: &mut [Pixel],
)
    requires close { IsClose p }
    requires few { length row.old ≤ PIECE }
    ensures { IsPainted (λ q d. laid mode (tile_colour submitted.now id tx ty q) opacity d)
        p row.old row.new }
{
    let first = in_block(p, tx, ty);
    let listings = submitted.frame().resources.as_slice();
    match block_of(id, listings, submitted.blocks()) {
        None => lay_colour(Pixel::transparent(), mode, opacity, row),
        Some(block) => lay_texels(block, first, mode, opacity, row),
    }
}
