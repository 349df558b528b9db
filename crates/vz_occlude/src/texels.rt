//! Whether texels of a block are opaque.
ghost use Rattle.std.specs.Prelude.{◌≡◌, ◌+◌, ◌≤◌, ◌<◌, ◌↔◌, ℕ, pos, true, IsTrue};
ghost use Rattle.vz_base.specs.declared.limits.TheConstants.{GREATEST_BLOCK_SIDE};
ghost use Rattle.vz_frame.specs.declared.blend.Blend.{Blend as Mode};
ghost use Rattle.vz_flat.specs.Ops.{is_inside};
ghost use Rattle.vz_flat.specs.declared.op.Op.TheVariants.{Blit};
ghost use Rattle.vz_occlude.specs.Rows.{is_opaque_row, are_opaque_rows};
ghost use Rattle.vz_occlude.specs.Occluders.{is_opaque_blit};

use vz_geom::Rect;
use vz_pixels::PixelBlock;

/// Whether `count` texels of a row, from a column on, are opaque.
fn is_opaque_row(block: &PixelBlock, count: u32, column: u32, row: u32) -> bool
    requires across { column + count ≤ block.now.w }
    requires down { row < block.now.h }
    requires small { block.now.w ≤ GREATEST_BLOCK_SIDE }
    ensures { result ≡ is_opaque_row block.now count column row }
{
    for k in 0..count {
        if block.at(column + k, row).a() != 255 {
            return false;
        }
    }
    true
}

/// Whether all texels of a part of a block are opaque: `count` rows of `width` texels, from a
/// column and a row on.
fn are_opaque_rows(block: &PixelBlock, count: u32, width: u32, column: u32, row: u32) -> bool
    requires across { column + width ≤ block.now.w }
    requires down { row + count ≤ block.now.h }
    requires wide { block.now.w ≤ GREATEST_BLOCK_SIDE }
    requires high { block.now.h ≤ GREATEST_BLOCK_SIDE }
    ensures { result ≡ are_opaque_rows block.now count width column row }
{
    for k in 0..count {
        if !is_opaque_row(block, width, column, row + k) {
            return false;
        }
    }
    true
}

/// Whether an area has the sides of a block.
fn has_sides(area: &Rect, block: &PixelBlock) -> bool
    ensures { IsTrue result
        ↔ ((area.now.w ≡ pos block.now.w) × (area.now.h ≡ pos block.now.h)) }
{
    area.w() == block.w() as i32 && area.h() == block.h() as i32
}

/// Whether all texels that a `Blit` draws are opaque. They are inside its block.
pub(crate) fn is_opaque_blit(area: &Rect, block: &PixelBlock, tx: &i32, ty: &i32) -> bool
    requires inside { (opacity : ℕ) (mode : Mode)
        → is_inside (Blit area.now block.now tx.now ty.now opacity mode) ≡ true }
    ensures { result ≡ is_opaque_blit area.now block.now tx.now ty.now }
{
    if area.is_empty() {
        return true;
    }
    // The number of pixels shows that each place of the block has one.
    let _count = block.pixels().len();
    if block.is_opaque() {
        return true;
    }
    // All texels are drawn, and one of them is not opaque.
    if has_sides(area, block) {
        return false;
    }
    // Its sides show that they are within their limit.
    let _sides = (block.w(), block.h());
    are_opaque_rows(
        block,
        area.h() as u32,
        area.w() as u32,
        *tx as u32,
        *ty as u32,
    )
}
