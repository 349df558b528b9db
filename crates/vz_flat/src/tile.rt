//! Tile quads.
ghost use Rattle.std.specs.Prelude.{◌≡◌, ◌++◌, OnOk};
ghost use Rattle.std.specs.Option.{option_copied};
ghost use Rattle.vz_surfaces.specs.Names.{block_at};
ghost use Rattle.vz_placement.specs.Limits.{HasRoom};
ghost use Rattle.vz_flat.specs.Tiles.{first_texel, texels_flat};

use crate::Op;
use crate::put::put;
use vz_base::Memory;
use vz_frame::Blend;
use vz_geom::Point;
use vz_pixels::{Pixel, PixelBlock};
use vz_placement::Placement;

/// The texel at the top left pixel of a place's window, if the texel `(tx, ty)` is at the top
/// left point of the tile.
fn first_texel(tx: u16, ty: u16, place: &Placement) -> Point
    requires { HasRoom 0 place.now.shift }
    ensures { result ≡ first_texel tx ty place.now }
{
    let first = place.window().corner();
    let shift = place.shift();
    Point {
        x: first.x - shift.x + i32::from(tx),
        y: first.y - shift.y + i32::from(ty),
    }
}

/// The block at a place, if there is one.
pub(crate) fn block_at(blocks: &[PixelBlock], place: Option<usize>) -> Option<&PixelBlock>
    ensures { option_copied result ≡ block_at place blocks.now }
{
    match place {
        None => None,
        Some(k) => blocks.get(k),
    }
}

/// Appends the operation of a tile with the texel `(tx, ty)` at its top left point. Without a
/// block it is a fill with transparent.
pub(crate) fn put_tile(
    ops: &mut Vec<Op>,
    block: Option<&PixelBlock>,
    tx: u16,
    ty: u16,
    mode: Blend,
    opacity: u8,
    place: &Placement,
) -> Result<(), Memory>
    requires { HasRoom 0 place.now.shift }
    ensures { OnOk result (ops.new.items ≡ ops.old.items ++ texels_flat (option_copied block.entry)
        (first_texel tx ty place.now) mode opacity place.now.window) }
{
    let area = place.window();
    match block {
        None => {
            put(
                ops,
                Op::Fill {
                    area,
                    color: Pixel::transparent(),
                    opacity,
                    blend: mode,
                },
            )?;
            Ok(())
        }
        Some(block) => {
            let first = first_texel(tx, ty, place);
            let block = block.share()?;
            put(
                ops,
                Op::Blit {
                    area,
                    block,
                    tx: first.x,
                    ty: first.y,
                    opacity,
                    blend: mode,
                },
            )?;
            Ok(())
        }
    }
}
