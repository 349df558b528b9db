//! A list of operations that is painted.
ghost use Rattle.std.specs.Prelude.{◌≡◌, ◌<◌};

use crate::telling::tell;
use anyhow::Result;
use std::alloc::Global;
use std::marker::Brand;
use std::sync::ledger::{Blank, Ledger};
use std::thread::Threads;
use vz_base::Memory;
use vz_buffers::{Buffer, Steps};
use vz_flat::{Op, Ops};
use vz_frame::{Blend, List};
use vz_geom::{Rect, Size};
use vz_paint::paint;
use vz_pixels::{Pixel, PixelBlock};

/// The texels of a block, three columns and two rows.
const TEXELS: [u8; 24] = [
    255, 0, 0, 255, 0, 255, 0, 255, 0, 0, 90, 90, //
    7, 8, 9, 10, 0, 0, 0, 0, 60, 120, 180, 240,
];

/// What the operations leave on a display of six columns and two rows, of which the first and the
/// last column are not painted: four bytes a pixel.
const LEFT: [u8; 48] = [
    0, 0, 0, 255, 100, 178, 25, 255, 210, 169, 171, 255, //
    211, 130, 90, 255, 0, 0, 0, 0, 0, 0, 0, 255, //
    0, 0, 0, 255, 139, 69, 113, 255, 94, 78, 159, 255, //
    200, 100, 50, 255, 10, 20, 30, 40, 0, 0, 0, 255,
];

/// A colour, or black if it is not premultiplied.
fn colour(r: u8, g: u8, b: u8, a: u8) -> Pixel {
    match Pixel::new(r, g, b, a) {
        Some(colour) => colour,
        None => Pixel::black(),
    }
}

/// One colour in an area.
fn fill(area: Rect, color: Pixel, opacity: u8, blend: Blend) -> Op {
    Op::Fill {
        area,
        color,
        opacity,
        blend,
    }
}

/// A group in an area.
fn push(area: Rect, opacity: u8, blend: Blend) -> Op {
    Op::Push {
        area,
        opacity,
        blend,
    }
}

/// Fills, texels and nested groups in each mode, some of them in part outside the display.
fn operations(alloc: Global, block: PixelBlock) -> Option<Vec<Op>> {
    let white = colour(255, 255, 255, 255);
    Vec::from_array(
        alloc,
        [
            fill(
                Rect::new(0, 0, 6, 2),
                colour(200, 100, 50, 255),
                255,
                Blend::Over,
            ),
            Op::Blit {
                area: Rect::new(1, 0, 2, 2),
                block,
                tx: 1,
                ty: 0,
                opacity: 128,
                blend: Blend::Over,
            },
            push(Rect::new(2, 0, 3, 2), 128, Blend::Over),
            fill(Rect::new(2, 0, 2, 1), white, 255, Blend::Src),
            push(Rect::new(3, -1, 2, 3), 200, Blend::DstIn),
            fill(Rect::new(3, 0, 1, 1), Pixel::black(), 128, Blend::Over),
            Op::Pop,
            Op::Pop,
            fill(
                Rect::new(-1, 1, 4, 4),
                colour(0, 0, 100, 100),
                200,
                Blend::Over,
            ),
            push(Rect::new(4, 0, 1, 2), 255, Blend::Src),
            fill(
                Rect::new(4, 1, 1, 1),
                colour(10, 20, 30, 40),
                255,
                Blend::Over,
            ),
            Op::Pop,
        ],
    )
    .ok()
}

/// The operations, if there is memory and they are taken.
fn ops_of(alloc: Global) -> Option<Ops> {
    let block = PixelBlock::of_bytes(alloc, 3, 2, &TEXELS).ok()?;
    let list = operations(alloc, block)?;
    Ops::of(List::from_vec(list)).ok()
}

/// How many pixels are as they must be, up to the first that is not.
fn as_left(bytes: &[u8]) -> usize {
    for (place, (byte, left)) in bytes.iter().zip(&LEFT).enumerate() {
        if byte != left {
            return place / 4;
        }
    }
    LEFT.len() / 4
}

/// Paints operations inside the display, and counts the pixels that are as they must be.
fn painted<L: Ledger, R: Threads + AllocGlobal + Sync>(
    rt: &R,
    ops: &Ops,
    steps: &mut Steps<L>,
) -> Result<usize, Memory> {
    let size = Size { w: 6, h: 2 };
    let part = Rect::new(1, -3, 4, 40);
    let all = Rect::new(0, 0, 6, 2);
    let area = part.intersect(&all);
    let mut buffer = Buffer::new(rt.alloc(), size, steps)?;
    paint(rt, rt.alloc(), ops, &mut buffer, area, steps)?;
    Ok(as_left(buffer.bytes()))
}

/// How many pixels are painted as they must be.
fn well_painted<L: Ledger, R: Threads + AllocGlobal + Sync>(rt: &R, blank: Blank) -> usize
    requires name { blank.name ≡ L.name }
    requires parts { blank.parts ≡ L.parts }
    requires some { 0 < L.parts }
{
    let mut steps = Steps::<L>::new(blank);
    match ops_of(rt.alloc()) {
        Some(ops) => painted(rt, &ops, &mut steps).unwrap_or(0),
        None => 0,
    }
}

/// Paints them and prints how many pixels are as they must be.
pub(crate) fn play<R: Threads + AllocGlobal + Print + Sync>(rt: &R) -> Result<()> {
    let count = well_painted::<Brand, _>(rt, Blank::new(1));
    tell(rt, "painted", "operations", count, LEFT.len() / 4)
}
