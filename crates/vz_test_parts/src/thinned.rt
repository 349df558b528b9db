//! Drawn lists of operations, which are painted alike with their occluded items and without them.
ghost use Rattle.std.specs.Prelude.{◌≡◌, ◌<◌};

use crate::occluded::{SIDES, fill, opaque, push, thin_of};
use crate::telling::tell;
use anyhow::Result;
use std::alloc::Global;
use std::marker::Brand;
use std::sync::ledger::{Blank, Ledger};
use std::thread::Threads;
use vz_base::Memory;
use vz_buffers::{Buffer, Steps};
use vz_draws::Draws;
use vz_flat::{Op, Ops};
use vz_frame::{Blend, List};
use vz_geom::Rect;
use vz_paint::paint;
use vz_pixels::{Pixel, PixelBlock};

/// How many lists are drawn.
const DRAWN: u32 = 1000;

/// How many operations a drawn list has, besides the ends of groups that are left open.
const OPERATIONS: u32 = 12;

/// How many items all drawn lists lose, as a slow program in Python counted them.
const LOST: u64 = 3158;

/// How many columns the block of a drawn operation has.
const COLUMNS: u32 = 8;

/// How many rows it has.
const ROWS: u32 = 4;

/// How many texels it has.
const TEXELS: u32 = 32;

/// A drawn area, which may be in part outside the display or empty.
fn drawn_area(draws: &mut Draws) -> Rect {
    let x = draws.below(4) as i32 - 1;
    let y = draws.below(3) as i32 - 1;
    let w = draws.below(5) as i32;
    let h = draws.below(3) as i32;
    Rect::new(x, y, w, h)
}

/// A drawn mode, mostly `Over`.
fn drawn_blend(draws: &mut Draws) -> Blend {
    match draws.below(5) {
        0 => Blend::Src,
        1 => Blend::DstIn,
        _ => Blend::Over,
    }
}

/// A drawn opacity, mostly the greatest.
fn drawn_opacity(draws: &mut Draws) -> u8 {
    if draws.below(4) == 0 { 128 } else { 255 }
}

/// A drawn colour, which is often opaque.
fn drawn_colour(draws: &mut Draws) -> Pixel {
    let colour = opaque(draws.byte(), draws.byte(), draws.byte());
    if draws.below(3) == 0 {
        colour.scale(128)
    } else {
        colour
    }
}

/// A block of black. Its texels are opaque but for those from a drawn one up to another, if there is
/// memory.
fn drawn_block(alloc: Global, draws: &mut Draws) -> Option<PixelBlock> {
    let from = draws.below(TEXELS);
    let upto = draws.below(TEXELS + 1);
    let mut bytes = [0; 128];
    for k in 0..TEXELS {
        let clear = from <= k && k < upto;
        bytes[4 * k as usize + 3] = if clear { 100 } else { 255 };
    }
    PixelBlock::of_bytes(alloc, COLUMNS, ROWS, &bytes).ok()
}

/// Drawn texels of a drawn block in a drawn area, if there is memory.
fn drawn_texels(alloc: Global, draws: &mut Draws) -> Option<Op> {
    let block = drawn_block(alloc, draws)?;
    Some(Op::Blit {
        area: drawn_area(draws),
        block,
        tx: draws.below(5) as i32,
        ty: draws.below(3) as i32,
        opacity: drawn_opacity(draws),
        blend: drawn_blend(draws),
    })
}

/// A drawn operation behind so many open groups, if there is memory.
fn drawn_op(alloc: Global, draws: &mut Draws, open: u32) -> Option<Op> {
    let kind = draws.below(6);
    if kind == 0 && open < 3 {
        return Some(push(drawn_area(draws), draws.byte(), drawn_blend(draws)));
    }
    if kind == 1 && open > 0 {
        return Some(Op::Pop);
    }
    if kind == 2 {
        return drawn_texels(alloc, draws);
    }
    Some(fill(
        drawn_area(draws),
        drawn_colour(draws),
        drawn_opacity(draws),
        drawn_blend(draws),
    ))
}

/// How many groups are open behind an operation, if so many were open before it.
fn open_behind(op: &Op, open: u32) -> u32 {
    match op {
        Op::Push { .. } => open.saturating_add(1),
        Op::Pop => open.saturating_sub(1),
        _ => open,
    }
}

/// The drawn list of a number, if there is memory.
fn drawn_ops(alloc: Global, number: u32) -> Option<Ops> {
    let mut draws = Draws::new(number);
    let mut list = Vec::new(alloc);
    let mut open = 0;
    for _ in 0..OPERATIONS {
        let op = drawn_op(alloc, &mut draws, open)?;
        open = open_behind(&op, open);
        list.push(op).ok()?;
    }
    for _ in 0..open {
        list.push(Op::Pop).ok()?;
    }
    Ops::of(List::from_vec(list)).ok()
}

/// The display with these operations.
fn painted<L: Ledger, R: Threads + AllocGlobal + Sync>(
    rt: &R,
    ops: &Ops,
    steps: &mut Steps<L>,
) -> Result<Buffer, Memory> {
    let all = Rect::new(0, 0, 4, 2);
    let mut buffer = Buffer::new(rt.alloc(), SIDES, steps)?;
    paint(rt, rt.alloc(), ops, &mut buffer, all, steps)?;
    Ok(buffer)
}

/// How many items the drawn list of a number loses, if there is memory and it is painted alike with
/// them and without them.
fn lost<L: Ledger, R: Threads + AllocGlobal + Sync>(
    rt: &R,
    number: u32,
    steps: &mut Steps<L>,
) -> Option<u64> {
    let ops = drawn_ops(rt.alloc(), number)?;
    let before = painted(rt, &ops, steps).ok()?;
    let thin = thin_of(rt.alloc(), ops)?;
    let after = painted(rt, thin.ops(), steps).ok()?;
    if before.bytes() == after.bytes() {
        Some(thin.gone())
    } else {
        None
    }
}

/// How many drawn lists are painted alike, up to the first that is not, and how many items they
/// lose.
fn alike<L: Ledger, R: Threads + AllocGlobal + Sync>(rt: &R, blank: Blank) -> (u32, u64)
    requires name { blank.name ≡ L.name }
    requires parts { blank.parts ≡ L.parts }
    requires some { 0 < L.parts }
{
    let mut steps = Steps::<L>::new(blank);
    let mut gone = 0_u64;
    for number in 0..DRAWN {
        let Some(more) = lost(rt, number, &mut steps) else {
            return (number, gone);
        };
        gone = gone.saturating_add(more);
    }
    (DRAWN, gone)
}

/// Removes what is occluded in the drawn lists, and prints how many of them are painted alike and
/// how many items they lose.
pub(crate) fn play<R: Threads + AllocGlobal + Print + Sync>(rt: &R) -> Result<()> {
    let (count, gone) = alike::<Brand, _>(rt, Blank::new(1));
    tell(rt, "occluded", "drawn", count as usize, DRAWN as usize)?;
    tell(
        rt,
        "occluded",
        "lost_by_drawn",
        gone as usize,
        LOST as usize,
    )
}
