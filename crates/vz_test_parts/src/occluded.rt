//! Worked lists of operations, and what is left of them if their occluded items are removed.
use crate::telling::tell;
use anyhow::Result;
use std::alloc::Global;
use vz_flat::{Op, Ops};
use vz_frame::{Blend, List};
use vz_geom::{Rect, Size};
use vz_occlude::{FlatPicture, Thin, occlude};
use vz_pixels::{Pixel, PixelBlock};

/// An operation of a worked list. Its area begins in the top row, at the first number, and has the
/// second number of columns and the third of rows.
#[derive(Clone, Copy)]
enum Item {
    /// Opaque green, over what is there.
    Green(u8, u8, u8),
    /// Opaque red, over what is there.
    Red(u8, u8, u8),
    /// One texel of this alpha at the top left, over what is there.
    Texel(u8),
    /// A group at this opacity.
    Group(u8, u8, u8, u8),
    /// The end of a group.
    End,
}

use Item::{End, Green, Group, Red, Texel};

/// A worked list: its name, its items, those that are kept, and how many are removed.
type Worked = (&'static str, &'static [Item], &'static [Item], u64);

/// Worked lists.
const WORKED: [Worked; 9] = [
    (
        "the_front_covers_all",
        &[Green(0, 4, 2), Red(0, 4, 2)],
        &[Red(0, 4, 2)],
        1,
    ),
    (
        "the_front_covers_a_part",
        &[Green(0, 4, 2), Red(1, 2, 2)],
        &[Green(0, 4, 2), Red(1, 2, 2)],
        0,
    ),
    (
        "a_group_behind",
        &[Group(0, 2, 2, 128), Green(0, 2, 2), End, Red(0, 4, 2)],
        &[Red(0, 4, 2)],
        1,
    ),
    (
        "a_group_in_front",
        &[Green(0, 4, 2), Group(0, 4, 2, 255), Red(0, 4, 2), End],
        &[Green(0, 4, 2), Group(0, 4, 2, 255), Red(0, 4, 2), End],
        0,
    ),
    ("nothing", &[], &[], 0),
    (
        "an_opaque_texel",
        &[
            Group(0, 1, 1, 128),
            Green(0, 1, 1),
            End,
            Red(0, 1, 1),
            Texel(255),
        ],
        &[Texel(255)],
        2,
    ),
    (
        "a_texel_that_is_not_opaque",
        &[Green(0, 1, 1), Texel(254)],
        &[Green(0, 1, 1), Texel(254)],
        0,
    ),
    (
        "inside_a_group",
        &[Group(0, 4, 2, 128), Green(1, 1, 1), Red(0, 4, 1), End],
        &[Group(0, 4, 2, 128), Red(0, 4, 1), End],
        1,
    ),
    (
        "across_the_end_of_a_group",
        &[Group(0, 4, 2, 128), Green(0, 1, 1), End, Red(0, 2, 2)],
        &[Group(0, 4, 2, 128), Green(0, 1, 1), End, Red(0, 2, 2)],
        0,
    ),
];

/// The sides of the display.
pub(crate) const SIDES: Size = Size { w: 4, h: 2 };

/// An opaque colour.
pub(crate) fn opaque(r: u8, g: u8, b: u8) -> Pixel {
    Pixel::premultiplied(r, g, b, 255)
}

/// Opaque green.
fn green() -> Pixel {
    opaque(0, 255, 0)
}

/// Opaque red.
fn red() -> Pixel {
    opaque(255, 0, 0)
}

/// One colour in an area.
pub(crate) fn fill(area: Rect, color: Pixel, opacity: u8, blend: Blend) -> Op {
    Op::Fill {
        area,
        color,
        opacity,
        blend,
    }
}

/// A texel of black of this alpha at the top left, if there is memory.
fn texel(alloc: Global, alpha: u8) -> Option<Op> {
    let block = PixelBlock::of_bytes(alloc, 1, 1, &[0, 0, 0, alpha]).ok()?;
    Some(Op::Blit {
        area: top(0, 1, 1),
        block,
        tx: 0,
        ty: 0,
        opacity: 255,
        blend: Blend::Over,
    })
}

/// A group in an area.
pub(crate) fn push(area: Rect, opacity: u8, blend: Blend) -> Op {
    Op::Push {
        area,
        opacity,
        blend,
    }
}

/// An area in the top row or rows.
fn top(x: u8, w: u8, h: u8) -> Rect {
    Rect::new(x as i32, 0, w as i32, h as i32)
}

/// The operation of an item, if there is memory.
fn op_of(alloc: Global, item: Item) -> Option<Op> {
    match item {
        Green(x, w, h) => Some(fill(top(x, w, h), green(), 255, Blend::Over)),
        Red(x, w, h) => Some(fill(top(x, w, h), red(), 255, Blend::Over)),
        Texel(alpha) => texel(alloc, alpha),
        Group(x, w, h, opacity) => Some(push(top(x, w, h), opacity, Blend::Over)),
        End => Some(Op::Pop),
    }
}

/// The operations of items, if there is memory and they are taken.
fn ops_of(alloc: Global, items: &[Item]) -> Option<Ops> {
    let mut list = Vec::new(alloc);
    for item in items {
        list.push(op_of(alloc, *item)?).ok()?;
    }
    Ops::of(List::from_vec(list)).ok()
}

/// Whether a block's texel at the top left has this alpha.
fn begins_with(block: &PixelBlock, alpha: u8) -> bool {
    block.w() > 0 && block.h() > 0 && block.at(0, 0).a() == alpha
}

/// Whether an operation is that of an item.
fn is_item(op: &Op, item: Item) -> bool {
    match op {
        Op::Fill { area, color, .. } => match item {
            Green(x, w, h) => *area == top(x, w, h) && *color == green(),
            Red(x, w, h) => *area == top(x, w, h) && *color == red(),
            _ => false,
        },
        Op::Blit { area, block, .. } => match item {
            Texel(alpha) => *area == top(0, 1, 1) && begins_with(block, alpha),
            _ => false,
        },
        Op::Push { area, opacity, .. } => match item {
            Group(x, w, h, o) => *area == top(x, w, h) && *opacity == o,
            _ => false,
        },
        Op::Pop => match item {
            End => true,
            _ => false,
        },
    }
}

/// Whether operations are those of items.
fn are_items(ops: &[Op], items: &[Item]) -> bool {
    if ops.len() != items.len() {
        return false;
    }
    for (op, item) in ops.iter().zip(items) {
        if !is_item(op, *item) {
            return false;
        }
    }
    true
}

/// The picture of operations without occluded items, if there is memory.
pub(crate) fn thin_of(alloc: Global, ops: Ops) -> Option<Thin> {
    let all = Rect::new(0, 0, 4, 2);
    let picture = FlatPicture::new(SIDES, ops, all);
    occlude(alloc, picture).ok()
}

/// Whether a worked list loses what it says, if there is memory.
fn is_worked(alloc: Global, items: &[Item], kept: &[Item], gone: u64) -> Option<bool> {
    let ops = ops_of(alloc, items)?;
    let thin = thin_of(alloc, ops)?;
    Some(are_items(thin.ops().as_slice(), kept) && thin.gone() == gone)
}

/// Whether a group without an end is given back, if there is memory.
fn is_given_back(alloc: Global) -> Option<bool> {
    let mut list = Vec::new(alloc);
    list.push(push(top(0, 4, 2), 255, Blend::Over)).ok()?;
    match Ops::of(List::from_vec(list)) {
        Ok(_) => Some(false),
        Err(back) => Some(back.len() == 1),
    }
}

/// Removes what is occluded in the worked lists, and prints a line for each.
pub(crate) fn play(rt: &HostRuntime) -> Result<()> {
    for (name, items, kept, gone) in WORKED {
        let worked = is_worked(rt.alloc(), items, kept, gone) == Some(true);
        tell(rt, "occluded", name, worked as usize, 1)?;
    }
    let back = is_given_back(rt.alloc()) == Some(true);
    tell(rt, "occluded", "a_group_without_an_end", back as usize, 1)
}
