//! Drawing operations on the pixels of a display.
ghost use Rattle.std.specs.Prelude.{◌≡◌, ◌≤◌, IsTrue, IfOk, IfErr, IsOk, ◌↔◌};
ghost use Rattle.vz_flat.specs.Ops.{is_whole, deepest, deepest as greatest};

use crate::nesting::deepest_of;
use std::marker::Model;
use vz_frame::{Blend, List};
use vz_geom::Rect;
use vz_pixels::{Pixel, PixelBlock};

/// The greatest number of groups that may be open at once. A path has at most 64 surfaces, each
/// with 15 passes that draw one another, and each surface but the root has a group of its own.
pub const MOST_OPEN: u32 = 1_023;

/// One drawing operation, in display coordinates. It changes only the pixels of its area.
#[derive(Drop)]
pub enum Op {
    /// Fills the area with one colour.
    Fill {
        /// The pixels that it changes.
        area: Rect,
        /// The colour.
        color: Pixel,
        /// The opacity by which the colour is scaled, from 0 to 255.
        opacity: u8,
        /// How the colour is blended with the pixels below it.
        blend: Blend,
    },
    /// Draws texels of a block: the texel `(tx, ty)` at the top left pixel of the area, and at
    /// each other pixel the texel as far from it, in columns and rows.
    Blit {
        /// The pixels that it changes.
        area: Rect,
        /// The block with the texels.
        block: PixelBlock,
        /// The column of the texel at the top left pixel of the area.
        tx: i32,
        /// The row of that texel.
        ty: i32,
        /// The opacity by which each texel is scaled, from 0 to 255.
        opacity: u8,
        /// How each texel is blended with the pixels below it.
        blend: Blend,
    },
    /// Opens a group: what follows, up to its `Pop`, is drawn on a transparent layer.
    Push {
        /// The pixels that the group changes.
        area: Rect,
        /// The opacity by which the group's pixels are scaled, from 0 to 255.
        opacity: u8,
        /// How the group's pixels are blended with those below it.
        blend: Blend,
    },
    /// Ends the innermost open group, and blends it with what was there before it.
    Pop,
}

/// A valid list of operations, from back to front, which may be empty: each `Pop` ends an open
/// group, no group is left open, at most `MOST_OPEN` are open at once, and each texel of a `Blit`
/// is inside its block.
#[derive(Drop)]
pub struct Ops {
    list: List<Op>,
    deepest: u32,
}

impl Model for Ops {
    ghost use Rattle.std.specs.Prelude.{◌≡◌, List, IsTrue};
    ghost use Rattle.vz_flat.specs.declared.op.Op.{Op as Step};
    ghost use Rattle.vz_flat.specs.Ops.{is_whole, deepest as greatest};

    ghost Value = { List Step };

    ghost view = { λ o. o.list };

    ghost invariant = { λ o. IsTrue (is_whole o.list) × (o.deepest ≡ greatest 0 o.list) };
}

impl Ops {
    /// Checks a list of operations, from back to front. The error gives the list back exactly if
    /// it breaks one of the four rules of `Ops`. It allocates nothing, and looks at each
    /// operation once.
    pub fn of(list: List<Op>) -> Result<Ops, List<Op>>
        ensures exactly { IsOk result ↔ IsTrue (is_whole list) }
        ensures ok { IfOk result (λ ops. ops ≡ list) }
        ensures back { IfErr result (λ refused. refused ≡ list) }
    {
        match deepest_of(list.as_slice()) {
            Some(deepest) => Ok(Ops { list, deepest }),
            None => Err(list),
        }
    }

    /// The operations of a list of which is known that it breaks no rule of `Ops`, and how many of
    /// its groups are open at once at most. Nothing is looked at.
    pub fn known(list: List<Op>, deepest: u32) -> Ops
        requires whole { IsTrue (is_whole list) }
        requires deepest { deepest ≡ greatest 0 list }
        ensures { result ≡ list }
    {
        Ops { list, deepest }
    }

    /// The operations, from back to front.
    pub fn as_slice(&self) -> &[Op]
        ensures value { result.now ≡ self.now }
        ensures whole { IsTrue (is_whole self.now) }
    {
        self.list.as_slice()
    }

    /// The operations as a list, from back to front. It takes no memory.
    pub fn into_list(self) -> List<Op>
        ensures value { result ≡ self }
        ensures whole { IsTrue (is_whole self) }
    {
        self.list
    }

    /// The greatest number of groups that are open at once. A painter needs that many rows of
    /// colours besides its own.
    pub fn deepest(&self) -> u32
        ensures value { result ≡ deepest 0 self.now }
        ensures limit { result ≤ MOST_OPEN }
    {
        self.deepest
    }
}
