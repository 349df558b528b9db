//! The picture of a drawing as operations, before and after occluded items are removed.
ghost use Rattle.std.specs.Prelude.{◌≡◌, ◌≤◌, IfOk, IsTrue};
ghost use Rattle.vz_geom.specs.declared.Point.{Point};
ghost use Rattle.vz_geom.specs.Rectangle.{Covers, sized};
ghost use Rattle.vz_geom.specs.Display.{IsDisplaySize};
ghost use Rattle.vz_pixels.specs.Colour.{Colour};
ghost use Rattle.vz_flat.specs.Ops.{value, deepest, is_whole};
ghost use Rattle.vz_occlude.specs.Occlusion.{kept as kept_of, gone as gone_of};

use crate::culler::remove_occluded;
use std::alloc::Global;
use std::marker::Model;
use std::snapshot::Snapshot;
use std::sync::ledger::Ledger;
use std::thread::Threads;
use vz_base::Memory;
use vz_buffers::{Buffer, Steps};
use vz_flat::Ops;
use vz_geom::{Rect, Size};
use vz_machine::{Picture, ThinPicture};
use vz_paint::{paint, paint_alone};

/// A picture of a display as operations on opaque black, with the rectangle that changed since the
/// picture before, in display pixels.
#[derive(Drop)]
pub struct FlatPicture {
    size: Size,
    ops: Ops,
    damage: Rect,
}

impl Model for FlatPicture {
    ghost use Rattle.vz_occlude.specs.Pictures.{Flattened, IsFlattened};

    ghost Value = { Flattened };

    ghost view = { λ p. record { size = p.size; ops = p.ops; damage = p.damage } };

    ghost invariant = { λ p. IsFlattened (record {
      size = p.size;
      ops = p.ops;
      damage = p.damage;
    }) };
}

impl FlatPicture {
    /// Makes a picture. Conditions: a size that a display may have, and a damage on that display.
    pub fn new(size: Size, ops: Ops, damage: Rect) -> FlatPicture
        requires size { IsDisplaySize size }
        requires inside { Covers (sized size) damage }
        ensures { result ≡ record { size = size; ops = ops; damage = damage } }
    {
        FlatPicture { size, ops, damage }
    }

    /// The operations, occluded ones included.
    pub fn ops(&self) -> &Ops
        ensures { result.now ≡ self.now.ops }
    {
        &self.ops
    }

    /// The rectangle that changed since the picture before. It may be empty.
    pub fn damage(&self) -> Rect
        ensures { result ≡ self.now.damage }
    {
        self.damage
    }

    /// The size of the display in pixels.
    pub fn size(&self) -> Size
        ensures { result ≡ self.now.size }
    {
        self.size
    }
}

impl Picture for FlatPicture {
    ghost use Rattle.vz_occlude.specs.Pictures.{flat_picture, occluded_in};

    ghost pictured = { flat_picture };

    ghost occluded = { occluded_in };

    type Thin = Thin;

    fn occlude(self, alloc: Global) -> Result<Thin, Memory> {
        occlude(alloc, self)
    }
}

/// A picture without its occluded items. Contracts see the operations of the whole picture, too:
/// what was kept and how many items were removed is what occlusion says of them.
#[derive(Drop)]
pub struct Thin {
    size: Size,
    whole: Snapshot<Ops>,
    ops: Ops,
    damage: Rect,
    gone: u64,
}

impl Model for Thin {
    ghost use Rattle.vz_occlude.specs.Pictures.{Thinned, IsThinned};

    ghost Value = { Thinned };

    ghost view = { λ p. record {
      size = p.size;
      whole = p.whole.value;
      ops = p.ops;
      damage = p.damage;
      gone = p.gone;
    } };

    ghost invariant = { λ p. IsThinned (record {
      size = p.size;
      whole = p.whole.value;
      ops = p.ops;
      damage = p.damage;
      gone = p.gone;
    }) };
}

impl Thin {
    /// The operations that were kept of the whole ones: no occluded item is among them, and every
    /// pixel has its colour.
    pub fn ops(&self) -> &Ops
        ensures value { result.now ≡ self.now.ops }
        ensures nested { IsTrue (is_whole self.now.whole) }
        ensures kept { self.now.ops ≡ kept_of self.now.whole }
        ensures same { (q : Point) (d : Colour)
            → value self.now.ops q d ≡ value self.now.whole q d }
    {
        &self.ops
    }

    /// How many items were removed of the whole picture. A group that was removed counts once.
    pub fn gone(&self) -> u64
        ensures value { result ≡ self.now.gone }
        ensures counted { self.now.gone ≡ gone_of self.now.whole }
    {
        self.gone
    }

    /// The rectangle that changed since the picture before. It may be empty.
    pub fn damage(&self) -> Rect
        ensures { result ≡ self.now.damage }
    {
        self.damage
    }

    /// The size of the display in pixels.
    pub fn size(&self) -> Size
        ensures value { result ≡ self.now.size }
        ensures display { IsDisplaySize self.now.size }
        ensures inside { Covers (sized self.now.size) self.now.damage }
    {
        self.size
    }
}

/// A pixel gets its colour only when it is painted.
impl ThinPicture for Thin {
    ghost use Rattle.vz_occlude.specs.Pictures.{thin_picture};

    ghost pictured = { thin_picture };

    ghost gone = { λ p. p.gone };

    fn size(&self) -> Size {
        self.size
    }

    fn damage(&self) -> Rect {
        self.damage
    }

    fn gone(&self) -> u64 {
        self.gone
    }

    fn paint<L: Ledger, R: Threads + Sync>(
        &self,
        rt: &R,
        alloc: Global,
        area: Rect,
        buffer: &mut Buffer,
        steps: &mut Steps<L>,
    ) -> Result<(), Memory> {
        paint(rt, alloc, &self.ops, buffer, area, steps)?;
        Ok(())
    }

    fn paint_alone<L: Ledger>(
        &self,
        alloc: Global,
        area: Rect,
        buffer: &mut Buffer,
        steps: &mut Steps<L>,
    ) -> Result<(), Memory> {
        paint_alone(alloc, &self.ops, buffer, area, steps)?;
        Ok(())
    }
}

/// Removes the items of a picture that lie wholly behind one occluder: a later item of the same
/// list, one of the last `MOST_OCCLUDERS` that leave nothing of what is behind them. Every pixel
/// keeps its colour. The only error is `Memory`, and then the picture is given up.
pub fn occlude(alloc: Global, p: FlatPicture) -> Result<Thin, Memory>
    ensures whole { IfOk result (λ thin. thin.whole ≡ p.ops) }
    ensures ops { IfOk result (λ thin. thin.ops ≡ kept_of p.ops) }
    ensures gone { IfOk result (λ thin. thin.gone ≡ gone_of p.ops) }
    ensures damage { IfOk result (λ thin. thin.damage ≡ p.damage) }
    ensures size { IfOk result (λ thin. thin.size ≡ p.size) }
    ensures same { (q : Point) (d : Colour) → IfOk result
        (λ thin. value thin.ops q d ≡ value p.ops q d) }
    ensures deep { IfOk result (λ thin. deepest 0 thin.ops ≤ deepest 0 p.ops) }
{
    let FlatPicture { size, ops, damage } = p;
    let whole = Snapshot::of(&ops);
    let (ops, gone) = remove_occluded(alloc, ops)?;
    Ok(Thin {
        size,
        whole,
        ops,
        damage,
        gone,
    })
}
