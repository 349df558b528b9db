//! Painting an area of a buffer without a runtime.
ghost use Rattle.std.specs.Prelude.{◌≡◌, ◌+◌, OnOk, OnErr};
ghost use Rattle.vz_geom.specs.Rectangle.{Covers, sized, area_of};
ghost use Rattle.vz_buffers.specs.Canvas.{IsCanvas};
ghost use Rattle.vz_machine.specs.Pictured.{IsInside};
ghost use Rattle.vz_paint.specs.Strips.{IsPainted};

use crate::brush::{Brush, Sheet, places};
use crate::choice::choose;
use crate::ground::{behind, ground_of};
use crate::painting::FEW_OPS;
use std::alloc::Global;
use std::slice::from_mut;
use std::sync::ledger::Ledger;
use vz_base::Memory;
use vz_buffers::{Buffer, Steps};
use vz_flat::Ops;
use vz_geom::Rect;

/// Paints an area that is not empty, on the caller's thread. Everything is allocated before the
/// first row.
pub(crate) fn paint_area_alone<L: Ledger>(
    alloc: Global,
    ops: &Ops,
    area: &Rect,
    buffer: &mut Buffer,
    steps: &mut Steps<L>,
) -> Result<(), Memory>
    requires canvas { IsCanvas buffer.old }
    requires inside { IsInside (sized buffer.old.size) area.now }
    ensures size { buffer.new.size ≡ buffer.old.size }
    ensures painted { OnOk result (IsPainted ops.now area.now buffer.old buffer.new) }
    ensures counted { OnOk result (steps.new ≡ steps.old + area_of area.now) }
    ensures err { OnErr result (buffer.new ≡ buffer.old) }
    ensures err_steps { OnErr result (steps.new ≡ steps.old) }
{
    let list = ops.as_slice();
    let mut chosen = Vec::with_capacity(alloc, places(list.len(), FEW_OPS))?;
    choose(list, area, &mut chosen);
    let shown = chosen.as_slice();
    let ground = ground_of(shown, area);
    let rest = behind(shown, ground.drawn);
    let mut brush = Brush::new(
        alloc,
        rest,
        Sheet {
            area: *area,
            ground: ground.color,
            deepest: ops.deepest(),
        },
    )?;
    buffer.put_rows_alone(area, from_mut(&mut brush), steps);
    Ok(())
}

/// Paints an area of a buffer as `paint` does, on the caller's thread. So it needs no runtime, and
/// a static library can call it. If an allocation fails it returns `Memory`, and the buffer does
/// not change.
pub fn paint_alone<L: Ledger>(
    alloc: Global,
    ops: &Ops,
    buffer: &mut Buffer,
    area: Rect,
    steps: &mut Steps<L>,
) -> Result<(), Memory>
    requires inside { Covers (sized buffer.old.size) area }
    ensures size { buffer.new.size ≡ buffer.old.size }
    ensures painted { OnOk result (IsPainted ops.now area buffer.old buffer.new) }
    ensures counted { OnOk result (steps.new ≡ steps.old + area_of area) }
    ensures err { OnErr result (buffer.new ≡ buffer.old) }
    ensures err_steps { OnErr result (steps.new ≡ steps.old) }
{
    let _size = buffer.size();
    if area.is_empty() {
        return Ok(());
    }
    paint_area_alone(alloc, ops, &area, buffer, steps)?;
    Ok(())
}
