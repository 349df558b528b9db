//! Painting an area of a buffer.
ghost use Rattle.std.specs.Prelude.{◌≡◌, ◌+◌, ◌*◌, ◌≤◌, ◌<◌, OnOk, OnErr};
ghost use Rattle.vz_geom.specs.Rectangle.{Covers, sized, area_of};
ghost use Rattle.vz_buffers.specs.Canvas.{IsCanvas};
ghost use Rattle.vz_machine.specs.Pictured.{IsInside};
ghost use Rattle.vz_flat.specs.Ops.{deepest};
ghost use Rattle.vz_paint.specs.Scratch.{most_bytes};
ghost use Rattle.vz_paint.specs.Strips.{IsPainted};

use crate::alone::paint_alone;
use crate::brush::{MOST_SCRATCH, Sheet, brushes_for, bytes_of_brush, places};
use crate::choice::choose;
use crate::ground::{behind, ground_of};
use std::alloc::Global;
use std::sync::ledger::Ledger;
use std::thread::{Threads, available_parallelism};
use vz_base::Memory;
use vz_buffers::{Buffer, Steps};
use vz_flat::Ops;
use vz_geom::Rect;

/// How many pixels a thread paints at least. Starting and joining three threads takes some 50 µs,
/// in which one thread paints 50,000 pixels and more.
const SHARE: u64 = 131_072;

/// The least number of operations for which places are reserved, if there is one at all.
pub(crate) const FEW_OPS: usize = 16;

/// How many threads paint an area of this many pixels, if each takes this many bytes for groups:
/// all together take at most `MOST_SCRATCH`.
fn threads_for<R: Threads>(rt: &R, pixels: u64, bytes: usize) -> usize
    requires { 0 < bytes }
    ensures some { 1 ≤ result }
    ensures worth { (1 < result) → 1 ≤ pixels }
    ensures scratch { (1 < result) → result * bytes ≤ MOST_SCRATCH }
{
    let most = (pixels / SHARE).min((MOST_SCRATCH / bytes) as u64);
    if most < 2 {
        return 1;
    }
    match available_parallelism(rt) {
        Ok(processors) => processors.get().min(most as usize),
        Err(_) => 1,
    }
}

/// Paints an area that is not empty on so many threads. Everything is allocated before the first
/// row, and the groups of all threads take at most `MOST_SCRATCH` bytes together.
fn paint_area<L: Ledger, R: Threads + Sync>(
    rt: &R,
    alloc: Global,
    ops: &Ops,
    area: &Rect,
    threads: usize,
    buffer: &mut Buffer,
    steps: &mut Steps<L>,
) -> Result<(), Memory>
    requires canvas { IsCanvas buffer.old }
    requires inside { IsInside (sized buffer.old.size) area.now }
    requires threads { 1 ≤ threads }
    requires scratch { threads * most_bytes area.now (deepest 0 ops.now) ≤ MOST_SCRATCH }
    ensures size { buffer.new.size ≡ buffer.old.size }
    ensures painted { OnOk result (IsPainted ops.now area.now buffer.old buffer.new) }
    ensures counted { OnOk result (steps.new ≡ steps.old + area_of area.now) }
    ensures err { OnErr result (buffer.new ≡ buffer.old) }
    ensures err_steps { OnErr result (steps.new ≡ steps.old) }
{
    let list = ops.as_slice();
    let mut chosen = Vec::with_capacity(alloc, places(list.len(), FEW_OPS))?;
    choose(list, area, &mut chosen);
    let shown = chosen.as_slice();
    let ground = ground_of(shown, area);
    let rest = behind(shown, ground.drawn);
    let mut brushes = brushes_for(
        alloc,
        rest,
        Sheet {
            area: *area,
            ground: ground.color,
            deepest: ops.deepest(),
        },
        threads,
    )?;
    buffer.put_rows(rt, area, brushes.as_mut_slice(), steps);
    Ok(())
}

/// Paints an area of a buffer: exactly the pixels of the area are set, to what the operations
/// give on opaque black, and each pixel counts as one step. An empty area is allowed. Condition:
/// the area is inside the buffer.
///
/// A large area is painted in bands, which threads take one by one: there is a thread for each
/// 131,072 pixels, but no more than the processors. If none can be started, the caller's paints
/// all the same.
///
/// Everything is allocated before the first row: a place for each operation and, for each thread,
/// pixels for each group that may be open at once (16,384 in all, or a row each if that is more).
/// The pixels of all threads take at most 67,108,864 bytes: with more processors than that allows,
/// fewer threads paint. If that fails it returns `Memory`, and the buffer does not change.
pub fn paint<L: Ledger, R: Threads + Sync>(
    rt: &R,
    alloc: Global,
    ops: &Ops,
    buffer: &mut Buffer,
    area: Rect,
    steps: &mut Steps<L>,
) -> Result<(), Memory>
    requires inside { Covers (sized buffer.old.size) area }
    ensures size { buffer.new.size ≡ buffer.old.size }
    ensures painted { OnOk result (IsPainted ops.now area buffer.old buffer.new) }
    ensures counted { OnOk result (steps.new ≡ steps.old + area_of area) }
    ensures err { OnErr result (buffer.new ≡ buffer.old) }
    ensures err_steps { OnErr result (steps.new ≡ steps.old) }
{
    let threads = threads_for(rt, area.area(), bytes_of_brush(&area, ops.deepest()));
    if threads == 1 {
        paint_alone(alloc, ops, buffer, area, steps)?;
        return Ok(());
    }
    let _size = buffer.size();
    paint_area(rt, alloc, ops, &area, threads, buffer, steps)?;
    Ok(())
}
