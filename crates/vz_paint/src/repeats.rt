//! Rows that operations draw alike, and copies of a row.
ghost use Rattle.std.specs.Prelude.{◌≡◌, ◌+◌, ◌*◌, ◌≤◌, ◌<◌, ◌+ℤ◌, ◌≤ℤ◌, ℕ, List, pos, length, map};
ghost use Rattle.vz_base.specs.declared.limits.TheConstants.{GREATEST_DISPLAY_SIDE};
ghost use Rattle.vz_pixels.specs.Colour.{Colour};
ghost use Rattle.vz_buffers.specs.Bands.{rows_put};
ghost use Rattle.vz_paint.specs.Alike.{HasAlike, IsAlike, AreRowsAlike};

use crate::rows::{Lines, place};
use vz_flat::Op;
use vz_geom::Rect;
use vz_pixels::Pixel;

/// How many of the first `count` rows from row `y` on the operations draw alike: in each of these
/// rows each area has the same columns, and no texels are drawn. At least one.
pub(crate) fn rows_alike(ops: &[&Op], y: i32, count: usize) -> usize
    requires some { 0 < count }
    requires top { pos 0 ≤ℤ y }
    requires bottom { (y +ℤ pos count) ≤ℤ pos GREATEST_DISPLAY_SIDE }
    ensures some { 0 < result }
    ensures most { result ≤ count }
    ensures alike { AreRowsAlike (map (λ r. r.now) ops.now) y result }
{
    let mut alike = count;
    for op in ops {
        alike = rows_of(op, y, alike);
        if alike == 1 {
            return 1;
        }
    }
    alike
}

/// How many of the first `count` rows from row `y` on one operation draws alike. At least one.
fn rows_of(op: &Op, y: i32, count: usize) -> usize
    requires some { 0 < count }
    requires top { pos 0 ≤ℤ y }
    requires bottom { (y +ℤ pos count) ≤ℤ pos GREATEST_DISPLAY_SIDE }
    ensures some { 0 < result }
    ensures most { result ≤ count }
    ensures alike { 1 < result → IsAlike y result op.now }
{
    match op {
        Op::Fill { area, .. } => rows_to_edge(area, y, count),
        Op::Push { area, .. } => rows_to_edge(area, y, count),
        Op::Blit { area, .. } => {
            if area.y() <= y && y < area.bottom() {
                return 1;
            }
            rows_to_edge(area, y, count)
        }
        Op::Pop => count,
    }
}

/// How many of the first `count` rows from row `y` on there are up to the next edge of an area.
fn rows_to_edge(area: &Rect, y: i32, count: usize) -> usize
    requires some { 0 < count }
    requires top { pos 0 ≤ℤ y }
    requires bottom { (y +ℤ pos count) ≤ℤ pos GREATEST_DISPLAY_SIDE }
    ensures some { 0 < result }
    ensures most { result ≤ count }
    ensures alike { HasAlike y result area.now }
{
    if y < area.y() {
        return rows_up_to(y, area.y(), count);
    }
    if y < area.bottom() {
        return rows_up_to(y, area.bottom(), count);
    }
    count
}

/// How many of the first `count` rows from row `y` on are above row `end`.
fn rows_up_to(y: i32, end: i32, count: usize) -> usize
    requires some { 0 < count }
    requires top { pos 0 ≤ℤ y }
    requires below { (y +ℤ pos 1) ≤ℤ end }
    ensures some { 0 < result }
    ensures most { result ≤ count }
    ensures above { (y +ℤ pos result) ≤ℤ end }
{
    let rows = (end - y) as usize;
    if rows < count { rows } else { count }
}

/// Copies the row behind the first `done` ones to those below it, so that there are `alike` of it.
pub(crate) fn repeat_row(lines: Lines, done: usize, alike: usize, pixels: &mut [Pixel])
    requires inside { lines.left + lines.wide ≤ lines.width }
    requires small { lines.width ≤ GREATEST_DISPLAY_SIDE }
    requires few { lines.count ≤ GREATEST_DISPLAY_SIDE }
    requires some { 0 < alike }
    requires low { done + alike ≤ lines.count }
    requires pixels { length pixels.old ≡ lines.count * lines.width }
    ensures long { length pixels.new ≡ length pixels.old }
    ensures repeated { (row : ℕ → List Colour) (before : List Colour)
        → ((k : ℕ) → length (row k) ≡ lines.wide) → length before ≡ length pixels.old
        → ((j : ℕ) → j < alike → row (done + j) ≡ row done)
        → pixels.old ≡ rows_put lines.width lines.left row (done + 1) before
        → pixels.new ≡ rows_put lines.width lines.left row (done + alike) before }
{
    let at = place(lines.width, lines.left, done);
    let next = place(lines.width, 0, done + 1);
    let (above, below) = pixels.split_at_mut(next);
    let row = &above[at..at + lines.wide];
    put_rows(lines.width, lines.left, row, alike - 1, below);
}

/// Puts the same pixels into the first `count` rows of this width, behind `left` others of each.
fn put_rows(width: usize, left: usize, row: &[Pixel], count: usize, pixels: &mut [Pixel])
    requires inside { left + length row.now ≤ width }
    requires small { width ≤ GREATEST_DISPLAY_SIDE }
    requires few { count ≤ GREATEST_DISPLAY_SIDE }
    requires long { count * width ≤ length pixels.old }
    ensures { pixels.new ≡ rows_put width left (λ k. row.now) count pixels.old }
{
    for k in 0..count {
        let at = place(width, left, k);
        pixels[at..at + row.len()].copy_from_slice(row);
    }
}
