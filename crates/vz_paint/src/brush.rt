//! Drawing the rows of an area.
ghost use Rattle.std.specs.Prelude.{◌≡◌, ◌+◌, ◌*◌, ◌≤◌, ◌<◌, ◌+ℤ◌, ◌≤ℤ◌, ◌<ℤ◌, pos, nat_abs, length, map, take, drop, max, true, vec_len, vec_capacity, IfOk};
ghost use Rattle.std.specs.List.{All};
ghost use Rattle.vz_base.specs.declared.limits.TheConstants.{GREATEST_DISPLAY_SIDE};
ghost use Rattle.vz_buffers.specs.Bands.{FitsIn, rows_put, rows_from};
ghost use Rattle.vz_flat.specs.declared.op.TheConstants.{MOST_OPEN};
ghost use Rattle.vz_flat.specs.Ops.{is_whole, deepest};
ghost use Rattle.vz_paint.specs.Redraw.{AreLines, rows_of};
ghost use Rattle.vz_paint.specs.Scratch.{group_bytes, scratch_bytes, most_bytes};
ghost use Rattle.vz_paint.specs.Stack.{HavePixels};
ghost use Rattle.vz_paint.specs.Strips.{IsArea, IsBrush, strip_of};

use crate::drawing::draw_all;
use crate::group::OpenGroup;
use crate::repeats::{repeat_row, rows_alike};
use crate::rows::{Lines, place};
use std::alloc::Global;
use vz_base::Memory;
use vz_buffers::RowPainter;
use vz_flat::Op;
use vz_geom::{Point, Rect};
use vz_pixels::Pixel;

/// What operations are drawn on: an area, on one colour. They have at most `deepest` groups open at
/// once.
#[derive(Clone, Copy)]
pub(crate) struct Sheet {
    pub(crate) area: Rect,
    pub(crate) ground: Pixel,
    pub(crate) deepest: u32,
}

/// Draws the rows of an area, at most `rows` at once. It has pixels for these of each group that
/// may be open at once.
#[derive(Drop)]
pub(crate) struct Brush<'a, 'b> {
    pub(crate) ops: &'b [&'a Op],
    pub(crate) sheet: Sheet,
    pub(crate) rows: usize,
    pub(crate) groups: Vec<OpenGroup>,
}

impl<'a, 'b> Brush<'a, 'b> {
    /// Makes a brush with its memory. The only error is `Memory`. Conditions: the area has a
    /// point and is on a display, and the operations are valid.
    #[tactic(auto, using(crate::proofs::Bytes_of_groups::few_bytes))]
    pub(crate) fn new(
        alloc: Global,
        ops: &'b [&'a Op],
        sheet: Sheet,
    ) -> Result<Brush<'a, 'b>, Memory>
        requires area { IsArea sheet.area }
        requires whole { is_whole (map (λ r. r.now) ops.now) ≡ true }
        requires deepest { deepest 0 (map (λ r. r.now) ops.now) ≤ sheet.deepest }
        ensures ops { IfOk result (λ b. b.ops.now ≡ ops.now) }
        ensures sheet { IfOk result (λ b. b.sheet ≡ sheet) }
        ensures able { IfOk result (λ b. IsBrush (map (λ r. r.now) b.ops.now) b.sheet.area
            b.rows b.groups.items) }
        ensures bytes { IfOk result (λ b. group_bytes b.groups.items
            ≤ most_bytes sheet.area sheet.deepest) }
    {
        let wide = width(&sheet.area);
        let rows = least(height(&sheet.area), rows_at_once(wide, sheet.deepest));
        let groups = open_groups(alloc, sheet.deepest, rows * wide)?;
        Ok(Brush {
            ops,
            sheet,
            rows,
            groups,
        })
    }

    /// Draws rows of the area: one operation after the other, each in as many rows as stay in the
    /// fastest memory. Of many rows that are alike one is drawn, and copied to the others.
    fn draw_lines(&mut self, from: u32, lines: Lines, pixels: &mut [Pixel])
        requires able { IsBrush (map (λ r. r.now) self.old.ops.now) self.old.sheet.area
            self.old.rows self.old.groups.items }
        requires fits { FitsIn lines.width lines.left lines.wide
            (strip_of (map (λ r. r.now) self.old.ops.now)
            self.old.sheet.ground self.old.sheet.area) }
        requires upto { (from + lines.count) ≤ nat_abs self.old.sheet.area.h }
        requires small { lines.width ≤ GREATEST_DISPLAY_SIDE }
        requires few { (from + lines.count) ≤ GREATEST_DISPLAY_SIDE }
        requires pixels { length pixels.old ≡ lines.count * lines.width }
        ensures able { IsBrush (map (λ r. r.now) self.new.ops.now) self.new.sheet.area
            self.new.rows self.new.groups.items }
        ensures ops { self.new.ops.now ≡ self.old.ops.now }
        ensures sheet { self.new.sheet ≡ self.old.sheet }
        ensures painted { pixels.new ≡ rows_put lines.width lines.left
            (rows_from from (strip_of (map (λ r. r.now) self.old.ops.now)
            self.old.sheet.ground self.old.sheet.area).row) lines.count pixels.old }
    {
        let mut done = 0;
        while done < lines.count {
            let left = lines.count - done;
            let start = row_start(&self.sheet.area, from + done as u32);
            let here = least(left, self.rows);
            let alike = rows_alike(self.ops, start.y, left);
            if is_worth_copying(alike, here) {
                self.draw_band(start, lines, done, 1, pixels);
                repeat_row(lines, done, alike, pixels);
                done += alike;
            } else {
                self.draw_band(start, lines, done, here, pixels);
                done += here;
            }
        }
    }

    /// Draws a band of `count` rows of the area behind the first `done` of these lines, the first
    /// one from a point on: one operation after the other, each in all of these rows.
    fn draw_band(
        &mut self,
        start: Point,
        lines: Lines,
        done: usize,
        count: usize,
        pixels: &mut [Pixel],
    )
        requires able { IsBrush (map (λ r. r.now) self.old.ops.now) self.old.sheet.area
            self.old.rows self.old.groups.items }
        requires lines { AreLines start lines.width lines.left lines.wide count
            (take (count * lines.width) (drop (done * lines.width) pixels.old)) }
        requires rows { count ≤ self.old.rows }
        requires wide { lines.wide ≡ nat_abs self.old.sheet.area.w }
        requires inside { (done + count) * lines.width ≤ length pixels.old }
        requires few { (done + count) ≤ GREATEST_DISPLAY_SIDE }
        ensures able { IsBrush (map (λ r. r.now) self.new.ops.now) self.new.sheet.area
            self.new.rows self.new.groups.items }
        ensures ops { self.new.ops.now ≡ self.old.ops.now }
        ensures sheet { self.new.sheet ≡ self.old.sheet }
        ensures rows { self.new.rows ≡ self.old.rows }
        ensures long { length pixels.new ≡ length pixels.old }
        ensures painted { pixels.new ≡ rows_put lines.width (done * lines.width + lines.left)
            (rows_of (map (λ r. r.now) self.old.ops.now) self.old.sheet.ground start lines.wide)
            count pixels.old }
    {
        let upper = place(lines.width, 0, done);
        let lower = place(lines.width, 0, done + count);
        let band = Lines {
            width: lines.width,
            left: lines.left,
            wide: lines.wide,
            count,
        };
        draw_all(
            self.ops,
            self.sheet.ground,
            band,
            start,
            self.groups.as_mut_slice(),
            &mut pixels[upper..lower],
        );
    }
}

impl<'a, 'b> RowPainter for Brush<'a, 'b> {
    ghost use Rattle.std.specs.Prelude.{map};
    ghost use Rattle.vz_paint.specs.Strips.{strip_of, IsBrush};

    ghost strip = { λ b. strip_of (map (λ r. r.now) b.ops.now) b.sheet.ground b.sheet.area };

    ghost able = { λ b. IsBrush (map (λ r. r.now) b.ops.now) b.sheet.area b.rows b.groups.items };

    fn draw_rows(
        &mut self,
        from: u32,
        count: u32,
        width: usize,
        left: usize,
        wide: usize,
        pixels: &mut [Pixel],
    ) {
        let lines = Lines {
            width,
            left,
            wide,
            count: count as usize,
        };
        self.draw_lines(from, lines, pixels);
    }
}

/// Whether so many rows that are alike are drawn once and copied, and not drawn as a part of `here`
/// rows: if that takes less time, as each operation also takes some in which no pixel is drawn.
fn is_worth_copying(alike: usize, here: usize) -> bool
    ensures { result ≡ true → 1 < alike }
{
    1 < alike && here / 4 < alike
}

/// The leftmost point of a row of an area; `below` counts rows from the top one.
fn row_start(area: &Rect, below: u32) -> Point
    requires top { pos 0 ≤ℤ area.now.y }
    requires bottom { (area.now.y +ℤ pos below) <ℤ pos GREATEST_DISPLAY_SIDE }
    ensures x { result.x ≡ area.now.x }
    ensures y { result.y ≡ area.now.y +ℤ pos below }
{
    Point {
        x: area.x(),
        y: area.y() + below as i32,
    }
}

/// How many pixels are drawn at once, so that they stay in the fastest memory.
const AT_ONCE: usize = 16384;

/// The most bytes of the groups of all brushes together. A brush alone takes an eighth of them at
/// most.
pub(crate) const MOST_SCRATCH: usize = 67_108_864;

/// The most bytes of the groups of one brush: those of as many pixels as are drawn at once, or of
/// one row more than there are groups, if that is more.
pub(crate) fn bytes_of_brush(area: &Rect, groups: u32) -> usize
    requires { groups ≤ MOST_OPEN }
    ensures some { 0 < result }
    ensures value { result ≡ most_bytes area.now groups }
{
    let rows = area.w().unsigned_abs() as usize * (groups as usize + 1);
    if rows < AT_ONCE {
        return 4 * AT_ONCE;
    }
    4 * rows
}

/// How many rows of this width are drawn at once, with those of so many groups: at least one.
fn rows_at_once(wide: usize, groups: u32) -> usize
    requires { wide ≤ GREATEST_DISPLAY_SIDE }
    ensures some { 0 < result }
    ensures most { result ≤ AT_ONCE }
    ensures few { result * (wide * (groups + 1)) ≤ max AT_ONCE (wide * (groups + 1)) }
{
    let pixels = wide * (groups as usize + 1);
    if pixels == 0 || AT_ONCE < pixels {
        return 1;
    }
    AT_ONCE / pixels
}

/// The lesser of two numbers.
fn least(a: usize, b: usize) -> usize
    requires a { 0 < a }
    requires b { 0 < b }
    ensures some { 0 < result }
    ensures first { result ≤ a }
    ensures second { result ≤ b }
{
    if a < b { a } else { b }
}

/// How many columns an area has, in pixels.
fn width(area: &Rect) -> usize
    requires { pos 1 ≤ℤ area.now.w }
    ensures value { result ≡ nat_abs area.now.w }
{
    area.w().unsigned_abs() as usize
}

/// How many rows an area has.
fn height(area: &Rect) -> usize
    requires { pos 1 ≤ℤ area.now.h }
    ensures value { result ≡ nat_abs area.now.h }
{
    area.h().unsigned_abs() as usize
}

/// The least number of groups for which places are reserved, if there is a group at all.
const FEW_GROUPS: usize = 4;

/// How many places are reserved for `wanted`: at least a few, if any. So most lists have the same
/// size and reuse the memory that the one before them freed.
pub(crate) fn places(wanted: usize, few: usize) -> usize
    ensures { wanted ≤ result }
{
    if wanted == 0 || few < wanted {
        return wanted;
    }
    few
}

/// `count` groups with so many pixels each. The only error is `Memory`.
fn open_groups(alloc: Global, count: u32, pixels: usize) -> Result<Vec<OpenGroup>, Memory>
    ensures count { IfOk result (λ v. length v.items ≡ count) }
    ensures pixels { IfOk result (λ v. HavePixels pixels v.items) }
    ensures bytes { IfOk result (λ v. group_bytes v.items ≡ 4 * (count * pixels)) }
{
    let mut groups = Vec::with_capacity(alloc, places(count as usize, FEW_GROUPS))?;
    for _ in 0..count {
        groups.push_reserved(OpenGroup::new(alloc, pixels)?);
    }
    Ok(groups)
}

/// Makes `count` brushes for the same operations. The conditions are those of one, and that all
/// together take at most `MOST_SCRATCH` bytes for their groups.
pub(crate) fn brushes_for<'a, 'b>(
    alloc: Global,
    ops: &'b [&'a Op],
    sheet: Sheet,
    count: usize,
) -> Result<Vec<Brush<'a, 'b>>, Memory>
    requires area { IsArea sheet.area }
    requires whole { is_whole (map (λ r. r.now) ops.now) ≡ true }
    requires deepest { deepest 0 (map (λ r. r.now) ops.now) ≤ sheet.deepest }
    requires bytes { count * most_bytes sheet.area sheet.deepest ≤ MOST_SCRATCH }
    ensures count { IfOk result (λ v. length v.items ≡ count) }
    ensures bytes { IfOk result (λ v. scratch_bytes v.items ≤ MOST_SCRATCH) }
    ensures each { IfOk result (λ v. All (λ b. (b.ops.now ≡ ops.now) × (b.sheet ≡ sheet)
        × IsBrush (map (λ r. r.now) b.ops.now) b.sheet.area b.rows b.groups.items) v.items) }
{
    let mut brushes = Vec::with_capacity(alloc, count)?;
    for _ in 0..count {
        brushes.push_reserved(Brush::new(alloc, ops, sheet)?);
    }
    Ok(brushes)
}
