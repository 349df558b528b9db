//! The part of a row that a rectangle has.
ghost use Rattle.std.specs.Prelude.{◌≡◌, ◌≤◌, ◌<◌, ◌+ℤ◌, ◌-ℤ◌, ◌≤ℤ◌, ◌&&◌, pos, ℕ, true};
ghost use Rattle.std.specs.Prelude.{nat_le, nat_lt, int_le, int_lt, FitsSigned};
ghost use Rattle.std.specs.Int.{w32};
ghost use Rattle.vz_base.specs.declared.limits.TheConstants.{GREATEST_EDGE};
ghost use Rattle.vz_geom.specs.Rectangle.{IsRectangle, has, sized};
ghost use Rattle.vz_frame.specs.Frame.{frame_size};
ghost use Rattle.vz_rules.specs.Paint.{covers, in_clip};
ghost use Rattle.vz_plain.specs.declared.span.TheConstants.{PIECE};
ghost use Rattle.vz_plain.specs.Rows.{right_of, reaches, within};

use vz_frame::{DrawQuad, RenderPass};
use vz_geom::{Point, Rect, Size};
use vz_scene::SubmittedFrame;

/// The greatest number of points of a row that are painted together.
pub(crate) const PIECE: usize = 256;

/// Where a rectangle is in a row: from column `left` up to, but without, column `right`, both
/// counted from the row's first point, or nowhere.
#[derive(Clone, Copy)]
pub(crate) struct Reach {
    left: i64,
    right: i64,
    has_row: bool,
}

/// The places of a row that are in a rectangle: from `from` up to, but without, `to`.
#[derive(Clone, Copy)]
pub(crate) struct Span {
    pub(crate) from: usize,
    pub(crate) to: usize,
}

/// A column that is moved by an offset, counted from a row's first point.
fn column_of(x: &i32, start: Point, by: Point) -> i64
    ensures { result ≡ ((x.now +ℤ by.x) -ℤ start.x) }
{
    let moved = i64::from(*x) + i64::from(by.x);
    moved - i64::from(start.x)
}

/// The row of a point that is moved back by an offset.
fn row_of(start: Point, by: Point) -> i64
    ensures { result ≡ (start.y -ℤ by.y) }
{
    i64::from(start.y) - i64::from(by.y)
}

/// Whether a rectangle has points in a row.
fn is_in_rows(area: &Rect, row: &i64) -> bool
    ensures { result ≡ (int_le area.now.y row.now && int_lt row.now (area.now.y +ℤ area.now.h)) }
{
    i64::from(area.y()) <= *row && *row < i64::from(area.bottom())
}

/// Where a rectangle that is moved by an offset is in the row from a point on.
fn reach_of(area: &Rect, start: Point, by: Point) -> Reach
    ensures left { result.left ≡ ((area.now.x +ℤ by.x) -ℤ start.x) }
    ensures right { result.right ≡ (((area.now.x +ℤ area.now.w) +ℤ by.x) -ℤ start.x) }
    ensures row { result.has_row ≡ (int_le area.now.y (start.y -ℤ by.y)
        && int_lt (start.y -ℤ by.y) (area.now.y +ℤ area.now.h)) }
    ensures proper { IsRectangle area.now }
{
    // The test for points shows that the edges are within their limit.
    let _ = area.is_empty();
    Reach {
        left: column_of(&area.x(), start, by),
        right: column_of(&area.right(), start, by),
        has_row: is_in_rows(area, &row_of(start, by)),
    }
}

/// The size of a submitted frame; both sides are 0 if it has no pass.
fn size_of(submitted: &SubmittedFrame<'_>) -> Size
    ensures value { result ≡ frame_size submitted.now.frame }
    ensures small { result.w ≤ℤ (GREATEST_EDGE +ℤ GREATEST_EDGE) }
{
    match submitted.frame().root_pass() {
        None => Size { w: 0, h: 0 },
        Some(root) => {
            // As in `reach_of`, the test shows that the sides are within a limit.
            let _ = root.output.is_empty();
            Size {
                w: root.output.w(),
                h: root.output.h(),
            }
        }
    }
}

/// Where a size is in the row from a point on.
fn reach_of_size(size: Size, start: Point) -> Reach
    ensures left { result.left ≡ (pos 0 -ℤ start.x) }
    ensures right { result.right ≡ (size.w -ℤ start.x) }
    ensures row { result.has_row ≡ (int_le (pos 0) start.y && int_lt start.y size.h) }
{
    Reach {
        left: 0 - i64::from(start.x),
        right: i64::from(size.w) - i64::from(start.x),
        has_row: 0 <= start.y && start.y < size.h,
    }
}

/// How many of the first `count` columns are left of a reach.
fn before(reach: Reach, count: usize) -> usize
    ensures most { result ≤ count }
    ensures left { 0 < result → pos result ≤ℤ reach.left }
    ensures right { result < count → reach.left ≤ℤ pos result }
{
    if reach.left <= 0 {
        return 0;
    }
    let columns = reach.left as usize;
    if columns < count { columns } else { count }
}

/// How many of the first `count` columns are left of the end of a reach.
fn upto(reach: Reach, count: usize) -> usize
    ensures most { result ≤ count }
    ensures left { 0 < result → pos result ≤ℤ reach.right }
    ensures right { result < count → reach.right ≤ℤ pos result }
{
    if reach.right <= 0 {
        return 0;
    }
    let columns = reach.right as usize;
    if columns < count { columns } else { count }
}

/// The places of a row of `count` points that a reach has.
fn places(reach: Reach, count: usize) -> Span
    ensures ordered { result.from ≤ result.to }
    ensures most { result.to ≤ count }
    ensures exact { (i : ℕ) → i < count → reaches reach i ≡ within result i }
{
    if !reach.has_row {
        return Span { from: 0, to: 0 };
    }
    let from = before(reach, count);
    let to = upto(reach, count);
    if to < from {
        return Span { from: 0, to: 0 };
    }
    Span { from, to }
}

/// The later of two starts.
fn later(a: usize, b: usize) -> usize
    ensures { (i : ℕ) → nat_le result i ≡ (nat_le a i && nat_le b i) }
{
    if a < b { b } else { a }
}

/// The sooner of two ends.
fn sooner(a: usize, b: usize) -> usize
    ensures most { result ≤ a }
    ensures exact { (i : ℕ) → nat_lt i result ≡ (nat_lt i a && nat_lt i b) }
{
    if a < b { a } else { b }
}

/// The places that two spans share.
fn meet(a: Span, b: Span) -> Span
    ensures ordered { result.from ≤ result.to }
    ensures most { result.to ≤ a.to }
    ensures exact { (i : ℕ) → within result i ≡ (within a i && within b i) }
{
    let from = later(a.from, b.from);
    let to = sooner(a.to, b.to);
    if to < from {
        return Span { from: 0, to: 0 };
    }
    Span { from, to }
}

/// The places of the row from a point on that a rectangle has. Its columns fit 32 bits there.
pub(crate) fn span_of(area: &Rect, start: Point, count: usize) -> Span
    ensures ordered { result.from ≤ result.to }
    ensures most { result.to ≤ count }
    ensures exact { (i : ℕ) → i < count → has area.now (right_of start i) ≡ within result i }
    ensures fits { (i : ℕ) → i < count → within result i ≡ true
        → FitsSigned w32 (start.x +ℤ pos i) }
{
    places(reach_of(area, start, Point { x: 0, y: 0 }), count)
}

/// The places of the row from a point on that are inside the size of a submitted frame. Their
/// columns fit 32 bits.
pub(crate) fn size_span(submitted: &SubmittedFrame<'_>, start: Point, count: usize) -> Span
    ensures ordered { result.from ≤ result.to }
    ensures most { result.to ≤ count }
    ensures exact { (i : ℕ) → i < count
        → has (sized (frame_size submitted.now.frame)) (right_of start i) ≡ within result i }
    ensures fits { (i : ℕ) → i < count → within result i ≡ true
        → FitsSigned w32 (start.x +ℤ pos i) }
{
    places(reach_of_size(size_of(submitted), start), count)
}

/// The places of the row from a point on that a clip has; all of them if there is no clip.
fn clip_span(clip: &Option<Rect>, start: Point, count: usize) -> Span
    ensures { (i : ℕ) → i < count → in_clip clip.now (right_of start i) ≡ within result i }
{
    match clip {
        None => Span { from: 0, to: count },
        Some(area) => span_of(area, start, count),
    }
}

/// The places of the row from a point on that a quad covers. Their columns fit 32 bits.
pub(crate) fn covered(pass: &RenderPass, quad: &DrawQuad, start: Point, count: usize) -> Span
    ensures ordered { result.from ≤ result.to }
    ensures most { result.to ≤ count }
    ensures exact { (i : ℕ) → i < count
        → covers pass.now quad.now (right_of start i) ≡ within result i }
    ensures fits { (i : ℕ) → i < count → within result i ≡ true
        → FitsSigned w32 (start.x +ℤ pos i) }
{
    let drawn = span_of(&pass.output, start, count);
    let kept = clip_span(&quad.clip, start, count);
    let seen = places(reach_of(&quad.visible, start, quad.offset), count);
    let both = meet(drawn, kept);
    meet(both, seen)
}

/// The point at a place of the row from a point on. Conditions: the place is within a piece of a
/// row, and its column fits 32 bits.
pub(crate) fn right_of(start: Point, by: usize) -> Point
    requires near { by ≤ PIECE }
    requires fits { FitsSigned w32 (start.x +ℤ pos by) }
    ensures { result ≡ right_of start by }
{
    Point {
        x: start.x + by as i32,
        y: start.y,
    }
}
