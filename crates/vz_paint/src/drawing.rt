//! Drawing operations in some rows at once.
ghost use Rattle.std.specs.Prelude.{◌≡◌, ◌+◌, ◌*◌, ◌≤◌, ◌<◌, ◌-◌, ◌∷◌, ℕ, List, length, map, take, slice_index_or, true};
ghost use Rattle.vz_base.specs.declared.limits.TheConstants.{GREATEST_DISPLAY_SIDE};
ghost use Rattle.vz_pixels.specs.Colour.{transparent};
ghost use Rattle.vz_buffers.specs.Bands.{rows_put};
ghost use Rattle.vz_flat.specs.declared.op.Op.{Op as Step};
ghost use Rattle.vz_flat.specs.declared.op.Op.TheVariants.{Pop};
ghost use Rattle.vz_flat.specs.Ops.{is_inside, is_whole, deepest};
ghost use Rattle.vz_paint.specs.Redraw.{AreLines, IsOutside, step_of, lays, rows_of};
ghost use Rattle.vz_paint.specs.Stack.{made_at, HavePixels, IsItem, MayStand, open_after};

use crate::group::{OpenGroup, begin};
use crate::rows::{Lines, draw_in_rows, lay_rows, level_rows};
use vz_flat::Op;
use vz_geom::Point;
use vz_pixels::Pixel;

/// How many pixels these rows have in a group.
fn count_in_group(lines: Lines) -> usize
    requires wide { lines.wide ≤ GREATEST_DISPLAY_SIDE }
    requires count { lines.count ≤ GREATEST_DISPLAY_SIDE }
    ensures { result ≡ lines.count * lines.wide }
{
    lines.count * lines.wide
}

/// Where these rows stand among the pixels of a group, which are no others.
fn in_group(lines: Lines) -> Lines
    ensures { result ≡ record {
      width = lines.wide;
      left = 0;
      wide = lines.wide;
      count = lines.count;
    } }
{
    Lines {
        width: lines.wide,
        left: 0,
        wide: lines.wide,
        count: lines.count,
    }
}

/// Draws a `Fill` or a `Blit` in the pixels that these rows have in a group.
fn draw_in_group(op: &Op, lines: Lines, start: Point, pixels: &mut [Pixel])
    requires lines { AreLines start lines.wide 0 lines.wide lines.count
        (take (lines.count * lines.wide) pixels.old) }
    requires whole { lines.count * lines.wide ≤ length pixels.old }
    requires inside { is_inside op.now ≡ true }
    ensures long { length pixels.new ≡ length pixels.old }
    ensures each { (r i : ℕ) → r < lines.count → i < lines.wide
        → slice_index_or pixels.new (r * lines.wide + i) transparent
        ≡ step_of start op.now r i (slice_index_or pixels.old (r * lines.wide + i) transparent) }
{
    let count = count_in_group(lines);
    draw_in_rows(op, in_group(lines), start, &mut pixels[..count]);
}

/// Blends a group with the pixels that these rows have in the group round it.
fn lay_in_group(lines: Lines, start: Point, inner: &OpenGroup, pixels: &mut [Pixel])
    requires lines { AreLines start lines.wide 0 lines.wide lines.count
        (take (lines.count * lines.wide) pixels.old) }
    requires whole { lines.count * lines.wide ≤ length pixels.old }
    requires inner { lines.count * lines.wide ≤ length inner.now.pixels.items }
    ensures long { length pixels.new ≡ length pixels.old }
    ensures each { (r i : ℕ) → r < lines.count → i < lines.wide
        → slice_index_or pixels.new (r * lines.wide + i) transparent
        ≡ lays start lines.wide inner.now r i
        (slice_index_or pixels.old (r * lines.wide + i) transparent) }
{
    let count = count_in_group(lines);
    lay_rows(in_group(lines), start, inner, &mut pixels[..count]);
}

/// Draws a `Fill` or a `Blit` in the innermost of `depth` open groups, or in the lowest rows.
fn draw_inside(
    op: &Op,
    lines: Lines,
    start: Point,
    groups: &mut [OpenGroup],
    depth: usize,
    pixels: &mut [Pixel],
)
    requires lines { AreLines start lines.width lines.left lines.wide lines.count pixels.old }
    requires groups { HavePixels (lines.count * lines.wide) groups.old }
    requires inside { is_inside op.now ≡ true }
    requires open { depth ≤ length groups.old }
    ensures long { length pixels.new ≡ length pixels.old }
    ensures outside { (j : ℕ) → IsOutside lines.width lines.left lines.wide lines.count j
        → slice_index_or pixels.new j transparent ≡ slice_index_or pixels.old j transparent }
    ensures count { length groups.new ≡ length groups.old }
    ensures groups { (n : ℕ) → HavePixels n groups.old → HavePixels n groups.new }
    ensures drawn { IsItem op.now → (r i : ℕ) (rest : List Step) → r < lines.count
        → i < lines.wide → made_at start lines.width lines.left lines.wide
        (op.now ∷ rest) depth groups.old pixels.old r i
        ≡ made_at start lines.width lines.left lines.wide rest depth groups.new pixels.new r i }
{
    if depth == 0 {
        draw_in_rows(op, lines, start, pixels);
        return;
    }
    draw_in_group(op, lines, start, groups[depth - 1].pixels.as_mut_slice());
}

/// Ends the innermost of `depth` open groups.
fn end_inside(
    lines: Lines,
    start: Point,
    groups: &mut [OpenGroup],
    depth: usize,
    pixels: &mut [Pixel],
)
    requires lines { AreLines start lines.width lines.left lines.wide lines.count pixels.old }
    requires groups { HavePixels (lines.count * lines.wide) groups.old }
    requires some { 0 < depth }
    requires open { depth ≤ length groups.old }
    ensures long { length pixels.new ≡ length pixels.old }
    ensures outside { (j : ℕ) → IsOutside lines.width lines.left lines.wide lines.count j
        → slice_index_or pixels.new j transparent ≡ slice_index_or pixels.old j transparent }
    ensures count { length groups.new ≡ length groups.old }
    ensures groups { (n : ℕ) → HavePixels n groups.old → HavePixels n groups.new }
    ensures drawn { (r i : ℕ) (rest : List Step) → r < lines.count → i < lines.wide
        → made_at start lines.width lines.left lines.wide
        (Pop ∷ rest) depth groups.old pixels.old r i
        ≡ made_at start lines.width lines.left lines.wide
        rest (depth - 1) groups.new pixels.new r i }
{
    if depth == 1 {
        lay_rows(lines, start, &groups[0], pixels);
        return;
    }
    let (outer, inner) = groups.split_at_mut(depth - 1);
    let below = outer[depth - 2].pixels.as_mut_slice();
    lay_in_group(lines, start, &inner[0], below);
}

/// Draws one operation inside `depth` open groups, and returns how many are open after it.
fn draw(
    op: &Op,
    lines: Lines,
    start: Point,
    groups: &mut [OpenGroup],
    depth: usize,
    pixels: &mut [Pixel],
) -> usize
    requires lines { AreLines start lines.width lines.left lines.wide lines.count pixels.old }
    requires groups { HavePixels (lines.count * lines.wide) groups.old }
    requires inside { is_inside op.now ≡ true }
    requires open { depth ≤ length groups.old }
    requires may { MayStand depth (length groups.old) op.now }
    ensures depth { result ≡ open_after depth op.now }
    ensures long { length pixels.new ≡ length pixels.old }
    ensures outside { (j : ℕ) → IsOutside lines.width lines.left lines.wide lines.count j
        → slice_index_or pixels.new j transparent ≡ slice_index_or pixels.old j transparent }
    ensures count { length groups.new ≡ length groups.old }
    ensures groups { (n : ℕ) → HavePixels n groups.old → HavePixels n groups.new }
    ensures drawn { (r i : ℕ) (rest : List Step) → r < lines.count → i < lines.wide
        → made_at start lines.width lines.left lines.wide
        (op.now ∷ rest) depth groups.old pixels.old r i
        ≡ made_at start lines.width lines.left lines.wide rest result groups.new pixels.new r i }
{
    match op {
        Op::Fill { .. } => {
            draw_inside(op, lines, start, groups, depth, pixels);
            depth
        }
        Op::Blit { .. } => {
            draw_inside(op, lines, start, groups, depth, pixels);
            depth
        }
        Op::Push {
            area,
            opacity,
            blend,
        } => {
            begin(
                &mut groups[depth],
                count_in_group(lines),
                area,
                *opacity,
                *blend,
            );
            depth + 1
        }
        Op::Pop => {
            end_inside(lines, start, groups, depth, pixels);
            depth - 1
        }
    }
}

/// Draws operations in rows, on one colour: each in all rows before the next one. Conditions: they
/// are valid, and there is a group with pixels for these rows for each that they have open at once.
pub(crate) fn draw_all(
    ops: &[&Op],
    ground: Pixel,
    lines: Lines,
    start: Point,
    groups: &mut [OpenGroup],
    pixels: &mut [Pixel],
)
    requires lines { AreLines start lines.width lines.left lines.wide lines.count pixels.old }
    requires groups { HavePixels (lines.count * lines.wide) groups.old }
    requires whole { is_whole (map (λ r. r.now) ops.now) ≡ true }
    requires room { deepest 0 (map (λ r. r.now) ops.now) ≤ length groups.old }
    ensures painted { pixels.new ≡ rows_put lines.width lines.left
        (rows_of (map (λ r. r.now) ops.now) ground start lines.wide) lines.count pixels.old }
    ensures long { length pixels.new ≡ length pixels.old }
    ensures count { length groups.new ≡ length groups.old }
    ensures groups { (n : ℕ) → HavePixels n groups.old → HavePixels n groups.new }
{
    level_rows(lines, start, ground, pixels);
    let mut depth = 0;
    for op in ops {
        depth = draw(op, lines, start, groups, depth, pixels);
    }
}
