//! Whole pictures, row by row.
ghost use Rattle.std.specs.Prelude.{◌≡◌, ◌<◌, ◌≤◌, ◌++◌, ℕ, pos, map, length, slice_index_or, OnOk, IfOk};
ghost use Rattle.std.specs.Option.{option_and_then};
ghost use Rattle.vz_base.specs.declared.limits.TheConstants.{GREATEST_DISPLAY_SIDE};
ghost use Rattle.vz_geom.specs.Rectangle.{row_points, points_of};
ghost use Rattle.vz_ids.specs.declared.SurfaceId.{SurfaceId as Root};
ghost use Rattle.vz_rules.specs.Scene.{scene_at};
ghost use Rattle.vz_rules.specs.Frames.{picture_of};
ghost use Rattle.vz_geom.specs.Display.{IsDisplaySize};
ghost use Rattle.vz_pixels.specs.Colour.{transparent, black};
ghost use Rattle.vz_plain.specs.declared.span.TheConstants.{PIECE};
ghost use Rattle.vz_plain.specs.Rows.{IsPainted};
ghost use Rattle.vz_plain.specs.Shown.{colour_of};

use crate::layers::full;
use crate::span::PIECE;
use std::alloc::{AllocError, Global};
use vz_geom::{Point, Size};
use vz_ids::SurfaceId;
use vz_pixels::Pixel;
use vz_scene::{ActiveFrames, SubmittedFrame};

/// The point in a column and a row. Condition: both are within the limits of a display.
fn point_at(x: u32, y: u32) -> Point
    requires across { x ≤ GREATEST_DISPLAY_SIDE }
    requires down { y ≤ GREATEST_DISPLAY_SIDE }
    ensures { result ≡ record { x = pos x; y = pos y } }
{
    Point {
        x: x as i32,
        y: y as i32,
    }
}

/// Paints a piece of a row of the display, from a point on; it stays black if there is no root.
fn paint(
    alloc: Global,
    active: &ActiveFrames<'_, '_>,
    root: &Option<SurfaceId>,
    start: Point,
    piece: &mut [Pixel],
) -> Result<(), AllocError>
    requires few { length piece.old ≤ PIECE }
    requires black { (i : ℕ) → i < length piece.old
        → slice_index_or piece.old i transparent ≡ black }
    ensures { OnOk result
        (IsPainted (λ q d. colour_of active.now root.now q) start piece.old piece.new) }
{
    match root {
        None => Ok(()),
        Some(id) => Ok(full(alloc, active, id, start, piece)?),
    }
}

/// Appends the colours of a piece of a row, from column `x` on. Condition: it is within a row of
/// a display.
fn piece(
    alloc: Global,
    active: &ActiveFrames<'_, '_>,
    root: &Option<SurfaceId>,
    x: u32,
    y: u32,
    count: usize,
    into: &mut Vec<Pixel>,
) -> Result<(), AllocError>
    requires across { x ≤ GREATEST_DISPLAY_SIDE }
    requires down { y ≤ GREATEST_DISPLAY_SIDE }
    requires few { count ≤ PIECE }
    ensures { OnOk result (into.new.items ≡ into.old.items
        ++ map (colour_of active.now root.now) (row_points count (pos x) (pos y))) }
{
    let mut room = [Pixel::black(); PIECE];
    paint(alloc, active, root, point_at(x, y), &mut room[..count])?;
    into.extend_from_slice(&room[..count])?;
    Ok(())
}

/// How many of the `left` columns of a row are painted next. Condition: some are left.
fn next_count(left: u32) -> usize
    requires { 0 < left }
    ensures some { 0 < result }
    ensures most { result ≤ left }
    ensures few { result ≤ PIECE }
{
    let left = left as usize;
    if left < PIECE { left } else { PIECE }
}

/// Appends the colours of a row, from column 0. Condition: it is a row of a display.
pub(crate) fn row(
    alloc: Global,
    active: &ActiveFrames<'_, '_>,
    root: &Option<SurfaceId>,
    w: u32,
    y: u32,
    into: &mut Vec<Pixel>,
) -> Result<(), AllocError>
    requires across { w ≤ GREATEST_DISPLAY_SIDE }
    requires down { y ≤ GREATEST_DISPLAY_SIDE }
    ensures { OnOk result (into.new.items
        ≡ into.old.items ++ map (colour_of active.now root.now) (row_points w (pos 0) (pos y))) }
{
    let mut x = 0;
    while x < w {
        let count = next_count(w - x);
        piece(alloc, active, root, x, y, count, into)?;
        x += count as u32;
    }
    Ok(())
}

/// The colours of all points, row by row from the top. Condition: the size is that of a display.
#[tactic(auto, unfolding(vz_geom::specs::Rectangle::points_of))]
fn rows(
    alloc: Global,
    active: &ActiveFrames<'_, '_>,
    root: &Option<SurfaceId>,
    size: Size,
) -> Result<Vec<Pixel>, AllocError>
    requires { IsDisplaySize size }
    ensures { IfOk result (λ v. v.items ≡ map (colour_of active.now root.now) (points_of size)) }
{
    let w = size.w.unsigned_abs();
    let h = size.h.unsigned_abs();
    let mut colours = Vec::new(alloc);
    for y in 0..h {
        row(alloc, active, root, w, y, &mut colours)?;
    }
    Ok(colours)
}

/// The picture of these active frames and root: a colour for each pixel, row by row from the top;
/// all black if nothing can be seen. The only error is a failed allocation. Condition: the size
/// is that of a display.
pub fn picture(
    alloc: Global,
    active: &[SubmittedFrame<'_>],
    root: &Option<SurfaceId>,
    size: Size,
) -> Result<Vec<Pixel>, AllocError>
    requires { IsDisplaySize size }
    ensures { IfOk result (λ v. v.items
        ≡ picture_of size (option_and_then (λ (r : Root). scene_at r active.now) root.now)) }
{
    let active = ActiveFrames::new(alloc, active)?;
    Ok(rows(alloc, &active, root, size)?)
}
