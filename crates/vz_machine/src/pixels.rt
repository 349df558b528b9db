//! A picture that holds all its pixels.
ghost use Rattle.std.specs.Prelude.{◌≡◌, ◌+◌, ◌<◌, ◌≤◌, ◌≤ℤ◌, ◌<ℤ◌, ◌+ℤ◌, pos, nat_abs, length, take, drop};
ghost use Rattle.vz_base.specs.declared.limits.TheConstants.{GREATEST_DISPLAY_SIDE};
ghost use Rattle.vz_geom.specs.Rectangle.{Covers, sized, points_of, area_of};
ghost use Rattle.vz_rules.specs.Frames.{patched};
ghost use Rattle.vz_buffers.specs.Canvas.{IsCanvas, pixel_count, pixel_place};
ghost use Rattle.vz_geom.specs.Display.{IsDisplaySize};
ghost use Rattle.vz_machine.specs.Pictured.{IsInside, row_of};

use crate::{Picture, ThinPicture};
use std::alloc::Global;
use std::marker::Model;
use std::sync::ledger::Ledger;
use std::thread::Threads;
use vz_base::Memory;
use vz_buffers::{Buffer, Steps};
use vz_geom::{Rect, Size};
use vz_pixels::Pixel;

/// The picture of a display with all its pixels, row by row from the top.
#[derive(Drop)]
pub struct PixelPicture {
    size: Size,
    pixels: Vec<Pixel>,
    changed: Rect,
}

impl Model for PixelPicture {
    ghost use Rattle.vz_machine.specs.Pictured.{Pixelled, IsPixelled};

    ghost Value = { Pixelled };

    ghost view = { λ p. record { size = p.size; pixels = p.pixels.items; changed = p.changed } };

    ghost invariant = { λ p. IsPixelled (record {
      size = p.size;
      pixels = p.pixels.items;
      changed = p.changed;
    }) };
}

impl PixelPicture {
    /// Makes the picture of these pixels. Conditions: a size that a display may have, a pixel for
    /// each of its points, and a damage on the display.
    pub fn new(size: Size, pixels: Vec<Pixel>, damage: Rect) -> PixelPicture
        requires size { IsDisplaySize size }
        requires all { length pixels.items ≡ pixel_count size }
        requires inside { Covers (sized size) damage }
        ensures { result ≡ record { size = size; pixels = pixels.items; changed = damage } }
    {
        PixelPicture {
            size,
            pixels,
            changed: damage,
        }
    }
}

impl Picture for PixelPicture {
    ghost use Rattle.vz_machine.specs.Pictured.{picture_with};

    ghost pictured = { picture_with };

    ghost occluded = { λ p. 0 };

    type Thin = PixelPicture;

    /// A picture of pixels has no items that could be removed.
    fn occlude(self, _alloc: Global) -> Result<PixelPicture, Memory> {
        Ok(self)
    }
}

impl ThinPicture for PixelPicture {
    ghost use Rattle.vz_machine.specs.Pictured.{picture_with};

    ghost pictured = { picture_with };

    ghost gone = { λ p. 0 };

    fn size(&self) -> Size {
        self.size
    }

    fn damage(&self) -> Rect {
        self.changed
    }

    fn gone(&self) -> u64 {
        0
    }

    fn paint<L: Ledger, R: Threads + Sync>(
        &self,
        _rt: &R,
        alloc: Global,
        area: Rect,
        buffer: &mut Buffer,
        steps: &mut Steps<L>,
    ) -> Result<(), Memory> {
        self.paint_alone(alloc, area, buffer, steps)
    }

    fn paint_alone<L: Ledger>(
        &self,
        _alloc: Global,
        area: Rect,
        buffer: &mut Buffer,
        steps: &mut Steps<L>,
    ) -> Result<(), Memory> {
        let size = buffer.size();
        paint_area(&size, &self.pixels, &area, buffer, steps);
        Ok(())
    }
}

/// Paints an area with the pixels of a picture.
fn paint_area<L: Ledger>(
    size: &Size,
    pixels: &[Pixel],
    area: &Rect,
    buffer: &mut Buffer,
    steps: &mut Steps<L>,
)
    requires sides { IsDisplaySize size.now }
    requires all { length pixels.now ≡ pixel_count size.now }
    requires canvas { length buffer.old.pixels ≡ pixel_count size.now }
    requires same { buffer.old.size ≡ size.now }
    requires inside { Covers (sized size.now) area.now }
    ensures size { buffer.new.size ≡ size.now }
    ensures painted { buffer.new.pixels
        ≡ patched area.now (points_of size.now) pixels.now buffer.old.pixels }
    ensures counted { steps.new ≡ steps.old + area_of area.now }
{
    if area.is_empty() {
        return;
    }
    paint_rows(size, pixels, area, buffer, steps);
}

/// Paints all rows of an area that is not empty.
fn paint_rows<L: Ledger>(
    size: &Size,
    pixels: &[Pixel],
    area: &Rect,
    buffer: &mut Buffer,
    steps: &mut Steps<L>,
)
    requires sides { IsDisplaySize size.now }
    requires all { length pixels.now ≡ pixel_count size.now }
    requires canvas { length buffer.old.pixels ≡ pixel_count size.now }
    requires same { buffer.old.size ≡ size.now }
    requires inside { IsInside (sized size.now) area.now }
    ensures size { buffer.new.size ≡ size.now }
    ensures painted { buffer.new.pixels
        ≡ patched area.now (points_of size.now) pixels.now buffer.old.pixels }
    ensures counted { steps.new ≡ steps.old + area_of area.now }
{
    for below in 0..height(area) {
        paint_row(size, pixels, area, below, buffer, steps);
    }
}

/// Paints the row of an area that is `below` rows below its first one.
fn paint_row<L: Ledger>(
    size: &Size,
    pixels: &[Pixel],
    area: &Rect,
    below: u32,
    buffer: &mut Buffer,
    steps: &mut Steps<L>,
)
    requires sides { IsDisplaySize size.now }
    requires all { length pixels.now ≡ pixel_count size.now }
    requires canvas { length buffer.old.pixels ≡ pixel_count size.now }
    requires same { buffer.old.size ≡ size.now }
    requires inside { IsInside (sized size.now) area.now }
    requires row { below < nat_abs area.now.h }
    ensures size { buffer.new.size ≡ size.now }
    ensures painted { buffer.new.pixels
        ≡ patched (row_of area.now below) (points_of size.now) pixels.now buffer.old.pixels }
    ensures counted { steps.new ≡ steps.old + nat_abs area.now.w }
{
    let x = area.x();
    let y = row_below(area, below);
    let from = place(size, x, y);
    let row = span(pixels, from, width(area));
    buffer.put_span(x, y, row, steps);
}

/// How many columns an area has.
fn width(area: &Rect) -> usize
    requires { pos 1 ≤ℤ area.now.w }
    ensures value { result ≡ nat_abs area.now.w }
{
    area.w().unsigned_abs() as usize
}

/// How many rows an area has.
fn height(area: &Rect) -> u32
    requires { pos 1 ≤ℤ area.now.h }
    ensures value { result ≡ nat_abs area.now.h }
{
    area.h().unsigned_abs()
}

/// The `count` pixels from index `from` on.
fn span(pixels: &[Pixel], from: usize, count: usize) -> &[Pixel]
    requires { (from + count) ≤ length pixels.now }
    ensures value { result.now ≡ take count (drop from pixels.now) }
{
    &pixels[from..from + count]
}

/// The number of the row that is `below` rows below the first one of an area.
fn row_below(area: &Rect, below: u32) -> i32
    requires top { pos 0 ≤ℤ area.now.y }
    requires bottom { (area.now.y +ℤ pos below) <ℤ pos GREATEST_DISPLAY_SIDE }
    ensures value { result ≡ area.now.y +ℤ pos below }
{
    area.y() + below as i32
}

/// The index of the pixel in column `x` and row `y`.
fn place(size: &Size, x: i32, y: i32) -> usize
    requires sides { IsDisplaySize size.now }
    requires left { pos 0 ≤ℤ x }
    requires right { x ≤ℤ size.now.w }
    requires top { pos 0 ≤ℤ y }
    requires bottom { y <ℤ size.now.h }
    ensures value { result ≡ pixel_place size.now x y }
{
    y.unsigned_abs() as usize * size.w.unsigned_abs() as usize + x.unsigned_abs() as usize
}
