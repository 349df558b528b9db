//! A buffer of pixels.
ghost use Rattle.std.specs.Prelude.{◌≡◌, ◌+◌, ◌≤◌, ◌≤ℤ◌, ◌<ℤ◌, ◌+ℤ◌, pos, length, replicate, slice_get, Some, IfOk, OnOk, OnErr};
ghost use Rattle.std.specs.List.{flat_map};
ghost use Rattle.vz_pixels.specs.Colour.{black, colour_bytes};
ghost use Rattle.vz_buffers.specs.Canvas.{IsCanvas, pixel_count, span_put, pixel_place};
ghost use Rattle.vz_buffers.specs.Bands.{MayPut, ArePut};
ghost use Rattle.vz_geom.specs.Display.{IsDisplaySize};
ghost use Rattle.vz_geom.specs.Rectangle.{area_of};

mod alone;

use crate::bands::{height, place_of};
use crate::pages::{black, paint_memory, pixels_in, put, room_for};
use crate::{RowPainter, Steps};
use std::alloc::Global;
use std::marker::Model;
use std::sync::ledger::Ledger;
use std::thread::Threads;
use vz_base::Memory;
use vz_geom::{Rect, Size};
use vz_pixels::{Pixel, bytes_of};

/// The pixels of a display, row by row from the top, and each row from left to right. They lie in
/// memory as the bytes that a file of frames has, so that a frame is written without a copy. Those
/// of a large display begin a page of memory.
#[derive(Drop)]
pub struct Buffer {
    size: Size,
    memory: Vec<Pixel>,
}

impl Model for Buffer {
    ghost use Rattle.std.specs.Prelude.{◌≤◌, length};
    ghost use Rattle.vz_buffers.specs.Canvas.{Canvas, IsCanvas};
    ghost use Rattle.vz_buffers.specs.Pages.{behind_head};
    ghost use Rattle.vz_buffers.specs.declared.pages.TheConstants.{HEAD};

    ghost Value = { Canvas };

    ghost view = { λ b. record { size = b.size; pixels = behind_head b.memory.items } };

    ghost invariant = { λ b. (HEAD ≤ length b.memory.items) × IsCanvas (record {
      size = b.size;
      pixels = behind_head b.memory.items;
    }) };
}

impl Buffer {
    /// Makes a buffer that is opaque black everywhere. Each of its pixels counts as a step. The
    /// only error is `Memory`.
    pub fn new<L: Ledger>(alloc: Global, size: Size, steps: &mut Steps<L>) -> Result<Buffer, Memory>
        requires { IsDisplaySize size }
        ensures size { IfOk result (λ b. b.size ≡ size) }
        ensures black { IfOk result (λ b. b.pixels ≡ replicate (pixel_count size) black) }
        ensures counted { OnOk result (steps.new ≡ steps.old + pixel_count size) }
        ensures err { OnErr result (steps.new ≡ steps.old) }
    {
        let count = pixels_of(&size);
        let memory = black(alloc, count)?;
        steps.add(count as u64);
        Ok(Buffer { size, memory })
    }

    /// The width and the height in pixels.
    pub fn size(&self) -> Size
        ensures value { result ≡ self.now.size }
        ensures proper { IsCanvas self.now }
    {
        self.size
    }

    /// Puts a span of pixels into row `y`, from column `x` on. Each of them counts as a step.
    pub fn put_span<L: Ledger>(&mut self, x: i32, y: i32, row: &[Pixel], steps: &mut Steps<L>)
        requires left { pos 0 ≤ℤ x }
        requires right { (x +ℤ pos (length row.now)) ≤ℤ self.old.size.w }
        requires top { pos 0 ≤ℤ y }
        requires bottom { y <ℤ self.old.size.h }
        ensures size { self.new.size ≡ self.old.size }
        ensures put { self.new.pixels
            ≡ span_put self.old.pixels (pixel_place self.old.size x y) row.now }
        ensures counted { steps.new ≡ steps.old + length row.now }
    {
        let at = place(&self.size, x, y);
        put(&mut self.memory, at, row);
        steps.add(row.len() as u64);
    }

    /// Puts the rows of an area into the buffer. The painters take bands of them one by one, each
    /// on a thread of its own if one can be started. Each pixel of the area counts as a step.
    /// Conditions: the area is not empty and inside the buffer, and there is at least one painter;
    /// each can draw, all draw the same rows, and these are as many as the area has, and as wide.
    pub fn put_rows<P: RowPainter + Send, L: Ledger, R: Threads + Sync>(
        &mut self,
        rt: &R,
        area: &Rect,
        painters: &mut [P],
        steps: &mut Steps<L>,
    )
        requires { MayPut P.able P.strip self.old.size area.now painters.old }
        ensures size { self.new.size ≡ self.old.size }
        ensures put { ArePut P.strip self.old area.now painters.old self.new.pixels }
        ensures counted { steps.new ≡ steps.old + area_of area.now }
    {
        let place = place_of(&self.size, area);
        paint_memory(rt, place, height(area), painters, &mut self.memory);
        steps.add(area.area());
    }

    /// The pixel of column `x` and row `y`.
    pub fn at(&self, x: i32, y: i32) -> Pixel
        requires left { pos 0 ≤ℤ x }
        requires right { x <ℤ self.now.size.w }
        requires top { pos 0 ≤ℤ y }
        requires bottom { y <ℤ self.now.size.h }
        ensures { slice_get self.now.pixels (pixel_place self.now.size x y) ≡ Some result }
    {
        pixels_in(&self.memory)[place(&self.size, x, y)]
    }

    /// The bytes of all pixels, row by row from the top, four bytes a pixel: red, green, blue and
    /// alpha. Nothing is copied.
    pub fn bytes(&self) -> &[u8]
        ensures { result.now ≡ flat_map colour_bytes self.now.pixels }
    {
        bytes_of(pixels_in(&self.memory))
    }

    /// A second buffer with the same pixels. The only error is `Memory`.
    pub(crate) fn copy(&self, alloc: Global) -> Result<Buffer, Memory>
        ensures { IfOk result (λ b. b ≡ self.now) }
    {
        let mut memory = room_for(alloc, self.memory.len())?;
        memory.extend_from_slice(&self.memory)?;
        Ok(Buffer {
            size: self.size,
            memory,
        })
    }
}

/// How many pixels a display of this size has.
fn pixels_of(size: &Size) -> usize
    requires { IsDisplaySize size.now }
    ensures value { result ≡ pixel_count size.now }
{
    size.w.unsigned_abs() as usize * size.h.unsigned_abs() as usize
}

/// The index of the pixel in column `x` and row `y`.
fn place(size: &Size, x: i32, y: i32) -> usize
    requires sides { IsDisplaySize size.now }
    requires left { pos 0 ≤ℤ x }
    requires right { x ≤ℤ size.now.w }
    requires top { pos 0 ≤ℤ y }
    requires bottom { y <ℤ size.now.h }
    ensures value { result ≡ pixel_place size.now x y }
{
    y.unsigned_abs() as usize * size.w.unsigned_abs() as usize + x.unsigned_abs() as usize
}
