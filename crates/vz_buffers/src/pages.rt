//! Memory in which the pixels of a large display begin a page.
//!
//! The system copies a frame to a file page by page. If the frame's pixels begin a page, too, it
//! copies each page from one page, and is a few hundredths faster.
ghost use Rattle.std.specs.Prelude.{◌≡◌, ◌≤◌, ◌+◌, ◌*◌, [], length, replicate, IfOk};
ghost use Rattle.vz_base.specs.declared.limits.TheConstants.{GREATEST_DISPLAY_SIDE};
ghost use Rattle.vz_pixels.specs.Colour.{black as opaque_black};
ghost use Rattle.vz_buffers.specs.Bands.{MayFill, IsFilled};
ghost use Rattle.vz_buffers.specs.Canvas.{span_put};
ghost use Rattle.vz_buffers.specs.Pages.{behind_head};

use crate::RowPainter;
use crate::bands::{Place, paint_alone, paint_within};
use std::alloc::Global;
use std::thread::Threads;
use vz_base::Memory;
use vz_pixels::Pixel;

/// How many pixels stand unused before the first one. A piece of memory that the system maps for
/// the C library begins 16 bytes behind the beginning of a page of 4,096 bytes, so that after this
/// many pixels of four bytes the next page begins.
pub(crate) const HEAD: usize = 1_020;

/// From how many pixels on memory is asked for so that it is mapped. Where little is copied, it
/// pays more to reuse memory that was given back.
const LARGE: usize = 262_144;

/// So many pixels, which are 32 MiB, the C library has the system map in any case.
const MAPPED: usize = 8_388_608;

/// Room for this many pixels with those before the first one. If it is large, more is asked for
/// and the rest given back, so that it is mapped. The only error is `Memory`.
pub(crate) fn room_for(alloc: Global, total: usize) -> Result<Vec<Pixel>, Memory>
    ensures { IfOk result (λ v. v.items ≡ []) }
{
    if total < LARGE {
        return Ok(Vec::with_capacity(alloc, total)?);
    }
    let Ok(mut room) = Vec::with_capacity(alloc, total.max(MAPPED)) else {
        return Ok(Vec::with_capacity(alloc, total)?);
    };
    room.shrink_to(total);
    Ok(room)
}

/// This many pixels of opaque black, behind those before the first one. The only error is
/// `Memory`.
pub(crate) fn black(alloc: Global, count: usize) -> Result<Vec<Pixel>, Memory>
    requires few { count ≤ GREATEST_DISPLAY_SIDE * GREATEST_DISPLAY_SIDE }
    ensures black { IfOk result (λ v. behind_head v.items ≡ replicate count opaque_black) }
    ensures head { IfOk result (λ v. HEAD ≤ length v.items) }
{
    let total = HEAD + count;
    let mut memory = room_for(alloc, total)?;
    memory.resize(total, Pixel::black())?;
    Ok(memory)
}

/// The pixels of a buffer's memory.
pub(crate) fn pixels_in(memory: &[Pixel]) -> &[Pixel]
    requires { HEAD ≤ length memory.now }
    ensures { result.now ≡ behind_head memory.now }
{
    let (_, pixels) = memory.split_at(HEAD);
    pixels
}

/// Replaces the pixels from index `at` on by a span.
pub(crate) fn put(memory: &mut [Pixel], at: usize, row: &[Pixel])
    requires head { HEAD ≤ length memory.old }
    requires fits { (at + length row.now) ≤ length (behind_head memory.old) }
    ensures put { behind_head memory.new ≡ span_put (behind_head memory.old) at row.now }
    ensures long { length memory.new ≡ length memory.old }
{
    let (_, pixels) = memory.split_at_mut(HEAD);
    put_span(pixels, at, row);
}

/// Replaces the pixels from index `at` on by a span.
#[tactic(auto, unfolding(crate::specs::Canvas::span_put))]
fn put_span(pixels: &mut [Pixel], at: usize, row: &[Pixel])
    requires { (at + length row.now) ≤ length pixels.old }
    ensures { pixels.new ≡ span_put pixels.old at row.now }
{
    pixels[at..at + row.len()].copy_from_slice(row);
}

/// Paints the `count` rows of an area of a display, whose pixels are in this memory.
pub(crate) fn paint_memory<P: RowPainter + Send, R: Threads + Sync>(
    rt: &R,
    place: Place,
    count: u32,
    painters: &mut [P],
    memory: &mut [Pixel],
)
    requires head { HEAD ≤ length memory.old }
    requires may { MayFill P.able P.strip place count painters.old (behind_head memory.old) }
    ensures painted { IsFilled P.strip place count painters.old
        (behind_head memory.old) (behind_head memory.new) }
    ensures long { length memory.new ≡ length memory.old }
{
    let (_, pixels) = memory.split_at_mut(HEAD);
    paint_within(rt, place, count, painters, pixels);
}

/// The same on the caller's thread: the first painter paints all of them.
pub(crate) fn paint_memory_alone<P: RowPainter>(
    place: Place,
    count: u32,
    painters: &mut [P],
    memory: &mut [Pixel],
)
    requires head { HEAD ≤ length memory.old }
    requires may { MayFill P.able P.strip place count painters.old (behind_head memory.old) }
    ensures painted { IsFilled P.strip place count painters.old
        (behind_head memory.old) (behind_head memory.new) }
    ensures long { length memory.new ≡ length memory.old }
{
    let (_, pixels) = memory.split_at_mut(HEAD);
    paint_alone(place, count, painters, pixels);
}
