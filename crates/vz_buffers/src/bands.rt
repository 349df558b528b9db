//! Painting rows of a buffer in bands, which the threads that paint take one by one.
ghost use Rattle.std.specs.Prelude.{◌≡◌, ◌+◌, ◌*◌, ◌≤◌, ◌<◌, ◌≤ℤ◌, pos, nat_abs, length};
ghost use Rattle.vz_base.specs.declared.limits.TheConstants.{GREATEST_DISPLAY_SIDE};
ghost use Rattle.vz_geom.specs.Display.{IsDisplaySize};
ghost use Rattle.vz_buffers.specs.Bands.{Strip, FitsIn, MayPaint, ArePainted, MayFill, IsFilled, rows_put, rows_from};

use crate::holding::paint_job;
use std::marker::Brand;
use std::thread::Threads;
use vz_geom::{Rect, Size};
use vz_pixels::Pixel;

/// Draws the rows of an area of a display, some at a time.
pub trait RowPainter {
    /// The rows, from the top one on.
    ghost strip: { Self → Strip };

    /// What has to hold for it to draw.
    ghost able: { Self → Type 0 };

    /// Draws `count` rows from row `from` on, each `wide` pixels behind the first `left` ones of a
    /// row of the display, which has `width` pixels. Conditions: the rows are some of the area's
    /// and fit, and `pixels` has those of as many whole rows of the display.
    fn draw_rows(
        &mut self,
        from: u32,
        count: u32,
        width: usize,
        left: usize,
        wide: usize,
        pixels: &mut [Pixel],
    )
        requires able { able self.old }
        requires fits { FitsIn width left wide (strip self.old) }
        requires upto { (from + count) ≤ (strip self.old).high }
        requires small { width ≤ GREATEST_DISPLAY_SIDE }
        requires few { (from + count) ≤ GREATEST_DISPLAY_SIDE }
        requires pixels { length pixels.old ≡ count * width }
        ensures able { able self.new }
        ensures strip { strip self.new ≡ strip self.old }
        ensures painted { pixels.new ≡ rows_put width left
            (rows_from from (strip self.old).row) count pixels.old };
}

/// Where the rows of an area stand among the pixels of a display: the width of the display, the
/// column and the row at which they begin, and how wide they are.
#[derive(Clone, Copy)]
pub(crate) struct Place {
    pub(crate) width: usize,
    pub(crate) left: usize,
    pub(crate) top: usize,
    pub(crate) wide: usize,
}

/// How many columns a display of this size has.
fn columns(size: &Size) -> usize
    requires { IsDisplaySize size.now }
    ensures value { result ≡ nat_abs size.now.w }
{
    size.w.unsigned_abs() as usize
}

/// How many columns are left of an area.
fn left(area: &Rect) -> usize
    requires { pos 0 ≤ℤ area.now.x }
    ensures value { result ≡ nat_abs area.now.x }
{
    area.x().unsigned_abs() as usize
}

/// How many rows are above an area.
fn top(area: &Rect) -> usize
    requires { pos 0 ≤ℤ area.now.y }
    ensures value { result ≡ nat_abs area.now.y }
{
    area.y().unsigned_abs() as usize
}

/// How many columns an area has.
fn width(area: &Rect) -> usize
    requires { pos 1 ≤ℤ area.now.w }
    ensures value { result ≡ nat_abs area.now.w }
{
    area.w().unsigned_abs() as usize
}

/// How many rows an area has.
pub(crate) fn height(area: &Rect) -> u32
    requires { pos 1 ≤ℤ area.now.h }
    ensures value { result ≡ nat_abs area.now.h }
{
    area.h().unsigned_abs()
}

/// Where an area stands on a display of this size.
pub(crate) fn place_of(size: &Size, area: &Rect) -> Place
    requires size { IsDisplaySize size.now }
    requires left { pos 0 ≤ℤ area.now.x }
    requires top { pos 0 ≤ℤ area.now.y }
    requires wide { pos 1 ≤ℤ area.now.w }
    ensures width { result.width ≡ nat_abs size.now.w }
    ensures left { result.left ≡ nat_abs area.now.x }
    ensures top { result.top ≡ nat_abs area.now.y }
    ensures wide { result.wide ≡ nat_abs area.now.w }
{
    Place {
        width: columns(size),
        left: left(area),
        top: top(area),
        wide: width(area),
    }
}

/// How many pixels `count` rows of a display have.
pub(crate) fn pixels_in(width: usize, count: usize) -> usize
    requires width { width ≤ GREATEST_DISPLAY_SIDE }
    requires count { count ≤ GREATEST_DISPLAY_SIDE }
    ensures value { result ≡ count * width }
{
    count * width
}

/// Some rows of an area that follow one another.
#[derive(Clone, Copy)]
pub(crate) struct Band {
    pub(crate) from: u32,
    pub(crate) count: u32,
}

/// Paints a band. Conditions: the rows fit, and `pixels` has those of as many whole
/// rows of the display.
pub(crate) fn paint_band<P: RowPainter>(
    place: Place,
    band: Band,
    painter: &mut P,
    pixels: &mut [Pixel],
)
    requires able { P.able painter.old }
    requires fits { FitsIn place.width place.left place.wide (P.strip painter.old) }
    requires upto { (band.from + band.count) ≤ (P.strip painter.old).high }
    requires small { place.width ≤ GREATEST_DISPLAY_SIDE }
    requires few { (band.from + band.count) ≤ GREATEST_DISPLAY_SIDE }
    requires pixels { length pixels.old ≡ band.count * place.width }
    ensures able { P.able painter.new }
    ensures strip { P.strip painter.new ≡ P.strip painter.old }
    ensures painted { pixels.new ≡ rows_put place.width place.left
        (rows_from band.from (P.strip painter.old).row) band.count pixels.old }
{
    painter.draw_rows(
        band.from,
        band.count,
        place.width,
        place.left,
        place.wide,
        pixels,
    );
}

/// How many of `count` rows the first `some` of `all` equal parts have.
pub(crate) fn share(count: u32, some: usize, all: usize) -> u32
    requires some { 0 < all }
    requires part { some ≤ all }
    ensures { result ≤ count }
{
    let part = count as usize / all * some;
    if part < count as usize {
        part as u32
    } else {
        count
    }
}

/// Paints a band: the painters take its parts one by one, each on a thread of its own if one can be
/// started.
fn paint_bands<P: RowPainter + Send, R: Threads + Sync>(
    rt: &R,
    place: Place,
    band: Band,
    painters: &mut [P],
    pixels: &mut [Pixel],
)
    requires { MayPaint P.able P.strip place.width place.left place.wide band.from band.count
        painters.old pixels.old }
    ensures { ArePainted P.strip place.width place.left band.from band.count
        painters.old pixels.old pixels.new }
{
    paint_job::<Brand, P, R>(rt, place, band, painters, pixels);
}

/// Paints the `count` rows of an area of a display. The painters share them.
pub(crate) fn paint_within<P: RowPainter + Send, R: Threads + Sync>(
    rt: &R,
    place: Place,
    count: u32,
    painters: &mut [P],
    pixels: &mut [Pixel],
)
    requires { MayFill P.able P.strip place count painters.old pixels.old }
    ensures painted { IsFilled P.strip place count painters.old pixels.old pixels.new }
    ensures long { length pixels.new ≡ length pixels.old }
{
    let (_, below) = pixels.split_at_mut(pixels_in(place.width, place.top));
    let (rows, _) = below.split_at_mut(pixels_in(place.width, count as usize));
    let band = Band { from: 0, count };
    paint_bands(rt, place, band, painters, rows);
}

/// Paints a band with the first painter alone.
fn paint_first<P: RowPainter>(place: Place, band: Band, painters: &mut [P], pixels: &mut [Pixel])
    requires { MayPaint P.able P.strip place.width place.left place.wide band.from band.count
        painters.old pixels.old }
    ensures { ArePainted P.strip place.width place.left band.from band.count
        painters.old pixels.old pixels.new }
{
    paint_band(place, band, &mut painters[0], pixels);
}

/// Paints the `count` rows of an area of a display. The first painter paints all of them.
pub(crate) fn paint_alone<P: RowPainter>(
    place: Place,
    count: u32,
    painters: &mut [P],
    pixels: &mut [Pixel],
)
    requires { MayFill P.able P.strip place count painters.old pixels.old }
    ensures painted { IsFilled P.strip place count painters.old pixels.old pixels.new }
    ensures long { length pixels.new ≡ length pixels.old }
{
    let (_, below) = pixels.split_at_mut(pixels_in(place.width, place.top));
    let (rows, _) = below.split_at_mut(pixels_in(place.width, count as usize));
    let band = Band { from: 0, count };
    paint_first(place, band, painters, rows);
}
