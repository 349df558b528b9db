//! Fields of rectangles and colours.
ghost use Rattle.std.specs.Prelude.{◌≡◌, ◌++◌, ◌&&◌, is_some, IfSome, OnOk};
ghost use Rattle.vz_codec.specs.Fields.{field, rectangle};
ghost use Rattle.vz_codec.specs.Reading.{rect_at, colour_at};
ghost use Rattle.vz_codec.specs.Spelling.{rect_bytes};
ghost use Rattle.vz_pixels.specs.Colour.{colour_bytes};
ghost use Rattle.vz_frame.specs.Fits.{fits_rect, fits_colour, in_reach, is_side, is_zero};

use crate::error::ReadError;
use crate::fault::FileRule;
use crate::field::Field;
use crate::limits::REACH;
use crate::reader::{Reader, in_reach};
use crate::writer::Writer;
use std::alloc::AllocError;
use vz_geom::Rect;
use vz_pixels::Pixel;

/// The field of a rectangle: its top left point and its sides. All four numbers are 0, or each is
/// in its range.
#[derive(Drop)]
pub struct Rects;

#[tactic(auto, unfolding(crate::specs::Reading::rect_at), using(crate::proofs::Appended::appended))]
impl Field for Rects {
    type Value = Rect;

    ghost kind = { λ _. field rect_at rect_bytes fits_rect };

    fn read(&self, input: &mut Reader) -> Result<Rect, ReadError> {
        let left = input.left();
        let x = input.i32()?;
        let y = input.i32()?;
        let w = input.i32()?;
        let h = input.i32()?;
        match rect_of(&Sides { x, y, w, h }) {
            Some(rect) => Ok(rect),
            None => Err(ReadError::refused(left, FileRule::Limit)),
        }
    }

    fn write(&self, rect: &Rect, out: &mut Writer) -> Result<(), AllocError> {
        out.i32(rect.x())?;
        out.i32(rect.y())?;
        out.i32(rect.w())?;
        out.i32(rect.h())
    }

    fn fits(&self, rect: &Rect) -> bool {
        are_rect(&sides_of(rect))
    }
}

/// The four numbers of a rectangle as they are in the file, of any values.
#[derive(Drop)]
struct Sides {
    x: i32,
    y: i32,
    w: i32,
    h: i32,
}

/// The four numbers of a rectangle.
fn sides_of(rect: &Rect) -> Sides
    ensures { rectangle result ≡ rect.now }
{
    Sides {
        x: rect.x(),
        y: rect.y(),
        w: rect.w(),
        h: rect.h(),
    }
}

/// The rectangle with these numbers, if they are in their ranges.
#[inline(always)]
fn rect_of(sides: &Sides) -> Option<Rect>
    ensures fits { is_some result ≡ fits_rect (rectangle sides.now) }
    ensures value { IfSome result (λ r. r ≡ rectangle sides.now) }
{
    if are_rect(sides) {
        Some(Rect::new(sides.x, sides.y, sides.w, sides.h))
    } else {
        None
    }
}

/// Whether all four numbers are 0, or they are a point within reach and two sides.
fn are_rect(sides: &Sides) -> bool
    ensures { result ≡ fits_rect (rectangle sides.now) }
{
    is_zero(sides) || is_placed(sides)
}

/// Whether all four numbers are 0.
fn is_zero(sides: &Sides) -> bool
    ensures { let s = sides.now in
        result ≡ (is_zero s.x && is_zero s.y && is_zero s.w && is_zero s.h) }
{
    sides.x == 0 && sides.y == 0 && sides.w == 0 && sides.h == 0
}

/// Whether the numbers are a point within reach and two sides.
fn is_placed(sides: &Sides) -> bool
    ensures { let s = sides.now in
        result ≡ (in_reach s.x && in_reach s.y && is_side s.w && is_side s.h) }
{
    in_reach(sides.x) && in_reach(sides.y) && is_side(sides.w) && is_side(sides.h)
}

/// Whether a number may be a side of a rectangle.
fn is_side(number: i32) -> bool
    ensures { result ≡ is_side number }
{
    1 <= number && number <= REACH
}

/// The field of a colour: red, green, blue and alpha, premultiplied.
#[derive(Drop)]
pub struct Colours;

impl Field for Colours {
    type Value = Pixel;

    ghost kind = { λ _. field colour_at colour_bytes fits_colour };

    #[tactic(auto, unfolding(crate::specs::Reading::colour_at))]
    fn read(&self, input: &mut Reader) -> Result<Pixel, ReadError> {
        let left = input.left();
        let four = input.front(4)?;
        match Pixel::new(four[0], four[1], four[2], four[3]) {
            Some(colour) => Ok(colour),
            None => Err(ReadError::refused(left, FileRule::Colour)),
        }
    }

    fn write(&self, colour: &Pixel, out: &mut Writer) -> Result<(), AllocError> {
        out.all(&[colour.r(), colour.g(), colour.b(), colour.a()])
    }

    fn fits(&self, colour: &Pixel) -> bool {
        fits_colour(*colour)
    }
}

/// Each pixel is premultiplied, and so fits.
fn fits_colour(colour: Pixel) -> bool
    ensures { result ≡ fits_colour colour }
{
    true
}
