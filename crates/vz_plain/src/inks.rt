//! Colours that are laid on a row, one at each place.
ghost use Rattle.std.specs.Prelude.{◌≡◌, ◌<◌, ◌≤◌, ℕ, ◌||◌, length, slice_index_or, if◌then◌else◌};
ghost use Rattle.vz_pixels.specs.Colour.{transparent};
ghost use Rattle.vz_frame.specs.Blending.{blend, laid};
ghost use Rattle.vz_plain.specs.Rows.{within};

use crate::span::Span;
use vz_frame::{Blend, scaled};
use vz_kernel::{dst_in_fill, dst_in_row, fill_row, over_fill, over_row, src_row};
use vz_pixels::Pixel;

/// Blends one colour with each pixel of a row.
fn tint(colour: Pixel, mode: Blend, row: &mut [Pixel])
    ensures long { length row.new ≡ length row.old }
    ensures each { (i : ℕ) → i < length row.old
        → slice_index_or row.new i transparent
        ≡ blend mode colour (slice_index_or row.old i transparent) }
{
    match mode {
        Blend::Over => over_fill(row, colour),
        Blend::Src => fill_row(row, colour),
        Blend::DstIn => dst_in_fill(row, colour),
    }
}

/// Blends each colour of another row, scaled by an opacity, with the pixel at its place.
fn mix(source: &[Pixel], mode: Blend, opacity: u8, row: &mut [Pixel])
    requires { length row.old ≡ length source.now }
    ensures long { length row.new ≡ length row.old }
    ensures each { (i : ℕ) → i < length row.old → slice_index_or row.new i transparent
        ≡ laid mode (slice_index_or source.now i transparent) opacity
        (slice_index_or row.old i transparent) }
{
    match mode {
        Blend::Over => over_row(row, source, opacity),
        Blend::Src => src_row(row, source, opacity),
        Blend::DstIn => dst_in_row(row, source, opacity),
    }
}

/// Lays one colour, scaled by an opacity, on a row by a mode.
#[tactic(auto, unfolding(vz_frame::specs::Blending::laid))]
pub(crate) fn lay_colour(colour: Pixel, mode: Blend, opacity: u8, row: &mut [Pixel])
    ensures long { length row.new ≡ length row.old }
    ensures each { (i : ℕ) → i < length row.old → slice_index_or row.new i transparent
        ≡ laid mode colour opacity (slice_index_or row.old i transparent) }
{
    tint(scaled(colour, opacity), mode, row);
}

/// Lays the colours of another row, and transparent after its end, scaled by an opacity, on a row
/// by a mode.
pub(crate) fn lay_row(source: &[Pixel], mode: Blend, opacity: u8, row: &mut [Pixel])
    requires { length source.now ≤ length row.old }
    ensures long { length row.new ≡ length row.old }
    ensures each { (i : ℕ) → i < length row.old → slice_index_or row.new i transparent
        ≡ laid mode (slice_index_or source.now i transparent) opacity
        (slice_index_or row.old i transparent) }
{
    let end = source.len();
    let count = row.len();
    mix(source, mode, opacity, &mut row[0..end]);
    lay_colour(Pixel::transparent(), mode, opacity, &mut row[end..count]);
}

/// Lays the background of a shown surface on a row outside a span, unless it is the end of the
/// range.
pub(crate) fn lay_outside(
    is_end: bool,
    here: Span,
    background: Pixel,
    mode: Blend,
    opacity: u8,
    row: &mut [Pixel],
)
    requires ordered { here.from ≤ here.to }
    requires most { here.to ≤ length row.old }
    ensures long { length row.new ≡ length row.old }
    ensures each { (i : ℕ) → i < length row.old → slice_index_or row.new i transparent
        ≡ (if within here i || is_end then slice_index_or row.old i transparent
        else laid mode background opacity (slice_index_or row.old i transparent)) }
{
    if is_end {
        return;
    }
    let count = row.len();
    lay_colour(background, mode, opacity, &mut row[0..here.from]);
    lay_colour(background, mode, opacity, &mut row[here.to..count]);
}
