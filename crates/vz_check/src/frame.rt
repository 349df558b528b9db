//! Reads frames in pieces and compares them.
ghost use Rattle.std.specs.Prelude.{◌≡◌, ◌<◌, ◌≤◌, Some, length, IfOk};
ghost use Rattle.std.specs.List.{flat_map};
ghost use Rattle.std.specs.Option.{option_map};
ghost use Rattle.vz_outside.specs.Shelved.{Reading, ReadsOnly, Behaves};
ghost use Rattle.vz_rules.specs.Frames.{pixel_bytes};
ghost use Rattle.vz_check.specs.Judged.{IsFrameRead, IsEndRead, picture_bytes};

use crate::line::is_same;
use std::alloc::{AllocError, Global};
use vz_outside::{Shelf, ShelfError, read_upto};
use vz_pixels::Pixel;

/// The greatest number of pixels of a frame that are compared in one piece.
const MOST_PIECE_PIXELS: usize = 16_384;

/// Whether the next bytes of a slot are those of a picture, if there is a picture. They are read.
/// Condition: the slot is open for reading.
pub(crate) fn reads_picture<F: Shelf>(
    alloc: Global,
    pixels: &Option<Vec<Pixel>>,
    shelf: &mut F,
    slot: u32,
) -> Result<bool, ShelfError>
    requires { (F.shelved shelf.old).mode slot ≡ Some Reading }
    ensures found { IfOk result (λ found. IsFrameRead
        (picture_bytes (option_map (λ v. v.items) pixels.now)) slot
        (F.shelved shelf.old) (F.shelved shelf.new) found) }
    ensures kept { ReadsOnly slot (F.shelved shelf.old) (F.shelved shelf.new) }
    ensures behaves { Behaves (F.shelved shelf.old) (F.shelved shelf.new) result }
{
    match pixels {
        None => Ok(true),
        Some(pixels) => reads_pixels(alloc, pixels, shelf, slot),
    }
}

/// Whether the next bytes of a slot are those of these pixels. They are read.
fn reads_pixels<F: Shelf>(
    alloc: Global,
    pixels: &[Pixel],
    shelf: &mut F,
    slot: u32,
) -> Result<bool, ShelfError>
    requires { (F.shelved shelf.old).mode slot ≡ Some Reading }
    ensures found { IfOk result (λ found. IsFrameRead (flat_map pixel_bytes pixels.now) slot
        (F.shelved shelf.old) (F.shelved shelf.new) found) }
    ensures kept { ReadsOnly slot (F.shelved shelf.old) (F.shelved shelf.new) }
    ensures behaves { Behaves (F.shelved shelf.old) (F.shelved shelf.new) result }
{
    let mut at = 0;
    while at < pixels.len() {
        let count = MOST_PIECE_PIXELS.min(pixels.len() - at);
        if !reads_piece(alloc, &pixels[at..at + count], shelf, slot)? {
            return Ok(false);
        }
        at += count;
    }
    Ok(true)
}

/// The same for pixels that are compared in one piece.
fn reads_piece<F: Shelf>(
    alloc: Global,
    pixels: &[Pixel],
    shelf: &mut F,
    slot: u32,
) -> Result<bool, ShelfError>
    requires open { (F.shelved shelf.old).mode slot ≡ Some Reading }
    requires some { 0 < length pixels.now }
    requires few { length pixels.now ≤ 16384 }
    ensures found { IfOk result (λ found. IsFrameRead (flat_map pixel_bytes pixels.now) slot
        (F.shelved shelf.old) (F.shelved shelf.new) found) }
    ensures kept { ReadsOnly slot (F.shelved shelf.old) (F.shelved shelf.new) }
    ensures behaves { Behaves (F.shelved shelf.old) (F.shelved shelf.new) result }
{
    let own = bytes_of(alloc, pixels)?;
    let bytes = read_upto(alloc, shelf, slot, 4 * pixels.len() - 1)?;
    Ok(is_same(&bytes, &own))
}

/// The bytes of pixels. There is room for those of a piece from the beginning.
fn bytes_of(alloc: Global, pixels: &[Pixel]) -> Result<Vec<u8>, AllocError>
    ensures { IfOk result (λ v. v.items ≡ flat_map pixel_bytes pixels.now) }
{
    let mut bytes = Vec::with_capacity(alloc, 4 * MOST_PIECE_PIXELS)?;
    for pixel in pixels {
        bytes.extend_from_slice(&[pixel.r(), pixel.g(), pixel.b(), pixel.a()])?;
    }
    Ok(bytes)
}

/// Whether no bytes are left in a slot. Condition: the slot is open for reading.
pub(crate) fn is_at_end<F: Shelf>(
    alloc: Global,
    shelf: &mut F,
    slot: u32,
) -> Result<bool, ShelfError>
    requires { (F.shelved shelf.old).mode slot ≡ Some Reading }
    ensures ended { IfOk result (λ ended. IsEndRead slot (F.shelved shelf.old) ended) }
    ensures kept { ReadsOnly slot (F.shelved shelf.old) (F.shelved shelf.new) }
    ensures behaves { Behaves (F.shelved shelf.old) (F.shelved shelf.new) result }
{
    let bytes = read_upto(alloc, shelf, slot, 0)?;
    Ok(bytes.is_empty())
}
