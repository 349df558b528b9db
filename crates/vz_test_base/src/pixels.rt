//! Rows of pixels, and blocks.
ghost use Rattle.std.specs.Prelude.{◌≡◌, length};

use crate::texts::{bytes_of, reads};
use std::alloc::{AllocError, Global};
use vz_kernel::{fill_row, over_row};
use vz_pixels::{Pixel, PixelBlock};

/// The colours of a row that is worked: red of half alpha, white, and the red laid over the white.
#[derive(Clone, Copy)]
struct Colours {
    red: Pixel,
    white: Pixel,
    mixed: Pixel,
}

/// Whether red of half alpha leaves what is expected of a white row of a length: the white where it is laid over it
/// with opacity 0, then the mean where it is laid with opacity 255, and itself where the row is filled with it.
pub fn are_laid(alloc: Global, length: &str, expected: &str) -> bool {
    match (worked(), length.parse::<u16>()) {
        (Some(colours), Ok(count)) => {
            laid(alloc, &colours, usize::from(count)) == Ok(expected == "as worked")
        }
        _ => false,
    }
}

/// The colours, of which each has no channel above its alpha.
fn worked() -> Option<Colours> {
    Some(Colours {
        red: Pixel::new(128, 0, 0, 128)?,
        white: Pixel::new(255, 255, 255, 255)?,
        mixed: Pixel::new(255, 127, 127, 255)?,
    })
}

/// Whether red over a row of white leaves what it should.
fn laid(alloc: Global, colours: &Colours, count: usize) -> Result<bool, AllocError> {
    let src = Vec::from_elem(alloc, colours.red, count)?;
    let mut row = Vec::from_elem(alloc, colours.white, count)?;
    if row.len() != src.len() {
        return Ok(false);
    }
    over_row(&mut row, &src, 0);
    let kept = is_all(&row, colours.white);
    over_row(&mut row, &src, 255);
    let mixed = is_all(&row, colours.mixed);
    fill_row(&mut row, colours.red);
    Ok(kept & mixed & is_all(&row, colours.red))
}

/// Whether each pixel has this colour.
fn is_all(row: &[Pixel], colour: Pixel) -> bool {
    for pixel in row {
        if *pixel != colour {
            return false;
        }
    }
    true
}

/// Whether the red of the right pixel of a block of two, read from one that shares its pixels, is as expected.
pub fn is_shared(alloc: Global, pieces: &str, expected: &str) -> bool {
    match bytes_of(alloc, pieces) {
        Some(bytes) => match shared_red(alloc, &bytes) {
            Some(red) => reads(alloc, &red, expected),
            None => false,
        },
        None => false,
    }
}

/// The red of the right pixel of a block of two, read from one that shares its pixels.
fn shared_red(alloc: Global, bytes: &[u8]) -> Option<u8> {
    let block = PixelBlock::of_bytes(alloc, 2, 1, bytes).ok()?;
    let shared = block.share().ok()?;
    Some(shared.at(1, 0).r())
}
