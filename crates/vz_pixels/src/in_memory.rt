//! The bytes of pixels as they lie in memory.
ghost use Rattle.std.specs.Prelude.{◌≡◌};
ghost use Rattle.std.specs.List.{flat_map};
ghost use Rattle.vz_pixels.specs.Colour.{colour_bytes};

use crate::Pixel;
use std::slice;

/// The bytes of pixels as they lie in memory: four bytes a pixel, red, green, blue and alpha.
/// Nothing is copied.
///
/// Its proof is written by hand, over the fields as `Pixel` declares them. `Pixel` has `repr(C)`,
/// which promises that they lie in that order in the built program too.
pub fn bytes_of(pixels: &[Pixel]) -> &[u8]
    ensures { result.now ≡ flat_map colour_bytes pixels.now }
{
    let len = pixels.len() * 4;
    unsafe { slice::from_raw_parts(pixels.as_ptr() as *const u8, len) }
}
