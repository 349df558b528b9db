//! Sixteen pixels of a row as one vector of their channels.
ghost use Rattle.std.specs.Prelude.{◌≡◌, ◌+◌, ◌≤◌, ◌<◌, length, slice_index_or};
ghost use lib.Lanes.{chunk, put_chunk, Each1};
ghost use Rattle.vz_pixels.specs.Colour.{IsPremultiplied, transparent};
ghost use Rattle.vz_kernel.specs.Lanes.{channels_of, word_of, colours, AreBytes, AreLanes};

use std::simd::prelude::*;
use vz_pixels::Pixel;

/// The four channels of a pixel as one number, in the order in which they lie in memory.
#[inline(always)]
fn word_of(pixel: Pixel) -> u32
    ensures value { result ≡ word_of pixel }
    ensures good { IsPremultiplied pixel }
    ensures bytes { AreBytes (channels_of pixel) }
{
    u32::from_le_bytes([pixel.r(), pixel.g(), pixel.b(), pixel.a()])
}

/// The channels of the pixel at index `at`, as one number.
#[inline(always)]
fn word_at(row: &[Pixel], at: usize) -> u32
    requires { at < length row.now }
    ensures value { result ≡ word_of (slice_index_or row.now at transparent) }
    ensures good { IsPremultiplied (slice_index_or row.now at transparent) }
    ensures bytes { AreBytes (channels_of (slice_index_or row.now at transparent)) }
{
    word_of(row[at])
}

/// The channels of the sixteen pixels from index `at` on. They are gathered as sixteen numbers so
/// that the compiler reads whole vectors.
#[inline(always)]
pub(crate) fn load(row: &[Pixel], at: usize) -> u8x64
    requires { at + 16 ≤ length row.now }
    ensures { AreLanes result (chunk at 16 row.now) }
{
    u32x16::from_array([
        word_at(row, at),
        word_at(row, at + 1),
        word_at(row, at + 2),
        word_at(row, at + 3),
        word_at(row, at + 4),
        word_at(row, at + 5),
        word_at(row, at + 6),
        word_at(row, at + 7),
        word_at(row, at + 8),
        word_at(row, at + 9),
        word_at(row, at + 10),
        word_at(row, at + 11),
        word_at(row, at + 12),
        word_at(row, at + 13),
        word_at(row, at + 14),
        word_at(row, at + 15),
    ])
    .to_le_bytes()
}

/// The k-th pixel of the channels.
#[inline(always)]
fn pixel_of(channels: &[u8; 64], k: usize) -> Pixel
    requires inside { k < 16 }
    requires good { Each1 IsPremultiplied (colours channels.now) }
    ensures { result ≡ slice_index_or (colours channels.now) k transparent }
{
    Pixel::premultiplied(
        channels[4 * k],
        channels[4 * k + 1],
        channels[4 * k + 2],
        channels[4 * k + 3],
    )
}

/// Writes the sixteen pixels of these channels from index `at` on.
#[inline(always)]
pub(crate) fn store(row: &mut [Pixel], at: usize, lanes: u8x64)
    requires inside { at + 16 ≤ length row.old }
    requires good { Each1 IsPremultiplied (colours lanes) }
    ensures { row.new ≡ put_chunk at row.old (colours lanes) }
{
    let channels = lanes.to_array();
    row[at] = pixel_of(&channels, 0);
    row[at + 1] = pixel_of(&channels, 1);
    row[at + 2] = pixel_of(&channels, 2);
    row[at + 3] = pixel_of(&channels, 3);
    row[at + 4] = pixel_of(&channels, 4);
    row[at + 5] = pixel_of(&channels, 5);
    row[at + 6] = pixel_of(&channels, 6);
    row[at + 7] = pixel_of(&channels, 7);
    row[at + 8] = pixel_of(&channels, 8);
    row[at + 9] = pixel_of(&channels, 9);
    row[at + 10] = pixel_of(&channels, 10);
    row[at + 11] = pixel_of(&channels, 11);
    row[at + 12] = pixel_of(&channels, 12);
    row[at + 13] = pixel_of(&channels, 13);
    row[at + 14] = pixel_of(&channels, 14);
    row[at + 15] = pixel_of(&channels, 15);
}
