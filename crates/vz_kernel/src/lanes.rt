//! The channels of sixteen pixels as a vector of bytes, and products of such vectors lane by
//! lane.
ghost use Rattle.std.specs.Prelude.{◌≡◌, ◌+◌, ◌-◌, ◌*◌, ◌≤◌, map, List, ℕ, IsTrue};
ghost use lib.Lanes.{zip2, Each1};
ghost use Rattle.vz_pixels.specs.Colour.{Colour, mul, transparent};
ghost use Rattle.vz_kernel.specs.Lanes.{evens, odds, woven, doubled, factor_of, AreBytes, AreFactors, AreLanes};

use std::simd::prelude::*;

/// The smallest channels of sixteen opaque colours.
const OPAQUE: [u8; 64] = [
    0, 0, 0, 255, 0, 0, 0, 255, 0, 0, 0, 255, 0, 0, 0, 255, 0, 0, 0, 255, 0, 0, 0, 255, 0, 0, 0,
    255, 0, 0, 0, 255, 0, 0, 0, 255, 0, 0, 0, 255, 0, 0, 0, 255, 0, 0, 0, 255, 0, 0, 0, 255, 0, 0,
    0, 255, 0, 0, 0, 255, 0, 0, 0, 255,
];

/// What `high_alphas` gives where all eight alphas are 128 or more.
pub(crate) const ALL_HIGH: u64 = 0x8888_8888;

/// The first byte of each pair: red and blue.
#[inline(always)]
pub(crate) fn evens(bytes: u8x64) -> u16x32
    ensures value { result ≡ evens bytes }
    ensures bytes { AreBytes result }
{
    u16x32::from_le_bytes(bytes) % u16x32::splat(256)
}

/// The second byte of each pair: green and alpha.
#[inline(always)]
pub(crate) fn odds(bytes: u8x64) -> u16x32
    ensures value { result ≡ odds bytes }
    ensures bytes { AreBytes result }
{
    u16x32::from_le_bytes(bytes) >> u16x32::splat(8)
}

/// Puts red and blue together with green and alpha, as bytes.
#[inline(always)]
pub(crate) fn woven(evens: u16x32, odds: u16x32) -> u8x64
    requires evens { AreBytes evens }
    requires odds { AreBytes odds }
    ensures { result ≡ woven evens odds }
{
    (evens + odds * u16x32::splat(256)).to_le_bytes()
}

/// The same as `woven`, by numbers of 32 bits, for lanes that `parts` made: with numbers of 16 bits
/// the compiler joins the shift of `parts` and this one, and takes an operation more.
#[inline(always)]
pub(crate) fn woven_by_fours(evens: u16x32, odds: u16x32) -> u8x64
    requires evens { AreBytes evens }
    requires odds { AreBytes odds }
    ensures { result ≡ woven evens odds }
{
    let low = u32x16::from_le_bytes(evens.to_le_bytes());
    let high = u32x16::from_le_bytes(odds.to_le_bytes());
    (low + high * u32x16::splat(256)).to_le_bytes()
}

/// The alpha of each pixel, in both of its lanes.
#[inline(always)]
pub(crate) fn alphas(odds: u16x32) -> u16x32
    requires { AreBytes odds }
    ensures value { result ≡ doubled odds }
    ensures bytes { AreBytes result }
{
    odds.swizzle([
        1, 1, 3, 3, 5, 5, 7, 7, 9, 9, 11, 11, 13, 13, 15, 15, 17, 17, 19, 19, 21, 21, 23, 23, 25,
        25, 27, 27, 29, 29, 31, 31,
    ])
}

/// The product of each two lanes as parts of 255, rounded to the nearest. `(t * 257) >> 16` with
/// `t = a * b + 128` takes one high multiply, and equals `(a * b + 127) / 255`.
#[inline(always)]
pub(crate) fn parts(a: u16x32, b: u16x32) -> u16x32
    requires a { AreBytes a }
    requires b { AreBytes b }
    ensures value { result ≡ zip2 mul a b }
    ensures bytes { AreBytes result }
{
    let product = (a * b + u16x32::splat(128)).cast::<u32>();
    ((product * u32x32::splat(257)) >> u32x32::splat(16)).cast::<u16>()
}

/// The first byte of each pair, times 256: red and blue.
#[inline(always)]
pub(crate) fn raised_evens(bytes: u8x64) -> u16x32
    ensures { result ≡ map (λ x. x * 256) (evens bytes) }
{
    u16x32::from_le_bytes(bytes) * u16x32::splat(256)
}

/// The second byte of each pair, times 256: green and alpha.
#[inline(always)]
pub(crate) fn raised_odds(bytes: u8x64) -> u16x32
    ensures { result ≡ map (λ x. x * 256) (odds bytes) }
{
    (u16x32::from_le_bytes(bytes) >> u16x32::splat(8)) * u16x32::splat(256)
}

/// What a byte times 256 is multiplied by, so that the high half of the product has it by parts
/// of 255: 257 times the number, and one more from 128 to 254.
#[inline(always)]
fn factor(by: u8) -> u16
    ensures { result ≡ factor_of by }
{
    u16::from_be_bytes([by, by - by / 255 + by / 128])
}

/// The factor of a number in all lanes.
#[inline(always)]
pub(crate) fn factors(by: u8) -> u16x32
    ensures { AreFactors by result }
{
    u16x32::splat(factor(by))
}

/// The two halves of the lanes, swapped: factors of one number stay as they are. A loop turns its
/// factors at each step, so that the compiler does not see that they never change. It would make
/// them lanes of 32 bits before the loop, and with `--cpu x86-64-v3` then not see that `parts_plus`
/// is one multiply of high halves. The turn itself costs nothing: all lanes are in one register.
#[inline(always)]
pub(crate) fn turned(factors: u16x32) -> u16x32
    ensures { (b : ℕ) → AreFactors b factors → AreFactors b result }
{
    factors.rotate_elements_left::<16>()
}

/// The product of each byte, given times 256, and the number of these factors as parts of 255,
/// rounded to the nearest, plus a byte. `((a * 256 * factor(b) >> 16) + 128) >> 8` takes one
/// multiply of high halves and no other, and equals `(a * b + 127) / 255`.
#[inline(always)]
pub(crate) fn parts_plus(raised: u16x32, factors: u16x32, plus: u16x32) -> u16x32
    ensures value { (b : ℕ) (xs : List ℕ) → b ≤ 255 → AreFactors b factors
        → raised ≡ map (λ x. x * 256) xs → AreBytes xs
        → AreBytes (zip2 (λ x p. p + mul x b) xs plus)
        → result ≡ zip2 (λ x p. p + mul x b) xs plus }
    ensures bytes { AreBytes result }
{
    let product = raised.cast::<u32>() * factors.cast::<u32>();
    let high = (product >> u32x32::splat(16)).cast::<u16>();
    (high + (plus * u16x32::splat(256) + u16x32::splat(128))) >> u16x32::splat(8)
}

/// 255 minus each lane.
#[inline(always)]
pub(crate) fn rest(lanes: u8x64) -> u8x64
    ensures { result ≡ map (λ x. 255 - x) lanes }
{
    u8x64::splat(255) - lanes
}

/// Which of the first eight pixels have an alpha of 128 or more, one bit in four: none if all
/// pixels are transparent, and `ALL_HIGH` if they are opaque.
#[inline(always)]
pub(crate) fn high_alphas(lanes: u8x64) -> u64 {
    let eight = lanes.extract::<0, 32>();
    eight.simd_ge(u8x32::splat(128)).to_bitmask() & ALL_HIGH
}

/// Whether all lanes are 0. If so, all colours are transparent.
#[inline(always)]
pub(crate) fn is_clear(lanes: u8x64) -> bool
    ensures { (cs : List Colour) → AreLanes lanes cs → IsTrue result
        → Each1 (λ c. c ≡ transparent) cs }
{
    lanes.simd_ne(u8x64::splat(0)).to_bitmask() == 0
}

/// Whether each colour has the alpha 255.
#[inline(always)]
pub(crate) fn is_opaque(lanes: u8x64) -> bool
    ensures { (cs : List Colour) → AreLanes lanes cs → IsTrue result → Each1 (λ c. c.a ≡ 255) cs }
{
    lanes.simd_lt(u8x64::from_array(OPAQUE)).to_bitmask() == 0
}
