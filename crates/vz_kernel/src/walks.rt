//! Walks along rows: sixteen pixels at a time, and one at a time for the remainder.
ghost use Rattle.std.specs.Prelude.{◌≡◌, ◌+◌, ◌*◌, ◌≤◌, length, List, map, ℕ};
ghost use lib.Lanes.{zip2, chunk, put_chunk};
ghost use Rattle.vz_pixels.specs.Colour.{Colour};
ghost use Rattle.vz_kernel.specs.Lanes.{AreFactors};
ghost use Rattle.vz_kernel.specs.Rows.{mixed_upto, changed_upto};

use crate::lanes::{factors, turned};
use std::simd::prelude::*;
use vz_pixels::Pixel;

/// How many pixels are taken at a time.
const GROUP: usize = 16;

/// A way to mix the pixels of a row into those of another.
pub(crate) trait Mix {
    /// What a colour becomes when another is mixed into it.
    ghost mixed: { Self → Colour → Colour → Colour };

    /// The number by which it scales all colours, or 0 if there is none.
    ghost number: { Self → ℕ };

    /// That number.
    fn number(&self) -> u8
        ensures { result ≡ number self.now };

    /// Mixes sixteen pixels, from index `at` on, with the factors of its number.
    fn group(&self, dst: &mut [Pixel], src: &[Pixel], at: usize, factors: u16x32)
        requires dst { at + 16 ≤ length dst.old }
        requires src { at + 16 ≤ length src.now }
        requires factors { AreFactors (number self.now) factors }
        ensures { dst.new
            ≡ put_chunk at dst.old (zip2 (mixed self.now) (chunk at 16 src.now) (chunk at 16 dst.old)) };

    /// Mixes one pixel.
    fn one(&self, src: Pixel, dst: Pixel) -> Pixel
        ensures { result ≡ mixed self.now src dst };
}

/// Mixes `count` groups of sixteen pixels of a row into another.
#[inline(always)]
fn mix_groups<M: Mix>(mix: &M, dst: &mut [Pixel], src: &[Pixel], count: usize)
    requires dst { length dst.old ≡ length src.now }
    requires inside { count * 16 ≤ length src.now }
    ensures { dst.new ≡ mixed_upto (M.mixed mix.now) (count * 16) src.now dst.old }
{
    let mut factors = factors(mix.number());
    for k in 0..count {
        mix.group(dst, src, k * GROUP, factors);
        factors = turned(factors);
    }
}

/// Mixes the remainder of a row, from index `from` on.
#[inline(always)]
fn mix_rest<M: Mix>(mix: &M, dst: &mut [Pixel], src: &[Pixel], from: usize)
    requires dst { length dst.old ≡ length src.now }
    requires inside { from ≤ length src.now }
    ensures { (old : List Colour) → dst.old ≡ mixed_upto (M.mixed mix.now) from src.now old
        → dst.new ≡ mixed_upto (M.mixed mix.now) (length src.now) src.now old }
{
    for i in from..src.len() {
        dst[i] = mix.one(src[i], dst[i]);
    }
}

/// Mixes a row into another.
#[inline(always)]
pub(crate) fn mix_row<M: Mix>(mix: &M, dst: &mut [Pixel], src: &[Pixel])
    requires { length dst.old ≡ length src.now }
    ensures { dst.new ≡ zip2 (M.mixed mix.now) src.now dst.old }
{
    let count = src.len() / GROUP;
    mix_groups(mix, dst, src, count);
    mix_rest(mix, dst, src, count * GROUP);
}

/// A way to change the pixels of a row.
pub(crate) trait Change {
    /// What a colour becomes.
    ghost changed: { Self → Colour → Colour };

    /// The number by which it scales colours.
    ghost number: { Self → ℕ };

    /// That number.
    fn number(&self) -> u8
        ensures { result ≡ number self.now };

    /// Changes sixteen pixels, from index `at` on, with the factors of its number.
    fn group(&self, row: &mut [Pixel], at: usize, factors: u16x32)
        requires inside { at + 16 ≤ length row.old }
        requires factors { AreFactors (number self.now) factors }
        ensures { row.new ≡ put_chunk at row.old (map (changed self.now) (chunk at 16 row.old)) };

    /// Changes one pixel.
    fn one(&self, pixel: Pixel) -> Pixel
        ensures { result ≡ changed self.now pixel };
}

/// Changes `count` groups of sixteen pixels of a row.
#[inline(always)]
fn change_groups<C: Change>(change: &C, row: &mut [Pixel], count: usize)
    requires { count * 16 ≤ length row.old }
    ensures { row.new ≡ changed_upto (C.changed change.now) (count * 16) row.old }
{
    let mut factors = factors(change.number());
    for k in 0..count {
        change.group(row, k * GROUP, factors);
        factors = turned(factors);
    }
}

/// Changes the remainder of a row, from index `from` on.
#[inline(always)]
fn change_rest<C: Change>(change: &C, row: &mut [Pixel], from: usize)
    requires { from ≤ length row.old }
    ensures { (old : List Colour) → row.old ≡ changed_upto (C.changed change.now) from old
        → row.new ≡ changed_upto (C.changed change.now) (length old) old }
{
    for i in from..row.len() {
        row[i] = change.one(row[i]);
    }
}

/// Changes a row.
#[inline(always)]
pub(crate) fn change_row<C: Change>(change: &C, row: &mut [Pixel])
    ensures { row.new ≡ map (C.changed change.now) row.old }
{
    let count = row.len() / GROUP;
    change_groups(change, row, count);
    change_rest(change, row, count * GROUP);
}
