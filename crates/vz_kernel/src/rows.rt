//! Rows of pixels laid over other rows, put in their place, or used as their mask; and the same
//! with one colour in place of a row.
ghost use Rattle.std.specs.Prelude.{◌≡◌, ◌-◌, length, map, List, replicate};
ghost use lib.Lanes.{zip2};
ghost use Rattle.vz_pixels.specs.Colour.{Colour, over, scale};
ghost use Rattle.vz_kernel.specs.Rows.{laid_over, scaled, kept_in, tinted, faded};

use crate::groups::{load, store};
use crate::lanes::{ALL_HIGH, alphas, high_alphas, is_clear, is_opaque, odds, parts};
use crate::mixes::{faded, over, scaled, tinted};
use crate::walks::{Change, Mix, change_row, mix_row};
use std::simd::prelude::*;
use vz_pixels::Pixel;

/// Lays each pixel over the one at its index. Sixteen opaque pixels are copied, and sixteen
/// transparent ones change nothing. These tests are made only if the first eight alphas are all
/// 128 or more, or all less.
#[derive(Clone, Copy)]
struct Over;

impl Mix for Over {
    ghost mixed = { λ _ s d. over s d };

    ghost number = { λ _. 0 };

    #[inline(always)]
    fn number(&self) -> u8 {
        0
    }

    #[inline(always)]
    fn group(&self, dst: &mut [Pixel], src: &[Pixel], at: usize, _factors: u16x32) {
        let top = load(src, at);
        let high = high_alphas(top);
        if high == 0 && is_clear(top) {
            return;
        }
        if high == ALL_HIGH && is_opaque(top) {
            store(dst, at, top);
            return;
        }
        let under = load(dst, at);
        store(dst, at, over(top, under));
    }

    #[inline(always)]
    fn one(&self, src: Pixel, dst: Pixel) -> Pixel {
        src.over(dst)
    }
}

/// Lays each pixel at an opacity over the one at its index. Sixteen transparent pixels change
/// nothing.
#[derive(Clone, Copy)]
struct OverBy {
    opacity: u8,
}

impl Mix for OverBy {
    ghost mixed = { λ m s d. over (scale s m.opacity) d };

    ghost number = { λ m. m.opacity };

    #[inline(always)]
    fn number(&self) -> u8 {
        self.opacity
    }

    #[inline(always)]
    fn group(&self, dst: &mut [Pixel], src: &[Pixel], at: usize, factors: u16x32) {
        let top = load(src, at);
        if high_alphas(top) == 0 && is_clear(top) {
            return;
        }
        let under = load(dst, at);
        store(dst, at, over(faded(top, factors), under));
    }

    #[inline(always)]
    fn one(&self, src: Pixel, dst: Pixel) -> Pixel {
        src.scale(self.opacity).over(dst)
    }
}

/// Puts each pixel at an opacity in the place of the one at its index.
#[derive(Clone, Copy)]
struct SrcBy {
    opacity: u8,
}

impl Mix for SrcBy {
    ghost mixed = { λ m s _. scale s m.opacity };

    ghost number = { λ m. m.opacity };

    #[inline(always)]
    fn number(&self) -> u8 {
        self.opacity
    }

    #[inline(always)]
    fn group(&self, dst: &mut [Pixel], src: &[Pixel], at: usize, factors: u16x32) {
        store(dst, at, faded(load(src, at), factors));
    }

    #[inline(always)]
    fn one(&self, src: Pixel, _dst: Pixel) -> Pixel {
        src.scale(self.opacity)
    }
}

/// Scales each pixel by the alpha of the one at its index of the other row. Sixteen opaque pixels
/// change nothing, and sixteen transparent ones leave transparent.
#[derive(Clone, Copy)]
struct DstIn;

impl Mix for DstIn {
    ghost mixed = { λ _ s d. scale d s.a };

    ghost number = { λ _. 0 };

    #[inline(always)]
    fn number(&self) -> u8 {
        0
    }

    #[inline(always)]
    fn group(&self, dst: &mut [Pixel], src: &[Pixel], at: usize, _factors: u16x32) {
        let top = load(src, at);
        let high = high_alphas(top);
        if high == ALL_HIGH && is_opaque(top) {
            return;
        }
        if high == 0 && is_clear(top) {
            dst[at..at + 16].fill(Pixel::transparent());
            return;
        }
        let under = load(dst, at);
        store(dst, at, scaled(under, alphas(odds(top))));
    }

    #[inline(always)]
    fn one(&self, src: Pixel, dst: Pixel) -> Pixel {
        dst.scale(src.a())
    }
}

/// Scales each pixel by the alpha that the one at its index of the other row has at an opacity.
#[derive(Clone, Copy)]
struct DstInBy {
    opacity: u8,
}

impl Mix for DstInBy {
    ghost mixed = { λ m s d. scale d (scale s m.opacity).a };

    ghost number = { λ _. 0 };

    #[inline(always)]
    fn number(&self) -> u8 {
        0
    }

    #[inline(always)]
    fn group(&self, dst: &mut [Pixel], src: &[Pixel], at: usize, _factors: u16x32) {
        let by = u16x32::splat(u16::from(self.opacity));
        let kept = parts(alphas(odds(load(src, at))), by);
        let under = load(dst, at);
        store(dst, at, scaled(under, kept));
    }

    #[inline(always)]
    fn one(&self, src: Pixel, dst: Pixel) -> Pixel {
        dst.scale(src.scale(self.opacity).a())
    }
}

/// Lays one colour over each pixel.
#[derive(Clone, Copy)]
struct Tint {
    colour: Pixel,
}

impl Change for Tint {
    ghost changed = { λ c d. over c.colour d };

    ghost number = { λ c. 255 - c.colour.a };

    #[inline(always)]
    fn number(&self) -> u8 {
        255 - self.colour.a()
    }

    #[inline(always)]
    fn group(&self, row: &mut [Pixel], at: usize, factors: u16x32) {
        let top = load(&[self.colour; 16], 0);
        let under = load(row, at);
        store(row, at, tinted(top, factors, under));
    }

    #[inline(always)]
    fn one(&self, pixel: Pixel) -> Pixel {
        self.colour.over(pixel)
    }
}

/// Scales each pixel by one alpha.
#[derive(Clone, Copy)]
struct Fade {
    alpha: u8,
}

impl Change for Fade {
    ghost changed = { λ c d. scale d c.alpha };

    ghost number = { λ c. c.alpha };

    #[inline(always)]
    fn number(&self) -> u8 {
        self.alpha
    }

    #[inline(always)]
    fn group(&self, row: &mut [Pixel], at: usize, factors: u16x32) {
        let under = load(row, at);
        store(row, at, faded(under, factors));
    }

    #[inline(always)]
    fn one(&self, pixel: Pixel) -> Pixel {
        pixel.scale(self.alpha)
    }
}

/// Lays each pixel of `src`, at an opacity of 0 to 255, over the one at the same index of `dst`:
/// source-over.
#[inline(never)]
pub fn over_row(dst: &mut [Pixel], src: &[Pixel], opacity: u8)
    requires { length dst.old ≡ length src.now }
    ensures { dst.new ≡ laid_over src.now opacity dst.old }
{
    match opacity {
        0 => {}
        255 => mix_row(&Over, dst, src),
        _ => mix_row(&OverBy { opacity }, dst, src),
    }
}

/// Puts each pixel of `src`, at an opacity of 0 to 255, in the place of the one at the same index
/// of `dst`.
#[inline(never)]
pub fn src_row(dst: &mut [Pixel], src: &[Pixel], opacity: u8)
    requires { length dst.old ≡ length src.now }
    ensures { dst.new ≡ scaled src.now opacity }
{
    if opacity == 255 {
        dst.copy_from_slice(src);
    } else {
        mix_row(&SrcBy { opacity }, dst, src);
    }
}

/// Scales each pixel of `dst` by the alpha that the one at the same index of `src` has at an
/// opacity of 0 to 255.
#[inline(never)]
pub fn dst_in_row(dst: &mut [Pixel], src: &[Pixel], opacity: u8)
    requires { length dst.old ≡ length src.now }
    ensures { dst.new ≡ kept_in src.now opacity dst.old }
{
    match opacity {
        255 => mix_row(&DstIn, dst, src),
        _ => mix_row(&DstInBy { opacity }, dst, src),
    }
}

/// Puts one colour in the place of each pixel.
pub fn fill_row(dst: &mut [Pixel], c: Pixel)
    ensures { dst.new ≡ replicate (length dst.old) c }
{
    dst.fill(c);
}

/// Lays one colour over each pixel: source-over.
#[inline(never)]
pub fn over_fill(dst: &mut [Pixel], c: Pixel)
    ensures { dst.new ≡ tinted c dst.old }
{
    match c.a() {
        0 => {}
        255 => dst.fill(c),
        _ => change_row(&Tint { colour: c }, dst),
    }
}

/// Scales each pixel by the alpha of one colour.
#[inline(never)]
pub fn dst_in_fill(dst: &mut [Pixel], c: Pixel)
    ensures { dst.new ≡ faded c dst.old }
{
    match c.a() {
        0 => dst.fill(Pixel::transparent()),
        255 => {}
        alpha => change_row(&Fade { alpha }, dst),
    }
}
