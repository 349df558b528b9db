//! Sixteen colours laid over sixteen others, and scaled, as vectors of their channels.
ghost use Rattle.std.specs.Prelude.{◌≡◌, ◌-◌, ◌≤◌, ℕ, List, length, map, replicate};
ghost use lib.Lanes.{zip2};
ghost use Rattle.vz_pixels.specs.Colour.{Colour, over, scale};
ghost use Rattle.vz_kernel.specs.Lanes.{each_twice, AreBytes, AreFactors, AreLanes};

use crate::lanes::{
    alphas, evens, odds, parts, parts_plus, raised_evens, raised_odds, rest, woven, woven_by_fours,
};
use std::simd::prelude::*;

/// Lays each colour of the first vector over the colour at the same index of the second.
#[inline(always)]
pub(crate) fn over(top: u8x64, under: u8x64) -> u8x64
    ensures { (ss ds : List Colour) → AreLanes top ss → AreLanes under ds
        → AreLanes result (zip2 over ss ds) }
{
    let rest = alphas(odds(rest(top)));
    top + woven_by_fours(parts(evens(under), rest), parts(odds(under), rest))
}

/// Scales each colour by the number that both of its lanes of `by` have.
#[inline(always)]
pub(crate) fn scaled(lanes: u8x64, by: u16x32) -> u8x64
    requires { AreBytes by }
    ensures { (cs : List Colour) (bs : List ℕ) → AreLanes lanes cs → by ≡ each_twice bs
        → AreLanes result (zip2 scale cs bs) }
{
    woven_by_fours(parts(evens(lanes), by), parts(odds(lanes), by))
}

/// Lays one colour over each of the others. Condition: the factors are of 255 minus its alpha.
#[inline(always)]
pub(crate) fn tinted(top: u8x64, factors: u16x32, under: u8x64) -> u8x64
    ensures { (c : Colour) (ds : List Colour) → AreLanes top (replicate (length ds) c)
        → AreFactors (255 - c.a) factors → AreLanes under ds
        → AreLanes result (map (over c) ds) }
{
    woven(
        parts_plus(raised_evens(under), factors, evens(top)),
        parts_plus(raised_odds(under), factors, odds(top)),
    )
}

/// Scales each colour by the number of these factors.
#[inline(always)]
pub(crate) fn faded(lanes: u8x64, factors: u16x32) -> u8x64
    ensures { (b : ℕ) (cs : List Colour) → b ≤ 255 → AreFactors b factors → AreLanes lanes cs
        → AreLanes result (map (λ c. scale c b) cs) }
{
    let none = u16x32::splat(0);
    woven(
        parts_plus(raised_evens(lanes), factors, none),
        parts_plus(raised_odds(lanes), factors, none),
    )
}
