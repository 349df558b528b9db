//! The threads that take bands out of slots, and how an area is cut into bands.
ghost use Rattle.std.specs.Prelude.{◌≡◌, ◌+◌, ◌≤◌, ◌<◌};
ghost use Rattle.std.specs.Thread.{IsSync, IsSend};
ghost use Rattle.vz_base.specs.declared.limits.TheConstants.{GREATEST_DISPLAY_SIDE};
ghost use Rattle.vz_buffers.specs.Taken.{AreReady, IsBand, IsPlaced, drawn};

use crate::bands::{Band, Place, RowPainter, share};
use crate::slots::{Job, Slots, paint_ready};
use std::thread::{Threads, join_mut};
use vz_pixels::Pixel;

/// Walks the list with each painter, on a thread of its own if one can be started.
/// The caller starts them all, one after the other, and is the last painter.
#[cycle(run)]
fn run<J: Job + Send + Sync, P: RowPainter + Send, R: Threads + Sync, S: Slots<J, P> + Sync>(
    rt: &R,
    slots: &S,
    painters: &mut [P],
)
    requires { AreReady P.able P.strip J.work painters.old }
    ensures { AreReady P.able P.strip J.work painters.new }
{
    if painters.len() == 1 {
        slots.walk(&mut painters[0]);
        return;
    }
    let (ours, theirs) = painters.split_at_mut(1);
    run_both::<J, P, R, S>(rt, slots, ours, theirs);
}

/// Walks the list with two groups of painters at once.
#[cycle(run)]
fn run_both<J: Job + Send + Sync, P: RowPainter + Send, R: Threads + Sync, S: Slots<J, P> + Sync>(
    rt: &R,
    slots: &S,
    ours: &mut [P],
    theirs: &mut [P],
)
    requires ours { AreReady P.able P.strip J.work ours.old }
    requires theirs { AreReady P.able P.strip J.work theirs.old }
    ensures ours { AreReady P.able P.strip J.work ours.new }
    ensures theirs { AreReady P.able P.strip J.work theirs.new }
{
    let mut first = ||
        requires { IsSync R.row × IsSync S.row × IsSend P.row × IsSend J.row × IsSync J.row
            × AreReady P.able P.strip J.work ours.now }
        ensures { AreReady P.able P.strip J.work ours.exit.now }
    { run::<J, P, R, S>(rt, slots, ours) };
    let mut second = ||
        requires { IsSync R.row × IsSync S.row × IsSend P.row × IsSend J.row × IsSync J.row
            × AreReady P.able P.strip J.work theirs.now }
        ensures { AreReady P.able P.strip J.work theirs.exit.now }
    { run::<J, P, R, S>(rt, slots, theirs) };
    join_mut(rt, &mut first, &mut second);
}

/// Lets the painters take the bands of the list, and paints one that no list has.
pub(crate) fn finish<
    J: Job + Send + Sync,
    P: RowPainter + Send,
    R: Threads + Sync,
    S: Slots<J, P> + Sync,
>(rt: &R, slots: &S, place: Place, band: Band, painters: &mut [P], pixels: &mut [Pixel])
    requires ready { AreReady P.able P.strip J.work painters.old }
    requires placed { IsPlaced J.work place }
    requires band { IsBand J.work band.from band.count pixels.old }
    ensures ready { AreReady P.able P.strip J.work painters.new }
    ensures drawn { pixels.new ≡ drawn J.work band.from band.count pixels.old }
{
    run::<J, P, R, S>(rt, slots, painters);
    paint_ready::<J, P>(&mut painters[0], place, band, pixels);
}

/// A band in two parts.
#[derive(Clone, Copy)]
pub(crate) struct Parts {
    pub(crate) now: Band,
    pub(crate) later: Band,
}

/// Cuts a band in two: the first part is one of so many equal ones.
pub(crate) fn cut(band: Band, parts: usize) -> Parts
    requires parts { 0 < parts }
    requires few { (band.from + band.count) ≤ GREATEST_DISPLAY_SIDE }
    ensures from { result.now.from ≡ band.from }
    ensures later { result.later.from ≡ band.from + result.now.count }
    ensures all { result.now.count + result.later.count ≡ band.count }
{
    let count = share(band.count, 1, parts);
    Parts {
        now: Band {
            from: band.from,
            count,
        },
        later: Band {
            from: band.from + count,
            count: band.count - count,
        },
    }
}
