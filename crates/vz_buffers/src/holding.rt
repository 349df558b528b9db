//! The bands of an area, twelve at most, each in a slot of its own while threads take them.
//!
//! A function that picks what its callee's slot holds may not call itself, so that there is one for
//! each band. The first bands are the larger ones: the last ones even out who is done when.
ghost use Rattle.std.specs.Prelude.{◌≡◌};
ghost use Rattle.vz_buffers.specs.Taken.{AreReady, IsBand, IsPlaced, MayHold, IsHeld, drawn};

use crate::bands::{Band, Place, RowPainter, pixels_in};
use crate::crew::{Parts, cut, finish};
use crate::slots::{Cons, Job, Nil, Slot, Slots, Target, end_band};
use std::marker::{Brand, PhantomData};
use std::sync::Mutex;
use std::thread::Threads;
use vz_pixels::Pixel;

/// Where the rows of a job stand, and what starts the threads.
#[derive(Drop)]
struct Site<'a, J: Job, R> {
    rt: &'a R,
    place: Place,
    of: PhantomData<J>,
    ghost placed: { IsPlaced J.work place },
}

/// Paints a band with all painters: they take its parts one by one, so that a thread which begins
/// late is not waited for.
pub(crate) fn paint_job<J: Job + Send + Sync, P: RowPainter + Send, R: Threads + Sync>(
    rt: &R,
    place: Place,
    band: Band,
    painters: &mut [P],
    pixels: &mut [Pixel],
)
    requires ready { AreReady P.able P.strip J.work painters.old }
    requires placed { IsPlaced J.work place }
    requires band { IsBand J.work band.from band.count pixels.old }
    ensures drawn { pixels.new ≡ drawn J.work band.from band.count pixels.old }
{
    let site: Site<'_, J, R> = Site {
        rt,
        place,
        of: PhantomData,
    };
    let parts = cut(band, 7);
    let (top, bottom) = pixels.split_at_mut(pixels_in(place.width, parts.now.count as usize));
    let _ = site.first::<Brand, P, Nil>(&Nil, parts, painters, top, bottom);
}

/// Holds the first of two parts in a slot while the next function holds what it cuts off the rest,
/// one of so many equal parts. Then it is painted, if no thread took it.
macro_rules! hold {
    ($site:expr, $next:ident, $of:literal, $slots:ident, $parts:ident, $painters:ident,
        $chunk:ident, $rest:ident) => {{
        let slot: Mutex<Slot<'p, J, G>> = Mutex::new(Slot::new($site.place, $parts.now, $chunk));
        let list = Cons {
            slot: &slot,
            rest: $slots,
        };
        let parts = cut($parts.later, $of);
        let (top, bottom) =
            $rest.split_at_mut(pixels_in($site.place.width, parts.now.count as usize));
        let _ =
            $site.$next::<Brand, P, Cons<'_, 'p, J, G, S>>(&list, parts, $painters, top, bottom);
        let Slot {
            chunk,
            place: _,
            band: _,
            done,
            of: _,
            by: _,
        } = slot.into_inner();
        end_band::<J, G, P>(&mut $painters[0], $site.place, $parts.now, done, chunk);
        chunk
    }};
}

impl<J: Job + Send + Sync, R: Threads + Sync> Site<'_, J, R> {
    /// Holds the first band while threads take the bands.
    fn first<'p, G: Target + Send + Sync, P: RowPainter + Send, S: Slots<J, P> + Sync>(
        &self,
        slots: &S,
        parts: Parts,
        painters: &mut [P],
        chunk: &'p mut [Pixel],
        rest: &mut [Pixel],
    ) -> &'p mut [Pixel]
        requires { MayHold P.able P.strip J.work G.aim parts painters.old chunk.ghost_name
            chunk.old rest.old }
        ensures ready { AreReady P.able P.strip J.work painters.new }
        ensures held { IsHeld J.work G.aim chunk.entry.ghost_name result.ghost_name result.now }
        ensures rest { rest.new ≡ drawn J.work parts.later.from parts.later.count rest.old }
    {
        hold!(self, second, 6, slots, parts, painters, chunk, rest)
    }

    /// Holds the second band while threads take the bands.
    fn second<'p, G: Target + Send + Sync, P: RowPainter + Send, S: Slots<J, P> + Sync>(
        &self,
        slots: &S,
        parts: Parts,
        painters: &mut [P],
        chunk: &'p mut [Pixel],
        rest: &mut [Pixel],
    ) -> &'p mut [Pixel]
        requires { MayHold P.able P.strip J.work G.aim parts painters.old chunk.ghost_name
            chunk.old rest.old }
        ensures ready { AreReady P.able P.strip J.work painters.new }
        ensures held { IsHeld J.work G.aim chunk.entry.ghost_name result.ghost_name result.now }
        ensures rest { rest.new ≡ drawn J.work parts.later.from parts.later.count rest.old }
    {
        hold!(self, third, 5, slots, parts, painters, chunk, rest)
    }

    /// Holds the third band while threads take the bands.
    fn third<'p, G: Target + Send + Sync, P: RowPainter + Send, S: Slots<J, P> + Sync>(
        &self,
        slots: &S,
        parts: Parts,
        painters: &mut [P],
        chunk: &'p mut [Pixel],
        rest: &mut [Pixel],
    ) -> &'p mut [Pixel]
        requires { MayHold P.able P.strip J.work G.aim parts painters.old chunk.ghost_name
            chunk.old rest.old }
        ensures ready { AreReady P.able P.strip J.work painters.new }
        ensures held { IsHeld J.work G.aim chunk.entry.ghost_name result.ghost_name result.now }
        ensures rest { rest.new ≡ drawn J.work parts.later.from parts.later.count rest.old }
    {
        hold!(self, fourth, 5, slots, parts, painters, chunk, rest)
    }

    /// Holds the fourth band while threads take the bands.
    fn fourth<'p, G: Target + Send + Sync, P: RowPainter + Send, S: Slots<J, P> + Sync>(
        &self,
        slots: &S,
        parts: Parts,
        painters: &mut [P],
        chunk: &'p mut [Pixel],
        rest: &mut [Pixel],
    ) -> &'p mut [Pixel]
        requires { MayHold P.able P.strip J.work G.aim parts painters.old chunk.ghost_name
            chunk.old rest.old }
        ensures ready { AreReady P.able P.strip J.work painters.new }
        ensures held { IsHeld J.work G.aim chunk.entry.ghost_name result.ghost_name result.now }
        ensures rest { rest.new ≡ drawn J.work parts.later.from parts.later.count rest.old }
    {
        hold!(self, fifth, 5, slots, parts, painters, chunk, rest)
    }

    /// Holds the fifth band while threads take the bands.
    fn fifth<'p, G: Target + Send + Sync, P: RowPainter + Send, S: Slots<J, P> + Sync>(
        &self,
        slots: &S,
        parts: Parts,
        painters: &mut [P],
        chunk: &'p mut [Pixel],
        rest: &mut [Pixel],
    ) -> &'p mut [Pixel]
        requires { MayHold P.able P.strip J.work G.aim parts painters.old chunk.ghost_name
            chunk.old rest.old }
        ensures ready { AreReady P.able P.strip J.work painters.new }
        ensures held { IsHeld J.work G.aim chunk.entry.ghost_name result.ghost_name result.now }
        ensures rest { rest.new ≡ drawn J.work parts.later.from parts.later.count rest.old }
    {
        hold!(self, sixth, 4, slots, parts, painters, chunk, rest)
    }

    /// Holds the sixth band while threads take the bands.
    fn sixth<'p, G: Target + Send + Sync, P: RowPainter + Send, S: Slots<J, P> + Sync>(
        &self,
        slots: &S,
        parts: Parts,
        painters: &mut [P],
        chunk: &'p mut [Pixel],
        rest: &mut [Pixel],
    ) -> &'p mut [Pixel]
        requires { MayHold P.able P.strip J.work G.aim parts painters.old chunk.ghost_name
            chunk.old rest.old }
        ensures ready { AreReady P.able P.strip J.work painters.new }
        ensures held { IsHeld J.work G.aim chunk.entry.ghost_name result.ghost_name result.now }
        ensures rest { rest.new ≡ drawn J.work parts.later.from parts.later.count rest.old }
    {
        hold!(self, seventh, 4, slots, parts, painters, chunk, rest)
    }

    /// Holds the seventh band while threads take the bands.
    fn seventh<'p, G: Target + Send + Sync, P: RowPainter + Send, S: Slots<J, P> + Sync>(
        &self,
        slots: &S,
        parts: Parts,
        painters: &mut [P],
        chunk: &'p mut [Pixel],
        rest: &mut [Pixel],
    ) -> &'p mut [Pixel]
        requires { MayHold P.able P.strip J.work G.aim parts painters.old chunk.ghost_name
            chunk.old rest.old }
        ensures ready { AreReady P.able P.strip J.work painters.new }
        ensures held { IsHeld J.work G.aim chunk.entry.ghost_name result.ghost_name result.now }
        ensures rest { rest.new ≡ drawn J.work parts.later.from parts.later.count rest.old }
    {
        hold!(self, eighth, 4, slots, parts, painters, chunk, rest)
    }

    /// Holds the eighth band while threads take the bands.
    fn eighth<'p, G: Target + Send + Sync, P: RowPainter + Send, S: Slots<J, P> + Sync>(
        &self,
        slots: &S,
        parts: Parts,
        painters: &mut [P],
        chunk: &'p mut [Pixel],
        rest: &mut [Pixel],
    ) -> &'p mut [Pixel]
        requires { MayHold P.able P.strip J.work G.aim parts painters.old chunk.ghost_name
            chunk.old rest.old }
        ensures ready { AreReady P.able P.strip J.work painters.new }
        ensures held { IsHeld J.work G.aim chunk.entry.ghost_name result.ghost_name result.now }
        ensures rest { rest.new ≡ drawn J.work parts.later.from parts.later.count rest.old }
    {
        hold!(self, ninth, 3, slots, parts, painters, chunk, rest)
    }

    /// Holds the ninth band while threads take the bands.
    fn ninth<'p, G: Target + Send + Sync, P: RowPainter + Send, S: Slots<J, P> + Sync>(
        &self,
        slots: &S,
        parts: Parts,
        painters: &mut [P],
        chunk: &'p mut [Pixel],
        rest: &mut [Pixel],
    ) -> &'p mut [Pixel]
        requires { MayHold P.able P.strip J.work G.aim parts painters.old chunk.ghost_name
            chunk.old rest.old }
        ensures ready { AreReady P.able P.strip J.work painters.new }
        ensures held { IsHeld J.work G.aim chunk.entry.ghost_name result.ghost_name result.now }
        ensures rest { rest.new ≡ drawn J.work parts.later.from parts.later.count rest.old }
    {
        hold!(self, tenth, 3, slots, parts, painters, chunk, rest)
    }

    /// Holds the tenth band while threads take the bands.
    fn tenth<'p, G: Target + Send + Sync, P: RowPainter + Send, S: Slots<J, P> + Sync>(
        &self,
        slots: &S,
        parts: Parts,
        painters: &mut [P],
        chunk: &'p mut [Pixel],
        rest: &mut [Pixel],
    ) -> &'p mut [Pixel]
        requires { MayHold P.able P.strip J.work G.aim parts painters.old chunk.ghost_name
            chunk.old rest.old }
        ensures ready { AreReady P.able P.strip J.work painters.new }
        ensures held { IsHeld J.work G.aim chunk.entry.ghost_name result.ghost_name result.now }
        ensures rest { rest.new ≡ drawn J.work parts.later.from parts.later.count rest.old }
    {
        hold!(self, eleventh, 2, slots, parts, painters, chunk, rest)
    }

    /// Holds the eleventh band while threads take the bands.
    fn eleventh<'p, G: Target + Send + Sync, P: RowPainter + Send, S: Slots<J, P> + Sync>(
        &self,
        slots: &S,
        parts: Parts,
        painters: &mut [P],
        chunk: &'p mut [Pixel],
        rest: &mut [Pixel],
    ) -> &'p mut [Pixel]
        requires { MayHold P.able P.strip J.work G.aim parts painters.old chunk.ghost_name
            chunk.old rest.old }
        ensures ready { AreReady P.able P.strip J.work painters.new }
        ensures held { IsHeld J.work G.aim chunk.entry.ghost_name result.ghost_name result.now }
        ensures rest { rest.new ≡ drawn J.work parts.later.from parts.later.count rest.old }
    {
        hold!(self, twelfth, 1, slots, parts, painters, chunk, rest)
    }

    /// Holds the twelfth band while threads take the bands.
    fn twelfth<'p, G: Target + Send + Sync, P: RowPainter + Send, S: Slots<J, P> + Sync>(
        &self,
        slots: &S,
        parts: Parts,
        painters: &mut [P],
        chunk: &'p mut [Pixel],
        rest: &mut [Pixel],
    ) -> &'p mut [Pixel]
        requires { MayHold P.able P.strip J.work G.aim parts painters.old chunk.ghost_name
            chunk.old rest.old }
        ensures ready { AreReady P.able P.strip J.work painters.new }
        ensures held { IsHeld J.work G.aim chunk.entry.ghost_name result.ghost_name result.now }
        ensures rest { rest.new ≡ drawn J.work parts.later.from parts.later.count rest.old }
    {
        let slot: Mutex<Slot<'p, J, G>> = Mutex::new(Slot::new(self.place, parts.now, chunk));
        let list = Cons {
            slot: &slot,
            rest: slots,
        };
        finish::<J, P, R, Cons<'_, 'p, J, G, S>>(
            self.rt,
            &list,
            self.place,
            parts.later,
            painters,
            rest,
        );
        let Slot {
            chunk,
            place: _,
            band: _,
            done,
            of: _,
            by: _,
        } = slot.into_inner();
        end_band::<J, G, P>(&mut painters[0], self.place, parts.now, done, chunk);
        chunk
    }
}
