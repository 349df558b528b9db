//! Bands of rows behind locks, which the painting threads take one by one.
//!
//! What a lock gives back is known by its type alone. So the type of a slot has a parameter that
//! says which band it holds, and each call that puts a band into a slot picks it.
ghost use Rattle.std.specs.Prelude.{◌≡◌, []};
ghost use Rattle.vz_buffers.specs.Taken.{Work, Aim, IsReady, IsPlaced, IsBand, drawn, drawn_if, no_strip};

use crate::bands::{Band, Place, RowPainter, paint_band};
use std::marker::{Brand, PhantomData};
use std::sync::Mutex;
use vz_pixels::Pixel;

/// What all bands of a call have in common.
pub(crate) trait Job {
    /// The rows, and where they stand.
    ghost work: { Work };
}

impl Job for Brand {
    ghost work = { record { width = 0; left = 0; wide = 0; strip = no_strip } };
}

/// One band.
pub(crate) trait Target {
    /// Its pixels, and which of the rows are theirs.
    ghost aim: { Aim };
}

impl Target for Brand {
    ghost aim = { record { name = 0; before = []; from = 0; count = 0 } };
}

/// A band that is painted or waits for it.
pub(crate) struct Slot<'p, J: Job, G: Target> {
    pub(crate) chunk: &'p mut [Pixel],
    pub(crate) place: Place,
    pub(crate) band: Band,
    pub(crate) done: bool,
    pub(crate) of: PhantomData<J>,
    pub(crate) by: PhantomData<G>,
    ghost same: { chunk.ghost_name ≡ G.aim.name },
    ghost placed: { IsPlaced J.work place },
    ghost first: { band.from ≡ G.aim.from },
    ghost many: { band.count ≡ G.aim.count },
    ghost whole: { IsBand J.work G.aim.from G.aim.count G.aim.before },
    ghost state: { chunk.now ≡ drawn_if done J.work G.aim.from G.aim.count G.aim.before },
}

impl<'p, J: Job, G: Target> Slot<'p, J, G> {
    /// A band that waits.
    pub(crate) fn new(place: Place, band: Band, chunk: &'p mut [Pixel]) -> Slot<'p, J, G>
        requires placed { IsPlaced J.work place }
        requires name { chunk.ghost_name ≡ G.aim.name }
        requires before { chunk.now ≡ G.aim.before }
        requires from { band.from ≡ G.aim.from }
        requires count { band.count ≡ G.aim.count }
        requires band { IsBand J.work G.aim.from G.aim.count G.aim.before }
        ensures same { result.chunk.ghost_name ≡ chunk.entry.ghost_name }
    {
        Slot {
            chunk,
            place,
            band,
            done: false,
            of: PhantomData,
            by: PhantomData,
        }
    }
}

/// Paints the rows of a band.
pub(crate) fn paint_ready<J: Job, P: RowPainter>(
    painter: &mut P,
    place: Place,
    band: Band,
    pixels: &mut [Pixel],
)
    requires ready { IsReady P.able P.strip J.work painter.old }
    requires placed { IsPlaced J.work place }
    requires band { IsBand J.work band.from band.count pixels.old }
    ensures ready { IsReady P.able P.strip J.work painter.new }
    ensures drawn { pixels.new ≡ drawn J.work band.from band.count pixels.old }
{
    paint_band(place, band, painter, pixels);
}

/// Paints a band that waits, if no other thread has it.
fn try_slot<J: Job, G: Target, P: RowPainter>(slot: &Mutex<Slot<'_, J, G>>, painter: &mut P)
    requires { IsReady P.able P.strip J.work painter.old }
    ensures { IsReady P.able P.strip J.work painter.new }
{
    if let Some(mut guard) = slot.try_lock() {
        let slot = &mut *guard;
        if !slot.done {
            paint_ready::<J, P>(painter, slot.place, slot.band, slot.chunk);
            slot.done = true;
        }
    }
}

/// Ends a band: paints it if no thread did.
pub(crate) fn end_band<J: Job, G: Target, P: RowPainter>(
    painter: &mut P,
    place: Place,
    band: Band,
    done: bool,
    chunk: &mut [Pixel],
)
    requires ready { IsReady P.able P.strip J.work painter.old }
    requires placed { IsPlaced J.work place }
    requires from { band.from ≡ G.aim.from }
    requires count { band.count ≡ G.aim.count }
    requires band { IsBand J.work G.aim.from G.aim.count G.aim.before }
    requires state { chunk.old ≡ drawn_if done J.work G.aim.from G.aim.count G.aim.before }
    ensures ready { IsReady P.able P.strip J.work painter.new }
    ensures drawn { chunk.new ≡ drawn J.work G.aim.from G.aim.count G.aim.before }
{
    if done {
        return;
    }
    paint_ready::<J, P>(painter, place, band, chunk);
}

/// Slots in a list.
pub(crate) trait Slots<J: Job, P: RowPainter> {
    /// Paints each band that waits and that no other thread has.
    fn walk(&self, painter: &mut P)
        requires { IsReady P.able P.strip J.work painter.old }
        ensures { IsReady P.able P.strip J.work painter.new };
}

/// No slot.
#[derive(Drop)]
pub(crate) struct Nil;

impl<J: Job, P: RowPainter> Slots<J, P> for Nil {
    fn walk(&self, _painter: &mut P) {}
}

/// A slot behind others.
#[derive(Drop)]
pub(crate) struct Cons<'a, 'p, J: Job, G: Target, S> {
    pub(crate) slot: &'a Mutex<Slot<'p, J, G>>,
    pub(crate) rest: &'a S,
}

impl<'a, 'p, J: Job, G: Target, P: RowPainter, S: Slots<J, P>> Slots<J, P>
    for Cons<'a, 'p, J, G, S> {
    fn walk(&self, painter: &mut P) {
        self.rest.walk(painter);
        try_slot(self.slot, painter);
    }
}
