//! The display.
ghost use Rattle.std.specs.Prelude.{◌≡◌, ◌+◌, ◌-◌, ◌^◌, ◌≤◌, ◌*◌, ◌++◌, ◌≤ℤ◌, ◌<ℤ◌, pos, nat_abs, take, drop, length, replicate, None, Some, ◌∷◌, IfOk, OnOk, IsSome, IfSome};
ghost use Rattle.std.specs.List.{flat_map};
ghost use Rattle.vz_geom.specs.Display.{IsDisplaySize};
ghost use Rattle.vz_rules.specs.Frames.{pixel_bytes};
ghost use Rattle.vz_display.specs.Displayed.{HaveSize, current, row_at, first_displayed, last_in, pixels_in, making_in, shown, cost, removed_with};

mod alone;

use arrayvec::ArrayVec;
use std::alloc::Global;
use std::marker::Model;
use std::sync::ledger::Ledger;
use std::thread::Threads;
use vz_base::Memory;
use vz_base::limits::MOST_BUFFERS;
use vz_buffers::{Buffer, Queue, SharedBuffer, Steps};
use vz_geom::Size;
use vz_machine::ThinPicture;

/// A display with 1 to `MOST_BUFFERS` buffers that are painted in turn. It makes a buffer at its
/// first use, and repaints only the stale rectangle of a buffer.
#[derive(Drop)]
pub struct Display {
    size: Size,
    queue: Queue,
    kept: ArrayVec<Option<SharedBuffer>, MOST_BUFFERS>,
    painted: u64,
    removed: u64,
}

impl Model for Display {
    ghost use Rattle.vz_display.specs.Displayed.{DisplayState, IsDisplayed};
    ghost use Rattle.std.specs.Prelude.{◌≡◌};

    ghost Value = { DisplayState };

    ghost view = { λ d. record {
      shown = record { turns = d.queue; kept = d.kept.items; painted = d.painted };
      removed = d.removed;
    } };

    ghost invariant = { λ d. IsDisplayed (record {
      turns = d.queue;
      kept = d.kept.items;
      painted = d.painted;
    }) × (d.size ≡ d.queue.size) };
}

impl Display {
    /// Makes a display that shows nothing yet. Conditions: 1 to `MOST_BUFFERS` buffers, and a
    /// size that a display may have.
    pub fn new(size: Size, buffers: u32) -> Display
        requires from { 1 ≤ buffers }
        requires upto { buffers ≤ MOST_BUFFERS }
        requires size { IsDisplaySize size }
        ensures shown { result.shown ≡ first_displayed size buffers }
        ensures removed { result.removed ≡ 0 }
    {
        Display {
            size,
            queue: Queue::new(buffers, size),
            kept: never_made(buffers),
            painted: 0,
            removed: 0,
        }
    }

    /// Shows a picture whose occluded items were removed. It adds the picture's damage to the
    /// stale rectangle of each buffer, paints the stale rectangle of the next buffer, and makes
    /// that buffer the current one. A large rectangle is painted on several threads. Condition:
    /// the picture has the display's size. The only error is `Memory`; the display may not be used
    /// after it.
    pub fn show<P: ThinPicture, L: Ledger, R: Threads + Sync>(
        &mut self,
        rt: &R,
        alloc: Global,
        p: &P,
        steps: &mut Steps<L>,
    ) -> Result<(), Memory>
        requires { (P.pictured p.now).size ≡ self.old.shown.turns.size }
        ensures shown { OnOk result (self.new.shown ≡ shown self.old.shown (P.pictured p.now)) }
        ensures counted { OnOk result (steps.new ≡ steps.old + cost self.old (P.pictured p.now)) }
        ensures removed { OnOk result (self.new.removed ≡ removed_with self.old (P.gone p.now)) }
    {
        let _proper = p.size();
        self.queue.add_damage(&p.damage());
        let area = self.queue.stale();
        let (mut buffer, made) = next_buffer(alloc, self.size, &mut self.kept, steps)?;
        p.paint(rt, alloc, area, &mut buffer, steps)?;
        let shown = SharedBuffer::new(alloc, buffer)?;
        self.queue.painted();
        self.kept.insert(0, Some(shown));
        self.painted = self
            .painted
            .saturating_add(made)
            .saturating_add(area.area());
        self.removed = self.removed.saturating_add(p.gone());
        Ok(())
    }

    /// The bytes of the current buffer: its rows from top to bottom, and four bytes a pixel, which
    /// are red, green, blue and alpha. Nothing is copied. Condition: a picture was shown.
    pub fn bytes(&self) -> &[u8]
        requires { IsSome (current self.now.shown) }
        ensures { IfSome (current self.now.shown)
            (λ b. result.now ≡ flat_map pixel_bytes b.pixels) }
    {
        match self.kept.first() {
            Some(Some(buffer)) => buffer.bytes(),
            _ => &[],
        }
    }

    /// The current buffer, for somebody else to read. Nothing is copied; but if it is still read
    /// when its turn comes to be painted again, `show` copies it. Condition: a picture was shown.
    /// The only error is `Memory`.
    pub fn share(&self) -> Result<SharedBuffer, Memory>
        requires { IsSome (current self.now.shown) }
        ensures { IfOk result (λ b. current self.now.shown ≡ Some b) }
    {
        match self.kept.first() {
            Some(Some(buffer)) => buffer.share(),
            _ => Err(Memory),
        }
    }

    /// Copies row `y` of the current buffer, four bytes a pixel: red, green, blue and alpha.
    /// Conditions: a picture was shown, the row is one of the display, and `into` has four bytes
    /// for each pixel of the row.
    pub fn row(&self, y: i32, into: &mut [u8])
        requires current { IsSome (current self.now.shown) }
        requires top { pos 0 ≤ℤ y }
        requires bottom { y <ℤ self.now.shown.turns.size.h }
        requires bytes { length into.old ≡ 4 * nat_abs self.now.shown.turns.size.w }
        ensures { IfSome (current self.now.shown)
            (λ b. into.new ≡ flat_map pixel_bytes (row_at b y)) }
    {
        if let Some(Some(buffer)) = self.kept.first() {
            copy_row(buffer, &self.size, y, into);
        }
    }

    /// How many buffers the display has, made or not.
    pub fn buffers(&self) -> usize
        ensures { result ≡ length self.now.shown.kept }
    {
        self.kept.len()
    }

    /// How many steps the pictures shown so far took, or `u64::MAX` if there are more.
    pub fn painted(&self) -> u64
        ensures { result ≡ self.now.shown.painted }
    {
        self.painted
    }

    /// How many occluded items were removed of the pictures shown so far, or `u64::MAX` if there
    /// are more. A group that was removed counts once.
    pub fn removed(&self) -> u64
        ensures { result ≡ self.now.removed }
    {
        self.removed
    }
}

/// The places of `count` buffers that were not made yet.
fn never_made(count: u32) -> ArrayVec<Option<SharedBuffer>, MOST_BUFFERS>
    requires { count ≤ MOST_BUFFERS }
    ensures { result.items ≡ replicate count None }
{
    let mut kept = ArrayVec::new();
    for _ in 0..count {
        kept.push(None);
    }
    kept
}

/// Takes the next buffer, or makes it at its first use, and returns it with the steps for making
/// it. If somebody else still reads it, they keep theirs, and this one is a copy.
fn next_buffer<L: Ledger>(
    alloc: Global,
    size: Size,
    kept: &mut ArrayVec<Option<SharedBuffer>, MOST_BUFFERS>,
    steps: &mut Steps<L>,
) -> Result<(Buffer, u64), Memory>
    requires size { IsDisplaySize size }
    requires sizes { HaveSize size kept.old.items }
    ensures rest { kept.new.items ≡ take (length kept.old.items - 1) kept.old.items }
    ensures size { IfOk result (λ r. r.0.size ≡ size) }
    ensures pixels { IfOk result (λ r. r.0.pixels ≡ pixels_in size (last_in kept.old.items)) }
    ensures made { IfOk result (λ r. r.1 ≡ making_in size (last_in kept.old.items)) }
    ensures counted { OnOk result
        (steps.new ≡ steps.old + making_in size (last_in kept.old.items)) }
{
    match kept.pop() {
        Some(Some(shown)) => {
            let buffer = shown.into_buffer(alloc)?;
            Ok((buffer, 0))
        }
        _ => make(alloc, size, steps),
    }
}

/// Makes a buffer, and returns it with the steps for making it.
fn make<L: Ledger>(alloc: Global, size: Size, steps: &mut Steps<L>) -> Result<(Buffer, u64), Memory>
    requires size { IsDisplaySize size }
    ensures size { IfOk result (λ r. r.0.size ≡ size) }
    ensures pixels { IfOk result (λ r. r.0.pixels ≡ pixels_in size None) }
    ensures made { IfOk result (λ r. r.1 ≡ making_in size None) }
    ensures counted { OnOk result (steps.new ≡ steps.old + making_in size None) }
{
    let buffer = Buffer::new(alloc, size, steps)?;
    let made = size.w.unsigned_abs() as u64 * size.h.unsigned_abs() as u64;
    Ok((buffer, made))
}

/// Copies the bytes of a row of a buffer.
fn copy_row(buffer: &SharedBuffer, size: &Size, y: i32, into: &mut [u8])
    requires same { buffer.now.size ≡ size.now }
    requires top { pos 0 ≤ℤ y }
    requires bottom { y <ℤ size.now.h }
    requires bytes { length into.old ≡ 4 * nat_abs size.now.w }
    ensures { into.new ≡ flat_map pixel_bytes (row_at buffer.now y) }
{
    let width = buffer.size().w.unsigned_abs() as usize;
    let from = y.unsigned_abs() as usize * width;
    into.copy_from_slice(span(buffer.bytes(), 4 * from, 4 * width));
}

/// The `count` bytes from index `from` on.
fn span(bytes: &[u8], from: usize, count: usize) -> &[u8]
    requires { (from + count) ≤ length bytes.now }
    ensures { result.now ≡ take count (drop from bytes.now) }
{
    &bytes[from..from + count]
}
