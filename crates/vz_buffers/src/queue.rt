//! The queue of the buffers of a display, like Chromium's `BufferQueue`.
ghost use Rattle.std.specs.Prelude.{◌≡◌, ◌≤◌, ◌-◌, map, replicate, Some, None, ◌∷◌, length, take};
ghost use Rattle.std.specs.Option.{option_map};
ghost use Rattle.vz_geom.specs.Rectangle.{join, no_rectangle};
ghost use Rattle.vz_geom.specs.Display.{IsDisplaySize};
ghost use Rattle.vz_buffers.specs.Turns.{AreTurns, first_turns, stale_of, damaged, turned};

use arrayvec::ArrayVec;
use std::marker::Model;
use vz_base::limits::MOST_BUFFERS;
use vz_geom::{Rect, Size};

/// Which of the buffers of a display is painted next, and which rectangle of each is stale: it
/// changed after the buffer was last painted.
#[derive(Drop)]
pub struct Queue {
    size: Size,
    next: u32,
    stales: ArrayVec<Option<Rect>, MOST_BUFFERS>,
}

impl Model for Queue {
    ghost use Rattle.vz_buffers.specs.Turns.{Turns, AreTurns};

    ghost Value = { Turns };

    ghost view = { λ q. record { size = q.size; next = q.next; stales = q.stales.items } };

    ghost invariant = { λ q. AreTurns (record {
      size = q.size;
      next = q.next;
      stales = q.stales.items;
    }) };
}

impl Queue {
    /// Makes the queue of `count` buffers that were never painted. Conditions: 1 to
    /// `MOST_BUFFERS` buffers, and a size that a display may have.
    pub fn new(count: u32, size: Size) -> Queue
        requires from { 1 ≤ count }
        requires upto { count ≤ MOST_BUFFERS }
        requires size { IsDisplaySize size }
        ensures { result ≡ first_turns size count }
    {
        Queue {
            size,
            next: 0,
            stales: never_painted(count),
        }
    }

    /// The number of the buffer that is painted next, from 0 on.
    pub fn next(&self) -> u32
        ensures value { result ≡ self.now.next }
        ensures proper { AreTurns self.now }
    {
        self.next
    }

    /// The stale rectangle of the next buffer: the whole display if it was never painted, and
    /// else the smallest rectangle around the damages since it was painted.
    #[tactic(auto, unfolding(crate::specs::Turns::stale_of))]
    pub fn stale(&self) -> Rect
        ensures { result ≡ stale_of self.now }
    {
        match self.stales.last() {
            Some(Some(stale)) => *stale,
            _ => Rect::of_display(self.size),
        }
    }

    /// Adds a damage to the stale rectangle of each buffer.
    #[tactic(auto, unfolding(crate::specs::Turns::damaged))]
    pub fn add_damage(&mut self, r: &Rect)
        ensures { self.new ≡ damaged self.old r.now }
    {
        add_to_all(self.stales.as_mut_slice(), r);
    }

    /// Notes that the next buffer was painted: its stale rectangle becomes empty, and the buffer
    /// after it is next.
    #[tactic(auto, unfolding(crate::specs::Turns::turned))]
    pub fn painted(&mut self)
        ensures { self.new ≡ turned self.old }
    {
        self.next = (self.next + 1) % self.stales.len() as u32;
        turn(&mut self.stales);
    }
}

/// The stale rectangles of `count` buffers that were never painted. None means the whole display.
fn never_painted(count: u32) -> ArrayVec<Option<Rect>, MOST_BUFFERS>
    requires { count ≤ MOST_BUFFERS }
    ensures { result.items ≡ replicate count None }
{
    let mut stales = ArrayVec::new();
    for _ in 0..count {
        stales.push(None);
    }
    stales
}

/// Moves the last of them to the front, with an empty stale rectangle.
fn turn(stales: &mut ArrayVec<Option<Rect>, MOST_BUFFERS>)
    requires some { 1 ≤ length stales.old.items }
    requires room { length stales.old.items ≤ MOST_BUFFERS }
    ensures { stales.new.items
        ≡ Some no_rectangle ∷ take (length stales.old.items - 1) stales.old.items }
{
    stales.pop();
    stales.insert(0, Some(Rect::empty()));
}

/// Adds a damage to the stale rectangle of each buffer that was ever painted.
fn add_to_all(stales: &mut [Option<Rect>], r: &Rect)
    ensures { stales.new ≡ map (option_map (join r.now)) stales.old }
{
    for stale in stales {
        add_to(stale, r);
    }
}

/// Adds a damage to a stale rectangle, if its buffer was ever painted.
fn add_to(stale: &mut Option<Rect>, r: &Rect)
    ensures { stale.new ≡ option_map (join r.now) stale.old }
{
    if let Some(old) = *stale {
        *stale = Some(r.bound(&old));
    }
}
