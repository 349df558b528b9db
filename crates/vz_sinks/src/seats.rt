//! The clients with their sinks, and the begin-frames that are pending.
ghost use Rattle.std.specs.Prelude.{◌≡◌, ◌≤◌, ◌+◌, ◌==◌, [], length, map, vec_len, vec_capacity};
ghost use Rattle.vz_rules.specs.Plan.{has_sink};
ghost use Rattle.vz_sinks.specs.Relating.{seats_from, is_known_in, holds_of, is_own, deliver_to, standing, take_one, close_one};

use crate::reaching::{has_sink, is_same};
use vz_base::limits::MOST_FILES;
use vz_ids::FrameSinkId;

/// A client with its sink and its pending begin-frame.
#[derive(Clone, Copy)]
pub(crate) struct Seat {
    pub(crate) number: u32,
    pub(crate) sink: FrameSinkId,
    pub(crate) closed: bool,
    pub(crate) delivered: Option<u32>,
}

/// Adds a client for each sink, numbered from 1.
pub(crate) fn put_seats(seats: &mut Vec<Seat>, sinks: &[FrameSinkId])
    requires empty { seats.old.items ≡ [] }
    requires few { length sinks.now ≤ MOST_FILES }
    requires room { vec_len seats.old + length sinks.now ≤ vec_capacity seats.old }
    ensures { seats.new.items ≡ seats_from 1 sinks.now }
{
    let mut number = 1;
    for sink in sinks {
        seats.push_reserved(Seat {
            number,
            sink: *sink,
            closed: false,
            delivered: None,
        });
        number += 1;
    }
}

/// Whether some client has this sink.
pub(crate) fn is_known(seats: &[Seat], sink: &FrameSinkId) -> bool
    ensures { result ≡ is_known_in seats.now sink.now }
{
    for seat in seats {
        if is_same(&seat.sink, sink) {
            return true;
        }
    }
    false
}

/// Whether a seat is that of the client with this number.
fn is_of(seat: &Seat, c: u32) -> bool
    ensures { result ≡ (seat.now.number == c) }
{
    seat.number == c
}

/// Whether the client has this sink.
pub(crate) fn is_own(seats: &[Seat], c: u32, sink: &FrameSinkId) -> bool
    ensures { result ≡ is_own seats.now c sink.now }
{
    for seat in seats {
        if is_of(seat, c) {
            return is_same(sink, &seat.sink);
        }
    }
    false
}

/// Whether the client's sink is among these.
pub(crate) fn is_attached(seats: &[Seat], reached: &[FrameSinkId], c: u32) -> bool
    ensures { result ≡ holds_of (λ s. has_sink reached.now s.sink) seats.now c }
{
    for seat in seats {
        if is_of(seat, c) {
            return has_sink(reached, &seat.sink);
        }
    }
    false
}

/// Delivers a begin-frame to each client whose sink is among these and that is not closed.
pub(crate) fn deliver_to_all(seats: &mut [Seat], reached: &[FrameSinkId], n: u32)
    ensures { seats.new ≡ map (λ s. deliver_to (has_sink reached.now s.sink) n s) seats.old }
{
    for seat in seats {
        deliver(seat, reached, n);
    }
}

/// Delivers a begin-frame to a client if its sink is among these and it is not closed.
fn deliver(seat: &mut Seat, reached: &[FrameSinkId], n: u32)
    ensures { seat.new ≡ deliver_to (has_sink reached.now seat.old.sink) n seat.old }
{
    if has_sink(reached, &seat.sink) && !seat.closed {
        seat.delivered = Some(n);
    }
}

/// The pending begin-frame of a client, if it has one.
pub(crate) fn standing(seats: &[Seat], c: u32) -> Option<u32>
    ensures { result ≡ standing seats.now c }
{
    for seat in seats {
        if is_of(seat, c) {
            return seat.delivered;
        }
    }
    None
}

/// Takes the pending begin-frame of a client.
pub(crate) fn take_from(seats: &mut [Seat], c: u32)
    ensures { seats.new ≡ map (take_one c) seats.old }
{
    for seat in seats {
        take_one(seat, c);
    }
}

/// Takes the begin-frame of a seat if it is that of the client.
fn take_one(seat: &mut Seat, c: u32)
    ensures { seat.new ≡ take_one c seat.old }
{
    if seat.number == c {
        seat.delivered = None;
    }
}

/// Closes a client.
pub(crate) fn close_in(seats: &mut [Seat], c: u32)
    ensures { seats.new ≡ map (close_one c) seats.old }
{
    for seat in seats {
        close_one(seat, c);
    }
}

/// Closes a seat if it is that of the client.
fn close_one(seat: &mut Seat, c: u32)
    ensures { seat.new ≡ close_one c seat.old }
{
    if seat.number == c {
        seat.closed = true;
    }
}
