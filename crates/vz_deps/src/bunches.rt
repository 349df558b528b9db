//! Unmet dependencies, in bunches. Those of one bunch are found without a look at the others.
ghost use Rattle.std.specs.Prelude.{◌≡◌, ◌≤◌, ◌<◌, ◌+◌, ℕ, Some, None, IsOk, OnOk, OnErr, if◌then◌else◌};
ghost use Rattle.indexmap.specs.IndexMap.{spare as spare_of};
ghost use Rattle.std.specs.Map.{lookup};
ghost use Rattle.vz_deps.specs.declared.bunches.Bunch.{Bunch as BunchOf};
ghost use Rattle.vz_deps.specs.declared.bunches.Seat.{Seat as SeatOf};
ghost use Rattle.vz_deps.specs.declared.bunches.Lack.{Lack as LackOf};
ghost use Rattle.vz_deps.specs.Bunching.{Stands, same_seat, same_lack, same_bunch, size_in, seat_in, seat_of, bunch_of, room_in, sized};

use indexmap::IndexMap;
use std::alloc::Global;
use vz_base::Memory;
use vz_ids::{EmbedToken, FrameSinkId};

/// An unmet dependency: the number of its submission, and its place among the dependencies that
/// the submission lacked when it was blocked.
#[derive(Clone, Copy, PartialEq, Eq, Hash)]
pub(crate) struct Lack {
    pub(crate) order: u64,
    pub(crate) nth: usize,
}

/// The key of a bunch: the surfaces of a sink with one embed token. For a bunch of all surfaces
/// of a sink, the token is the empty one.
#[derive(Clone, Copy, PartialEq, Eq, Hash)]
pub(crate) struct Bunch {
    pub(crate) sink: FrameSinkId,
    pub(crate) token: EmbedToken,
}

/// A seat in a bunch.
#[derive(Clone, Copy, PartialEq, Eq, Hash)]
pub(crate) struct Seat {
    pub(crate) bunch: Bunch,
    pub(crate) at: usize,
}

/// The bunches. In each, the seats from 0 up to its size are taken, each by one dependency.
#[derive(Drop)]
pub(crate) struct Bunches {
    seats: IndexMap<Seat, Lack>,
    seated: IndexMap<Lack, Seat>,
    sizes: IndexMap<Bunch, usize>,
}

impl Bunches {
    /// Creates an empty set of bunches. It allocates nothing.
    pub(crate) fn new(alloc: Global) -> Bunches
        ensures stands { Stands result }
        ensures none { (x : LackOf) → bunch_of result x ≡ None }
    {
        Bunches {
            seats: IndexMap::new(alloc),
            seated: IndexMap::new(alloc),
            sizes: IndexMap::new(alloc),
        }
    }

    /// Makes room for at least `n` more dependencies.
    pub(crate) fn reserve(&mut self, n: usize) -> Result<(), Memory>
        ensures seats { self.new.seats.entries ≡ self.old.seats.entries }
        ensures seated { self.new.seated.entries ≡ self.old.seated.entries }
        ensures sizes { self.new.sizes.entries ≡ self.old.sizes.entries }
        ensures ok { OnOk result (n ≤ room_in self.new) }
        ensures succeeds { n ≤ room_in self.old → IsOk result }
        ensures room { room_in self.old ≤ room_in self.new }
    {
        self.seats.reserve(n)?;
        self.seated.reserve(n)?;
        self.sizes.reserve(n)?;
        Ok(())
    }

    /// How many dependencies are in a bunch.
    pub(crate) fn size(&self, bunch: &Bunch) -> usize
        ensures { result ≡ size_in self.now bunch.now }
    {
        match self.sizes.get(bunch) {
            Some(size) => *size,
            None => 0,
        }
    }

    /// The dependency on a seat, if the seat is taken.
    pub(crate) fn get(&self, seat: &Seat) -> Option<Lack>
        ensures { result ≡ seat_in self.now seat.now }
    {
        self.seats.get(seat).copied()
    }

    /// Puts a dependency into a bunch. Conditions: it is in none, and there is room for one.
    pub(crate) fn put(&mut self, bunch: Bunch, lack: Lack)
        requires stands { Stands self.old }
        requires new { bunch_of self.old lack ≡ None }
        requires room { 0 < room_in self.old }
        ensures stands { Stands self.new }
        ensures bunch { (x : LackOf) → bunch_of self.new x
            ≡ (if same_lack lack x then Some bunch else bunch_of self.old x) }
        ensures room { room_in self.old ≤ room_in self.new + 1 }
    {
        let at = self.size(&bunch);
        let seat = Seat { bunch, at };
        prove!(self.seats.len() < usize::MAX);
        self.seats.insert(seat, lack).unwrap();
        self.seated.insert(lack, seat).unwrap();
        self.sizes.insert(bunch, at + 1).unwrap();
    }

    /// Takes a dependency out of its bunch, if it is in one. The last one of the bunch takes its
    /// seat.
    pub(crate) fn remove(&mut self, lack: &Lack)
        requires stands { Stands self.old }
        ensures stands { Stands self.new }
        ensures bunch { (x : LackOf) → bunch_of self.new x
            ≡ (if same_lack lack.now x then None else bunch_of self.old x) }
        ensures seats { (s : SeatOf) (x : LackOf) → seat_in self.new s ≡ Some x
            → (j : ℕ) × (s.at ≤ j) × (seat_in self.old (record s { at = j }) ≡ Some x) }
        ensures room { room_in self.old ≤ room_in self.new }
    {
        if let Some(seat) = self.seated.swap_remove(lack) {
            let at = shrink(&mut self.sizes, &seat.bunch);
            let last = Seat {
                bunch: seat.bunch,
                at,
            };
            let moved = self.seats.swap_remove(&last);
            if at != seat.at {
                if let Some(moved) = moved {
                    sit(&mut self.seats, &seat, moved);
                    note(&mut self.seated, &moved, seat);
                }
            }
        }
    }
}

/// Lowers the size of a bunch by one and returns the new size. Condition: it was not 0.
fn shrink(sizes: &mut IndexMap<Bunch, usize>, bunch: &Bunch) -> usize
    requires { 0 < sized sizes.old.entries bunch.now }
    ensures size { result + 1 ≡ sized sizes.old.entries bunch.now }
    ensures sizes { (k : BunchOf) → sized sizes.new.entries k
        ≡ (if same_bunch bunch.now k then result else sized sizes.old.entries k) }
    ensures spare { spare_of sizes.old ≤ spare_of sizes.new }
{
    match sizes.get_mut(bunch) {
        Some(size) if *size > 1 => {
            *size -= 1;
            *size
        }
        _ => {
            sizes.swap_remove(bunch);
            0
        }
    }
}

/// Puts another dependency on a seat. Condition: the seat is taken.
fn sit(seats: &mut IndexMap<Seat, Lack>, seat: &Seat, lack: Lack)
    requires { (x : LackOf) × (lookup (same_seat seat.now) seats.old.entries ≡ Some x) }
    ensures seats { (s : SeatOf) → lookup (same_seat s) seats.new.entries
        ≡ (if same_seat seat.now s then Some lack else lookup (same_seat s) seats.old.entries) }
    ensures spare { spare_of seats.old ≤ spare_of seats.new }
{
    if let Some(place) = seats.get_mut(seat) {
        *place = lack;
    }
}

/// Notes another seat of a dependency. Condition: it has one.
fn note(seated: &mut IndexMap<Lack, Seat>, lack: &Lack, seat: Seat)
    requires { (s : SeatOf) × (lookup (same_lack lack.now) seated.old.entries ≡ Some s) }
    ensures seated { (x : LackOf) → lookup (same_lack x) seated.new.entries
        ≡ (if same_lack lack.now x then Some seat else lookup (same_lack x) seated.old.entries) }
    ensures spare { spare_of seated.old ≤ spare_of seated.new }
{
    if let Some(place) = seated.get_mut(lack) {
        *place = seat;
    }
}
