//! The temporary surfaces, each with its last tick.
ghost use Rattle.std.specs.Prelude.{◌≡◌, ◌≤◌, ◌<◌, ◌+◌, ℕ, [], ◌∷◌, ◌++◌, not, map, filter, length, Some, IsOk, OnOk, nat_lt};
ghost use Rattle.std.specs.Prelude.{slice_get, if◌then◌else◌, None};
ghost use Rattle.std.specs.Map.{keys_of};
ghost use Rattle.std.specs.List.{list_any};
ghost use Rattle.vz_refs.specs.declared.temporaries.Numbers.{Numbers as NumbersOf};
ghost use Rattle.indexmap.specs.IndexMap.{spare as spare_of};
ghost use Rattle.vz_ids.specs.declared.SurfaceId.{SurfaceId as SurfaceOf};
ghost use Rattle.vz_ids.specs.Ids.{same_surface};
ghost use Rattle.vz_rules.specs.Reach.{names};
ghost use Rattle.vz_refs.specs.Referring.{unnamed, lasting, of_others};
ghost use Rattle.vz_refs.specs.declared.seats.Name.{Name as NameOf};
ghost use Rattle.vz_refs.specs.Lasting.{AreWithin, Stands, Ends, IsRid, over_at, surface_in, all_in, numbers_in, numbers_or};

use crate::seats::{Kept, Name, Seats};
use indexmap::IndexMap;
use std::alloc::Global;
use std::marker::Model;
use vz_base::Memory;
use vz_ghost::GhostList;
use vz_ids::{FrameSinkId, SurfaceId, SurfaceRange};

/// The numbers of the surfaces with one last tick: from `first` up to, but without, `next`.
#[derive(Clone, Copy)]
pub(crate) struct Numbers {
    pub(crate) first: u64,
    pub(crate) next: u64,
}

/// A temporary surface with its name.
#[derive(Clone, Copy)]
pub(crate) struct Named {
    pub(crate) name: Name,
    pub(crate) id: SurfaceId,
}

/// The temporary surfaces. Contracts see them in the order in which they were added, and the room
/// that was reserved before.
///
/// Each has a name that is used only once. The surfaces that a range names are looked for in one
/// group alone. Those that end at a tick are found by the numbers that were given out for it, so
/// that a tick costs a look at each tick at which some end, and at those that end.
#[derive(Drop)]
pub(crate) struct Temporaries {
    seats: Seats,
    numbers: IndexMap<u32, Numbers>,
    given: u64,
    ever: GhostList<Named>,
}

impl Model for Temporaries {
    ghost use Rattle.std.specs.Prelude.{◌-◌, min};
    ghost use Rattle.indexmap.specs.IndexMap.{spare as spare_of};
    ghost use Rattle.vz_refs.specs.Lasting.{Held, Stands, IsKept, surface_in, numbers_in, lasting_in, room_in, LAST_NUMBER};

    ghost Value = { Held };

    ghost view = { λ a. record {
      list = lasting_in (surface_in a.seats) a.ever;
      spare = min (room_in a.seats) (min (spare_of a.numbers) (LAST_NUMBER - a.given));
    } };

    ghost invariant = { λ a. Stands a.seats
        × IsKept (surface_in a.seats) (numbers_in a.numbers) a.given a.ever };
}

impl Temporaries {
    /// Creates an empty list. It allocates nothing.
    pub(crate) fn new(alloc: Global) -> Temporaries
        ensures { result.list ≡ [] }
    {
        Temporaries {
            seats: Seats::new(alloc),
            numbers: IndexMap::new(alloc),
            given: 0,
            ever: GhostList::new(),
        }
    }

    /// Makes room for one more surface.
    pub(crate) fn reserve(&mut self) -> Result<(), Memory>
        ensures list { self.new.list ≡ self.old.list }
        ensures ok { OnOk result (0 < self.new.spare) }
        ensures succeeds { 0 < self.old.spare → IsOk result }
        ensures spare { self.old.spare ≤ self.new.spare }
    {
        if self.given == u64::MAX {
            return Err(Memory);
        }
        self.seats.reserve()?;
        self.numbers.reserve(1)?;
        Ok(())
    }

    /// How many surfaces are temporary.
    pub(crate) fn len(&self) -> usize
        ensures { result ≡ length self.now.list }
    {
        self.seats.kept.len()
    }

    /// All temporary surfaces by name, in no promised order.
    pub(crate) fn all(&self) -> &IndexMap<Name, Kept>
        ensures ids { (x : SurfaceOf)
            → list_any (same_surface x) (map (λ t. t.id) (all_in result.now.entries))
            ≡ list_any (same_surface x) (map (λ t. t.id) self.now.list) }
        ensures len { length result.now.entries ≡ length self.now.list }
    {
        prove!(self.seats.kept.len() < usize::MAX);
        &self.seats.kept
    }

    /// Makes a surface temporary until a tick. Condition: there is room for it.
    pub(crate) fn keep(&mut self, id: SurfaceId, until: u32)
        requires { 0 < self.old.spare }
        ensures list { self.new.list ≡ self.old.list ++ record { id = id; until = until } ∷ [] }
        ensures spare { self.old.spare ≤ self.new.spare + 1 }
    {
        let Numbers { first, next } = numbers_until(&self.numbers, until, self.given);
        let name = Name {
            until,
            number: next,
        };
        self.seats.put(name, id);
        let numbers = Numbers {
            first,
            next: next + 1,
        };
        self.numbers.insert(until, numbers).unwrap();
        self.given += 1;
        self.ever.show(&Named { name, id });
    }

    /// Ends the temporary surfaces that one of these ranges names.
    pub(crate) fn end_named(&mut self, ranges: &[SurfaceRange])
        ensures list { self.new.list ≡ unnamed ranges.now self.old.list }
        ensures spare { self.old.spare ≤ self.new.spare }
    {
        for range in ranges {
            self.end_one(range);
        }
    }

    /// Ends the temporary surfaces that a range names.
    fn end_one(&mut self, range: &SurfaceRange)
        ensures list { self.new.list ≡ filter (λ t. not (names t.id range.now)) self.old.list }
        ensures spare { self.old.spare ≤ self.new.spare }
    {
        self.seats.end_named(range);
    }

    /// Ends the temporary surfaces whose last tick is `n` or earlier.
    pub(crate) fn tick(&mut self, n: u32)
        ensures list { self.new.list ≡ lasting n self.old.list }
        ensures spare { self.old.spare ≤ self.new.spare }
    {
        end_all(&mut self.seats, &self.numbers, n);
        keep_later(&mut self.numbers, n);
    }

    /// Ends the temporary surfaces of a sink.
    pub(crate) fn sink_gone(&mut self, sink: FrameSinkId)
        ensures list { self.new.list ≡ of_others sink self.old.list }
        ensures spare { self.old.spare ≤ self.new.spare }
    {
        self.seats.end_of(sink);
    }
}

/// The numbers for a last tick. If there are none, they begin after all that were given out.
fn numbers_until(numbers: &IndexMap<u32, Numbers>, until: u32, given: u64) -> Numbers
    ensures { result ≡ numbers_or given (numbers_in numbers.now until) }
{
    match numbers.get(&until) {
        Some(all) => *all,
        None => Numbers {
            first: given,
            next: given,
        },
    }
}

/// Ends the surfaces whose last tick is `tick` or earlier. Condition: `numbers` covers each
/// surface.
fn end_all(seats: &mut Seats, numbers: &IndexMap<u32, Numbers>, tick: u32)
    requires stands { Stands seats.old }
    requires within { AreWithin (surface_in seats.old) (numbers_in numbers.now) }
    ensures ends { Ends (over_at tick) seats.old seats.new }
    ensures rid { IsRid (over_at tick) seats.new }
{
    for at in 0..numbers.len() {
        end_at(seats, numbers, at, tick);
    }
}

/// Ends the surfaces of the last tick at a place of `numbers`, if that tick has come.
fn end_at(seats: &mut Seats, numbers: &IndexMap<u32, Numbers>, at: usize, tick: u32)
    requires stands { Stands seats.old }
    ensures ends { Ends (over_at tick) seats.old seats.new }
    ensures rid { (n : NameOf) (all : NumbersOf)
        → slice_get (keys_of numbers.now.entries) at ≡ Some n.until
        → n.until ≤ tick → numbers_in numbers.now n.until ≡ Some all
        → all.first ≤ n.number → n.number < all.next
        → surface_in seats.new n ≡ None }
{
    if let Some((until, all)) = numbers.get_index(at) {
        if *until <= tick {
            seats.end_until(*until, all.first, all.next);
        }
    }
}

/// Keeps only the numbers for later ticks.
fn keep_later(numbers: &mut IndexMap<u32, Numbers>, tick: u32)
    ensures numbers { (u : ℕ) → numbers_in numbers.new u
        ≡ (if nat_lt tick u then numbers_in numbers.old u else None) }
    ensures spare { spare_of numbers.old ≤ spare_of numbers.new }
{
    numbers.retain(
        |until: &u32, _all: &mut Numbers| -> bool
            ensures { (result ≡ nat_lt tick until.now) × (_all.new ≡ _all.old) }
        { *until > tick },
    );
}
