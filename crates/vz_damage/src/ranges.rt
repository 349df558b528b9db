//! What each range showed during a walk that has ended.
ghost use Rattle.std.specs.Prelude.{◌≡◌, ◌<◌, ◌^◌, [], true, false, Some, slice_get, take};
ghost use Rattle.std.specs.List.{list_any};
ghost use Rattle.vz_rules.specs.Scene.{id_of_frame};
ghost use Rattle.vz_rules.specs.Damage.{of_same_range, shows_other, is_switched};
ghost use Rattle.vz_rules.specs.World.{Aggregation};

use indexmap::IndexMap;
use std::alloc::Global;
use std::marker::Model;
use vz_ids::{SurfaceId, SurfaceRange};
use vz_surfaces::Seen;

/// The ranges that a walk met, each once, in the order in which they were met, and what each
/// showed.
#[derive(Drop)]
pub(crate) struct Ranges {
    pub(crate) shown: IndexMap<SurfaceRange, Option<SurfaceId>>,
}

impl Model for Ranges {
    ghost use Rattle.vz_damage.specs.Measured.{Shown};

    ghost Value = { Shown };

    ghost view = { λ r. r.shown.entries };
}

/// The surface of a frame, if there is a frame.
pub(crate) fn id_of(now: &Option<Seen<'_>>) -> Option<SurfaceId>
    ensures { result ≡ id_of_frame now.now }
{
    match now {
        None => None,
        Some(seen) => Some(seen.id()),
    }
}

/// Whether a range showed nothing before, or another surface than now.
fn shows_other(before: &Option<SurfaceId>, now: &Option<Seen<'_>>) -> bool
    ensures { result ≡ shows_other before.now now.now }
{
    match before {
        None => true,
        Some(id) => match now {
            None => true,
            Some(seen) => *id != seen.id(),
        },
    }
}

/// Whether an entry is of a range, and has the surface that the range shows now.
fn is_entry(
    other: &SurfaceRange,
    before: &Option<SurfaceId>,
    range: &SurfaceRange,
    now: &Option<Seen<'_>>,
) -> bool
    ensures range { result ≡ true → other.now ≡ range.now }
    ensures shown { result ≡ true → before.now ≡ id_of_frame now.now }
    ensures same { result ≡ true → shows_other before.now now.now ≡ false }
{
    *other == *range && !shows_other(before, now)
}

/// Whether the entry at a place is of a range, and has the surface that the range shows now.
pub(crate) fn is_at(
    shown: &IndexMap<SurfaceRange, Option<SurfaceId>>,
    place: usize,
    range: &SurfaceRange,
    now: &Option<Seen<'_>>,
) -> bool
    ensures there { result ≡ true
        → slice_get shown.now.entries place ≡ Some (range.now, id_of_frame now.now) }
    ensures first { result ≡ true → list_any (of_same_range (range.now, id_of_frame now.now))
        (take place shown.now.entries) ≡ false }
    ensures same { result ≡ true → (a : Aggregation) → a.ranges ≡ shown.now.entries
        → is_switched a range.now now.now ≡ false }
    ensures low { result ≡ true → place < 2 ^ 63 }
{
    if shown.len() <= place {
        return false;
    }
    match shown.get_index(place) {
        None => false,
        Some((other, before)) => is_entry(other, before, range, now),
    }
}

impl Ranges {
    /// Creates an empty list. It allocates nothing.
    pub(crate) fn new(alloc: Global) -> Ranges
        ensures { result ≡ [] }
    {
        Ranges {
            shown: IndexMap::new(alloc),
        }
    }

    /// Whether a range was not met in that walk, or showed nothing or another surface than now. It
    /// takes no search if the range was the one at `place`, from 0.
    pub(crate) fn is_switched(
        &self,
        place: usize,
        range: &SurfaceRange,
        now: &Option<Seen<'_>>,
    ) -> bool
        ensures { (a : Aggregation) → a.ranges ≡ self.now
            → result ≡ is_switched a range.now now.now }
    {
        if is_at(&self.shown, place, range, now) {
            return false;
        }
        match self.shown.get(range) {
            None => true,
            Some(before) => shows_other(before, now),
        }
    }
}
