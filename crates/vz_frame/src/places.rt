//! The indices of ids in a list.
ghost use Rattle.std.specs.Prelude.{◌≡◌, ◌≤◌, ◌==◌, ℕ, length, map, IfSome};
ghost use Rattle.vz_frame.specs.Frame.{has_repeat};
ghost use Rattle.vz_frame.specs.Pairs.{get};
ghost use Rattle.vz_frame.specs.Places.{first_place};

use crate::id_map::IdMap;
use crate::{Listing, RenderPass};
use std::marker::Model;
use vz_base::limits::MOST_RESOURCES;

/// A value with an id that should differ from those of its kind: a pass among the passes of a
/// frame, or a resource among those that it lists.
pub trait HasId {
    ghost id_of: { Self → ℕ };

    fn id(&self) -> u32
        ensures { result ≡ id_of self.now };
}

impl HasId for RenderPass {
    ghost id_of = { λ pass. pass.id };

    fn id(&self) -> u32 {
        self.id
    }
}

impl HasId for Listing {
    ghost id_of = { λ listing. listing.id };

    fn id(&self) -> u32 {
        self.id
    }
}

/// A list shorter than this is scanned, which takes less time than to make a map of it.
const FEW: usize = 16;

/// The ids of a list with their first indices, and whether an id occurs twice.
#[derive(Drop)]
pub struct Index {
    places: IdMap,
    repeats: bool,
}

/// A list whose values are found by their ids, through a map that somebody else holds, so that
/// nobody moves it. Without a map the list is scanned.
#[derive(Drop)]
pub struct Places<'a, T: HasId> {
    items: &'a [T],
    index: Option<&'a Index>,
    repeats: bool,
}

impl<'a, T: HasId> Model for Places<'a, T> {
    ghost use Rattle.std.specs.Prelude.{◌≡◌, ◌==◌, ℕ, List, map, IfSome};
    ghost use Rattle.vz_frame.specs.Frame.{has_repeat};
    ghost use Rattle.vz_frame.specs.Pairs.{get};
    ghost use Rattle.vz_frame.specs.Places.{first_place};

    ghost Value = { List T };

    ghost view = { λ p. p.items.now };

    ghost invariant = { λ p. (p.repeats ≡ has_repeat (λ a b. b == a) (map T.id_of p.items.now))
        × IfSome p.index (λ m. (n : ℕ) → get m.now.places n
        ≡ first_place n (map T.id_of p.items.now)) };
}

impl<'a, T: HasId> Places<'a, T> {
    ghost use Rattle.std.specs.Prelude.{◌≡◌, ◌==◌, ℕ, map, take, find, IfSome};
    ghost use Rattle.std.specs.List.{list_any};
    ghost use Rattle.std.specs.Option.{option_copied};
    ghost use Rattle.vz_frame.specs.Frame.{has_repeat};
    ghost use Rattle.vz_frame.specs.Pairs.{get};
    ghost use Rattle.vz_frame.specs.Places.{first_place};

    /// The values of a list, which are scanned.
    pub fn scanned(items: &'a [T]) -> Places<'a, T>
        ensures { result ≡ items.now }
    {
        let repeats = scan_repeats(items);
        Places {
            items,
            index: None,
            repeats,
        }
    }

    /// The values of a list, which are found through its map if it has one.
    pub fn of(items: &'a [T], index: &'a Option<Index>) -> Places<'a, T>
        requires { IfSome index.now (λ m. (m.repeats
            ≡ has_repeat (λ a b. b == a) (map T.id_of items.now))
            × ((n : ℕ) → get m.places n ≡ first_place n (map T.id_of items.now))) }
        ensures { result ≡ items.now }
    {
        match index {
            None => Places::scanned(items),
            Some(index) => Places {
                items,
                index: Some(index),
                repeats: index.repeats,
            },
        }
    }

    /// Whether two values have the same id.
    pub fn has_repeat(&self) -> bool
        ensures { result ≡ has_repeat (λ a b. T.id_of b == T.id_of a) self.now }
    {
        self.repeats
    }

    /// The first value that has this id, if there is one.
    pub fn find(&self, id: u32) -> Option<&'a T>
        ensures { option_copied result ≡ find (λ x. T.id_of x == id) self.now }
    {
        match self.first(id) {
            Some(place) => self.items.get(place),
            None => None,
        }
    }

    /// Whether a value before index `place` has this id.
    pub fn has_before(&self, id: u32, place: usize) -> bool
        ensures { result ≡ list_any (λ x. T.id_of x == id) (take place self.now) }
    {
        match self.first(id) {
            Some(first) => first < place,
            None => false,
        }
    }

    /// The first index with this id, if there is one.
    fn first(&self, id: u32) -> Option<usize>
        ensures { result ≡ first_place id (map T.id_of self.now) }
    {
        match &self.index {
            Some(index) => index.places.get(id),
            None => scan(self.items, id),
        }
    }
}

/// Whether a list is short, so that it is scanned, which takes less time than to make a map of it.
pub fn is_short<T>(items: &[T]) -> bool {
    items.len() < FEW
}

/// The map of a list. A short list has none, and neither has one that is longer than the map has
/// room for, but no message file has one.
pub fn index_of<T: HasId>(items: &[T]) -> Option<Index>
    ensures { IfSome result (λ m. (m.repeats ≡ has_repeat (λ a b. b == a) (map T.id_of items.now))
        × ((n : ℕ) → get m.places n ≡ first_place n (map T.id_of items.now))) }
{
    if is_short(items) || items.len() > MOST_RESOURCES {
        return None;
    }
    let index = indexed(items);
    Some(index)
}

/// The ids with their first indices, and whether an id occurs twice.
fn indexed<T: HasId>(items: &[T]) -> Index
    requires { length items.now ≤ MOST_RESOURCES }
    ensures repeats { result.repeats ≡ has_repeat (λ a b. b == a) (map T.id_of items.now) }
    ensures places { (n : ℕ) → get result.places n ≡ first_place n (map T.id_of items.now) }
{
    let mut index = IdMap::new();
    let mut repeats = false;
    for place in 0..items.len() {
        let is_new = index.insert(items[place].id(), place);
        repeats |= !is_new;
    }
    Index {
        places: index,
        repeats,
    }
}

/// Whether an id occurs twice.
fn scan_repeats<T: HasId>(items: &[T]) -> bool
    ensures { result ≡ has_repeat (λ a b. b == a) (map T.id_of items.now) }
{
    let mut repeats = false;
    for place in 0..items.len() {
        let earlier = scan(&items[..place], items[place].id());
        repeats |= earlier.is_some();
    }
    repeats
}

/// The first index with this id, if there is one.
fn scan<T: HasId>(items: &[T], id: u32) -> Option<usize>
    ensures { result ≡ first_place id (map T.id_of items.now) }
{
    for place in 0..items.len() {
        if items[place].id() == id {
            return Some(place);
        }
    }
    None
}
