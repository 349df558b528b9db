//! Submissions with what they list.
ghost use Rattle.std.specs.Prelude.{◌≡◌, ◌<◌, ◌≤◌, ◌++◌, ◌∷◌, [], length, slice_get, take, drop, Some, IsFalse};
ghost use Rattle.std.specs.Prelude.{OnOk, OnErr, MatchOption};
ghost use Rattle.vz_rules.specs.Closure.{adding};
ghost use Rattle.vz_rules.specs.World.{has_sub};
ghost use Rattle.vz_surface_manager.specs.Flown.{subs_of};
ghost use Rattle.vz_surface_manager.specs.Rosters.{same_flown, listing_count};

use indexmap::IndexMap;
use std::alloc::Global;
use std::marker::Model;
use vz_base::Memory;
use vz_frame::Listing;
use vz_ids::Sub;

/// The part of one list in which a submission's listings are: from one place up to another.
#[derive(Clone, Copy)]
pub(crate) struct Part {
    pub(crate) from: usize,
    pub(crate) to: usize,
}

/// A list of submissions, each with the resources that it lists, in the order in which they were
/// appended. All listings are in one list, whose room is kept.
#[derive(Drop)]
pub struct Roster {
    subs: IndexMap<Sub, Part>,
    listings: Vec<Listing>,
}

impl Model for Roster {
    ghost use Rattle.std.specs.Prelude.{List as Row, length};
    ghost use Rattle.vz_surface_manager.specs.Flown.{Flown};
    ghost use Rattle.vz_surface_manager.specs.Packed.{unpacked, AreWithin};

    ghost Value = { Row Flown };

    ghost view = { λ r. unpacked r.listings.items r.subs.entries };

    ghost invariant = { λ r. AreWithin (length r.listings.items) r.subs.entries };
}

/// The listings in a part of a list. Condition: the part is within the list.
fn listed(all: &[Listing], part: Part) -> &[Listing]
    requires within { (part.from ≤ part.to) × (part.to ≤ length all.now) }
    ensures { result.now ≡ drop part.from (take part.to all.now) }
{
    let before = &all[..part.to];
    &before[part.from..]
}

impl Roster {
    /// Creates an empty roster. It allocates nothing.
    pub fn new(alloc: Global) -> Roster
        ensures { result ≡ [] }
    {
        Roster {
            subs: IndexMap::new(alloc),
            listings: Vec::new(alloc),
        }
    }

    /// Empties the roster, and keeps its room.
    pub(crate) fn clear(&mut self)
        ensures { self.new ≡ [] }
    {
        self.subs.clear();
        self.listings.clear();
    }

    /// Whether the roster has a submission.
    pub fn has(&self, sub: &Sub) -> bool
        ensures { result ≡ has_sub (subs_of self.now) sub.now }
    {
        self.subs.contains_key(sub)
    }

    /// How many submissions are in it.
    pub fn len(&self) -> usize
        ensures { result ≡ length self.now }
    {
        self.subs.len()
    }

    /// The submissions, in their order.
    pub fn subs(&self) -> &[Sub]
        ensures { result.now ≡ subs_of self.now }
    {
        self.subs.keys().as_slice()
    }

    /// Appends a submission with a copy of what it lists. It returns `Memory` if an allocation
    /// fails; then nothing changes. Condition: the roster does not have the submission.
    pub fn put(&mut self, sub: Sub, listings: &[Listing]) -> Result<(), Memory>
        requires { IsFalse (has_sub (subs_of self.old) sub) }
        ensures ok { OnOk result (self.new ≡ self.old ++ (sub, listings.now) ∷ []) }
        ensures err { OnErr result (self.new ≡ self.old) }
    {
        let from = self.listings.len();
        self.listings.extend_from_slice(listings)?;
        let to = self.listings.len();
        self.subs.insert(sub, Part { from, to })?;
        Ok(())
    }

    /// Appends a submission, unless the roster has it.
    pub(crate) fn note(&mut self, sub: Sub, listings: &[Listing]) -> Result<(), Memory>
        ensures { OnOk result (self.new
            ≡ adding same_flown self.old ((sub, listings.now) ∷ [])) }
    {
        if self.has(&sub) {
            return Ok(());
        }
        self.put(sub, listings)
    }

    /// The submission at a place, from 0, with what it lists. Condition: the place is in the
    /// list.
    pub fn get(&self, k: usize) -> (Sub, &[Listing])
        requires { k < length self.now }
        ensures { slice_get self.now k ≡ Some (result.0, result.1.now) }
    {
        let Some((sub, part)) = self.subs.get_index(k) else {
            unreachable!()
        };
        (*sub, listed(self.listings.as_slice(), *part))
    }

    /// How many listings there are in all, or None exactly if that number does not fit a `usize`.
    pub fn listings(&self) -> Option<usize>
        ensures { MatchOption result (usize.MAX < listing_count self.now)
            (λ n. n ≡ listing_count self.now) }
    {
        let mut count: usize = 0;
        for k in 0..self.len() {
            let (_, listings) = self.get(k);
            match count.checked_add(listings.len()) {
                Some(more) => count = more,
                None => return None,
            }
        }
        Some(count)
    }
}
