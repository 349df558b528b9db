//! The submissions that await feedback.
ghost use Rattle.std.specs.Prelude.{◌≡◌, ◌≤◌, ◌<◌, ◌+◌, ◌^◌, [], ◌++◌, length, Some, None, is_some, IfNone, IsFalse, IsOk, OnOk, OnErr, if◌then◌else◌};
ghost use Rattle.std.specs.Map.{lookup};
ghost use Rattle.vz_ids.specs.declared.Sub.{Sub as SubName};
ghost use Rattle.vz_ids.specs.Ids.{same_sub};
ghost use Rattle.vz_returns.specs.Unfed.{is_open, opened, fed};

use indexmap::IndexMap;
use std::alloc::Global;
use std::marker::Model;
use vz_base::Memory;
use vz_frame::Room;
use vz_ids::Sub;

/// The submissions that await feedback, each with its place in the order of acceptance. Contracts
/// see their list by client and ordinal, their places, and the room that was reserved before.
///
/// The map has them in any order: they are sorted as they are listed. The room is counted beside
/// it, as the map's own may have changed after an allocation that failed.
#[derive(Drop)]
pub struct Feedbacks {
    places: IndexMap<Sub, u64>,
    room: usize,
}

impl Model for Feedbacks {
    ghost use Rattle.std.specs.Prelude.{◌≤◌};
    ghost use Rattle.indexmap.specs.IndexMap.{spare as spare_of};
    ghost use Rattle.vz_returns.specs.Unfed.{Unfed, sorted_subs};

    ghost Value = { Unfed };

    ghost view = { λ a. record {
      list = sorted_subs a.places.entries;
      places = a.places.entries;
      spare = a.room;
    } };

    ghost invariant = { λ a. a.room ≤ spare_of a.places };
}

impl Feedbacks {
    /// Creates an empty list. It allocates nothing.
    pub fn new(alloc: Global) -> Feedbacks
        ensures list { result.list ≡ [] }
        ensures places { result.places ≡ [] }
    {
        Feedbacks {
            places: IndexMap::new(alloc),
            room: 0,
        }
    }

    /// Makes room for at least `n` more submissions. The only error is `Memory`, if an allocation
    /// fails. In either case nothing else changes and no room is lost.
    pub fn ready(&mut self, n: usize) -> Result<(), Memory>
        ensures list { self.new.list ≡ self.old.list }
        ensures places { self.new.places ≡ self.old.places }
        ensures ok { OnOk result (n ≤ self.new.spare) }
        ensures err { OnErr result (self.new ≡ self.old) }
        ensures succeeds { n ≤ self.old.spare → IsOk result }
        ensures spare { self.old.spare ≤ self.new.spare }
    {
        if n <= self.room {
            return Ok(());
        }
        self.places.reserve(n)?;
        self.room = n;
        Ok(())
    }

    /// Adds a submission, which awaits feedback from now on. It returns `Memory` if an allocation
    /// fails; then the list does not change and no room is lost. If there is room for one, it
    /// returns Ok and uses up no more than that. It has the place 0, whatever was added before.
    /// Condition: the submission is not in the list.
    pub fn add(&mut self, s: Sub) -> Result<(), Memory>
        requires { IsFalse (is_open self.old.list s) }
        ensures list { OnOk result (self.new.list ≡ opened s self.old.list) }
        ensures err { OnErr result (self.new.list ≡ self.old.list) }
        ensures kept { OnErr result (self.old.spare ≤ self.new.spare) }
        ensures succeeds { 0 < self.old.spare → IsOk result }
        ensures spare { self.old.spare ≤ self.new.spare + 1 }
    {
        self.put(s, 0)?;
        Ok(())
    }

    /// Removes a submission as it gets its feedback. Returns whether it was in the list.
    pub fn feed(&mut self, s: Sub) -> bool
        ensures value { result ≡ is_open self.old.list s }
        ensures list { self.new.list ≡ fed s self.old.list }
        ensures spare { self.old.spare ≤ self.new.spare }
    {
        self.take(s).is_some()
    }

    /// How many submissions await feedback.
    pub fn unfed(&self) -> usize
        ensures value { result ≡ length self.now.list }
        ensures small { result < 2 ^ 63 }
    {
        self.places.len()
    }

    /// Appends the submissions that await feedback, by client and ordinal. It allocates nothing.
    /// Condition: `out` has room for all.
    pub fn subs(&self, out: &mut Room<Sub>)
        requires { length self.now.list ≤ out.old.spare }
        ensures list { out.new.list ≡ out.old.list ++ self.now.list }
        ensures room { out.old.spare ≡ out.new.spare + length self.now.list }
    {
        let before = out.as_slice().len();
        let keys = self.places.keys();
        put_all(keys.as_slice(), out);
        out.sort_from(before);
    }

    /// Adds a submission with its place in the order of acceptance. It returns `Memory` if an
    /// allocation fails, and then nothing changes. If there is room for one, it returns Ok and
    /// uses up no more than that. Condition: the submission is not in the list.
    pub(crate) fn put(&mut self, s: Sub, place: u64) -> Result<(), Memory>
        requires { IsFalse (is_open self.old.list s) }
        ensures list { OnOk result (self.new.list ≡ opened s self.old.list) }
        ensures places { OnOk result ((t : SubName) → lookup (same_sub t) self.new.places
            ≡ (if same_sub s t then Some place else lookup (same_sub t) self.old.places)) }
        ensures len { OnOk result (length self.new.places ≡ length self.old.places + 1) }
        ensures err { OnErr result (self.new ≡ self.old) }
        ensures succeeds { 0 < self.old.spare → IsOk result }
        ensures spare { self.old.spare ≤ self.new.spare + 1 }
    {
        self.places.insert(s, place)?;
        self.room = self.room.saturating_sub(1);
        Ok(())
    }

    /// Removes a submission as it gets its feedback. Returns its place, if it was in the list.
    pub(crate) fn take(&mut self, s: Sub) -> Option<u64>
        ensures value { result ≡ lookup (same_sub s) self.old.places }
        ensures there { is_some result ≡ is_open self.old.list s }
        ensures list { self.new.list ≡ fed s self.old.list }
        ensures places { (t : SubName) → lookup (same_sub t) self.new.places
            ≡ (if same_sub s t then None else lookup (same_sub t) self.old.places) }
        ensures len { length self.new.places + (if is_some result then 1 else 0)
            ≡ length self.old.places }
        ensures unchanged { IfNone result (self.new ≡ self.old) }
        ensures spare { self.old.spare ≤ self.new.spare }
    {
        self.places.swap_remove(&s)
    }
}

/// Appends all of a list.
fn put_all(list: &[Sub], out: &mut Room<Sub>)
    requires { length list.now ≤ out.old.spare }
    ensures list { out.new.list ≡ out.old.list ++ list.now }
    ensures room { out.old.spare ≡ out.new.spare + length list.now }
{
    for s in list {
        out.put(*s);
    }
}
