//! The references between surfaces: the table that decides what is reachable.
ghost use Rattle.std.specs.Prelude.{◌≡◌, ◌≤◌, ◌<◌, ◌+◌, [], length, false, IsTrue, IsOk, OnOk, OnErr, IfSome};
ghost use Rattle.vz_ids.specs.Ids.{same_surface};
ghost use Rattle.vz_frame.specs.Frame.{has_repeat};
ghost use Rattle.vz_rules.specs.Closure.{IsLeastClosed};
ghost use Rattle.vz_refs.specs.Lasting.{all_in};
ghost use Rattle.vz_refs.specs.Referring.{is_set, setting, removing, keeping, unnamed, lasting, of_others, next_in, starts};

use crate::marking::{follow, start};
use crate::notes::Notes;
use crate::seats::{Kept, Name};
use crate::sets::Sets;
use crate::temporaries::Temporaries;
use indexmap::IndexMap;
use std::alloc::Global;
use std::cell::Cell;
use std::marker::Model;
use vz_base::Memory;
use vz_frame::Room;
use vz_ids::{FrameSinkId, SurfaceId, SurfaceRange};
use vz_surfaces::Store;

/// A lookup of the surface that a range shows.
pub trait Shows {
    ghost use Rattle.std.specs.Prelude.{Option};
    ghost use Rattle.vz_ids.specs.declared.SurfaceId.{SurfaceId as Id};
    ghost use Rattle.vz_ids.specs.declared.SurfaceRange.{SurfaceRange as Range};

    ghost shows: { Self → Range → Option Id };

    /// The surface that a range shows, or None if it shows none.
    fn shown(&self, r: &SurfaceRange) -> Option<SurfaceId>
        ensures { result ≡ shows self.now r.now };
}

impl Shows for Store {
    ghost use Rattle.vz_surfaces.specs.Reading.{shown_in};

    ghost shows = { λ s r. shown_in s r };

    fn shown(&self, r: &SurfaceRange) -> Option<SurfaceId> {
        self.shown(r)
    }
}

/// The ranges that active frames reference, for each surface, and the temporary references (here:
/// the temporary surfaces). Chromium's `SurfaceManager` keeps the same two, to find the live
/// surfaces.
///
/// Contracts see `sets` (in the order of their first `set`), `temporary` (in the order of `keep`)
/// and the room that was reserved before. The type also has a place for each surface of both, in
/// which `reachable` notes where the surface is in its list.
#[derive(Drop)]
pub struct References {
    sets: Sets,
    temporary: Temporaries,
    notes: Cell<Option<Notes>>,
}

impl Model for References {
    ghost use Rattle.vz_refs.specs.Referring.{Referring};

    ghost Value = { Referring };

    ghost view = { λ a. record {
      sets = a.sets.list;
      temporary = a.temporary.list;
      spare = a.sets.spare;
      room = a.temporary.spare;
    } };
}

impl References {
    /// Creates a table in which nothing is set and nothing is temporary. It allocates nothing.
    pub fn new(alloc: Global) -> References
        ensures sets { result.sets ≡ [] }
        ensures temporary { result.temporary ≡ [] }
    {
        References {
            sets: Sets::new(alloc),
            temporary: Temporaries::new(alloc),
            notes: Cell::new(Some(Notes::new(alloc))),
        }
    }

    /// Makes room for at least `n` more surfaces and ranges together. The only error is `Memory`,
    /// if an allocation fails. In either case nothing else changes and no room is lost.
    pub fn ready(&mut self, n: usize) -> Result<(), Memory>
        ensures sets { self.new.sets ≡ self.old.sets }
        ensures temporary { self.new.temporary ≡ self.old.temporary }
        ensures ok { OnOk result (n ≤ self.new.spare) }
        ensures succeeds { n ≤ self.old.spare → IsOk result }
        ensures spare { self.old.spare ≤ self.new.spare }
        ensures room { self.new.room ≡ self.old.room }
    {
        self.sets.reserve(n)
    }

    /// Makes room for one more temporary surface. The only error is `Memory`, if an allocation
    /// fails. In either case nothing else changes and no room is lost.
    pub fn reserve(&mut self) -> Result<(), Memory>
        ensures sets { self.new.sets ≡ self.old.sets }
        ensures temporary { self.new.temporary ≡ self.old.temporary }
        ensures ok { OnOk result (0 < self.new.room) }
        ensures succeeds { 0 < self.old.room → IsOk result }
        ensures spare { self.new.spare ≡ self.old.spare }
        ensures room { self.old.room ≤ self.new.room }
    {
        self.temporary.reserve()?;
        make_room(&mut self.notes, self.temporary.len());
        Ok(())
    }

    /// Replaces the ranges of a surface by `ranges`, which may be empty, and ends each temporary
    /// surface that one of them names. It returns `Memory` if an allocation fails; then nothing
    /// changes and no room is lost. If there is room for one and one more for each range, it
    /// returns Ok and uses up no more than that.
    pub fn set(&mut self, id: SurfaceId, ranges: &[SurfaceRange]) -> Result<(), Memory>
        ensures sets { OnOk result (self.new.sets ≡ setting id ranges.now self.old.sets) }
        ensures temporary { OnOk result (self.new.temporary
            ≡ unnamed ranges.now self.old.temporary) }
        ensures err { OnErr result ((self.new.sets ≡ self.old.sets)
            × (self.new.temporary ≡ self.old.temporary)) }
        ensures kept { OnErr result (self.old.spare ≤ self.new.spare) }
        ensures succeeds { length ranges.now + 1 ≤ self.old.spare → IsOk result }
        ensures spare { self.old.spare ≤ self.new.spare + (length ranges.now + 1) }
        ensures room { self.old.room ≤ self.new.room }
    {
        if self.sets.is_bare(&id, ranges) {
            return Ok(());
        }
        self.sets.reserve(ranges.len() + 1)?;
        self.sets.open(id);
        self.sets.clear(id);
        self.sets.extend(id, ranges);
        make_places(&mut self.notes, self.sets.len());
        self.temporary.end_named(ranges);
        Ok(())
    }

    /// Removes a surface with its ranges. Nothing changes if it is not set.
    pub fn remove(&mut self, id: &SurfaceId)
        ensures sets { self.new.sets ≡ removing id.now self.old.sets }
        ensures temporary { self.new.temporary ≡ self.old.temporary }
        ensures spare { self.old.spare ≤ self.new.spare }
        ensures room { self.new.room ≡ self.old.room }
    {
        self.sets.clear(*id);
        self.sets.forget(*id);
    }

    /// Makes a surface temporary until the tick `until`, unless a range that is set names it. It
    /// allocates nothing. Condition: `reserve` was called and its room is unused.
    pub fn keep(&mut self, id: SurfaceId, until: u32)
        requires { 0 < self.old.room }
        ensures sets { self.new.sets ≡ self.old.sets }
        ensures temporary { self.new.temporary ≡ keeping self.old.sets id until self.old.temporary }
        ensures spare { self.new.spare ≡ self.old.spare }
        ensures room { self.old.room ≤ self.new.room + 1 }
    {
        if !self.sets.is_named(&id) {
            self.temporary.keep(id, until);
        }
    }

    /// Begins the tick `n`: ends the temporary surfaces whose last tick is `n` or earlier.
    pub fn tick(&mut self, n: u32)
        ensures sets { self.new.sets ≡ self.old.sets }
        ensures temporary { self.new.temporary ≡ lasting n self.old.temporary }
        ensures spare { self.new.spare ≡ self.old.spare }
        ensures room { self.old.room ≤ self.new.room }
    {
        self.temporary.tick(n);
    }

    /// Ends the temporary surfaces of a sink, as its client was closed.
    pub fn sink_gone(&mut self, sink: FrameSinkId)
        ensures sets { self.new.sets ≡ self.old.sets }
        ensures temporary { self.new.temporary ≡ of_others sink self.old.temporary }
        ensures spare { self.new.spare ≡ self.old.spare }
        ensures room { self.old.room ≤ self.new.room }
    {
        self.temporary.sink_gone(sink);
    }

    /// Whether a surface is set, with or without ranges.
    pub fn is_set(&self, id: &SurfaceId) -> bool
        ensures { result ≡ is_set self.now.sets id.now }
    {
        self.sets.has(id)
    }

    /// How many surfaces are set.
    pub fn surfaces(&self) -> usize
        ensures { result ≡ length self.now.sets }
    {
        self.sets.len()
    }

    /// How many surfaces are temporary.
    pub fn temporary(&self) -> usize
        ensures { result ≡ length self.now.temporary }
    {
        self.temporary.len()
    }

    /// Appends the reachable surfaces, each once, in no promised order: the root, if there is
    /// one, the temporary ones, and each surface that a range of a reachable one shows. It
    /// allocates nothing. Conditions: `out` is empty and has room for one more than the set and
    /// the temporary surfaces together, and each surface that a range shows is set.
    pub fn reachable<S: Shows>(&self, root: Option<SurfaceId>, s: &S, out: &mut Room<SurfaceId>)
        requires empty { out.old.list ≡ [] }
        requires room { length self.now.sets + length self.now.temporary < out.old.spare }
        requires shown { (r : SurfaceRange)
            → IfSome (S.shows s.now r) (λ id. IsTrue (is_set self.now.sets id)) }
        ensures least { IsLeastClosed same_surface (next_in (S.shows s.now) self.now.sets)
            (starts root self.now.temporary) out.new.list }
        ensures once { has_repeat same_surface out.new.list ≡ false }
    {
        let kept = self.temporary.all();
        let mut notes = self.notes.take();
        seat(&mut notes, &self.sets, kept);
        reach(&self.sets, kept, root, s, &mut notes, out);
        self.notes.set(notes);
    }
}

/// Makes a place for each of `n` surfaces that are set.
fn make_places(notes: &mut Cell<Option<Notes>>, n: usize) {
    if let Some(notes) = notes.get_mut() {
        notes.make_places(n);
    }
}

/// Makes room for the places of more than `n` temporary surfaces.
fn make_room(notes: &mut Cell<Option<Notes>>, n: usize) {
    if let Some(notes) = notes.get_mut() {
        notes.make_room(n);
    }
}

/// Gives each temporary surface that is not set a place, as far as there is room.
fn seat(notes: &mut Option<Notes>, sets: &Sets, kept: &IndexMap<Name, Kept>) {
    if let Some(notes) = notes {
        notes.seat(sets, kept);
    }
}

/// Appends the reachable surfaces, as `reachable` does.
fn reach<S: Shows>(
    sets: &Sets,
    kept: &IndexMap<Name, Kept>,
    root: Option<SurfaceId>,
    s: &S,
    notes: &mut Option<Notes>,
    out: &mut Room<SurfaceId>,
)
    requires empty { out.old.list ≡ [] }
    requires room { length sets.now.list + length kept.now.entries < out.old.spare }
    requires shown { (r : SurfaceRange)
        → IfSome (S.shows s.now r) (λ id. IsTrue (is_set sets.now.list id)) }
    ensures least { IsLeastClosed same_surface (next_in (S.shows s.now) sets.now.list)
        (starts root (all_in kept.now.entries)) out.new.list }
    ensures once { has_repeat same_surface out.new.list ≡ false }
{
    start(sets, root, kept, notes, out);
    let mut at = 0;
    while at < out.as_slice().len() {
        let id = out.as_slice()[at];
        follow(sets, id, s, notes, out);
        at += 1;
    }
}
