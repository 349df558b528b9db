//! The submissions that are blocked by dependencies.
ghost use Rattle.std.specs.Prelude.{◌≡◌, ◌≤◌, ◌<◌, ◌+◌, ◌-◌, [], ◌∷◌, ◌++◌, ℕ, not, nat_eq, length, filter, false, Some, IsFalse, IsOk, OnOk, OnErr};
ghost use Rattle.std.specs.Map.{lookup};
ghost use Rattle.indexmap.specs.IndexMap.{spare as spare_of};
ghost use Rattle.vz_ids.specs.Ids.{same_sub};
ghost use Rattle.vz_ids.specs.declared.Sub.{Sub as SubOf};
ghost use Rattle.vz_deps.specs.Tracking.{is_blocked, without, freed, still, meets, meets_any, is_of_sink};
ghost use Rattle.vz_deps.specs.Lacking.{IsKept, HasCounts, Meets, IsRid, unmet_in, room_of};
ghost use Rattle.vz_deps.specs.Ordered.{in_order};
ghost use Rattle.vz_deps.specs.Numbering.{IsNumbered, room_for};

use crate::lacks::{Lacks, Told};
use crate::releasing::release;
use indexmap::IndexMap;
use std::alloc::Global;
use std::marker::Model;
use vz_base::Memory;
use vz_frame::Room;
use vz_ids::{FrameSinkId, Sub, SurfaceId};

/// The submissions that are blocked, each by its unmet dependencies, after Chromium's
/// `SurfaceDependencyTracker`. Contracts see them in the order in which they were blocked, and
/// the room that was reserved before.
///
/// Each has a number, which rises with each that is blocked. The dependencies are in bunches, one
/// for each group of surfaces, so that a surface that becomes active costs a look at one bunch
/// alone.
#[derive(Drop)]
pub struct Tracker {
    subs: IndexMap<u64, Sub>,
    numbers: IndexMap<Sub, u64>,
    lacks: Lacks,
    next: u64,
    room: usize,
}

impl Model for Tracker {
    ghost use Rattle.std.specs.Prelude.{◌≤◌};
    ghost use Rattle.vz_deps.specs.Tracking.{Tracked, listed};
    ghost use Rattle.vz_deps.specs.Lacking.{unmet_in};
    ghost use Rattle.vz_deps.specs.Ordered.{in_order};
    ghost use Rattle.vz_deps.specs.Numbering.{IsTracked, room_for};

    ghost Value = { Tracked };

    ghost view = { λ a. record {
      list = listed (unmet_in a.lacks) (in_order a.subs.entries);
      spare = a.room;
    } };

    ghost invariant = { λ a. IsTracked a.subs.entries a.numbers.entries a.lacks a.next
        × (a.room ≤ room_for a.subs a.numbers a.lacks a.next) };
}

impl Tracker {
    /// Creates a tracker in which nothing is blocked. It allocates nothing.
    pub fn new(alloc: Global) -> Tracker
        ensures { result.list ≡ [] }
    {
        Tracker {
            subs: IndexMap::new(alloc),
            numbers: IndexMap::new(alloc),
            lacks: Lacks::new(alloc),
            next: 0,
            room: 0,
        }
    }

    /// Makes room for at least `n` submissions and dependencies together. The only error is
    /// `Memory`, if an allocation fails. In either case nothing else changes and no room is lost.
    pub fn ready(&mut self, n: usize) -> Result<(), Memory>
        ensures list { self.new.list ≡ self.old.list }
        ensures ok { OnOk result (n ≤ self.new.spare) }
        ensures succeeds { n ≤ self.old.spare → IsOk result }
        ensures spare { self.old.spare ≤ self.new.spare }
    {
        if n <= self.room {
            return Ok(());
        }
        let (subs, numbers) = (&mut self.subs, &mut self.numbers);
        make_room(subs, numbers, &mut self.lacks, self.next, n)?;
        self.room = n;
        Ok(())
    }

    /// How many submissions are blocked.
    pub fn blocked(&self) -> usize
        ensures { result ≡ length self.now.list }
    {
        self.subs.len()
    }

    /// Blocks a submission by its unmet dependencies. It returns `Memory` if an allocation fails;
    /// then nothing changes and no room is lost. If there is room for one and one more for each
    /// dependency, it returns Ok and uses up no more than that. Conditions: the submission is not
    /// blocked, and `unmet` is not empty.
    pub fn block(&mut self, s: Sub, unmet: &[SurfaceId]) -> Result<(), Memory>
        requires new { IsFalse (is_blocked self.old.list s) }
        requires some { 0 < length unmet.now }
        ensures list { OnOk result (self.new.list
            ≡ self.old.list ++ record { sub = s; unmet = unmet.now } ∷ []) }
        ensures err { OnErr result (self.new.list ≡ self.old.list) }
        ensures kept { OnErr result (self.old.spare ≤ self.new.spare) }
        ensures succeeds { length unmet.now + 1 ≤ self.old.spare → IsOk result }
        ensures spare { self.old.spare ≤ self.new.spare + (length unmet.now + 1) }
    {
        self.ready(unmet.len() + 1)?;
        self.subs.insert(self.next, s).unwrap();
        self.numbers.insert(s, self.next).unwrap();
        self.lacks.block(self.next, unmet);
        self.next += 1;
        self.room -= unmet.len() + 1;
        Ok(())
    }

    /// Removes a submission, which is blocked no longer. If it was not blocked, nothing changes.
    pub fn forget(&mut self, s: Sub)
        ensures list { self.new.list ≡ without s self.old.list }
        ensures gone { IsFalse (is_blocked self.new.list s) }
        ensures spare { self.old.spare ≤ self.new.spare }
    {
        forget_sub(&mut self.subs, &mut self.numbers, &mut self.lacks, &s);
    }

    /// A submission on surface `id` became active: this meets the dependencies on that surface
    /// and on older ones of its group. Appends the submissions whose last unmet dependency was
    /// met by this, in the order in which they were blocked, and removes them. It allocates
    /// nothing. Condition: `out` has room for all that are blocked.
    pub fn activated(&mut self, id: &SurfaceId, out: &mut Room<Sub>)
        requires { length self.old.list ≤ out.old.spare }
        ensures out { out.new.list ≡ out.old.list ++ freed (meets id.now) self.old.list }
        ensures list { self.new.list ≡ still (meets id.now) self.old.list }
        ensures spare { self.old.spare ≤ self.new.spare }
        ensures room { out.old.spare ≤ out.new.spare + length (freed (meets id.now) self.old.list) }
    {
        self.lacks.tell(&Told::Active(*id));
        release(&mut self.subs, &mut self.numbers, &mut self.lacks, out);
    }

    /// Submissions on these surfaces became active in one round. This does what `activated` does,
    /// for all of them at once: what is freed is in the order in which it was blocked, over all
    /// surfaces. It allocates nothing. Condition: `out` has room for all that are blocked.
    pub fn all_activated(&mut self, ids: &[SurfaceId], out: &mut Room<Sub>)
        requires { length self.old.list ≤ out.old.spare }
        ensures out { out.new.list ≡ out.old.list ++ freed (meets_any ids.now) self.old.list }
        ensures list { self.new.list ≡ still (meets_any ids.now) self.old.list }
        ensures spare { self.old.spare ≤ self.new.spare }
        ensures room { out.old.spare
            ≤ out.new.spare + length (freed (meets_any ids.now) self.old.list) }
    {
        if self.subs.len() == 0 {
            return;
        }
        tell_all(&mut self.lacks, ids);
        release(&mut self.subs, &mut self.numbers, &mut self.lacks, out);
    }

    /// A sink was closed: this meets the dependencies on its surfaces. Appends the submissions
    /// whose last unmet dependency was met by this, in the order in which they were blocked, and
    /// removes them. It allocates nothing. Condition: `out` has room for all that are blocked.
    pub fn sink_gone(&mut self, sink: FrameSinkId, out: &mut Room<Sub>)
        requires { length self.old.list ≤ out.old.spare }
        ensures out { out.new.list ≡ out.old.list ++ freed (is_of_sink sink) self.old.list }
        ensures list { self.new.list ≡ still (is_of_sink sink) self.old.list }
        ensures spare { self.old.spare ≤ self.new.spare }
        ensures room { out.old.spare
            ≤ out.new.spare + length (freed (is_of_sink sink) self.old.list) }
    {
        self.lacks.tell(&Told::Closed(sink));
        release(&mut self.subs, &mut self.numbers, &mut self.lacks, out);
    }
}

/// Makes room for at least `n` more.
fn make_room(
    subs: &mut IndexMap<u64, Sub>,
    numbers: &mut IndexMap<Sub, u64>,
    lacks: &mut Lacks,
    next: u64,
    n: usize,
) -> Result<(), Memory>
    requires kept { IsKept lacks.old }
    ensures kept { IsKept lacks.new }
    ensures subs { subs.new.entries ≡ subs.old.entries }
    ensures numbers { numbers.new.entries ≡ numbers.old.entries }
    ensures on { lacks.new.on.entries ≡ lacks.old.on.entries }
    ensures counts { lacks.new.counts.entries ≡ lacks.old.counts.entries }
    ensures freed { lacks.new.freed.items ≡ lacks.old.freed.items }
    ensures ok { OnOk result (n ≤ room_for subs.new numbers.new lacks.new next) }
    ensures succeeds { n ≤ room_for subs.old numbers.old lacks.old next → IsOk result }
    ensures room { room_for subs.old numbers.old lacks.old next
        ≤ room_for subs.new numbers.new lacks.new next }
{
    if n as u64 > u64::MAX - next {
        return Err(Memory);
    }
    subs.reserve(n)?;
    numbers.reserve(n)?;
    lacks.reserve(n)?;
    Ok(())
}

/// Removes a submission, if it is blocked.
fn forget_sub(
    subs: &mut IndexMap<u64, Sub>,
    numbers: &mut IndexMap<Sub, u64>,
    lacks: &mut Lacks,
    s: &Sub,
)
    requires kept { IsKept lacks.old }
    requires none { lacks.old.freed.items ≡ [] }
    requires counts { HasCounts lacks.old subs.old.entries }
    requires numbered { IsNumbered subs.old.entries numbers.old.entries }
    ensures kept { IsKept lacks.new }
    ensures none { lacks.new.freed.items ≡ [] }
    ensures counts { HasCounts lacks.new subs.new.entries }
    ensures numbered { IsNumbered subs.new.entries numbers.new.entries }
    ensures subs { in_order subs.new.entries
        ≡ filter (λ e. not (same_sub e.1 s.now)) (in_order subs.old.entries) }
    ensures fewer { (o : ℕ) (t : SubOf) → lookup (nat_eq o) subs.new.entries ≡ Some t
        → lookup (nat_eq o) subs.old.entries ≡ Some t }
    ensures unmet { (o : ℕ) (t : SubOf) → lookup (nat_eq o) subs.new.entries ≡ Some t
        → unmet_in lacks.new o ≡ unmet_in lacks.old o }
    ensures rooms { spare_of subs.old ≤ spare_of subs.new }
    ensures places { spare_of numbers.old ≤ spare_of numbers.new }
    ensures lacks { room_of lacks.old ≤ room_of lacks.new }
{
    if let Some(number) = numbers.swap_remove(s) {
        subs.swap_remove(&number);
        lacks.forget(number);
    }
}

/// Applies the events that submissions on these surfaces became active.
fn tell_all(lacks: &mut Lacks, ids: &[SurfaceId])
    requires kept { IsKept lacks.old }
    ensures meets { Meets (meets_any ids.now) lacks.old lacks.new }
    ensures rid { IsRid (meets_any ids.now) lacks.new }
{
    for id in ids {
        lacks.tell(&Told::Active(*id));
    }
}
