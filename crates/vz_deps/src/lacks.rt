//! The unmet dependencies of the blocked submissions.
ghost use Rattle.std.specs.Prelude.{◌≡◌, ◌≤◌, ◌<◌, ◌+◌, ◌-◌, ◌++◌, ℕ, Bool, true, false, ◌==◌, if◌then◌else◌, nat_eq, Some, None, [], IsOk, OnOk, length, slice_get, vec_len, vec_capacity};
ghost use Rattle.std.specs.Map.{lookup};
ghost use Rattle.indexmap.specs.IndexMap.{spare as spare_of};
ghost use Rattle.vz_ids.specs.declared.SurfaceId.{SurfaceId as SurfaceOf};
ghost use Rattle.vz_deps.specs.Bunching.{seat_in, size_in};
ghost use Rattle.vz_deps.specs.declared.bunches.Lack.{Lack as LackOf};
ghost use Rattle.vz_deps.specs.declared.lacks.Count.{Count as CountOf};
ghost use Rattle.vz_deps.specs.Lacking.{on_in, count_in, bunches_for, met_by, is_of, bunch_told, IsKept, HasSame, Meets, IsRid, IsLowered, noted, unready, whole, room_of};

use crate::bunches::{Bunch, Bunches, Lack, Seat};
use crate::placing::{group_of, put_all, sink_of, take_all};
use indexmap::IndexMap;
use std::alloc::Global;
use vz_base::Memory;
use vz_ids::{FrameSinkId, SurfaceId};

/// How many dependencies a submission lacked when it was blocked, and how many it still lacks.
#[derive(Clone, Copy)]
pub(crate) struct Count {
    pub(crate) all: usize,
    pub(crate) unmet: usize,
}

/// An event that may meet dependencies: a submission on a surface became active, or a sink was
/// closed.
#[derive(Clone, Copy)]
pub(crate) enum Told {
    Active(SurfaceId),
    Closed(FrameSinkId),
}

/// The unmet dependencies of the blocked submissions: the surface of each, their bunches by group
/// and by sink, how many each submission lacks, and the submissions that lack none any more.
#[derive(Drop)]
pub(crate) struct Lacks {
    pub(crate) on: IndexMap<Lack, SurfaceId>,
    pub(crate) groups: Bunches,
    pub(crate) sinks: Bunches,
    pub(crate) counts: IndexMap<u64, Count>,
    pub(crate) freed: Vec<u64>,
}

/// Whether an event meets a dependency.
pub(crate) fn meets(told: &Told, d: &SurfaceId) -> bool
    ensures { result ≡ met_by told.now d.now }
{
    match told {
        Told::Active(id) => id.is_at_least(d),
        Told::Closed(sink) => d.sink == *sink,
    }
}

impl Lacks {
    /// Creates a table without dependencies. It allocates nothing.
    pub(crate) fn new(alloc: Global) -> Lacks
        ensures kept { IsKept result }
        ensures on { (x : LackOf) → on_in result x ≡ None }
        ensures counts { (o : ℕ) → count_in result o ≡ None }
        ensures freed { length result.freed.items ≡ 0 }
    {
        Lacks {
            on: IndexMap::new(alloc),
            groups: Bunches::new(alloc),
            sinks: Bunches::new(alloc),
            counts: IndexMap::new(alloc),
            freed: Vec::new(alloc),
        }
    }

    /// Makes room for at least `n` more.
    pub(crate) fn reserve(&mut self, n: usize) -> Result<(), Memory>
        requires kept { IsKept self.old }
        ensures kept { IsKept self.new }
        ensures on { self.new.on.entries ≡ self.old.on.entries }
        ensures counts { self.new.counts.entries ≡ self.old.counts.entries }
        ensures freed { self.new.freed.items ≡ self.old.freed.items }
        ensures ok { OnOk result (n ≤ room_of self.new) }
        ensures succeeds { n ≤ room_of self.old → IsOk result }
        ensures room { room_of self.old ≤ room_of self.new }
    {
        let done = self.grow(n);
        done
    }

    /// Makes room in each of the tables.
    fn grow(&mut self, n: usize) -> Result<(), Memory>
        ensures same { HasSame self.old self.new }
        ensures ok { OnOk result (n ≤ room_of self.new) }
        ensures succeeds { n ≤ room_of self.old → IsOk result }
        ensures room { room_of self.old ≤ room_of self.new }
    {
        self.on.reserve(n)?;
        self.groups.reserve(n)?;
        self.sinks.reserve(n)?;
        self.counts.reserve(n)?;
        make_places(&mut self.freed, n, self.counts.len())?;
        Ok(())
    }

    /// Blocks a submission by its unmet dependencies. Conditions: its number is new, it has an
    /// unmet dependency, and there is room for one more than it has.
    pub(crate) fn block(&mut self, order: u64, unmet: &[SurfaceId])
        requires kept { IsKept self.old }
        requires new { count_in self.old order ≡ None }
        requires some { 0 < length unmet.now }
        requires room { length unmet.now + 1 ≤ room_of self.old }
        ensures kept { IsKept self.new }
        ensures on { (x : LackOf) → on_in self.new x
            ≡ (if order == x.order then slice_get unmet.now x.nth else on_in self.old x) }
        ensures counts { (o : ℕ) → count_in self.new o
            ≡ (if nat_eq order o then Some (whole (length unmet.now)) else count_in self.old o) }
        ensures freed { self.new.freed.items ≡ self.old.freed.items }
        ensures room { room_of self.old ≤ room_of self.new + (length unmet.now + 1) }
    {
        let (on, groups, sinks) = (&mut self.on, &mut self.groups, &mut self.sinks);
        put_all(on, groups, sinks, order, unmet);
        let count = Count {
            all: unmet.len(),
            unmet: unmet.len(),
        };
        self.counts.insert(order, count).unwrap();
    }

    /// Removes a blocked submission. Condition: no submission is noted as free.
    pub(crate) fn forget(&mut self, order: u64)
        requires kept { IsKept self.old }
        requires none { self.old.freed.items ≡ [] }
        ensures kept { IsKept self.new }
        ensures on { (x : LackOf) → on_in self.new x
            ≡ (if order == x.order then None else on_in self.old x) }
        ensures counts { (o : ℕ) → count_in self.new o
            ≡ (if nat_eq order o then None else count_in self.old o) }
        ensures freed { self.new.freed.items ≡ [] }
        ensures room { room_of self.old ≤ room_of self.new }
    {
        if let Some(count) = self.counts.swap_remove(&order) {
            let (on, groups, sinks) = (&mut self.on, &mut self.groups, &mut self.sinks);
            take_all(on, groups, sinks, order, count.all);
        }
    }

    /// The bunch in which an event meets dependencies, and its size.
    fn told(&self, told: &Told) -> (Bunch, usize)
        ensures bunch { result.0 ≡ bunch_told told.now }
        ensures size { result.1 ≡ size_in (bunches_for (is_of told.now) self.now) result.0 }
    {
        match told {
            Told::Active(id) => {
                let bunch = group_of(id);
                (bunch, self.groups.size(&bunch))
            }
            Told::Closed(sink) => {
                let bunch = sink_of(*sink);
                (bunch, self.sinks.size(&bunch))
            }
        }
    }

    /// The dependency on a seat of such a bunch.
    fn sitting(&self, told: &Told, seat: &Seat) -> Option<Lack>
        ensures { result ≡ seat_in (bunches_for (is_of told.now) self.now) seat.now }
    {
        match told {
            Told::Active(_) => self.groups.get(seat),
            Told::Closed(_) => self.sinks.get(seat),
        }
    }

    /// Applies an event: removes the dependencies that it meets, and notes the submissions that
    /// have none left.
    pub(crate) fn tell(&mut self, told: &Told)
        requires kept { IsKept self.old }
        ensures meets { Meets (met_by told.now) self.old self.new }
        ensures rid { IsRid (met_by told.now) self.new }
    {
        let (bunch, size) = self.told(told);
        for k in 0..size {
            let seat = Seat {
                bunch,
                at: size - 1 - k,
            };
            self.look(told, &seat);
        }
    }

    /// Removes the dependency on a seat if the event meets it.
    fn look(&mut self, told: &Told, seat: &Seat)
        requires kept { IsKept self.old }
        ensures meets { Meets (met_by told.now) self.old self.new }
        ensures met { (x : LackOf) (d : SurfaceOf)
            → seat_in (bunches_for (is_of told.now) self.old) seat.now ≡ Some x
            → on_in self.new x ≡ Some d → met_by told.now d ≡ false }
    {
        if let Some(lack) = self.sitting(told, seat) {
            if self.is_met(told, &lack) {
                self.meet(&lack);
            }
        }
    }

    /// Whether an event meets this dependency.
    fn is_met(&self, told: &Told, lack: &Lack) -> bool
        ensures yes { result ≡ true → (d : SurfaceOf) × (on_in self.now lack.now ≡ Some d)
            × (met_by told.now d ≡ true) }
        ensures no { result ≡ false → (d : SurfaceOf) → on_in self.now lack.now ≡ Some d
            → met_by told.now d ≡ false }
    {
        match self.on.get(lack) {
            Some(d) => meets(told, d),
            None => false,
        }
    }

    /// Removes a dependency. Condition: it is in the table.
    fn meet(&mut self, lack: &Lack)
        requires kept { IsKept self.old }
        requires some { (d : SurfaceOf) × (on_in self.old lack.now ≡ Some d) }
        ensures meets { (met : SurfaceOf → Bool) (d : SurfaceOf) → on_in self.old lack.now ≡ Some d
            → met d ≡ true → Meets met self.old self.new }
        ensures gone { on_in self.new lack.now ≡ None }
    {
        self.on.swap_remove(lack);
        self.groups.remove(lack);
        self.sinks.remove(lack);
        count_down(&mut self.counts, &mut self.freed, lack.order);
    }
}

/// Makes places for `n` and `beside` numbers together.
fn make_places(freed: &mut Vec<u64>, n: usize, beside: usize) -> Result<(), Memory>
    ensures items { freed.new.items ≡ freed.old.items }
    ensures ok { OnOk result (n ≤ vec_capacity freed.new - beside) }
    ensures succeeds { n ≤ vec_capacity freed.old - beside → IsOk result }
    ensures capacity { vec_capacity freed.old ≤ vec_capacity freed.new }
{
    if n <= freed.capacity().saturating_sub(beside) {
        return Ok(());
    }
    match n.checked_add(beside) {
        Some(all) => {
            freed.try_reserve(all)?;
            Ok(())
        }
        None => Err(Memory),
    }
}

/// Counts one dependency of a submission less, and notes the submission if it was the last.
/// Conditions: it has one, and there is room to note it.
fn count_down(counts: &mut IndexMap<u64, Count>, freed: &mut Vec<u64>, order: u64)
    requires some { (c : CountOf) × (lookup (nat_eq order) counts.old.entries ≡ Some c)
        × (0 < c.unmet) }
    requires room { vec_len freed.old < vec_capacity freed.old }
    ensures counts { IsLowered order counts.old.entries counts.new.entries }
    ensures freed { (c : CountOf) → lookup (nat_eq order) counts.old.entries ≡ Some c
        → freed.new.items ≡ freed.old.items ++ noted order (c.unmet - 1) }
    ensures few { length freed.new.items + length (unready counts.new.entries)
        ≡ length freed.old.items + length (unready counts.old.entries) }
    ensures capacity { vec_capacity freed.new ≡ vec_capacity freed.old }
    ensures spare { spare_of counts.old ≤ spare_of counts.new }
{
    if lower(counts, order) == 0 {
        freed.push_reserved(order);
    }
}

/// Counts one dependency of a submission less, and returns how many are left. Condition: it has
/// one.
fn lower(counts: &mut IndexMap<u64, Count>, order: u64) -> usize
    requires some { (c : CountOf) × (lookup (nat_eq order) counts.old.entries ≡ Some c)
        × (0 < c.unmet) }
    ensures value { (c : CountOf) → lookup (nat_eq order) counts.old.entries ≡ Some c
        → result ≡ c.unmet - 1 }
    ensures counts { IsLowered order counts.old.entries counts.new.entries }
    ensures unready { length (noted order result) + length (unready counts.new.entries)
        ≡ length (unready counts.old.entries) }
    ensures spare { spare_of counts.old ≤ spare_of counts.new }
{
    match counts.get_mut(&order) {
        Some(count) => {
            count.unmet -= 1;
            count.unmet
        }
        None => 0,
    }
}
