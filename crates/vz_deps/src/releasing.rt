//! The release of the submissions that have no unmet dependency any more, in the order in which
//! they were blocked.
ghost use Rattle.std.specs.Prelude.{◌≡◌, ◌≤◌, ◌<◌, ◌+◌, ◌++◌, ℕ, not, nat_eq, IsTrue, Some, None, [], option_to_list, length, map, filter, if◌then◌else◌, vec_capacity};
ghost use Rattle.std.specs.Map.{lookup};
ghost use Rattle.indexmap.specs.IndexMap.{spare as spare_of};
ghost use Rattle.vz_ids.specs.declared.Sub.{Sub as SubOf};
ghost use Rattle.vz_deps.specs.Lacking.{IsKept, is_in, room_of, unmet_in, HasCounts, is_nothing};
ghost use Rattle.vz_deps.specs.Ordered.{in_order, never_falls};
ghost use Rattle.vz_deps.specs.Numbering.{IsNumbered};

use crate::lacks::{Count, Lacks};
use indexmap::IndexMap;
use vz_frame::Room;
use vz_ids::Sub;

/// Appends the submissions that have no unmet dependency any more, in the order in which they
/// were blocked, and removes them. Condition: there is room for all that are blocked.
pub(crate) fn release(
    subs: &mut IndexMap<u64, Sub>,
    numbers: &mut IndexMap<Sub, u64>,
    lacks: &mut Lacks,
    out: &mut Room<Sub>,
)
    requires kept { IsKept lacks.old }
    requires counts { HasCounts lacks.old subs.old.entries }
    requires numbered { IsNumbered subs.old.entries numbers.old.entries }
    requires room { length (in_order subs.old.entries) ≤ out.old.spare }
    ensures kept { IsKept lacks.new }
    ensures counts { HasCounts lacks.new subs.new.entries }
    ensures numbered { IsNumbered subs.new.entries numbers.new.entries }
    ensures none { lacks.new.freed.items ≡ [] }
    ensures unmet { (o : ℕ) → unmet_in lacks.new o ≡ unmet_in lacks.old o }
    ensures fewer { (o : ℕ) (s : SubOf) → lookup (nat_eq o) subs.new.entries ≡ Some s
        → lookup (nat_eq o) subs.old.entries ≡ Some s }
    ensures subs { in_order subs.new.entries
        ≡ filter (λ e. not (is_nothing (unmet_in lacks.old e.0))) (in_order subs.old.entries) }
    ensures out { out.new.list ≡ out.old.list
        ++ map (λ e. e.1) (filter (λ e. is_nothing (unmet_in lacks.old e.0)) (in_order subs.old.entries)) }
    ensures spare { out.new.spare + length out.new.list ≡ out.old.spare + length out.old.list }
    ensures rooms { spare_of subs.old ≤ spare_of subs.new }
    ensures places { spare_of numbers.old ≤ spare_of numbers.new }
    ensures lacks { room_of lacks.old ≤ room_of lacks.new }
{
    lacks.freed.sort_unstable();
    release_all(&lacks.freed, subs, numbers, &mut lacks.counts, out);
    lacks.freed.clear();
}

/// Appends and removes the submissions with these numbers. Conditions: the numbers do not fall,
/// and there is room for all that are blocked.
fn release_all(
    freed: &[u64],
    subs: &mut IndexMap<u64, Sub>,
    numbers: &mut IndexMap<Sub, u64>,
    counts: &mut IndexMap<u64, Count>,
    out: &mut Room<Sub>,
)
    requires order { IsTrue (never_falls freed.now) }
    requires numbered { IsNumbered subs.old.entries numbers.old.entries }
    requires room { length (in_order subs.old.entries) ≤ out.old.spare }
    ensures numbered { IsNumbered subs.new.entries numbers.new.entries }
    ensures subs { (o : ℕ) → lookup (nat_eq o) subs.new.entries
        ≡ (if is_in o freed.now then None else lookup (nat_eq o) subs.old.entries) }
    ensures counts { (o : ℕ) → lookup (nat_eq o) counts.new.entries
        ≡ (if is_in o freed.now then None else lookup (nat_eq o) counts.old.entries) }
    ensures len { length counts.new.entries ≤ length counts.old.entries }
    ensures out { out.new.list ≡ out.old.list
        ++ map (λ e. e.1) (filter (λ e. is_in e.0 freed.now) (in_order subs.old.entries)) }
    ensures spare { out.new.spare + length out.new.list ≡ out.old.spare + length out.old.list }
    ensures rooms { spare_of subs.old ≤ spare_of subs.new }
    ensures places { spare_of numbers.old ≤ spare_of numbers.new }
    ensures lacks { spare_of counts.old ≤ spare_of counts.new }
{
    for order in freed {
        release_one(*order, subs, numbers, out);
        counts.swap_remove(order);
    }
}

/// Appends and removes the submission with a number, if it is blocked. Condition: there is room
/// for it.
fn release_one(
    order: u64,
    subs: &mut IndexMap<u64, Sub>,
    numbers: &mut IndexMap<Sub, u64>,
    out: &mut Room<Sub>,
)
    requires numbered { IsNumbered subs.old.entries numbers.old.entries }
    requires room { length (option_to_list (lookup (nat_eq order) subs.old.entries)) ≤ out.old.spare }
    ensures numbered { IsNumbered subs.new.entries numbers.new.entries }
    ensures subs { (o : ℕ) → lookup (nat_eq o) subs.new.entries
        ≡ (if nat_eq order o then None else lookup (nat_eq o) subs.old.entries) }
    ensures out { out.new.list
        ≡ out.old.list ++ option_to_list (lookup (nat_eq order) subs.old.entries) }
    ensures spare { out.new.spare + length out.new.list ≡ out.old.spare + length out.old.list }
    ensures rooms { spare_of subs.old ≤ spare_of subs.new }
    ensures places { spare_of numbers.old ≤ spare_of numbers.new }
{
    if let Some(sub) = subs.swap_remove(&order) {
        numbers.swap_remove(&sub);
        out.put(sub);
    }
}
