//! Each unmet dependency is in two bunches, that of its group and that of its sink: how it is put
//! in and taken out.
ghost use Rattle.std.specs.Prelude.{◌≡◌, ◌≤◌, ◌<◌, ◌+◌, ◌==◌, ◌&&◌, nat_lt, true, false, Some, None, if◌then◌else◌, length, slice_get};
ghost use Rattle.std.specs.Map.{lookup};
ghost use Rattle.indexmap.specs.IndexMap.{spare as spare_of};
ghost use Rattle.vz_deps.specs.declared.bunches.Lack.{Lack as LackOf};
ghost use Rattle.vz_deps.specs.Bunching.{same_lack, room_in};
ghost use Rattle.vz_deps.specs.Placing.{IsPlaced, bunch_for};

use crate::bunches::{Bunch, Bunches, Lack};
use indexmap::IndexMap;
use vz_ids::{EmbedToken, FrameSinkId, SurfaceId};

/// The bunch of the group of a surface.
pub(crate) fn group_of(d: &SurfaceId) -> Bunch
    ensures { result ≡ bunch_for false d.now }
{
    Bunch {
        sink: d.sink,
        token: d.local.token,
    }
}

/// The bunch of a sink.
pub(crate) fn sink_of(sink: FrameSinkId) -> Bunch
    ensures sink { result.sink ≡ sink }
    ensures token { result.token.0 ≡ 0 }
{
    Bunch {
        sink,
        token: EmbedToken(0),
    }
}

/// Puts the dependencies of a submission into their bunches. Conditions: it has none there yet,
/// and there is room for them.
pub(crate) fn put_all(
    on: &mut IndexMap<Lack, SurfaceId>,
    groups: &mut Bunches,
    sinks: &mut Bunches,
    order: u64,
    unmet: &[SurfaceId],
)
    requires placed { IsPlaced on.old.entries groups.old sinks.old }
    requires new { (x : LackOf) → (order == x.order) ≡ true
        → lookup (same_lack x) on.old.entries ≡ None }
    requires on { length unmet.now ≤ spare_of on.old }
    requires groups { length unmet.now ≤ room_in groups.old }
    requires sinks { length unmet.now ≤ room_in sinks.old }
    ensures placed { IsPlaced on.new.entries groups.new sinks.new }
    ensures on { (x : LackOf) → lookup (same_lack x) on.new.entries
        ≡ (if order == x.order then slice_get unmet.now x.nth
        else lookup (same_lack x) on.old.entries) }
    ensures spare { spare_of on.old ≤ spare_of on.new + length unmet.now }
    ensures room { room_in groups.old ≤ room_in groups.new + length unmet.now }
    ensures places { room_in sinks.old ≤ room_in sinks.new + length unmet.now }
{
    for nth in 0..unmet.len() {
        put_one(on, groups, sinks, Lack { order, nth }, unmet[nth]);
    }
}

/// Puts a dependency into its bunches. Conditions: it is in none, and there is room for one.
fn put_one(
    on: &mut IndexMap<Lack, SurfaceId>,
    groups: &mut Bunches,
    sinks: &mut Bunches,
    lack: Lack,
    d: SurfaceId,
)
    requires placed { IsPlaced on.old.entries groups.old sinks.old }
    requires new { lookup (same_lack lack) on.old.entries ≡ None }
    requires on { 0 < spare_of on.old }
    requires groups { 0 < room_in groups.old }
    requires sinks { 0 < room_in sinks.old }
    ensures placed { IsPlaced on.new.entries groups.new sinks.new }
    ensures on { (x : LackOf) → lookup (same_lack x) on.new.entries
        ≡ (if same_lack lack x then Some d else lookup (same_lack x) on.old.entries) }
    ensures spare { spare_of on.old ≤ spare_of on.new + 1 }
    ensures room { room_in groups.old ≤ room_in groups.new + 1 }
    ensures places { room_in sinks.old ≤ room_in sinks.new + 1 }
{
    on.insert(lack, d).unwrap();
    groups.put(group_of(&d), lack);
    sinks.put(sink_of(d.sink), lack);
}

/// Takes the first `all` dependencies of a submission out of their bunches.
pub(crate) fn take_all(
    on: &mut IndexMap<Lack, SurfaceId>,
    groups: &mut Bunches,
    sinks: &mut Bunches,
    order: u64,
    all: usize,
)
    requires placed { IsPlaced on.old.entries groups.old sinks.old }
    ensures placed { IsPlaced on.new.entries groups.new sinks.new }
    ensures on { (x : LackOf) → lookup (same_lack x) on.new.entries
        ≡ (if (order == x.order) && nat_lt x.nth all then None
        else lookup (same_lack x) on.old.entries) }
    ensures spare { spare_of on.old ≤ spare_of on.new }
    ensures room { room_in groups.old ≤ room_in groups.new }
    ensures places { room_in sinks.old ≤ room_in sinks.new }
{
    for nth in 0..all {
        take_one(on, groups, sinks, &Lack { order, nth });
    }
}

/// Takes a dependency out of its bunches, if it is in some.
fn take_one(
    on: &mut IndexMap<Lack, SurfaceId>,
    groups: &mut Bunches,
    sinks: &mut Bunches,
    lack: &Lack,
)
    requires placed { IsPlaced on.old.entries groups.old sinks.old }
    ensures placed { IsPlaced on.new.entries groups.new sinks.new }
    ensures on { (x : LackOf) → lookup (same_lack x) on.new.entries
        ≡ (if same_lack lack.now x then None else lookup (same_lack x) on.old.entries) }
    ensures spare { spare_of on.old ≤ spare_of on.new }
    ensures room { room_in groups.old ≤ room_in groups.new }
    ensures places { room_in sinks.old ≤ room_in sinks.new }
{
    on.swap_remove(lack);
    groups.remove(lack);
    sinks.remove(lack);
}
