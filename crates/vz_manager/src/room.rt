//! Room for the effects of a step, reserved before its first change.
ghost use Rattle.std.specs.Prelude.{◌≡◌, ◌≤◌, ◌+◌, [], length, OnOk, IfOk};
ghost use Rattle.vz_rules.specs.World.{World};
ghost use Rattle.vz_manager.specs.Followed.{IsBetween, HasRoomAfter};

use crate::outcome::Following;
use vz_base::Memory;
use vz_frame::Room;
use vz_surface_manager::SurfaceManager;

/// Empties a list and makes room for `n` items. The only error is `Memory`, if an allocation
/// fails.
fn make_room<T: Drop>(list: &mut Room<T>, n: usize) -> Result<(), Memory>
    ensures list { list.new.list ≡ [] }
    ensures room { OnOk result (n ≤ list.new.spare) }
{
    list.clear();
    list.reserve(n)
}

/// One more than this number. It is `Memory` if that does not fit a `usize`.
fn one_more(n: usize) -> Result<usize, Memory>
    ensures { IfOk result (λ more. more ≡ n + 1) }
{
    n.checked_add(1).ok_or(Memory)
}

/// How many surfaces may be reached, plus one, if `risen` submissions become active and one
/// surface is new. It is `Memory` if that does not fit a `usize`.
fn reached(settling: &SurfaceManager, risen: usize) -> Result<usize, Memory>
    ensures { IfOk result (λ n. n ≡ length settling.now.live.kept.sets + risen
        + length settling.now.live.kept.temporary + 2) }
{
    let live = &settling.live;
    let sets = live.referencing().checked_add(risen).ok_or(Memory)?;
    let kept = sets.checked_add(live.temporary()).ok_or(Memory)?;
    kept.checked_add(2).ok_or(Memory)
}

/// Makes room for the effects of a step that accepts at most one submission, with at most this
/// many listings and at most one new surface. The only error is `Memory`, if an allocation fails.
/// Condition: the state is one between steps.
pub(crate) fn ready_to_follow(
    settling: &SurfaceManager,
    listings: usize,
    following: &mut Following,
) -> Result<(), Memory>
    requires between { (w : World) × IsBetween w settling.now }
    ensures room { OnOk result (HasRoomAfter listings settling.now following.new) }
{
    let risen = one_more(settling.waiting.count())?;
    let exist = one_more(settling.live.surfaces())?;
    let owed = one_more(settling.live.unfed())?;
    let reached = reached(settling, risen)?;
    make_room(&mut following.activated, risen)?;
    make_room(&mut following.ids, risen)?;
    make_room(&mut following.destroyed, exist)?;
    make_room(&mut following.fed, owed)?;
    following.returned.clear();
    settling.live.make_room(listings, &mut following.returned)?;
    following.lists.ready(exist, reached)?;
    following.effects.reserve()?;
    Ok(())
}
