//! A round: all submissions that are ready become active.
ghost use Rattle.std.specs.Prelude.{◌≡◌, ◌≤◌, ◌+◌, ◌++◌, map, length, drop, Option};
ghost use Rattle.vz_ids.specs.declared.SurfaceId.{SurfaceId as Id};
ghost use Rattle.vz_rules.specs.World.{World};
ghost use Rattle.vz_rules.specs.Settle.{ready, round};
ghost use Rattle.vz_returns.specs.Lent.{resources_out};
ghost use Rattle.vz_returns.specs.Notes.{owed_count};
ghost use Rattle.vz_surface_manager.specs.Live.{AreLive};
ghost use Rattle.vz_surface_manager.specs.Settles.{IsRound};

use crate::LiveSurfaces;
use vz_frame::Room;
use vz_ids::{Sub, SurfaceId};

/// The part of a list from a place on. Condition: the place is not after the end of the list.
pub(crate) fn since<T>(list: &Room<T>, from: usize) -> &[T]
    requires { from ≤ length list.now.list }
    ensures { result.now ≡ drop from list.now.list }
{
    &list.as_slice()[from..]
}

/// One round: the submissions that are ready become active, one after another, and the surface of
/// each is appended to `ids`. It allocates nothing. Condition: there is room for the surfaces.
pub(crate) fn rise_all(live: &mut LiveSurfaces, subs: &[Sub], ids: &mut Room<SurfaceId>)
    requires round { (w : World) × (but : Option Id) × IsRound w but subs.now live.old }
    requires room { length subs.now ≤ ids.old.spare }
    ensures live { (w : World) (but : Option Id) → IsRound w but subs.now live.old
        → AreLive (round w) but live.new }
    ensures ids { (w : World) (but : Option Id) → IsRound w but subs.now live.old
        → ids.new.list ≡ ids.old.list ++ map (λ s. s.submitted.id) (ready w) }
    ensures room { ids.old.spare ≡ ids.new.spare + length subs.now }
    ensures out { resources_out live.new.lent ≡ resources_out live.old.lent }
    ensures count { owed_count live.new.owed.owed ≡ owed_count live.old.owed.owed }
    ensures sets { length live.new.kept.sets ≤ length live.old.kept.sets + length subs.now }
    ensures kept { live.old.kept.room ≤ live.new.kept.room }
    ensures temporary { length live.new.kept.temporary ≤ length live.old.kept.temporary }
{
    for sub in subs {
        ids.put(live.rise(*sub));
    }
}
