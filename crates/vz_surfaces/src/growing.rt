//! Room for a submission that is to be accepted.
ghost use Rattle.std.specs.Prelude.{◌≡◌, ◌<◌, ◌++◌, ◌∷◌, ◌&&◌, [], ℕ, not, if◌then◌else◌, false, IsTrue, OnOk, OnErr};
ghost use Rattle.indexmap.specs.IndexMap.{spare as spare_of};
ghost use Rattle.vz_ids.specs.declared.SurfaceId.{SurfaceId as Id};
ghost use Rattle.vz_surfaces.specs.Chains.{is_group, links_at, newest_at};
ghost use Rattle.vz_surfaces.specs.Numbers.{list_at, has_room};
ghost use Rattle.vz_surfaces.specs.Memory.{HasSame, HasSpare};

use crate::groups::{Groups, Link};
use crate::standing::Standing;
use crate::table::Table;
use crate::waits::Waits;
use std::alloc::Global;
use vz_base::Memory;
use vz_ids::SurfaceId;

/// Makes room for one more surface and one more waiting submission, and puts the surface into its
/// group, unless it is the last one of its client. If it returns `Memory`, the groups do not
/// change.
pub(crate) fn grow(
    alloc: Global,
    table: &mut Table,
    waits: &mut Waits,
    groups: &mut Groups,
    standing: &mut Standing,
    id: SurfaceId,
    c: u32,
    last: bool,
) -> Result<(), Memory>
    ensures table { HasSame table.old table.new }
    ensures waits { waits.new.surfaces.entries ≡ waits.old.surfaces.entries }
    ensures surfaces { OnOk result (HasSpare table.new) }
    ensures names { OnOk result (0 < spare_of waits.new.surfaces) }
    ensures chain { (q : Id) → OnOk result (links_at groups.new q
        ≡ (if not last && is_group id q
        then links_at groups.old q ++ record { id = id; key = table.new.surfaces.vacant_key } ∷ []
        else links_at groups.old q)) }
    ensures err { (q : Id) → OnErr result (links_at groups.new q ≡ links_at groups.old q) }
    ensures newest { (q : Id) → newest_at groups.new q ≡ newest_at groups.old q }
    ensures lists { (q : ℕ) → list_at standing.new q ≡ list_at standing.old q }
    ensures room { OnOk result (last ≡ false → IsTrue (has_room standing.new c)) }
{
    table.reserve()?;
    waits.reserve()?;
    if last {
        return Ok(());
    }
    standing.reserve(alloc, c)?;
    let key = table.next_key();
    groups.add(alloc, Link { id, key })?;
    Ok(())
}
