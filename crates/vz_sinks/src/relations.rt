//! The relations between sinks.
ghost use Rattle.std.specs.Prelude.{◌≡◌, [], ◌∷◌, ◌++◌, OnOk, OnErr};
ghost use Rattle.vz_ids.specs.declared.FrameSinkId.{FrameSinkId as Id};
ghost use Rattle.vz_rules.specs.Plan.{has_sink};
ghost use Rattle.vz_rules.specs.Messages.{reaches, is_related};

use crate::reaching::{is_same, put_reached};
use std::alloc::Global;
use vz_base::Memory;
use vz_frame::{List, Room};
use vz_ids::FrameSinkId;

/// Adds a relation, and computes again what the first sink reaches. If an allocation fails,
/// nothing changes.
pub(crate) fn put_relation(
    relations: &mut Vec<(FrameSinkId, FrameSinkId)>,
    reached: &mut List<FrameSinkId>,
    first: FrameSinkId,
    parent: FrameSinkId,
    child: FrameSinkId,
    alloc: Global,
) -> Result<(), Memory>
    ensures items { OnOk result (relations.new.items
        ≡ relations.old.items ++ (parent, child) ∷ []) }
    ensures reached { OnOk result ((sink : Id)
        → has_sink reached.new sink ≡ reaches relations.new.items first sink) }
    ensures err { OnErr result ((relations.new.items ≡ relations.old.items)
        × (reached.new ≡ reached.old)) }
{
    let mut room = Room::new(alloc);
    room.reserve(relations.len() + 2)?;
    relations.try_reserve(1)?;
    relations.push_reserved((parent, child));
    put_reached(relations, first, &mut room);
    *reached = room.into_list();
    Ok(())
}

/// Whether a relation is registered.
pub(crate) fn is_related(
    relations: &[(FrameSinkId, FrameSinkId)],
    parent: &FrameSinkId,
    child: &FrameSinkId,
) -> bool
    ensures { result ≡ is_related relations.now parent.now child.now }
{
    for relation in relations {
        if is_same(&relation.0, parent) & is_same(&relation.1, child) {
            return true;
        }
    }
    false
}
