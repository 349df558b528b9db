//! Which sinks a sink reaches, over the relations from parent to child.
ghost use Rattle.std.specs.Prelude.{◌≡◌, ◌++◌, length, OnOk, IfOk, [], ◌∷◌};
ghost use Rattle.vz_ids.specs.Ids.{same_sink};
ghost use Rattle.std.specs.List.{flat_map};
ghost use Rattle.vz_rules.specs.Plan.{has_sink};
ghost use Rattle.vz_rules.specs.Closure.{adding, closure};
ghost use Rattle.vz_rules.specs.Messages.{children, reaches};

use std::alloc::{AllocError, Global};
use vz_ids::FrameSinkId;

/// Whether a sink is among these.
pub fn has_sink(sinks: &[FrameSinkId], a: FrameSinkId) -> bool
    ensures { result ≡ has_sink sinks.now a }
{
    sinks.contains(&a)
}

/// Appends the sinks that the list does not have yet.
fn add_all(sinks: &mut Vec<FrameSinkId>, others: &[FrameSinkId]) -> Result<(), AllocError>
    ensures { OnOk result (sinks.new.items ≡ adding same_sink sinks.old.items others.now) }
{
    for other in others {
        if !has_sink(sinks, *other) {
            sinks.push(*other)?;
        }
    }
    Ok(())
}

/// Appends the children of a sink, in the order in which their relations were registered.
fn add_children(
    all: &mut Vec<FrameSinkId>,
    relations: &[(FrameSinkId, FrameSinkId)],
    a: FrameSinkId,
) -> Result<(), AllocError>
    ensures { OnOk result (all.new.items ≡ all.old.items ++ children relations.now a) }
{
    for relation in relations {
        if relation.0 == a {
            all.push(relation.1)?;
        }
    }
    Ok(())
}

/// The children of sinks.
fn all_children(
    alloc: Global,
    relations: &[(FrameSinkId, FrameSinkId)],
    sinks: &[FrameSinkId],
) -> Result<Vec<FrameSinkId>, AllocError>
    ensures { IfOk result (λ v. v.items ≡ flat_map (children relations.now) sinks.now) }
{
    let mut all = Vec::new(alloc);
    for sink in sinks {
        add_children(&mut all, relations, *sink)?;
    }
    Ok(all)
}

/// The sinks that a sink reaches, itself first. The search ends at the first round that adds
/// none.
pub fn reached(
    alloc: Global,
    relations: &[(FrameSinkId, FrameSinkId)],
    a: FrameSinkId,
) -> Result<Vec<FrameSinkId>, AllocError>
    ensures { IfOk result (λ v. v.items
        ≡ closure same_sink (children relations.now) (length relations.now) (a ∷ [])) }
{
    let mut sinks = Vec::new(alloc);
    sinks.push(a)?;
    let mut left = relations.len();
    while left > 0 {
        left -= 1;
        let others = all_children(alloc, relations, &sinks)?;
        let before = sinks.len();
        add_all(&mut sinks, &others)?;
        if sinks.len() == before {
            return Ok(sinks);
        }
    }
    Ok(sinks)
}

/// Whether a sink reaches another.
#[tactic(auto, unfolding(vz_rules::specs::Messages::reaches))]
pub fn reaches(
    alloc: Global,
    relations: &[(FrameSinkId, FrameSinkId)],
    a: FrameSinkId,
    b: FrameSinkId,
) -> Result<bool, AllocError>
    ensures { IfOk result (λ t. t ≡ reaches relations.now a b) }
{
    let sinks = reached(alloc, relations, a)?;
    Ok(has_sink(&sinks, b))
}
