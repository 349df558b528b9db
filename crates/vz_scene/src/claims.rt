//! The claims of a draw: the places where something may have changed.
ghost use Rattle.std.specs.Prelude.{◌≡◌, ◌++◌, IfOk, OnOk};
ghost use Rattle.std.specs.List.{flat_map};
ghost use Rattle.std.specs.Option.{option_to_list};
ghost use Rattle.vz_geom.specs.Display.{IsDisplaySize};
ghost use Rattle.vz_rules.specs.Damage.{damage_since, damage_at, claims_of, claims, drawn_damage};
ghost use Rattle.vz_placement.specs.Limits.{IsInReach};
ghost use Rattle.vz_scene.specs.Order.{AreDamages};
ghost use Rattle.vz_scene.specs.Seen.{seen_damage};

use crate::aggregation::Aggregation;
use crate::damage::{bound, damage_since};
use crate::index::Index;
use crate::key::{FrameKey, frame_key};
use crate::submitted::SubmittedFrame;
use crate::visit::{Kind, Visit};
use std::alloc::{AllocError, Global};
use std::collections::BTreeMap;
use vz_geom::{Rect, Size};
use vz_ids::SurfaceId;
use vz_placement::{Placement, frame_rect, moved};

/// The damage on a frame's surface since the last aggregation. It is computed once for each
/// frame. Condition: the damages that are already known are right.
fn known_damage(
    last: &Index<'_>,
    accepted: &[SubmittedFrame<'_>],
    known: &mut BTreeMap<FrameKey, Rect>,
    submitted: &SubmittedFrame<'_>,
) -> Result<Rect, AllocError>
    requires { AreDamages last.now accepted.now known.old }
    ensures value { IfOk result (λ r. r ≡ damage_since last.now accepted.now submitted.now) }
    ensures reach { IfOk result (λ r. IsInReach r) }
    ensures known { OnOk result (AreDamages last.now accepted.now known.new) }
{
    let key = frame_key(submitted);
    if let Some(damage) = known.get(&key) {
        return Ok(*damage);
    }
    let damage = damage_since(last, accepted, submitted);
    known.insert(key, damage)?;
    Ok(damage)
}

/// The part of a surface's damage that is seen at a place. Condition: it is the damage since the
/// last aggregation.
fn seen_damage(damage: &Rect, submitted: &SubmittedFrame<'_>, place: &Placement) -> Rect
    requires { IsInReach damage.now }
    ensures { result ≡ seen_damage damage.now submitted.now place.now }
{
    let shift = place.shift();
    let surface = moved(&frame_rect(submitted.frame()), shift);
    let window = place.window().intersect(&surface);
    window.intersect(&moved(damage, shift))
}

/// What one visit of the walk claims, if anything. Condition: the known damages are right.
#[tactic(auto, unfolding(vz_rules::specs::Damage::claims_of, vz_rules::specs::Damage::damage_at))]
fn claim_of(
    last: &Index<'_>,
    accepted: &[SubmittedFrame<'_>],
    known: &mut BTreeMap<FrameKey, Rect>,
    visits: &Visit<'_, '_>,
) -> Result<Option<Rect>, AllocError>
    requires { AreDamages last.now accepted.now known.old }
    ensures claim { IfOk result
        (λ o. option_to_list o ≡ claims_of last.now accepted.now visits.now) }
    ensures known { OnOk result (AreDamages last.now accepted.now known.new) }
{
    match &visits.kind {
        Kind::Quad => Ok(None),
        Kind::Shows { range, shown, seen } => {
            if last.is_switched(range, *shown) {
                Ok(Some(*seen))
            } else {
                Ok(None)
            }
        }
        Kind::Enters {
            submitted,
            place,
            ..
        } => {
            let damage = known_damage(last, accepted, known, submitted)?;
            Ok(Some(seen_damage(&damage, submitted, place)))
        }
    }
}

/// Appends a claim, if there is one.
fn add_claim(all: &mut Vec<Rect>, claim: Option<Rect>) -> Result<(), AllocError>
    ensures { OnOk result (all.new.items ≡ all.old.items ++ option_to_list claim) }
{
    match claim {
        None => Ok(()),
        Some(rect) => {
            all.push(rect)?;
            Ok(())
        }
    }
}

/// What all visits claim.
fn all_claims(
    alloc: Global,
    last: &Aggregation,
    accepted: &[SubmittedFrame<'_>],
    visits: &[Visit<'_, '_>],
) -> Result<Vec<Rect>, AllocError>
    ensures { IfOk result (λ v. v.items ≡ flat_map (claims_of last.now accepted.now) visits.now) }
{
    let index = Index::new(alloc, last)?;
    let mut known = BTreeMap::new(alloc);
    let mut all = Vec::new(alloc);
    for visit in visits {
        let claim = claim_of(&index, accepted, &mut known, visit)?;
        add_claim(&mut all, claim)?;
    }
    Ok(all)
}

/// The claims of a walk. The whole display is claimed if there was no aggregation before or it
/// had another root. Condition: the size is that of a display.
#[tactic(auto, unfolding(vz_rules::specs::Damage::claims))]
fn claims(
    alloc: Global,
    size: Size,
    last: &Option<Aggregation>,
    accepted: &[SubmittedFrame<'_>],
    root: &SurfaceId,
    visits: &[Visit<'_, '_>],
) -> Result<Vec<Rect>, AllocError>
    requires { IsDisplaySize size }
    ensures { IfOk result (λ v. v.items ≡ claims size last.now accepted.now root.now visits.now) }
{
    match last {
        None => Ok(vec![in alloc; Rect::of_display(size)]?),
        Some(aggregation) => {
            if aggregation.root == *root {
                Ok(all_claims(alloc, aggregation, accepted, visits)?)
            } else {
                Ok(vec![in alloc; Rect::of_display(size)]?)
            }
        }
    }
}

/// The damage of a draw, in display pixels: the smallest rectangle around all claims. Condition:
/// the size is that of a display.
#[tactic(auto, unfolding(vz_rules::specs::Damage::drawn_damage))]
pub fn drawn_damage(
    alloc: Global,
    size: Size,
    last: &Option<Aggregation>,
    accepted: &[SubmittedFrame<'_>],
    root: &SurfaceId,
    visits: &[Visit<'_, '_>],
) -> Result<Rect, AllocError>
    requires { IsDisplaySize size }
    ensures { IfOk result (λ r. r ≡ drawn_damage size last.now accepted.now root.now visits.now) }
{
    let rects = claims(alloc, size, last, accepted, root, visits)?;
    Ok(bound(&rects))
}
