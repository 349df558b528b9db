//! The damage on a surface since the last aggregation, and what is remembered for the next one.
ghost use Rattle.std.specs.Prelude.{◌≡◌, map, filter, [], false, IfOk};
ghost use Rattle.std.specs.List.{list_any, filter_map};
ghost use Rattle.std.specs.Option.{option_map_or};
ghost use Rattle.vz_geom.specs.Rectangle.{bound};
ghost use Rattle.std.specs.BTreeSet.{contains};
ghost use Rattle.vz_ids.specs.Ids.{same_sub};
ghost use Rattle.vz_scene.specs.Order.{by_sub};
ghost use Rattle.vz_rules.specs.World.{FrameData};
ghost use Rattle.vz_rules.specs.Walk.{goes_into};
ghost use Rattle.vz_rules.specs.Damage.{shown_range, of_same_range, is_between};
ghost use Rattle.vz_rules.specs.Damage.{damage_since, aggregation_of};
ghost use Rattle.vz_rules.specs.Closure.{adding};
ghost use Rattle.vz_placement.specs.Limits.{IsInReach};

use crate::aggregation::Aggregation;
use crate::index::Index;
use crate::submitted::SubmittedFrame;
use crate::visit::{Kind, Visit};
use std::alloc::{AllocError, Global};
use std::collections::BTreeSet;
use vz_geom::Rect;
use vz_ids::{Sub, SurfaceId, SurfaceRange};

/// The smallest rectangle around all of these.
#[tactic(auto, using(std::proofs::lemmas::List::drop_all), unfolding(vz_geom::specs::Rectangle::bound))]
pub(crate) fn bound(rects: &[Rect]) -> Rect
    ensures { result ≡ bound rects.now }
{
    let mut best = Rect::empty();
    let mut k = rects.len();
    while k > 0 {
        k -= 1;
        best = rects[k].bound(&best);
    }
    best
}

impl<'a> SubmittedFrame<'a> {
    /// Whether a submission is on the surface of another, and its number there is greater than
    /// `from` and not greater than that of the other.
    fn is_between(&self, from: u32, other: &SubmittedFrame<'_>) -> bool
        ensures { result ≡ is_between from other.now self.now }
    {
        self.id == other.id && from < self.index && self.index <= other.index
    }
}

/// The smallest rectangle around the damages on a frame's surface since the last aggregation.
#[tactic(auto, unfolding(vz_rules::specs::Damage::damage_since))]
pub(crate) fn damage_since(
    last: &Index<'_>,
    accepted: &[SubmittedFrame<'_>],
    submitted: &SubmittedFrame<'_>,
) -> Rect
    ensures value { result ≡ damage_since last.now accepted.now submitted.now }
    ensures reach { IsInReach result }
{
    let from = last.index_in(submitted);
    let mut best = Rect::empty();
    let mut k = accepted.len();
    while k > 0 {
        k -= 1;
        let frame = &accepted[k];
        if frame.is_between(from, submitted) {
            best = frame.frame().root_damage().bound(&best);
        }
    }
    best
}

impl<'b, 'a> Visit<'b, 'a> {
    /// The submission on the surface that this visit enters, if it enters one.
    fn entered(&self) -> Option<Sub>
        ensures { (i : FrameData)
            → goes_into i self.now ≡ option_map_or (same_sub i.sub) result false }
    {
        match &self.kind {
            Kind::Quad => None,
            Kind::Shows { .. } => None,
            Kind::Enters { submitted, .. } => Some(submitted.sub()),
        }
    }

    /// The range that this visit met, and the surface that the range showed.
    fn shown_range(&self) -> Option<(SurfaceRange, Option<SurfaceId>)>
        ensures { result ≡ shown_range self.now }
    {
        match &self.kind {
            Kind::Quad => None,
            Kind::Shows { range, shown, .. } => match shown {
                None => Some((*range, None)),
                Some(submitted) => Some((*range, Some(submitted.id()))),
            },
            Kind::Enters { .. } => None,
        }
    }
}

/// The submissions on the surfaces that the walk enters.
fn entered_subs(alloc: Global, visits: &[Visit<'_, '_>]) -> Result<BTreeSet<Sub>, AllocError>
    ensures { IfOk result
        (λ s. (i : FrameData) → contains by_sub s i.sub ≡ list_any (goes_into i) visits.now) }
{
    let mut subs = BTreeSet::new(alloc);
    for visit in visits {
        let Some(sub) = visit.entered() else {
            continue;
        };
        subs.insert(sub)?;
    }
    Ok(subs)
}

/// The submissions of the frames that are in a set.
fn subs_in(
    alloc: Global,
    active: &[SubmittedFrame<'_>],
    subs: &BTreeSet<Sub>,
) -> Result<Vec<Sub>, AllocError>
    ensures { IfOk result (λ v. v.items
        ≡ map (λ (i : FrameData). i.sub)
        (filter (λ (i : FrameData). contains by_sub subs.now i.sub) active.now)) }
{
    let mut found = Vec::new(alloc);
    for submitted in active {
        if subs.contains(&submitted.sub) {
            found.push(submitted.sub)?;
        }
    }
    Ok(found)
}

/// The active submissions of the surfaces walked, each once, in the order of acceptance.
pub fn walked_subs(
    alloc: Global,
    active: &[SubmittedFrame<'_>],
    visits: &[Visit<'_, '_>],
) -> Result<Vec<Sub>, AllocError>
    ensures { IfOk result (λ v. v.items
        ≡ map (λ (i : FrameData). i.sub)
        (filter (λ (i : FrameData). list_any (goes_into i) visits.now) active.now)) }
{
    let entered = entered_subs(alloc, visits)?;
    Ok(subs_in(alloc, active, &entered)?)
}

/// Each range once, with the surface that it showed first.
fn each_once(
    alloc: Global,
    pairs: &[(SurfaceRange, Option<SurfaceId>)],
) -> Result<Vec<(SurfaceRange, Option<SurfaceId>)>, AllocError>
    ensures { IfOk result (λ v. v.items ≡ adding of_same_range [] pairs.now) }
{
    let mut once = Vec::new(alloc);
    let mut seen = BTreeSet::new(alloc);
    for pair in pairs {
        if !seen.insert(pair.0)? {
            continue;
        }
        once.push(*pair)?;
    }
    Ok(once)
}

/// The ranges that the walk met, each with the surface that it showed.
fn shown_ranges(
    alloc: Global,
    visits: &[Visit<'_, '_>],
) -> Result<Vec<(SurfaceRange, Option<SurfaceId>)>, AllocError>
    ensures { IfOk result (λ v. v.items ≡ filter_map shown_range visits.now) }
{
    visits
        .iter()
        .filter_map(|visit| visit.shown_range())
        .collect(alloc)
}

/// The number of each active frame among those of its surface.
fn indices(
    alloc: Global,
    active: &[SubmittedFrame<'_>],
) -> Result<Vec<(SurfaceId, u32)>, AllocError>
    ensures { IfOk result (λ v. v.items ≡ map (λ (i : FrameData). (i.id, i.index)) active.now) }
{
    active
        .iter()
        .map(|submitted| (submitted.id, submitted.index))
        .collect(alloc)
}

/// What is remembered of a scene and the walk through it, for the next aggregation.
#[tactic(auto, unfolding(vz_rules::specs::Damage::aggregation_of))]
pub fn remember(
    alloc: Global,
    root: SurfaceId,
    active: &[SubmittedFrame<'_>],
    visits: &[Visit<'_, '_>],
) -> Result<Aggregation, AllocError>
    ensures { IfOk result
        (λ a. a ≡ aggregation_of (record { root = root; active = active.now }) visits.now) }
{
    let indices = indices(alloc, active)?;
    let shown = shown_ranges(alloc, visits)?;
    Ok(Aggregation {
        root,
        indices,
        ranges: each_once(alloc, &shown)?,
    })
}
