//! Cursors of the walk: the quads that are still to be visited.
ghost use Rattle.std.specs.Prelude.{◌≡◌, ◌≤◌, ◌<◌, ◌^◌, length, List, ◌+◌, ◌++◌, ◌∷◌, []};
ghost use Rattle.std.specs.Prelude.{false, take, reverse, IsSome, IfSome, IfOk, OnOk, MatchOption};
ghost use Rattle.std.specs.Arc.{arc_value};
ghost use Rattle.vz_rules.specs.World.{FrameData};
ghost use Rattle.vz_rules.specs.Paint.{on_path};
ghost use Rattle.vz_rules.specs.Walk.{Placement as OnePlacement, WalkRange};
ghost use Rattle.vz_rules.specs.Walk.{place_in, groups_walked, walk, weight, too_much};
ghost use Rattle.vz_placement.specs.Limits.{HasRoom, IsPassInReach, IsQuadInReach, coordinates, room_for};
ghost use Rattle.vz_scene.specs.Walking.{ranges_of, named_of, walked_at};
ghost use Rattle.vz_scene.specs.Walking.{cursor_walked, maybe_walked, group_at, next_cursor};

use crate::active_frames::ActiveFrames;
use crate::submitted::SubmittedFrame;
use crate::visit::Walked;
use std::alloc::{AllocError, Global};
use std::marker::Model;
use std::sync::Arc;
use vz_frame::{DrawQuad, Material, RenderPass};
use vz_ids::{SurfaceId, SurfaceRange};
use vz_placement::Placement;

/// The quads of a pass that are still to be visited, from one quad on. It knows the submitted
/// frame, the place of the pass in it, the surfaces on the path, and how many more surfaces the
/// path may have. The place has room for all passes that the walk may still enter.
#[derive(Drop)]
pub(crate) struct Cursor<'b, 'a> {
    levels: u32,
    path: Arc<Vec<SurfaceId>, Global>,
    submitted: &'b SubmittedFrame<'a>,
    pass: usize,
    quad: usize,
    place: Placement,
}

impl<'b, 'a> Model for Cursor<'b, 'a> {
    ghost use Rattle.std.specs.Arc.{arc_value};
    ghost use Rattle.vz_scene.specs.Walking.{Cursor as Waiting, IsBounded};

    ghost Value = { Waiting };

    ghost view = { λ c. record {
      levels = c.levels;
      path = (arc_value c.path).items;
      submitted = c.submitted.now;
      pass = c.pass;
      quad = c.quad;
      place = c.place;
    } };

    ghost invariant = { λ c. IsBounded c.levels c.submitted.now c.pass c.place };
}

/// The last pass with an id among those before a place.
fn pass_of(passes: &[RenderPass], before: usize, id: u32) -> Option<usize>
    requires { before ≤ length passes.now }
    ensures found { (ranges : WalkRange) (place : OnePlacement)
        → groups_walked ranges (reverse (take before passes.now)) id place
        ≡ group_at ranges passes.now place result }
    ensures before { IfSome result (λ k. k < before) }
{
    let mut k = before;
    while k > 0 {
        k -= 1;
        if passes[k].id == id {
            return Some(k);
        }
    }
    None
}

/// A path with one more surface in front.
fn behind(
    alloc: Global,
    id: SurfaceId,
    path: &[SurfaceId],
) -> Result<Arc<Vec<SurfaceId>, Global>, AllocError>
    ensures { IfOk result (λ p. (arc_value p).items ≡ id ∷ path.now) }
{
    let mut ids = Vec::new(alloc);
    ids.push(id)?;
    ids.extend_from_slice(path)?;
    match Arc::new(alloc, ids) {
        Ok(shared) => Ok(shared),
        Err(_) => Err(AllocError),
    }
}

/// Whether the frame's surface is on the path.
fn is_on_path(path: &[SurfaceId], submitted: &SubmittedFrame<'_>) -> bool
    ensures { result ≡ on_path path.now submitted.now }
{
    path.contains(&submitted.id)
}

/// The cursor for the root pass of a surface, with the surfaces on the path and how many more it
/// may have. It is None if the path may have no more, or the frame has no pass. Condition: the
/// place has room for the passes of all of them.
pub(crate) fn enter<'b, 'a>(
    alloc: Global,
    levels: u32,
    path: &[SurfaceId],
    submitted: &'b SubmittedFrame<'a>,
    place: Placement,
) -> Result<Option<Cursor<'b, 'a>>, AllocError>
    requires { HasRoom (room_for levels 0) place.shift }
    ensures { (active : List FrameData)
        → IfOk result
        (λ o. maybe_walked active o ≡ walk levels active path.now submitted.now place) }
{
    if levels == 0 {
        return Ok(None);
    }
    let count = submitted.frame().passes.as_slice().len();
    if count == 0 {
        return Ok(None);
    }
    let path = behind(alloc, submitted.id, path)?;
    Ok(Some(Cursor {
        levels: levels - 1,
        path,
        submitted,
        pass: count - 1,
        quad: 0,
        place,
    }))
}

impl<'b, 'a> Cursor<'b, 'a> {
    /// The next quad with its pass, if there is one.
    pub(crate) fn quad_of(&self) -> Option<(&'a RenderPass, &'a DrawQuad)>
        ensures walked { (active : List FrameData)
            → MatchOption result (cursor_walked active self.now ≡ [])
            (λ r. cursor_walked active self.now ≡ walked_at active self.now r.0.now r.1.now
            ++ cursor_walked active (next_cursor self.now)) }
        ensures reach { IfSome result (λ r. IsPassInReach r.0.now × IsQuadInReach r.1.now) }
        ensures more { IsSome result → self.now.quad + 1 < 2 ^ 64 }
    {
        let pass = &self.submitted.frame().passes.as_slice()[self.pass];
        let quads = pass.quads.as_slice();
        if self.quad < quads.len() {
            Some((pass, &quads[self.quad]))
        } else {
            None
        }
    }

    /// Moves to the next quad. Condition: the count does not overflow.
    pub(crate) fn go_on(&mut self)
        requires { self.old.quad + 1 < 2 ^ 64 }
        ensures { self.new ≡ next_cursor self.old }
    {
        self.quad += 1;
    }

    /// The place of what a quad of this pass draws, with room for the earlier passes and all
    /// surfaces that are left. Conditions: the pass and the quad are within the limits.
    fn place_of(&self, pass: &RenderPass, quad: &DrawQuad) -> Placement
        requires pass { IsPassInReach pass.now }
        requires quad { IsQuadInReach quad.now }
        ensures value { result ≡ place_in self.now.place pass.now quad.now }
        ensures room { HasRoom (room_for self.now.levels self.now.pass + coordinates 1) result.shift }
    {
        self.place.place_in(pass, quad)
    }

    /// The cursor for an earlier pass with an id, drawn as a group at a place. Condition: the
    /// place has room for the earlier passes and all surfaces that are left.
    fn group(&self, id: u32, place: &Placement) -> Result<Option<Cursor<'b, 'a>>, AllocError>
        requires { HasRoom (room_for self.now.levels self.now.pass + coordinates 1) place.now.shift }
        ensures { (active : List FrameData)
            → IfOk result (λ o. maybe_walked active o ≡ named_of active self.now id place.now) }
    {
        let passes = self.submitted.frame().passes.as_slice();
        match pass_of(passes, self.pass, id) {
            None => Ok(None),
            Some(k) => {
                let path = Arc::try_clone(&self.path)?;
                Ok(Some(Cursor {
                    levels: self.levels,
                    path,
                    submitted: self.submitted,
                    pass: k,
                    quad: 0,
                    place: place.inside(&passes[k]),
                }))
            }
        }
    }

    /// Visits a range, and returns the cursor for the surface that it shows. Condition: the place
    /// has room for all surfaces that are left.
    fn range(
        &self,
        alloc: Global,
        active: &ActiveFrames<'b, 'a>,
        range: SurfaceRange,
        place: Placement,
        walked: &mut Walked<'b, 'a>,
    ) -> Result<Option<Cursor<'b, 'a>>, AllocError>
        requires { HasRoom (room_for self.now.levels 0) place.shift }
        ensures walked { IfOk result (λ o. walked.new ++ maybe_walked active.now o
            ≡ walked.old ++ ranges_of active.now self.now range place) }
        ensures weight { OnOk result (weight walked.new ≡ weight walked.old) }
    {
        let shown = active.shown_frame(&range);
        walked.add_shows(range, shown, place.window())?;
        match shown {
            None => Ok(None),
            Some(submitted) => {
                let path = self.path.as_slice();
                if is_on_path(path, submitted) {
                    return Ok(None);
                }
                walked.add_enters(path.len() + 1, submitted, place)?;
                Ok(enter(alloc, self.levels, path, submitted, place)?)
            }
        }
    }

    /// Visits a quad, and returns the cursor for what it draws. Conditions: the limit was not
    /// passed before, and the pass and the quad are within the limits.
    pub(crate) fn quad(
        &self,
        alloc: Global,
        active: &ActiveFrames<'b, 'a>,
        pass: &RenderPass,
        quad: &DrawQuad,
        walked: &mut Walked<'b, 'a>,
    ) -> Result<Option<Cursor<'b, 'a>>, AllocError>
        requires few { too_much walked.old ≡ false }
        requires pass { IsPassInReach pass.now }
        requires quad { IsQuadInReach quad.now }
        ensures walked { IfOk result (λ o. walked.new ++ maybe_walked active.now o
            ≡ walked.old ++ walked_at active.now self.now pass.now quad.now) }
        ensures weight { OnOk result (weight walked.new ≡ weight walked.old + 1) }
    {
        walked.add_quad()?;
        match quad.material {
            Material::Pass(id) => Ok(self.group(id, &self.place_of(pass, quad))?),
            Material::Surface { range, .. } => {
                let place = self.place_of(pass, quad);
                Ok(self.range(alloc, active, range, place, walked)?)
            }
            Material::Solid(_) => Ok(None),
            Material::Tile { .. } => Ok(None),
        }
    }
}
