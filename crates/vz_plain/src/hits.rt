//! What is hit at a point, over quads, passes and surfaces. The passes that a search is inside of
//! are a stack on the heap.
ghost use Rattle.std.specs.Prelude.{◌≡◌, ◌<◌, ◌++◌, ◌∷◌, [], reverse, IfOk, OnOk};
ghost use Rattle.vz_rules.specs.Scene.{or_else};
ghost use Rattle.vz_rules.specs.Hit.{hit, hit_at};
ghost use Rattle.vz_plain.specs.Finding.{hit_first, finder_in, quad_left, path_into};
ghost use Rattle.vz_plain.specs.Answered.{answer, IsLowerInside};
ghost use Rattle.vz_plain.specs.Remaining.{remaining};

use crate::finder::{Finder, QuadAnswer};
use crate::point::is_inside;
use crate::searched::{SearchedPass, root_of};
use std::alloc::{AllocError, Global};
use vz_frame::DrawQuad;
use vz_geom::Point;
use vz_ids::SurfaceId;
use vz_scene::{ActiveFrames, LEVELS, SubmittedFrame};

/// What is hit in a quad of a pass, which is inside of the passes of a stack.
fn quad_answer<'b, 'a>(
    active: &ActiveFrames<'b, 'a>,
    pass: &SearchedPass<'b, 'a>,
    stack: &[SearchedPass<'b, 'a>],
    quad: &DrawQuad,
) -> QuadAnswer<'b, 'a>
    ensures value { answer (finder_in active.now (path_into (reverse stack.now)) pass.now) result
        ≡ quad_left active.now (path_into (reverse stack.now)) pass.now quad.now }
    ensures lower { IsLowerInside pass.now.levels pass.now.earlier result }
{
    let finder = Finder {
        active: &*active,
        outer: &*stack,
        is_root: pass.is_root,
        levels: pass.levels,
        submitted: pass.submitted,
        entry: pass.entry,
    };
    finder.quad(pass.earlier, pass.pass, quad, pass.point)
}

/// Looks at the next quad of a pass, which is inside of the passes of a stack, and puts onto the
/// stack what is then still to be searched. Returns the surface if that quad shows it.
fn turn<'b, 'a>(
    active: &ActiveFrames<'b, 'a>,
    mut pass: SearchedPass<'b, 'a>,
    stack: &mut Vec<SearchedPass<'b, 'a>>,
) -> Result<Option<(SurfaceId, Point)>, AllocError>
    ensures value { IfOk result (λ t. or_else t (hit_first active.now (reverse stack.new.items))
        ≡ hit_first active.now (pass.entry ∷ reverse stack.old.items)) }
    ensures less { OnOk result (remaining stack.new.items
        < remaining (stack.old.items ++ pass.entry ∷ [])) }
{
    match pass.next_quad() {
        None => Ok(None),
        Some(quad) => match quad_answer(active, &pass, stack.as_slice(), quad) {
            QuadAnswer::Surface => Ok(Some((pass.submitted.id(), pass.entry))),
            QuadAnswer::Nothing => {
                stack.push(pass)?;
                Ok(None)
            }
            QuadAnswer::Inside(inner) => {
                stack.push(pass)?;
                stack.push(inner)?;
                Ok(None)
            }
        },
    }
}

/// What is hit first in the passes of a stack, the last of which is searched first.
fn search<'b, 'a>(
    active: &ActiveFrames<'b, 'a>,
    mut stack: Vec<SearchedPass<'b, 'a>>,
) -> Result<Option<(SurfaceId, Point)>, AllocError>
    ensures { IfOk result (λ t. t ≡ hit_first active.now (reverse stack.entry.items)) }
{
    'passes: while let Some(pass) = stack.pop() {
        match turn(active, pass, &mut stack)? {
            Some(found) => return Ok(Some(found)),
            None => {}
        }
    }
    Ok(None)
}

/// What is hit in the root surface, which is entered at a point.
#[tactic(auto, unfolding(vz_rules::specs::Paint::levels))]
fn root_hit<'b, 'a>(
    alloc: Global,
    active: &ActiveFrames<'b, 'a>,
    submitted: &'b SubmittedFrame<'a>,
    point: Point,
) -> Result<Option<(SurfaceId, Point)>, AllocError>
    ensures { IfOk result (λ t. t ≡ hit LEVELS active.now [] submitted.now point) }
{
    match root_of(LEVELS, submitted, point) {
        None => Ok(None),
        Some(root) => {
            let mut stack = Vec::new(alloc);
            stack.push(root)?;
            Ok(search(active, stack)?)
        }
    }
}

/// What is hit at a point of the display, nothing if nothing can be seen.
#[tactic(auto, unfolding(vz_rules::specs::Hit::hit_at, vz_rules::specs::Paint::levels))]
fn found_at(
    alloc: Global,
    active: &ActiveFrames<'_, '_>,
    root: &SurfaceId,
    point: Point,
) -> Result<Option<(SurfaceId, Point)>, AllocError>
    ensures { IfOk result (λ t. t
        ≡ hit_at (record { root = root.now; active = active.now }) point) }
{
    match active.frame_on(root) {
        None => Ok(None),
        Some(submitted) => {
            if is_inside(submitted, point) {
                Ok(root_hit(alloc, active, submitted, point)?)
            } else {
                Ok(None)
            }
        }
    }
}

/// What is hit at a point of the display, of active frames and a root: a surface with a point of
/// its root pass.
pub fn hit_at(
    alloc: Global,
    active: &[SubmittedFrame<'_>],
    root: &SurfaceId,
    point: Point,
) -> Result<Option<(SurfaceId, Point)>, AllocError>
    ensures { IfOk result (λ t. t
        ≡ hit_at (record { root = root.now; active = active.now }) point) }
{
    let active = ActiveFrames::new(alloc, active)?;
    Ok(found_at(alloc, &active, root, point)?)
}
