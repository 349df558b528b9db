//! A draw: what is drawn, or why nothing is.
ghost use Rattle.std.specs.Prelude.{◌≡◌, ◌&&◌, is_some, None, IfOk, IfSome};
ghost use Rattle.vz_geom.specs.Display.{IsDisplaySize};
ghost use Rattle.vz_geom.specs.Rectangle.{is_empty_rect};
ghost use Rattle.vz_rules.specs.Damage.{drawn_damage};
ghost use Rattle.vz_rules.specs.Messages.{says};
ghost use Rattle.vz_rules.specs.Plan.{Plan as Planned};
ghost use Rattle.vz_rules.specs.Step.{accepted_frames as accepted_in, scene_answer, draw_answer};
ghost use Rattle.vz_slow.specs.Drawn.{shown_by, walked_answer, drawn_picture};

use crate::world::World;
use std::alloc::AllocError;
use vz_frame::List;
use vz_geom::{Rect, Size};
use vz_ids::{Sub, SurfaceId};
use vz_rules::{Plan, Reply};
use vz_scene::{
    ActiveFrames, Aggregation, SubmittedFrame, Visit, drawn_damage, remember, walk_of, walked_subs,
};
use vz_state::{accepted_frames, active_frames};

/// Whether there was an aggregation before and the damage is empty.
fn is_unchanged(last: &Option<Aggregation>, damage: &Rect) -> bool
    ensures { result ≡ (is_some last.now && is_empty_rect damage.now) }
{
    match last {
        None => false,
        Some(_) => damage.is_empty(),
    }
}

impl<'a> World<'a> {
    /// The damage of what a walk visits. Condition: the size is that of a display.
    fn damage(
        &self,
        size: Size,
        root: &SurfaceId,
        visits: &[Visit<'_, '_>],
    ) -> Result<Rect, AllocError>
        requires { IsDisplaySize size }
        ensures { IfOk result (λ r. r ≡ drawn_damage size self.now.last
            (accepted_in self.now) root.now visits.now) }
    {
        let accepted = accepted_frames(self.alloc, &self.subs)?;
        Ok(drawn_damage(self.alloc, size, &self.last, &accepted, root, visits)?)
    }

    /// Remembers an aggregation, and draws its submissions unless nothing has changed since the
    /// one before.
    fn show(&mut self, damage: Rect, aggregation: Aggregation, subs: Vec<Sub>) -> Reply
        ensures { says result self.new
            ≡ shown_by self.old damage aggregation subs.items }
    {
        let unchanged = is_unchanged(&self.last, &damage);
        self.last = Some(aggregation);
        if unchanged {
            return Reply::Unchanged;
        }
        self.in_flight = Some(List::from_vec(subs));
        Reply::Drawn(damage)
    }

    /// Draws what a walk visits. Condition: the size is that of a display.
    #[tactic(auto, unfolding(vz_rules::specs::Walk::walked_subs))]
    fn draw_walked(
        &mut self,
        size: Size,
        root: SurfaceId,
        active: &[SubmittedFrame<'a>],
        visits: &[Visit<'_, 'a>],
    ) -> Result<Reply, AllocError>
        requires { IsDisplaySize size }
        ensures { IfOk result (λ r. says r self.new ≡ walked_answer size self.old
            (record { root = root; active = active.now }) visits.now) }
    {
        let damage = self.damage(size, &root, visits)?;
        let aggregation = remember(self.alloc, root, active, visits)?;
        let subs = walked_subs(self.alloc, active, visits)?;
        Ok(self.show(damage, aggregation, subs))
    }

    /// Draws a scene, or says why nothing is drawn.
    fn draw_scene(
        &mut self,
        plan: &Plan,
        root: SurfaceId,
        active: &ActiveFrames<'_, 'a>,
    ) -> Result<Reply, AllocError>
        ensures { IfOk result (λ r. says r self.new
            ≡ scene_answer plan.now self.old (record { root = root; active = active.now })) }
    {
        let size = plan.size();
        match walk_of(self.alloc, active, &root, size)? {
            None => Ok(Reply::TooMuch),
            Some(walked) => {
                let active = active.as_slice();
                Ok(self.draw_walked(size, root, active, walked.visits())?)
            }
        }
    }

    /// The reply to a draw that changes nothing, as a drawn frame is not done or no root is named.
    /// None says that it may be another one.
    pub(crate) fn undrawn(&self) -> Option<Reply>
        ensures { (p : Planned) → IfSome result (λ r. (says r self.now ≡ draw_answer p self.now)
            × (drawn_picture p self.now r ≡ None)) }
    {
        if self.in_flight.is_some() {
            return Some(Reply::Busy);
        }
        match self.root {
            None => Some(Reply::NoRoot),
            Some(_) => None,
        }
    }

    /// A draw. The reply is Busy if a drawn frame is not done yet, and NoRoot if nothing can be
    /// seen.
    pub(crate) fn draw(&mut self, plan: &Plan) -> Result<Reply, AllocError>
        ensures { IfOk result (λ r. says r self.new ≡ draw_answer plan.now self.old) }
    {
        if self.in_flight.is_some() {
            return Ok(Reply::Busy);
        }
        match self.root {
            None => Ok(Reply::NoRoot),
            Some(root) => {
                let frames = active_frames(self.alloc, &self.subs)?;
                let active = ActiveFrames::new(self.alloc, &frames)?;
                match active.frame_on(&root) {
                    None => Ok(Reply::NoRoot),
                    Some(_) => Ok(self.draw_scene(plan, root, &active)?),
                }
            }
        }
    }
}
