//! A draw with its picture.
ghost use Rattle.std.specs.Prelude.{◌≡◌, IfOk, OnErr};
ghost use Rattle.std.specs.Option.{option_map};
ghost use Rattle.vz_geom.specs.Display.{IsDisplaySize};
ghost use Rattle.vz_rules.specs.declared.entry.Event.TheVariants as event;
ghost use Rattle.vz_rules.specs.Step.{step_in};
ghost use Rattle.vz_rules.specs.Whole.{picture_in};
ghost use Rattle.vz_slow.specs.Drawn.{drawn_picture};
ghost use Rattle.vz_slow.specs.Reaching.{IsOutcome};

use crate::slow::Slow;
use std::alloc::AllocError;
use vz_geom::Size;
use vz_pixels::{Memory, Pixel};
use vz_plain::picture;
use vz_rules::{BoxedEffects, Reply};

impl<'a> Slow<'a> {
    /// The size of the display.
    pub fn size(&self) -> Size
        ensures value { result ≡ self.now.plan.size }
        ensures sides { IsDisplaySize result }
    {
        self.plan.size()
    }

    /// Draws. If the reply is Drawn, it also paints what was to be seen: a colour for each pixel,
    /// row by row from the top. The only error is `Memory`, if an allocation fails; then the
    /// machine is in the world before.
    pub fn draw_picture(&mut self) -> Result<(Reply, BoxedEffects, Option<Vec<Pixel>>), Memory>
        ensures step { IfOk result (λ d. IsOutcome (step_in self.old.plan self.old.world event.Draw)
            (d.0, d.1) self.new.world) }
        ensures picture { IfOk result (λ d. option_map (λ v. v.items) d.2
            ≡ drawn_picture self.old.plan self.old.world d.0) }
        ensures plan { self.new.plan ≡ self.old.plan }
        ensures err { OnErr result (self.new ≡ self.old) }
    {
        match self.draw_and_paint() {
            Ok(drawn) => Ok(drawn),
            Err(_) => Err(Memory),
        }
    }

    /// As `draw_picture`.
    fn draw_and_paint(&mut self) -> Result<(Reply, BoxedEffects, Option<Vec<Pixel>>), AllocError>
        ensures step { IfOk result (λ d. IsOutcome (step_in self.old.plan self.old.world event.Draw)
            (d.0, d.1) self.new.world) }
        ensures picture { IfOk result (λ d. option_map (λ v. v.items) d.2
            ≡ drawn_picture self.old.plan self.old.world d.0) }
        ensures plan { self.new.plan ≡ self.old.plan }
        ensures err { OnErr result (self.new ≡ self.old) }
    {
        match self.undrawn() {
            Some(reply) => Ok((reply, BoxedEffects::none(), None)),
            None => Ok(self.draw_and_paint_apart()?),
        }
    }

    /// As `draw_and_paint`, in a copy of the world. It paints the picture before the machine takes its step.
    fn draw_and_paint_apart(
        &mut self,
    ) -> Result<(Reply, BoxedEffects, Option<Vec<Pixel>>), AllocError>
        ensures step { IfOk result (λ d. IsOutcome (step_in self.old.plan self.old.world event.Draw)
            (d.0, d.1) self.new.world) }
        ensures picture { IfOk result (λ d. option_map (λ v. v.items) d.2
            ≡ drawn_picture self.old.plan self.old.world d.0) }
        ensures plan { self.new.plan ≡ self.old.plan }
        ensures err { OnErr result (self.new ≡ self.old) }
    {
        let mut next = self.copy()?;
        let reply = next.draw(self.plan)?;
        let pixels = self.picture_for(&reply)?;
        let (reply, effects) = self.finish(next, reply)?;
        Ok((reply, effects, pixels))
    }

    /// The picture of what can be seen, if the reply is Drawn.
    fn picture_for(&self, reply: &Reply) -> Result<Option<Vec<Pixel>>, AllocError>
        ensures { IfOk result (λ o. option_map (λ v. v.items) o
            ≡ drawn_picture self.now.plan self.now.world reply.now) }
    {
        match reply {
            Reply::Drawn(_) => Ok(Some(self.picture()?)),
            _ => Ok(None),
        }
    }

    /// The picture of what can be seen.
    #[tactic(auto, unfolding(vz_rules::specs::Whole::picture_in, vz_rules::specs::Scene::scene_of))]
    fn picture(&self) -> Result<Vec<Pixel>, AllocError>
        ensures { IfOk result (λ v. v.items ≡ picture_in self.now.plan self.now.world) }
    {
        let active = self.frames_of_world()?;
        Ok(picture(self.alloc, &active, &self.root(), self.plan.size())?)
    }
}
