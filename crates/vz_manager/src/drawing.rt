//! A draw.
ghost use Rattle.std.specs.Prelude.{◌≡◌, ◌≤◌, true, IfOk, OnOk, OnErr};
ghost use Rattle.vz_rules.specs.declared.entry.Event.TheVariants as event;
ghost use Rattle.vz_rules.specs.Plan.{Plan};
ghost use Rattle.vz_rules.specs.World.{World};
ghost use Rattle.vz_rules.specs.Step.{step_in};
ghost use Rattle.vz_returns.specs.Lent.{resources_out};
ghost use Rattle.vz_surface_manager.specs.Drawn_frame.{IsShowing, Measures, Flies};
ghost use Rattle.vz_manager.specs.Serving.{Serves, IsStepOf};
ghost use Rattle.vz_manager.specs.Picturing.{LookLike, IsPainted};
ghost use Rattle.vz_manager.specs.Showing.{IsToMeasure, IsToShow};

use crate::parts::Parts;
use crate::picture::{operations, picture_of};
use crate::quiet::nothing_follows;
use std::alloc::Global;
use vz_base::Memory;
use vz_damage::Measured;
use vz_flat::Ops;
use vz_frame::Room;
use vz_geom::Size;
use vz_ids::SurfaceId;
use vz_machine::Step;
use vz_occlude::FlatPicture;
use vz_rules::{EffectsRoom, Reply, Returned};
use vz_surface_manager::{Flight, LiveSurfaces, Look};

/// What a draw needs before it shows a frame, since it cannot be undone: the drawing operations,
/// and room for the end of the frame in `returned` and `landed`. The only error is `Memory`, if
/// an allocation fails. Condition: a draw walks from this root.
fn ready_to_show(
    alloc: Global,
    live: &LiveSurfaces,
    root: &SurfaceId,
    size: Size,
    returned: &mut Room<Returned>,
    landed: &mut EffectsRoom,
) -> Result<Ops, Memory>
    requires shows { (p : Plan) × (w : World) × IsShowing p w root.now size live.now }
    ensures look { (p : Plan) (w : World) → IsShowing p w root.now size live.now
        → IfOk result (λ ops. LookLike p w ops) }
    ensures list { returned.new.list ≡ returned.old.list }
    ensures room { OnOk result (resources_out live.now.lent ≤ returned.new.spare) }
    ensures landed { OnOk result (landed.new ≡ true) }
{
    live.make_room(0, returned)?;
    landed.reserve()?;
    let ops = operations(alloc, live, root, size)?;
    Ok(ops)
}

impl Parts {
    /// Draws from the root, with a picture if something is drawn. The only error is `Memory`, if
    /// an allocation fails; then the state does not change.
    pub(crate) fn draw(&mut self) -> Result<(Step, Option<FlatPicture>), Memory>
        requires stands { (p : Plan) × (w : World) × Serves p w self.old }
        ensures step { (p : Plan) (w : World) → Serves p w self.old
            → IfOk result (λ d. IsStepOf p w event.Draw d.0) }
        ensures picture { (p : Plan) (w : World) → Serves p w self.old
            → IfOk result (λ d. IsPainted p w d.0.reply d.1) }
        ensures serves { (p : Plan) (w : World) → Serves p w self.old
            → OnOk result (Serves p (step_in p w event.Draw).world self.new) }
        ensures err { (p : Plan) (w : World) → Serves p w self.old
            → OnErr result (Serves p w self.new) }
    {
        let reply = match self.settling.live.look(self.support.root()) {
            Look::Busy => Reply::Busy,
            Look::NoRoot => Reply::NoRoot,
            Look::Seen(root) => return self.draw_from(&root),
        };
        Ok((nothing_follows(reply), None))
    }

    /// Draws from a root that has something to show, with a picture if something changed. One
    /// walk finds whether the scene is over the limit, what changed and what is drawn. Condition:
    /// `look` returned `Seen` with this root.
    ///
    /// The only error is `Memory`, if an allocation fails; then the state does not change.
    fn draw_from(&mut self, root: &SurfaceId) -> Result<(Step, Option<FlatPicture>), Memory>
        requires seen { (p : Plan) × (w : World) × IsToMeasure p w root.now self.old }
        ensures step { (p : Plan) (w : World) → IsToMeasure p w root.now self.old
            → IfOk result (λ d. IsStepOf p w event.Draw d.0) }
        ensures picture { (p : Plan) (w : World) → IsToMeasure p w root.now self.old
            → IfOk result (λ d. IsPainted p w d.0.reply d.1) }
        ensures serves { (p : Plan) (w : World) → IsToMeasure p w root.now self.old
            → OnOk result (Serves p (step_in p w event.Draw).world self.new) }
        ensures err { (p : Plan) (w : World) → Serves p w self.old
            → OnErr result (Serves p w self.new) }
    {
        let size = self.size;
        let Some((measured, flight)) = self.settling.live.measure(self.alloc, root, size)? else {
            return Ok((nothing_follows(Reply::TooMuch), None));
        };
        self.draw_found(root, measured, flight)
    }

    /// Ends a draw that walked from a root, with a picture if something changed. If nothing did,
    /// only the measured aggregation is remembered. Everything is allocated before the first
    /// change. Condition: `measure` found this.
    ///
    /// The only error is `Memory`, if an allocation fails; then the state does not change.
    fn draw_found(
        &mut self,
        root: &SurfaceId,
        measured: Measured,
        flight: Flight,
    ) -> Result<(Step, Option<FlatPicture>), Memory>
        requires shows { (p : Plan) × (w : World) × IsToShow p w root.now self.old }
        requires measured { Measures root.now self.old.size self.old.settling.live measured }
        requires flown { Flies root.now self.old.size self.old.settling.live flight }
        ensures step { (p : Plan) (w : World) → IsToShow p w root.now self.old
            → IfOk result (λ d. IsStepOf p w event.Draw d.0) }
        ensures picture { (p : Plan) (w : World) → IsToShow p w root.now self.old
            → IfOk result (λ d. IsPainted p w d.0.reply d.1) }
        ensures serves { (p : Plan) (w : World) → IsToShow p w root.now self.old
            → OnOk result (Serves p (step_in p w event.Draw).world self.new) }
        ensures err { (p : Plan) (w : World) → Serves p w self.old
            → OnErr result (Serves p w self.new) }
    {
        let Some(damage) = measured.changed() else {
            self.settling.live.leave(measured);
            return Ok((nothing_follows(Reply::Unchanged), None));
        };
        let size = self.size;
        let live = &self.settling.live;
        let returned = &mut self.returned;
        let ops = ready_to_show(self.alloc, live, root, size, returned, &mut self.landed)?;
        self.settling.live.show(measured, flight, &mut self.fed)?;
        let step = nothing_follows(Reply::Drawn(damage));
        Ok((step, Some(picture_of(size, ops, damage))))
    }
}
