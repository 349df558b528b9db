//! The end of the drawn frame.
ghost use Rattle.std.specs.Prelude.{◌≡◌, true, []};
ghost use Rattle.vz_rules.specs.declared.entry.Event.TheVariants as event;
ghost use Rattle.vz_rules.specs.declared.entry.Reply.TheVariants as reply;
ghost use Rattle.vz_rules.specs.Plan.{Plan};
ghost use Rattle.vz_rules.specs.World.{World};
ghost use Rattle.vz_rules.specs.Step.{step_in};
ghost use Rattle.vz_manager.specs.Serving.{Serves, IsStepOf};

use crate::parts::Parts;
use crate::quiet::nothing_follows;
use std::alloc::Global;
use vz_frame::Room;
use vz_machine::Step;
use vz_rules::{EffectsRoom, Fed, Reply, Returned};

/// The step in which the drawn frame was shown, with the returned resources and the feedback,
/// which are taken out of their lists. It allocates nothing.
fn shown(
    alloc: Global,
    returned: &mut Room<Returned>,
    fed: &mut Room<Fed>,
    room: &mut EffectsRoom,
) -> Step
    requires { room.old ≡ true }
    ensures reply { result.reply ≡ reply.Shown }
    ensures effects { result.effects ≡ record {
      activated = [];
      destroyed = [];
      returned = returned.old.list;
      fed = fed.old.list;
    } }
    ensures none_returned { returned.new.list ≡ [] }
    ensures none_fed { fed.new.list ≡ [] }
{
    let mut activated = Room::new(alloc);
    let mut destroyed = Room::new(alloc);
    Step {
        reply: Reply::Shown,
        effects: room.fill(&mut activated, &mut destroyed, returned, fed),
    }
}

impl Parts {
    /// Ends the drawn frame, if there is one: what its submissions held is released and returned,
    /// and they are presented. It allocates nothing, as room was made when the frame was drawn.
    /// Condition: the parts are right for a state.
    pub(crate) fn done(&mut self) -> Step
        requires stands { (p : Plan) × (w : World) × Serves p w self.old }
        ensures step { (p : Plan) (w : World) → Serves p w self.old
            → IsStepOf p w event.Done result }
        ensures serves { (p : Plan) (w : World) → Serves p w self.old
            → Serves p (step_in p w event.Done).world self.new }
    {
        if !self.settling.live.is_flying() {
            return nothing_follows(Reply::Nothing);
        }
        let returned = &mut self.returned;
        let fed = &mut self.fed;
        self.settling.live.land(returned, fed);
        shown(self.alloc, returned, fed, &mut self.landed)
    }
}
