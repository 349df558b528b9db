//! The steps of the display except for a draw, and the effects of each step.
ghost use Rattle.std.specs.Prelude.{◌≡◌, ◌≤◌, [], true, IfOk, OnOk};
ghost use Rattle.vz_base.specs.declared.limits.TheConstants.{LAST_TICK};
ghost use Rattle.vz_rules.specs.Messages.{says};
ghost use Rattle.vz_rules.specs.Step.{begin_answer, outcome_of};
ghost use Rattle.vz_rules.specs.declared.entry.Reply.{Reply as Said};
ghost use Rattle.vz_state.specs.Attached.{attached_sinks};

use crate::world::{World, short};
use std::alloc::AllocError;
use vz_frame::{List, Room};
use vz_ids::FrameSinkId;
use vz_rules::{BoxedEffects, Effects, Plan, Reply, next_tick};
use vz_state::{deliver_all, make_room, reached};

impl<'a> World<'a> {
    /// The sinks that the first file's sink reaches.
    fn attached_sinks(&self, plan: &Plan) -> Result<Vec<FrameSinkId>, AllocError>
        ensures { IfOk result (λ v. v.items ≡ attached_sinks plan.now self.now) }
    {
        match plan.files().first() {
            None => Ok(Vec::new(self.alloc)),
            Some(file) => Ok(reached(self.alloc, &self.relations, file.sink)?),
        }
    }

    /// A begin-frame: the tick rises by one and is delivered to the attached clients. Condition:
    /// the tick is not after the last one.
    pub(crate) fn begin(&mut self, plan: &Plan) -> Result<Reply, AllocError>
        requires { self.old.tick ≤ LAST_TICK }
        ensures { IfOk result (λ r. says r self.new ≡ begin_answer plan.now self.old) }
    {
        let sinks = self.attached_sinks(plan)?;
        let tick = next_tick(self.tick);
        deliver_all(&mut self.clients, &sinks, tick);
        self.tick = tick;
        Ok(Reply::Ticked(tick))
    }

    /// The Over mark: no client will wait for a begin-frame any more.
    pub(crate) fn end(&mut self)
        ensures { self.new ≡ record self.old { over = true } }
    {
        self.over = true;
    }

    /// The effects of a change that presents nothing: activation, collection, returned resources
    /// and feedback.
    pub(crate) fn follow(&mut self) -> Result<BoxedEffects, AllocError>
        ensures effects { IfOk result (λ e. (r : Said)
            → e ≡ (outcome_of [] (says r self.old)).effects) }
        ensures world { OnOk result ((r : Said)
            → self.new ≡ (outcome_of [] (says r self.old)).world) }
    {
        let activated = self.settle()?;
        let destroyed = self.collect()?;
        let mut returned = Room::new(self.alloc);
        make_room(&mut returned, self.outs()?)?;
        self.give_back(&mut returned);
        let mut fed = Room::new(self.alloc);
        make_room(&mut fed, self.unfed())?;
        self.feed(&[], &mut fed);
        let effects = Effects {
            activated: short(self.alloc, List::from_vec(activated))?,
            destroyed: short(self.alloc, List::from_vec(destroyed))?,
            returned: short(self.alloc, returned.into_list())?,
            fed: short(self.alloc, fed.into_list())?,
        };
        let Ok(effects) = BoxedEffects::new(self.alloc, effects) else {
            return Err(AllocError);
        };
        Ok(effects)
    }
}
