//! Steps that have effects, except for submissions.
ghost use Rattle.std.specs.Prelude.{◌≡◌, ◌==◌, ◌≤◌, ◌&&◌, [], length, IfOk, OnOk, OnErr};
ghost use Rattle.vz_ids.specs.declared.LocalSurfaceId.{LocalSurfaceId as Local};
ghost use Rattle.vz_frame.specs.declared.message.Message.TheVariants.{SetRoot, Close};
ghost use Rattle.vz_rules.specs.declared.entry.Event.TheVariants as event;
ghost use Rattle.vz_rules.specs.Plan.{Plan};
ghost use Rattle.vz_rules.specs.World.{World, Client};
ghost use Rattle.vz_rules.specs.Step.{step_in};
ghost use Rattle.vz_support.specs.Supporting.{IsNext};
ghost use Rattle.vz_manager.specs.Serving.{Serves, IsStepOf, IsSending};

use crate::outcome::finish;
use crate::parts::Parts;
use crate::quiet::nothing_follows;
use crate::room::ready_to_follow;
use vz_base::Memory;
use vz_machine::Step;
use vz_rules::Reply;
use vz_surface_manager::SurfaceManager;

/// Whether a begin-frame changes the tick alone: no submission waits, and no surface is temporary.
fn is_at_rest(settling: &SurfaceManager) -> bool
    ensures { result ≡ ((length settling.now.waiting.due == 0)
        && (length settling.now.live.kept.temporary == 0)) }
{
    settling.waiting.count() == 0 && settling.live.temporary() == 0
}

impl Parts {
    /// A client names the root surface, which need not exist. Only the first client may; the
    /// request of another is refused. It returns `Memory` if an allocation fails; then nothing
    /// changes. Conditions: the client exists, this is its next message, and the parts are right
    /// for a state.
    pub(crate) fn set_root(&mut self, c: u32) -> Result<Step, Memory>
        requires some { 1 ≤ c }
        requires known { c ≤ length self.old.support.clients }
        requires next { (local : Local) × IsNext self.old.support c (SetRoot local) }
        requires stands { (p : Plan) × (w : World) × Serves p w self.old }
        ensures step { (p : Plan) (w : World) (x : Client) (local : Local) → Serves p w self.old
            → IsSending p w c x (SetRoot local)
            → IfOk result (λ s. IsStepOf p w (event.Client c) s) }
        ensures serves { (p : Plan) (w : World) (x : Client) (local : Local) → Serves p w self.old
            → IsSending p w c x (SetRoot local)
            → OnOk result (Serves p (step_in p w (event.Client c)).world self.new) }
        ensures err { OnErr result (self.new ≡ self.old) }
    {
        ready_to_follow(&self.settling, 0, &mut self.following)?;
        let reply = self.support.set_root(c);
        let root = self.support.root();
        Ok(finish(
            self.alloc,
            reply,
            &mut self.settling,
            root,
            None,
            true,
            &mut self.following,
        ))
    }

    /// Closes a client. It returns `Memory` if an allocation fails; then nothing changes.
    /// Conditions: the client exists, this is its next message, and the parts are right for a
    /// state.
    pub(crate) fn close(&mut self, c: u32) -> Result<Step, Memory>
        requires some { 1 ≤ c }
        requires known { c ≤ length self.old.support.clients }
        requires next { IsNext self.old.support c Close }
        requires stands { (p : Plan) × (w : World) × Serves p w self.old }
        ensures step { (p : Plan) (w : World) (x : Client) → Serves p w self.old
            → IsSending p w c x Close
            → IfOk result (λ s. IsStepOf p w (event.Client c) s) }
        ensures serves { (p : Plan) (w : World) (x : Client) → Serves p w self.old
            → IsSending p w c x Close
            → OnOk result (Serves p (step_in p w (event.Client c)).world self.new) }
        ensures err { OnErr result (self.new ≡ self.old) }
    {
        ready_to_follow(&self.settling, 0, &mut self.following)?;
        let sink = self.support.sink(c);
        self.support.close(c);
        self.settling.live.close(c, sink);
        self.settling
            .waiting
            .closed(sink, &mut self.following.activated);
        let root = self.support.root();
        Ok(finish(
            self.alloc,
            Reply::Left,
            &mut self.settling,
            root,
            None,
            true,
            &mut self.following,
        ))
    }

    /// A begin-frame while no submission waits and no surface is temporary: the tick rises by one,
    /// and nothing follows. It allocates nothing. Condition: the parts are right for a state.
    fn begin_at_rest(&mut self) -> Step
        requires stands { (p : Plan) × (w : World) × Serves p w self.old }
        requires none_waits { self.old.settling.waiting.due ≡ [] }
        requires none_lasts { self.old.settling.live.kept.temporary ≡ [] }
        ensures step { (p : Plan) (w : World) → Serves p w self.old
            → IsStepOf p w event.Begin result }
        ensures serves { (p : Plan) (w : World) → Serves p w self.old
            → Serves p (step_in p w event.Begin).world self.new }
    {
        let tick = self.support.begin();
        let settling = &mut self.settling;
        settling.live.tick(tick);
        let activated = &mut self.following.activated;
        settling.waiting.ticked(tick, activated);
        nothing_follows(Reply::Ticked(tick))
    }

    /// A begin-frame: the tick rises by one. It returns `Memory` if an allocation fails; then
    /// nothing changes. Condition: the parts are right for a state.
    pub(crate) fn begin(&mut self) -> Result<Step, Memory>
        requires stands { (p : Plan) × (w : World) × Serves p w self.old }
        ensures step { (p : Plan) (w : World) → Serves p w self.old
            → IfOk result (λ s. IsStepOf p w event.Begin s) }
        ensures serves { (p : Plan) (w : World) → Serves p w self.old
            → OnOk result (Serves p (step_in p w event.Begin).world self.new) }
        ensures err { OnErr result (self.new ≡ self.old) }
    {
        if is_at_rest(&self.settling) {
            return Ok(self.begin_at_rest());
        }
        ready_to_follow(&self.settling, 0, &mut self.following)?;
        let anew = self.settling.live.temporary() > 0;
        let tick = self.support.begin();
        self.settling.live.tick(tick);
        self.settling
            .waiting
            .ticked(tick, &mut self.following.activated);
        let root = self.support.root();
        let reply = Reply::Ticked(tick);
        Ok(finish(
            self.alloc,
            reply,
            &mut self.settling,
            root,
            None,
            anew,
            &mut self.following,
        ))
    }
}
