//! A client submits a frame, which is accepted or refused.
ghost use Rattle.std.specs.Prelude.{◌≡◌, ◌≤◌, ◌<◌, ◌+◌, [], IsFalse, IfOk, OnOk, OnErr, length};
ghost use Rattle.vz_ids.specs.declared.LocalSurfaceId.{LocalSurfaceId as Local};
ghost use Rattle.vz_frame.specs.declared.frame.CompositorFrame.{CompositorFrame as Frame};
ghost use Rattle.vz_frame.specs.declared.message.Message.TheVariants.{Submit};
ghost use Rattle.vz_rules.specs.declared.entry.Event.TheVariants as event;
ghost use Rattle.vz_rules.specs.Plan.{Plan};
ghost use Rattle.vz_rules.specs.World.{World, Client};
ghost use Rattle.vz_rules.specs.Settle.{ready};
ghost use Rattle.vz_rules.specs.Messages.{accepted};
ghost use Rattle.vz_rules.specs.Step.{step_in};
ghost use Rattle.vz_rules.specs.Kept.{KeepsAlways};
ghost use Rattle.vz_surfaces.specs.Reading.{existing_count};
ghost use Rattle.vz_returns.specs.Lent.{resources_out};
ghost use Rattle.vz_returns.specs.Notes.{owed_count};
ghost use Rattle.vz_surface_manager.specs.Waits.{AreWaiting, Tells, is_among};
ghost use Rattle.vz_surface_manager.specs.Live.{AreLive};
ghost use Rattle.vz_surface_manager.specs.Acceptance.{new_one};
ghost use Rattle.vz_surface_manager.specs.Settles.{AreReady};
ghost use Rattle.vz_support.specs.Supporting.{IsSupport, IsNext};
ghost use Rattle.vz_manager.specs.Serving.{Serves, IsStepOf, IsSending};
ghost use Rattle.vz_manager.specs.Followed.{IsWithin};
ghost use Rattle.vz_manager.specs.Judging.{refusal_in};
ghost use Rattle.vz_manager.specs.Submitted.{IsAllowed, IsArriving, IsTakingIn, IsAcceptedAs};
ghost use Rattle.vz_manager.specs.Submitted.{HasTakenIn};

use crate::arriving::{Coming, make_room, read_submission};
use crate::judging::{refusal, submission};
use crate::outcome::finish;
use crate::parts::Parts;
use vz_base::Memory;
use vz_frame::{Room, ShortList};
use vz_ids::{FrameSinkId, Sub, SurfaceId};
use vz_machine::Step;
use vz_pixels::PixelBlock;
use vz_rules::{Refusal, Reply};
use vz_support::Support;
use vz_surface_manager::{Accepted, Arrival, SurfaceManager, Waiting};

/// Takes and accepts the submission of a client. If an allocation fails, it is the client's next
/// message again and the surfaces do not change. Conditions: the client exists, its next message
/// is a submission that is not refused, and there is room for it.
fn put_in(
    support: &mut Support,
    settling: &mut SurfaceManager,
    c: u32,
    sink: FrameSinkId,
    blocks: ShortList<PixelBlock>,
) -> Result<Accepted, Memory>
    requires some { 1 ≤ c }
    requires known { c ≤ length support.old.clients }
    requires next { (local : Local) × (frame : Frame)
        × IsNext support.old c (Submit frame local) }
    requires arrives { (p : Plan) × (w : World) × (x : Client) × (local : Local) × (frame : Frame)
        × IsArriving p w c x local frame sink blocks support.old settling.old }
    ensures accepted { (p : Plan) (w : World) (x : Client) (local : Local) (frame : Frame)
        → IsArriving p w c x local frame sink blocks support.old settling.old
        → IfOk result (IsAcceptedAs w x local frame) }
    ensures support { (p : Plan) (w : World) (x : Client) (local : Local) (frame : Frame)
        → IsArriving p w c x local frame sink blocks support.old settling.old
        → OnOk result (IsSupport p (accepted w x local frame).world support.new) }
    ensures live { (p : Plan) (w : World) (x : Client) (local : Local) (frame : Frame)
        → IsArriving p w c x local frame sink blocks support.old settling.old
        → OnOk result (AreLive (accepted w x local frame).world (new_one w x local)
        settling.new.live) }
    ensures out { (p : Plan) (w : World) (x : Client) (local : Local) (frame : Frame)
        → IsArriving p w c x local frame sink blocks support.old settling.old
        → resources_out settling.new.live.lent
        ≤ resources_out settling.old.live.lent + length frame.resources }
    ensures count { OnOk result (owed_count settling.new.live.owed.owed
        ≡ owed_count settling.old.live.owed.owed + 1) }
    ensures surfaces { existing_count settling.new.live.store
        ≤ existing_count settling.old.live.store + 1 }
    ensures kept { settling.new.live.kept ≡ settling.old.live.kept }
    ensures waiting { settling.new.waiting ≡ settling.old.waiting }
    ensures back { (p : Plan) (w : World) → KeepsAlways w → IsSupport p w support.old
        → OnErr result (IsSupport p w support.new) }
    ensures err { OnErr result (settling.new ≡ settling.old) }
{
    let (local, frame) = support.take_submission(c);
    let ack = frame.as_frame().metadata.ack;
    match settling.live.accept(c, sink, local, frame, blocks) {
        Ok(accepted) => {
            support.accept(c, ack);
            Ok(accepted)
        }
        Err(frame) => {
            support.put_back(c, local, frame);
            Err(Memory)
        }
    }
}

/// Makes an accepted submission wait. If it has no unmet dependency or its deadline has come, it
/// is ready at once and appended to `activated`. Conditions: it does not wait yet, and there is
/// room for it.
fn wait(
    waiting: &mut Waiting,
    a: Arrival,
    tick: u32,
    lacked: &[SurfaceId],
    activated: &mut Room<Sub>,
)
    requires new { IsFalse (is_among waiting.old a.sub) }
    requires room { length lacked.now < waiting.old.spare }
    requires place { 0 < activated.old.spare }
    requires none { activated.old.list ≡ [] }
    ensures waits { (w : World) (x : Client) (local : Local) (frame : Frame) → KeepsAlways w
        → AreWaiting w waiting.old → Tells w x local frame a tick lacked.now
        → AreWaiting (accepted w x local frame).world waiting.new }
    ensures ready { (w : World) (x : Client) (local : Local) (frame : Frame) → KeepsAlways w
        → ready w ≡ [] → Tells w x local frame a tick lacked.now
        → AreReady (accepted w x local frame).world activated.new.list }
    ensures few { length waiting.new.blocked + length activated.new.list
        ≤ length waiting.old.blocked + 1 }
    ensures spare { activated.old.spare ≤ activated.new.spare + length activated.new.list }
{
    let sub = a.sub;
    if waiting.accepted(a, tick, lacked) {
        activated.put(sub);
    }
}

/// Takes and accepts the submission of a client, which waits or, if it is ready at once, is
/// appended to `activated`. If an allocation fails, it is the client's next message again and the
/// surfaces do not change. Conditions: the client exists, its next message is a submission that
/// is not refused and that was read as `coming`, and there is room for it.
fn take_in(
    support: &mut Support,
    settling: &mut SurfaceManager,
    c: u32,
    coming: Coming,
    activated: &mut Room<Sub>,
) -> Result<Accepted, Memory>
    requires some { 1 ≤ c }
    requires known { c ≤ length support.old.clients }
    requires next { (local : Local) × (frame : Frame)
        × IsNext support.old c (Submit frame local) }
    requires takes { (p : Plan) × (w : World) × (x : Client) × (local : Local) × (frame : Frame)
        × IsTakingIn p w c x local frame coming support.old settling.old }
    requires place { 0 < activated.old.spare }
    requires none { activated.old.list ≡ [] }
    ensures accepted { (p : Plan) (w : World) (x : Client) (local : Local) (frame : Frame)
        → IsTakingIn p w c x local frame coming support.old settling.old
        → IfOk result (IsAcceptedAs w x local frame) }
    ensures taken { (p : Plan) (w : World) (x : Client) (local : Local) (frame : Frame)
        → IsTakingIn p w c x local frame coming support.old settling.old
        → OnOk result
        (HasTakenIn p w x local frame support.new settling.new activated.new.list) }
    ensures within { OnOk result (IsWithin coming.listings settling.old settling.new
        (length activated.new.list)) }
    ensures spare { OnOk result
        (activated.old.spare ≤ activated.new.spare + length activated.new.list) }
    ensures kept { settling.new.live.kept ≡ settling.old.live.kept }
    ensures back { (p : Plan) (w : World) → KeepsAlways w → IsSupport p w support.old
        → OnErr result (IsSupport p w support.new) }
    ensures err { OnErr result (settling.new ≡ settling.old) }
{
    let accepted = put_in(support, settling, c, coming.sink, coming.blocks)?;
    let arrival = Arrival {
        sub: accepted.sub,
        due: coming.due,
        replaced: accepted.replaced,
    };
    let tick = support.tick();
    wait(
        &mut settling.waiting,
        arrival,
        tick,
        coming.lacked.as_slice(),
        activated,
    );
    Ok(accepted)
}

impl Parts {
    /// Accepts the submission that a client sends next. It returns `Memory` if an allocation
    /// fails; then the state does not change. Conditions: the client exists, and its next message
    /// is a submission that is not refused.
    fn accept(&mut self, c: u32) -> Result<Step, Memory>
        requires some { 1 ≤ c }
        requires known { c ≤ length self.old.support.clients }
        requires next { (local : Local) × (frame : Frame)
            × IsNext self.old.support c (Submit frame local) }
        requires stands { (p : Plan) × (w : World) × (x : Client) × (local : Local)
            × (frame : Frame) × Serves p w self.old × IsAllowed p w c x local frame }
        ensures step { (p : Plan) (w : World) (x : Client) (local : Local) (frame : Frame)
            → Serves p w self.old → IsAllowed p w c x local frame
            → IfOk result (λ s. IsStepOf p w (event.Client c) s) }
        ensures serves { (p : Plan) (w : World) (x : Client) (local : Local) (frame : Frame)
            → Serves p w self.old → IsAllowed p w c x local frame
            → OnOk result (Serves p (step_in p w (event.Client c)).world self.new) }
        ensures err { (p : Plan) (w : World) → Serves p w self.old
            → OnErr result (Serves p w self.new) }
    {
        let coming = read_submission(self.alloc, &self.support, &self.settling, c)?;
        make_room(
            &mut self.settling,
            &mut self.returned,
            &mut self.following,
            c,
            &coming,
        )?;
        let new = coming.new;
        let anew = new.is_some();
        let activated = &mut self.following.activated;
        let taken = take_in(&mut self.support, &mut self.settling, c, coming, activated)?;
        let root = self.support.root();
        let reply = Reply::Accepted {
            ordinal: taken.sub.ordinal,
            index: taken.index,
        };
        Ok(finish(
            self.alloc,
            reply,
            &mut self.settling,
            root,
            new,
            anew,
            &mut self.following,
        ))
    }

    /// Why the submission that a client sends next is refused, or None if it is not. Conditions:
    /// the client exists, its next message is a submission, and the parts are right for a state.
    fn judge(&self, c: u32) -> Option<Refusal>
        requires some { 1 ≤ c }
        requires known { c ≤ length self.now.support.clients }
        requires next { (local : Local) × (frame : Frame)
            × IsNext self.now.support c (Submit frame local) }
        requires stands { (p : Plan) × (w : World) × Serves p w self.now }
        ensures { (p : Plan) (w : World) (x : Client) (local : Local) (frame : Frame)
            → Serves p w self.now → IsSending p w c x (Submit frame local)
            → result ≡ refusal_in w x local frame }
    {
        let (local, frame) = submission(&self.support, c);
        refusal(&self.support, &self.settling.live, c, local, frame)
    }

    /// A client submits a frame, which is accepted or refused. It returns `Memory` if an
    /// allocation fails; then the state does not change. Conditions: the client exists, and its
    /// next message is a submission.
    pub(crate) fn submit(&mut self, c: u32) -> Result<Step, Memory>
        requires some { 1 ≤ c }
        requires known { c ≤ length self.old.support.clients }
        requires next { (local : Local) × (frame : Frame)
            × IsNext self.old.support c (Submit frame local) }
        requires stands { (p : Plan) × (w : World) × (x : Client) × (local : Local)
            × (frame : Frame) × Serves p w self.old × IsSending p w c x (Submit frame local) }
        ensures step { (p : Plan) (w : World) (x : Client) (local : Local) (frame : Frame)
            → Serves p w self.old → IsSending p w c x (Submit frame local)
            → IfOk result (λ s. IsStepOf p w (event.Client c) s) }
        ensures serves { (p : Plan) (w : World) (x : Client) (local : Local) (frame : Frame)
            → Serves p w self.old → IsSending p w c x (Submit frame local)
            → OnOk result (Serves p (step_in p w (event.Client c)).world self.new) }
        ensures err { (p : Plan) (w : World) → Serves p w self.old
            → OnErr result (Serves p w self.new) }
    {
        match self.judge(c) {
            Some(refusal) => Ok(self.refuse(c, refusal)),
            None => self.accept(c),
        }
    }
}
