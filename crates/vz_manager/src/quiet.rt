//! Steps that have no effects.
ghost use Rattle.std.specs.Prelude.{◌≡◌, ◌≤◌, ℕ, Some, length, IfOk, OnOk, OnErr};
ghost use Rattle.vz_ids.specs.declared.FrameSinkId.{FrameSinkId as Id};
ghost use Rattle.vz_pixels.specs.Block.{Block};
ghost use Rattle.vz_frame.specs.declared.message.Message.{Message as Sent};
ghost use Rattle.vz_frame.specs.declared.message.Message.TheVariants.{DidNotProduce, Hierarchy};
ghost use Rattle.vz_frame.specs.declared.message.Message.TheVariants.{Await, Reclaim, Upload};
ghost use Rattle.vz_rules.specs.declared.entry.Event.TheVariants as event;
ghost use Rattle.vz_rules.specs.Plan.{Plan};
ghost use Rattle.vz_rules.specs.World.{World, Client, client_at, next_message};
ghost use Rattle.vz_rules.specs.Step.{step_in};
ghost use Rattle.vz_rules.specs.Kept.{no_effects};
ghost use Rattle.vz_support.specs.Supporting.{IsNext, IsSupport};
ghost use Rattle.vz_manager.specs.Serving.{Serves, IsStepOf, IsSending, IsRefused};

use crate::parts::Parts;
use vz_base::Memory;
use vz_frame::Message;
use vz_machine::Step;
use vz_rules::{BoxedEffects, Refusal, Reply};
use vz_support::Support;

/// A step with this reply and no effects.
pub(crate) fn nothing_follows(reply: Reply) -> Step
    ensures reply { result.reply ≡ reply }
    ensures effects { result.effects ≡ no_effects }
{
    Step {
        reply,
        effects: BoxedEffects::none(),
    }
}

/// The resource id of the upload that a client sends next. Conditions: the client exists, and its
/// next message is an upload.
fn uploaded(support: &Support, c: u32) -> u32
    requires some { 1 ≤ c }
    requires known { c ≤ length support.now.clients }
    requires next { (id : ℕ) × (block : Block) × IsNext support.now c (Upload id block) }
    ensures { (p : Plan) (w : World) (x : Client) (id : ℕ) (block : Block)
        → IsSupport p w support.now → client_at w c ≡ Some x
        → next_message p x ≡ Some (Upload id block) → result ≡ id }
{
    let Some(message) = support.next(c) else {
        unreachable!()
    };
    let Message::Upload { id, block: _ } = message else {
        unreachable!()
    };
    *id
}

impl Parts {
    /// Refuses a client's next message for a reason: it is taken, and nothing else changes.
    /// Conditions: the client exists, and it has a message.
    pub(crate) fn refuse(&mut self, c: u32, refusal: Refusal) -> Step
        requires some { 1 ≤ c }
        requires known { c ≤ length self.old.support.clients }
        requires next { (m : Sent) × IsNext self.old.support c m }
        ensures step { (p : Plan) (w : World) (x : Client) (m : Sent) → Serves p w self.old
            → IsRefused p w c x m refusal → IsStepOf p w (event.Client c) result }
        ensures serves { (p : Plan) (w : World) (x : Client) (m : Sent) → Serves p w self.old
            → IsRefused p w c x m refusal
            → Serves p (step_in p w (event.Client c)).world self.new }
    {
        self.support.refuse(c);
        nothing_follows(Reply::Refused(refusal))
    }

    /// A client answers a begin-frame without a frame (`DidNotProduceFrame`). Conditions: the
    /// client exists, and this is its next message.
    pub(crate) fn did_not_produce(&mut self, c: u32) -> Step
        requires some { 1 ≤ c }
        requires known { c ≤ length self.old.support.clients }
        requires next { (n : ℕ) × IsNext self.old.support c (DidNotProduce n) }
        ensures step { (p : Plan) (w : World) (x : Client) (n : ℕ) → Serves p w self.old
            → IsSending p w c x (DidNotProduce n) → IsStepOf p w (event.Client c) result }
        ensures serves { (p : Plan) (w : World) (x : Client) (n : ℕ) → Serves p w self.old
            → IsSending p w c x (DidNotProduce n)
            → Serves p (step_in p w (event.Client c)).world self.new }
    {
        self.support.did_not_produce(c);
        nothing_follows(Reply::Noted)
    }

    /// A client registers a relation between sinks, or is refused. It returns `Memory` if an
    /// allocation fails; then nothing changes. Conditions: the client exists, and this is its
    /// next message.
    pub(crate) fn hierarchy(&mut self, c: u32) -> Result<Step, Memory>
        requires some { 1 ≤ c }
        requires known { c ≤ length self.old.support.clients }
        requires next { (parent : Id) × (child : Id)
            × IsNext self.old.support c (Hierarchy parent child) }
        ensures step { (p : Plan) (w : World) (x : Client) (parent child : Id)
            → Serves p w self.old → IsSending p w c x (Hierarchy parent child)
            → IfOk result (λ s. IsStepOf p w (event.Client c) s) }
        ensures serves { (p : Plan) (w : World) (x : Client) (parent child : Id)
            → Serves p w self.old → IsSending p w c x (Hierarchy parent child)
            → OnOk result (Serves p (step_in p w (event.Client c)).world self.new) }
        ensures err { OnErr result (self.new ≡ self.old) }
    {
        let reply = self.support.hierarchy(self.alloc, c)?;
        Ok(nothing_follows(reply))
    }

    /// A client takes its pending begin-frame. If none is pending, the reply is Over if the Over
    /// mark is set; otherwise it is NotYet and the message is not taken. Conditions: the client
    /// exists, and this is its next message.
    pub(crate) fn await_begin(&mut self, c: u32) -> Step
        requires some { 1 ≤ c }
        requires known { c ≤ length self.old.support.clients }
        requires next { IsNext self.old.support c Await }
        ensures step { (p : Plan) (w : World) (x : Client) → Serves p w self.old
            → IsSending p w c x Await → IsStepOf p w (event.Client c) result }
        ensures serves { (p : Plan) (w : World) (x : Client) → Serves p w self.old
            → IsSending p w c x Await → Serves p (step_in p w (event.Client c)).world self.new }
    {
        let reply = self.support.await_begin(c);
        nothing_follows(reply)
    }

    /// Stores a client's uploaded block, unless its resource is in use. It returns `Memory` if an
    /// allocation fails; then nothing changes. Conditions: the client exists, its next message is
    /// an upload, and the parts are right for a state.
    pub(crate) fn upload(&mut self, c: u32) -> Result<Step, Memory>
        requires some { 1 ≤ c }
        requires known { c ≤ length self.old.support.clients }
        requires next { (id : ℕ) × (block : Block)
            × IsNext self.old.support c (Upload id block) }
        requires stands { (p : Plan) × (w : World) × Serves p w self.old }
        ensures step { (p : Plan) (w : World) (x : Client) (id : ℕ) (block : Block)
            → Serves p w self.old → IsSending p w c x (Upload id block)
            → IfOk result (λ s. IsStepOf p w (event.Client c) s) }
        ensures serves { (p : Plan) (w : World) (x : Client) (id : ℕ) (block : Block)
            → Serves p w self.old → IsSending p w c x (Upload id block)
            → OnOk result (Serves p (step_in p w (event.Client c)).world self.new) }
        ensures err { OnErr result (self.new ≡ self.old) }
    {
        let id = uploaded(&self.support, c);
        if self.settling.live.in_use(c, id) {
            return Ok(self.refuse(c, Refusal::InUse));
        }
        self.support.upload(c)?;
        Ok(nothing_follows(Reply::Stored))
    }

    /// A client reclaims its returned resources. It returns `Memory` if an allocation fails; then
    /// nothing changes. Conditions: the client exists, this is its next message, and the parts
    /// are right for a state.
    pub(crate) fn reclaim(&mut self, c: u32) -> Result<Step, Memory>
        requires some { 1 ≤ c }
        requires known { c ≤ length self.old.support.clients }
        requires next { IsNext self.old.support c Reclaim }
        requires stands { (p : Plan) × (w : World) × Serves p w self.old }
        ensures step { (p : Plan) (w : World) (x : Client) → Serves p w self.old
            → IsSending p w c x Reclaim
            → IfOk result (λ s. IsStepOf p w (event.Client c) s) }
        ensures serves { (p : Plan) (w : World) (x : Client) → Serves p w self.old
            → IsSending p w c x Reclaim
            → OnOk result (Serves p (step_in p w (event.Client c)).world self.new) }
        ensures err { OnErr result (self.new ≡ self.old) }
    {
        let following = &mut self.following;
        following.returned.clear();
        following.returned.reserve(self.settling.live.queued(c))?;
        following.reclaimed.reserve(self.alloc)?;
        self.settling.live.reclaim(c, &mut following.returned);
        self.support.reclaim(c);
        let queue = following
            .reclaimed
            .take(self.alloc, &mut following.returned);
        Ok(nothing_follows(Reply::Reclaimed(queue)))
    }

    /// Sets the Over mark: no client will wait for a begin-frame any more.
    pub(crate) fn over(&mut self) -> Step
        ensures step { (p : Plan) (w : World) → Serves p w self.old
            → IsStepOf p w event.Over result }
        ensures serves { (p : Plan) (w : World) → Serves p w self.old
            → Serves p (step_in p w event.Over).world self.new }
    {
        self.support.over();
        nothing_follows(Reply::Ended)
    }
}
