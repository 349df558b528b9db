//! Messages whose reply depends on what is kept for all clients.
ghost use Rattle.std.specs.Prelude.{◌≡◌, ◌≤◌, ℕ, length, IfOk, OnOk, OnErr};
ghost use Rattle.vz_ids.specs.declared.FrameSinkId.{FrameSinkId as Id};
ghost use Rattle.vz_ids.specs.declared.LocalSurfaceId.{LocalSurfaceId as Local};
ghost use Rattle.vz_frame.specs.declared.message.Message.TheVariants.{SetRoot, Hierarchy, Await};
ghost use Rattle.vz_rules.specs.Plan.{Plan};
ghost use Rattle.vz_rules.specs.World.{World, Client};
ghost use Rattle.vz_rules.specs.Messages.{root_answer, hierarchy_answer, await_answer};
ghost use Rattle.vz_sinks.specs.Relating.{refusal_in, refusal_of};
ghost use Rattle.vz_support.specs.Supporting.{IsSupport, IsNext, Sends};
ghost use Rattle.vz_support.specs.Relations.{reply_for, relations_for};

use crate::support::Support;
use std::alloc::Global;
use vz_base::Memory;
use vz_frame::Message;
use vz_ids::{FrameSinkId, SurfaceId};
use vz_rules::{Refusal, Reply};
use vz_sinks::{SinkError, Sinks};

/// The reply's refusal for an error of the sink hierarchy, or None for a failed allocation.
fn refusal_of(error: SinkError) -> Option<Refusal>
    ensures { result ≡ refusal_of error }
{
    match error {
        SinkError::Loop => Some(Refusal::Loop),
        SinkError::UnknownSink => Some(Refusal::UnknownSink),
        SinkError::ParentOfOther => Some(Refusal::ParentOfOther),
        SinkError::Memory => None,
    }
}

/// Registers a relation that a client asks for, or refuses it. It returns `Memory` if an
/// allocation fails; then nothing changes.
fn relate(
    sinks: &mut Sinks,
    c: u32,
    parent: FrameSinkId,
    child: FrameSinkId,
    alloc: Global,
) -> Result<Reply, Memory>
    ensures reply { IfOk result (λ r. r ≡ reply_for (refusal_in sinks.old c parent child)) }
    ensures first { sinks.new.first ≡ sinks.old.first }
    ensures seats { sinks.new.seats ≡ sinks.old.seats }
    ensures relations { OnOk result (sinks.new.relations
        ≡ relations_for (refusal_in sinks.old c parent child) parent child sinks.old.relations) }
    ensures err { OnErr result (sinks.new.relations ≡ sinks.old.relations) }
{
    let Err(error) = sinks.register(c, parent, child, alloc) else {
        return Ok(Reply::Joined);
    };
    let Some(refusal) = refusal_of(error) else {
        return Err(Memory);
    };
    Ok(Reply::Refused(refusal))
}

impl Support {
    /// A client names the root surface, which need not exist. Only the first client may; the
    /// request of another is refused. Conditions: the client exists, and this is its next
    /// message.
    pub fn set_root(&mut self, c: u32) -> Reply
        requires some { 1 ≤ c }
        requires known { c ≤ length self.old.clients }
        requires next { (local : Local) × IsNext self.old c (SetRoot local) }
        ensures reply { (p : Plan) (w : World) (x : Client) (local : Local)
            → Sends p w c x (SetRoot local) → IsSupport p w self.old
            → result ≡ (root_answer w x local).reply }
        ensures world { (p : Plan) (w : World) (x : Client) (local : Local)
            → Sends p w c x (SetRoot local) → IsSupport p w self.old
            → IsSupport p (root_answer w x local).world self.new }
    {
        let Message::SetRoot(local) = self.clients.take(c) else {
            unreachable!()
        };
        if c != 1 {
            return Reply::Refused(Refusal::NotRoot);
        }
        let sink = self.clients.sink(c);
        self.root = Some(SurfaceId { sink, local });
        Reply::Rooted
    }

    /// A client registers a relation between sinks, or is refused. It returns `Memory` if an
    /// allocation fails; then nothing changes and the message is not taken. Conditions: the
    /// client exists, and this is its next message.
    pub fn hierarchy(&mut self, alloc: Global, c: u32) -> Result<Reply, Memory>
        requires some { 1 ≤ c }
        requires known { c ≤ length self.old.clients }
        requires next { (parent : Id) × (child : Id) × IsNext self.old c (Hierarchy parent child) }
        ensures reply { (p : Plan) (w : World) (x : Client) (parent child : Id)
            → Sends p w c x (Hierarchy parent child) → IsSupport p w self.old
            → IfOk result (λ r. r ≡ (hierarchy_answer w x parent child).reply) }
        ensures world { (p : Plan) (w : World) (x : Client) (parent child : Id)
            → Sends p w c x (Hierarchy parent child) → IsSupport p w self.old
            → OnOk result (IsSupport p (hierarchy_answer w x parent child).world self.new) }
        ensures err { OnErr result (self.new ≡ self.old) }
    {
        let Some(message) = self.clients.next(c) else {
            unreachable!()
        };
        let Message::Hierarchy { parent, child } = message else {
            unreachable!()
        };
        let reply = relate(&mut self.sinks, c, *parent, *child, alloc)?;
        self.clients.take(c);
        Ok(reply)
    }

    /// A client takes its pending begin-frame. If none is pending, the reply is Over if the Over
    /// mark is set; otherwise it is NotYet and the message is not taken. Conditions: the client
    /// exists, and this is its next message.
    pub fn await_begin(&mut self, c: u32) -> Reply
        requires some { 1 ≤ c }
        requires known { c ≤ length self.old.clients }
        requires next { IsNext self.old c Await }
        ensures reply { (p : Plan) (w : World) (x : Client) → Sends p w c x Await
            → IsSupport p w self.old → result ≡ (await_answer w x).reply }
        ensures world { (p : Plan) (w : World) (x : Client) → Sends p w c x Await
            → IsSupport p w self.old → IsSupport p (await_answer w x).world self.new }
    {
        if let Some(n) = self.sinks.take(c) {
            self.clients.skip(c);
            return Reply::Began(n);
        }
        if !self.over {
            return Reply::Refused(Refusal::NotYet);
        }
        self.clients.skip(c);
        Reply::Over
    }
}
