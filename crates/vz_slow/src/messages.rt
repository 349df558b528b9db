//! The reply to a client's message and what the message changes, before any effects.
ghost use Rattle.std.specs.Prelude.{◌≡◌, ◌∷◌, [], Some, true, map, IfOk, OnOk, OnErr};
ghost use Rattle.vz_rules.specs.World.{Client as ClientState, client_at};
ghost use Rattle.vz_rules.specs.Messages.{taking, says, refused, in_use, upload_answer, root_answer, await_answer, mark_of, message_answer};
ghost use Rattle.vz_rules.specs.Messages.{answer_tick, reclaim, first_some, when, is_related, relate, hierarchy_refusal, hierarchy_answer, client_answer};
ghost use Rattle.vz_rules.specs.declared.entry.Refusal.TheVariants as refusal;
ghost use Rattle.vz_rules.specs.declared.entry.Reply.TheVariants as reply;
ghost use Rattle.vz_state.specs.Changes.{changed_by};
ghost use Rattle.vz_state.specs.Fitting.{FitsSome};
ghost use Rattle.vz_state.specs.Small.{AreSmallClients};
ghost use Rattle.vz_slow.specs.Quiet.{AreOwn, IsOwn};

use crate::world::{World, short};
use std::alloc::{AllocError, Global};
use vz_frame::{List, Message};
use vz_ids::{FrameSinkId, LocalSurfaceId, SurfaceId};
use vz_pixels::PixelBlock;
use vz_rules::{Plan, Refusal, Reply, Returned};
use vz_state::{
    Change, blocks_of, change_alone, change_one, client_of, in_use, is_known, last_created,
    mark_client, next_message, reaches, submit_refusal,
};

/// A copy of returns, in their order.
pub(crate) fn copy_of(alloc: Global, queue: &[Returned]) -> Result<Vec<Returned>, AllocError>
    ensures { IfOk result (λ v. v.items ≡ queue.now) }
{
    queue.iter().copied().collect(alloc)
}

impl<'a> World<'a> {
    /// The client takes a message and is changed.
    pub(crate) fn change(&mut self, c: u32, change: &Change<'a>) -> Result<(), AllocError>
        requires { AreSmallClients self.old.clients }
        ensures { (x : ClientState) → client_at self.old c ≡ Some x
            → OnOk result (self.new ≡ taking (changed_by change.now) x self.old) }
    {
        change_one(&mut self.clients, self.alloc, c, change)?;
        Ok(())
    }

    /// The client takes a message that changes the client alone. At an error nothing changes.
    fn change_alone(&mut self, c: u32, change: &Change<'a>) -> Result<(), AllocError>
        requires { AreOwn self.old.clients }
        ensures value { (x : ClientState) → client_at self.old c ≡ Some x
            → OnOk result (self.new ≡ taking (changed_by change.now) x self.old) }
        ensures err { OnErr result (self.new ≡ self.old) }
    {
        change_alone(&mut self.clients, self.alloc, c, change)?;
        Ok(())
    }

    /// The client takes a message that is refused, which changes nothing else.
    pub(crate) fn refuse(&mut self, c: u32, refusal: Refusal) -> Result<Reply, AllocError>
        requires { AreOwn self.old.clients }
        ensures value { (x : ClientState) → client_at self.old c ≡ Some x
            → IfOk result (λ r. says r self.new ≡ refused self.old x refusal) }
        ensures err { OnErr result (self.new ≡ self.old) }
    {
        self.change_alone(c, &Change::Nothing)?;
        Ok(Reply::Refused(refusal))
    }

    /// Stores an uploaded block. The upload is refused if the resource is in use.
    pub(crate) fn upload(
        &mut self,
        c: u32,
        used: bool,
        id: u32,
        block: &'a PixelBlock,
    ) -> Result<Reply, AllocError>
        requires { AreOwn self.old.clients }
        ensures value { (x : ClientState) → client_at self.old c ≡ Some x → used ≡ in_use x.resources id
            → IfOk result (λ r. says r self.new ≡ upload_answer self.old x id block.now) }
        ensures err { OnErr result (self.new ≡ self.old) }
    {
        if used {
            return Ok(self.refuse(c, Refusal::InUse)?);
        }
        self.change_alone(c, &Change::Store { id, block })?;
        Ok(Reply::Stored)
    }

    /// The client answers a begin-frame without a frame.
    pub(crate) fn note(&mut self, c: u32, n: u32) -> Result<Reply, AllocError>
        requires { AreOwn self.old.clients }
        ensures value { (x : ClientState) → client_at self.old c ≡ Some x
            → IfOk result (λ r. says r self.new
            ≡ says reply.Noted (taking (answer_tick self.old.tick n) x self.old)) }
        ensures err { OnErr result (self.new ≡ self.old) }
    {
        let tick = self.tick;
        self.change_alone(c, &Change::Answer { n, tick })?;
        Ok(Reply::Noted)
    }

    /// Gives the client its queue of returned resources.
    pub(crate) fn hand_over(&mut self, c: u32, queue: Vec<Returned>) -> Result<Reply, AllocError>
        requires { AreOwn self.old.clients }
        ensures value { (x : ClientState) → client_at self.old c ≡ Some x → queue.items ≡ x.queue
            → IfOk result (λ r. says r self.new
            ≡ says (reply.Reclaimed x.queue) (taking reclaim x self.old)) }
        ensures err { OnErr result (self.new ≡ self.old) }
    {
        let queue = short(self.alloc, List::from_vec(queue))?;
        self.change_alone(c, &Change::Reclaim)?;
        Ok(Reply::Reclaimed(queue))
    }

    /// The first client names the root surface, which need not exist.
    fn name_root(
        &mut self,
        c: u32,
        sink: FrameSinkId,
        local: LocalSurfaceId,
    ) -> Result<Reply, AllocError>
        requires { AreOwn self.old.clients }
        ensures { (x : ClientState) → client_at self.old c ≡ Some x → sink ≡ x.sink
            → IfOk result (λ r. says r self.new ≡ root_answer self.old x local) }
    {
        if c != 1 {
            return Ok(self.refuse(c, Refusal::NotRoot)?);
        }
        self.change(c, &Change::Nothing)?;
        self.root = Some(SurfaceId { sink, local });
        Ok(Reply::Rooted)
    }

    /// If a begin-frame is pending, the client takes it. Otherwise the reply is Over if the Over
    /// mark is set, and else NotYet, for which no message is taken.
    pub(crate) fn wait(&mut self, c: u32, delivered: Option<u32>) -> Result<Reply, AllocError>
        requires { AreOwn self.old.clients }
        ensures value { (x : ClientState) → client_at self.old c ≡ Some x → delivered ≡ x.delivered
            → IfOk result (λ r. says r self.new ≡ await_answer self.old x) }
        ensures err { OnErr result (self.new ≡ self.old) }
    {
        match delivered {
            Some(n) => {
                self.change_alone(c, &Change::Take)?;
                Ok(Reply::Began(n))
            }
            None => {
                if !self.over {
                    return Ok(Reply::Refused(Refusal::NotYet));
                }
                self.change_alone(c, &Change::Nothing)?;
                Ok(Reply::Over)
            }
        }
    }

    /// Closes the client and marks its surfaces.
    fn leave(&mut self, c: u32) -> Result<Reply, AllocError>
        requires { AreOwn self.old.clients }
        ensures { (x : ClientState) → client_at self.old c ≡ Some x
            → IfOk result (λ r. says r self.new ≡ says reply.Left
            (record (taking (λ (y : ClientState). record y { closed = true }) x self.old) {
              surfaces = map (mark_of x.number) self.old.surfaces;
            })) }
    {
        self.change(c, &Change::Close)?;
        mark_client(&mut self.surfaces, c);
        Ok(Reply::Left)
    }

    /// Why a relation is refused, if it is.
    #[tactic(auto, unfolding(vz_rules::specs::Messages::hierarchy_refusal))]
    fn hierarchy_refusal(
        &self,
        sink: FrameSinkId,
        parent: FrameSinkId,
        child: FrameSinkId,
    ) -> Result<Option<Refusal>, AllocError>
        ensures { (x : ClientState) → sink ≡ x.sink
            → IfOk result (λ r. r ≡ hierarchy_refusal self.now x parent child) }
    {
        let loops = reaches(self.alloc, &self.relations, child, parent)?;
        let known = is_known(&self.clients, parent) && is_known(&self.clients, child);
        Ok(first_of_three(loops, !known, parent != sink))
    }

    /// Adds the relation, unless it is registered already.
    fn relate(&mut self, parent: FrameSinkId, child: FrameSinkId) -> Result<(), AllocError>
        ensures { OnOk result (self.new
            ≡ record self.old { relations = relate parent child self.old.relations }) }
    {
        if !is_related(&self.relations, parent, child) {
            self.relations.push((parent, child))?;
        }
        Ok(())
    }

    /// Registers a relation, or refuses it.
    fn hierarchy(
        &mut self,
        c: u32,
        sink: FrameSinkId,
        parent: FrameSinkId,
        child: FrameSinkId,
    ) -> Result<Reply, AllocError>
        requires { AreOwn self.old.clients }
        ensures { (x : ClientState) → client_at self.old c ≡ Some x → sink ≡ x.sink
            → IfOk result (λ r. says r self.new ≡ hierarchy_answer self.old x parent child) }
    {
        match self.hierarchy_refusal(sink, parent, child)? {
            Some(refusal) => Ok(self.refuse(c, refusal)?),
            None => {
                self.change(c, &Change::Nothing)?;
                self.relate(parent, child)?;
                Ok(Reply::Joined)
            }
        }
    }

    /// The reply to a message of a client that is not closed, and what the message changes.
    fn message(&mut self, c: u32, message: &'a Message) -> Result<Reply, AllocError>
        requires small { IsOwn self.old }
        requires fits { FitsSome message.now }
        ensures { (x : ClientState) → client_at self.old c ≡ Some x
            → IfOk result (λ r. says r self.new ≡ message_answer self.old x message.now) }
    {
        match client_of(&self.clients, c) {
            None => Ok(Reply::Refused(Refusal::NoMessage)),
            Some(client) => {
                let sink = client.sink();
                match message {
                    Message::Upload { id, block } => {
                        let used = in_use(client.resources(), *id);
                        Ok(self.upload(c, used, *id, block)?)
                    }
                    Message::Submit { local, frame } => {
                        let frame = frame.as_frame();
                        let last = last_created(&self.surfaces, c);
                        let refusal = submit_refusal(last, client.resources(), local, frame);
                        let blocks = blocks_of(self.alloc, client.resources(), frame)?;
                        let id = SurfaceId {
                            sink,
                            local: *local,
                        };
                        Ok(self.submit(c, refusal, id, blocks, frame)?)
                    }
                    Message::DidNotProduce(n) => Ok(self.note(c, *n)?),
                    Message::Reclaim => {
                        let queue = copy_of(self.alloc, client.queue())?;
                        Ok(self.hand_over(c, queue)?)
                    }
                    Message::SetRoot(local) => Ok(self.name_root(c, sink, *local)?),
                    Message::Hierarchy { parent, child } => Ok(self.hierarchy(
                        c, sink, *parent, *child,
                    )?),
                    Message::Await => {
                        let delivered = client.delivered();
                        Ok(self.wait(c, delivered)?)
                    }
                    Message::Close => Ok(self.leave(c)?),
                }
            }
        }
    }
}

impl<'a> World<'a> {
    /// The reply to the next message of a client, and what the message changes.
    pub(crate) fn client(&mut self, plan: &'a Plan, c: u32) -> Result<Reply, AllocError>
        requires { IsOwn self.old }
        ensures { IfOk result (λ r. says r self.new ≡ client_answer plan.now self.old c) }
    {
        match client_of(&self.clients, c) {
            None => Ok(Reply::Refused(Refusal::NoMessage)),
            Some(client) => match next_message(plan, client) {
                None => Ok(Reply::Refused(Refusal::NoMessage)),
                Some(message) => {
                    if client.is_closed() {
                        return Ok(self.refuse(c, Refusal::AlreadyClosed)?);
                    }
                    Ok(self.message(c, message)?)
                }
            },
        }
    }
}

/// Whether the relation is registered.
fn is_related(
    relations: &[(FrameSinkId, FrameSinkId)],
    parent: FrameSinkId,
    child: FrameSinkId,
) -> bool
    ensures { result ≡ is_related relations.now parent child }
{
    relations
        .iter()
        .any(|relation| relation.0 == parent && relation.1 == child)
}

/// The first of the three reasons to refuse a relation that holds, if one does.
fn first_of_three(loops: bool, unknown: bool, other: bool) -> Option<Refusal>
    ensures { result ≡ first_some (when loops refusal.Loop ∷ when unknown refusal.UnknownSink
        ∷ when other refusal.ParentOfOther ∷ []) }
{
    if loops {
        Some(Refusal::Loop)
    } else if unknown {
        Some(Refusal::UnknownSink)
    } else if other {
        Some(Refusal::ParentOfOther)
    } else {
        None
    }
}
