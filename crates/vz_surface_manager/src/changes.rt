//! Changes of surfaces: a submission is accepted or becomes active, a surface is destroyed, a
//! tick begins, a client is closed, and what is returned to clients.
ghost use Rattle.std.specs.Prelude.{◌≡◌, ◌≤◌, ◌+◌, length, IsTrue, OnOk, IfOk, OnErr, IfErr, Option, None, ◌<◌, Some, true, false, ◌++◌, []};
ghost use Rattle.std.specs.List.{Contains};
ghost use Rattle.vz_base.specs.declared.limits.TheConstants.{TEMPORARY_TICKS};
ghost use Rattle.vz_ids.specs.declared.SurfaceId.{SurfaceId as Id};
ghost use Rattle.vz_frame.specs.declared.message.Message.TheVariants.{Close};
ghost use Rattle.vz_rules.specs.Plan.{Plan};
ghost use Rattle.vz_rules.specs.World.{World, Client, sub_of, Submission, Surface};
ghost use Rattle.vz_rules.specs.Messages.{accepted, new_submission, id_of, message_answer, taking, reclaim};
ghost use Rattle.vz_rules.specs.Singly.{rising, going};
ghost use Rattle.vz_rules.specs.Reach.{naming};
ghost use Rattle.vz_rules.specs.Step.{begin_answer, next_tick};
ghost use Rattle.vz_rules.specs.Kept.{KeepsAlways};
ghost use Rattle.vz_rules.specs.Returns.{give_back, returned_in, feed, fed_in};
ghost use Rattle.vz_returns.specs.Lent.{IsLender, NoneReleased, resources_out, IsOf, Lent};
ghost use Rattle.vz_returns.specs.Owed.{waiting_on, active_on};
ghost use Rattle.vz_returns.specs.Notes.{owed_count};
ghost use Rattle.vz_surfaces.specs.Reading.{existing_count};
ghost use Rattle.vz_surfaces.specs.Memory.{HasNumber};
ghost use Rattle.vz_surface_manager.specs.Live.{AreLive};
ghost use Rattle.vz_surface_manager.specs.Acceptance.{IsAccepting, HasRoomFor, IsReadier, new_one};
ghost use Rattle.vz_surface_manager.specs.Changes.{IsRising, IsGoing, IsNew};

use crate::ended_subs::{ended_in, listings_of, name_of, wanted_by};
use crate::live::LiveSurfaces;
use vz_base::Memory;
use vz_frame::{BoxedFrame, CompositorFrame, Room, ShortList};
use vz_ids::{FrameSinkId, LocalSurfaceId, Sub, SurfaceId};
use vz_pixels::PixelBlock;
use vz_refs::References;
use vz_rules::{Fed, Returned};
use vz_surfaces::{Gone, Rising};

/// What a submission was accepted as.
#[derive(Clone, Copy, Debug, PartialEq, Eq)]
pub struct Accepted {
    /// Its client and ordinal.
    pub sub: Sub,
    /// Its number among the submissions on its surface, from 1.
    pub index: u32,
    /// The submission that was waiting on the surface and is dropped now, or None.
    pub replaced: Option<Sub>,
}

/// Makes room for one more temporary surface, if one is created. The only error is `Memory`, if an
/// allocation fails. In either case nothing else changes and no room is lost.
fn ready_to_keep(references: &mut References, creates: bool) -> Result<(), Memory>
    ensures sets { references.new.sets ≡ references.old.sets }
    ensures temporary { references.new.temporary ≡ references.old.temporary }
    ensures spare { references.new.spare ≡ references.old.spare }
    ensures room { OnOk result (IsTrue creates → 0 < references.new.room) }
{
    if !creates {
        return Ok(());
    }
    references.reserve()
}

impl LiveSurfaces {
    /// Makes room for one more submission of a client with this many listed resources and
    /// references, and for a surface, if it creates one. The only error is `Memory`, if an
    /// allocation fails. In either case nothing else changes and no room is lost. Condition: the
    /// client exists.
    pub fn ready(
        &mut self,
        client: u32,
        listings: usize,
        references: usize,
        creates: bool,
    ) -> Result<(), Memory>
        requires known { IsLender client self.old.lent }
        ensures room { OnOk result (HasRoomFor client listings references self.new) }
        ensures keeps { OnOk result (IsTrue creates → 0 < self.new.kept.room) }
        ensures same { IsReadier self.old self.new }
        ensures live { (w : World) → AreLive w None self.old → AreLive w None self.new }
        ensures released { NoneReleased self.old.lent → NoneReleased self.new.lent }
        ensures out { resources_out self.new.lent ≡ resources_out self.old.lent }
    {
        let Some(places) = references.checked_add(1) else {
            return Err(Memory);
        };
        let Some(wanted) = self.wanted.checked_add(places) else {
            return Err(Memory);
        };
        self.lending.ready(client, listings)?;
        self.feeding.ready()?;
        self.references.ready(wanted)?;
        ready_to_keep(&mut self.references, creates)?;
        self.damage.ready(1)
    }

    /// Accepts a submission of a client, which waits: its resources are lent, it awaits feedback,
    /// its damage is reported, and the one that was waiting on its surface is dropped. If an
    /// allocation fails, the error gives the frame back and nothing changes. Conditions: the
    /// client is not closed and may submit it, `blocks` has the block of each listed resource in
    /// order, and there is room for it.
    pub fn accept(
        &mut self,
        client: u32,
        sink: FrameSinkId,
        local: LocalSurfaceId,
        frame: BoxedFrame,
        blocks: ShortList<PixelBlock>,
    ) -> Result<Accepted, BoxedFrame>
        requires accepts { (p : Plan) × (w : World) × (c : Client)
            × IsAccepting p w c client sink local frame blocks self.old }
        requires room { HasRoomFor client (length frame.resources)
            (length frame.metadata.references) self.old }
        ensures live { (p : Plan) (w : World) (c : Client)
            → IsAccepting p w c client sink local frame blocks self.old
            → OnOk result (AreLive (accepted w c local frame).world (new_one w c local) self.new) }
        ensures sub { (p : Plan) (w : World) (c : Client)
            → IsAccepting p w c client sink local frame blocks self.old
            → IfOk result (λ a. a.sub ≡ sub_of (new_submission w c local frame)) }
        ensures index { (p : Plan) (w : World) (c : Client)
            → IsAccepting p w c client sink local frame blocks self.old
            → IfOk result (λ a. a.index ≡ (new_submission w c local frame).submitted.index) }
        ensures replaced { (p : Plan) (w : World) (c : Client)
            → IsAccepting p w c client sink local frame blocks self.old
            → IfOk result (λ a. a.replaced ≡ waiting_on w (id_of c local)) }
        ensures err { OnErr result (self.new ≡ self.old) }
        ensures back { IfErr result (λ f. f ≡ frame) }
        ensures out { resources_out self.new.lent
            ≤ resources_out self.old.lent + length frame.resources }
        ensures count { OnOk result (owed_count self.new.owed.owed
            ≡ owed_count self.old.owed.owed + 1) }
        ensures surfaces { existing_count self.new.store ≤ existing_count self.old.store + 1 }
        ensures rest { self.new ≡ record self.old {
          store = self.new.store;
          lent = self.new.lent;
          owed = self.new.owed;
          damaged = self.new.damaged;
          wanted = self.new.wanted;
        } }
    {
        let id = SurfaceId { sink, local };
        let damage = frame.as_frame().root_damage();
        let wanted = frame.as_frame().metadata.references.as_slice().len() + 1;
        let taken = match self.store.accept(client, sink, local, frame, blocks) {
            Ok(taken) => taken,
            Err(frame) => return Err(frame),
        };
        let replaced = taken.replaced.as_ref();
        self.lending.accepted(
            client,
            listings_of(self.store.waiting(&id)),
            listings_of(replaced),
        );
        self.feeding
            .accept(taken.sub, ended_in(&self.flight, replaced));
        self.damage.accepted(id, taken.index, damage).unwrap();
        self.wanted += wanted;
        self.wanted -= wanted_by(replaced);
        Ok(Accepted {
            sub: taken.sub,
            index: taken.index,
            replaced: name_of(replaced),
        })
    }

    /// Makes a waiting submission active and returns its surface: what the submission that was
    /// active there held is released, its own references count from now on, and the earlier
    /// surfaces of its client are marked. It allocates nothing. Condition: it waits.
    pub fn rise(&mut self, sub: Sub) -> SurfaceId
        requires rises { (w : World) × (but : Option Id) × (s : Submission)
            × IsRising w but s sub self.old }
        ensures live { (w : World) (but : Option Id) (s : Submission)
            → IsRising w but s sub self.old → AreLive (rising s w) but self.new }
        ensures surface { (w : World) (but : Option Id) (s : Submission)
            → IsRising w but s sub self.old → result ≡ s.submitted.id }
        ensures out { resources_out self.new.lent ≡ resources_out self.old.lent }
        ensures count { owed_count self.new.owed.owed ≡ owed_count self.old.owed.owed }
        ensures sets { length self.new.kept.sets ≤ length self.old.kept.sets + 1 }
        ensures room { self.old.kept.room ≤ self.new.kept.room }
        ensures temporary { length self.new.kept.temporary ≤ length self.old.kept.temporary }
    {
        let Rising {
            id,
            waiting,
            active,
        } = self.store.rising(sub);
        self.lending.past(sub.client, listings_of(active));
        self.feeding.activate(ended_in(&self.flight, active));
        let ranges = waiting.frame.frame().metadata.references.as_slice();
        self.references.set(id, ranges).unwrap();
        self.wanted -= ranges.len() + 1;
        self.damage.activated(&id);
        self.store.activate(sub);
        id
    }

    /// Destroys a surface: its waiting and its active submission end, and what they held is
    /// released. Returns what ended. It allocates nothing. Conditions: the surface exists and is
    /// not temporary, and each surface that an active frame names is noted as named.
    pub fn go(&mut self, id: &SurfaceId) -> Gone
        requires goes { (w : World) × (c : Surface) × IsGoing w c id.now self.old }
        ensures live { (w : World) (c : Surface) → IsGoing w c id.now self.old
            → AreLive (going c w) None self.new }
        ensures named { (w : World) (c : Surface) → IsGoing w c id.now self.old
            → naming (going c w) ≡ going c w }
        ensures lost { (w : World) (c : Surface) → IsGoing w c id.now self.old
            → result.lost ≡ record { client = c.client; surface = c.number } }
        ensures waiting { (w : World) (c : Surface) → IsGoing w c id.now self.old
            → result.waiting ≡ waiting_on w id.now }
        ensures active { (w : World) (c : Surface) → IsGoing w c id.now self.old
            → result.active ≡ active_on w id.now }
        ensures temporary { self.new.kept.temporary ≡ self.old.kept.temporary }
        ensures out { resources_out self.new.lent ≡ resources_out self.old.lent }
        ensures count { owed_count self.new.owed.owed ≡ owed_count self.old.owed.owed }
    {
        let Some(client) = self.store.client(id) else {
            unreachable!()
        };
        let waiting = self.store.waiting(id);
        let active = self.store.active(id);
        self.lending
            .dropped(client, listings_of(waiting), listings_of(active));
        self.feeding.destroy(
            ended_in(&self.flight, waiting),
            ended_in(&self.flight, active),
        );
        self.wanted -= wanted_by(waiting);
        self.references.remove(id);
        self.damage.destroyed(id);
        self.store.destroy(id)
    }

    /// Begins a tick: ends the temporary surfaces that last no longer. It allocates nothing.
    pub fn tick(&mut self, tick: u32)
        ensures live { (p : Plan) (w : World) (but : Option Id) → KeepsAlways w
            → AreLive w but self.old → tick ≡ next_tick w.tick
            → AreLive (begin_answer p w).world but self.new }
        ensures sets { self.new.kept.sets ≡ self.old.kept.sets }
        ensures temporary { length self.new.kept.temporary ≤ length self.old.kept.temporary }
        ensures room { self.old.kept.room ≤ self.new.kept.room }
        ensures rest { self.new ≡ record self.old { kept = self.new.kept } }
    {
        self.references.tick(tick);
    }

    /// Closes a client with this sink: its surfaces are marked, and none of them is temporary any
    /// longer. It allocates nothing. Condition: the client's number is 1 to 16.
    pub fn close(&mut self, client: u32, sink: FrameSinkId)
        requires number { HasNumber client }
        ensures live { (w : World) (c : Client) → KeepsAlways w → AreLive w None self.old
            → Contains w.clients c → c.number ≡ client → c.sink ≡ sink
            → AreLive (message_answer w c Close).world None self.new }
        ensures surfaces { existing_count self.new.store ≡ existing_count self.old.store }
        ensures sets { self.new.kept.sets ≡ self.old.kept.sets }
        ensures temporary { length self.new.kept.temporary ≤ length self.old.kept.temporary }
        ensures room { self.old.kept.room ≤ self.new.kept.room }
        ensures rest { self.new
            ≡ record self.old { store = self.new.store; kept = self.new.kept } }
    {
        self.store.mark_all(client);
        self.references.sink_gone(sink);
    }

    /// Makes a new surface temporary until a tick, unless a range that is set names it. It
    /// allocates nothing. Conditions: there is room for one, and each surface that an active
    /// frame names is noted as named.
    pub fn keep(&mut self, id: SurfaceId, until: u32)
        requires room { 0 < self.old.kept.room }
        ensures live { (w : World) (c : Surface) → KeepsAlways w → AreLive w (Some id) self.old
            → IsNew w c id → until ≡ w.tick + TEMPORARY_TICKS → AreLive w None self.new }
        ensures sets { self.new.kept.sets ≡ self.old.kept.sets }
        ensures few { length self.new.kept.temporary ≤ length self.old.kept.temporary + 1 }
        ensures rest { self.new ≡ record self.old { kept = self.new.kept } }
    {
        self.references.keep(id, until);
    }

    /// Gives back what was released: each resource that nothing holds any more is returned, with
    /// all references that were lent as its count, by client and rising resource id. It allocates
    /// nothing. Conditions: the invariants hold, and `out` has room for each resource of which
    /// some reference is outstanding.
    pub fn give_back(&mut self, out: &mut Room<Returned>)
        requires stands { (w : World) × (but : Option Id) × KeepsAlways w × AreLive w but self.old }
        requires room { resources_out self.old.lent ≤ out.old.spare }
        ensures returned { (w : World) (but : Option Id) → KeepsAlways w → AreLive w but self.old
            → out.new.list ≡ out.old.list ++ returned_in w }
        ensures live { (w : World) (but : Option Id) → KeepsAlways w → AreLive w but self.old
            → AreLive (give_back w) but self.new }
        ensures released { NoneReleased self.new.lent }
        ensures out { resources_out self.new.lent ≤ resources_out self.old.lent }
        ensures rest { self.new ≡ record self.old { lent = self.new.lent } }
    {
        self.lending.give_back(out);
    }

    /// Gives the feedback that is due, in the order of acceptance. It allocates nothing.
    /// Condition: `out` has room for it.
    pub fn feed(&mut self, out: &mut Room<Fed>)
        requires room { length self.old.owed.owed.due ≤ out.old.spare }
        ensures fed { (w : World) (but : Option Id) → AreLive w but self.old
            → out.new.list ≡ out.old.list ++ fed_in [] w }
        ensures live { (w : World) (but : Option Id) → AreLive w but self.old
            → AreLive (feed [] w) but self.new }
        ensures none { self.new.owed.owed.due ≡ [] }
        ensures rest { self.new ≡ record self.old { owed = self.new.owed } }
    {
        self.feeding.feed(out);
    }

    /// How many returned resources are in a client's queue. Condition: the client exists.
    pub fn queued(&self, client: u32) -> usize
        requires known { IsLender client self.now.lent }
        ensures own { (l : Lent) → IsOf client self.now.lent l → result ≡ length l.holding.queue }
    {
        self.lending.queued(client)
    }

    /// Appends a client's queue of returned resources to `out` and empties it. Conditions: the
    /// client exists, and `out` has room for its queue.
    pub fn reclaim(&mut self, client: u32, out: &mut Room<Returned>)
        requires known { IsLender client self.old.lent }
        requires room { (l : Lent) → IsOf client self.old.lent l
            → length l.holding.queue ≤ out.old.spare }
        ensures returned { (w : World) (but : Option Id) (c : Client) → KeepsAlways w
            → AreLive w but self.old → Contains w.clients c → c.number ≡ client
            → out.new.list ≡ out.old.list ++ c.queue }
        ensures live { (w : World) (but : Option Id) (c : Client) → KeepsAlways w
            → AreLive w but self.old → Contains w.clients c → c.number ≡ client
            → AreLive (taking reclaim c w) but self.new }
        ensures released { NoneReleased self.old.lent → NoneReleased self.new.lent }
        ensures out { resources_out self.new.lent ≡ resources_out self.old.lent }
        ensures rest { self.new ≡ record self.old { lent = self.new.lent } }
    {
        self.lending.reclaim(client, out);
    }
}
