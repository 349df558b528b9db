//! Submissions. Each is taken by value, and then accepted, put back or refused. Also questions
//! about the blocks that a submission lists and the clients that it depends on.
ghost use Rattle.std.specs.Prelude.{◌≡◌, ◌≤◌, ◌&&◌, length, IfOk};
ghost use Rattle.std.specs.List.{list_any};
ghost use Rattle.vz_ids.specs.declared.LocalSurfaceId.{LocalSurfaceId as Local};
ghost use Rattle.vz_ids.specs.Ids.{same_sink};
ghost use Rattle.vz_frame.specs.declared.frame.CompositorFrame.{CompositorFrame as Frame};
ghost use Rattle.vz_frame.specs.declared.message.Message.TheVariants.{Submit};
ghost use Rattle.vz_rules.specs.Plan.{Plan};
ghost use Rattle.vz_rules.specs.World.{World, Client, client_at};
ghost use Rattle.vz_rules.specs.Kept.{KeepsClients, AreRising};
ghost use Rattle.vz_rules.specs.declared.entry.Refusal.{Refusal};
ghost use Rattle.vz_rules.specs.Messages.{refused, accepted, is_unknown, blocks_of};
ghost use Rattle.vz_support.specs.Supporting.{Supported, IsSupport, IsNext, HasTaken, Sends};

use crate::own_messages::note;
use crate::support::Support;
use std::alloc::Global;
use vz_base::Memory;
use vz_frame::{BoxedFrame, Listing, Message, ShortList};
use vz_ids::{FrameSinkId, LocalSurfaceId};
use vz_pixels::PixelBlock;

impl Support {
    /// Takes a submission by value and returns its local surface id and its frame. If the
    /// submission is refused, nothing else changes. Conditions: the client exists, and this is
    /// its next message.
    pub fn take_submission(&mut self, c: u32) -> (LocalSurfaceId, BoxedFrame)
        requires some { 1 ≤ c }
        requires known { c ≤ length self.old.clients }
        requires next { (local : Local) × (frame : Frame) × IsNext self.old c (Submit frame local) }
        ensures message { IsNext self.old c (Submit result.1 result.0) }
        ensures frame { (p : Plan) (w : World) (x : Client) (local : Local) (frame : Frame)
            → Sends p w c x (Submit frame local) → IsSupport p w self.old
            → (result.0 ≡ local) × (result.1 ≡ frame) }
        ensures taken { HasTaken c self.old self.new }
        ensures refused { (p : Plan) (w : World) (x : Client) (local : Local) (frame : Frame)
            (r : Refusal) → Sends p w c x (Submit frame local) → IsSupport p w self.old
            → IsSupport p (refused w x r).world self.new }
    {
        let Message::Submit { local, frame } = self.clients.take(c) else {
            unreachable!()
        };
        (local, frame)
    }

    /// Accepts a submission that was taken: notes which begin-frame it answers (`ack`).
    /// Condition: the client exists.
    pub fn accept(&mut self, c: u32, ack: u32)
        requires some { 1 ≤ c }
        requires known { c ≤ length self.old.clients }
        ensures { (p : Plan) (w : World) (x : Client) (local : Local) (frame : Frame)
            (before : Supported) → Sends p w c x (Submit frame local) → IsSupport p w before
            → HasTaken c before self.old → ack ≡ frame.metadata.ack
            → IsSupport p (accepted w x local frame).world self.new }
    {
        note(&mut self.clients, c, self.tick, ack);
    }

    /// Puts a submission that was taken back as the client's next message. Conditions: the client
    /// exists, and its submission was taken.
    pub fn put_back(&mut self, c: u32, local: LocalSurfaceId, frame: BoxedFrame)
        requires some { 1 ≤ c }
        requires known { c ≤ length self.old.clients }
        requires taken { (before : Supported) × HasTaken c before self.old }
        ensures { (p : Plan) (w : World) (x : Client) (before : Supported)
            → Sends p w c x (Submit frame local) → IsSupport p w before
            → HasTaken c before self.old → IsSupport p w self.new }
    {
        self.clients.put_back(c, Message::Submit { local, frame });
    }

    /// Whether, for one of some listings, the client stored no block of its size. Condition: the
    /// client exists.
    pub fn is_unknown(&self, c: u32, listings: &[Listing]) -> bool
        requires some { 1 ≤ c }
        requires known { c ≤ length self.now.clients }
        ensures { (p : Plan) (w : World) (x : Client) (frame : Frame) → AreRising x.resources
            → IsSupport p w self.now → client_at w c ≡ Some x → frame.resources ≡ listings.now
            → result ≡ list_any (is_unknown x.resources) frame.resources }
    {
        !self.clients.knows_all(c, listings)
    }

    /// Whether a closed client has this sink, so that dependencies on it are met.
    pub fn is_gone(&self, sink: &FrameSinkId) -> bool
        ensures { (p : Plan) (w : World) → KeepsClients w.clients → IsSupport p w self.now
            → result ≡ list_any (λ (x : Client). x.closed && same_sink x.sink sink.now) w.clients }
    {
        self.clients.is_gone(sink)
    }

    /// The pixel blocks of these listings, in their order. They are shared: no pixel is copied.
    /// The only error is `Memory`, if an allocation fails. Condition: the client exists.
    pub fn blocks(
        &self,
        alloc: Global,
        c: u32,
        listings: &[Listing],
    ) -> Result<ShortList<PixelBlock>, Memory>
        requires some { 1 ≤ c }
        requires known { c ≤ length self.now.clients }
        ensures { (p : Plan) (w : World) (x : Client) (frame : Frame)
            → IsSupport p w self.now → client_at w c ≡ Some x → frame.resources ≡ listings.now
            → IfOk result (λ l. l ≡ blocks_of x.resources frame) }
    {
        self.clients.blocks(alloc, c, listings)
    }
}
