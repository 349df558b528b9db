//! Messages that change only what is kept for the client that sends them.
ghost use Rattle.std.specs.Prelude.{◌≡◌, ◌≤◌, ℕ, false, length, OnOk, OnErr};
ghost use Rattle.vz_pixels.specs.Block.{Block};
ghost use Rattle.vz_frame.specs.declared.message.Message.{Message as Sent};
ghost use Rattle.vz_frame.specs.declared.message.Message.TheVariants.{Upload, DidNotProduce};
ghost use Rattle.vz_frame.specs.declared.message.Message.TheVariants.{Reclaim, Close};
ghost use Rattle.vz_rules.specs.Plan.{Plan};
ghost use Rattle.vz_rules.specs.World.{World, Client};
ghost use Rattle.vz_rules.specs.declared.entry.Refusal.{Refusal};
ghost use Rattle.vz_rules.specs.Messages.{taking, refused, answer_tick, reclaim, in_use};
ghost use Rattle.vz_rules.specs.Messages.{upload_answer, message_answer};
ghost use Rattle.vz_support.specs.Sent.{answered_by};
ghost use Rattle.vz_support.specs.Changed.{ChangesOne};
ghost use Rattle.vz_support.specs.Supporting.{IsSupport, IsNext, Sends};

use crate::Clients;
use crate::support::Support;
use vz_base::Memory;
use vz_frame::Message;

/// Notes that a client has answered the tick, if `n` is the number of the tick. Condition: the
/// client exists.
pub(crate) fn note(clients: &mut Clients, c: u32, tick: u32, n: u32)
    requires some { 1 ≤ c }
    requires known { c ≤ length clients.old }
    ensures { ChangesOne c (answered_by tick n) clients.old clients.new }
{
    if n == tick {
        clients.answer(c, tick);
    }
}

impl Support {
    /// Refuses the next message of a client: the message is taken and changes nothing else.
    /// Conditions: the client exists, and it has a message.
    pub fn refuse(&mut self, c: u32)
        requires some { 1 ≤ c }
        requires known { c ≤ length self.old.clients }
        requires next { (m : Sent) × IsNext self.old c m }
        ensures { (p : Plan) (w : World) (x : Client) (m : Sent) (r : Refusal)
            → Sends p w c x m → IsSupport p w self.old
            → IsSupport p (refused w x r).world self.new }
    {
        self.clients.take(c);
    }

    /// A client answers a begin-frame without a frame (`DidNotProduceFrame`). Conditions: the
    /// client exists, and this is its next message.
    pub fn did_not_produce(&mut self, c: u32)
        requires some { 1 ≤ c }
        requires known { c ≤ length self.old.clients }
        requires next { (n : ℕ) × IsNext self.old c (DidNotProduce n) }
        ensures { (p : Plan) (w : World) (x : Client) (n : ℕ)
            → Sends p w c x (DidNotProduce n) → IsSupport p w self.old
            → IsSupport p (taking (answer_tick w.tick n) x w) self.new }
    {
        let Some(message) = self.clients.next(c) else {
            unreachable!()
        };
        let Message::DidNotProduce(n) = message else {
            unreachable!()
        };
        let n = *n;
        self.clients.skip(c);
        note(&mut self.clients, c, self.tick, n);
    }

    /// A client reclaims its returned resources, which are kept elsewhere. Conditions: the client
    /// exists, and this is its next message.
    pub fn reclaim(&mut self, c: u32)
        requires some { 1 ≤ c }
        requires known { c ≤ length self.old.clients }
        requires next { IsNext self.old c Reclaim }
        ensures { (p : Plan) (w : World) (x : Client) → Sends p w c x Reclaim
            → IsSupport p w self.old → IsSupport p (taking reclaim x w) self.new }
    {
        self.clients.skip(c);
    }

    /// Stores an uploaded block, which is moved out of the file. It returns `Memory` if an
    /// allocation fails; then nothing changes. Conditions: the client exists, and its next
    /// message is an upload of a resource that is not in use.
    pub fn upload(&mut self, c: u32) -> Result<(), Memory>
        requires some { 1 ≤ c }
        requires known { c ≤ length self.old.clients }
        requires next { (id : ℕ) × (block : Block) × IsNext self.old c (Upload id block) }
        ensures ok { (p : Plan) (w : World) (x : Client) (id : ℕ) (block : Block)
            → Sends p w c x (Upload id block) → in_use x.resources id ≡ false
            → IsSupport p w self.old
            → OnOk result (IsSupport p (upload_answer w x id block).world self.new) }
        ensures err { OnErr result (self.new ≡ self.old) }
    {
        self.clients.store(c)?;
        Ok(())
    }

    /// Closes a client. Conditions: the client exists, and this is its next message.
    pub fn close(&mut self, c: u32)
        requires some { 1 ≤ c }
        requires known { c ≤ length self.old.clients }
        requires next { IsNext self.old c Close }
        ensures { (p : Plan) (w : World) (x : Client) → Sends p w c x Close
            → IsSupport p w self.old → IsSupport p (message_answer w x Close).world self.new }
    {
        self.clients.take(c);
        self.clients.close(c);
        self.sinks.close(c);
    }
}
