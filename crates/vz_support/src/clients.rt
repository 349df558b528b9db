//! All clients.
ghost use Rattle.std.specs.Prelude.{◌≡◌, ◌≤◌, ◌<◌, ◌&&◌, ℕ, map, length, Some, IfOk, OnOk, OnErr, IfErr};
ghost use Rattle.std.specs.List.{list_any, list_all};
ghost use Rattle.std.specs.Option.{option_copied};
ghost use Rattle.vz_ids.specs.Ids.{same_sink};
ghost use Rattle.vz_pixels.specs.Block.{Block};
ghost use Rattle.vz_frame.specs.Frame.{first_of};
ghost use Rattle.vz_frame.specs.declared.message.Message.TheVariants.{Upload};
ghost use Rattle.vz_support.specs.Sent.{Sender, opened, sender_at, taking_one, giving_back, closing, answering, storing_block, knows, blocks_in};
ghost use Rattle.vz_support.specs.Changed.{ChangesOne};

use crate::client::Client;
use std::alloc::Global;
use std::marker::Model;
use vz_base::Memory;
use vz_frame::{ClientFile, Listing, Message, ShortList};
use vz_ids::FrameSinkId;
use vz_pixels::PixelBlock;

/// The clients of a plan, numbered from 1: the messages that each has still to send, which are
/// moved out as they are taken, and the blocks that it uploaded.
#[derive(Drop)]
pub struct Clients {
    list: Vec<Client>,
}

impl Model for Clients {
    ghost use Rattle.std.specs.Prelude.{List};
    ghost use Rattle.vz_support.specs.Sent.{Sender};

    ghost Value = { List Sender };

    ghost view = { λ c. c.list.items };
}

impl Clients {
    /// Creates the clients of these files, one for each, in their order. If an allocation fails,
    /// the error gives the files back.
    pub fn open(alloc: Global, files: Vec<ClientFile>) -> Result<Clients, Vec<ClientFile>>
        ensures ok { IfOk result (λ clients. clients ≡ map opened files.items) }
        ensures back { IfErr result (λ f. f.items ≡ files.items) }
    {
        let Ok(mut list) = Vec::with_capacity(alloc, files.len()) else {
            return Err(files);
        };
        for file in files {
            list.push_reserved(Client::new(alloc, file));
        }
        Ok(Clients { list })
    }

    /// How many clients there are.
    pub fn len(&self) -> usize
        ensures { result ≡ length self.now }
    {
        self.list.len()
    }

    /// The client with a number. Condition: it exists.
    fn get(&self, c: u32) -> &Client
        requires some { 1 ≤ c }
        requires known { c ≤ length self.now }
        ensures { result.now ≡ sender_at self.now c }
    {
        &self.list[(c - 1) as usize]
    }

    /// The sink of a client. Condition: the client exists.
    pub fn sink(&self, c: u32) -> FrameSinkId
        requires some { 1 ≤ c }
        requires known { c ≤ length self.now }
        ensures { result ≡ (sender_at self.now c).sink }
    {
        self.get(c).sink
    }

    /// The message that a client sends next, or None if it has sent all. Condition: the client
    /// exists.
    pub fn next(&self, c: u32) -> Option<&Message>
        requires some { 1 ≤ c }
        requires known { c ≤ length self.now }
        ensures { option_copied result ≡ first_of (sender_at self.now c).left }
    {
        self.get(c).next()
    }

    /// Whether a client is closed. Condition: the client exists.
    pub fn is_closed(&self, c: u32) -> bool
        requires some { 1 ≤ c }
        requires known { c ≤ length self.now }
        ensures { result ≡ (sender_at self.now c).closed }
    {
        self.get(c).closed
    }

    /// The tick that a client answered last, or 0 if it has answered none. Condition: the client
    /// exists.
    pub fn answered(&self, c: u32) -> u32
        requires some { 1 ≤ c }
        requires known { c ≤ length self.now }
        ensures { result ≡ (sender_at self.now c).answered }
    {
        self.get(c).answered
    }

    /// Whether a closed client has this sink.
    pub fn is_gone(&self, sink: &FrameSinkId) -> bool
        ensures { result
            ≡ list_any (λ (s : Sender). s.closed && same_sink s.sink sink.now) self.now }
    {
        self.list
            .iter()
            .any(|client| client.closed && client.sink == *sink)
    }

    /// Takes the next message of a client. Conditions: the client exists, and it has a message.
    pub fn take(&mut self, c: u32) -> Message
        requires some { 1 ≤ c }
        requires known { c ≤ length self.old }
        requires left { 0 < length (sender_at self.old c).left }
        ensures message { Some result ≡ first_of (sender_at self.old c).left }
        ensures taken { ChangesOne c taking_one self.old self.new }
    {
        self.list[(c - 1) as usize].take()
    }

    /// Goes past the next message of a client, which counts as taken but stays in memory until
    /// the end. It is meant for a message that has nothing to move out and no memory of its own.
    /// Conditions: the client exists, and it has a message.
    pub fn skip(&mut self, c: u32)
        requires some { 1 ≤ c }
        requires known { c ≤ length self.old }
        requires left { 0 < length (sender_at self.old c).left }
        ensures taken { ChangesOne c taking_one self.old self.new }
    {
        self.list[(c - 1) as usize].skip();
    }

    /// Puts the message that was taken last from a client back as its next one. Conditions: the
    /// client exists, and a message was taken.
    pub fn put_back(&mut self, c: u32, message: Message)
        requires some { 1 ≤ c }
        requires known { c ≤ length self.old }
        requires taken { 0 < (sender_at self.old c).taken }
        ensures { ChangesOne c (giving_back message) self.old self.new }
    {
        self.list[(c - 1) as usize].put_back(message);
    }

    /// Closes a client. Condition: the client exists.
    pub fn close(&mut self, c: u32)
        requires some { 1 ≤ c }
        requires known { c ≤ length self.old }
        ensures { ChangesOne c closing self.old self.new }
    {
        self.list[(c - 1) as usize].close();
    }

    /// Notes that a client has answered a tick. Condition: the client exists.
    pub fn answer(&mut self, c: u32, tick: u32)
        requires some { 1 ≤ c }
        requires known { c ≤ length self.old }
        ensures { ChangesOne c (answering tick) self.old self.new }
    {
        self.list[(c - 1) as usize].answer(tick);
    }

    /// Whether a client has stored, for each of some listings, a block of its size. Condition:
    /// the client exists.
    pub fn knows_all(&self, c: u32, listings: &[Listing]) -> bool
        requires some { 1 ≤ c }
        requires known { c ≤ length self.now }
        ensures { result ≡ list_all (knows (sender_at self.now c).blocks) listings.now }
    {
        self.get(c).blocks.knows_all(listings)
    }

    /// The blocks that a client stored for these listings, in their order. They are shared: no
    /// pixel is copied. A listing without a stored block adds none. The only error is `Memory`,
    /// if an allocation fails. Condition: the client exists.
    pub fn blocks(
        &self,
        alloc: Global,
        c: u32,
        listings: &[Listing],
    ) -> Result<ShortList<PixelBlock>, Memory>
        requires some { 1 ≤ c }
        requires known { c ≤ length self.now }
        ensures { IfOk result (λ l. l ≡ blocks_in (sender_at self.now c).blocks listings.now) }
    {
        self.get(c).blocks.listed(alloc, listings)
    }

    /// Takes the next message of a client, an upload, and stores its block. It returns `Memory`
    /// if an allocation fails; then nothing changes. Conditions: the client exists, and its next
    /// message is an upload.
    pub fn store(&mut self, c: u32) -> Result<(), Memory>
        requires some { 1 ≤ c }
        requires known { c ≤ length self.old }
        requires upload { (id : ℕ) × (block : Block)
            × (first_of (sender_at self.old c).left ≡ Some (Upload id block)) }
        ensures ok { (id : ℕ) (block : Block)
            → first_of (sender_at self.old c).left ≡ Some (Upload id block) → OnOk result
            (ChangesOne c (λ s. storing_block id block (taking_one s)) self.old self.new) }
        ensures err { OnErr result (self.new ≡ self.old) }
    {
        self.list[(c - 1) as usize].store()?;
        Ok(())
    }
}
