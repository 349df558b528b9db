//! One client.
ghost use Rattle.std.specs.Prelude.{◌≡◌, ◌<◌, ℕ, Some, length, OnOk, OnErr};
ghost use Rattle.std.specs.Option.{option_copied};
ghost use Rattle.vz_pixels.specs.Block.{Block};
ghost use Rattle.vz_frame.specs.Frame.{first_of};
ghost use Rattle.vz_frame.specs.declared.message.Message.TheVariants.{Upload};
ghost use Rattle.vz_support.specs.Sent.{opened, taking_one, giving_back, closing, answering, storing_block};

use crate::blocks::Blocks;
use crate::messages::Messages;
use std::alloc::Global;
use std::marker::Model;
use vz_base::Memory;
use vz_frame::{ClientFile, Message};
use vz_ids::FrameSinkId;

/// A client: the messages that it has still to send, and what is noted of it.
#[derive(Drop)]
pub(crate) struct Client {
    pub(crate) sink: FrameSinkId,
    messages: Messages,
    pub(crate) closed: bool,
    pub(crate) answered: u32,
    pub(crate) blocks: Blocks,
}

impl Model for Client {
    ghost use Rattle.vz_support.specs.Sent.{Sender};

    ghost Value = { Sender };

    ghost view = { λ c. record {
      sink = c.sink;
      left = c.messages.left;
      taken = c.messages.taken;
      closed = c.closed;
      answered = c.answered;
      blocks = c.blocks.blocks.entries;
    } };
}

impl Client {
    /// Creates a client whose file is untouched. It allocates nothing.
    pub(crate) fn new(alloc: Global, file: ClientFile) -> Client
        ensures { result ≡ opened file }
    {
        Client {
            sink: file.sink,
            messages: Messages::new(file.messages.into_vec()),
            closed: false,
            answered: 0,
            blocks: Blocks::new(alloc),
        }
    }

    /// The client's next message, if there is one.
    pub(crate) fn next(&self) -> Option<&Message>
        ensures { option_copied result ≡ first_of self.now.left }
    {
        self.messages.next()
    }

    /// Takes the next message out of the file. Condition: there is one.
    pub(crate) fn take(&mut self) -> Message
        requires { 0 < length self.old.left }
        ensures message { Some result ≡ first_of self.old.left }
        ensures taken { self.new ≡ taking_one self.old }
    {
        self.messages.take()
    }

    /// Goes past the next message, which counts as taken but stays in memory. Condition: there is
    /// one.
    pub(crate) fn skip(&mut self)
        requires { 0 < length self.old.left }
        ensures { self.new ≡ taking_one self.old }
    {
        self.messages.skip();
    }

    /// Puts the message that was taken last back as the next one. Condition: one was taken.
    pub(crate) fn put_back(&mut self, message: Message)
        requires { 0 < self.old.taken }
        ensures { self.new ≡ giving_back message self.old }
    {
        self.messages.put_back(message);
    }

    /// Takes the next message, an upload, and stores its block. If an allocation fails, nothing
    /// changes. Condition: the next message is an upload.
    pub(crate) fn store(&mut self) -> Result<(), Memory>
        requires { (id : ℕ) × (block : Block) × (first_of self.old.left ≡ Some (Upload id block)) }
        ensures ok { (id : ℕ) (block : Block) → first_of self.old.left ≡ Some (Upload id block)
            → OnOk result (self.new ≡ storing_block id block (taking_one self.old)) }
        ensures err { OnErr result (self.new ≡ self.old) }
    {
        self.blocks.reserve()?;
        let Message::Upload { id, block } = self.messages.take() else {
            unreachable!()
        };
        self.blocks.put(id, block);
        Ok(())
    }

    /// Closes the client.
    pub(crate) fn close(&mut self)
        ensures { self.new ≡ closing self.old }
    {
        self.closed = true;
    }

    /// Notes that the client has answered a tick.
    pub(crate) fn answer(&mut self, tick: u32)
        ensures { self.new ≡ answering tick self.old }
    {
        self.answered = tick;
    }
}
