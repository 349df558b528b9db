//! The messages that a client has still to send.
ghost use Rattle.std.specs.Prelude.{◌≡◌, ◌<◌, ◌-◌, ◌+◌, ◌∷◌, drop, length, Some};
ghost use Rattle.std.specs.Option.{option_copied};
ghost use Rattle.vz_frame.specs.Frame.{first_of};

use std::marker::Model;
use std::mem;
use vz_frame::Message;

/// The messages of a file that are left, and how many were taken.
#[derive(Drop)]
pub(crate) struct Messages {
    items: Vec<Message>,
    taken: usize,
}

impl Model for Messages {
    ghost use Rattle.std.specs.Prelude.{drop, ◌≤◌, length};
    ghost use Rattle.vz_support.specs.Sent.{Left};

    ghost Value = { Left };

    ghost view = { λ m. record { left = drop m.taken m.items.items; taken = m.taken } };

    ghost invariant = { λ m. m.taken ≤ length m.items.items };
}

impl Messages {
    /// Creates the list of a file whose messages are all left.
    pub(crate) fn new(items: Vec<Message>) -> Messages
        ensures { result ≡ record { left = items.items; taken = 0 } }
    {
        Messages { items, taken: 0 }
    }

    /// The next message, if there is one.
    pub(crate) fn next(&self) -> Option<&Message>
        ensures { option_copied result ≡ first_of self.now.left }
    {
        self.items.get(self.taken)
    }

    /// Takes the next message out. Condition: there is one.
    pub(crate) fn take(&mut self) -> Message
        requires { 0 < length self.old.left }
        ensures message { Some result ≡ first_of self.old.left }
        ensures taken { self.new
            ≡ record { left = drop 1 self.old.left; taken = self.old.taken + 1 } }
    {
        let message = mem::replace(&mut self.items[self.taken], Message::Reclaim);
        self.taken += 1;
        message
    }

    /// Goes past the next message, which counts as taken but stays in memory. Condition: there is
    /// one.
    pub(crate) fn skip(&mut self)
        requires { 0 < length self.old.left }
        ensures { self.new ≡ record { left = drop 1 self.old.left; taken = self.old.taken + 1 } }
    {
        self.taken += 1;
    }

    /// Puts the message that was taken last back as the next one. Condition: one was taken.
    pub(crate) fn put_back(&mut self, message: Message)
        requires { 0 < self.old.taken }
        ensures { self.new ≡ record { left = message ∷ self.old.left; taken = self.old.taken - 1 } }
    {
        self.taken -= 1;
        self.items[self.taken] = message;
    }
}
