//! Questions about what is kept for clients.
ghost use Rattle.std.specs.Prelude.{◌≡◌, ◌≤◌, Some, length};
ghost use Rattle.std.specs.Option.{option_copied};
ghost use Rattle.vz_frame.specs.Frame.{first_of};
ghost use Rattle.vz_rules.specs.Plan.{Plan};
ghost use Rattle.vz_rules.specs.World.{World, Client, Machine, client_at, next_message};
ghost use Rattle.vz_rules.specs.Kept.{KeepsAlways};
ghost use Rattle.vz_machine.specs.Stepping.{waits_at, idle_at, answered_at, attached_at, listed_at};
ghost use Rattle.vz_machine.specs.Stepping.{listed_in};
ghost use Rattle.vz_support.specs.Sent.{sender_at};
ghost use Rattle.vz_support.specs.Supporting.{IsSupport, is_await};

use crate::support::Support;
use vz_frame::Message;
use vz_ids::{FrameSinkId, SurfaceId};

/// Whether a message awaits a begin-frame.
fn is_await(message: Option<&Message>) -> bool
    ensures { result ≡ is_await (option_copied message.entry) }
{
    match message {
        None => false,
        Some(message) => match message {
            Message::Await => true,
            _ => false,
        },
    }
}

/// How many resources the frame of a message lists; 0 if the message has none.
fn listed_in(message: Option<&Message>) -> u64
    ensures { result ≡ listed_in (option_copied message.entry) }
{
    match message {
        None => 0,
        Some(message) => match message {
            Message::Submit { local: _, frame } => frame
                .as_frame()
                .resources
                .as_slice()
                .len() as u64,
            _ => 0,
        },
    }
}

impl Support {
    /// The current tick: the number of the last begin-frame, or 0 before the first one.
    pub fn tick(&self) -> u32
        ensures { (p : Plan) (w : World) → IsSupport p w self.now → result ≡ w.tick }
    {
        self.tick
    }

    /// The surface that the first client named last as the root, which need not exist, or None if
    /// it named none.
    pub fn root(&self) -> Option<SurfaceId>
        ensures { (p : Plan) (w : World) → IsSupport p w self.now → result ≡ w.root }
    {
        self.root
    }

    /// The sink of a client. Condition: the client exists.
    pub fn sink(&self, c: u32) -> FrameSinkId
        requires some { 1 ≤ c }
        requires known { c ≤ length self.now.clients }
        ensures { (p : Plan) (w : World) (x : Client) → IsSupport p w self.now
            → client_at w c ≡ Some x → result ≡ x.sink }
    {
        self.clients.sink(c)
    }

    /// The message that a client sends next, or None if it has sent all. Condition: the client
    /// exists.
    pub fn next(&self, c: u32) -> Option<&Message>
        requires some { 1 ≤ c }
        requires known { c ≤ length self.now.clients }
        ensures kept { option_copied result ≡ first_of (sender_at self.now.clients c).left }
        ensures next { (p : Plan) (w : World) (x : Client) → IsSupport p w self.now
            → client_at w c ≡ Some x → option_copied result ≡ next_message p x }
    {
        self.clients.next(c)
    }

    /// Whether a client is closed. Condition: the client exists.
    pub fn is_closed(&self, c: u32) -> bool
        requires some { 1 ≤ c }
        requires known { c ≤ length self.now.clients }
        ensures { (p : Plan) (w : World) (x : Client) → IsSupport p w self.now
            → client_at w c ≡ Some x → result ≡ x.closed }
    {
        self.clients.is_closed(c)
    }

    /// Whether a client's next reply would be NotYet. Condition: the client exists.
    pub fn waits(&self, c: u32) -> bool
        requires some { 1 ≤ c }
        requires known { c ≤ length self.now.clients }
        ensures { (m : Machine) → KeepsAlways m.world → IsSupport m.plan m.world self.now
            → result ≡ waits_at m c }
    {
        let awaits = is_await(self.clients.next(c));
        let stands = self.sinks.stands(c);
        let is_closed = self.clients.is_closed(c);
        awaits & !stands & !self.over & !is_closed
    }

    /// Whether a client is idle: it is closed, has no message left, or its next reply would be
    /// NotYet. Condition: the client exists.
    pub fn idle(&self, c: u32) -> bool
        requires some { 1 ≤ c }
        requires known { c ≤ length self.now.clients }
        ensures { (m : Machine) → KeepsAlways m.world → IsSupport m.plan m.world self.now
            → result ≡ idle_at m c }
    {
        let is_closed = self.clients.is_closed(c);
        let is_done = self.clients.next(c).is_none();
        is_closed | is_done | self.waits(c)
    }

    /// Whether a client has answered the current tick. Condition: the client exists.
    pub fn answered(&self, c: u32) -> bool
        requires some { 1 ≤ c }
        requires known { c ≤ length self.now.clients }
        ensures { (m : Machine) → KeepsAlways m.world → IsSupport m.plan m.world self.now
            → result ≡ answered_at m c }
    {
        let answered = self.clients.answered(c);
        (0 < self.tick) & (answered == self.tick)
    }

    /// Whether a client is attached: the first client's sink reaches its sink. Condition: the
    /// client exists.
    pub fn attached(&self, c: u32) -> bool
        requires some { 1 ≤ c }
        requires known { c ≤ length self.now.clients }
        ensures { (m : Machine) → KeepsAlways m.world → IsSupport m.plan m.world self.now
            → result ≡ attached_at m c }
    {
        self.sinks.attached(c)
    }

    /// How many resources the next message of a client lists; 0 if it has no message left or that
    /// is no submission. Condition: the client exists.
    pub fn listed(&self, c: u32) -> u64
        requires some { 1 ≤ c }
        requires known { c ≤ length self.now.clients }
        ensures { (m : Machine) → KeepsAlways m.world → IsSupport m.plan m.world self.now
            → result ≡ listed_at m c }
    {
        listed_in(self.clients.next(c))
    }
}
