//! Questions about the machine between steps. No answer allocates.
ghost use Rattle.std.specs.Prelude.{◌≡◌, ◌<◌, ◌||◌};
ghost use Rattle.std.specs.Option.{option_map, option_copied};
ghost use Rattle.vz_rules.specs.declared.entry.Event.TheVariants as event;
ghost use Rattle.vz_rules.specs.World.{World as Placement, client_at, next_message, opening};
ghost use Rattle.vz_rules.specs.Course.{waits, some_waits};
ghost use Rattle.vz_rules.specs.Step.{NamesClient};
ghost use Rattle.vz_slow.specs.Asked.{asked_of, waits_at, idle_at, answered_at, attached_at, listed_in, listed_at, is_below};

use crate::attached::is_below;
use crate::slow::{Slow, Stage};
use crate::world::World;
use std::alloc::Global;
use vz_frame::Message;
use vz_ids::FrameSinkId;
use vz_rules::Plan;
use vz_state::{Client, client_of, file_of, new_client, next_message};

/// The answers for one client.
#[derive(Drop)]
pub(crate) struct Asked {
    /// Its sink.
    sink: FrameSinkId,
    /// Whether its next reply would be NotYet.
    waits: bool,
    /// Whether it is idle: it is closed, has no message left, or waits.
    is_idle: bool,
    /// Whether it has answered the current tick.
    has_answered: bool,
    /// How many resources its next message lists; 0 if that is no submission.
    listed: u64,
}

/// How many resources the frame of a message lists; 0 if the message has none.
fn listed_in(message: Option<&Message>) -> u64
    ensures { result ≡ listed_in (option_copied message.entry) }
{
    match message {
        None => 0,
        Some(message) => match message {
            Message::Submit { local: _, frame } => frame
                .as_frame()
                .resources
                .as_slice()
                .len() as u64,
            _ => 0,
        },
    }
}

/// Whether a client's next reply would be NotYet, given whether the Over mark is set.
fn waits(plan: &Plan, over: bool, client: &Client<'_>) -> bool
    ensures { (w : Placement) → w.over ≡ over → result ≡ waits plan.now w client.now }
{
    match next_message(plan, client) {
        None => false,
        Some(message) => match message {
            Message::Await => client.delivered().is_none() && !over && !client.is_closed(),
            _ => false,
        },
    }
}

/// The answers for a client of a world.
fn asked_of(plan: &Plan, tick: u32, over: bool, client: &Client<'_>) -> Asked
    ensures { (w : Placement) → w.tick ≡ tick → w.over ≡ over
        → result ≡ asked_of plan.now w client.now }
{
    let waits = waits(plan, over, client);
    Asked {
        sink: client.sink(),
        waits,
        is_idle: client.is_closed() || next_message(plan, client).is_none() || waits,
        has_answered: 0 < tick && client.answered() == tick,
        listed: listed_in(next_message(plan, client)),
    }
}

/// The answers for a client of the opening world, if the client exists. Condition: clients are
/// numbered from 1.
fn asked_at_first(alloc: Global, plan: &Plan, over: bool, c: u32) -> Option<Asked>
    requires { 0 < c }
    ensures { result ≡ option_map (asked_of plan.now (record (opening plan.now) { over = over }))
        (client_at (opening plan.now) c) }
{
    match file_of(plan, c) {
        None => None,
        Some(file) => Some(asked_of(plan, 0, over, &new_client(alloc, c, file.sink))),
    }
}

impl<'a> World<'a> {
    /// The answers for a client, if it exists.
    fn asked(&self, plan: &Plan, c: u32) -> Option<Asked>
        ensures { result ≡ option_map (asked_of plan.now self.now) (client_at self.now c) }
    {
        match client_of(&self.clients, c) {
            None => None,
            Some(client) => Some(asked_of(plan, self.tick, self.over, client)),
        }
    }

    /// Whether some submission is waiting to become active.
    fn some_waits(&self) -> bool
        ensures { result ≡ some_waits self.now }
    {
        self.subs.iter().any(|submission| submission.is_waiting())
    }
}

impl<'a> Slow<'a> {
    /// The answers for a client, if it exists.
    fn asked(&self, c: u32) -> Option<Asked>
        requires { NamesClient self.now.plan (event.Client c) }
        ensures { result ≡ option_map (asked_of self.now.plan self.now.world)
            (client_at self.now.world c) }
    {
        match &self.stage {
            Stage::Opening { over } => asked_at_first(self.alloc, self.plan, *over, c),
            Stage::Running(world) => world.asked(self.plan, c),
        }
    }

    /// Whether the first client's sink reaches this sink.
    fn is_below(&self, sink: FrameSinkId) -> bool
        ensures { result ≡ is_below self.now.plan self.now.world.relations sink }
    {
        match &self.stage {
            Stage::Opening { .. } => is_below(self.plan, &[], sink),
            Stage::Running(world) => is_below(self.plan, &world.relations, sink),
        }
    }

    /// Whether a client's next reply would be NotYet. Condition: the plan has that client.
    pub fn waits(&self, c: u32) -> bool
        requires { NamesClient self.now.plan (event.Client c) }
        ensures { result ≡ waits_at self.now c }
    {
        match self.asked(c) {
            None => false,
            Some(asked) => asked.waits,
        }
    }

    /// Whether a client is idle: it is closed, has no message left, or its next reply would be
    /// NotYet. Condition: the plan has that client.
    pub fn idle(&self, c: u32) -> bool
        requires { NamesClient self.now.plan (event.Client c) }
        ensures { result ≡ idle_at self.now c }
    {
        match self.asked(c) {
            None => false,
            Some(asked) => asked.is_idle,
        }
    }

    /// Whether a client has answered the current tick. Condition: the plan has that client.
    pub fn answered(&self, c: u32) -> bool
        requires { NamesClient self.now.plan (event.Client c) }
        ensures { result ≡ answered_at self.now c }
    {
        match self.asked(c) {
            None => false,
            Some(asked) => asked.has_answered,
        }
    }

    /// Whether a client is attached: the first client's sink reaches its sink. Condition: the
    /// plan has that client.
    #[tactic(auto, unfolding(vz_rules::specs::Step::is_attached))]
    pub fn attached(&self, c: u32) -> bool
        requires { NamesClient self.now.plan (event.Client c) }
        ensures { result ≡ attached_at self.now c }
    {
        match self.asked(c) {
            None => false,
            Some(asked) => self.is_below(asked.sink),
        }
    }

    /// How many resources the next message of a client lists; 0 if it has no message left or that
    /// is no submission. Condition: the plan has that client.
    pub fn listed(&self, c: u32) -> u64
        requires { NamesClient self.now.plan (event.Client c) }
        ensures { result ≡ listed_at self.now c }
    {
        match self.asked(c) {
            None => 0,
            Some(asked) => asked.listed,
        }
    }

    /// Whether some submission is waiting to become active.
    pub fn waiting(&self) -> bool
        ensures { result ≡ some_waits self.now.world }
    {
        match &self.stage {
            Stage::Opening { .. } => false,
            Stage::Running(world) => world.some_waits(),
        }
    }
}
