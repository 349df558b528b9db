//! What a machine tells beside its answers: after each event what it says of its clients and of
//! what is out, and each picture whole. Both machines tell the same.
ghost use Rattle.std.specs.Prelude.{◌≡◌, ◌≤◌, ◌<◌, All, OnOk, length};
ghost use Rattle.vz_geom.specs.Rectangle.{Covers, sized};
ghost use Rattle.vz_geom.specs.Display.{IsDisplaySize};
ghost use Rattle.vz_machine.specs.Stepping.{HasClient};
ghost use Rattle.vz_rules.specs.Step.{NamesClient};

use crate::plans::{by_rule, clients_of, events_of};
use std::alloc::{AllocError, Global};
use std::marker::Brand;
use std::sync::ledger::{Blank, Ledger};
use std::thread::Threads;
use vz_base::Memory;
use vz_buffers::{Buffer, Steps};
use vz_draws::Draws;
use vz_geom::{Rect, Size};
use vz_ids::Sub;
use vz_machine::{Machine, Picture, ThinPicture};
use vz_manager::Manager;
use vz_rules::{Event, Plan, Rest, Returned};
use vz_slow::PlainMachine;

/// How many histories are played, and how many events each has.
const SEEDS: u32 = 6;

const EVENTS: u32 = 400;

/// What a machine tells of a client: whether it waits, is idle, has answered and is attached, and
/// how many resources its next message lists.
type OfClient = (bool, bool, bool, bool, u64);

/// What a machine tells, event after event.
#[derive(Drop)]
struct Told {
    clients: Vec<OfClient>,
    /// Whether a submission waits.
    waiting: Vec<bool>,
    held: Vec<Returned>,
    unfed: Vec<Sub>,
    pixels: Vec<u8>,
}

impl Told {
    fn new(alloc: Global) -> Told {
        Told {
            clients: Vec::new(alloc),
            waiting: Vec::new(alloc),
            held: Vec::new(alloc),
            unfed: Vec::new(alloc),
            pixels: Vec::new(alloc),
        }
    }

    /// Whether two machines tell the same.
    fn is_same(&self, other: &Told) -> bool {
        let of_clients = self.clients == other.clients;
        let of_all = self.waiting == other.waiting;
        let of_rest = self.has_same_rest(other);
        of_clients & of_all & of_rest & (self.pixels == other.pixels)
    }

    fn has_same_rest(&self, other: &Told) -> bool {
        let held = self.held == other.held;
        held & (self.unfed == other.unfed)
    }

    /// Adds what is out.
    fn add_rest(&mut self, rest: &Rest) -> Result<(), AllocError> {
        self.held.extend_from_slice(rest.held.as_slice())?;
        self.unfed.extend_from_slice(rest.unfed.as_slice())?;
        Ok(())
    }

    /// Adds what a machine tells of the first so many clients.
    fn add_clients<M: Machine>(&mut self, machine: &M, clients: u32) -> Result<(), AllocError>
        requires { clients ≤ length (M.state machine.now).plan.files }
    {
        for client in 1..=clients {
            self.clients.push(of_client(machine, client))?;
        }
        Ok(())
    }

    /// Adds what a machine tells of all clients.
    fn add_all<M: Machine>(&mut self, alloc: Global, machine: &M) -> Result<(), Memory> {
        let rest = machine.rest(alloc)?;
        self.add_rest(&rest)?;
        self.waiting.push(machine.waiting())?;
        Ok(())
    }

    /// Adds the bytes of all pixels of a picture.
    fn add_picture<P: ThinPicture, L: Ledger, R: Threads + AllocGlobal + Sync>(
        &mut self,
        rt: &R,
        picture: &P,
        steps: &mut Steps<L>,
    ) -> Result<(), Memory> {
        let size = picture.size();
        let mut buffer = Buffer::new(rt.alloc(), size, steps)?;
        picture.paint(rt, rt.alloc(), whole(&size), &mut buffer, steps)?;
        self.pixels.extend_from_slice(buffer.bytes())?;
        Ok(())
    }

    /// Takes an event of a machine's plan, and adds the picture of a drawing.
    fn take<M: Machine, L: Ledger, R: Threads + AllocGlobal + Sync>(
        &mut self,
        rt: &R,
        machine: &mut M,
        event: Event,
        steps: &mut Steps<L>,
    ) -> Result<(), Memory>
    where
        M::Picture: Drop,
        requires { NamesClient (M.state machine.old).plan event }
        ensures { OnOk result ((M.state machine.new).plan ≡ (M.state machine.old).plan) }
    {
        if let Some(picture) = taken(rt.alloc(), machine, event)? {
            let thin = picture.occlude(rt.alloc())?;
            self.add_picture(rt, &thin, steps)?;
        }
        Ok(())
    }

    /// Takes each of these events, which are of the machine's plan, and adds what it tells after
    /// it, as so many clients are.
    fn take_all<M: Machine, L: Ledger, R: Threads + AllocGlobal + Sync>(
        &mut self,
        rt: &R,
        machine: &mut M,
        clients: u32,
        events: &[Event],
        steps: &mut Steps<L>,
    ) -> Result<(), Memory>
    where
        M::Picture: Drop,
        requires clients { clients ≤ length (M.state machine.old).plan.files }
        requires named { All (NamesClient (M.state machine.old).plan) events.now }
    {
        for event in events {
            self.take(rt, machine, *event, steps)?;
            self.add_clients(machine, clients)?;
            self.add_all(rt.alloc(), machine)?;
        }
        Ok(())
    }
}

/// What a machine tells of a client that its plan has.
fn of_client<M: Machine>(machine: &M, client: u32) -> OfClient
    requires { HasClient (M.state machine.now) client }
{
    (
        machine.waits(client),
        machine.idle(client),
        machine.answered(client),
        machine.attached(client),
        machine.listed(client),
    )
}

/// All of a display.
fn whole(size: &Size) -> Rect
    requires { IsDisplaySize size.now }
    ensures { Covers (sized size.now) result }
{
    Rect::of_display(*size)
}

/// Takes an event of a machine's plan, and gives the picture of a drawing.
fn taken<M: Machine>(
    alloc: Global,
    machine: &mut M,
    event: Event,
) -> Result<Option<M::Picture>, Memory>
    requires { NamesClient (M.state machine.old).plan event }
    ensures { OnOk result ((M.state machine.new).plan ≡ (M.state machine.old).plan) }
{
    match event {
        Event::Client(client) => {
            machine.client(alloc, client)?;
            Ok(None)
        }
        Event::Begin => {
            machine.begin(alloc)?;
            Ok(None)
        }
        Event::Draw => {
            let (_, picture) = machine.draw(alloc)?;
            Ok(picture)
        }
        Event::Done => {
            machine.done();
            Ok(None)
        }
        Event::Over => {
            machine.over();
            Ok(None)
        }
    }
}

/// Adds what a machine tells after each of these events, which are of its plan, as so many clients
/// are; whether there was memory.
fn tells<M: Machine + Drop, L: Ledger, R: Threads + AllocGlobal + Sync>(
    rt: &R,
    mut machine: M,
    clients: u32,
    events: &[Event],
    blank: Blank,
    told: &mut Told,
) -> bool
where
    M::Picture: Drop,
    requires clients { clients ≤ length (M.state machine).plan.files }
    requires named { All (NamesClient (M.state machine).plan) events.now }
    requires name { blank.name ≡ L.name }
    requires parts { blank.parts ≡ L.parts }
    requires some { 0 < L.parts }
{
    let mut steps = Steps::<L>::new(blank);
    told.take_all(rt, &mut machine, clients, events, &mut steps)
        .is_ok()
}

/// Adds what the plain machine tells of a plan; whether there was memory.
fn plain_tells<R: Threads + AllocGlobal + Sync>(
    rt: &R,
    plan: &Plan,
    events: &[Event],
    told: &mut Told,
) -> bool
    requires { All (NamesClient plan.now) events.now }
{
    let machine = PlainMachine::new(rt.alloc(), plan);
    let clients = clients_of(plan);
    tells::<PlainMachine<'_>, Brand, _>(rt, machine, clients, events, Blank::new(1), told)
}

/// Adds what the machine that users run tells of a plan; whether there was memory.
fn fast_tells<R: Threads + AllocGlobal + Sync>(
    rt: &R,
    plan: Plan,
    events: &[Event],
    told: &mut Told,
) -> bool
    requires { All (NamesClient plan) events.now }
{
    let clients = clients_of(&plan);
    match Manager::open(rt.alloc(), plan) {
        Ok(machine) => tells::<Manager, Brand, _>(
            rt,
            machine,
            clients,
            events,
            Blank::new(1),
            told,
        ),
        Err(_) => false,
    }
}

/// Whether both machines tell the same of a plan.
fn tell_the_same<R: Threads + AllocGlobal + Sync>(rt: &R, plan: Plan, events: &[Event]) -> bool
    requires { All (NamesClient plan) events.now }
{
    let mut plain = Told::new(rt.alloc());
    let mut fast = Told::new(rt.alloc());
    let by_plain = plain_tells(rt, &plan, events, &mut plain);
    let by_fast = fast_tells(rt, plan, events, &mut fast);
    by_plain & by_fast & plain.is_same(&fast)
}

/// An event of the page, of its two children or of the display; the end of all begin-frames comes
/// seldom.
fn some_event(draws: &mut Draws) -> u8 {
    match draws.below(128) {
        0..=43 => 2,
        44..=87 => 3,
        88..=99 => 0x11,
        100..=109 => 0x12,
        110..=118 => 0x13,
        119 => 0x14,
        _ => 1,
    }
}

/// Appends the events of a schedule that is drawn from a number; whether there was memory.
fn put_schedule(seed: u32, schedule: &mut Vec<u8>) -> bool {
    let mut draws = Draws::new(seed);
    for _ in 0..EVENTS {
        if schedule.push(some_event(&mut draws)).is_err() {
            return false;
        }
    }
    true
}

/// Whether both machines tell the same of the files by rule in a schedule.
fn tell_the_same_of<R: Threads + AllocGlobal + Sync>(rt: &R, schedule: &[u8]) -> bool {
    match by_rule(rt.alloc(), 24) {
        Some(plan) => {
            let events = events_of(rt.alloc(), &plan, schedule);
            events.len() == schedule.len() && tell_the_same(rt, plan, &events)
        }
        None => false,
    }
}

/// Whether both machines tell the same of the files by rule in a drawn history.
fn tell_the_same_at<R: Threads + AllocGlobal + Sync>(rt: &R, seed: u32) -> bool {
    let mut schedule = Vec::new(rt.alloc());
    put_schedule(seed, &mut schedule) && tell_the_same_of(rt, &schedule)
}

/// The first number from which a history is drawn that the machines tell otherwise.
fn first_apart<R: Threads + AllocGlobal + Sync>(rt: &R) -> Option<u32> {
    for seed in 0..SEEDS {
        if !tell_the_same_at(rt, seed) {
            return Some(seed);
        }
    }
    None
}

#[test]
fn machines_tell_the_same(rt: HostRuntime) {
    assert!(rt; first_apart(&rt).is_none());
}
