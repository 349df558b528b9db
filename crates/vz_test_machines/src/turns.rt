//! A hub with two callers over each machine: a worked row, in which one caller meets the other, and
//! two threads that make calls at once.
ghost use Rattle.std.specs.Prelude.{◌≡◌, ◌≤◌, ◌++◌, ◌∷◌, [], length, IfOk};
ghost use Rattle.vz_rules.specs.World.{opening};
ghost use Rattle.std.specs.Option.{ForSome};
ghost use Rattle.vz_loans.specs.Tokens.{mine, IsAtRest, IsSameCaller};

use crate::row::plan;
use std::sync::Wait;
use std::test::Fail;
use std::thread::{self, Threads};
use vz_base::Memory;
use vz_machine::Machine;
use vz_manager::Manager;
use vz_rules::{Event, History, Refusal};
use vz_slow::PlainMachine;
use vz_turn::{Brief, ClientBrief, Hub, Pass, Told};

/// Makes a call for the next message of client 1.
fn take<M: Machine + Send, R: Wait + AllocGlobal>(
    rt: &R,
    hub: &Hub<M>,
    pass: &mut Pass<M>,
) -> Result<Told, Memory>
where
    M::Picture: Send + Drop,
    requires ours { IsAtRest hub.now.id pass.old }
    requires client { ForSome pass.old.plan (λ p. 1 ≤ length p.files) }
    ensures rests { IsAtRest hub.now.id pass.new }
    ensures same { IsSameCaller pass.old pass.new }
    ensures mine { IfOk result (λ told. mine pass.new ≡ mine pass.old ++ told.place ∷ []) }
{
    hub.call(rt, pass, Event::Client(1))
}

/// The first caller takes a message, and the second caller takes the next one. The first caller
/// meets the second, and takes a third message. Returns what the three calls report.
fn three_calls<M: Machine + Send, R: Wait + AllocGlobal>(
    rt: &R,
    hub: &Hub<M>,
    first: &mut Pass<M>,
    second: &mut Pass<M>,
) -> Result<(Told, Told, Told), Memory>
where
    M::Picture: Send + Drop,
    requires first { IsAtRest hub.now.id first.old }
    requires second { IsAtRest hub.now.id second.old }
    requires client { ForSome first.old.plan (λ p. 1 ≤ length p.files) }
    requires other { ForSome second.old.plan (λ p. 1 ≤ length p.files) }
    ensures first { IsAtRest hub.now.id first.new }
    ensures second { IsAtRest hub.now.id second.new }
    ensures mine { IfOk result (λ t. mine first.new
        ≡ (mine first.old ++ t.0.place ∷ []) ++ t.2.place ∷ []) }
{
    let one = take(rt, hub, first)?;
    let two = take(rt, hub, second)?;
    hub.meet(first, second);
    let three = take(rt, hub, first)?;
    Ok((one, two, three))
}

/// Whether the calls report what they must, and the history has three entries.
fn are_told(told: &Result<(Told, Told, Told), Memory>, history: &History) -> bool {
    let Ok((one, two, three)) = told else {
        return false;
    };
    let first = Told {
        place: 1,
        reply: Brief::Client(ClientBrief::Accepted {
            ordinal: 1,
            index: 1,
        }),
    };
    let second = Told {
        place: 2,
        reply: Brief::Client(ClientBrief::Refused(Refusal::SizeMismatch)),
    };
    let third = Told {
        place: 3,
        reply: Brief::Client(ClientBrief::Accepted {
            ordinal: 2,
            index: 2,
        }),
    };
    *one == first && *two == second && *three == third && history.len() == 3
}

/// Whether three calls of two callers of a hub over a machine report what they must.
fn tells_turns<M: Machine + Send + Drop, R: Wait + AllocGlobal>(rt: &R, machine: M) -> bool
where
    M::Picture: Send + Drop,
    requires opening { (M.state machine).world ≡ opening (M.state machine).plan }
    requires client { 1 ≤ length (M.state machine).plan.files }
{
    let Ok((hub, mut passes)) = Hub::open(rt.alloc(), machine, 2) else {
        return false;
    };
    let mut second = passes.pop().unwrap();
    let mut first = passes.pop().unwrap();
    let told = three_calls(rt, &hub, &mut first, &mut second);
    passes.push_reserved(first);
    passes.push_reserved(second);
    let (_machine, history) = hub.close(passes);
    are_told(&told, &history)
}

#[test]
fn turns_of_callers(rt: HostRuntime) -> Result<(), Fail> {
    let plan = plan(rt.alloc())?;
    let machine = PlainMachine::new(rt.alloc(), &plan);
    assert!(&rt; tells_turns(&rt, machine));
    Ok(())
}

#[test]
fn turns_of_callers_of_the_fast_machine(rt: HostRuntime) -> Result<(), Fail> {
    let Ok(machine) = Manager::open(rt.alloc(), plan(rt.alloc())?) else {
        panic!(&rt; "memory")
    };
    assert!(&rt; tells_turns(&rt, machine));
    Ok(())
}

/// Makes a call for a begin-frame, a drawing and its end. Returns the pass, and whether each
/// call made an entry.
fn display_calls<M: Machine + Send, R: Wait + AllocGlobal>(
    rt: &R,
    hub: &Hub<M>,
    mut pass: Pass<M>,
) -> (Pass<M>, bool)
where
    M::Picture: Send + Drop,
    requires { IsAtRest hub.now.id pass }
    ensures { IsAtRest hub.now.id result.0 }
{
    let begun = hub.call(rt, &mut pass, Event::Begin).is_ok();
    let drawn = hub.call(rt, &mut pass, Event::Draw).is_ok();
    let done = hub.call(rt, &mut pass, Event::Done).is_ok();
    (pass, begun & drawn & done)
}

/// Makes a call for each of three messages of client 1. Returns the pass, and whether each call
/// made an entry.
fn client_calls<M: Machine + Send, R: Wait + AllocGlobal>(
    rt: &R,
    hub: &Hub<M>,
    mut pass: Pass<M>,
) -> (Pass<M>, bool)
where
    M::Picture: Send + Drop,
    requires ours { IsAtRest hub.now.id pass }
    requires client { ForSome pass.plan (λ p. 1 ≤ length p.files) }
    ensures { IsAtRest hub.now.id result.0 }
{
    let first = take(rt, hub, &mut pass).is_ok();
    let second = take(rt, hub, &mut pass).is_ok();
    let third = take(rt, hub, &mut pass).is_ok();
    (pass, first & second & third)
}

/// How many entries have the event of a client.
fn of_clients(history: &History) -> usize {
    let mut count: usize = 0;
    for entry in history {
        if let Event::Client(_) = entry.event {
            count = count.saturating_add(1);
        }
    }
    count
}

/// Both callers make their calls, each on a thread, and their passes come back.
fn at_once<M: Machine + Send + Drop, R: Threads + Wait + AllocGlobal + Sync>(
    rt: &R,
    hub: &Hub<M>,
    first: Pass<M>,
    second: Pass<M>,
) -> ((Pass<M>, bool), (Pass<M>, bool))
where
    M::Picture: Send + Drop,
    requires first { IsAtRest hub.now.id first }
    requires second { IsAtRest hub.now.id second }
    requires client { ForSome second.plan (λ p. 1 ≤ length p.files) }
    ensures first { IsAtRest hub.now.id result.0.0 }
    ensures second { IsAtRest hub.now.id result.1.0 }
{
    thread::join(
        rt,
        move || -> (Pass<M>, bool)
            requires { IsAtRest hub.now.id first }
            ensures { IsAtRest hub.entry.now.id result.0 }
        { display_calls(rt, hub, first) },
        move || -> (Pass<M>, bool)
            requires ours { IsAtRest hub.now.id second }
            requires client { ForSome second.plan (λ p. 1 ≤ length p.files) }
            ensures { IsAtRest hub.entry.now.id result.0 }
        { client_calls(rt, hub, second) },
    )
}

/// Whether two threads that make calls of a hub over a machine make all their entries.
fn has_threads<M: Machine + Send + Drop, R: Threads + Wait + AllocGlobal + Sync>(
    rt: &R,
    machine: M,
) -> bool
where
    M::Picture: Send + Drop,
    requires opening { (M.state machine).world ≡ opening (M.state machine).plan }
    requires client { 1 ≤ length (M.state machine).plan.files }
{
    let Ok((hub, mut passes)) = Hub::open(rt.alloc(), machine, 2) else {
        return false;
    };
    let second = passes.pop().unwrap();
    let first = passes.pop().unwrap();
    let (a, b) = at_once(rt, &hub, first, second);
    let (mut first, a) = a;
    let (mut second, b) = b;
    hub.meet(&mut first, &mut second);
    passes.push_reserved(first);
    passes.push_reserved(second);
    let (_machine, history) = hub.close(passes);
    a & b & (of_clients(&history) == 3) & (history.len() == 6)
}

#[test]
fn callers_are_threads(rt: HostRuntime) -> Result<(), Fail> {
    let plan = plan(rt.alloc())?;
    let machine = PlainMachine::new(rt.alloc(), &plan);
    assert!(&rt; has_threads(&rt, machine));
    Ok(())
}

#[test]
fn callers_of_the_fast_machine_are_threads(rt: HostRuntime) -> Result<(), Fail> {
    let Ok(machine) = Manager::open(rt.alloc(), plan(rt.alloc())?) else {
        panic!(&rt; "memory")
    };
    assert!(&rt; has_threads(&rt, machine));
    Ok(())
}
