//! The threads of the clients.
ghost use Rattle.std.specs.Prelude.{◌≡◌, ◌≤◌, [], All, OnOk, length, vec_len, vec_capacity};
ghost use Rattle.vz_threads.specs.Crews.{messages_of, MayTake, WorksOn, IsInCrew, IsCrew, CrewWorksOn};
ghost use Rattle.vz_threads.specs.Crews.{end_of, crew_of, IsToldBy, IsServedHere};

use crate::halt::Halt;
use crate::messages::{take_messages, take_until_idle};
use std::alloc::AllocGlobal;
use std::snapshot::Snapshot;
use std::sync::Wait;
use std::sync::atomic::{AtomicBool, Ordering};
use std::thread::{Promise, PromisedHandle, Scope, Threads};
use vz_base::Memory;
use vz_desk::{Desk, End};
use vz_machine::Machine;
use vz_outside::Gate;

/// A thread returns the end that was given to it. If each call of the end took a message before,
/// and the gate was told of it, the same is true after.
#[derive(Drop)]
pub(crate) struct SameEnd<M: Machine + Send, G: Gate> {
    pub(crate) given: Snapshot<End<M, Halt>>,
    pub(crate) gate: Snapshot<G>,
}

impl<M: Machine + Send, G: Gate> Promise<End<M, Halt>> for SameEnd<M, G> {
    ghost use Rattle.vz_threads.specs.Crews.{WorksOn};

    ghost kept_by = { λ p r. WorksOn (G.told p.gate.value) p.given.value r };
}

/// The end of a client: either with its thread, or here, if no thread could be started.
#[derive(Drop)]
pub(crate) enum Started<M: Machine + Send, G: Gate> {
    Running(PromisedHandle<End<M, Halt>, SameEnd<M, G>>),
    Here(End<M, Halt>),
}

/// How many messages the file of the end's client has.
pub(crate) fn count_of<M: Machine + Send>(end: &End<M, Halt>, messages: &[u64]) -> u64
where
    M::Picture: Send,
    requires from { 1 ≤ end.now.number }
    requires upto { end.now.number ≤ length messages.now }
    ensures { result ≡ messages_of messages.now end.now.number }
{
    messages[end.client() as usize - 1]
}

// What a thread does: it takes the messages of its client, unless the thread was refused.
fn work<M: Machine + Send, G: Gate, R: Wait + AllocGlobal>(
    rt: &R,
    desk: &Desk<M, Halt>,
    gate: &G,
    refused: &AtomicBool,
    mut end: End<M, Halt>,
    count: u64,
) -> End<M, Halt>
where
    M::Picture: Send,
    requires { MayTake (G.told gate.now) desk.now.id count end }
    ensures { WorksOn (G.told gate.now) end result }
{
    if !refused.load(Ordering::SeqCst) {
        // If this fails, the desk was stopped, and the display sees that.
        let _ = take_messages(rt, desk, gate, &mut end, count);
    }
    end
}

// Starts the thread of one end. If it cannot be started, the end stays here.
fn start<
    's,
    M: Machine + Send + Drop + 's,
    G: Gate + Sync + 's,
    E,
    R: Threads + Wait + AllocGlobal + Sync + 's,
>(
    rt: &'s R,
    scope: &Scope<'s, E>,
    desk: &'s Desk<M, Halt>,
    gate: &'s G,
    refused: &'s AtomicBool,
    end: End<M, Halt>,
    count: u64,
) -> Started<M, G>
where
    M::Picture: Send + Drop + 's,
    requires { MayTake (G.told gate.now) desk.now.id count end }
    ensures works { WorksOn (G.told gate.now) end (end_of result) }
    ensures gates { IsToldBy gate.now result }
{
    let promise = SameEnd {
        given: Snapshot::of(&end),
        gate: Snapshot::of(gate),
    };
    let started = scope.spawn_with(
        promise,
        move || -> End<M, Halt>
            requires { MayTake (G.told gate.now) desk.now.id count end }
            ensures { WorksOn (G.told gate.entry.now) end result }
        { work(rt, desk, gate, refused, end, count) },
    );
    match started {
        Ok(child) => Started::Running(child),
        Err(unstarted) => {
            refused.store(true, Ordering::SeqCst);
            Started::Here((unstarted.value)())
        }
    }
}

// Takes the messages of an end that stayed here, until its client is idle.
fn serve<M: Machine + Send, G: Gate, R: Wait + AllocGlobal>(
    rt: &R,
    desk: &Desk<M, Halt>,
    gate: &G,
    one: &mut Started<M, G>,
    messages: &[u64],
) -> Result<(), Memory>
where
    M::Picture: Send,
    requires { IsInCrew (G.told gate.now) desk.now.id messages.now (end_of one.old) }
    ensures works { WorksOn (G.told gate.now) (end_of one.old) (end_of one.new) }
    ensures gates { IsToldBy gate.now one.old → IsToldBy gate.now one.new }
    ensures served { OnOk result (IsServedHere messages.now one.new) }
{
    match one {
        Started::Running(_) => Ok(()),
        Started::Here(end) => {
            let count = count_of(end, messages);
            take_until_idle(rt, desk, gate, end, count)?;
            Ok(())
        }
    }
}

// Waits for the thread of one end.
fn finish<M: Machine + Send + Drop, G: Gate, R: Threads + Wait>(
    rt: &R,
    started: Started<M, G>,
) -> End<M, Halt>
where
    M::Picture: Send + Drop,
    ensures { (gate : G) → IsToldBy gate started
        → WorksOn (G.told gate) (end_of started) result }
{
    match started {
        Started::Running(child) => child.join(rt),
        Started::Here(end) => end,
    }
}

/// Starts a thread for each end, the last end first, and takes the ends. Each thread takes its
/// client's messages; if a thread could not be started, its end is in the list. `refused` has a
/// flag for each file. Conditions: each end is of a client of the plan, each of its calls took a
/// message, and the gate was told of it; and there is room for all.
pub(crate) fn start_all<
    's,
    M: Machine + Send + Drop + 's,
    G: Gate + Sync + 's,
    E,
    R: Threads + Wait + AllocGlobal + Sync + 's,
>(
    rt: &'s R,
    scope: &Scope<'s, E>,
    desk: &'s Desk<M, Halt>,
    gate: &'s G,
    refused: &'s [AtomicBool],
    messages: &[u64],
    ends: &mut Vec<End<M, Halt>>,
    started: &mut Vec<Started<M, G>>,
)
where
    M::Picture: Send + Drop + 's,
    requires crew { IsCrew (G.told gate.now) desk.now.id messages.now ends.old.items }
    requires flags { length refused.now ≡ length messages.now }
    requires room { (started.old.items ≡ []) × (vec_len ends.old ≤ vec_capacity started.old) }
    ensures none { ends.new.items ≡ [] }
    ensures capacity { vec_capacity ends.new ≡ vec_capacity ends.old }
    ensures count { vec_len started.new ≡ vec_len ends.old }
    ensures works { CrewWorksOn (G.told gate.now) ends.old.items (crew_of started.new.items) }
    ensures gates { All (IsToldBy gate.now) started.new.items }
{
    while let Some(end) = ends.pop() {
        let count = count_of(&end, messages);
        let flag = &refused[end.client() as usize - 1];
        started.push_reserved(start(rt, scope, desk, gate, flag, end, count));
    }
}

/// Takes the messages of each end whose thread could not be started, until its client is idle.
/// The error is `Memory` if the desk was stopped or an allocation failed, and then the messages
/// are not all taken. If an allocation failed, the desk is stopped.
pub(crate) fn serve_all<M: Machine + Send, G: Gate, R: Wait + AllocGlobal>(
    rt: &R,
    desk: &Desk<M, Halt>,
    gate: &G,
    started: &mut Vec<Started<M, G>>,
    messages: &[u64],
) -> Result<(), Memory>
where
    M::Picture: Send,
    requires { IsCrew (G.told gate.now) desk.now.id messages.now (crew_of started.old.items) }
    ensures count { vec_len started.new ≡ vec_len started.old }
    ensures capacity { vec_capacity started.new ≡ vec_capacity started.old }
    ensures works { CrewWorksOn (G.told gate.now)
        (crew_of started.old.items) (crew_of started.new.items) }
    ensures gates { All (IsToldBy gate.now) started.old.items
        → All (IsToldBy gate.now) started.new.items }
    ensures served { OnOk result (All (IsServedHere messages.now) started.new.items) }
{
    for one in started.iter_mut() {
        serve(rt, desk, gate, one, messages)?;
    }
    Ok(())
}

/// Waits for all threads, and returns the ends in the order in which `start_all` took them.
/// Condition: there is room for all.
pub(crate) fn finish_all<M: Machine + Send + Drop, G: Gate, R: Threads + Wait>(
    rt: &R,
    started: &mut Vec<Started<M, G>>,
    ends: &mut Vec<End<M, Halt>>,
)
where
    M::Picture: Send + Drop,
    requires room { (ends.old.items ≡ []) × (vec_len started.old ≤ vec_capacity ends.old) }
    ensures none { started.new.items ≡ [] }
    ensures works { (gate : G) → All (IsToldBy gate) started.old.items
        → CrewWorksOn (G.told gate) (crew_of started.old.items) ends.new.items }
{
    while let Some(one) = started.pop() {
        ends.push_reserved(finish(rt, one));
    }
}
