//! The threads of the clients.
ghost use Rattle.std.specs.Prelude.{◌≡◌, ◌≤◌, [], vec_len, vec_capacity};
ghost use Rattle.atomic_table.specs.Seated.{TableId};
ghost use Rattle.vz_rules.specs.Plan.{Plan};
ghost use Rattle.vz_callers.specs.Callers.{MayCall, MakesCalls, HasCalled};
ghost use Rattle.vz_callers.specs.Crews.{messages_of, number_of, numbers_of, numbers_at_work};
ghost use Rattle.vz_callers.specs.Crews.{HasFile, IsAtWork, IsCrew, IsGoing, IsBack};

use crate::calls::{Called, make_calls};
use std::alloc::AllocGlobal;
use std::snapshot::Snapshot;
use std::sync::Wait;
use std::thread::{Promise, PromisedHandle, Scope, Threads};
use vz_machine::Machine;
use vz_outside::Gate;
use vz_turn::{Hub, Pass};

/// A thread returns the pass that was given to it, after as many calls of its client as it says,
/// each of which it told its gate.
#[derive(Drop)]
pub(crate) struct ClientCalls<M: Machine + Send, G: Gate> {
    /// The pass as it was given to the thread.
    pub(crate) given: Snapshot<Pass<M>>,
    /// The gate that the thread calls.
    pub(crate) gate: Snapshot<G>,
}

impl<M: Machine + Send, G: Gate> Promise<Called<M>> for ClientCalls<M, G> {
    ghost use Rattle.vz_callers.specs.Callers.{MakesCalls};

    ghost kept_by = { λ p r. MakesCalls (G.told p.gate.value) p.given.value r.pass r.made };
}

/// The calls of a client.
#[derive(Drop)]
pub(crate) enum Started<M: Machine + Send, G: Gate> {
    /// Its thread makes them.
    Running(PromisedHandle<Called<M>, ClientCalls<M, G>>),
    /// No thread could be started, and they were made here.
    Here(Called<M>),
}

/// How many messages the file of the pass's client has.
fn count_of<M: Machine + Send>(pass: &Pass<M>, messages: &[u64]) -> u64
where
    M::Picture: Send,
    requires { HasFile messages.now pass.now }
    ensures { result ≡ messages_of messages.now pass.now.number }
{
    messages[pass.number() as usize - 1]
}

/// Starts the thread of one client. If it cannot be started, its calls are made here.
fn start<
    's,
    M: Machine + Send + Drop + 's,
    G: Gate + Sync + 's,
    E,
    R: Threads + Wait + AllocGlobal + Sync + 's,
>(
    rt: &'s R,
    scope: &Scope<'s, E>,
    hub: &'s Hub<M>,
    gate: &'s G,
    pass: Pass<M>,
    count: u64,
) -> Started<M, G>
where
    M::Picture: Send + Drop + 's,
    requires { MayCall hub.now.id pass }
    ensures number { number_of result ≡ pass.number }
    ensures work { (p : Plan) → HasCalled (G.told gate.now) hub.now.id p pass 0
        → IsAtWork G.told gate.now hub.now.id p result }
{
    let promise = ClientCalls {
        given: Snapshot::of(&pass),
        gate: Snapshot::of(gate),
    };
    let started = scope.spawn_with(
        promise,
        move || -> Called<M>
            requires { MayCall hub.now.id pass }
            ensures { MakesCalls (G.told gate.entry.now) pass result.pass result.made }
        { make_calls(rt, hub, gate, pass, count) },
    );
    match started {
        Ok(child) => Started::Running(child),
        Err(unstarted) => Started::Here((unstarted.value)()),
    }
}

/// Waits for the calls of one client.
fn finish<M: Machine + Send + Drop, G: Gate, R: Threads + Wait>(
    rt: &R,
    started: Started<M, G>,
) -> Called<M>
where
    M::Picture: Send + Drop,
    ensures number { result.pass.number ≡ number_of started }
    ensures called { (gate : G) (id : TableId) (p : Plan) → IsAtWork G.told gate id p started
        → HasCalled (G.told gate) id p result.pass result.made }
{
    match started {
        Started::Running(child) => child.join(rt),
        Started::Here(called) => called,
    }
}

/// Starts a thread for each client, the last one first, and takes the passes. If a thread cannot
/// be started, its client's calls are made here. Conditions: each pass belongs to the hub, its
/// caller is a client of the plan and made no entry yet, and there is room for all.
pub(crate) fn start_all<
    's,
    M: Machine + Send + Drop + 's,
    G: Gate + Sync + 's,
    E,
    R: Threads + Wait + AllocGlobal + Sync + 's,
>(
    rt: &'s R,
    scope: &Scope<'s, E>,
    hub: &'s Hub<M>,
    gate: &'s G,
    messages: &[u64],
    passes: &mut Vec<Pass<M>>,
    started: &mut Vec<Started<M, G>>,
)
where
    M::Picture: Send + Drop + 's,
    requires crew { (p : Plan)
        × IsCrew (G.told gate.now) hub.now.id p messages.now passes.old.items }
    requires room { (started.old.items ≡ []) × (vec_len passes.old ≤ vec_capacity started.old) }
    ensures none { passes.new.items ≡ [] }
    ensures capacity { vec_capacity passes.new ≡ vec_capacity passes.old }
    ensures count { vec_len started.new ≡ vec_len passes.old }
    ensures numbers { numbers_at_work started.new.items ≡ numbers_of passes.old.items }
    ensures going { (p : Plan)
        → IsCrew (G.told gate.now) hub.now.id p messages.now passes.old.items
        → IsGoing G.told gate.now hub.now.id p messages.now started.new.items }
{
    while let Some(pass) = passes.pop() {
        let count = count_of(&pass, messages);
        started.push_reserved(start(rt, scope, hub, gate, pass, count));
    }
}

/// Waits for the calls of all clients, and puts their passes into the list in the order in which
/// `start_all` took them. Returns whether each client made as many calls as its file has
/// messages. Condition: there is room for all.
pub(crate) fn finish_all<M: Machine + Send + Drop, G: Gate, R: Threads + Wait>(
    rt: &R,
    messages: &[u64],
    started: &mut Vec<Started<M, G>>,
    passes: &mut Vec<Pass<M>>,
) -> bool
where
    M::Picture: Send + Drop,
    requires going { (gate : G) × (id : TableId) × (p : Plan)
        × IsGoing G.told gate id p messages.now started.old.items }
    requires room { (passes.old.items ≡ []) × (vec_len started.old ≤ vec_capacity passes.old) }
    ensures capacity { vec_capacity passes.new ≡ vec_capacity passes.old }
    ensures count { vec_len passes.new ≡ vec_len started.old }
    ensures numbers { numbers_of passes.new.items ≡ numbers_at_work started.old.items }
    ensures back { (gate : G) (id : TableId) (p : Plan)
        → IsGoing G.told gate id p messages.now started.old.items
        → IsBack (G.told gate) id p messages.now passes.new.items result }
{
    let mut all = true;
    while let Some(one) = started.pop() {
        let called = finish(rt, one);
        let count = count_of(&called.pass, messages);
        all = all & (called.made == count);
        passes.push_reserved(called.pass);
    }
    all
}
