//! The threads of the clients and the rounds of the display, at the same time.
ghost use Rattle.std.specs.Prelude.{◌≡◌, ◌≤◌, ◌++◌, [], OnOk, vec_len, vec_capacity};
ghost use Rattle.vz_loans.specs.Tokens.{IsAtRest};
ghost use Rattle.vz_rules.specs.Plan.{Plan};
ghost use Rattle.vz_callers.specs.Callers.{events_of, Stays, HasTold, IsDisplay};
ghost use Rattle.vz_callers.specs.Crews.{numbers_of, IsCrew, IsBack};
ghost use Rattle.vz_callers.specs.Turns.{rounds};

use crate::calls::make_rounds;
use crate::crew::{Started, finish_all, start_all};
use std::alloc::AllocGlobal;
use std::sync::Wait;
use std::thread;
use std::thread::Threads;
use vz_base::Memory;
use vz_machine::Machine;
use vz_outside::Gate;
use vz_turn::{Hub, Pass};

/// What is there after all threads have ended.
#[derive(Drop)]
pub(crate) struct Beside<M: Machine + Send> {
    /// The passes of the clients.
    pub(crate) passes: Vec<Pass<M>>,
    /// The pass of the display.
    pub(crate) display: Pass<M>,
    /// Whether the display made all its rounds.
    pub(crate) played: Result<(), Memory>,
    /// Whether each client made as many calls as its file has messages.
    pub(crate) complete: bool,
}

/// Starts a thread for each client, makes the rounds of the display on this thread, and waits for
/// all threads. Conditions: each pass belongs to the hub, its caller is a client of the plan and
/// made no entry yet, and there is room for each thread.
pub(crate) fn play_beside<
    M: Machine + Send + Drop,
    G: Gate + Sync,
    R: Threads + Wait + AllocGlobal + Sync,
>(
    rt: &R,
    hub: &Hub<M>,
    gate: &G,
    messages: &[u64],
    ticks: u32,
    started: Vec<Started<M, G>>,
    passes: Vec<Pass<M>>,
    display: Pass<M>,
) -> Beside<M>
where
    M::Picture: Send + Drop,
    requires crew { (p : Plan)
        × IsCrew (G.told gate.now) hub.now.id p messages.now passes.items }
    requires room { (started.items ≡ []) × (vec_len passes ≤ vec_capacity started) }
    requires display { IsAtRest hub.now.id display }
    ensures count { vec_len result.passes ≡ vec_len passes }
    ensures capacity { vec_capacity result.passes ≡ vec_capacity passes }
    ensures numbers { numbers_of result.passes.items ≡ numbers_of passes.items }
    ensures back { (p : Plan)
        → IsCrew (G.told gate.now) hub.now.id p messages.now passes.items
        → IsBack (G.told gate.now) hub.now.id p messages.now result.passes.items result.complete }
    ensures told { IsDisplay 0 display → HasTold (G.told gate.now) result.display }
    ensures stays { Stays display result.display }
    ensures played { OnOk result.played
        (events_of result.display ≡ events_of display ++ rounds ticks) }
{
    thread::scope(
        thread::scope_env(),
        rt,
        |scope| -> Beside<M>
            requires crew { (p : Plan)
                × IsCrew (G.told gate.now) hub.now.id p messages.now passes.items }
            requires room { (started.items ≡ []) × (vec_len passes ≤ vec_capacity started) }
            requires display { IsAtRest hub.now.id display }
            ensures count { vec_len result.passes ≡ vec_len passes }
            ensures capacity { vec_capacity result.passes ≡ vec_capacity passes }
            ensures numbers { numbers_of result.passes.items ≡ numbers_of passes.items }
            ensures back { (p : Plan)
                → IsCrew (G.told gate.entry.now) hub.entry.now.id p messages.entry.now
                passes.items
                → IsBack (G.told gate.entry.now) hub.entry.now.id p messages.entry.now
                result.passes.items result.complete }
            ensures told { IsDisplay 0 display
                → HasTold (G.told gate.entry.now) result.display }
            ensures stays { Stays display result.display }
            ensures played { OnOk result.played
                (events_of result.display ≡ events_of display ++ rounds ticks) }
        {
            let mut passes = passes;
            let mut started = started;
            let mut display = display;
            let count = passes.len();
            prove!(count <= passes.capacity());
            start_all(rt, scope, hub, gate, messages, &mut passes, &mut started);
            let played = make_rounds(rt, hub, gate, &mut display, ticks);
            let complete = finish_all(rt, messages, &mut started, &mut passes);
            Beside {
                passes,
                display,
                played,
                complete,
            }
        },
    )
}
