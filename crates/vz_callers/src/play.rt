//! Plays a plan with callers on threads.
ghost use Rattle.std.specs.Prelude.{◌≡◌, ◌≤◌, ◌<◌, [], length, vec_capacity, OnOk};
ghost use Rattle.vz_base.specs.declared.limits.TheConstants.{MOST_FILES};
ghost use Rattle.vz_rules.specs.Step.{Legal, world};
ghost use Rattle.vz_rules.specs.World.{opening};
ghost use Rattle.vz_rules.specs.Plan.{Plan, message_counts};
ghost use Rattle.vz_callers.specs.Turns.{IsTurns, IsOpened, AreEntriesTold};

use crate::beside::{Beside, play_beside};
use crate::opening::{Opened, open_turns};
use std::alloc::AllocGlobal;
use std::sync::Wait;
use std::thread::Threads;
use vz_base::Memory;
use vz_frame::List;
use vz_machine::Machine;
use vz_outside::Gate;
use vz_rules::Entry;

/// Plays a plan. Each client has a thread that owns a pass of one hub, and makes as many calls for
/// the client's next message as its file has messages. This thread is the display: it makes
/// `ticks` rounds of Begin, Draw and Done. If a thread cannot be started, this thread makes the
/// client's calls. `messages` has the number of messages of each client's file, in the order of
/// the files. A message that comes too early makes an entry too, with the reply NotYet. The gate
/// is called before and after each call; the display is actor 0, and client c is actor c.
/// `history` gets the entries, and the gate was told of each, also if an allocation fails.
///
/// Conditions: the machine is in the opening world of its plan, which has at most `MOST_FILES`
/// files, and the history is empty. The error is `Memory` if an allocation fails. Then some calls
/// were not made, and the history has those that were made.
pub fn play_turns<M: Machine + Send + Drop, G: Gate + Sync, R>(
    rt: &R,
    machine: M,
    messages: &[u64],
    ticks: u32,
    gate: &G,
    history: &mut List<Entry>,
) -> Result<(), Memory>
where
    M::Picture: Send + Drop,
    R: Threads + Wait + AllocGlobal + Sync,
    requires opening { (M.state machine).world ≡ opening (M.state machine).plan }
    requires files { length (M.state machine).plan.files ≤ MOST_FILES }
    requires counts { messages.now ≡ message_counts (M.state machine).plan }
    requires empty { history.old ≡ [] }
    ensures turns { OnOk result (IsTurns (M.state machine).plan ticks history.new) }
    ensures legal { Legal (M.state machine).plan history.new }
    ensures gated { AreEntriesTold (G.told gate.now) history.new }
{
    let opened = open_turns(rt.alloc(), machine, messages.len())?;
    let Played { machine, ended } = play_opened(rt, opened, messages, ticks, gate, history);
    drop(machine);
    ended
}

/// What is there after all calls.
#[derive(Drop)]
struct Played<M> {
    /// The machine, in the world after the history.
    machine: M,
    /// Whether each call was made. If not, an allocation failed.
    ended: Result<(), Memory>,
}

/// Plays the plan of a hub that was just opened, and ends the hub. `history` gets all entries that
/// were made, also if an allocation failed: the machine comes back in the world after them.
/// Condition: there is room for each thread.
fn play_opened<M: Machine + Send + Drop, G: Gate + Sync, R>(
    rt: &R,
    opened: Opened<M, G>,
    messages: &[u64],
    ticks: u32,
    gate: &G,
    history: &mut List<Entry>,
) -> Played<M>
where
    M::Picture: Send + Drop,
    R: Threads + Wait + AllocGlobal + Sync,
    requires opened { (p : Plan) × IsOpened p messages.now opened.hub.id opened.hub.callers
        opened.passes.items opened.display }
    requires spare { length messages.now < vec_capacity opened.passes }
    requires room { (opened.started.items ≡ [])
        × (length messages.now ≤ vec_capacity opened.started) }
    ensures behind { (M.state result.machine).world
        ≡ world (M.state result.machine).plan history.new }
    ensures legal { (p : Plan) → IsOpened p messages.now opened.hub.id opened.hub.callers
        opened.passes.items opened.display → Legal p history.new }
    ensures turns { (p : Plan) → IsOpened p messages.now opened.hub.id opened.hub.callers
        opened.passes.items opened.display → OnOk result.ended (IsTurns p ticks history.new) }
    ensures gated { (p : Plan) → IsOpened p messages.now opened.hub.id opened.hub.callers
        opened.passes.items opened.display → AreEntriesTold (G.told gate.now) history.new }
{
    let Opened {
        hub,
        passes,
        display,
        started,
    } = opened;
    let Beside {
        mut passes,
        display,
        played,
        complete,
    } = play_beside(rt, &hub, gate, messages, ticks, started, passes, display);
    passes.push_reserved(display);
    let (machine, gathered) = hub.close(passes);
    *history = gathered;
    if complete {
        Played {
            machine,
            ended: played,
        }
    } else {
        Played {
            machine,
            ended: Err(Memory),
        }
    }
}
