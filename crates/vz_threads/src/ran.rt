//! What is there after all threads of a run have ended.
ghost use Rattle.std.specs.Prelude.{◌≡◌, ◌≤◌, ℕ, Bool, List, Some, [], length, vec_capacity, All, OnOk};
ghost use Rattle.vz_rules.specs.Plan.{Plan};
ghost use Rattle.vz_rules.specs.Step.{world};
ghost use Rattle.vz_desk.specs.declared.totals.Totals.{Totals};
ghost use Rattle.vz_desk.specs.Owners.{Owner};
ghost use Rattle.vz_desk.specs.Totals.{DisplayTotals};
ghost use Rattle.vz_threads.specs.Crews.{IsCrew, CrewWorksOn, HasTakenAll};
ghost use Rattle.vz_threads.specs.Outlets.{Outlook};
ghost use Rattle.vz_threads.specs.Rounds.{Setup};
ghost use Rattle.vz_threads.specs.Runs.{IsReady, IsOpened, WasPlayed, IsRestOf, HasRun};

use crate::beside::{Beside, play_beside};
use crate::halt::Halt;
use crate::left::take_left;
use crate::opening::Opened;
use crate::outlet::Outlet;
use crate::run::Course;
use std::alloc::AllocGlobal;
use std::sync::Wait;
use std::thread::Threads;
use vz_desk::{Desk, End, Gathered};
use vz_frame::Room;
use vz_machine::Machine;
use vz_outside::{Gate, ShelfError};
use vz_rules::Entry;

/// The machine with its history, the outlet, and whether the display stopped early.
#[derive(Drop)]
pub(crate) struct Ran<M, O> {
    pub(crate) machine: M,
    pub(crate) history: Room<Entry>,
    pub(crate) outlet: O,
    pub(crate) played: Result<(), ShelfError>,
}

/// Takes the messages that are left, unless the display stopped early.
fn take_rest<M: Machine + Send, G: Gate, R: Wait + AllocGlobal>(
    rt: &R,
    desk: &Desk<M, Halt>,
    gate: &G,
    ends: &mut Vec<End<M, Halt>>,
    messages: &[u64],
    played: Result<(), ShelfError>,
) -> Result<(), ShelfError>
where
    M::Picture: Send,
    requires { IsCrew (G.told gate.now) desk.now.id messages.now ends.old.items }
    ensures works { CrewWorksOn (G.told gate.now) ends.old.items ends.new.items }
    ensures all { OnOk result (All (HasTakenAll messages.now) ends.new.items) }
    ensures rest { IsRestOf played result }
{
    match played {
        Ok(()) => match take_left(rt, desk, gate, ends, messages) {
            Ok(()) => Ok(()),
            Err(_) => Err(ShelfError::Memory),
        },
        Err(error) => Err(error),
    }
}

/// Takes the messages that are left after all threads of a run have ended, unless the display
/// stopped early, and gathers the history. Condition: the desk was opened for a run, and this is
/// what came of it.
pub(crate) fn gather_run<M: Machine + Send + Drop, O, G: Gate, R: Wait + AllocGlobal>(
    rt: &R,
    desk: Desk<M, Halt>,
    messages: &[u64],
    gate: &G,
    beside: Beside<M, O>,
) -> Ran<M, O>
where
    M::Picture: Send + Drop,
    O: Outlet,
    requires { (k : Setup) × (rounds : ℕ) × (paced : Bool) × (start : Outlook)
        × (ends : List (Owner Totals)) × (display : Owner DisplayTotals)
        × WasPlayed (G.told gate.now) k rounds paced start (O.stands beside.outlet) messages.now
        desk.id desk.callers ends beside.ends.items display beside.display beside.played }
    ensures behind { (M.state result.machine).world
        ≡ world (M.state result.machine).plan result.history.list }
    ensures plan { (p : Plan) → beside.display.plan ≡ Some p → (M.state result.machine).plan ≡ p }
    ensures run { (k : Setup) (rounds : ℕ) (paced : Bool) (start : Outlook)
        (ends : List (Owner Totals)) (display : Owner DisplayTotals)
        → WasPlayed (G.told gate.now) k rounds paced start (O.stands beside.outlet) messages.now
        desk.id desk.callers ends beside.ends.items display beside.display beside.played
        → HasRun (G.told gate.now) k rounds paced start (O.stands result.outlet)
        result.history.list result.played }
    ensures outlet { result.outlet ≡ beside.outlet }
{
    let Beside {
        mut ends,
        display,
        outlet,
        played,
    } = beside;
    let played = take_rest(rt, &desk, gate, &mut ends, messages, played);
    let Gathered { machine, history } = desk.gather(ends, display, None);
    Ran {
        machine,
        history,
        outlet,
        played,
    }
}

/// Lets the threads and the display work, takes the messages that are left, and gathers the
/// history. Conditions: the desk was just opened, there is room and a flag for each thread, and
/// the outlet has shown nothing yet.
pub(crate) fn run_opened<M: Machine + Send + Drop, O: Outlet + Drop, G: Gate + Sync, R>(
    rt: &R,
    opened: Opened<M, G>,
    messages: &[u64],
    course: Course,
    gate: &G,
    outlet: O,
) -> Ran<M, O>
where
    M::Picture: Send + Drop,
    R: Threads + Wait + AllocGlobal + Sync,
    requires opened { (k : Setup) × IsReady k (O.stands outlet) × IsOpened k.plan messages.now
        opened.desk.id opened.desk.callers opened.ends.items opened.display }
    requires room { (opened.started.items ≡ [])
        × (length messages.now ≤ vec_capacity opened.started) }
    requires flags { length opened.refused.items ≡ length messages.now }
    ensures behind { (M.state result.machine).world
        ≡ world (M.state result.machine).plan result.history.list }
    ensures plan { (k : Setup) → IsOpened k.plan messages.now opened.desk.id opened.desk.callers
        opened.ends.items opened.display → (M.state result.machine).plan ≡ k.plan }
    ensures run { (k : Setup) → IsReady k (O.stands outlet) → IsOpened k.plan messages.now
        opened.desk.id opened.desk.callers opened.ends.items opened.display
        → HasRun (G.told gate.now) k course.rounds course.paced (O.stands outlet)
        (O.stands result.outlet) result.history.list result.played }
{
    let Opened {
        desk,
        ends,
        display,
        started,
        refused,
    } = opened;
    let beside = play_beside(
        rt, &desk, gate, &refused, messages, course, started, ends, display, outlet,
    );
    gather_run(rt, desk, messages, gate, beside)
}
