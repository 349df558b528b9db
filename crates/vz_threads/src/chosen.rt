//! A run with the outlet that its course asks for.
ghost use Rattle.std.specs.Prelude.{◌≡◌, ◌≤◌, [], length, vec_capacity};
ghost use Rattle.vz_rules.specs.Step.{world};
ghost use Rattle.vz_threads.specs.Outlets.{outlook, framed};
ghost use Rattle.vz_threads.specs.Rounds.{Setup};
ghost use Rattle.vz_threads.specs.Runs.{IsReady, IsOpened, HasRun};

use crate::back::give_back;
use crate::opening::Opened;
use crate::outlet::FrameOutlet;
use crate::piping::run_piped;
use crate::ran::{Ran, run_opened};
use crate::run::Course;
use std::alloc::AllocGlobal;
use std::sync::Wait;
use std::sync::ledger::Ledger;
use std::thread::Threads;
use vz_buffers::Steps;
use vz_display::Display;
use vz_machine::Machine;
use vz_outside::{Gate, Shelf};
use vz_player::FrameFile;

/// Lets the display and the clients work, and gathers the history. The frames are written by a
/// thread of their own, if the course says so, and otherwise by the display. Conditions: the desk
/// was just opened, there is room and a flag for each thread, and the display has shown nothing
/// yet.
pub(crate) fn run_chosen<M: Machine + Send + Drop, F: Shelf + Send, G: Gate + Sync, L: Ledger, R>(
    rt: &R,
    opened: Opened<M, G>,
    messages: &[u64],
    course: Course,
    gate: &G,
    display: Display,
    shelf: &mut F,
    file: FrameFile,
    steps: &mut Steps<L>,
) -> Ran<M, Display>
where
    M::Picture: Send + Drop,
    R: Threads + Wait + AllocGlobal + Sync,
    requires opened { (k : Setup)
        × IsReady k (outlook file.slot file.size display.shown (F.shelved shelf.old) steps.old)
        × IsOpened k.plan messages.now opened.desk.id opened.desk.callers opened.ends.items
        opened.display }
    requires room { (opened.started.items ≡ [])
        × (length messages.now ≤ vec_capacity opened.started) }
    requires flags { length opened.refused.items ≡ length messages.now }
    ensures behind { (M.state result.machine).world
        ≡ world (M.state result.machine).plan result.history.list }
    ensures plan { (k : Setup) → IsOpened k.plan messages.now opened.desk.id opened.desk.callers
        opened.ends.items opened.display → (M.state result.machine).plan ≡ k.plan }
    ensures run { (k : Setup)
        → IsReady k (outlook file.slot file.size display.shown (F.shelved shelf.old) steps.old)
        → IsOpened k.plan messages.now opened.desk.id opened.desk.callers opened.ends.items
        opened.display → HasRun (G.told gate.now) k course.rounds course.paced
        (outlook file.slot file.size display.shown (F.shelved shelf.old) steps.old)
        (outlook file.slot file.size result.outlet.shown (F.shelved shelf.new) steps.new)
        result.history.list result.played }
{
    let outlet = FrameOutlet {
        display,
        shelf,
        file,
        steps,
    };
    let Ran {
        machine,
        history,
        outlet,
        played,
    } = run_framed(rt, opened, messages, course, gate, outlet);
    let FrameOutlet {
        display,
        shelf,
        steps,
        ..
    } = outlet;
    give_back(shelf, steps);
    Ran {
        machine,
        history,
        outlet: display,
        played,
    }
}

/// Makes a run with a display and the file of its frames. Another thread writes the frames if the
/// course says so. Conditions: those of `run_chosen`.
fn run_framed<'a, M: Machine + Send + Drop, F: Shelf + Send, G: Gate + Sync, L: Ledger, R>(
    rt: &R,
    opened: Opened<M, G>,
    messages: &[u64],
    course: Course,
    gate: &G,
    outlet: FrameOutlet<'a, F, L>,
) -> Ran<M, FrameOutlet<'a, F, L>>
where
    M::Picture: Send + Drop,
    R: Threads + Wait + AllocGlobal + Sync,
    requires opened { (k : Setup) × IsReady k (framed F.shelved outlet) × IsOpened k.plan
        messages.now opened.desk.id opened.desk.callers opened.ends.items opened.display }
    requires room { (opened.started.items ≡ [])
        × (length messages.now ≤ vec_capacity opened.started) }
    requires flags { length opened.refused.items ≡ length messages.now }
    ensures behind { (M.state result.machine).world
        ≡ world (M.state result.machine).plan result.history.list }
    ensures plan { (k : Setup) → IsOpened k.plan messages.now opened.desk.id opened.desk.callers
        opened.ends.items opened.display → (M.state result.machine).plan ≡ k.plan }
    ensures run { (k : Setup) → IsReady k (framed F.shelved outlet.entry) → IsOpened k.plan
        messages.now opened.desk.id opened.desk.callers opened.ends.items opened.display
        → HasRun (G.told gate.now) k course.rounds course.paced (framed F.shelved outlet.entry)
        (framed F.shelved result.outlet) result.history.list result.played }
{
    if course.piped {
        return run_piped(rt, opened, messages, course, gate, outlet);
    }
    run_opened(rt, opened, messages, course, gate, outlet)
}
