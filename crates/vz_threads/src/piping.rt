//! A run whose frames are written by a thread of their own.
ghost use Rattle.std.specs.Prelude.{◌≡◌, ◌≤◌, ℕ, Bool, [], Err, length, vec_capacity};
ghost use Rattle.vz_outside.specs.declared.shelf.ShelfError.TheVariants.{Memory};
ghost use Rattle.vz_rules.specs.Step.{world};
ghost use Rattle.vz_threads.specs.Outlets.{Outlook, framed};
ghost use Rattle.vz_threads.specs.Rounds.{Setup};
ghost use Rattle.vz_threads.specs.Runs.{IsReady, IsOpened, HasRun};
ghost use Rattle.vz_threads.specs.Told.{nothing};

use crate::back::give_back;
use crate::opening::Opened;
use crate::outlet::FrameOutlet;
use crate::piped::PipedOutlet;
use crate::progress::Progress;
use crate::ran::Ran;
use crate::run::Course;
use crate::writer::write_rest;
use crate::writing::run_beside;
use std::alloc::AllocGlobal;
use std::sync::Wait;
use std::sync::ledger::Ledger;
use std::thread::Threads;
use vz_buffers::SharedBuffer;
use vz_desk::Gathered;
use vz_machine::Machine;
use vz_outside::{Gate, Shelf, ShelfError};
use vz_pipe::pipe;

/// How many frames wait in the channel at most.
const SLOTS: usize = 2;

/// Lets the display and the clients work, while another thread writes the frames. Then this
/// thread writes those that are left, and gathers the history. Conditions: the desk was just
/// opened, there is room and a flag for each thread, and the display has shown nothing yet.
pub(crate) fn run_piped<
    'a,
    M: Machine + Send + Drop,
    F: Shelf + Send,
    G: Gate + Sync,
    L: Ledger,
    R,
>(
    rt: &R,
    opened: Opened<M, G>,
    messages: &[u64],
    course: Course,
    gate: &G,
    frames: FrameOutlet<'a, F, L>,
) -> Ran<M, FrameOutlet<'a, F, L>>
where
    M::Picture: Send + Drop,
    R: Threads + Wait + AllocGlobal + Sync,
    requires opened { (k : Setup) × IsReady k (framed F.shelved frames) × IsOpened k.plan
        messages.now opened.desk.id opened.desk.callers opened.ends.items opened.display }
    requires room { (opened.started.items ≡ [])
        × (length messages.now ≤ vec_capacity opened.started) }
    requires flags { length opened.refused.items ≡ length messages.now }
    ensures behind { (M.state result.machine).world
        ≡ world (M.state result.machine).plan result.history.list }
    ensures plan { (k : Setup) → IsOpened k.plan messages.now opened.desk.id opened.desk.callers
        opened.ends.items opened.display → (M.state result.machine).plan ≡ k.plan }
    ensures run { (k : Setup) → IsReady k (framed F.shelved frames.entry) → IsOpened k.plan
        messages.now opened.desk.id opened.desk.callers opened.ends.items opened.display
        → HasRun (G.told gate.now) k course.rounds course.paced (framed F.shelved frames.entry)
        (framed F.shelved result.outlet) result.history.list result.played }
{
    let Ok((mut sender, mut receiver)) = pipe::<SharedBuffer>(rt.alloc(), SLOTS) else {
        return give_up(opened, frames, messages);
    };
    let FrameOutlet {
        display,
        shelf,
        file,
        steps,
    } = frames;
    let progress = Progress::new();
    let outlet = PipedOutlet {
        display,
        size: file.size,
        sender: &mut sender,
        progress: &progress,
        shown: 0,
        passed: 0,
        steps: &mut *steps,
    };
    let (ran, wrote) = run_beside(
        rt,
        opened,
        messages,
        course,
        gate,
        outlet,
        &progress,
        &mut receiver,
        shelf,
        file.slot,
    );
    let Ran {
        machine,
        history,
        outlet,
        played,
    } = ran;
    let PipedOutlet {
        display,
        sender: lent,
        steps: counted,
        ..
    } = outlet;
    give_back(lent, counted);
    let mut sent = sender.end(rt);
    let played = write_rest(
        rt,
        wrote,
        played,
        &mut receiver,
        &mut sent,
        shelf,
        file.slot,
    );
    Ran {
        machine,
        history,
        outlet: FrameOutlet {
            display,
            shelf,
            file,
            steps,
        },
        played,
    }
}

/// Gathers the history of a run for which there is no memory. Condition: the desk was just opened.
fn give_up<M: Machine + Send + Drop, G: Gate, O>(
    opened: Opened<M, G>,
    outlet: O,
    messages: &[u64],
) -> Ran<M, O>
where
    M::Picture: Send + Drop,
    requires { (k : Setup) × (start : Outlook) × IsReady k start × IsOpened k.plan messages.now
        opened.desk.id opened.desk.callers opened.ends.items opened.display }
    ensures behind { (M.state result.machine).world
        ≡ world (M.state result.machine).plan result.history.list }
    ensures plan { (k : Setup) → IsOpened k.plan messages.now opened.desk.id opened.desk.callers
        opened.ends.items opened.display → (M.state result.machine).plan ≡ k.plan }
    ensures run { (k : Setup) (start : Outlook) (rounds : ℕ) (paced : Bool)
        → IsReady k start → IsOpened k.plan messages.now opened.desk.id opened.desk.callers
        opened.ends.items opened.display
        → HasRun nothing k rounds paced start start result.history.list (Err Memory) }
    ensures outlet { result.outlet ≡ outlet }
    ensures played { result.played ≡ Err Memory }
{
    let Opened {
        desk,
        ends,
        display,
        started: _,
        refused: _,
    } = opened;
    let Gathered { machine, history } = desk.gather(ends, display, None);
    Ran {
        machine,
        history,
        outlet,
        played: Err(ShelfError::Memory),
    }
}
