//! Runs a plan with threads.
ghost use Rattle.std.specs.Prelude.{◌≡◌, ◌+◌, ◌≤◌, [], Some, IfOk, OnOk, OnErr};
ghost use Rattle.vz_base.specs.declared.limits.TheConstants.{MOST_BUFFERS, MOST_TICKS};
ghost use Rattle.vz_outside.specs.Shelved.{Writing, KeepsOthers, Appends, AppendsFront, Behaves};
ghost use Rattle.vz_rules.specs.Frames.{painted};
ghost use Rattle.vz_rules.specs.Log.{rest_of};
ghost use Rattle.vz_rules.specs.Plan.{IsPlan, message_counts};
ghost use Rattle.vz_rules.specs.Step.{Legal};
ghost use Rattle.vz_rules.specs.World.{opening};
ghost use Rattle.vz_player.specs.Gated.{AreGated};
ghost use Rattle.vz_threads.specs.Courses.{IsRun, frames_of};

use crate::chosen::run_chosen;
use crate::finish::finish_run;
use crate::opening::open_run;
use crate::ran::Ran;
use std::alloc::AllocGlobal;
use std::sync::Wait;
use std::sync::ledger::Ledger;
use std::thread::Threads;
use vz_buffers::Steps;
use vz_display::Display;
use vz_frame::List;
use vz_machine::Machine;
use vz_outside::{Gate, Shelf, ShelfError};
use vz_player::FrameFile;
use vz_rules::{Entry, Rest};

/// What the display does in a run.
#[derive(Clone, Copy, Debug, PartialEq, Eq)]
pub struct Course {
    /// How many rounds it makes, at most `MOST_TICKS`. A round is a begin-frame and a drawing.
    pub rounds: u32,
    /// Whether in each round it waits, before it draws, until each attached client has answered
    /// the begin-frame or is idle.
    pub paced: bool,
    /// How many buffers it paints in turn, 1 to `MOST_BUFFERS`.
    pub buffers: u32,
    /// Whether a thread of its own writes the frames of the rounds.
    pub piped: bool,
}

/// Runs a plan. Each client has a thread that takes its messages, while this thread is the
/// display: it makes its rounds, and appends each frame that is drawn to a file. If the course is
/// piped, another thread writes these frames, and the gate's `before` is called once for it, with
/// actor 17 and turn 1. `messages` has the number of messages of each client's file, in the order
/// of the files. After the last round the display takes the messages that are left, begins frames
/// until no submission waits, and draws once more. The answer is what is outstanding at the end,
/// and `history` gets the entries.
///
/// Conditions: the machine is in the opening world of its plan, the frames have the plan's size,
/// the slot is open for writing, and the history is empty. The error is `Failed` if writing a
/// frame fails, and `Memory` if an allocation fails. After either error the history is legal, and
/// a front part of the bytes of its frames was written.
pub fn play_course<M: Machine + Send + Drop, F: Shelf + Send, G: Gate + Sync, L: Ledger, R>(
    rt: &R,
    machine: M,
    messages: &[u64],
    course: Course,
    shelf: &mut F,
    file: FrameFile,
    gate: &G,
    steps: &mut Steps<L>,
    history: &mut List<Entry>,
) -> Result<Rest, ShelfError>
where
    M::Picture: Drop + Send,
    R: Threads + Wait + AllocGlobal + Sync,
    requires opening { (M.state machine).world ≡ opening (M.state machine).plan }
    requires plan { IsPlan (M.state machine).plan }
    requires rounds { course.rounds ≤ MOST_TICKS }
    requires counts { messages.now ≡ message_counts (M.state machine).plan }
    requires size { (M.state machine).plan.size ≡ file.size }
    requires from { 1 ≤ course.buffers }
    requires upto { course.buffers ≤ MOST_BUFFERS }
    requires open { (F.shelved shelf.old).mode file.slot ≡ Some Writing }
    requires empty { history.old ≡ [] }
    ensures run { OnOk result
        (IsRun (M.state machine).plan course.rounds course.paced history.new) }
    ensures rest { IfOk result (λ rest. rest ≡ rest_of (M.state machine).plan history.new) }
    ensures written { OnOk result
        (Appends (frames_of (M.state machine).plan history.new course.buffers)
        ((F.shelved shelf.old).name file.slot) (F.shelved shelf.old) (F.shelved shelf.new)) }
    ensures counted { OnOk result (steps.new
        ≡ steps.old + painted (M.state machine).plan history.new course.buffers) }
    ensures legal { Legal (M.state machine).plan history.new }
    ensures begun { OnErr result
        (AppendsFront (frames_of (M.state machine).plan history.new course.buffers)
        ((F.shelved shelf.old).name file.slot) (F.shelved shelf.old) (F.shelved shelf.new)) }
    ensures others { KeepsOthers ((F.shelved shelf.old).name file.slot)
        (F.shelved shelf.old) (F.shelved shelf.new) }
    ensures behaves { Behaves (F.shelved shelf.old) (F.shelved shelf.new) result }
    ensures gated { AreGated (G.told gate.now) history.new }
{
    let Ok(opened) = open_run(rt.alloc(), machine, messages) else {
        return Err(ShelfError::Memory);
    };
    let display = Display::new(file.size, course.buffers);
    let Ran {
        machine,
        history: gathered,
        outlet: display,
        played,
    } = run_chosen(
        rt, opened, messages, course, gate, display, shelf, file, steps,
    );
    match played {
        Ok(()) => finish_run(
            rt,
            rt.alloc(),
            machine,
            display,
            gathered,
            course.buffers,
            shelf,
            file,
            gate,
            steps,
            history,
        ),
        Err(error) => {
            *history = gathered.into_list();
            Err(error)
        }
    }
}
