//! Runs a plan with threads, and writes the frames and the log.
ghost use Rattle.std.specs.Prelude.{◌≡◌, ◌≢◌, ◌+◌, Some, [], IsTrue};
ghost use Rattle.std.specs.Prelude.{IfOk, OnOk, OnErr};
ghost use Rattle.vz_player.specs.Gated.{AreGated};
ghost use Rattle.vz_player.specs.Written.{WritesAll, WritesSome};
ghost use Rattle.vz_outside.specs.Shelved.{Writing, KeepsOthers, Appends, AppendsFront, Behaves};
ghost use Rattle.vz_rules.specs.Command.{fits_command, buffer_count};
ghost use Rattle.vz_rules.specs.Frames.{painted};
ghost use Rattle.vz_rules.specs.Log.{rest_of};
ghost use Rattle.vz_rules.specs.Plan.{IsPlan, message_counts};
ghost use Rattle.vz_rules.specs.Step.{Legal};
ghost use Rattle.vz_rules.specs.World.{opening};
ghost use Rattle.vz_threads.specs.Courses.{IsRun, frames_of};
ghost use Rattle.viz_run.specs.Ran.{command_of, size_of, outputs_for};

use crate::sides::size_of;
use std::sync::Wait;
use std::sync::ledger::Ledger;
use std::thread::Threads;
use vz_base::limits::DEFAULT_BUFFERS;
use vz_buffers::Steps;
use vz_frame::List;
use vz_machine::Machine;
use vz_outside::{Gate, Shelf, ShelfError};
use vz_player::{FrameFile, create_outputs, write_log};
use vz_rules::{Entry, Rest};
use vz_threads::{Course, play_course};
use vz_words::RunWords;

/// Runs a machine in the opening world of its plan, and writes the frames and the log. It creates
/// the two files itself, after each input was accepted. `counts` has the number of messages of
/// each client, in the order of the files.
///
/// The error is `Failed` exactly if a fault was counted, and `Memory` if an allocation failed.
/// After either error the history is legal, and a front part of what it writes is in each file.
pub fn play_run<M: Machine + Send + Drop, F: Shelf + Send, G: Gate + Sync, L: Ledger, R>(
    rt: &R,
    machine: M,
    counts: &[u64],
    words: &RunWords<'_>,
    shelf: &mut F,
    gate: &G,
    steps: &mut Steps<L>,
    history: &mut List<Entry>,
) -> Result<(), ShelfError>
where
    M::Picture: Drop + Send,
    R: Threads + Wait + AllocGlobal + Sync,
    requires fits { IsTrue (fits_command (command_of words.now)) }
    requires opening { (M.state machine).world ≡ opening (M.state machine).plan }
    requires plan { IsPlan (M.state machine).plan }
    requires size { (M.state machine).plan.size ≡ size_of words.now }
    requires counts { counts.now ≡ message_counts (M.state machine).plan }
    requires apart { words.now.frames.now ≢ words.now.log.now }
    requires empty { history.old ≡ [] }
    ensures run { OnOk result
        (IsRun (M.state machine).plan words.now.ticks words.now.paced history.new) }
    ensures whole { OnOk result (WritesAll
        (outputs_for words.now (M.state machine).plan history.new)
        (F.shelved shelf.old) (F.shelved shelf.new)) }
    ensures counted { OnOk result (steps.new ≡ steps.old
        + painted (M.state machine).plan history.new (buffer_count words.now.buffers)) }
    ensures legal { Legal (M.state machine).plan history.new }
    ensures begun { OnErr result (WritesSome
        (outputs_for words.now (M.state machine).plan history.new)
        (F.shelved shelf.old) (F.shelved shelf.new)) }
    ensures behaves { Behaves (F.shelved shelf.old) (F.shelved shelf.new) result }
    ensures gated { AreGated (G.told gate.now) history.new }
{
    let outputs = create_outputs(shelf, words.frames, words.log)?;
    let rest = show_run(
        rt,
        machine,
        counts,
        words,
        shelf,
        outputs.frames,
        gate,
        steps,
        history,
    )?;
    write_log(rt.alloc(), shelf, outputs.log, history, &rest)?;
    Ok(())
}

/// Runs a machine in the opening world of its plan, writes the frames to an open slot, and
/// returns what is outstanding at the end. After an error the history is legal, and a front part
/// of the bytes of its frames was written.
fn show_run<M: Machine + Send + Drop, F: Shelf + Send, G: Gate + Sync, L: Ledger, R>(
    rt: &R,
    machine: M,
    counts: &[u64],
    words: &RunWords<'_>,
    shelf: &mut F,
    slot: u32,
    gate: &G,
    steps: &mut Steps<L>,
    history: &mut List<Entry>,
) -> Result<Rest, ShelfError>
where
    M::Picture: Drop + Send,
    R: Threads + Wait + AllocGlobal + Sync,
    requires fits { IsTrue (fits_command (command_of words.now)) }
    requires opening { (M.state machine).world ≡ opening (M.state machine).plan }
    requires plan { IsPlan (M.state machine).plan }
    requires size { (M.state machine).plan.size ≡ size_of words.now }
    requires counts { counts.now ≡ message_counts (M.state machine).plan }
    requires open { (F.shelved shelf.old).mode slot ≡ Some Writing }
    requires empty { history.old ≡ [] }
    ensures run { OnOk result
        (IsRun (M.state machine).plan words.now.ticks words.now.paced history.new) }
    ensures rest { IfOk result (λ rest. rest ≡ rest_of (M.state machine).plan history.new) }
    ensures frames { OnOk result (Appends
        (frames_of (M.state machine).plan history.new (buffer_count words.now.buffers))
        ((F.shelved shelf.old).name slot) (F.shelved shelf.old) (F.shelved shelf.new)) }
    ensures counted { OnOk result (steps.new ≡ steps.old
        + painted (M.state machine).plan history.new (buffer_count words.now.buffers)) }
    ensures legal { Legal (M.state machine).plan history.new }
    ensures begun { OnErr result (AppendsFront
        (frames_of (M.state machine).plan history.new (buffer_count words.now.buffers))
        ((F.shelved shelf.old).name slot) (F.shelved shelf.old) (F.shelved shelf.new)) }
    ensures others { KeepsOthers ((F.shelved shelf.old).name slot)
        (F.shelved shelf.old) (F.shelved shelf.new) }
    ensures behaves { Behaves (F.shelved shelf.old) (F.shelved shelf.new) result }
    ensures gated { AreGated (G.told gate.now) history.new }
{
    let course = Course {
        rounds: words.ticks,
        paced: words.paced,
        buffers: buffer_count(words.buffers),
        piped: words.pipe,
    };
    let size = size_of(words.width, words.height);
    let file = FrameFile { slot, size };
    play_course(
        rt, machine, counts, course, shelf, file, gate, steps, history,
    )
}

/// The number of buffers, which is `DEFAULT_BUFFERS` if none is given.
fn buffer_count(buffers: Option<u32>) -> u32
    ensures { result ≡ buffer_count buffers }
{
    buffers.unwrap_or(DEFAULT_BUFFERS as u32)
}
