//! Gives the events of a schedule to a machine, and writes the frames and the log.
ghost use Rattle.std.specs.Prelude.{◌≡◌, ◌≢◌, ◌+◌, ℕ, All, Some, [], take, OnOk, OnErr, IfOk};
ghost use Rattle.vz_base.specs.declared.limits.TheConstants.{DEFAULT_BUFFERS};
ghost use Rattle.vz_player.specs.Gated.{AreGated};
ghost use Rattle.vz_player.specs.Written.{WritesAll, WritesSome};
ghost use Rattle.vz_outside.specs.Shelved.{Writing, KeepsOthers, Appends, AppendsFront, Behaves};
ghost use Rattle.vz_rules.specs.Frames.{painted};
ghost use Rattle.vz_rules.specs.Log.{rest_of};
ghost use Rattle.vz_rules.specs.Plan.{IsPlan};
ghost use Rattle.vz_rules.specs.Step.{NamesClient};
ghost use Rattle.vz_rules.specs.World.{opening};
ghost use Rattle.vz_threads.specs.Courses.{frames_of};
ghost use Rattle.viz_run.specs.Ends.{IsHistory};
ghost use Rattle.viz_run.specs.Stepped.{outputs_for};

use std::alloc::Global;
use std::sync::ledger::Ledger;
use std::thread::Threads;
use vz_base::limits::DEFAULT_BUFFERS;
use vz_buffers::Steps;
use vz_frame::List;
use vz_geom::Size;
use vz_machine::Machine;
use vz_outside::{Gate, Shelf, ShelfError};
use vz_player::{FrameFile, Player, create_outputs, play_frames, write_log};
use vz_rules::{Entry, Event, Rest};
use vz_words::StepWords;

/// Gives events to a machine in the opening world of its plan, and writes the frames and the log.
/// It creates the two files itself, after each input was accepted. `size` is that of the plan's
/// display.
///
/// The error is `Failed` exactly if a fault was counted, and `Memory` if an allocation failed.
/// After either error the history is that of a front part of the events, and a front part of what
/// it writes is in each file.
pub fn play<M: Machine + Drop, F: Shelf, G: Gate, L: Ledger, R: Threads + Sync>(
    rt: &R,
    alloc: Global,
    machine: M,
    size: Size,
    events: &[Event],
    words: &StepWords<'_>,
    shelf: &mut F,
    gate: &G,
    steps: &mut Steps<L>,
    history: &mut List<Entry>,
) -> Result<(), ShelfError>
where
    M::Picture: Drop,
    requires opening { (M.state machine).world ≡ opening (M.state machine).plan }
    requires plan { IsPlan (M.state machine).plan }
    requires size { (M.state machine).plan.size ≡ size }
    requires named { All (NamesClient (M.state machine).plan) events.now }
    requires apart { words.now.frames.now ≢ words.now.log.now }
    requires empty { history.old ≡ [] }
    ensures history { OnOk result (IsHistory (M.state machine).plan events.now history.new) }
    ensures whole { OnOk result (WritesAll
        (outputs_for words.now (M.state machine).plan history.new)
        (F.shelved shelf.old) (F.shelved shelf.new)) }
    ensures counted { OnOk result (steps.new
        ≡ steps.old + painted (M.state machine).plan history.new DEFAULT_BUFFERS) }
    ensures front { OnErr result ((n : ℕ)
        × IsHistory (M.state machine).plan (take n events.now) history.new) }
    ensures begun { OnErr result (WritesSome
        (outputs_for words.now (M.state machine).plan history.new)
        (F.shelved shelf.old) (F.shelved shelf.new)) }
    ensures behaves { Behaves (F.shelved shelf.old) (F.shelved shelf.new) result }
    ensures gated { AreGated (G.told gate.now) history.new }
{
    let outputs = create_outputs(shelf, words.frames, words.log)?;
    let rest = show(
        rt,
        alloc,
        machine,
        size,
        events,
        shelf,
        outputs.frames,
        gate,
        steps,
        history,
    )?;
    write_log(alloc, shelf, outputs.log, history, &rest)?;
    Ok(())
}

/// Gives events to a machine in the opening world of its plan, writes the frames to an open slot,
/// and returns what is outstanding at the end. After an error the history is that of a front part
/// of the events, and a front part of the bytes of its frames was written.
fn show<M: Machine + Drop, F: Shelf, G: Gate, L: Ledger, R: Threads + Sync>(
    rt: &R,
    alloc: Global,
    machine: M,
    size: Size,
    events: &[Event],
    shelf: &mut F,
    slot: u32,
    gate: &G,
    steps: &mut Steps<L>,
    history: &mut List<Entry>,
) -> Result<Rest, ShelfError>
where
    M::Picture: Drop,
    requires opening { (M.state machine).world ≡ opening (M.state machine).plan }
    requires plan { IsPlan (M.state machine).plan }
    requires size { (M.state machine).plan.size ≡ size }
    requires named { All (NamesClient (M.state machine).plan) events.now }
    requires open { (F.shelved shelf.old).mode slot ≡ Some Writing }
    ensures history { OnOk result (IsHistory (M.state machine).plan events.now history.new) }
    ensures rest { IfOk result (λ rest. rest ≡ rest_of (M.state machine).plan history.new) }
    ensures frames { OnOk result (Appends
        (frames_of (M.state machine).plan history.new DEFAULT_BUFFERS)
        ((F.shelved shelf.old).name slot) (F.shelved shelf.old) (F.shelved shelf.new)) }
    ensures counted { OnOk result (steps.new
        ≡ steps.old + painted (M.state machine).plan history.new DEFAULT_BUFFERS) }
    ensures front { OnErr result ((n : ℕ)
        × IsHistory (M.state machine).plan (take n events.now) history.new) }
    ensures begun { OnErr result (AppendsFront
        (frames_of (M.state machine).plan history.new DEFAULT_BUFFERS)
        ((F.shelved shelf.old).name slot) (F.shelved shelf.old) (F.shelved shelf.new)) }
    ensures others { KeepsOthers ((F.shelved shelf.old).name slot)
        (F.shelved shelf.old) (F.shelved shelf.new) }
    ensures behaves { Behaves (F.shelved shelf.old) (F.shelved shelf.new) result }
    ensures gated { AreGated (G.told gate.now) history.new }
{
    let count = events.len();
    let mut player = Player::new(alloc, machine, size, DEFAULT_BUFFERS as u32, count);
    let file = FrameFile { slot, size };
    match play_frames(rt, alloc, &mut player, events, shelf, file, gate, steps) {
        Ok(()) => {
            let rest = player.rest(alloc);
            *history = player.into_history();
            Ok(rest?)
        }
        Err(error) => {
            *history = player.into_history();
            Err(error)
        }
    }
}
