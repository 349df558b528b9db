//! The end of a run, after all threads have ended.
ghost use Rattle.std.specs.Prelude.{◌≡◌, ◌+◌, ◌≤◌, Some, IfOk, OnOk, OnErr};
ghost use Rattle.vz_outside.specs.Shelved.{Writing, KeepsOthers, Behaves};
ghost use Rattle.vz_rules.specs.Frames.{painted};
ghost use Rattle.vz_rules.specs.Log.{rest_of};
ghost use Rattle.vz_rules.specs.Plan.{IsPlan};
ghost use Rattle.vz_rules.specs.Step.{Legal, world};
ghost use Rattle.vz_player.specs.Gated.{IsGated};
ghost use Rattle.vz_display.specs.Displayed.{display_at};
ghost use Rattle.vz_threads.specs.Runs.{EndsWithTail, WritesMore, WritesMoreFront};
ghost use Rattle.vz_threads.specs.Tails.{AllComeDue};

use crate::tail::play_tail;
use std::alloc::Global;
use std::sync::ledger::Ledger;
use std::thread::Threads;
use vz_buffers::Steps;
use vz_display::Display;
use vz_frame::{List, Room};
use vz_machine::Machine;
use vz_outside::{Gate, Shelf, ShelfError};
use vz_player::{FrameFile, Player};
use vz_rules::{Entry, Rest};

/// Begins frames until no submission waits, draws once more, and returns what is outstanding.
/// Conditions: the gathered history is legal, the machine and the display are in the state after
/// it, the begin-frame of each pending deadline can still come, the frames have the size of the
/// plan, and the slot is open for writing. After an error the history is legal, and a front part
/// of the bytes of its further frames was written.
pub(crate) fn finish_run<M: Machine + Drop, F: Shelf, G: Gate, L: Ledger, R: Threads + Sync>(
    rt: &R,
    alloc: Global,
    machine: M,
    display: Display,
    gathered: Room<Entry>,
    buffers: u32,
    shelf: &mut F,
    file: FrameFile,
    gate: &G,
    steps: &mut Steps<L>,
    history: &mut List<Entry>,
) -> Result<Rest, ShelfError>
where
    M::Picture: Drop,
    requires behind { (M.state machine).world ≡ world (M.state machine).plan gathered.list }
    requires plan { IsPlan (M.state machine).plan }
    requires legal { Legal (M.state machine).plan gathered.list }
    requires from { 1 ≤ buffers }
    requires display { display.shown ≡ display_at (M.state machine).plan gathered.list buffers }
    requires due { AllComeDue (world (M.state machine).plan gathered.list) }
    requires size { (M.state machine).plan.size ≡ file.size }
    requires open { (F.shelved shelf.old).mode file.slot ≡ Some Writing }
    ensures tail { OnOk result (EndsWithTail (M.state machine).plan gathered.list history.new) }
    ensures rest { IfOk result (λ rest. rest ≡ rest_of (M.state machine).plan history.new) }
    ensures legal { Legal (M.state machine).plan history.new }
    ensures written { OnOk result (WritesMore (M.state machine).plan buffers
        ((F.shelved shelf.old).name file.slot) gathered.list history.new
        (F.shelved shelf.old) (F.shelved shelf.new)) }
    ensures counted { OnOk result (steps.new + painted (M.state machine).plan gathered.list buffers
        ≡ steps.old + painted (M.state machine).plan history.new buffers) }
    ensures begun { OnErr result (WritesMoreFront (M.state machine).plan buffers
        ((F.shelved shelf.old).name file.slot) gathered.list history.new
        (F.shelved shelf.old) (F.shelved shelf.new)) }
    ensures others { KeepsOthers ((F.shelved shelf.old).name file.slot)
        (F.shelved shelf.old) (F.shelved shelf.new) }
    ensures behaves { Behaves (F.shelved shelf.old) (F.shelved shelf.new) result }
    ensures gated { IsGated (G.told gate.now) gathered.list history.new }
{
    let mut player = Player::resume(machine, display, gathered, buffers);
    match play_tail(rt, alloc, &mut player, shelf, file, gate, steps) {
        Ok(()) => {
            let rest = player.rest(alloc);
            *history = player.into_history();
            Ok(rest?)
        }
        Err(error) => {
            *history = player.into_history();
            Err(error)
        }
    }
}
