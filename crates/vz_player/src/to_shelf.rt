//! Takes events and writes their frames.
ghost use Rattle.std.specs.Prelude.{◌≡◌, ◌+◌, false, Some, OnOk, OnErr};
ghost use Rattle.std.specs.List.{All};
ghost use Rattle.vz_geom.specs.Display.{IsDisplaySize};
ghost use Rattle.vz_outside.specs.Shelved.{Writing, KeepsOthers, Behaves};
ghost use Rattle.vz_rules.specs.Step.{NamesClient};
ghost use Rattle.vz_player.specs.Gated.{IsGated};
ghost use Rattle.vz_player.specs.Played.{played_on, painted_by};
ghost use Rattle.vz_player.specs.Taken.{played_all, StopsAmong, StopsWriting, AddsFrames, AddsFramesFront};

use crate::{FrameFile, Player, write_frame};
use std::alloc::Global;
use std::sync::ledger::Ledger;
use std::thread::Threads;
use vz_buffers::Steps;
use vz_machine::Machine;
use vz_outside::{Gate, Shelf, ShelfError};
use vz_rules::Event;

/// Takes events one after the other, calls the gate before and after each, and appends each frame
/// that is drawn to a file. The errors are those of the shelf, and `Memory`. After an error a
/// front part of the events was taken, and of their frames a front part of the bytes was written,
/// possibly none. Conditions: the player is not stopped by a failed allocation, each client's
/// event names a client of the plan, the frames have the size of the plan, and the slot is open
/// for writing.
pub fn play_frames<M: Machine + Drop, F: Shelf, G: Gate, L: Ledger, R: Threads + Sync>(
    rt: &R,
    alloc: Global,
    player: &mut Player<M>,
    events: &[Event],
    shelf: &mut F,
    file: FrameFile,
    gate: &G,
    steps: &mut Steps<L>,
) -> Result<(), ShelfError>
where
    M::Picture: Drop,
    requires going { player.old.stopped ≡ false }
    requires named { All (NamesClient player.old.plan) events.now }
    requires size { player.old.plan.size ≡ file.size }
    requires sides { IsDisplaySize file.size }
    requires open { (F.shelved shelf.old).mode file.slot ≡ Some Writing }
    ensures played { OnOk result (player.new ≡ played_all player.old events.now) }
    ensures written { OnOk result (AddsFrames player.old player.new
        ((F.shelved shelf.old).name file.slot) (F.shelved shelf.old) (F.shelved shelf.new)) }
    ensures counted { OnOk result
        (steps.new + painted_by player.old ≡ steps.old + painted_by player.new) }
    ensures stops { OnErr result (StopsAmong player.old events.now player.new) }
    ensures begun { OnErr result (AddsFramesFront player.old player.new
        ((F.shelved shelf.old).name file.slot) (F.shelved shelf.old) (F.shelved shelf.new)) }
    ensures others { KeepsOthers ((F.shelved shelf.old).name file.slot)
        (F.shelved shelf.old) (F.shelved shelf.new) }
    ensures behaves { Behaves (F.shelved shelf.old) (F.shelved shelf.new) result }
    ensures gated { IsGated (G.told gate.now) player.old.history player.new.history }
{
    for event in events {
        play_one(rt, alloc, player, *event, shelf, file, gate, steps)?;
    }
    Ok(())
}

/// Takes an event, calls the gate before and after it, and appends a frame if the event drew one.
fn play_one<M: Machine + Drop, F: Shelf, G: Gate, L: Ledger, R: Threads + Sync>(
    rt: &R,
    alloc: Global,
    player: &mut Player<M>,
    event: Event,
    shelf: &mut F,
    file: FrameFile,
    gate: &G,
    steps: &mut Steps<L>,
) -> Result<(), ShelfError>
where
    M::Picture: Drop,
    requires going { player.old.stopped ≡ false }
    requires named { NamesClient player.old.plan event }
    requires size { player.old.plan.size ≡ file.size }
    requires sides { IsDisplaySize file.size }
    requires open { (F.shelved shelf.old).mode file.slot ≡ Some Writing }
    ensures played { OnOk result (player.new ≡ played_on player.old event) }
    ensures written { OnOk result (AddsFrames player.old player.new
        ((F.shelved shelf.old).name file.slot) (F.shelved shelf.old) (F.shelved shelf.new)) }
    ensures counted { OnOk result
        (steps.new + painted_by player.old ≡ steps.old + painted_by player.new) }
    ensures stops { OnErr result (StopsWriting player.old event player.new) }
    ensures begun { OnErr result (AddsFramesFront player.old player.new
        ((F.shelved shelf.old).name file.slot) (F.shelved shelf.old) (F.shelved shelf.new)) }
    ensures others { KeepsOthers ((F.shelved shelf.old).name file.slot)
        (F.shelved shelf.old) (F.shelved shelf.new) }
    ensures behaves { Behaves (F.shelved shelf.old) (F.shelved shelf.new) result }
    ensures gated { IsGated (G.told gate.now) player.old.history player.new.history }
{
    if !player.turn(rt, alloc, gate, event, steps)? {
        return Ok(());
    }
    write_frame(shelf, file, player.display())?;
    Ok(())
}
