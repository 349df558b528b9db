//! What the display does after the last message.
ghost use Rattle.std.specs.Prelude.{◌≡◌, ◌+◌, ◌++◌, ◌∷◌, [], false, Some, OnOk, OnErr, List};
ghost use Rattle.vz_geom.specs.Display.{IsDisplaySize};
ghost use Rattle.vz_outside.specs.Shelved.{Writing, KeepsOthers, Behaves};
ghost use Rattle.vz_rules.specs.declared.entry.Entry.{Entry as OneEntry};
ghost use Rattle.vz_rules.specs.Course.{is_drawn};
ghost use Rattle.vz_rules.specs.Step.{world};
ghost use Rattle.vz_player.specs.Gated.{IsGated};
ghost use Rattle.vz_player.specs.Played.{painted_by};
ghost use Rattle.vz_player.specs.Taken.{AddsFrames, AddsFramesFront};
ghost use Rattle.vz_threads.specs.Tails.{AddsTail, GoesOn, AllComeDue};

use std::alloc::Global;
use std::sync::ledger::Ledger;
use std::thread::Threads;
use vz_buffers::Steps;
use vz_machine::Machine;
use vz_outside::{Gate, Shelf, ShelfError};
use vz_player::{FrameFile, Player, play_frames};
use vz_rules::{Entry, Event, Reply};

/// Begins frames while some submission waits, then draws once, and calls Done if a frame was
/// drawn. It appends the frames to a file. Conditions: no failed allocation has stopped the
/// player, the begin-frame of each pending deadline can still come, the frames have the size of
/// the plan, and the slot is open for writing. After an error the history has a part of these
/// entries, and a front part of the bytes of the frames was written.
pub(crate) fn play_tail<M: Machine + Drop, F: Shelf, G: Gate, L: Ledger, R: Threads + Sync>(
    rt: &R,
    alloc: Global,
    player: &mut Player<M>,
    shelf: &mut F,
    file: FrameFile,
    gate: &G,
    steps: &mut Steps<L>,
) -> Result<(), ShelfError>
where
    M::Picture: Drop,
    requires going { player.old.stopped ≡ false }
    requires due { AllComeDue (world player.old.plan player.old.history) }
    requires size { player.old.plan.size ≡ file.size }
    requires sides { IsDisplaySize file.size }
    requires open { (F.shelved shelf.old).mode file.slot ≡ Some Writing }
    ensures tail { OnOk result (AddsTail player.old player.new) }
    ensures written { OnOk result (AddsFrames player.old player.new
        ((F.shelved shelf.old).name file.slot) (F.shelved shelf.old) (F.shelved shelf.new)) }
    ensures counted { OnOk result
        (steps.new + painted_by player.old ≡ steps.old + painted_by player.new) }
    ensures stops { OnErr result (GoesOn player.old player.new) }
    ensures begun { OnErr result (AddsFramesFront player.old player.new
        ((F.shelved shelf.old).name file.slot) (F.shelved shelf.old) (F.shelved shelf.new)) }
    ensures others { KeepsOthers ((F.shelved shelf.old).name file.slot)
        (F.shelved shelf.old) (F.shelved shelf.new) }
    ensures behaves { Behaves (F.shelved shelf.old) (F.shelved shelf.new) result }
    ensures gated { IsGated (G.told gate.now) player.old.history player.new.history }
{
    while player.machine().waiting() {
        play_frames(rt, alloc, player, &[Event::Begin], shelf, file, gate, steps)?;
    }
    play_frames(rt, alloc, player, &[Event::Draw], shelf, file, gate, steps)?;
    if !ends_drawn(player.history()) {
        return Ok(());
    }
    play_frames(rt, alloc, player, &[Event::Done], shelf, file, gate, steps)?;
    Ok(())
}

/// Whether the last entry of a history draws a frame.
fn ends_drawn(history: &[Entry]) -> bool
    ensures { (before : List OneEntry) (last : OneEntry) → history.now ≡ before ++ last ∷ []
        → result ≡ is_drawn last.reply }
{
    match history.last() {
        Some(entry) => drew(&entry.reply),
        None => false,
    }
}

/// Whether a reply says that a frame was drawn.
fn drew(reply: &Reply) -> bool
    ensures { result ≡ is_drawn reply.now }
{
    matches!(reply, Reply::Drawn(_))
}
