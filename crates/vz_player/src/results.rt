//! Runs a machine through events, on one thread.
ghost use Rattle.std.specs.Prelude.{◌≡◌, ◌≤◌, ◌+◌, false, length, All, map, IfOk, OnOk};
ghost use Rattle.vz_base.specs.declared.limits.TheConstants.{MOST_FILES};
ghost use Rattle.vz_geom.specs.Display.{IsDisplaySize};
ghost use Rattle.vz_rules.specs.World.{opening};
ghost use Rattle.vz_rules.specs.Step.{Legal, NamesClient};
ghost use Rattle.vz_rules.specs.Log.{rest_of};
ghost use Rattle.vz_rules.specs.Frames.{frames_bytes, written, painted};
ghost use Rattle.vz_player.specs.Played.{played_on, frames_of, painted_by};

use crate::Player;
use crate::result_frame::push_frame;
use std::alloc::Global;
use std::sync::ledger::Ledger;
use vz_base::Memory;
use vz_base::limits::MOST_BUFFERS;
use vz_buffers::Steps;
use vz_frame::List;
use vz_geom::Size;
use vz_machine::Machine;
use vz_outside::OpenGate;
use vz_rules::{Entry, Event, Rest};

/// What a machine made of a list of events.
#[derive(Drop)]
pub struct Results {
    /// The history: one entry for each event, in the same order.
    pub history: List<Entry>,
    /// What is outstanding at the end.
    pub rest: Rest,
    /// The bytes of the frames, one frame after the other, each row by row from the top with four
    /// bytes a pixel.
    pub frames: Vec<u8>,
    /// For each frame, in order, how many pixels were put into a buffer.
    pub painted: Vec<u64>,
}

/// Runs a machine through events, and shows its pictures on a display with this number of
/// buffers. The only error is `Memory`. Conditions: the machine is in the opening world of its
/// plan, which has at most `MOST_FILES` files and a display of this size; each client's event
/// names a client of the plan; and there are 1 to `MOST_BUFFERS` buffers.
pub fn play<M: Machine + Drop, L: Ledger>(
    alloc: Global,
    machine: M,
    size: Size,
    events: &[Event],
    buffers: u32,
    steps: &mut Steps<L>,
) -> Result<Results, Memory>
where
    M::Picture: Drop,
    requires opening { (M.state machine).world ≡ opening (M.state machine).plan }
    requires files { length (M.state machine).plan.files ≤ MOST_FILES }
    requires size { (M.state machine).plan.size ≡ size }
    requires sides { IsDisplaySize size }
    requires named { All (NamesClient (M.state machine).plan) events.now }
    requires from { 1 ≤ buffers }
    requires upto { buffers ≤ MOST_BUFFERS }
    // The history is the one that the machine makes of exactly these events.
    ensures legal { IfOk result (λ p. Legal (M.state machine).plan p.history) }
    ensures events { IfOk result (λ p. map (λ e. e.event) p.history ≡ events.now) }
    ensures rest { IfOk result (λ p. p.rest ≡ rest_of (M.state machine).plan p.history) }
    // The frames are those that are written with this number of buffers, and each pixel that is
    // put counts as a step.
    ensures frames { IfOk result (λ p. p.frames.items
        ≡ frames_bytes (written (M.state machine).plan p.history buffers)) }
    ensures counted { IfOk result (λ p. steps.new
        ≡ steps.old + painted (M.state machine).plan p.history buffers) }
{
    let mut player = Player::new(alloc, machine, size, buffers, events.len());
    let mut frames = Vec::new(alloc);
    let mut painted = Vec::new(alloc);
    for event in events {
        let count = turn(alloc, &mut player, *event, &mut frames, steps)?;
        if let Some(count) = count {
            painted.push(count)?;
        }
    }
    let rest = player.rest(alloc)?;
    Ok(Results {
        history: player.into_history(),
        rest,
        frames,
        painted,
    })
}

/// Takes an event, and appends the bytes of the frame if one is drawn. It returns how many pixels
/// were put into a buffer, or None if nothing was drawn. Conditions: no failed allocation has
/// stopped the player, a client's event names a client of the plan, and `frames` has the bytes of
/// the frames so far.
fn turn<M: Machine + Drop, L: Ledger>(
    alloc: Global,
    player: &mut Player<M>,
    event: Event,
    frames: &mut Vec<u8>,
    steps: &mut Steps<L>,
) -> Result<Option<u64>, Memory>
where
    M::Picture: Drop,
    requires going { player.old.stopped ≡ false }
    requires named { NamesClient player.old.plan event }
    requires frames { frames.old.items ≡ frames_bytes (frames_of player.old) }
    ensures taken { OnOk result (player.new ≡ played_on player.old event) }
    ensures frames { OnOk result (frames.new.items ≡ frames_bytes (frames_of player.new)) }
    ensures counted { OnOk result
        (steps.new + painted_by player.old ≡ steps.old + painted_by player.new) }
{
    let before = steps.count();
    let drawn = player.turn_alone(alloc, &OpenGate, event, steps)?;
    if !drawn {
        return Ok(None);
    }
    push_frame(player.display(), frames)?;
    Ok(Some(steps.count().saturating_sub(before)))
}
