//! The command `demo`: runs the generated files and paints the frames, but writes nothing.
ghost use Rattle.std.specs.Prelude.{◌≡◌, ◌+◌, ◌≤◌, ℕ, [], false, take, All, string_bytes};
ghost use Rattle.std.specs.Prelude.{IfOk, OnOk, OnErr};
ghost use Rattle.vz_base.specs.declared.limits.TheConstants.{DEFAULT_BUFFERS, MOST_ROUNDS};
ghost use Rattle.vz_display.specs.Displayed.{upto_most};
ghost use Rattle.vz_player.specs.Gated.{IsGated, AreGated};
ghost use Rattle.vz_player.specs.Played.{painted_by};
ghost use Rattle.vz_rules.specs.Command.{Demo};
ghost use Rattle.vz_rules.specs.Frames.{painted};
ghost use Rattle.vz_rules.specs.Plan.{IsPlan};
ghost use Rattle.vz_rules.specs.Step.{NamesClient};
ghost use Rattle.vz_rules.specs.World.{opening};
ghost use Rattle.viz_run.specs.Planned.{demo_plan};
ghost use Rattle.viz_run.specs.Demo.{demo_events};
ghost use Rattle.viz_run.specs.Ends.{IsHistory};
ghost use Rattle.viz_run.specs.Lines.{end_line};
ghost use Rattle.viz_run.specs.Taken.{HasTaken};

use crate::demo_plan;
use crate::events::demo_events;
use crate::lines::demo_line;
use crate::opening::open_machine;
use std::alloc::Global;
use std::sync::ledger::Ledger;
use std::thread::Threads;
use vz_base::Memory;
use vz_base::limits::DEFAULT_BUFFERS;
use vz_buffers::Steps;
use vz_frame::List;
use vz_geom::Size;
use vz_machine::Machine;
use vz_outside::Gate;
use vz_player::Player;
use vz_rules::{Entry, Event};

/// Runs the generated files for this number of rounds, paints each frame, and returns the line
/// that reports it. It reads and writes no file. Conditions: 1 to `MOST_ROUNDS` rounds, and an
/// empty history. The only error is `Memory`, and then the history is that of a front part of the
/// events.
pub fn demo<G: Gate, L: Ledger, R: Threads + Sync>(
    rt: &R,
    alloc: Global,
    rounds: u32,
    gate: &G,
    steps: &mut Steps<L>,
    history: &mut List<Entry>,
) -> Result<String, Memory>
    requires few { rounds ≤ MOST_ROUNDS }
    requires empty { history.old ≡ [] }
    ensures history { OnOk result
        (IsHistory (demo_plan rounds) (demo_events rounds) history.new) }
    ensures line { IfOk result (λ line. string_bytes line
        ≡ end_line (Demo rounds) (demo_plan rounds) history.new) }
    ensures counted { OnOk result
        (steps.new ≡ steps.old + painted (demo_plan rounds) history.new DEFAULT_BUFFERS) }
    ensures front { OnErr result ((n : ℕ)
        × IsHistory (demo_plan rounds) (take n (demo_events rounds)) history.new) }
    ensures gated { AreGated (G.told gate.now) history.new }
{
    let plan = demo_plan(alloc, rounds)?;
    let events = demo_events(alloc, rounds)?;
    let _ = plan.files();
    let size = plan.size();
    let machine = open_machine(alloc, plan)?;
    let painted = play_all(rt, alloc, machine, size, &events, gate, steps, history)?;
    Ok(demo_line(alloc, history.as_slice(), painted)?)
}

/// Gives events one after the other to a machine in the opening world of its plan, paints each
/// frame, and returns how many points were painted. `size` is that of the plan's display. The
/// only error is `Memory`, and then the history is that of a front part of the events.
fn play_all<M: Machine + Drop, G: Gate, L: Ledger, R: Threads + Sync>(
    rt: &R,
    alloc: Global,
    machine: M,
    size: Size,
    events: &[Event],
    gate: &G,
    steps: &mut Steps<L>,
    history: &mut List<Entry>,
) -> Result<u64, Memory>
where
    M::Picture: Drop,
    requires opening { (M.state machine).world ≡ opening (M.state machine).plan }
    requires plan { IsPlan (M.state machine).plan }
    requires size { (M.state machine).plan.size ≡ size }
    requires named { All (NamesClient (M.state machine).plan) events.now }
    ensures history { OnOk result (IsHistory (M.state machine).plan events.now history.new) }
    ensures painted { IfOk result (λ points. points
        ≡ upto_most (painted (M.state machine).plan history.new DEFAULT_BUFFERS)) }
    ensures counted { OnOk result (steps.new
        ≡ steps.old + painted (M.state machine).plan history.new DEFAULT_BUFFERS) }
    ensures front { OnErr result ((n : ℕ)
        × IsHistory (M.state machine).plan (take n events.now) history.new) }
    ensures gated { AreGated (G.told gate.now) history.new }
{
    let count = events.len();
    let mut player = Player::new(alloc, machine, size, DEFAULT_BUFFERS as u32, count);
    match take_all(rt, alloc, &mut player, events, gate, steps) {
        Ok(()) => {
            let points = player.display().painted();
            *history = player.into_history();
            Ok(points)
        }
        Err(error) => {
            *history = player.into_history();
            Err(error)
        }
    }
}

/// Gives events to a player one after the other. After the error `Memory` it took a front part of
/// them.
fn take_all<M: Machine + Drop, G: Gate, L: Ledger, R: Threads + Sync>(
    rt: &R,
    alloc: Global,
    player: &mut Player<M>,
    events: &[Event],
    gate: &G,
    steps: &mut Steps<L>,
) -> Result<(), Memory>
where
    M::Picture: Drop,
    requires going { player.old.stopped ≡ false }
    requires named { All (NamesClient player.old.plan) events.now }
    ensures taken { OnOk result (HasTaken events.now player.old player.new) }
    ensures going { OnOk result (player.new.stopped ≡ false) }
    ensures counted { OnOk result
        (steps.new + painted_by player.old ≡ steps.old + painted_by player.new) }
    ensures front { OnErr result ((n : ℕ)
        × HasTaken (take n events.now) player.old player.new) }
    ensures gated { IsGated (G.told gate.now) player.old.history player.new.history }
{
    for event in events {
        player.turn(rt, alloc, gate, *event, steps)?;
    }
    Ok(())
}
