//! The command `hit`: takes the events of a schedule without painting, and says which surface is
//! hit at a point of the last drawing.
ghost use Rattle.std.specs.Prelude.{◌≡◌, ◌≤◌, ℕ, All, [], length, take, IsTrue};
ghost use Rattle.std.specs.Prelude.{IfOk, OnOk, OnErr};
ghost use Rattle.vz_base.specs.declared.limits.TheConstants.{MOST_FILES};
ghost use Rattle.vz_machine.specs.Stepping.{IsOnDisplay};
ghost use Rattle.vz_player.specs.Gated.{IsGated, AreGated};
ghost use Rattle.vz_rules.specs.Command.{fits_command};
ghost use Rattle.vz_rules.specs.Step.{NamesClient};
ghost use Rattle.vz_rules.specs.Whole.{hit_last};
ghost use Rattle.vz_rules.specs.World.{opening};
ghost use Rattle.viz_run.specs.Answered.{AnswersFor};
ghost use Rattle.viz_run.specs.Ends.{IsHistory};
ghost use Rattle.viz_run.specs.Scheduled.{command_of};
ghost use Rattle.viz_run.specs.Site.{site};
ghost use Rattle.viz_run.specs.Taken.{HasTested};

use crate::end::End;
use crate::given::{Given, admit};
use crate::lines::hit_line;
use crate::opening::open_machine;
use crate::sides::{point_of, size_of};
use crate::stop::Stop;
use std::alloc::Global;
use std::thread::Threads;
use vz_base::Memory;
use vz_frame::List;
use vz_geom::Point;
use vz_ids::SurfaceId;
use vz_machine::Machine;
use vz_outside::{Gate, Shelf};
use vz_player::HitTester;
use vz_rules::{Entry, Event};
use vz_words::HitWords;

/// Takes the events of a schedule, and returns the line that says which surface is hit at a point
/// of the last drawing. It paints nothing and writes no file, so no count of steps changes.
pub fn hit<F: Shelf, G: Gate, R: Threads + AllocGlobal + Sync>(
    rt: &R,
    words: &HitWords<'_>,
    shelf: &mut F,
    gate: &G,
    history: &mut List<Entry>,
) -> Result<End, Stop>
    requires fits { IsTrue (fits_command (command_of words.now)) }
    requires empty { history.old ≡ [] }
    ensures answers { (steps : ℕ) → AnswersFor (command_of words.now) history.new
        (site (F.shelved shelf.old) steps) (site (F.shelved shelf.new) steps) result }
    ensures gated { AreGated (G.told gate.now) history.new }
{
    let size = size_of(words.width, words.height);
    let Given { plan, events } = admit(rt, shelf, size, words.schedule, words.files)?;
    let _ = plan.files();
    let machine = open_machine(rt.alloc(), plan)?;
    let point = point_of(words.x, words.y);
    let hit = find_hit(rt.alloc(), machine, point, &events, gate, history)?;
    Ok(End {
        line: hit_line(rt.alloc(), &hit)?,
        status: 0,
    })
}

/// Gives events to a machine in the opening world of its plan, and returns what is hit at a point
/// of the last drawing. The only error is `Memory`, and then the history is that of a front part
/// of the events.
fn find_hit<M: Machine + Drop, G: Gate>(
    alloc: Global,
    machine: M,
    point: Point,
    events: &[Event],
    gate: &G,
    history: &mut List<Entry>,
) -> Result<Option<(SurfaceId, Point)>, Memory>
where
    M::Picture: Drop,
    requires opening { (M.state machine).world ≡ opening (M.state machine).plan }
    requires files { length (M.state machine).plan.files ≤ MOST_FILES }
    requires point { IsOnDisplay (M.state machine) point }
    requires named { All (NamesClient (M.state machine).plan) events.now }
    ensures hit { IfOk result (λ hit. hit ≡ hit_last (M.state machine).plan history.new point) }
    ensures history { OnOk result (IsHistory (M.state machine).plan events.now history.new) }
    ensures front { OnErr result ((n : ℕ)
        × IsHistory (M.state machine).plan (take n events.now) history.new) }
    ensures gated { AreGated (G.told gate.now) history.new }
{
    let mut tester = HitTester::new(alloc, machine, point);
    let taken = take_all(alloc, &mut tester, events, gate);
    let hit = tester.hit();
    *history = tester.into_history();
    taken?;
    Ok(hit)
}

/// Gives events to a tester one after the other. After the error `Memory` it took a front part of
/// them.
fn take_all<M: Machine + Drop, G: Gate>(
    alloc: Global,
    tester: &mut HitTester<M>,
    events: &[Event],
    gate: &G,
) -> Result<(), Memory>
where
    M::Picture: Drop,
    requires named { All (NamesClient tester.old.plan) events.now }
    ensures taken { OnOk result (HasTested events.now tester.old tester.new) }
    ensures front { OnErr result ((n : ℕ)
        × HasTested (take n events.now) tester.old tester.new) }
    ensures gated { IsGated (G.told gate.now) tester.old.history tester.new.history }
{
    for event in events {
        tester.turn(alloc, gate, *event)?;
    }
    Ok(())
}
