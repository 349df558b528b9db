//! The command `turns`: clients and the display call one hub on threads, without painting.
ghost use Rattle.std.specs.Prelude.{◌≡◌, ℕ, [], IsTrue};
ghost use Rattle.vz_player.specs.Gated.{AreGated};
ghost use Rattle.vz_rules.specs.Command.{fits_command};
ghost use Rattle.viz_run.specs.Answered.{AnswersFor};
ghost use Rattle.viz_run.specs.Site.{site};
ghost use Rattle.viz_run.specs.Turned.{command_of};

use crate::end::End;
use crate::lines::done_line;
use crate::opening::open_machine;
use crate::planning::{message_counts, read_plan};
use crate::sides::size_of;
use crate::stop::Stop;
use std::sync::Wait;
use std::thread::Threads;
use vz_callers::play_turns;
use vz_frame::List;
use vz_outside::{Gate, Shelf};
use vz_rules::Entry;
use vz_words::TurnsWords;

/// Lets a thread of each client call one hub for each of its messages, while this thread makes the
/// rounds of the display, and returns the line that tells how many entries and frames there were.
/// It paints nothing and writes no file, so no count of steps changes.
pub fn turns<F: Shelf, G: Gate + Sync, R>(
    rt: &R,
    words: &TurnsWords<'_>,
    shelf: &mut F,
    gate: &G,
    history: &mut List<Entry>,
) -> Result<End, Stop>
where
    R: Threads + Wait + AllocGlobal + Sync,
    requires fits { IsTrue (fits_command (command_of words.now)) }
    requires empty { history.old ≡ [] }
    ensures answers { (steps : ℕ) → AnswersFor (command_of words.now) history.new
        (site (F.shelved shelf.old) steps) (site (F.shelved shelf.new) steps) result }
    ensures gated { AreGated (G.told gate.now) history.new }
{
    let size = size_of(words.width, words.height);
    let plan = read_plan(rt, shelf, size, words.files)?;
    let counts = message_counts(rt.alloc(), plan.files())?;
    let machine = open_machine(rt.alloc(), plan)?;
    play_turns(rt, machine, &counts, words.ticks, gate, history)?;
    Ok(End {
        line: done_line(rt.alloc(), history.as_slice())?,
        status: 0,
    })
}
