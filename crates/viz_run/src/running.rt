//! The command `run`: a thread for each client, beside the display.
ghost use Rattle.std.specs.Prelude.{◌≡◌, [], IsTrue};
ghost use Rattle.vz_player.specs.Gated.{AreGated};
ghost use Rattle.vz_rules.specs.Command.{fits_command};
ghost use Rattle.viz_run.specs.Answered.{AnswersFor};
ghost use Rattle.viz_run.specs.Ran.{command_of};
ghost use Rattle.viz_run.specs.Site.{site};

use crate::coursing::play_run;
use crate::end::End;
use crate::lines::done_line;
use crate::opening::open_machine;
use crate::planning::{message_counts, read_plan};
use crate::sides::size_of;
use crate::stop::Stop;
use std::sync::Wait;
use std::sync::ledger::Ledger;
use std::thread::Threads;
use vz_buffers::Steps;
use vz_frame::List;
use vz_outside::{Gate, Shelf};
use vz_rules::Entry;
use vz_words::RunWords;

/// Runs the clients' files, each on a thread of its own beside the display, writes the frames and
/// the log, and returns how that ended. If the words have `--pipe`, the frames of the rounds are
/// written by a thread of their own, and otherwise by the display.
pub fn run<F: Shelf + Send, G: Gate + Sync, L: Ledger, R>(
    rt: &R,
    words: &RunWords<'_>,
    shelf: &mut F,
    gate: &G,
    steps: &mut Steps<L>,
    history: &mut List<Entry>,
) -> Result<End, Stop>
where
    R: Threads + Wait + AllocGlobal + Sync,
    requires fits { IsTrue (fits_command (command_of words.now)) }
    requires empty { history.old ≡ [] }
    ensures answers { AnswersFor (command_of words.now) history.new
        (site (F.shelved shelf.old) steps.old) (site (F.shelved shelf.new) steps.new) result }
    ensures gated { AreGated (G.told gate.now) history.new }
{
    let size = size_of(words.width, words.height);
    let plan = read_plan(rt, shelf, size, words.files)?;
    let counts = message_counts(rt.alloc(), plan.files())?;
    let machine = open_machine(rt.alloc(), plan)?;
    play_run(rt, machine, &counts, words, shelf, gate, steps, history)?;
    Ok(End {
        line: done_line(rt.alloc(), history.as_slice())?,
        status: 0,
    })
}
