//! The command `step`: takes the events of a schedule one after the other.
ghost use Rattle.std.specs.Prelude.{◌≡◌, [], IsTrue};
ghost use Rattle.vz_player.specs.Gated.{AreGated};
ghost use Rattle.vz_rules.specs.Command.{fits_command};
ghost use Rattle.viz_run.specs.Answered.{AnswersFor};
ghost use Rattle.viz_run.specs.Site.{site};
ghost use Rattle.viz_run.specs.Stepped.{command_of};

use crate::end::End;
use crate::given::{Given, admit};
use crate::lines::done_line;
use crate::opening::open_machine;
use crate::playing::play;
use crate::sides::size_of;
use crate::stop::Stop;
use std::sync::ledger::Ledger;
use std::thread::Threads;
use vz_buffers::Steps;
use vz_frame::List;
use vz_outside::{Gate, Shelf};
use vz_rules::Entry;
use vz_words::StepWords;

/// Takes the events of a schedule, writes the frames and the log, and returns how that ended.
pub fn step<F: Shelf, G: Gate, L: Ledger, R: Threads + AllocGlobal + Sync>(
    rt: &R,
    words: &StepWords<'_>,
    shelf: &mut F,
    gate: &G,
    steps: &mut Steps<L>,
    history: &mut List<Entry>,
) -> Result<End, Stop>
    requires fits { IsTrue (fits_command (command_of words.now)) }
    requires empty { history.old ≡ [] }
    ensures answers { AnswersFor (command_of words.now) history.new
        (site (F.shelved shelf.old) steps.old) (site (F.shelved shelf.new) steps.new) result }
    ensures gated { AreGated (G.told gate.now) history.new }
{
    let size = size_of(words.width, words.height);
    let Given { plan, events } = admit(rt, shelf, size, words.schedule, words.files)?;
    let _ = plan.files();
    let machine = open_machine(rt.alloc(), plan)?;
    play(
        rt,
        rt.alloc(),
        machine,
        size,
        &events,
        words,
        shelf,
        gate,
        steps,
        history,
    )?;
    Ok(End {
        line: done_line(rt.alloc(), history.as_slice())?,
        status: 0,
    })
}
