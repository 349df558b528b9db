//! Carries out the command that the words ask for.
ghost use Rattle.std.specs.Prelude.{◌≡◌, []};
ghost use Rattle.vz_player.specs.Gated.{AreGated};
ghost use Rattle.vz_words.specs.Words.{texts};
ghost use Rattle.viz_run.specs.Answered.{AnswersAll};
ghost use Rattle.viz_run.specs.Site.{site};

use crate::demo::demo;
use crate::end::End;
use crate::hit::hit;
use crate::judging::check_log;
use crate::make::make_files;
use crate::running::run;
use crate::step::step;
use crate::stop::Stop;
use crate::turns::turns;
use std::sync::Wait;
use std::sync::ledger::Ledger;
use std::thread::Threads;
use vz_buffers::Steps;
use vz_frame::List;
use vz_outside::{Gate, Shelf};
use vz_rules::Entry;
use vz_words::{Command, command};

/// Carries out the command that the words ask for, and returns how it ended.
///
/// The error is `Words` if the program has no such command, and `Input` if an input is refused;
/// after either nothing was begun. It is `Fault` exactly if the shelf counted a fault, and
/// `Memory` if an allocation failed.
pub fn perform<F: Shelf + Send, G: Gate + Sync, L: Ledger, R>(
    rt: &R,
    words: &[String],
    shelf: &mut F,
    gate: &G,
    steps: &mut Steps<L>,
    history: &mut List<Entry>,
) -> Result<End, Stop>
where
    R: Threads + Wait + AllocGlobal + Sync,
    requires { history.old ≡ [] }
    ensures answers { AnswersAll (texts words.now) history.new
        (site (F.shelved shelf.old) steps.old) (site (F.shelved shelf.new) steps.new) result }
    ensures gated { AreGated (G.told gate.now) history.new }
{
    match command(words) {
        Some(Command::Run(words)) => run(rt, &words, shelf, gate, steps, history),
        Some(Command::Step(words)) => step(rt, &words, shelf, gate, steps, history),
        Some(Command::Check(words)) => check_log(rt, &words, shelf),
        Some(Command::Gen(words)) => Ok(End {
            line: make_files(rt.alloc(), &words, shelf)?,
            status: 0,
        }),
        Some(Command::Demo { rounds }) => Ok(End {
            line: demo(rt, rt.alloc(), rounds, gate, steps, history)?,
            status: 0,
        }),
        Some(Command::Hit(words)) => hit(rt, &words, shelf, gate, history),
        Some(Command::Turns(words)) => turns(rt, &words, shelf, gate, history),
        None => Err(Stop::Words),
    }
}
