//! Decides which command a list of words asks for.
ghost use Rattle.std.specs.Prelude.{codes, ◌∷◌, IfSome, IfNone};
ghost use Rattle.vz_rules.specs.Command.{IsCommand, IsNoCommand};
ghost use Rattle.vz_words.specs.Words.{texts, command_of};

use crate::commands::{CheckWords, Command, HitWords, MakeWords, RunWords, StepWords, TurnsWords};
use crate::front::{Display, Timed, sides, sides_and_ticks};
use crate::names::{are_names, are_names_with, is_name_before};
use crate::numbers::number;
use crate::options::{buffers, flag};
use vz_base::limits::MOST_ROUNDS;

/// Decides what the words after the program's name ask for. It returns None if they are those of
/// no command: the first word names no command, there are too few or too many numbers or names, a
/// number is out of its range, the frames of a run could have more than `MOST_DRAWN_BYTES` bytes
/// together, a name is empty, too long or begins with a dash, an option is out of its order, or
/// two names are equal.
pub fn command(words: &[String]) -> Option<Command<'_>>
    ensures found { IfSome result (λ c. IsCommand (texts words.now) (command_of c)) }
    ensures none { IfNone result (IsNoCommand (texts words.now)) }
{
    let [name, rest @ ..] = words else {
        return None;
    };
    match name.as_str() {
        "run" => run(rest),
        "step" => step(rest),
        "check" => check(rest),
        "gen" => make_files(rest),
        "demo" => demo(rest),
        "hit" => hit(rest),
        "turns" => turns(rest),
        _ => None,
    }
}

/// Reads the words after `run`.
fn run(words: &[String]) -> Option<Command<'_>>
    ensures found { IfSome result (λ c. IsCommand (codes "run" ∷ texts words.now) (command_of c)) }
    ensures none { IfNone result (IsNoCommand (codes "run" ∷ texts words.now)) }
{
    let (paced, rest) = flag(words, "--paced");
    let (buffers, rest) = buffers(rest)?;
    let (pipe, rest) = flag(rest, "--pipe");
    let Timed {
        width,
        height,
        ticks,
        rest,
    } = sides_and_ticks(rest)?;
    let [frames, log, files @ ..] = rest else {
        return None;
    };
    if !are_names_with(rest, files) {
        return None;
    }
    Some(Command::Run(RunWords {
        paced,
        buffers,
        pipe,
        width,
        height,
        ticks,
        frames: frames.as_str(),
        log: log.as_str(),
        files,
    }))
}

/// Reads the words after `step`.
fn step(words: &[String]) -> Option<Command<'_>>
    ensures found { IfSome result (λ c. IsCommand (codes "step" ∷ texts words.now) (command_of c)) }
    ensures none { IfNone result (IsNoCommand (codes "step" ∷ texts words.now)) }
{
    let Display {
        width,
        height,
        rest,
    } = sides(words)?;
    let [schedule, frames, log, files @ ..] = rest else {
        return None;
    };
    if !are_names_with(rest, files) {
        return None;
    }
    Some(Command::Step(StepWords {
        width,
        height,
        schedule: schedule.as_str(),
        frames: frames.as_str(),
        log: log.as_str(),
        files,
    }))
}

/// Reads the words after `check`.
fn check(words: &[String]) -> Option<Command<'_>>
    ensures found { IfSome result (λ c. IsCommand (codes "check" ∷ texts words.now)
        (command_of c)) }
    ensures none { IfNone result (IsNoCommand (codes "check" ∷ texts words.now)) }
{
    let Display {
        width,
        height,
        rest,
    } = sides(words)?;
    let [frames, log, files @ ..] = rest else {
        return None;
    };
    if !are_names_with(rest, files) {
        return None;
    }
    Some(Command::Check(CheckWords {
        width,
        height,
        frames: frames.as_str(),
        log: log.as_str(),
        files,
    }))
}

/// Reads the words after `gen`.
fn make_files(words: &[String]) -> Option<Command<'_>>
    ensures found { IfSome result (λ c. IsCommand (codes "gen" ∷ texts words.now) (command_of c)) }
    ensures none { IfNone result (IsNoCommand (codes "gen" ∷ texts words.now)) }
{
    let [rounds, names @ ..] = words else {
        return None;
    };
    let rounds = number(rounds.as_str(), 1, MOST_ROUNDS)?;
    if names.len() != 3 {
        return None;
    }
    if !are_names(names) {
        return None;
    }
    Some(Command::Gen(MakeWords {
        rounds,
        first: names[0].as_str(),
        second: names[1].as_str(),
        third: names[2].as_str(),
    }))
}

/// Reads the words after `demo`.
fn demo(words: &[String]) -> Option<Command<'_>>
    ensures found { IfSome result (λ c. IsCommand (codes "demo" ∷ texts words.now) (command_of c)) }
    ensures none { IfNone result (IsNoCommand (codes "demo" ∷ texts words.now)) }
{
    if words.len() != 1 {
        return None;
    }
    let rounds = number(words[0].as_str(), 1, MOST_ROUNDS)?;
    Some(Command::Demo { rounds })
}

/// Reads the words after `hit`.
fn hit(words: &[String]) -> Option<Command<'_>>
    ensures found { IfSome result (λ c. IsCommand (codes "hit" ∷ texts words.now) (command_of c)) }
    ensures none { IfNone result (IsNoCommand (codes "hit" ∷ texts words.now)) }
{
    let Display {
        width,
        height,
        rest,
    } = sides(words)?;
    let [schedule, x, y, files @ ..] = rest else {
        return None;
    };
    let x = number(x.as_str(), 0, width - 1)?;
    let y = number(y.as_str(), 0, height - 1)?;
    if !is_name_before(schedule.as_str(), files) {
        return None;
    }
    Some(Command::Hit(HitWords {
        width,
        height,
        schedule: schedule.as_str(),
        x,
        y,
        files,
    }))
}

/// Reads the words after `turns`.
fn turns(words: &[String]) -> Option<Command<'_>>
    ensures found { IfSome result (λ c. IsCommand (codes "turns" ∷ texts words.now)
        (command_of c)) }
    ensures none { IfNone result (IsNoCommand (codes "turns" ∷ texts words.now)) }
{
    let Timed {
        width,
        height,
        ticks,
        rest,
    } = sides_and_ticks(words)?;
    if !are_names_with(rest, rest) {
        return None;
    }
    Some(Command::Turns(TurnsWords {
        width,
        height,
        ticks,
        files: rest,
    }))
}
