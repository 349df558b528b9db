//! Reads the text of a log.
ghost use Rattle.std.specs.Prelude.{◌≡◌, ◌+◌, ◌^◌, ◌<◌, Some, List as Row};
ghost use Rattle.vz_journal.specs.Giving.{Gives, GivesLog};
ghost use Rattle.vz_journal.specs.Reading.{lines_at, line_count, ended, log_in};
ghost use Rattle.vz_journal.specs.Answers.{IsLog, IsReading, Finds};
ghost use Rattle.vz_rules.specs.declared.entry.Entry.{Entry};
ghost use Rattle.vz_rules.specs.declared.entry.Rest.{Rest};

use crate::item::all;
use crate::lines::{Entries, HeldLines, OpenLines};
use crate::reader::Reader;
use crate::stop::{LogError, Stop};
use std::alloc::Global;
use vz_frame::List;
use vz_rules::{Entry, Rest};

/// Reads the text of a whole log: the history, in order, and the rest. Its lists are made on this
/// allocator.
///
/// The error is `Refused` with the number, from 1 on, of the first line that is not in the
/// grammar at its place or does not end with a line feed. If the text ends without the line
/// `end`, that is the line after the last one. Otherwise the only error is `Memory`.
pub fn read(alloc: Global, bytes: &[u8]) -> Result<(List<Entry>, Rest), LogError>
    // The answer is what the text is the log of, or its first bad line.
    ensures exact { IsReading bytes.now result }

    // If the text is a log, the answer is what it is the log of.
    ensures only { (h : Row Entry) (rest : Rest) → IsLog bytes.now h rest
        → Finds result h rest }
{
    read_log(alloc, bytes)
}

/// Reads the history and the rest, line by line.
#[tactic(auto, unfolding(crate::specs::Reading::log_in))]
fn read_log(alloc: Global, bytes: &[u8]) -> Result<(List<Entry>, Rest), LogError>
    ensures { GivesLog result (log_in bytes.now) }
{
    let mut input = Reader::new(bytes);
    match read_lines(alloc, &mut input) {
        Ok(lines) => ended(lines, &mut input),
        Err(_) => Err(LogError::Memory),
    }
}

/// Reads the lines of entries, of held references and of submissions without feedback, as many as
/// there are of each.
#[tactic(auto, unfolding(crate::specs::Reading::lines_at))]
fn read_lines(alloc: Global, input: &mut Reader) -> Result<(List<Entry>, Rest), Stop>
    ensures { Gives (λ x. (x, input.new)) result (Some (lines_at input.old)) }
{
    let entries = all(alloc, &Entries { alloc }, input)?;
    let held = all(alloc, &HeldLines, input)?;
    let unfed = all(alloc, &OpenLines, input)?;
    Ok((entries, Rest { held, unfed }))
}

/// Reads the last line, after which nothing may come.
#[tactic(auto, unfolding(crate::specs::Reading::ended))]
fn ended(lines: (List<Entry>, Rest), input: &mut Reader) -> Result<(List<Entry>, Rest), LogError>
    requires { line_count lines + 2 < 2 ^ 64 }
    ensures { GivesLog result (ended lines input.old) }
{
    let count = line_count(&lines.0, &lines.1);
    let left = input.left();
    if !input.has(b"end\n") {
        return Err(LogError::Refused { line: count + 1 });
    }
    if left != 4 {
        return Err(LogError::Refused { line: count + 2 });
    }
    Ok(lines)
}

/// How many lines these take.
fn line_count(entries: &List<Entry>, rest: &Rest) -> u64
    requires { line_count (entries.now, rest.now) < 2 ^ 64 }
    ensures { result ≡ line_count (entries.now, rest.now) }
{
    (entries.len() + rest.held.len() + rest.unfed.len()) as u64
}
