//! Compares lines of a log with those of the machine.
ghost use Rattle.std.specs.Prelude.{◌≡◌, ◌<◌, ◌≤◌, [], IfOk};
ghost use Rattle.vz_rules.specs.Step.{NamesClient};
ghost use Rattle.vz_rules.specs.Log.{entry_text, log_text, rest_in};
ghost use Rattle.vz_check.specs.Judged.{IsAnswer, IsSomeLog};

use std::alloc::Global;
use vz_base::Memory;
use vz_frame::List;
use vz_journal::{LogError, read, write, write_entry};
use vz_rules::{Entry, Event, Plan};
use vz_slow::Slow;

/// Whether an event is the display's, or that of a client of the plan.
pub(crate) fn names_client(plan: &Plan, event: Event) -> bool
    ensures { IsAnswer result (NamesClient plan.now event) }
{
    match event {
        Event::Client(client) => is_number_upto(client, plan.files().len()),
        _ => true,
    }
}

/// Whether `number` is one of the numbers from 1 to `most`.
fn is_number_upto(number: u32, most: usize) -> bool
    ensures { IsAnswer result ((0 < number) × (number ≤ most)) }
{
    0 < number && number as usize <= most
}

/// Whether a line is that of the entry.
pub(crate) fn is_line(alloc: Global, entry: &Entry, line: &[u8]) -> Result<bool, Memory>
    ensures { IfOk result (λ same. IsAnswer same (line.now ≡ entry_text entry.now)) }
{
    let own = write_entry(alloc, entry)?;
    Ok(is_same(line, own.as_bytes()))
}

/// Whether a text is the log of some history.
pub(crate) fn is_log(alloc: Global, text: &[u8]) -> Result<bool, Memory>
    ensures { IfOk result (λ good. IsAnswer good (IsSomeLog text.now)) }
{
    match read(alloc, text) {
        Ok(_) => Ok(true),
        Err(LogError::Refused { .. }) => Ok(false),
        Err(LogError::Memory) => Err(Memory),
    }
}

/// Whether a text is the log of no entry and of what the machine has outstanding.
pub(crate) fn is_rest(alloc: Global, machine: &Slow<'_>, text: &[u8]) -> Result<bool, Memory>
    ensures { IfOk result (λ same.
        IsAnswer same (text.now ≡ log_text [] (rest_in machine.now.world))) }
{
    let rest = machine.rest()?;
    let own = write(alloc, &List::new(alloc), &rest)?;
    Ok(is_same(text, own.as_bytes()))
}

/// Whether two texts are the same.
pub(crate) fn is_same(a: &[u8], b: &[u8]) -> bool
    ensures { IsAnswer result (a.now ≡ b.now) }
{
    a == b
}
