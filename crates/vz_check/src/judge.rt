//! Checks a log and its frames.
ghost use Rattle.std.specs.Prelude.{◌≡◌, Some, IfOk};
ghost use Rattle.vz_outside.specs.Shelved.{Reading, ReadsOnly, Behaves};
ghost use Rattle.vz_check.specs.Judged.{IsJudged};

use crate::end::fault_at_end;
use crate::entry::fault_of;
use crate::verdict::verdict_at;
use crate::{Verdict, What};
use std::alloc::Global;
use vz_journal::read_entry;
use vz_outside::{Shelf, ShelfError};
use vz_rules::Plan;
use vz_slow::Slow;

/// Checks a log and the frames, which are the bytes that are left to read in a slot. The plain
/// machine takes one step for each entry. The frames are read in pieces, and only up to the first
/// fault.
///
/// The error is `Failed` exactly if a fault was counted, and `Memory` if an allocation failed.
/// After either error some of the frames was read, possibly nothing. Condition: the slot is open
/// for reading.
pub fn check<F: Shelf>(
    alloc: Global,
    plan: &Plan,
    log: &[u8],
    shelf: &mut F,
    slot: u32,
) -> Result<Verdict, ShelfError>
    requires { (F.shelved shelf.old).mode slot ≡ Some Reading }
    ensures verdict { IfOk result (λ verdict.
        IsJudged plan.now log.now slot (F.shelved shelf.old) verdict) }
    ensures kept { ReadsOnly slot (F.shelved shelf.old) (F.shelved shelf.new) }
    ensures behaves { Behaves (F.shelved shelf.old) (F.shelved shelf.new) result }
{
    let _ = plan.files();
    let mut machine = Slow::new(alloc, plan);
    let mut at = 0;
    let mut count = 0;
    while at < log.len() {
        let text = &log[at..];
        match read_entry(alloc, text)? {
            None => {
                let what = fault_at_end(alloc, &machine, text, shelf, slot)?;
                return Ok(verdict_at(count, what));
            }
            Some((entry, length)) => {
                let line = &text[..length];
                match fault_of(alloc, plan, &mut machine, entry.event, line, shelf, slot)? {
                    Some(what) => return Ok(verdict_at(count, Some(what))),
                    None => {
                        at += length;
                        count += 1;
                    }
                }
            }
        }
    }
    Ok(verdict_at(count, Some(What::LogText)))
}
