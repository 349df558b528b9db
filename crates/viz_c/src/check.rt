//! Checks a log and its frames, which are bytes in memory.
ghost use Rattle.std.specs.Prelude.{◌≡◌, ◌≢◌, ◌≤◌, None, Some, [], ◌∷◌, length, IfOk, OnOk, IsErrOf};
ghost use Rattle.vz_base.specs.declared.limits.TheConstants.{MOST_FILES};
ghost use Rattle.vz_geom.specs.Display.{IsDisplaySize};
ghost use Rattle.viz_run.specs.declared.refused.InputError.TheVariants as input_error;
ghost use Rattle.viz_run.specs.declared.refused.Refused.{Refused as Refusal};
ghost use Rattle.vz_check.specs.Verdict.{IsVerdict};
ghost use Rattle.vz_outside.specs.InMemory.{bytes_in};
ghost use Rattle.viz_c.specs.Answers as viz;
ghost use Rattle.viz_c.specs.Calls.{cut, log_refused_of};
ghost use Rattle.viz_c.specs.Numbers.{what_number};
ghost use Rattle.viz_c.specs.Judging.{Judges, IsVerdictTold, IsCheckTold};

use crate::answer::{Cause, DONE, FAULT, tell_error};
use crate::call::cut;
use crate::given::admit_log;
use std::alloc::Global;
use viz_run::InputError;
use vz_base::Memory;
use vz_check::{Verdict, What, check};
use vz_geom::Size;
use vz_outside::{MemoryShelf, Shelf};
use vz_rules::Plan;

/// The verdict on a log and its frames, with the plan of these files.
///
/// The error is `Refused` for the first input that is refused, and otherwise `Memory`.
/// Conditions: 1 to `MOST_FILES` files, and sides that a display may have.
pub fn judge(
    alloc: Global,
    size: Size,
    frames: &[u8],
    log: &[u8],
    files: &[u8],
    lengths: &[usize],
) -> Result<Verdict, InputError>
    requires some { 1 ≤ length lengths.now }
    requires few { length lengths.now ≤ MOST_FILES }
    requires size { IsDisplaySize size }
    ensures judges { IfOk result (λ verdict.
        Judges size (cut lengths.now files.now) log.now frames.now verdict) }
    ensures refused { (r : Refusal) → IsErrOf result (input_error.Refused r)
        → log_refused_of (cut lengths.now files.now) log.now ≡ Some r }
{
    let inputs = cut(alloc, files, lengths)?;
    let plan = admit_log(alloc, size, &inputs, log)?;
    let verdict = judge_bytes(alloc, &plan, log, frames)?;
    Ok(verdict)
}

/// The verdict on a log and its frames.
fn judge_bytes(alloc: Global, plan: &Plan, log: &[u8], frames: &[u8]) -> Result<Verdict, Memory>
    ensures { IfOk result (λ verdict. IsVerdict plan.now log.now frames.now verdict) }
{
    let mut shelf = shelf_with(alloc, frames)?;
    let Ok(slot) = shelf.open("") else {
        return Err(Memory);
    };
    let Ok(verdict) = check(alloc, plan, log, &mut shelf, slot) else {
        return Err(Memory);
    };
    Ok(verdict)
}

/// A shelf with one file, which has an empty name and these bytes.
fn shelf_with(alloc: Global, bytes: &[u8]) -> Result<MemoryShelf, Memory>
    ensures { IfOk result (λ shelf. bytes_in shelf.files [] ≡ Some bytes.now) }
{
    let name = String::new(alloc);
    let copy = Vec::from_slice(alloc, bytes)?;
    let mut files = Vec::new(alloc);
    files.push((name, copy))?;
    let failing = Vec::new(alloc);
    let shelf = MemoryShelf::new(alloc, files, failing, usize::MAX);
    Ok(shelf)
}

/// The answer for a verdict. If it is no, `entry` and `what` get where and what is wrong first.
pub fn tell_check(
    verdict: &Result<Verdict, InputError>,
    entry: &mut u64,
    what: &mut u32,
    cause: &mut Cause,
) -> u32
    ensures told { IsCheckTold verdict.now result entry.new what.new cause.new }
    ensures found_kept { result ≢ viz.FAULT → (entry.new ≡ entry.old) × (what.new ≡ what.old) }
    ensures cause_kept { result ≢ viz.REFUSED → cause.new ≡ cause.old }
{
    match verdict {
        Ok(verdict) => tell_verdict(verdict, entry, what),
        Err(error) => tell_error(error, cause),
    }
}

/// The answer for a verdict.
fn tell_verdict(verdict: &Verdict, entry: &mut u64, what: &mut u32) -> u32
    ensures told { IsVerdictTold verdict.now result entry.new what.new }
    ensures found_kept { result ≢ viz.FAULT → (entry.new ≡ entry.old) × (what.new ≡ what.old) }
{
    match verdict {
        Verdict::Yes => DONE,
        Verdict::No {
            entry: place,
            what: fault,
        } => {
            *entry = *place;
            *what = what_number(*fault);
            FAULT
        }
    }
}

/// The number of a fault of a log or its frames.
fn what_number(what: What) -> u32
    ensures { result ≡ what_number what }
{
    match what {
        What::LogText => 1,
        What::Reply => 2,
        What::Frame => 3,
        What::Rest => 4,
        What::Length => 5,
    }
}
