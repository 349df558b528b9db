//! The command `check`: checks a log and its frames.
ghost use Rattle.std.specs.Prelude.{◌≡◌, ◌≤◌, None, Some, [], length, IsTrue, string_bytes};
ghost use Rattle.std.specs.Prelude.{IfOk, OnOk, IsErrOf};
ghost use Rattle.vz_base.specs.declared.limits.TheConstants.{MOST_FILES};
ghost use Rattle.vz_geom.specs.Display.{IsDisplaySize};
ghost use Rattle.viz_run.specs.Read.{MissesOne, contents};
ghost use Rattle.viz_run.specs.Refusals.{plan_read};
ghost use Rattle.viz_run.specs.declared.refused.Refused.{Refused as Refusal};
ghost use Rattle.viz_run.specs.declared.refused.InputError.TheVariants as input_error;
ghost use Rattle.vz_outside.specs.Shelved.{SameFiles};
ghost use Rattle.vz_rules.specs.Command.{fits_command};
ghost use Rattle.viz_run.specs.Commands.{input_names};
ghost use Rattle.viz_run.specs.Inputs.{Inputs, AreAccepted, plan_of};
ghost use Rattle.viz_run.specs.Causes.{RefusesFor};
ghost use Rattle.viz_run.specs.Ends.{IsSaid, TellsEnd};
ghost use Rattle.viz_run.specs.Judged.{command_of, refused_of};
ghost use Rattle.viz_run.specs.Stops.{Behaves};
ghost use Rattle.viz_run.specs.declared.stop.Stop.TheVariants as stops;

use crate::end::{End, verdict_status};
use crate::lines::verdict_text;
use crate::sides::size_of;
use crate::stop::Stop;
use crate::{InputError, Reason, Refused, plan_of, read_file, read_files};
use std::thread::Threads;
use vz_base::limits::{MOST_FILE_BYTES, MOST_LOG_BYTES};
use vz_check::{Verdict, check};
use vz_geom::Size;
use vz_outside::Shelf;
use vz_rules::Plan;
use vz_words::CheckWords;

/// Checks a log and its frames, and returns the line that reports the verdict, with its status.
pub fn check_log<F: Shelf, R: Threads + AllocGlobal + Sync>(
    rt: &R,
    words: &CheckWords<'_>,
    shelf: &mut F,
) -> Result<End, Stop>
    requires { IsTrue (fits_command (command_of words.now)) }
    ensures told { IfOk result (λ ended. (i : Inputs)
        × AreAccepted (F.shelved shelf.old) (command_of words.now) i
        × TellsEnd (command_of words.now) i [] (string_bytes ended.line) ended.status) }
    ensures low { IfOk result (λ ended. ended.status ≤ 1) }
    ensures words { IsErrOf result stops.Words → ⊥ }
    ensures input { (r : Refusal) → IsErrOf result (stops.Input r)
        → RefusesFor (command_of words.now) (F.shelved shelf.old) r }
    ensures files { SameFiles (F.shelved shelf.old) (F.shelved shelf.new) }
    ensures behaves { Behaves
        (MissesOne (input_names (command_of words.now)) (F.shelved shelf.old))
        (F.shelved shelf.old) (F.shelved shelf.new) result }
{
    let verdict = judge(rt, words, shelf)?;
    Ok(End {
        line: verdict_text(rt.alloc(), &verdict)?,
        status: verdict_status(&verdict),
    })
}

/// Checks a log and its frames against the files of the clients. It reads these files and then
/// the log, and opens the frames, before it tests any of them; it reads the frames while it
/// checks them. No file's bytes change.
fn judge<F: Shelf, R: Threads + AllocGlobal + Sync>(
    rt: &R,
    words: &CheckWords<'_>,
    shelf: &mut F,
) -> Result<Verdict, Stop>
    requires { IsTrue (fits_command (command_of words.now)) }
    ensures verdict { IfOk result (λ verdict. (i : Inputs)
        × AreAccepted (F.shelved shelf.old) (command_of words.now) i
        × IsSaid (plan_of (command_of words.now) i) i.logs i.frames verdict) }
    ensures words { IsErrOf result stops.Words → ⊥ }
    ensures input { (r : Refusal) → IsErrOf result (stops.Input r)
        → RefusesFor (command_of words.now) (F.shelved shelf.old) r }
    ensures files { SameFiles (F.shelved shelf.old) (F.shelved shelf.new) }
    ensures behaves { Behaves
        (MissesOne (input_names (command_of words.now)) (F.shelved shelf.old))
        (F.shelved shelf.old) (F.shelved shelf.new) result }
{
    let files = read_files(rt.alloc(), shelf, words.files, MOST_FILE_BYTES)?;
    let log = read_file(rt.alloc(), shelf, words.log, MOST_LOG_BYTES)?;
    let slot = shelf.open(words.frames)?;
    let size = size_of(words.width, words.height);
    let plan = accept(rt, size, &files, &log)?;
    Ok(check(rt.alloc(), &plan, &log, shelf, slot)?)
}

/// The plan, if no input is refused. The files of the clients are tested in order, and then the
/// log.
fn accept<R: Threads + AllocGlobal + Sync>(
    rt: &R,
    size: Size,
    files: &[Vec<u8>],
    log: &[u8],
) -> Result<Plan, InputError>
    requires some { 1 ≤ length files.now }
    requires few { length files.now ≤ MOST_FILES }
    requires size { IsDisplaySize size }
    ensures plan { IfOk result (λ plan. plan ≡ plan_read size (contents files.now)) }
    ensures good { OnOk result (refused_of (contents files.now) log.now ≡ None) }
    ensures refused { (r : Refusal) → IsErrOf result (input_error.Refused r)
        → refused_of (contents files.now) log.now ≡ Some r }
{
    let plan = plan_of(rt, size, files)?;
    if log.len() > MOST_LOG_BYTES {
        return Err(InputError::Refused(Refused {
            file: 0,
            at: MOST_LOG_BYTES,
            reason: Reason::Long,
        }));
    }
    Ok(plan)
}
