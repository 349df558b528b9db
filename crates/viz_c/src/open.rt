//! Opens a session over message files.
ghost use Rattle.std.specs.Prelude.{◌≡◌, ◌≢◌, ◌≤◌, None, Some, length, IfOk, IsErrOf};
ghost use Rattle.vz_base.specs.declared.limits.TheConstants.{MOST_FILES};
ghost use Rattle.vz_geom.specs.Display.{IsDisplaySize};
ghost use Rattle.viz_run.specs.Refusals.{file_refused};
ghost use Rattle.viz_run.specs.declared.refused.InputError.TheVariants as input_error;
ghost use Rattle.viz_run.specs.declared.refused.Refused.{Refused as Refusal};
ghost use Rattle.viz_c.specs.Answers as viz;
ghost use Rattle.viz_c.specs.Calls.{cut};
ghost use Rattle.viz_c.specs.Telling.{IsOpened, IsOpenTold};

use crate::answer::{Cause, DONE, tell_error};
use crate::call::cut;
use crate::session::Session;
use crate::stage::Stage;
use std::alloc::Global;
use viz_run::{InputError, plan_in_turn};
use vz_geom::Size;

/// Makes the stage for the plan of these files, on the heap.
///
/// The error is `Refused` for the first file that is refused, and otherwise `Memory`. Conditions: 1
/// to `MOST_FILES` files, and sides that a display may have.
pub fn open_stage(
    alloc: Global,
    size: Size,
    files: &[u8],
    lengths: &[usize],
) -> Result<Box<Stage, Global>, InputError>
    requires some { 1 ≤ length lengths.now }
    requires few { length lengths.now ≤ MOST_FILES }
    requires size { IsDisplaySize size }
    ensures opened { IfOk result (λ b. IsOpened size (cut lengths.now files.now) b.value) }
    ensures refused { (r : Refusal) → IsErrOf result (input_error.Refused r)
        → file_refused (cut lengths.now files.now) ≡ Some r }
{
    let inputs = cut(alloc, files, lengths)?;
    let plan = plan_in_turn(alloc, size, &inputs)?;
    let stage = Stage::open(alloc, plan)?;
    let Ok(stage) = Box::new(alloc, stage) else {
        return Err(InputError::Memory);
    };
    Ok(stage)
}

/// Puts a stage into a closed session, and returns the answer. If a file is refused, `cause` gets
/// where and why. Condition: the session is closed.
pub fn tell_open(
    opened: Result<Box<Stage, Global>, InputError>,
    session: &mut Session,
    cause: &mut Cause,
) -> u32
    requires { session.old.handle.stage ≡ None }
    ensures told { IsOpenTold opened result session.new.handle.stage cause.new }
    ensures cause_kept { result ≢ viz.REFUSED → cause.new ≡ cause.old }
{
    match opened {
        Ok(stage) => {
            session.put(stage);
            DONE
        }
        Err(error) => tell_error(&error, cause),
    }
}
