//! The plan and the events of a call, from the bytes that C hands over.
ghost use Rattle.std.specs.Prelude.{◌≡◌, ◌≤◌, All, None, Some, length, IfOk, OnOk, IsErrOf};
ghost use Rattle.vz_base.specs.declared.limits.TheConstants.{MOST_FILES};
ghost use Rattle.vz_geom.specs.Display.{IsDisplaySize};
ghost use Rattle.viz_run.specs.Refusals.{plan_read};
ghost use Rattle.viz_run.specs.Schedule.{events_of};
ghost use Rattle.viz_run.specs.declared.refused.InputError.TheVariants as input_error;
ghost use Rattle.viz_run.specs.declared.refused.Refused.{Refused as Refusal};
ghost use Rattle.viz_run.specs.Read.{contents};
ghost use Rattle.vz_rules.specs.Step.{NamesClient};
ghost use Rattle.viz_c.specs.Calls.{schedule_refused_of, log_refused_of};

use std::alloc::Global;
use viz_run::{InputError, Reason, Refused, events_of, plan_in_turn};
use vz_base::limits::MOST_LOG_BYTES;
use vz_geom::Size;
use vz_rules::{Event, Plan};

/// The plan of the files, and the events of the schedule.
#[derive(Drop)]
pub struct Given {
    pub plan: Plan,
    pub events: Vec<Event>,
}

/// The plan and the events, if no input is refused. The files are tested in order, and then the
/// schedule.
pub fn admit(
    alloc: Global,
    size: Size,
    files: &[Vec<u8>],
    schedule: &[u8],
) -> Result<Given, InputError>
    requires some { 1 ≤ length files.now }
    requires few { length files.now ≤ MOST_FILES }
    requires size { IsDisplaySize size }
    ensures plan { IfOk result (λ given. given.plan ≡ plan_read size (contents files.now)) }
    ensures events { IfOk result (λ given. given.events.items ≡ events_of schedule.now) }
    ensures named { IfOk result (λ given. All (NamesClient given.plan) given.events.items) }
    ensures good { OnOk result
        (schedule_refused_of size (contents files.now) schedule.now ≡ None) }
    ensures refused { (r : Refusal) → IsErrOf result (input_error.Refused r)
        → schedule_refused_of size (contents files.now) schedule.now ≡ Some r }
{
    let plan = plan_in_turn(alloc, size, files)?;
    let events = events_of(alloc, &plan, schedule)?;
    Ok(Given { plan, events })
}

/// The plan, if no input is refused. The files are tested in order, and then the length of the
/// log.
pub fn admit_log(
    alloc: Global,
    size: Size,
    files: &[Vec<u8>],
    log: &[u8],
) -> Result<Plan, InputError>
    requires some { 1 ≤ length files.now }
    requires few { length files.now ≤ MOST_FILES }
    requires size { IsDisplaySize size }
    ensures plan { IfOk result (λ plan. plan ≡ plan_read size (contents files.now)) }
    ensures good { OnOk result (log_refused_of (contents files.now) log.now ≡ None) }
    ensures refused { (r : Refusal) → IsErrOf result (input_error.Refused r)
        → log_refused_of (contents files.now) log.now ≡ Some r }
{
    let plan = plan_in_turn(alloc, size, files)?;
    if log.len() > MOST_LOG_BYTES {
        return Err(InputError::Refused(Refused {
            file: 0,
            at: MOST_LOG_BYTES,
            reason: Reason::Long,
        }));
    }
    Ok(plan)
}
