//! What a command is given that takes the events of a schedule: a plan, and the events.
ghost use Rattle.std.specs.Prelude.{◌≡◌, ◌≤◌, ◌∷◌, ◌++◌, All, None, Some, [], length};
ghost use Rattle.std.specs.Prelude.{IfOk, OnOk, IsErrOf};
ghost use Rattle.vz_base.specs.declared.limits.TheConstants.{MOST_FILES};
ghost use Rattle.vz_geom.specs.Display.{IsDisplaySize};
ghost use Rattle.viz_run.specs.Read.{MissesOne, contents, texts};
ghost use Rattle.viz_run.specs.Refusals.{plan_read};
ghost use Rattle.viz_run.specs.Schedule.{events_of};
ghost use Rattle.viz_run.specs.declared.refused.Refused.{Refused as Refusal};
ghost use Rattle.viz_run.specs.declared.refused.InputError.TheVariants as input_error;
ghost use Rattle.vz_outside.specs.Shelved.{SameFiles};
ghost use Rattle.vz_rules.specs.Step.{NamesClient};
ghost use Rattle.viz_run.specs.Inputs.{Inputs};
ghost use Rattle.viz_run.specs.Scheduled.{AreTaken, AreGiven, refused_among};
ghost use Rattle.viz_run.specs.Stepped.{refused_of};
ghost use Rattle.viz_run.specs.Stops.{Behaves};
ghost use Rattle.viz_run.specs.declared.stop.Stop.TheVariants as stops;

use crate::stop::Stop;
use crate::{InputError, events_of, plan_of, read_file, read_files};
use std::thread::Threads;
use vz_base::limits::{MOST_EVENTS, MOST_FILE_BYTES};
use vz_geom::Size;
use vz_outside::Shelf;
use vz_rules::{Event, Plan};

/// The inputs of `step` and `hit`: the plan, and the events of the schedule.
#[derive(Drop)]
pub struct Given {
    pub plan: Plan,
    pub events: Vec<Event>,
}

/// Reads the clients' files and then the schedule before it tests any of them, and returns the
/// plan and the events. Conditions: 1 to `MOST_FILES` files, and a size that a display may have.
pub fn admit<F: Shelf, R: Threads + AllocGlobal + Sync>(
    rt: &R,
    shelf: &mut F,
    size: Size,
    schedule: &str,
    files: &[String],
) -> Result<Given, Stop>
    requires some { 1 ≤ length files.now }
    requires few { length files.now ≤ MOST_FILES }
    requires size { IsDisplaySize size }
    ensures accepted { IfOk result (λ given. (i : Inputs)
        × AreGiven (F.shelved shelf.old) size schedule.now (texts files.now) i
        given.plan given.events.items) }
    ensures named { IfOk result (λ given. All (NamesClient given.plan) given.events.items) }
    ensures words { IsErrOf result stops.Words → ⊥ }
    ensures input { (r : Refusal) → IsErrOf result (stops.Input r) → (i : Inputs)
        × AreTaken (F.shelved shelf.old) schedule.now (texts files.now) i
        × (refused_among size i ≡ Some r) }
    ensures files { SameFiles (F.shelved shelf.old) (F.shelved shelf.new) }
    ensures behaves { Behaves
        (MissesOne (texts files.now ++ schedule.now ∷ []) (F.shelved shelf.old))
        (F.shelved shelf.old) (F.shelved shelf.new) result }
{
    let bytes = read_files(rt.alloc(), shelf, files, MOST_FILE_BYTES)?;
    let lines = read_file(rt.alloc(), shelf, schedule, MOST_EVENTS)?;
    Ok(accept(rt, size, &bytes, &lines)?)
}

/// The plan and the events, if no input is refused. The clients' files are tested in order, and
/// then the schedule.
fn accept<R: Threads + AllocGlobal + Sync>(
    rt: &R,
    size: Size,
    files: &[Vec<u8>],
    schedule: &[u8],
) -> Result<Given, InputError>
    requires some { 1 ≤ length files.now }
    requires few { length files.now ≤ MOST_FILES }
    requires size { IsDisplaySize size }
    ensures plan { IfOk result (λ given. given.plan ≡ plan_read size (contents files.now)) }
    ensures events { IfOk result (λ given. given.events.items ≡ events_of schedule.now) }
    ensures named { IfOk result (λ given. All (NamesClient given.plan) given.events.items) }
    ensures good { OnOk result (refused_of size (contents files.now) schedule.now ≡ None) }
    ensures refused { (r : Refusal) → IsErrOf result (input_error.Refused r)
        → refused_of size (contents files.now) schedule.now ≡ Some r }
{
    let plan = plan_of(rt, size, files)?;
    let events = events_of(rt.alloc(), &plan, schedule)?;
    Ok(Given { plan, events })
}
