//! The plan of the files by rule, and the events of schedules.
ghost use Rattle.std.specs.Prelude.{◌≡◌, ◌≤◌, All, length};
ghost use Rattle.std.specs.List.{list_all};
ghost use Rattle.vz_base.specs.declared.limits.TheConstants.{MOST_ROUNDS};
ghost use Rattle.vz_frame.specs.Fits.{fits_file};
ghost use Rattle.vz_geom.specs.Display.{IsDisplaySize};
ghost use Rattle.vz_rules.specs.Step.{NamesClient};

use std::alloc::Global;
use viz_run::event_of;
use vz_base::limits::MOST_FILES;
use vz_frame::ClientFile;
use vz_gen::make;
use vz_geom::Size;
use vz_player::is_of_plan;
use vz_rules::{Event, Plan};

/// The display of the files by rule.
fn display() -> Size
    ensures { IsDisplaySize result }
{
    Size { w: 64, h: 32 }
}

/// Whether every number of these files is in its range.
pub(crate) fn all_fit(files: &[ClientFile]) -> bool
    ensures { result ≡ list_all fits_file files.now }
{
    files.iter().all(|file| vz_codec::fits(file))
}

/// The plan of files, if there is one.
fn plan_of(files: Vec<ClientFile>) -> Option<Plan> {
    if files.is_empty() || files.len() > MOST_FILES || !all_fit(&files) {
        return None;
    }
    Plan::new(files, display()).ok()
}

/// The plan of the files by rule of so many rounds, if there is memory.
pub(crate) fn by_rule(alloc: Global, rounds: u32) -> Option<Plan>
    requires { rounds ≤ MOST_ROUNDS }
{
    let files = make(alloc, rounds).ok()?;
    plan_of(files.into_vec())
}

/// The events of a schedule, up to the first byte that is none of the plan, or for which there is
/// no memory.
pub(crate) fn events_of(alloc: Global, plan: &Plan, schedule: &[u8]) -> Vec<Event>
    ensures { All (NamesClient plan.now) result.items }
{
    let mut all = Vec::new(alloc);
    put_events(plan, schedule, &mut all);
    all
}

/// Appends these events.
fn put_events(plan: &Plan, schedule: &[u8], all: &mut Vec<Event>)
    requires { All (NamesClient plan.now) all.old.items }
    ensures { All (NamesClient plan.now) all.new.items }
{
    for byte in schedule {
        if !put_event(plan, *byte, all) {
            return;
        }
    }
}

/// Appends the event of a byte, of which a client's is of one of the plan; whether it is there.
fn put_event(plan: &Plan, byte: u8, all: &mut Vec<Event>) -> bool
    requires { All (NamesClient plan.now) all.old.items }
    ensures { All (NamesClient plan.now) all.new.items }
{
    match event_of(byte) {
        Some(event) if is_of_plan(plan, event) => match all.push(event) {
            Ok(()) => true,
            Err(_) => false,
        },
        _ => false,
    }
}

/// How many clients a plan has.
pub(crate) fn clients_of(plan: &Plan) -> u32
    ensures { result ≡ length plan.now.files }
{
    plan.files().len() as u32
}
