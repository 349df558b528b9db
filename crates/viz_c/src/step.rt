//! Gives the events of a schedule to the machine, from bytes to bytes.
ghost use Rattle.std.specs.Prelude.{◌≡◌, ◌≢◌, ◌<◌, ◌≤◌, All, None, Some, length, map, string_bytes};
ghost use Rattle.std.specs.Prelude.{IfOk, OnOk, IsErrOf};
ghost use Rattle.vz_base.specs.declared.limits.TheConstants.{MOST_FILES};
ghost use Rattle.vz_geom.specs.Display.{IsDisplaySize};
ghost use Rattle.viz_run.specs.declared.refused.InputError.TheVariants as input_error;
ghost use Rattle.viz_run.specs.declared.refused.Refused.{Refused as Refusal};
ghost use Rattle.vz_rules.specs.Step.{NamesClient};
ghost use Rattle.viz_c.specs.Answers as viz;
ghost use Rattle.viz_c.specs.Calls.{cut, schedule_refused_of};
ghost use Rattle.viz_c.specs.Stepping.{Leaves, AreStepped, IsStepTold, IsLeftTold};

use crate::answer::{Cause, DONE, ROOM, tell_error};
use crate::call::cut;
use crate::given::{Given, admit};
use crate::room::put_both;
use crate::solo::SoloMachine;
use std::alloc::Global;
use std::sync::ledger::{Blank, Ledger};
use viz_run::InputError;
use vz_base::Memory;
use vz_base::limits::DEFAULT_BUFFERS;
use vz_buffers::Steps;
use vz_geom::Size;
use vz_player::play;
use vz_rules::{Event, Plan};

/// What the events leave: the bytes of the frames, and the text of the log.
#[derive(Drop)]
pub struct Left {
    pub frames: Vec<u8>,
    pub log: String,
}

/// Gives the events of a schedule to the machine with the plan of these files, and returns the
/// frames and the log. `blank` makes the counter of painted pixels.
///
/// The error is `Refused` for the first input that is refused, and otherwise `Memory`.
/// Conditions: 1 to `MOST_FILES` files, and sides that a display may have.
pub fn step<L: Ledger>(
    alloc: Global,
    blank: Blank,
    size: Size,
    schedule: &[u8],
    files: &[u8],
    lengths: &[usize],
) -> Result<Left, InputError>
    requires name { blank.name ≡ L.name }
    requires parts { blank.parts ≡ L.parts }
    requires owned { 0 < L.parts }
    requires some { 1 ≤ length lengths.now }
    requires few { length lengths.now ≤ MOST_FILES }
    requires size { IsDisplaySize size }
    ensures steps { IfOk result (λ left. AreStepped size (cut lengths.now files.now) schedule.now
        left.frames.items (string_bytes left.log)) }
    ensures refused { (r : Refusal) → IsErrOf result (input_error.Refused r)
        → schedule_refused_of size (cut lengths.now files.now) schedule.now ≡ Some r }
{
    let inputs = cut(alloc, files, lengths)?;
    let Given { plan, events } = admit(alloc, size, &inputs, schedule)?;
    let left = take::<L>(alloc, blank, size, plan, &events)?;
    Ok(left)
}

/// Gives events to the machine with a plan, and returns the frames and the log. `size` is that of
/// the plan's display.
fn take<L: Ledger>(
    alloc: Global,
    blank: Blank,
    size: Size,
    plan: Plan,
    events: &[Event],
) -> Result<Left, Memory>
    requires name { blank.name ≡ L.name }
    requires parts { blank.parts ≡ L.parts }
    requires owned { 0 < L.parts }
    requires size { plan.size ≡ size }
    requires sides { IsDisplaySize size }
    requires named { All (NamesClient plan) events.now }
    ensures { IfOk result (λ left. Leaves plan events.now
        left.frames.items (string_bytes left.log)) }
{
    let _ = plan.files();
    let machine = SoloMachine::open(alloc, plan)?;
    let mut steps = Steps::<L>::new(blank);
    let results = play(
        alloc,
        machine,
        size,
        events,
        DEFAULT_BUFFERS as u32,
        &mut steps,
    )?;
    let log = vz_journal::write(alloc, &results.history, &results.rest)?;
    Ok(Left {
        frames: results.frames,
        log,
    })
}

/// Puts the frames and the log into the rooms of the caller, and returns the answer. It puts
/// nothing if one of the rooms is too small.
pub fn tell_step(
    left: &Result<Left, InputError>,
    frames: &mut [u8],
    frames_len: &mut usize,
    log: &mut [u8],
    log_len: &mut usize,
    cause: &mut Cause,
) -> u32
    ensures told { IsStepTold left.now result
        (record { before = frames.old; after = frames.new; count = frames_len.new })
        (record { before = log.old; after = log.new; count = log_len.new }) cause.new }
    ensures lengths_kept { result ≢ viz.DONE → result ≢ viz.ROOM
        → (frames_len.new ≡ frames_len.old) × (log_len.new ≡ log_len.old) }
    ensures cause_kept { result ≢ viz.REFUSED → cause.new ≡ cause.old }
{
    match left {
        Ok(left) => tell_left(left, frames, frames_len, log, log_len),
        Err(error) => tell_error(error, cause),
    }
}

/// Puts the frames and the log into the rooms of the caller, and returns the answer.
fn tell_left(
    left: &Left,
    frames: &mut [u8],
    frames_len: &mut usize,
    log: &mut [u8],
    log_len: &mut usize,
) -> u32
    ensures { IsLeftTold left.now result
        (record { before = frames.old; after = frames.new; count = frames_len.new })
        (record { before = log.old; after = log.new; count = log_len.new }) }
{
    let text = left.log.as_bytes();
    if put_both(&left.frames, text, frames, frames_len, log, log_len) {
        DONE
    } else {
        ROOM
    }
}
