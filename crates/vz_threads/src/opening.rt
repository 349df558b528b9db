//! What a run prepares before its threads start.
ghost use Rattle.std.specs.Prelude.{◌≡◌, ◌≤◌, [], length, vec_capacity, IfOk};
ghost use Rattle.vz_base.specs.declared.limits.TheConstants.{MOST_FILES};
ghost use Rattle.vz_rules.specs.World.{opening};
ghost use Rattle.vz_rules.specs.Plan.{message_counts};
ghost use Rattle.vz_threads.specs.Runs.{IsOpened};

use crate::crew::Started;
use crate::halt::Halt;
use std::alloc::Global;
use std::sync::atomic::AtomicBool;
use vz_base::Memory;
use vz_desk::{Desk, DisplayEnd, End};
use vz_machine::Machine;
use vz_outside::Gate;

/// A desk with its ends, and the room and the flags for the threads.
pub(crate) struct Opened<M: Machine + Send, G: Gate> {
    pub(crate) desk: Desk<M, Halt>,
    pub(crate) ends: Vec<End<M, Halt>>,
    pub(crate) display: DisplayEnd<M, Halt>,
    pub(crate) started: Vec<Started<M, G>>,
    pub(crate) refused: Vec<AtomicBool>,
}

/// Makes a desk of a machine, with room and a flag for the thread of each client. The only error
/// is `Memory`, and then the machine is lost. Conditions: the machine is in the opening world of
/// its plan, which has at most `MOST_FILES` files, and `messages` has the number of messages of
/// each.
pub(crate) fn open_run<M: Machine + Send + Drop, G: Gate>(
    alloc: Global,
    machine: M,
    messages: &[u64],
) -> Result<Opened<M, G>, Memory>
where
    M::Picture: Send,
    requires opening { (M.state machine).world ≡ opening (M.state machine).plan }
    requires files { length (M.state machine).plan.files ≤ MOST_FILES }
    requires counts { messages.now ≡ message_counts (M.state machine).plan }
    ensures opened { IfOk result (λ o. IsOpened (M.state machine).plan messages.now o.desk.id
        o.desk.callers o.ends.items o.display) }
    ensures room { IfOk result (λ o. (o.started.items ≡ [])
        × (length messages.now ≤ vec_capacity o.started)) }
    ensures flags { IfOk result (λ o. length o.refused.items ≡ length messages.now) }
{
    let refused = flags_for(alloc, messages.len())?;
    let started = Vec::with_capacity(alloc, messages.len())?;
    let (desk, ends, display) = Desk::open(alloc, machine, messages.len() as u32)?;
    Ok(Opened {
        desk,
        ends,
        display,
        started,
        refused,
    })
}

/// Makes `count` flags, none of them set.
fn flags_for(alloc: Global, count: usize) -> Result<Vec<AtomicBool>, Memory>
    ensures { IfOk result (λ flags. length flags.items ≡ count) }
{
    let mut flags = Vec::with_capacity(alloc, count)?;
    for _ in 0..count {
        flags.push_reserved(AtomicBool::new(false));
    }
    Ok(flags)
}
