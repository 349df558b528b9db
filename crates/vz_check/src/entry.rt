//! Checks one entry.
ghost use Rattle.std.specs.Prelude.{◌≡◌, Some, IfOk};
ghost use Rattle.vz_outside.specs.Shelved.{Reading, ReadsOnly, Behaves};
ghost use Rattle.vz_check.specs.Judged.{IsFound};

use crate::What;
use crate::frame::reads_picture;
use crate::line::{is_line, names_client};
use crate::step::take;
use std::alloc::Global;
use vz_outside::{Shelf, ShelfError};
use vz_rules::{Event, Plan};
use vz_slow::Slow;

/// The first fault of an entry with this event and this line, if it has one: the plan has no such
/// client, the machine would write another line, or the next bytes of the slot are not the frame
/// that it drew. The machine takes the step if it can, and the frame is read. Conditions: the
/// machine is one of the plan, and the slot is open for reading.
pub(crate) fn fault_of<F: Shelf>(
    alloc: Global,
    plan: &Plan,
    machine: &mut Slow<'_>,
    event: Event,
    line: &[u8],
    shelf: &mut F,
    slot: u32,
) -> Result<Option<What>, ShelfError>
    requires plan { machine.old.plan ≡ plan.now }
    requires open { (F.shelved shelf.old).mode slot ≡ Some Reading }
    ensures found { IfOk result (λ what. IsFound machine.old event line.now slot
        (F.shelved shelf.old) (F.shelved shelf.new) machine.new what) }
    ensures plan { machine.new.plan ≡ machine.old.plan }
    ensures kept { ReadsOnly slot (F.shelved shelf.old) (F.shelved shelf.new) }
    ensures behaves { Behaves (F.shelved shelf.old) (F.shelved shelf.new) result }
{
    if !names_client(plan, event) {
        return Ok(Some(What::Reply));
    }
    let (made, pixels) = take(machine, event)?;
    if !is_line(alloc, &made, line)? {
        return Ok(Some(What::Reply));
    }
    if !reads_picture(alloc, &pixels, shelf, slot)? {
        return Ok(Some(What::Frame));
    }
    Ok(None)
}
