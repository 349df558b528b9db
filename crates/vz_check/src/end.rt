//! Checks what comes after the entries.
ghost use Rattle.std.specs.Prelude.{◌≡◌, Some, IfOk};
ghost use Rattle.vz_outside.specs.Shelved.{Reading, ReadsOnly, Behaves};
ghost use Rattle.vz_check.specs.Judged.{IsFoundAtEnd};

use crate::What;
use crate::frame::is_at_end;
use crate::line::{is_log, is_rest};
use std::alloc::Global;
use vz_outside::{Shelf, ShelfError};
use vz_slow::Slow;

/// The first fault of the text after the entries and of the bytes after the frames, if there is
/// one: the text is not in the grammar, it is not what the machine has outstanding, or bytes are
/// left. Condition: the slot is open for reading.
pub(crate) fn fault_at_end<F: Shelf>(
    alloc: Global,
    machine: &Slow<'_>,
    text: &[u8],
    shelf: &mut F,
    slot: u32,
) -> Result<Option<What>, ShelfError>
    requires { (F.shelved shelf.old).mode slot ≡ Some Reading }
    ensures found { IfOk result (λ what. IsFoundAtEnd machine.now text.now slot
        (F.shelved shelf.old) what) }
    ensures kept { ReadsOnly slot (F.shelved shelf.old) (F.shelved shelf.new) }
    ensures behaves { Behaves (F.shelved shelf.old) (F.shelved shelf.new) result }
{
    if !is_log(alloc, text)? {
        return Ok(Some(What::LogText));
    }
    if !is_rest(alloc, machine, text)? {
        return Ok(Some(What::Rest));
    }
    if !is_at_end(alloc, shelf, slot)? {
        return Ok(Some(What::Length));
    }
    Ok(None)
}
