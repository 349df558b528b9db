//! How operations are appended to a list.
ghost use Rattle.std.specs.Prelude.{◌≡◌, ◌++◌, ◌<◌, ◌∷◌, [], OnOk, vec_len, vec_capacity};

use crate::Op;
use vz_base::Memory;

/// The least number of places that are reserved at once: as many operations as small scenes have.
const MORE: usize = 16;

/// Reserves more places.
pub(crate) fn grow(ops: &mut Vec<Op>) -> Result<(), Memory>
    ensures room { OnOk result (vec_len ops.new < vec_capacity ops.new) }
    ensures same { OnOk result (ops.new.items ≡ ops.old.items) }
{
    ops.try_reserve(MORE)?;
    Ok(())
}

/// Reserves more places if none is free.
fn make_room(ops: &mut Vec<Op>) -> Result<(), Memory>
    ensures room { OnOk result (vec_len ops.new < vec_capacity ops.new) }
    ensures same { OnOk result (ops.new.items ≡ ops.old.items) }
{
    if ops.len() < ops.capacity() {
        return Ok(());
    }
    grow(ops)?;
    Ok(())
}

/// Appends an operation.
pub(crate) fn put(ops: &mut Vec<Op>, op: Op) -> Result<(), Memory>
    ensures { OnOk result (ops.new.items ≡ ops.old.items ++ op ∷ []) }
{
    make_room(ops)?;
    ops.push_reserved(op);
    Ok(())
}
