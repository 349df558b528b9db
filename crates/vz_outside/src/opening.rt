//! What shelves have in common when they open a slot.
ghost use Rattle.std.specs.Prelude.{◌≡◌, ◌<◌, IfOk, OnOk, IsErrOf, vec_len, vec_capacity};
ghost use Rattle.vz_outside.specs.declared.shelf.ShelfError.TheVariants.{Failed};

use crate::ShelfError;

/// Makes room for one more slot, and returns its number. The only error is `Memory`: an
/// allocation failed, or the number is no `u32`.
pub fn room_for_slot<T>(slots: &mut Vec<T>) -> Result<u32, ShelfError>
    ensures number { IfOk result (λ slot. slot ≡ vec_len slots.old) }
    ensures room { OnOk result (vec_len slots.new < vec_capacity slots.new) }
    ensures items { slots.new.items ≡ slots.old.items }
    ensures memory { IsErrOf result Failed → ⊥ }
{
    let number = u32::try_from(slots.len()).map_err(|_| ShelfError::Memory)?;
    slots.reserve(1)?;
    Ok(number)
}
