//! Room that is reserved before a step begins.
ghost use Rattle.std.specs.Prelude.{◌≡◌, ◌≤◌, OnOk, OnErr};

use std::alloc::AllocError;
use vz_frame::Room;

/// Makes room for at least `n` more items. If an allocation fails, nothing changes. The list
/// itself never changes.
pub fn make_room<T>(room: &mut Room<T>, n: usize) -> Result<(), AllocError>
    ensures list { room.new.list ≡ room.old.list }
    ensures ok { OnOk result (n ≤ room.new.spare) }
    ensures err { OnErr result (room.new ≡ room.old) }
{
    match room.reserve(n) {
        Ok(()) => Ok(()),
        Err(_) => Err(AllocError),
    }
}
