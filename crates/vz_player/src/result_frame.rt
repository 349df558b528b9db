//! The bytes of the frames that a display shows.
ghost use Rattle.std.specs.Prelude.{OnOk, IsSome};
ghost use Rattle.vz_display.specs.Displayed.{current};
ghost use Rattle.vz_player.specs.Puts.{PutsFrame};

use vz_base::Memory;
use vz_display::Display;

/// Appends the bytes of the display's current frame to `frames`: the rows from top to bottom, and
/// four bytes a pixel. Condition: a picture was shown. The only error is `Memory`.
pub fn push_frame(display: &Display, frames: &mut Vec<u8>) -> Result<(), Memory>
    requires { IsSome (current display.now.shown) }
    ensures { OnOk result
        (PutsFrame display.now.shown frames.old.items frames.new.items) }
{
    frames.extend_from_slice(display.bytes())?;
    Ok(())
}
