//! Writes frames.
ghost use Rattle.std.specs.Prelude.{◌≡◌, Some, OnOk, OnErr};
ghost use Rattle.std.specs.List.{flat_map};
ghost use Rattle.vz_outside.specs.Shelved.{Writing, KeepsOthers, Appends, AppendsFront, Behaves};
ghost use Rattle.vz_rules.specs.Frames.{pixel_bytes};
ghost use Rattle.vz_player.specs.Shown.{ShowsFrame, frame_on};

use vz_display::Display;
use vz_geom::Size;
use vz_outside::{Shelf, ShelfError, write_all};

/// The slot of the file to which frames are written, and the size of each frame in pixels.
#[derive(Clone, Copy, Debug, PartialEq, Eq)]
pub struct FrameFile {
    pub slot: u32,
    pub size: Size,
}

/// Appends the frame that a display shows to a file: the rows from top to bottom, and for each
/// pixel the bytes red, green, blue and alpha. The errors are those of the shelf; after an error a
/// front part of the frame was written, possibly none. Conditions: the slot is open for writing,
/// the display has the size of the frames, and it shows a frame.
///
/// The shelf gets the bytes of the display's buffer themselves, so that nothing is allocated and
/// one call writes a frame if the shelf takes it whole.
pub fn write_frame<F: Shelf>(
    shelf: &mut F,
    file: FrameFile,
    display: &Display,
) -> Result<(), ShelfError>
    requires open { (F.shelved shelf.old).mode file.slot ≡ Some Writing }
    requires size { display.now.shown.turns.size ≡ file.size }
    requires shows { ShowsFrame display.now.shown }
    ensures appended { OnOk result (Appends (flat_map pixel_bytes (frame_on display.now.shown))
        ((F.shelved shelf.old).name file.slot) (F.shelved shelf.old) (F.shelved shelf.new)) }
    ensures begun { OnErr result (AppendsFront (flat_map pixel_bytes (frame_on display.now.shown))
        ((F.shelved shelf.old).name file.slot) (F.shelved shelf.old) (F.shelved shelf.new)) }
    ensures others { KeepsOthers ((F.shelved shelf.old).name file.slot)
        (F.shelved shelf.old) (F.shelved shelf.new) }
    ensures behaves { Behaves (F.shelved shelf.old) (F.shelved shelf.new) result }
{
    write_all(shelf, file.slot, frame_bytes(display))
}

/// The bytes of the frame that a display shows.
fn frame_bytes(display: &Display) -> &[u8]
    requires { ShowsFrame display.now.shown }
    ensures { result.now ≡ flat_map pixel_bytes (frame_on display.now.shown) }
{
    display.bytes()
}
