//! The two files that `step` writes, created.
ghost use Rattle.std.specs.Prelude.{◌≢◌, [], ◌∷◌, IfOk, OnErr};
ghost use Rattle.vz_outside.specs.Shelved.{Behaves};
ghost use Rattle.vz_player.specs.Written.{HasFront, IsOut, KeepsAllBut};

use vz_outside::{Shelf, ShelfError};

/// The slots of the file of the frames and of the file of the log, both open for writing.
#[derive(Clone, Copy, Debug, PartialEq, Eq)]
pub struct Outputs {
    pub frames: u32,
    pub log: u32,
}

/// Creates the file of the frames and that of the log, both empty. Condition: their names differ.
/// The errors are those of the shelf; after an error each file is as before or empty.
pub fn create_outputs<F: Shelf>(
    shelf: &mut F,
    frames: &str,
    log: &str,
) -> Result<Outputs, ShelfError>
    requires { frames.now ≢ log.now }
    ensures frames { IfOk result (λ outputs.
        IsOut frames.now outputs.frames [] (F.shelved shelf.new)) }
    ensures log { IfOk result (λ outputs. IsOut log.now outputs.log [] (F.shelved shelf.new)) }
    ensures no_frames { OnErr result
        (HasFront frames.now [] (F.shelved shelf.old) (F.shelved shelf.new)) }
    ensures no_log { OnErr result
        (HasFront log.now [] (F.shelved shelf.old) (F.shelved shelf.new)) }
    ensures others { KeepsAllBut (frames.now ∷ log.now ∷ [])
        (F.shelved shelf.old) (F.shelved shelf.new) }
    ensures behaves { Behaves (F.shelved shelf.old) (F.shelved shelf.new) result }
{
    let frames = shelf.create(frames)?;
    let log = shelf.create(log)?;
    Ok(Outputs { frames, log })
}
