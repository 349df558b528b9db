//! Writes client files.
ghost use Rattle.std.specs.Prelude.{IsTrue, OnOk, OnErr};
ghost use Rattle.vz_codec.specs.Spelling.{file_bytes};
ghost use Rattle.vz_frame.specs.Fits.{fits_file};
ghost use Rattle.vz_outside.specs.Shelved.{Holds, KeepsOthers, Behaves};
ghost use Rattle.vz_player.specs.Written.{HasFront};

use std::alloc::Global;
use vz_codec::encode;
use vz_frame::ClientFile;
use vz_outside::{Shelf, ShelfError, write_all};

/// Writes a client's file to a file with this name, and replaces one that is there. The errors
/// are those of the shelf, and `Memory`; after an error the named file is as before, or has a
/// front part of the bytes. Condition: the client's file fits the format.
pub fn write_file<F: Shelf>(
    alloc: Global,
    shelf: &mut F,
    name: &str,
    file: &ClientFile,
) -> Result<(), ShelfError>
    requires { IsTrue (fits_file file.now) }
    ensures whole { OnOk result (Holds (file_bytes file.now) name.now (F.shelved shelf.new)) }
    ensures begun { OnErr result (HasFront name.now (file_bytes file.now)
        (F.shelved shelf.old) (F.shelved shelf.new)) }
    ensures others { KeepsOthers name.now (F.shelved shelf.old) (F.shelved shelf.new) }
    ensures behaves { Behaves (F.shelved shelf.old) (F.shelved shelf.new) result }
{
    let bytes = encode(alloc, file)?;
    let slot = shelf.create(name)?;
    write_all(shelf, slot, &bytes)?;
    Ok(())
}
