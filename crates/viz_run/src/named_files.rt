//! Named files, read whole.
ghost use Rattle.std.specs.Prelude.{◌≡◌, ◌^◌, ◌<◌, ◌≤◌, ◌+◌, length, vec_len, IfOk};
ghost use Rattle.vz_outside.specs.Shelved.{IsMissing, SameFiles, BehavesUnless};
ghost use Rattle.viz_run.specs.Read.{IsReadUpto, AreReadUpto, MissesOne, texts, contents};

use std::alloc::Global;
use vz_outside::{Shelf, ShelfError, read_upto};

/// Reads a named file whole, but at most `limit + 1` bytes, so that the caller sees if the file
/// is longer than the limit. No file's bytes change.
///
/// The error is `Failed` exactly if the shelf counted a fault, as it does if no file has the
/// name, and `Memory` if an allocation failed.
pub fn read_file<F: Shelf>(
    alloc: Global,
    shelf: &mut F,
    name: &str,
    limit: usize,
) -> Result<Vec<u8>, ShelfError>
    requires { limit < 2 ^ 63 }
    ensures read { IfOk result (λ bytes.
        IsReadUpto limit name.now bytes.items (F.shelved shelf.old)) }
    ensures bounded { IfOk result (λ bytes. vec_len bytes ≤ limit + 1) }
    ensures files { SameFiles (F.shelved shelf.old) (F.shelved shelf.new) }
    ensures behaves { BehavesUnless (IsMissing name.now (F.shelved shelf.old))
        (F.shelved shelf.old) (F.shelved shelf.new) result }
{
    let slot = shelf.open(name)?;
    let bytes = read_upto(alloc, shelf, slot, limit)?;
    Ok(bytes)
}

/// Reads named files one after the other, each whole, but at most `limit + 1` bytes of it. The
/// answer has their bytes in the order of the names. No file's bytes change. The errors are those
/// of `read_file`.
pub fn read_files<F: Shelf>(
    alloc: Global,
    shelf: &mut F,
    names: &[String],
    limit: usize,
) -> Result<Vec<Vec<u8>>, ShelfError>
    requires { limit < 2 ^ 63 }
    ensures read { IfOk result (λ files.
        AreReadUpto limit (texts names.now) (contents files.items) (F.shelved shelf.old)) }
    ensures all { IfOk result (λ files. length files.items ≡ length names.now) }
    ensures files { SameFiles (F.shelved shelf.old) (F.shelved shelf.new) }
    ensures behaves { BehavesUnless (MissesOne (texts names.now) (F.shelved shelf.old))
        (F.shelved shelf.old) (F.shelved shelf.new) result }
{
    let mut files = Vec::new(alloc);
    for name in names {
        let bytes = read_file(alloc, shelf, name.as_str(), limit)?;
        files.push(bytes)?;
    }
    Ok(files)
}
