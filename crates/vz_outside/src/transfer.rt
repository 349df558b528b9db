//! Reads and writes of whole texts, made of calls that each move a piece.
ghost use Rattle.std.specs.Prelude.{◌≡◌, ◌+◌, ◌<◌, ◌≤◌, ◌^◌, Some, take, vec_len, IfOk, OnOk, OnErr, IsErrOf};
ghost use Rattle.vz_outside.specs.Shelved.{Reading, Writing, Consumes, IsFront, ReadsOnly, KeepsOthers, Appends, AppendsFront, Behaves};
ghost use Rattle.vz_outside.specs.Sunk as sinks;
ghost use Rattle.vz_outside.specs.declared.shelf.ShelfError.TheVariants.{Failed};

use crate::{Shelf, ShelfError, Sink};
use std::alloc::Global;

/// How many bytes the buffer for a file has first. After that it is doubled.
const FIRST: usize = 8_192;

/// By how many bytes the buffer for a file grows at most in one turn.
const STRIDE: usize = 65_536;

/// Reads the rest of a slot's file, but at most `limit + 1` bytes, so that the caller sees if the
/// file is longer than the limit.
///
/// The error is `Failed` exactly if a fault was counted, and `Memory` if an allocation failed.
/// After either error, some of the bytes left to read were taken, possibly none.
pub fn read_upto<F: Shelf>(
    alloc: Global,
    shelf: &mut F,
    slot: u32,
    limit: usize,
) -> Result<Vec<u8>, ShelfError>
    requires open { (F.shelved shelf.old).mode slot ≡ Some Reading }
    requires limit { limit < 2 ^ 63 }
    ensures bounded { IfOk result (λ bytes. vec_len bytes ≤ limit + 1) }
    ensures front { IfOk result (λ bytes.
        IsFront (limit + 1) bytes.items slot (F.shelved shelf.old)) }
    ensures moved { IfOk result (λ bytes.
        Consumes bytes.items slot (F.shelved shelf.old) (F.shelved shelf.new)) }
    ensures kept { ReadsOnly slot (F.shelved shelf.old) (F.shelved shelf.new) }
    ensures behaves { Behaves (F.shelved shelf.old) (F.shelved shelf.new) result }
{
    let mut bytes = Vec::new(alloc);
    let mut filled = 0;
    while filled <= limit {
        make_room(&mut bytes, filled, limit)?;
        let taken = shelf.read(slot, &mut bytes[filled..])?;
        if taken == 0 {
            break;
        }
        filled += taken;
    }
    bytes.truncate(filled);
    Ok(bytes)
}

/// Makes sure that there is room after the `filled` bytes, for at most `limit + 1` bytes in
/// total.
fn make_room(bytes: &mut Vec<u8>, filled: usize, limit: usize) -> Result<(), ShelfError>
    requires filled { filled ≤ vec_len bytes.old }
    requires room { filled ≤ limit }
    requires limit { limit < 2 ^ 63 }
    requires bounded { vec_len bytes.old ≤ limit + 1 }
    ensures kept { take filled bytes.new.items ≡ take filled bytes.old.items }
    ensures more { OnOk result (filled < vec_len bytes.new) }
    ensures bounded { vec_len bytes.new ≤ limit + 1 }
    ensures memory { IsErrOf result Failed → ⊥ }
{
    if bytes.len() > filled {
        return Ok(());
    }
    let more = filled.max(FIRST).min(STRIDE).min(limit + 1 - filled);
    bytes.resize(filled + more, 0)?;
    Ok(())
}

/// Appends all bytes to a slot's file, in as many calls as it takes.
///
/// The error is `Failed` exactly if a fault was counted, and `Memory` if an allocation failed.
/// After either error a front part of the bytes was written, possibly none or all.
pub fn write_all<F: Shelf>(shelf: &mut F, slot: u32, bytes: &[u8]) -> Result<(), ShelfError>
    requires open { (F.shelved shelf.old).mode slot ≡ Some Writing }
    ensures appended { OnOk result (Appends bytes.now ((F.shelved shelf.old).name slot)
        (F.shelved shelf.old) (F.shelved shelf.new)) }
    ensures begun { OnErr result (AppendsFront bytes.now ((F.shelved shelf.old).name slot)
        (F.shelved shelf.old) (F.shelved shelf.new)) }
    ensures others { KeepsOthers ((F.shelved shelf.old).name slot)
        (F.shelved shelf.old) (F.shelved shelf.new) }
    ensures behaves { Behaves (F.shelved shelf.old) (F.shelved shelf.new) result }
{
    let mut written = 0;
    while written < bytes.len() {
        written += shelf.write(slot, &bytes[written..])?;
    }
    Ok(())
}

/// Prints all bytes, in as many calls as it takes.
///
/// The error is `Failed` exactly if a fault was counted, and `Memory` if an allocation failed.
/// After either error a front part of the bytes was printed, possibly none or all.
pub fn print<O: Sink>(out: &mut O, bytes: &[u8]) -> Result<(), ShelfError>
    ensures taken { OnOk result (sinks.Takes bytes.now (O.sunk out.old) (O.sunk out.new)) }
    ensures begun { OnErr result (sinks.TakesFront bytes.now (O.sunk out.old) (O.sunk out.new)) }
    ensures behaves { sinks.Behaves (O.sunk out.old) (O.sunk out.new) result }
{
    let mut printed = 0;
    while printed < bytes.len() {
        printed += out.write(&bytes[printed..])?;
    }
    Ok(())
}
