//! Writes the log.
ghost use Rattle.std.specs.Prelude.{◌≡◌, Some, OnOk, OnErr, string_bytes};
ghost use Rattle.vz_outside.specs.Shelved.{Writing, KeepsOthers, Appends, AppendsFront, Behaves};
ghost use Rattle.vz_rules.specs.Log.{log_text};
ghost use Rattle.vz_player.specs.Written.{AppendsPart};

use std::alloc::Global;
use vz_frame::List;
use vz_journal::{push_entry, push_rest};
use vz_outside::{Shelf, ShelfError, write_all};
use vz_rules::{Entry, Rest};

/// A log is written in pieces that have this many bytes, and at most one line more.
const PIECE_BYTES: usize = 32_768;

/// How many bytes there is room for at first. Nearly all lines are shorter than what it has more
/// than a piece.
const ROOM_BYTES: usize = 36_864;

/// Appends to a slot's file the log of a history and of what is outstanding at its end. The
/// errors are those of the shelf, and `Memory`; after an error a front part of the log was
/// written, possibly none. Condition: the slot is open for writing.
pub fn write_log<F: Shelf>(
    alloc: Global,
    shelf: &mut F,
    slot: u32,
    history: &List<Entry>,
    rest: &Rest,
) -> Result<(), ShelfError>
    requires open { (F.shelved shelf.old).mode slot ≡ Some Writing }
    ensures appended { OnOk result (Appends (log_text history.now rest.now)
        ((F.shelved shelf.old).name slot) (F.shelved shelf.old) (F.shelved shelf.new)) }
    ensures begun { OnErr result (AppendsFront (log_text history.now rest.now)
        ((F.shelved shelf.old).name slot) (F.shelved shelf.old) (F.shelved shelf.new)) }
    ensures others { KeepsOthers ((F.shelved shelf.old).name slot)
        (F.shelved shelf.old) (F.shelved shelf.new) }
    ensures behaves { Behaves (F.shelved shelf.old) (F.shelved shelf.new) result }
{
    let mut text = String::with_capacity(alloc, ROOM_BYTES)?;
    let entries = history.as_slice();
    for entry in entries {
        push_entry(&mut text, entry)?;
        write_piece(shelf, slot, &mut text)?;
    }
    push_rest(&mut text, rest)?;
    write_all(shelf, slot, text.as_bytes())?;
    Ok(())
}

/// Writes a text that is as long as a piece, and empties it. A shorter one stays as it is.
fn write_piece<F: Shelf>(shelf: &mut F, slot: u32, text: &mut String) -> Result<(), ShelfError>
    requires open { (F.shelved shelf.old).mode slot ≡ Some Writing }
    ensures appended { OnOk result (AppendsPart (string_bytes text.old) (string_bytes text.new)
        ((F.shelved shelf.old).name slot) (F.shelved shelf.old) (F.shelved shelf.new)) }
    ensures begun { OnErr result (AppendsFront (string_bytes text.old)
        ((F.shelved shelf.old).name slot) (F.shelved shelf.old) (F.shelved shelf.new)) }
    ensures others { KeepsOthers ((F.shelved shelf.old).name slot)
        (F.shelved shelf.old) (F.shelved shelf.new) }
    ensures behaves { Behaves (F.shelved shelf.old) (F.shelved shelf.new) result }
{
    if text.len() < PIECE_BYTES {
        return Ok(());
    }
    write_all(shelf, slot, text.as_bytes())?;
    text.clear();
    Ok(())
}
