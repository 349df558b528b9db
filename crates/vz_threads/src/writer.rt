//! What the thread does that writes the frames of a run.
ghost use Rattle.std.specs.Prelude.{◌≡◌, [], Some, OnOk, OnErr};
ghost use mathlib.Core.List.{IsPrefix};
ghost use Rattle.vz_outside.specs.Shelved.{Writing, KeepsOthers, Behaves};
ghost use Rattle.vz_threads.specs.Pipes.{bytes_of, Wrote, WritesLeft, BeginsLeft, IsWrittenOn};

use crate::progress::Progress;
use std::sync::Wait;
use vz_buffers::SharedBuffer;
use vz_outside::{Gate, Shelf, ShelfError, write_all};
use vz_pipe::{Receiver, Sent};

/// The number by which a gate knows the writer.
const WRITER: u32 = 17;

/// Tells that it begins, calls the gate once, and then writes the frames of a pipe until the
/// sender is shut. After an error it tells so, and takes the further frames without writing them.
/// Conditions: no frame was taken yet, and the slot is open for writing.
pub(crate) fn write_frames<F: Shelf, G: Gate, R: Wait>(
    rt: &R,
    gate: &G,
    progress: &Progress,
    receiver: &mut Receiver<SharedBuffer>,
    shelf: &mut F,
    slot: u32,
) -> Result<(), ShelfError>
    requires open { (F.shelved shelf.old).mode slot ≡ Some Writing }
    requires none { receiver.old.taken ≡ [] }
    ensures pipe { receiver.new.pipe ≡ receiver.old.pipe }
    ensures wrote { Wrote (bytes_of receiver.new.taken) slot (F.shelved shelf.old)
        (F.shelved shelf.new) result }
{
    progress.begin(rt);
    gate.before(WRITER, 1);
    progress.write(rt);
    match write_taken(rt, progress, receiver, shelf, slot) {
        Ok(()) => {
            progress.end(rt);
            Ok(())
        }
        Err(error) => {
            progress.fail(rt);
            skip_all(rt, receiver);
            Err(error)
        }
    }
}

/// Writes each frame that comes, until the sender is shut or a call of the shelf fails.
fn write_taken<F: Shelf, R: Wait>(
    rt: &R,
    progress: &Progress,
    receiver: &mut Receiver<SharedBuffer>,
    shelf: &mut F,
    slot: u32,
) -> Result<(), ShelfError>
    requires open { (F.shelved shelf.old).mode slot ≡ Some Writing }
    requires none { receiver.old.taken ≡ [] }
    ensures pipe { receiver.new.pipe ≡ receiver.old.pipe }
    ensures wrote { Wrote (bytes_of receiver.new.taken) slot (F.shelved shelf.old)
        (F.shelved shelf.new) result }
{
    for _ in rt.forever() {
        let Some(frame) = receiver.take(rt) else {
            break;
        };
        write_all(shelf, slot, frame.bytes())?;
        drop(frame);
        progress.wrote(rt);
    }
    Ok(())
}

/// Writes the frames that were not taken, once the sender has ended. Conditions: `sent` is what
/// the sender of this pipe left, and the slot is open for writing.
pub(crate) fn write_left<F: Shelf, R: Wait>(
    rt: &R,
    receiver: &mut Receiver<SharedBuffer>,
    sent: &mut Sent<SharedBuffer>,
    shelf: &mut F,
    slot: u32,
) -> Result<(), ShelfError>
    requires open { (F.shelved shelf.old).mode slot ≡ Some Writing }
    requires pipe { sent.old.pipe ≡ receiver.old.pipe }
    ensures written { OnOk result (WritesLeft receiver.old.taken sent.old.sent
        ((F.shelved shelf.old).name slot) (F.shelved shelf.old) (F.shelved shelf.new)) }
    ensures begun { OnErr result (BeginsLeft receiver.old.taken sent.old.sent
        ((F.shelved shelf.old).name slot) (F.shelved shelf.old) (F.shelved shelf.new)) }
    ensures others { KeepsOthers ((F.shelved shelf.old).name slot)
        (F.shelved shelf.old) (F.shelved shelf.new) }
    ensures behaves { Behaves (F.shelved shelf.old) (F.shelved shelf.new) result }
{
    for _ in rt.forever() {
        let Some(frame) = receiver.left(rt, sent) else {
            break;
        };
        write_all(shelf, slot, frame.bytes())?;
    }
    Ok(())
}

/// After the writer and the display have ended, writes the frames that were not taken, unless one
/// of the two failed. Then it returns that error, the writer's first. Conditions: those of
/// `write_left`.
pub(crate) fn write_rest<F: Shelf, R: Wait>(
    rt: &R,
    wrote: Result<(), ShelfError>,
    played: Result<(), ShelfError>,
    receiver: &mut Receiver<SharedBuffer>,
    sent: &mut Sent<SharedBuffer>,
    shelf: &mut F,
    slot: u32,
) -> Result<(), ShelfError>
    requires open { (F.shelved shelf.old).mode slot ≡ Some Writing }
    requires pipe { sent.old.pipe ≡ receiver.old.pipe }
    ensures { IsWrittenOn wrote played result receiver.old.taken sent.old.sent slot
        (F.shelved shelf.old) (F.shelved shelf.new) }
{
    match wrote {
        Ok(()) => match played {
            Ok(()) => write_left(rt, receiver, sent, shelf, slot),
            Err(error) => {
                receiver.compare(sent);
                Err(error)
            }
        },
        Err(error) => {
            receiver.compare(sent);
            Err(error)
        }
    }
}

/// Takes the frames that still come, until the sender is shut.
fn skip_all<R: Wait>(rt: &R, receiver: &mut Receiver<SharedBuffer>)
    ensures pipe { receiver.new.pipe ≡ receiver.old.pipe }
    ensures longer { IsPrefix receiver.old.taken receiver.new.taken }
{
    for _ in rt.forever() {
        if receiver.take(rt).is_none() {
            break;
        }
    }
}
