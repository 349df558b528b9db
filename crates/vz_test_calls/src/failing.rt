//! Devices that fail: each call of the shelf in turn, and that of the sink.
use crate::call::{Failing, Left, left_by};
use crate::compare::{FRAMES, has_files, has_log, has_log_front};
use crate::row::{LOG, Row};
use std::alloc::AllocError;
use std::sync::Wait;
use std::sync::ledger::Ledger;
use std::thread::Threads;
use vz_buffers::Steps;

/// More calls than a row makes, also in pieces of one byte.
const MANY: u64 = 3000;

/// How many calls of the shelf a row makes. None where one of them that fails, or the one call of
/// the sink, does not leave what it must.
pub fn calls_of_shelf<L: Ledger, R: Threads + Wait + AllocGlobal + Sync>(
    rt: &R,
    row: &Row<'_>,
    steps: &mut Steps<L>,
) -> Result<Option<u64>, AllocError> {
    if !misses_line(rt, row, steps)? {
        return Ok(None);
    }
    for shelf in 1..MANY {
        let left = left_by(rt, row, Failing { shelf, sink: 0 }, steps)?;
        if u32::from(left.run.status) == row.status {
            return Ok(Some(shelf - 1));
        }
        if !is_cut_short(row, &left) {
            return Ok(None);
        }
    }
    Ok(None)
}

/// Whether everything but the line is left where the call of the sink fails, and a second call is
/// not made.
fn misses_line<L: Ledger, R: Threads + Wait + AllocGlobal + Sync>(
    rt: &R,
    row: &Row<'_>,
    steps: &mut Steps<L>,
) -> Result<bool, AllocError> {
    let left = left_by(rt, row, Failing { shelf: 0, sink: 1 }, steps)?;
    let again = left_by(rt, row, Failing { shelf: 0, sink: 2 }, steps)?;
    Ok(
        is_cut_short(row, &left)
            && left.run.history.as_slice().len() == row.entries as usize
            && left.shelf.bytes_of(FRAMES) == row.due(FRAMES)
            && has_log(row, &left)
            && u32::from(again.run.status) == row.status,
    )
}

/// Whether a fault cut the call short: files are front parts of what they must be, the log is begun
/// only where the frames are whole, the other files are as they were, and nothing was printed.
fn is_cut_short(row: &Row<'_>, left: &Left) -> bool {
    left.run.status == 4
        && left.run.history.as_slice().len() <= row.entries as usize
        && left.sink.bytes().is_empty()
        && are_begun(row, left)
        && has_files(row, left, &row.given)
}

/// Whether each file that is written has a front part of the bytes that it must have, and the log
/// none where the frames are not whole.
fn are_begun(row: &Row<'_>, left: &Left) -> bool {
    for file in &row.left {
        if !is_begun(row, left, &file.0) {
            return false;
        }
    }
    let log = left.shelf.bytes_of(LOG).unwrap_or_default();
    has_log_front(row, left) && (log.is_empty() || left.shelf.bytes_of(FRAMES) == row.due(FRAMES))
}

/// Whether a file has a front part of the bytes that it must have, or is not there.
fn is_begun(row: &Row<'_>, left: &Left, name: &str) -> bool {
    let due = row.due(name).unwrap_or_default();
    let part = left.shelf.bytes_of(name).unwrap_or_default();
    due.starts_with(part)
}
