//! What a call left, compared with what must be.
use crate::call::Left;
use crate::file::File;
use crate::row::{LOG, Row};

/// The name of the file that frames are written to.
pub const FRAMES: &str = "f";

/// What differs first: the status, the line, the entries, the steps or a file. Of a row that is judged
/// the steps are not compared, and the status alone where no file must be left.
pub fn difference(row: &Row<'_>, left: &Left) -> Option<&'static str> {
    if u32::from(left.run.status) != row.status {
        return Some("status");
    }
    if !row.judge.is_empty() && row.left.is_empty() {
        return None;
    }
    if !is_line(left.sink.bytes(), row.line.as_bytes()) {
        return Some("line");
    }
    if left.run.history.as_slice().len() != row.entries as usize {
        return Some("entries");
    }
    if row.judge.is_empty() && left.steps != u64::from(row.steps) {
        return Some("steps");
    }
    difference_of_files(row, left)
}

/// The first file that differs.
fn difference_of_files(row: &Row<'_>, left: &Left) -> Option<&'static str> {
    if !has_file(row, left, FRAMES) {
        return Some("frames");
    }
    if !has_log(row, left) {
        return Some("log");
    }
    if !has_files(row, left, &row.given) || !has_files(row, left, &row.left) {
        return Some("another file");
    }
    None
}

/// Whether bytes are a line and its line feed, or none where there is no line.
pub fn is_line(bytes: &[u8], line: &[u8]) -> bool {
    match bytes.split_last() {
        Some((last, front)) => *last == b'\n' && front == line && !line.is_empty(),
        None => line.is_empty(),
    }
}

/// Whether the log is one of those that may be left, or as another file where the row tells none.
pub fn has_log(row: &Row<'_>, left: &Left) -> bool {
    let text = left.shelf.bytes_of(LOG);
    for log in &row.logs {
        if text == due_log(row, log) {
            return true;
        }
    }
    false
}

/// Whether the log is a front part of one of those that may be left, or is not there.
pub fn has_log_front(row: &Row<'_>, left: &Left) -> bool {
    let text = left.shelf.bytes_of(LOG).unwrap_or_default();
    for log in &row.logs {
        if due_log(row, log).unwrap_or_default().starts_with(text) {
            return true;
        }
    }
    false
}

/// The bytes of a log that a row tells, and where it tells none, those of the file of that name.
fn due_log<'r>(row: &'r Row<'_>, log: &'r str) -> Option<&'r [u8]> {
    if log.is_empty() {
        row.due(LOG)
    } else {
        Some(log.as_bytes())
    }
}

/// Whether a file is as it must be.
fn has_file(row: &Row<'_>, left: &Left, name: &str) -> bool {
    if name == LOG {
        has_log(row, left)
    } else {
        left.shelf.bytes_of(name) == row.due(name)
    }
}

/// Whether each of these files is as it must be.
pub fn has_files(row: &Row<'_>, left: &Left, files: &[File]) -> bool {
    for file in files {
        if !has_file(row, left, &file.0) {
            return false;
        }
    }
    true
}
