//! Logs that are read.
use crate::texts::{AGAIN, lines_of, reads};
use std::alloc::Global;
use vz_frame::List;
use vz_journal::{read, write};
use vz_rules::{Entry, Rest};

/// Whether a text is read, and written again as it was, or refused as is expected.
pub fn is_read(alloc: Global, given: &str, expected: &str) -> bool {
    let Ok(text) = lines_of(alloc, given) else {
        return false;
    };
    match read(alloc, &text) {
        Ok((entries, rest)) => expected == AGAIN && are_written(alloc, &entries, &rest, &text),
        Err(error) => reads(alloc, &error, expected),
    }
}

/// Whether a history and what is out are written so.
fn are_written(alloc: Global, entries: &List<Entry>, rest: &Rest, text: &[u8]) -> bool {
    match write(alloc, entries, rest) {
        Ok(again) => again.as_bytes() == text,
        Err(_) => false,
    }
}
