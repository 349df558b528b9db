//! Message files that are read, what they hold, and frames that are tested.
use crate::texts::{AGAIN, bytes_of, reads};
use std::alloc::Global;
use vz_codec::{decode, encode, fits};
use vz_frame::{ClientFile, CompositorFrame, Message, check};

/// Whether bytes are read, and written again as they were, or refused as is expected.
pub fn is_read(alloc: Global, pieces: &str, expected: &str) -> bool {
    let Some(bytes) = bytes_of(alloc, pieces) else {
        return false;
    };
    match decode(alloc, &bytes) {
        Ok(file) => expected == AGAIN && is_written(alloc, &file, &bytes),
        Err(error) => reads(alloc, &error, expected),
    }
}

/// Whether a file fits, and is written so.
fn is_written(alloc: Global, file: &ClientFile, bytes: &[u8]) -> bool {
    if !fits(file) {
        return false;
    }
    match encode(alloc, file) {
        Ok(again) => again.as_slice() == bytes,
        Err(_) => false,
    }
}

/// Whether the first frame of a file keeps the rules of a frame, or breaks the one that is expected.
pub fn is_tested(alloc: Global, pieces: &str, expected: &str) -> bool {
    let Some(bytes) = bytes_of(alloc, pieces) else {
        return false;
    };
    match decode(alloc, &bytes) {
        Ok(file) => is_frame_tested(alloc, &file, expected),
        Err(_) => false,
    }
}

/// Whether the first frame of a file keeps the rules, or breaks the one that is expected.
fn is_frame_tested(alloc: Global, file: &ClientFile, expected: &str) -> bool {
    match first_frame(file) {
        Some(frame) => match check(frame) {
            Ok(()) => expected == "keeps the rules",
            Err(rule) => reads(alloc, &rule, expected),
        },
        None => false,
    }
}

/// The first frame of a file.
fn first_frame(file: &ClientFile) -> Option<&CompositorFrame> {
    for message in &file.messages {
        if let Message::Submit { frame, .. } = message {
            return Some(frame.as_frame());
        }
    }
    None
}
