//! The files of the system, and what errors say.
use crate::texts::reads;
use std::alloc::Global;
use std::{fs, process};
use vz_codec::DecodeError;
use vz_journal::LogError;
use vz_outside::{RealShelf, RealSink, Shelf, ShelfError, print, read_upto, write_all};

/// Whether a text that is written under a name is read back. The number of the process is put behind the name.
pub fn gives_back(rt: &HostRuntime, name: &str, text: &str) -> bool {
    match format!(in rt.alloc(); "{name}{}", process::id(rt.process())) {
        Ok(name) => is_given_back(rt, &name, text),
        Err(_) => false,
    }
}

/// Whether a text that is written under a name is read back, and no file of the name is found once it is removed.
fn is_given_back(rt: &HostRuntime, name: &str, text: &str) -> bool {
    let mut shelf = RealShelf::new(*rt);
    let read = round(rt.alloc(), &mut shelf, name, text.as_bytes());
    let removed = fs::remove_file(rt, name).is_ok();
    let missing = shelf.open(name) == Err(ShelfError::Failed);
    match read {
        Ok(bytes) => (bytes.as_slice() == text.as_bytes()) & removed & missing,
        Err(_) => false,
    }
}

/// Writes a text under a name, and reads it back, over a shelf that may go to another thread.
fn round<F: Shelf + Send>(
    alloc: Global,
    shelf: &mut F,
    name: &str,
    text: &[u8],
) -> Result<Vec<u8>, ShelfError> {
    let target = shelf.create(name)?;
    write_all(shelf, target, text)?;
    let source = shelf.open(name)?;
    read_upto(alloc, shelf, source, 100)
}

/// Prints a line on the standard output as a sink.
pub fn prints(rt: &HostRuntime, line: &str) -> bool {
    let mut sink = RealSink::new(rt.stdout());
    print(&mut sink, line.as_bytes()).is_ok() && print(&mut sink, b"\n").is_ok()
}

/// Whether an error reads as is expected.
pub fn error_reads(alloc: Global, error: &str, expected: &str) -> bool {
    match error {
        "file" => reads(alloc, &DecodeError::Memory, expected),
        "log" => reads(alloc, &LogError::Memory, expected),
        "device" => reads(alloc, &ShelfError::Failed, expected),
        "memory" => reads(alloc, &ShelfError::Memory, expected),
        _ => false,
    }
}
