//! Calls of the program through a gate, over devices in memory.
ghost use Rattle.std.specs.Prelude.{◌≡◌, ◌<◌};

use crate::gate::TestGate;
use crate::shelf::TestShelf;
use std::alloc::{AllocError, Global};
use std::marker::Brand;
use std::sync::Wait;
use std::sync::ledger::{Blank, Ledger};
use std::thread::Threads;
use viz_run::viz;
use vz_buffers::Steps;
use vz_outside::{MemoryShelf, MemorySink};

/// What a call leaves: its status, and what it printed.
#[derive(Drop)]
pub struct Answer {
    pub status: u8,
    pub sink: MemorySink,
}

/// More bytes than any file has.
const WHOLE: usize = 1 << 20;

/// A file: its name and its bytes.
fn file_of(alloc: Global, name: &str, bytes: &[u8]) -> Result<(String, Vec<u8>), AllocError> {
    let name = String::from_str(alloc, name)?;
    Ok((name, Vec::from_slice(alloc, bytes)?))
}

/// Files, each a name and its bytes.
fn files_of(alloc: Global, files: &[(&str, &[u8])]) -> Result<Vec<(String, Vec<u8>)>, AllocError> {
    let mut all = Vec::new(alloc);
    for (name, bytes) in files {
        all.push(file_of(alloc, name, bytes)?)?;
    }
    Ok(all)
}

/// The words of a line.
fn words_of(alloc: Global, line: &str) -> Result<Vec<String>, AllocError> {
    let mut words = Vec::new(alloc);
    for word in line.split_ascii_whitespace() {
        words.push(String::from_str(alloc, word)?)?;
    }
    Ok(words)
}

/// The status of a call with the words of a line, through a gate, if there is memory for its words
/// and its files.
pub fn status_through<R: Threads + Wait + AllocGlobal + Sync>(
    rt: &R,
    line: &str,
    files: &[(&str, &[u8])],
    gate: &TestGate,
) -> Option<u8> {
    Some(answer_through(rt, line, files, gate)?.status)
}

/// What a call leaves with the words of a line, through a gate, if there is memory for its words
/// and its files.
pub fn answer_through<R: Threads + Wait + AllocGlobal + Sync>(
    rt: &R,
    line: &str,
    files: &[(&str, &[u8])],
    gate: &TestGate,
) -> Option<Answer> {
    let files = files_of(rt.alloc(), files).ok()?;
    let words = words_of(rt.alloc(), line).ok()?;
    let shelf = MemoryShelf::new(rt.alloc(), files, Vec::new(rt.alloc()), WHOLE);
    let shelf = TestShelf { shelf, gate };
    Some(counted::<Brand, R>(rt, &words, shelf, gate, Blank::new(1)))
}

fn counted<L: Ledger, R: Threads + Wait + AllocGlobal + Sync>(
    rt: &R,
    words: &[String],
    mut shelf: TestShelf<'_>,
    gate: &TestGate,
    blank: Blank,
) -> Answer
    requires name { blank.name ≡ L.name }
    requires parts { blank.parts ≡ L.parts }
    requires some { 0 < L.parts }
{
    let mut sink = MemorySink::new(rt.alloc(), Vec::new(rt.alloc()));
    let mut steps = Steps::<L>::new(blank);
    let status = viz(rt, words, &mut shelf, &mut sink, gate, &mut steps).status;
    Answer { status, sink }
}
