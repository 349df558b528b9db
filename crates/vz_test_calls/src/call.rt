//! Calls of the program over devices in memory.
use crate::compare::is_line;
use crate::file::copies;
use crate::row::{Row, YES};
use std::alloc::{AllocError, Global};
use std::sync::Wait;
use std::sync::ledger::Ledger;
use std::thread::Threads;
use viz_run::{Run, viz};
use vz_buffers::Steps;
use vz_outside::{MemoryShelf, MemorySink, OpenGate};

/// The numbers of the call of the shelf and of the call of the sink that fail, 0 for none.
#[derive(Clone, Copy)]
pub struct Failing {
    pub shelf: u64,
    pub sink: u64,
}

impl Failing {
    /// No call fails.
    pub const NONE: Failing = Failing { shelf: 0, sink: 0 };
}

/// What a call left.
#[derive(Drop)]
pub struct Left {
    pub run: Run,
    pub shelf: MemoryShelf,
    pub sink: MemorySink,
    /// How many pixels were made or painted.
    pub steps: u64,
}

/// Calls the program with the words and the files of a row.
pub fn left_by<L: Ledger, R: Threads + Wait + AllocGlobal + Sync>(
    rt: &R,
    row: &Row<'_>,
    failing: Failing,
    steps: &mut Steps<L>,
) -> Result<Left, AllocError> {
    let alloc = rt.alloc();
    let words = words_of(alloc, row.words)?;
    let files = copies(alloc, &row.given)?;
    let piece = (row.piece as usize).max(1);
    let mut shelf = MemoryShelf::new(alloc, files, some(alloc, failing.shelf)?, piece);
    let mut sink = MemorySink::new(alloc, some(alloc, failing.sink)?);
    let before = steps.count();
    let run = viz(rt, &words, &mut shelf, &mut sink, &OpenGate, steps);
    Ok(Left {
        run,
        shelf,
        sink,
        steps: steps.count().saturating_sub(before),
    })
}

/// Whether the second call of a row, on what the first one left, prints its verdict, if the row has one.
pub fn is_judged<L: Ledger, R: Threads + Wait + AllocGlobal + Sync>(
    rt: &R,
    row: &Row<'_>,
    shelf: MemoryShelf,
    steps: &mut Steps<L>,
) -> Result<bool, AllocError> {
    if row.judge.is_empty() {
        return Ok(true);
    }
    let alloc = rt.alloc();
    let words = words_of(alloc, row.judge)?;
    let mut shelf = shelf;
    let mut sink = MemorySink::new(alloc, Vec::new(alloc));
    let run = viz(rt, &words, &mut shelf, &mut sink, &OpenGate, steps);
    let status = if row.verdict == YES { 0 } else { 1 };
    Ok(run.status == status && is_line(sink.bytes(), row.verdict.as_bytes()))
}

/// The words of a line that are parted by blanks.
pub fn words_of(alloc: Global, line: &str) -> Result<Vec<String>, AllocError> {
    let mut words = Vec::new(alloc);
    for word in line.split_ascii_whitespace() {
        words.push(String::from_str(alloc, word)?)?;
    }
    Ok(words)
}

/// A list of a number, and of none for 0.
fn some(alloc: Global, number: u64) -> Result<Vec<u64>, AllocError> {
    let mut numbers = Vec::new(alloc);
    if number != 0 {
        numbers.push(number)?;
    }
    Ok(numbers)
}
