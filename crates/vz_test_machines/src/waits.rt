//! A client that waits for each of many begin-frames, beside a display that waits for the client in
//! each of its pauses. If one of them missed a ring of its bell, both would wait for ever.
use crate::call::status_through;
use crate::course::CourseGate;
use crate::gate::TestGate;
use std::alloc::Global;
use std::sync::Wait;
use std::test::Fail;
use std::thread::Threads;
use vz_base::Memory;

/// A `run` of one file, with as many begin-frames as a run may have.
const RUN: &str = "run --paced 4 2 256 f l a";

/// The file of client 1 up to its messages: its sink is (1, 1), and it has `WAITS` messages.
const HEAD: [u8; 18] = [
    0x56, 0x49, 0x5a, 0x43, 1, 0, 1, 0, 0, 0, 1, 0, 0, 0, 0, 1, 0, 0,
];

/// How many messages the file has.
const WAITS: usize = 256;

/// An Await, for which the client waits until the next begin-frame.
const AWAIT: u8 = 7;

/// How often the run is made. A ring that is missed once in a hundred waits is missed in one of
/// these runs.
const RUNS: usize = 16;

/// The file of a client that waits for each begin-frame.
fn waiting_file(alloc: Global) -> Result<Vec<u8>, Memory> {
    let mut file = Vec::from_slice(alloc, &HEAD)?;
    for _ in 0..WAITS {
        file.push(AWAIT)?;
    }
    Ok(file)
}

/// Whether each of the runs ends, and takes all messages.
fn all_end<R: Threads + Wait + AllocGlobal + Sync>(rt: &R, file: &[u8]) -> bool {
    let files = [("a", file)];
    // (what the gate is told is not asked)
    let gate = TestGate::Course(CourseGate::new([0; 4]));
    for _ in 0..RUNS {
        if status_through(rt, RUN, files.as_slice(), &gate) != Some(0) {
            return false;
        }
    }
    true
}

#[test]
fn no_ring_is_missed(rt: HostRuntime) -> Result<(), Fail> {
    let file = waiting_file(rt.alloc())?;
    assert!(&rt; all_end(&rt, &file));
    Ok(())
}
