//! A gate and a shelf that show that frames are written while the display goes on.
use crate::call::{Answer, answer_through};
use crate::gate::TestGate;
use std::sync::atomic::{AtomicBool, Ordering};
use std::thread;

/// How often a thread yields at most while it waits for another one.
const MOST_TURNS: u32 = 100_000;

/// A paced `run` of one file, with two rounds, whose frames a thread of its own writes.
const RUN: &str = "run --paced --pipe 4 2 2 f l a";

/// What it prints.
const SAID: &[u8] = b"done 9 entries 1 frames\n";

/// The file of a client with the sink (1, 1) and two messages: a frame of one opaque quad, and the
/// root.
pub(crate) const ONE_QUAD: [u8; 166] = [
    86, 73, 90, 67, 1, 0, 1, 0, 0, 0, 1, 0, 0, 0, 2, 0, 0, 0, 2, 1, 0, 0, 0, 1, 0, 0, 0, 1, 0, 0,
    0, 0, 0, 0, 0, 0, 0, 0, 0, 0, 0, 0, 0, 7, 0, 0, 0, 0, 0, 0, 0, 255, 0, 0, 0, 1, 1, 0, 0, 0, 0,
    0, 0, 0, 0, 0, 0, 0, 4, 0, 0, 0, 2, 0, 0, 0, 0, 0, 0, 0, 0, 0, 0, 0, 4, 0, 0, 0, 2, 0, 0, 0, 1,
    0, 0, 0, 0, 0, 0, 0, 0, 0, 1, 0, 0, 0, 0, 0, 0, 0, 2, 0, 0, 0, 2, 0, 0, 0, 1, 0, 0, 0, 0, 0, 0,
    0, 2, 0, 0, 0, 2, 0, 0, 0, 0, 255, 1, 255, 0, 0, 255, 5, 1, 0, 0, 0, 1, 0, 0, 0, 1, 0, 0, 0, 0,
    0, 0, 0, 0, 0, 0, 0, 0, 0, 0, 0,
];

/// The number by which a gate knows the writer.
const WRITER: u32 = 17;

/// A gate at which the display waits for the writer, and the writer for the display.
#[derive(Drop)]
pub struct PipedGate {
    /// The writer came, to its first turn.
    writer_came: AtomicBool,
    /// The display came to its fifth step, which is its second drawing.
    drew_again: AtomicBool,
    /// The first write began.
    wrote: AtomicBool,
    /// A thread waited in vain, or the writer came another time.
    missed: AtomicBool,
}

impl PipedGate {
    fn new() -> Self {
        PipedGate {
            writer_came: AtomicBool::new(false),
            drew_again: AtomicBool::new(false),
            wrote: AtomicBool::new(false),
            missed: AtomicBool::new(false),
        }
    }

    /// Whether nobody waited in vain, and the writer came once and wrote.
    pub fn all_met(&self) -> bool {
        let both = came(&self.writer_came) && came(&self.wrote);
        both && !came(&self.missed)
    }

    /// Takes a call before a step: the display waits before its first step, and before Over.
    pub fn before(&self, actor: u32, turn: u64) {
        match (actor, turn) {
            (WRITER, 1) => self.take_writer(),
            (WRITER, _) => self.missed.store(true, Ordering::SeqCst),
            (0, 1) => self.wait_for(&self.writer_came),
            (0, 5) => self.drew_again.store(true, Ordering::SeqCst),
            (0, 6) => self.wait_for(&self.wrote),
            _ => {}
        }
    }

    /// Takes a call after a step, which the writer does not make.
    pub fn after(&self, actor: u32) {
        if actor == WRITER {
            self.missed.store(true, Ordering::SeqCst);
        }
    }

    /// Marks that the writer came.
    fn take_writer(&self) {
        if self.writer_came.swap(true, Ordering::SeqCst) {
            self.missed.store(true, Ordering::SeqCst);
        }
    }

    /// Takes a call before a write: the first one waits for the display.
    pub fn write(&self) {
        if !self.wrote.swap(true, Ordering::SeqCst) {
            self.wait_for(&self.drew_again);
        }
    }

    /// Waits until a mark is set.
    fn wait_for(&self, mark: &AtomicBool) {
        for _ in 0..MOST_TURNS {
            if came(mark) {
                return;
            }
            thread::yield_now();
        }
        self.missed.store(true, Ordering::SeqCst);
    }
}

/// Whether a mark is set.
fn came(mark: &AtomicBool) -> bool {
    mark.load(Ordering::SeqCst)
}

/// Whether a call printed this text, and has status 0.
fn says(answer: &Option<Answer>, text: &[u8]) -> bool {
    match answer {
        Some(answer) => answer.status == 0 && answer.sink.bytes() == text,
        None => false,
    }
}

#[test]
fn frames_are_written_while_the_display_goes_on(rt: HostRuntime) {
    let files = [("a", ONE_QUAD.as_slice())];
    let gate = TestGate::Piped(PipedGate::new());
    let answer = answer_through(&rt, RUN, files.as_slice(), &gate);
    assert!(rt; says(&answer, SAID) && gate.is_content());
}
