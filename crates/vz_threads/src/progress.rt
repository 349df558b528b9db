//! What the display and the thread that writes its frames tell each other.
use std::sync::{Condvar, Mutex, Wait};

/// What the writer's thread does.
#[derive(Clone, Copy, PartialEq, Eq)]
enum Stage {
    /// It has not begun.
    Unbegun,
    /// It has begun, and calls the gate.
    Begun,
    /// It takes and writes frames.
    Writing,
    /// A call of the shelf failed. It takes frames, and writes no more.
    Failed,
    /// It wrote all frames that it took, and takes no more.
    Ended,
}

/// What the writer does, and how many frames it has written and given back.
#[derive(Clone, Copy)]
struct Standing {
    stage: Stage,
    written: u64,
}

/// How far the writer is. No clause says anything about it.
#[derive(Drop)]
pub(crate) struct Progress {
    standing: Mutex<Standing>,
    turned: Condvar,
}

impl Progress {
    /// The writer has not begun.
    pub(crate) fn new() -> Progress {
        Progress {
            standing: Mutex::new(Standing {
                stage: Stage::Unbegun,
                written: 0,
            }),
            turned: Condvar::new(),
        }
    }

    /// The writer begins, and calls the gate.
    pub(crate) fn begin<R: Wait>(&self, rt: &R) {
        self.turn(rt, Stage::Begun);
    }

    /// The writer takes the first frame.
    pub(crate) fn write<R: Wait>(&self, rt: &R) {
        self.turn(rt, Stage::Writing);
    }

    /// The writer has written one more frame, and reads its buffer no more.
    pub(crate) fn wrote<R: Wait>(&self, rt: &R) {
        let mut standing = self.standing.lock(rt);
        standing.written = standing.written.saturating_add(1);
        drop(standing);
        self.turned.notify_all();
    }

    /// A call of the shelf failed.
    pub(crate) fn fail<R: Wait>(&self, rt: &R) {
        self.turn(rt, Stage::Failed);
    }

    /// All frames that the writer took are written, and it takes no more.
    pub(crate) fn end<R: Wait>(&self, rt: &R) {
        self.turn(rt, Stage::Ended);
    }

    fn turn<R: Wait>(&self, rt: &R, to: Stage) {
        let mut standing = self.standing.lock(rt);
        standing.stage = to;
        drop(standing);
        self.turned.notify_all();
    }

    /// Whether the writer has begun.
    pub(crate) fn has_begun<R: Wait>(&self, rt: &R) -> bool {
        self.standing.lock(rt).stage != Stage::Unbegun
    }

    /// Whether a call of the shelf failed.
    pub(crate) fn has_failed<R: Wait>(&self, rt: &R) -> bool {
        self.standing.lock(rt).stage == Stage::Failed
    }

    /// Waits until the writer has written so many frames. It does not wait for a writer that has
    /// not come to its first frame, or that writes no more.
    pub(crate) fn wait_for<R: Wait>(&self, rt: &R, frames: u64) {
        let standing = self.standing.lock(rt);
        let turned = self.turned.wait_while(rt, standing, |standing| {
            standing.stage == Stage::Writing && standing.written < frames
        });
        drop(turned);
    }

    /// Waits until the writer has ended, or a call of the shelf failed. If the writer has not
    /// begun, it does not wait.
    pub(crate) fn wait<R: Wait>(&self, rt: &R) {
        let standing = self.standing.lock(rt);
        let turned = self.turned.wait_while(rt, standing, |standing| {
            standing.stage == Stage::Begun || standing.stage == Stage::Writing
        });
        drop(turned);
    }
}
