//! Where the display's pictures are shown whose frames another thread writes.
ghost use Rattle.std.specs.Prelude.{Some};
ghost use Rattle.vz_threads.specs.Pipes.{bytes_of, paper};

use crate::outlet::Outlet;
use crate::progress::Progress;
use std::alloc::AllocGlobal;
use std::sync::Wait;
use std::sync::ledger::Ledger;
use std::thread::Threads;
use vz_buffers::{SharedBuffer, Steps};
use vz_display::Display;
use vz_geom::Size;
use vz_machine::Picture;
use vz_outside::ShelfError;
use vz_pipe::Sender;

/// A display, the size of its frames, the sender that gets the buffer of each frame, how far the
/// writer is, how many frames were shown and how many passed on, and the counter of steps. Its
/// file, for proofs alone, has the frames that were sent. Before the writer has begun, the frames
/// wait in the sender's list.
///
/// The writer reads the buffer that the display painted; no pixel is copied. So the display waits
/// before it paints a buffer again until the writer has written it. Where the writer has not come
/// so far as to write, the display does not wait, and paints a copy.
#[derive(Drop)]
pub(crate) struct PipedOutlet<'a, L: Ledger> {
    pub(crate) display: Display,
    pub(crate) size: Size,
    pub(crate) sender: &'a mut Sender<SharedBuffer>,
    pub(crate) progress: &'a Progress,
    pub(crate) shown: u64,
    pub(crate) passed: u64,
    pub(crate) steps: &'a mut Steps<L>,
}

impl<'a, L: Ledger> Outlet for PipedOutlet<'a, L> {
    ghost stands = { λ o. record {
      fixed = record {
        slot = 0;
        size = o.size;
        shelf = o.sender.ghost_name;
        steps = o.steps.ghost_name;
        pipe = Some o.sender.now.pipe;
      };
      display = o.display.shown;
      shelf = paper (bytes_of o.sender.now.sent);
      steps = o.steps.now;
    } };

    fn show<P: Picture + Drop, R: Threads + AllocGlobal + Sync>(
        &mut self,
        rt: &R,
        picture: P,
    ) -> Result<(), ShelfError> {
        let thin = picture.occlude(rt.alloc())?;
        self.display.show(rt, rt.alloc(), &thin, self.steps)?;
        let frame = self.display.share()?;
        self.sender.add(frame)?;
        self.shown = self.shown.saturating_add(1);
        Ok(())
    }

    fn ready<R: Wait>(&self, rt: &R) {
        let next = self.passed.saturating_add(1);
        let buffers = self.display.buffers() as u64;
        self.progress.wait_for(rt, next.saturating_sub(buffers));
    }

    fn pass_on<R: Wait>(&mut self, rt: &R) {
        if self.progress.has_begun(rt) {
            self.sender.pass_on(rt);
            self.passed = self.shown;
        }
    }

    fn close<R: Wait>(&mut self, rt: &R) {
        if self.progress.has_begun(rt) {
            self.sender.pass_on(rt);
        }
        self.sender.shut(rt);
        self.progress.wait(rt);
    }

    fn is_cut<R: Wait>(&self, rt: &R) -> bool {
        self.progress.has_failed(rt)
    }
}
