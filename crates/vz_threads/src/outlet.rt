//! Where the display's pictures are shown and written.
ghost use Rattle.std.specs.Prelude.{OnOk, OnErr, None, ◌≡◌};
ghost use Rattle.std.specs.Thread.{IsSync};
ghost use Rattle.vz_outside.specs.Shelved.{KeepsOthers, Behaves};
ghost use Rattle.vz_threads.specs.Outlets.{MayShow, Shows, BeginsFrame, file_of};

use std::alloc::AllocGlobal;
use std::sync::Wait;
use std::sync::ledger::Ledger;
use std::thread::Threads;
use vz_buffers::Steps;
use vz_display::Display;
use vz_machine::Picture;
use vz_outside::{Shelf, ShelfError};
use vz_player::{FrameFile, write_frame};

/// Shows pictures on a display, and appends the frame of each to a file.
pub trait Outlet {
    ghost use Rattle.vz_threads.specs.Outlets.{Outlook};

    /// The state of the display, of the file and of the counter of steps.
    ghost stands: { Self → Outlook };

    /// Removes what is occluded in a picture, shows it, and appends its frame to the file. The
    /// errors are those of the shelf, and `Memory`. After an error a front part of the frame was
    /// written, possibly none, and the display may not be used any more.
    fn show<P: Picture + Drop, R: Threads + AllocGlobal + Sync>(
        &mut self,
        rt: &R,
        picture: P,
    ) -> Result<(), ShelfError>
        requires sync { IsSync R.row }
        requires may { MayShow (stands self.old) (P.pictured picture) }
        ensures fixed { (stands self.new).fixed ≡ (stands self.old).fixed }
        ensures shown { OnOk result
            (Shows (P.pictured picture) (stands self.old) (stands self.new)) }
        ensures begun { OnErr result
            (BeginsFrame (P.pictured picture) (stands self.old) (stands self.new)) }
        ensures others { KeepsOthers (file_of (stands self.old))
            (stands self.old).shelf (stands self.new).shelf }
        ensures behaves { Behaves (stands self.old).shelf (stands self.new).shelf result };

    /// Waits until whoever writes has written the buffer that is painted next. It takes no memory.
    fn ready<R: Wait>(&self, rt: &R);

    /// Passes on what was shown to whoever writes it. It may wait for room, and takes no memory.
    fn pass_on<R: Wait>(&mut self, rt: &R)
        ensures { stands self.new ≡ stands self.old };

    /// Tells whoever writes that nothing more is shown, and waits until all that was passed on is
    /// written, or cannot be. It takes no memory.
    fn close<R: Wait>(&mut self, rt: &R)
        ensures { stands self.new ≡ stands self.old };

    /// Whether whoever writes met an error, so that nothing more is written.
    fn is_cut<R: Wait>(&self, rt: &R) -> bool;
}

/// A display, the file of a shelf to which its frames are written, and the counter of steps.
#[derive(Drop)]
pub struct FrameOutlet<'a, F: Shelf, L: Ledger> {
    pub display: Display,
    pub shelf: &'a mut F,
    pub file: FrameFile,
    pub steps: &'a mut Steps<L>,
}

impl<'a, F: Shelf, L: Ledger> Outlet for FrameOutlet<'a, F, L> {
    ghost stands = { λ o. record {
      fixed = record {
        slot = o.file.slot;
        size = o.file.size;
        shelf = o.shelf.ghost_name;
        steps = o.steps.ghost_name;
        pipe = None;
      };
      display = o.display.shown;
      shelf = F.shelved o.shelf.now;
      steps = o.steps.now;
    } };

    fn show<P: Picture + Drop, R: Threads + AllocGlobal + Sync>(
        &mut self,
        rt: &R,
        picture: P,
    ) -> Result<(), ShelfError> {
        let thin = picture.occlude(rt.alloc())?;
        self.display.show(rt, rt.alloc(), &thin, self.steps)?;
        write_frame(self.shelf, self.file, &self.display)?;
        Ok(())
    }

    fn ready<R: Wait>(&self, _rt: &R) {}

    fn pass_on<R: Wait>(&mut self, _rt: &R) {}

    fn close<R: Wait>(&mut self, _rt: &R) {}

    fn is_cut<R: Wait>(&self, _rt: &R) -> bool {
        false
    }
}
