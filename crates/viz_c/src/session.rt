//! The struct of C for a session.
ghost use Rattle.std.specs.Prelude.{◌≡◌, None, Some, is_some, IsTrue};

use crate::handle::Handle;
use crate::loose::Loose;
use crate::stage::Stage;
use std::alloc::Global;
use std::mem::replace;

/// What C keeps of a session: a stage if it is open, and nothing if it is closed. A struct of zeros
/// is a closed session.
#[repr(C)]
pub struct Session {
    /// Where the stage is.
    pub handle: Handle,
    /// Whether there is one.
    pub is_open: bool,
    ghost told: { is_open ≡ is_some handle.stage },
}

impl Session {
    /// Opens a closed session with a stage. Condition: it is closed.
    pub fn put(&mut self, stage: Box<Stage, Global>)
        requires { self.old.handle.stage ≡ None }
        ensures { self.new.handle.stage ≡ Some stage.value }
    {
        let handle = Handle::of(Loose::of(stage));
        let empty = replace(&mut self.handle, handle);
        self.is_open = true;
        let _ = empty.let_go();
    }

    /// Takes the stage out, and closes the session. Condition: it is open.
    pub fn take(&mut self, alloc: Global) -> Box<Stage, Global>
        requires { IsTrue (is_some self.old.handle.stage) }
        ensures left { self.new.handle.stage ≡ None }
        ensures taken { Some result.value ≡ self.old.handle.stage }
    {
        let handle = replace(&mut self.handle, Handle::none(alloc));
        self.is_open = false;
        handle.into_loose().into_box()
    }
}
