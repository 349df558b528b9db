//! What C keeps of a stage: the address of its block on the heap, or nothing.
//!
//! C may not see the type of what it keeps, so the pointer is to a byte. Only the four functions
//! here make or read the pointer: each is proved by hand.
ghost use Rattle.std.specs.Prelude.{◌≡◌, Option, None, Some, is_some, IsTrue};
ghost use Rattle.viz_c.specs.Staging.{Staged};
ghost use Rattle.viz_c.specs.Holding.{stage_coded, stage_owns};

use crate::loose::Loose;
use crate::stage::Stage;
use std::alloc::Global;
use std::marker::Model;
use std::ptr::null_mut;

/// The address of a stage, or null. It owns the stage, so it can neither be copied nor dropped.
#[repr(C)]
pub struct Handle {
    at: *mut u8,
    alloc: Global,
    pub ghost stage: { Option Staged } by { stage_coded },
}

impl Model for Handle {
    ghost also_owns = { λ h. stage_owns h.alloc h.at h.stage };
}

impl Handle {
    /// Keeps a stage.
    pub fn of(loose: Loose<Stage, Global>) -> Handle
        ensures { result.stage ≡ Some loose.value }
    {
        let Loose { at, alloc } = loose;
        Handle {
            at: at as *mut u8,
            alloc,
        }
    }

    /// Gives the stage back. Condition: there is one.
    pub fn into_loose(self) -> Loose<Stage, Global>
        requires { IsTrue (is_some self.stage) }
        ensures { Some result.value ≡ self.stage }
    {
        let Handle { at, alloc } = self;
        Loose {
            at: at as *mut Stage,
            alloc,
        }
    }

    /// Keeps nothing.
    pub fn none(alloc: Global) -> Handle
        ensures { result.stage ≡ None }
    {
        Handle {
            at: null_mut(),
            alloc,
        }
    }

    /// Ends a handle that keeps nothing. Condition: it keeps nothing, so that no stage is lost.
    pub fn let_go(self) -> Global
        requires { self.stage ≡ None }
        ensures { result ≡ self.alloc }
    {
        let Handle { at: _, alloc } = self;
        alloc
    }
}
