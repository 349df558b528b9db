//! The receiver's end.
ghost use Rattle.std.specs.Prelude.{◌≡◌, ◌++◌, ◌∷◌, [], true, false, IfSome, IfNone};
ghost use Rattle.crossbeam_channel.specs.Ends.{receives_on};
ghost use Rattle.crossbeam_channel.specs.Claims.{view as known};
ghost use Rattle.vz_pipe.specs.Rule.{has_end};
ghost use Rattle.vz_pipe.specs.Ends.{IsTaking, pipe_of};

use crate::parcel::Parcel;
use crate::plays::{Gets, Outlet, SidePass};
use std::marker::Model;
use std::sync::Wait;
use std::thread;

/// The end that takes frames. Contracts see in it which pipe it belongs to, the frames that it
/// took, oldest first, and whether it got the mark of the end (`specs/Ends.antt`).
#[derive(Drop)]
pub struct Receiver<T: Drop> {
    pub(crate) outlet: Outlet<T>,
    pub(crate) pass: SidePass<T>,
    pub(crate) ended: bool,
}

impl<T: Drop> Model for Receiver<T> {
    ghost use Rattle.std.specs.Prelude.{◌≡◌, ◌++◌};
    ghost use Rattle.crossbeam_channel.specs.Ends.{receives_on};
    ghost use Rattle.crossbeam_channel.specs.Claims.{view as known};
    ghost use Rattle.vz_pipe.specs.Rule.{frames, has_end};
    ghost use Rattle.vz_pipe.specs.Ends.{Taking, pipe_of, IsTaking};

    ghost Value = { Taking T };

    ghost view = { λ r. record {
      pipe = pipe_of (receives_on r.outlet);
      taken = frames (known r.pass).got ++ (known r.pass).had;
      ended = r.ended;
    } };

    ghost invariant = { λ r. IsTaking (receives_on r.outlet) r.pass
        × (has_end (known r.pass).got ≡ r.ended) };
}

// Waits for the next parcel, and gets it.
fn next<T: Drop, R: Wait>(rt: &R, outlet: &Outlet<T>, pass: &mut SidePass<T>) -> Parcel<T>
    requires pass { IsTaking (receives_on outlet.now) pass.old }
    ensures pass { IsTaking (receives_on outlet.now) pass.new }
    ensures got { (known pass.new).got ≡ (known pass.old).got ++ result ∷ [] }
    ensures none { ((known pass.old).had ≡ []) × ((known pass.new).had ≡ []) }
    ensures unmarked { has_end (known pass.old).got ≡ false }
{
    for _ in rt.forever() {
        match outlet.recv_as::<Gets, R>(rt, pass) {
            Ok(parcel) => return parcel,
            Err(_) => thread::yield_now(),
        }
    }
    unreachable!()
}

impl<T: Drop> Receiver<T> {
    // Makes a receiver that has taken nothing.
    pub(crate) fn new(outlet: Outlet<T>, pass: SidePass<T>) -> Receiver<T>
        requires pass { IsTaking (receives_on outlet) pass }
        requires got { (known pass).got ≡ [] }
        requires had { (known pass).had ≡ [] }
        ensures pipe { result.pipe ≡ pipe_of (receives_on outlet) }
        ensures taken { result.taken ≡ [] }
        ensures ended { result.ended ≡ false }
    {
        Receiver {
            outlet,
            pass,
            ended: false,
        }
    }

    /// Waits for the next frame, and takes it. It returns None only if it got the mark of the
    /// end, now or in an earlier call: the sender was shut, and every frame that went into the
    /// channel was taken. It takes no memory.
    pub fn take<R: Wait>(&mut self, rt: &R) -> Option<T>
        ensures pipe { self.new.pipe ≡ self.old.pipe }
        ensures some { IfSome result (λ x. self.new.taken ≡ self.old.taken ++ x ∷ []) }
        ensures none { IfNone result (self.new.taken ≡ self.old.taken) }
        ensures ended { IfNone result (self.new.ended ≡ true) }
    {
        if self.ended {
            return None;
        }
        match next(rt, &self.outlet, &mut self.pass) {
            Parcel::Frame(frame) => Some(frame),
            Parcel::End => {
                self.ended = true;
                None
            }
        }
    }
}
