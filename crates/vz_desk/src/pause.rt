//! How the display pauses and stops.
ghost use Rattle.std.specs.Prelude.{◌≡◌, true, None, IfOk};
ghost use Rattle.vz_desk.specs.Owners.{IsSameOwner, MakesNone};
ghost use Rattle.vz_desk.specs.Answers.{IsPaused};

use crate::{Desk, DisplayEnd};
use std::sync::Wait;
use vz_machine::Machine;

impl<M: Machine + Send, S: Copy + Send + Sync> Desk<M, S>
where
    M::Picture: Send,
{
    // Looks at the desk once, without an entry: whether a pause may end. If it may not, the book
    // keeps that the display waits. The error is the reason of the first stop.
    fn look<R: Wait>(&self, rt: &R, d: &mut DisplayEnd<M, S>) -> Result<bool, S>
        requires { d.old.desk ≡ self.now.id }
        ensures same { IsSameOwner d.old d.new }
        ensures none { MakesNone d.old d.new }
        ensures calm { IfOk result (λ calm. calm ≡ true → IsPaused d.new) }
    {
        let mut book = self.lock.enter(rt, &mut d.token);
        if let Some(why) = book.reason() {
            self.lock.leave(&mut d.token, book);
            return Err(why);
        }
        let calm = book.pause();
        self.lock.leave(&mut d.token, book);
        Ok(calm)
    }

    /// Waits until each attached client is idle or has answered the current begin-frame, in the
    /// world after the entries that the end has seen when the call returns, and returns None. If
    /// the desk is stopped before, it returns the reason. It makes no entry, and watches its bell
    /// until that rings. Condition: the end is of this desk.
    pub fn pace<R: Wait>(&self, rt: &R, d: &mut DisplayEnd<M, S>) -> Option<S>
        requires { d.old.desk ≡ self.now.id }
        ensures same { IsSameOwner d.old d.new }
        ensures none { MakesNone d.old d.new }
        ensures calm { result ≡ None → IsPaused d.new }
    {
        for _ in rt.forever() {
            let heard = self.display.rings();
            match self.look(rt, d) {
                Err(why) => return Some(why),
                Ok(calm) => {
                    if calm {
                        return None;
                    }
                }
            }
            let _ = self.display.watch_beyond(rt, heard);
        }
        unreachable!()
    }

    /// Keeps a reason, unless one is kept already, and rings the clients' bell. It makes no entry.
    /// Condition: the end is of this desk.
    pub fn stop_display<R: Wait>(&self, rt: &R, by: &mut DisplayEnd<M, S>, why: S)
        requires { by.old.desk ≡ self.now.id }
        ensures same { IsSameOwner by.old by.new }
        ensures none { MakesNone by.old by.new }
    {
        let mut book = self.lock.enter(rt, &mut by.token);
        let found = book.reason();
        book.stop(why);
        book.keeps_first(&found, &why);
        self.lock.leave(&mut by.token, book);
        self.clients.ring(rt);
    }
}
