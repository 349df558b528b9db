//! How the display draws, and ends drawn frames.
ghost use Rattle.std.specs.Prelude.{◌≡◌, true, false, IfOk, OnErr};
ghost use Rattle.vz_desk.specs.Owners.{IsSameOwner, MakesNone};
ghost use Rattle.vz_desk.specs.Displays.{AnsweredDone, EndsFrame};
ghost use Rattle.vz_desk.specs.Drawings.{IsDrawing};

use crate::display::plain_note;
use crate::{Answer, Desk, DisplayEnd, Drawing, Hold};
use std::alloc::AllocGlobal;
use std::snapshot::Snapshot;
use std::sync::Wait;
use vz_base::Memory;
use vz_machine::Machine;

impl<M: Machine + Send, S: Copy + Send + Sync> Desk<M, S>
where
    M::Picture: Send,
{
    /// Draws: it makes one entry. If a frame is drawn, its token comes with it; while a frame is
    /// in flight none is drawn. If the desk was stopped, it returns `Stopped` and makes no entry.
    /// The only error is `Memory`, and then it makes no entry. Condition: the end is of this desk.
    pub fn draw<R: Wait + AllocGlobal>(
        &self,
        rt: &R,
        d: &mut DisplayEnd<M, S>,
    ) -> Result<Drawing<M, S>, Memory>
        requires { d.old.desk ≡ self.now.id }
        ensures same { IsSameOwner d.old d.new }
        ensures ok { IfOk result (λ x. IsDrawing M.Picture.pictured d.old d.new x) }
        ensures err { OnErr result (MakesNone d.old d.new) }
    {
        let mut book = self.lock.enter(rt, &mut d.token);
        if let Some(why) = book.reason() {
            self.lock.leave(&mut d.token, book);
            return Ok(Drawing::Stopped(why));
        }
        match book.draw(rt.alloc()) {
            Ok(picture) => {
                let place = book.places();
                self.lock.leave(&mut d.token, book);
                d.draws += 1;
                match picture {
                    Some(picture) => {
                        d.drawn += 1;
                        d.in_flight = true;
                        let hold = Hold {
                            by: Snapshot::of(&d.token),
                        };
                        Ok(Drawing::Drawn(hold, picture))
                    }
                    None => Ok(Drawing::Other(plain_note(place))),
                }
            }
            Err(memory) => {
                self.lock.leave(&mut d.token, book);
                Err(memory)
            }
        }
    }

    /// Ends the drawn frame: it makes one entry, which is Shown. It takes no memory, and works
    /// also if the desk was stopped. Conditions: the end and the hold are of this desk, and a
    /// frame is in flight.
    pub fn done<R: Wait>(&self, rt: &R, d: &mut DisplayEnd<M, S>, hold: Hold<M, S>)
        requires end { d.old.desk ≡ self.now.id }
        requires hold { hold ≡ self.now.id }
        requires flies { d.old.totals.in_flight ≡ true }
        ensures same { IsSameOwner d.old d.new }
        ensures done { EndsFrame d.old d.new }
    {
        hold.spend();
        let mut book = self.lock.enter(rt, &mut d.token);
        prove!(book.places() < u64::MAX);
        book.done();
        self.lock.leave(&mut d.token, book);
        d.dones += 1;
        d.in_flight = false;
    }

    /// Calls Done although no frame is in flight: it makes one entry, which is Nothing. If the
    /// desk was stopped, it returns `Stopped` and makes no entry. The only error is `Memory`, and
    /// then it makes no entry. Conditions: the end is of this desk, and no frame is in flight.
    pub fn empty_done<R: Wait>(&self, rt: &R, d: &mut DisplayEnd<M, S>) -> Result<Answer<S>, Memory>
        requires end { d.old.desk ≡ self.now.id }
        requires flies { d.old.totals.in_flight ≡ false }
        ensures same { IsSameOwner d.old d.new }
        ensures ok { IfOk result (λ a. AnsweredDone d.old d.new a) }
        ensures err { OnErr result (MakesNone d.old d.new) }
    {
        let mut book = self.lock.enter(rt, &mut d.token);
        if let Some(why) = book.reason() {
            self.lock.leave(&mut d.token, book);
            return Ok(Answer::Stopped(why));
        }
        match book.empty_done() {
            Ok(()) => {
                let place = book.places();
                self.lock.leave(&mut d.token, book);
                d.dones += 1;
                d.in_flight = false;
                Ok(Answer::Did(plain_note(place)))
            }
            Err(memory) => {
                self.lock.leave(&mut d.token, book);
                Err(memory)
            }
        }
    }
}
