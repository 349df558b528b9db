//! The display's calls for begin-frames.
ghost use Rattle.std.specs.Prelude.{◌≡◌, false, IfOk, OnErr};
ghost use Rattle.vz_rules.specs.declared.entry.Event.TheVariants as event;
ghost use Rattle.vz_desk.specs.Owners.{IsSameOwner, MakesNone};
ghost use Rattle.vz_desk.specs.Displays.{AnsweredPlainly};

use crate::{Answer, Desk, DisplayEnd, Note};
use std::alloc::AllocGlobal;
use std::sync::Wait;
use vz_base::Memory;
use vz_machine::Machine;

// The note of an entry of the display.
pub(crate) fn plain_note(place: u64) -> Note
    ensures { result
        ≡ record { place = place; accepted = false; refused = false; lent = 0; back = 0 } }
{
    Note {
        place,
        accepted: false,
        refused: false,
        lent: 0,
        back: 0,
    }
}

impl<M: Machine + Send, S: Copy + Send + Sync> Desk<M, S>
where
    M::Picture: Send,
{
    /// Begins a frame: it makes one entry, and the clients' bell rings. If the desk was stopped,
    /// it returns `Stopped` and makes none. The only error is `Memory`, and then it makes none.
    /// Condition: the end is of this desk.
    pub fn begin<R: Wait + AllocGlobal>(
        &self,
        rt: &R,
        d: &mut DisplayEnd<M, S>,
    ) -> Result<Answer<S>, Memory>
        requires { d.old.desk ≡ self.now.id }
        ensures same { IsSameOwner d.old d.new }
        ensures ok { IfOk result (λ a. AnsweredPlainly event.Begin d.old d.new a) }
        ensures err { OnErr result (MakesNone d.old d.new) }
    {
        let mut book = self.lock.enter(rt, &mut d.token);
        if let Some(why) = book.reason() {
            self.lock.leave(&mut d.token, book);
            return Ok(Answer::Stopped(why));
        }
        match book.begin(rt.alloc()) {
            Ok(()) => {
                let place = book.places();
                self.lock.leave(&mut d.token, book);
                self.clients.ring(rt);
                d.begins += 1;
                Ok(Answer::Did(plain_note(place)))
            }
            Err(memory) => {
                self.lock.leave(&mut d.token, book);
                Err(memory)
            }
        }
    }

    /// Takes the event Over, from which on no client waits for a begin-frame: it makes one entry,
    /// and the clients' bell rings. If the desk was stopped, it returns `Stopped` and makes none.
    /// The only error is `Memory`, and then it makes none. Condition: the end is of this desk.
    pub fn over<R: Wait>(&self, rt: &R, d: &mut DisplayEnd<M, S>) -> Result<Answer<S>, Memory>
        requires { d.old.desk ≡ self.now.id }
        ensures same { IsSameOwner d.old d.new }
        ensures ok { IfOk result (λ a. AnsweredPlainly event.Over d.old d.new a) }
        ensures err { OnErr result (MakesNone d.old d.new) }
    {
        let mut book = self.lock.enter(rt, &mut d.token);
        if let Some(why) = book.reason() {
            self.lock.leave(&mut d.token, book);
            return Ok(Answer::Stopped(why));
        }
        match book.over() {
            Ok(()) => {
                let place = book.places();
                self.lock.leave(&mut d.token, book);
                self.clients.ring(rt);
                Ok(Answer::Did(plain_note(place)))
            }
            Err(memory) => {
                self.lock.leave(&mut d.token, book);
                Err(memory)
            }
        }
    }
}
