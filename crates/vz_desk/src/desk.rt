//! A desk, and the calls of its clients.
ghost use Rattle.std.specs.Prelude.{◌≡◌, true, false, IfOk, OnErr, IsSome, IfSome};
ghost use Rattle.vz_desk.specs.Owners.{IsSameOwner, MakesNone};
ghost use Rattle.vz_desk.specs.Answers.{Answered, Tried, Waited, TellsIdle};

use crate::{Answer, Bell, Book, End};
use std::marker::Model;
use std::sync::Wait;
use vz_base::Memory;
use vz_loans::Lock;
use vz_machine::Machine;

/// A machine that several threads drive in turns. Its lock gives the turns.
///
/// Clients wait for begin-frames, so their bell rings at each begin-frame and at Over. The display
/// waits in pauses, so its bell rings if a client's entry lets a pause end. A stop rings the bells
/// of all who may wait.
pub struct Desk<M: Machine + Send, S: Copy + Send + Sync> {
    pub(crate) lock: Lock<Book<M, S>>,
    pub(crate) clients: Bell,
    pub(crate) display: Bell,
}

impl<M: Machine + Send, S: Copy + Send + Sync> Model for Desk<M, S> {
    ghost use Rattle.std.specs.Prelude.{◌≤◌};
    ghost use Rattle.vz_loans.specs.declared.kept.TheConstants.{MOST_CALLERS};
    ghost use Rattle.vz_loans.specs.Tokens.{Turnstile};

    ghost Value = { Turnstile };

    ghost view = { λ d. d.lock };

    ghost invariant = { λ d. d.lock.callers ≤ MOST_CALLERS };
}

impl<M: Machine + Send, S: Copy + Send + Sync> Desk<M, S>
where
    M::Picture: Send,
{
    /// Keeps a reason, unless one is kept already, and rings both bells. It makes no entry.
    /// Condition: the end is of this desk.
    pub fn stop<R: Wait>(&self, rt: &R, by: &mut End<M, S>, why: S)
        requires { by.old.desk ≡ self.now.id }
        ensures same { IsSameOwner by.old by.new }
        ensures none { MakesNone by.old by.new }
    {
        let mut book = self.lock.enter(rt, &mut by.token);
        let found = book.reason();
        book.stop(why);
        book.keeps_first(&found, &why);
        self.lock.leave(&mut by.token, book);
        self.clients.ring(rt);
        self.display.ring(rt);
    }

    /// Takes the next message of the end's client, and makes one entry, also if the answer is
    /// NotYet. It does not wait until the message may be taken. It returns `Stopped`, and makes
    /// no entry, only if an earlier stop gave a reason. The only error is `Memory`, and then it
    /// makes no entry. Condition: the end is of this desk.
    pub fn try_client<R: Wait + AllocGlobal>(
        &self,
        rt: &R,
        end: &mut End<M, S>,
    ) -> Result<Answer<S>, Memory>
        requires { end.old.desk ≡ self.now.id }
        ensures same { IsSameOwner end.old end.new }
        ensures ok { IfOk result (λ a. Answered end.old end.new a) }
        ensures err { OnErr result (MakesNone end.old end.new) }
    {
        match self.take(rt, end, false) {
            Ok(Some(answer)) => Ok(answer),
            Ok(None) => unreachable!(),
            Err(memory) => Err(memory),
        }
    }

    /// Waits while the next message of the end's client would be answered NotYet, and then takes
    /// it and makes one entry. It waits until the message may be taken or the desk is stopped. It
    /// returns `Stopped`, and makes no entry, only if a stop gave a reason. The only error is
    /// `Memory`, and then it makes no entry. Condition: the end is of this desk.
    pub fn client<R: Wait + AllocGlobal>(
        &self,
        rt: &R,
        end: &mut End<M, S>,
    ) -> Result<Answer<S>, Memory>
        requires { end.old.desk ≡ self.now.id }
        ensures same { IsSameOwner end.old end.new }
        ensures ok { IfOk result (λ a. Answered end.old end.new a) }
        ensures waited { IfOk result (λ a. Waited end.new a) }
        ensures err { OnErr result (MakesNone end.old end.new) }
    {
        for _ in rt.forever() {
            let heard = self.clients.rings();
            if let Some(answer) = self.take(rt, end, true)? {
                return Ok(answer);
            }
            let _ = self.clients.wait_beyond(rt, heard);
        }
        unreachable!()
    }

    /// Makes one entry of the end's client, unless the desk was stopped. If `patient` is true and
    /// the message would be answered NotYet, it makes no entry and returns None.
    fn take<R: Wait + AllocGlobal>(
        &self,
        rt: &R,
        end: &mut End<M, S>,
        patient: bool,
    ) -> Result<Option<Answer<S>>, Memory>
        requires { end.old.desk ≡ self.now.id }
        ensures same { IsSameOwner end.old end.new }
        ensures tried { IfOk result (λ o. Tried end.old end.new o) }
        ensures some { patient ≡ false → IfOk result (λ o. IsSome o) }
        ensures waited { patient ≡ true → IfOk result (λ o. IfSome o (λ a. Waited end.new a)) }
        ensures err { OnErr result (MakesNone end.old end.new) }
    {
        let mut book = self.lock.enter(rt, &mut end.token);
        if let Some(why) = book.reason() {
            self.lock.leave(&mut end.token, book);
            return Ok(Some(Answer::Stopped(why)));
        }
        let client = end.token.number();
        let waits = book.waits(client);
        if patient & waits {
            self.lock.leave(&mut end.token, book);
            return Ok(None);
        }
        match book.client(rt.alloc(), client) {
            Ok((note, in_time)) => {
                let calm = book.ends_pause();
                self.lock.leave(&mut end.token, book);
                end.totals = end.totals.with(&note, in_time);
                self.display.ring_if(rt, calm);
                Ok(Some(Answer::Did(note)))
            }
            Err(memory) => {
                self.lock.leave(&mut end.token, book);
                Err(memory)
            }
        }
    }

    /// Whether the end's client is closed, has no message left, or would be answered NotYet, in
    /// the world after the entries that the end has seen when the call returns. It makes no
    /// entry. Condition: the end is of this desk.
    pub fn idle<R: Wait>(&self, rt: &R, end: &mut End<M, S>) -> bool
        requires { end.old.desk ≡ self.now.id }
        ensures same { IsSameOwner end.old end.new }
        ensures none { MakesNone end.old end.new }
        ensures value { TellsIdle end.new result }
    {
        let book = self.lock.enter(rt, &mut end.token);
        let idle = book.idle(end.token.number());
        self.lock.leave(&mut end.token, book);
        idle
    }
}
