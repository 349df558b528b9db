//! A hub, and its calls.
ghost use Rattle.std.specs.Prelude.{◌≡◌, ◌<◌, ◌≤◌, ◌⊎◌, All, length, IfOk, OnErr, Some};
ghost use Rattle.std.specs.Option.{ForSome};
ghost use mathlib.Core.List.{IsPrefix};
ghost use Rattle.vz_loans.specs.declared.kept.TheConstants.{MOST_CALLERS};
ghost use Rattle.vz_loans.specs.Tokens.{unused_from, mine, IsAtRest, IsSameCaller};
ghost use Rattle.vz_rules.specs.World.{opening};
ghost use Rattle.vz_rules.specs.Step.{NamesClient, Legal, world};
ghost use Rattle.vz_turn.specs.Calls.{Makes, MakesNone, IsClosed};

use crate::{Pass, Register, Told};
use std::alloc::Global;
use std::marker::Model;
use std::sync::Wait;
use vz_base::Memory;
use vz_loans::Lock;
use vz_machine::Machine;
use vz_rules::{Event, History};

/// A machine that callers share. Each caller has a pass, and each call makes one entry in a turn
/// of its own. Contracts see in a hub which one it is, and how many callers it has.
pub struct Hub<M: Machine + Send> {
    lock: Lock<Register<M>>,
}

impl<M: Machine + Send> Model for Hub<M> {
    ghost use Rattle.vz_loans.specs.Tokens.{Turnstile};

    ghost Value = { Turnstile };

    ghost view = { λ h. h.lock };
}

impl<M: Machine + Send> Hub<M>
where
    M::Picture: Send,
{
    /// Makes a hub of a machine, and the passes of `n` callers, with the numbers from 0 on, in
    /// rising order. No caller has seen an entry. The only error is `Memory`, and then the
    /// machine is lost. Conditions: the machine is in the opening world of its plan, and there
    /// are 1 to `MOST_CALLERS` callers.
    pub fn open(alloc: Global, machine: M, n: u32) -> Result<(Hub<M>, Vec<Pass<M>>), Memory>
    where
        M: Drop,
        requires opening { (M.state machine).world ≡ opening (M.state machine).plan }
        requires some { 0 < n }
        requires few { n ≤ MOST_CALLERS }
        ensures hub { IfOk result (λ r. r.0.callers ≡ n) }
        ensures passes { IfOk result (λ r. r.1.items
            ≡ unused_from r.0.id (Some (M.state machine).plan) 0 n) }
    {
        let register = Register::new(alloc, machine);
        let Ok((lock, passes)) = Lock::open(alloc, register, n) else {
            return Err(Memory);
        };
        Ok((Hub { lock }, passes))
    }

    /// Waits for the caller's turn. In it the machine takes the event, and its entry is put at
    /// the end of the history with the caller's number. It returns the entry's position and its
    /// reply in short. The caller has then seen the whole history up to this entry. A message
    /// that comes too early makes an entry too, with the reply NotYet.
    ///
    /// The only error is `Memory`; then the call made no entry. Conditions: the pass belongs to
    /// this hub and is not in a turn, and the client of a client's event is one of the plan.
    pub fn call<R: Wait + AllocGlobal>(
        &self,
        rt: &R,
        pass: &mut Pass<M>,
        event: Event,
    ) -> Result<Told, Memory>
    where
        M::Picture: Drop,
        requires ours { IsAtRest self.now.id pass.old }
        requires client { ForSome pass.old.plan (λ p. NamesClient p event) }
        ensures rests { IsAtRest self.now.id pass.new }
        ensures same { IsSameCaller pass.old pass.new }
        ensures ok { IfOk result (λ told. Makes pass.old pass.new event told) }
        ensures err { OnErr result (MakesNone pass.old pass.new) }
    {
        let mut register = self.lock.enter(rt, pass);
        match register.take(rt.alloc(), pass.number(), event) {
            Ok(told) => {
                self.lock.leave(pass, register);
                Ok(told)
            }
            Err(memory) => {
                self.lock.leave(pass, register);
                Err(memory)
            }
        }
    }

    /// Lets one caller learn what another has seen: after the call, `to` has seen what both had
    /// seen before, and `from` is unchanged. It makes no entry, waits for nobody, and takes no
    /// memory. Condition: both passes belong to this hub, and neither is in a turn.
    pub fn meet(&self, to: &mut Pass<M>, from: &mut Pass<M>)
        requires to { IsAtRest self.now.id to.old }
        requires from { IsAtRest self.now.id from.old }
        ensures rests { IsAtRest self.now.id to.new }
        ensures same { IsSameCaller to.old to.new }
        ensures from { from.new ≡ from.old }
        ensures one { (to.new.seen ≡ to.old.seen) ⊎ (to.new.seen ≡ from.old.seen) }
        ensures first { IsPrefix to.old.seen to.new.seen }
        ensures second { IsPrefix from.old.seen to.new.seen }
        ensures mine { mine to.new ≡ mine to.old }
    {
        self.lock.meet(to, from);
    }

    /// Ends a hub, and returns its machine with the whole history, oldest entry first. The
    /// entries that each caller has seen are a front part of the history, and its own entries
    /// there are those of its calls. It takes no memory. Condition: these are all passes of
    /// this hub, in any order, and none is in a turn.
    pub fn close(self, passes: Vec<Pass<M>>) -> (M, History)
        requires all { length passes.items ≡ self.callers }
        requires ours { All (IsAtRest self.id) passes.items }
        ensures behind { (M.state result.0).world ≡ world (M.state result.0).plan result.1 }
        ensures legal { Legal (M.state result.0).plan result.1 }
        ensures passes { IsClosed (M.state result.0).plan result.1 passes.items }
    {
        let Hub { lock } = self;
        lock.close(passes).into_parts()
    }
}
