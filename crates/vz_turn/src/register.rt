//! The state in a hub's lock.
ghost use Rattle.std.specs.Prelude.{◌≡◌, [], IfOk, OnOk, OnErr};
ghost use Rattle.vz_rules.specs.World.{opening};
ghost use Rattle.vz_rules.specs.Step.{NamesClient, Legal};
ghost use Rattle.vz_turn.specs.Registers.{registered_on, machine_of, entries_of, TellsNext};

use crate::Told;
use crate::brief::brief_of;
use crate::step::{entry_of, step_of};
use std::alloc::Global;
use std::marker::Model;
use vz_base::Memory;
use vz_frame::Room;
use vz_loans::Kept;
use vz_machine::Machine;
use vz_rules::{Entry, Event, History, Plan};

/// A machine with its history so far, and the number of the caller of each entry. Contracts see
/// in it the plan, and the entries with these numbers, oldest first. Only the calls of a hub use
/// it; its type is public, as a pass names it.
#[derive(Drop)]
pub struct Register<M: Machine> {
    machine: M,
    history: Room<Entry>,
    callers: Room<u32>,
}

impl<M: Machine> Model for Register<M> {
    ghost use Rattle.std.specs.Prelude.{zip};
    ghost use Rattle.vz_turn.specs.Registers.{Registered, IsRegistered};

    ghost Value = { Registered };

    ghost view = { λ r. record {
      plan = (M.state r.machine).plan;
      log = zip r.callers.list r.history.list;
    } };

    ghost invariant = { λ r. IsRegistered (M.state r.machine) r.callers.list r.history.list };
}

impl<M: Machine + Send> Kept for Register<M> {
    type Plan = Plan;

    type Entry = Entry;

    ghost plan = { λ r. r.plan };

    ghost entries = { λ r. r.log };
}

impl<M: Machine> Register<M> {
    /// Makes a register without an entry. It takes no memory. Condition: the machine is in the
    /// opening world of its plan.
    pub fn new(alloc: Global, machine: M) -> Register<M>
        requires opening { (M.state machine).world ≡ opening (M.state machine).plan }
        ensures plan { result.plan ≡ (M.state machine).plan }
        ensures log { result.log ≡ [] }
    {
        Register {
            machine,
            history: Room::new(alloc),
            callers: Room::new(alloc),
        }
    }

    /// Lets the machine take an event, and puts the entry with the caller's number at the end
    /// of the history. It returns the entry's position and its reply in short. The only error
    /// is `Memory`, and then nothing changes. Condition: the client of a client's event is one
    /// of the plan.
    pub fn take(&mut self, alloc: Global, caller: u32, event: Event) -> Result<Told, Memory>
    where
        M::Picture: Drop,
        requires client { NamesClient self.old.plan event }
        ensures ok { OnOk result (self.new ≡ registered_on self.old caller event) }
        ensures told { IfOk result (λ t. TellsNext self.old event t) }
        ensures err { OnErr result (self.new ≡ self.old) }
        ensures legal { Legal self.new.plan (entries_of self.new.log) }
    {
        self.history.reserve(1)?;
        self.callers.reserve(1)?;
        let step = step_of(&mut self.machine, alloc, event)?;
        let entry = entry_of(event, step);
        let reply = brief_of(&entry.reply);
        self.history.put(entry);
        self.callers.put(caller);
        let place = self.history.as_slice().len() as u64;
        Ok(Told { place, reply })
    }

    /// Takes the register apart, into the machine and the whole history. It takes no memory.
    pub fn into_parts(self) -> (M, History)
        ensures machine { M.state result.0 ≡ machine_of self }
        ensures history { result.1 ≡ entries_of self.log }
        ensures legal { Legal self.plan (entries_of self.log) }
    {
        let Register {
            machine,
            history,
            callers: _,
        } = self;
        (machine, history.into_list())
    }
}
