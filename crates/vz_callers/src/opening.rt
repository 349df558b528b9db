//! What is made before the threads start.
ghost use Rattle.std.specs.Prelude.{◌≡◌, ◌+◌, ◌≤◌, ◌<◌, [], length, vec_capacity, IfOk, Some};
ghost use Rattle.vz_base.specs.declared.limits.TheConstants.{MOST_FILES};
ghost use Rattle.vz_loans.specs.Tokens.{unused, unused_from};
ghost use Rattle.vz_rules.specs.World.{opening};

use crate::crew::Started;
use std::alloc::Global;
use vz_base::Memory;
use vz_machine::Machine;
use vz_outside::Gate;
use vz_turn::{Hub, Pass};

/// A hub with its passes, and room for the threads.
pub(crate) struct Opened<M: Machine + Send, G: Gate> {
    /// The hub, for the display and the clients.
    pub(crate) hub: Hub<M>,
    /// The pass of each client, in order.
    pub(crate) passes: Vec<Pass<M>>,
    /// The pass of the display.
    pub(crate) display: Pass<M>,
    /// Room for the threads, none of them started yet.
    pub(crate) started: Vec<Started<M, G>>,
}

/// Makes a hub of a machine for the display and so many clients, and room for the thread of each
/// client. The only error is `Memory`, and then the machine is lost. Conditions: the machine is in
/// the opening world of its plan, and there are at most `MOST_FILES` clients.
pub(crate) fn open_turns<M: Machine + Send + Drop, G: Gate>(
    alloc: Global,
    machine: M,
    clients: usize,
) -> Result<Opened<M, G>, Memory>
where
    M::Picture: Send,
    requires opening { (M.state machine).world ≡ opening (M.state machine).plan }
    requires few { clients ≤ MOST_FILES }
    ensures callers { IfOk result (λ o. o.hub.callers ≡ clients + 1) }
    ensures display { IfOk result (λ o. o.display
        ≡ unused o.hub.id (Some (M.state machine).plan) 0) }
    ensures passes { IfOk result (λ o. o.passes.items
        ≡ unused_from o.hub.id (Some (M.state machine).plan) 1 clients) }
    ensures spare { IfOk result (λ o. clients < vec_capacity o.passes) }
    ensures none { IfOk result (λ o. o.started.items ≡ []) }
    ensures room { IfOk result (λ o. clients ≤ vec_capacity o.started) }
{
    let started = Vec::with_capacity(alloc, clients)?;
    let (hub, mut passes) = Hub::open(alloc, machine, clients as u32 + 1)?;
    let count = passes.len();
    prove!(count <= passes.capacity());
    let display = passes.remove(0);
    Ok(Opened {
        hub,
        passes,
        display,
        started,
    })
}
