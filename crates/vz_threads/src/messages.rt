//! How the messages of one client are taken.
ghost use Rattle.std.specs.Prelude.{◌≡◌, ◌+◌, ◌<◌, ◌≤◌, OnOk};
ghost use Rattle.vz_threads.specs.Crews.{MayTake, WorksOn, IsServed};
ghost use Rattle.vz_threads.specs.Told.{anything};

use crate::halt::Halt;
use std::alloc::AllocGlobal;
use std::sync::Wait;
use vz_base::Memory;
use vz_desk::{Answer, Desk, End};
use vz_machine::Machine;
use vz_outside::{Gate, Turn, gated};

// Takes one message, with the gate around it. The error is `Memory` if the desk was stopped or an
// allocation failed. If an allocation failed, the desk is stopped.
fn take_next<M: Machine + Send, G: Gate, R: Wait + AllocGlobal>(
    rt: &R,
    desk: &Desk<M, Halt>,
    gate: &G,
    end: &mut End<M, Halt>,
    count: u64,
) -> Result<(), Memory>
where
    M::Picture: Send,
    requires may { MayTake (G.told gate.now) desk.now.id count end.old }
    requires left { end.old.totals.taken < count }
    ensures works { WorksOn (G.told gate.now) end.old end.new }
    ensures one { OnOk result (end.new.totals.taken ≡ end.old.totals.taken + 1) }
{
    let turn = Turn {
        actor: end.client(),
        number: end.calls() + 1,
    };
    gated(
        gate,
        turn,
        end,
        |end|
            requires may { MayTake anything desk.now.id count end.old }
            requires left { end.old.totals.taken < count }
            ensures works { WorksOn anything end.old end.new }
            ensures one { OnOk result (end.new.totals.taken ≡ end.old.totals.taken + 1) }
            ensures most { end.new.totals.taken ≤ end.old.totals.taken + 1 }
        { take_one(rt, desk, end, count) },
    )
}

// Takes one message. The error is `Memory` if the desk was stopped or an allocation failed. If an
// allocation failed, the desk is stopped.
fn take_one<M: Machine + Send, R: Wait + AllocGlobal>(
    rt: &R,
    desk: &Desk<M, Halt>,
    end: &mut End<M, Halt>,
    count: u64,
) -> Result<(), Memory>
where
    M::Picture: Send,
    requires may { MayTake anything desk.now.id count end.old }
    requires left { end.old.totals.taken < count }
    ensures works { WorksOn anything end.old end.new }
    ensures one { OnOk result (end.new.totals.taken ≡ end.old.totals.taken + 1) }
    ensures most { end.new.totals.taken ≤ end.old.totals.taken + 1 }
{
    let answer = desk.client(rt, end);
    let _ = end.client();
    match answer {
        Ok(made) => match made {
            Answer::Did(_) => Ok(()),
            Answer::Stopped(_) => Err(Memory),
        },
        Err(memory) => {
            desk.stop(rt, end, Halt::Memory);
            Err(memory)
        }
    }
}

/// Takes the messages of a client that are left, until the end has taken all `count` messages of
/// its file. The error is `Memory` if the desk was stopped or an allocation failed, and then they
/// are not all taken. If an allocation failed, the desk is stopped.
pub(crate) fn take_messages<M: Machine + Send, G: Gate, R: Wait + AllocGlobal>(
    rt: &R,
    desk: &Desk<M, Halt>,
    gate: &G,
    end: &mut End<M, Halt>,
    count: u64,
) -> Result<(), Memory>
where
    M::Picture: Send,
    requires { MayTake (G.told gate.now) desk.now.id count end.old }
    ensures works { WorksOn (G.told gate.now) end.old end.new }
    ensures all { OnOk result (end.new.totals.taken ≡ count) }
{
    while end.taken() < count {
        take_next(rt, desk, gate, end, count)?;
    }
    Ok(())
}

/// Takes the messages of a client until it is idle or the end has taken all `count` messages of
/// its file. The error is `Memory` if the desk was stopped or an allocation failed, and then it
/// may stop earlier. If an allocation failed, the desk is stopped.
pub(crate) fn take_until_idle<M: Machine + Send, G: Gate, R: Wait + AllocGlobal>(
    rt: &R,
    desk: &Desk<M, Halt>,
    gate: &G,
    end: &mut End<M, Halt>,
    count: u64,
) -> Result<(), Memory>
where
    M::Picture: Send,
    requires { MayTake (G.told gate.now) desk.now.id count end.old }
    ensures works { WorksOn (G.told gate.now) end.old end.new }
    ensures served { OnOk result (IsServed count end.new) }
{
    while end.taken() < count {
        if desk.idle(rt, end) {
            return Ok(());
        }
        take_next(rt, desk, gate, end, count)?;
    }
    Ok(())
}
