//! The messages that are left after all threads have ended.
ghost use Rattle.std.specs.Prelude.{◌≡◌, All, OnOk, vec_len, vec_capacity};
ghost use Rattle.vz_threads.specs.Crews.{IsCrew, CrewWorksOn, HasTakenAll};

use crate::crew::count_of;
use crate::halt::Halt;
use crate::messages::take_messages;
use std::alloc::AllocGlobal;
use std::sync::Wait;
use vz_base::Memory;
use vz_desk::{Desk, End};
use vz_machine::Machine;
use vz_outside::Gate;

/// Takes the messages that are left, file by file, until each end has taken all messages of its
/// file. The error is `Memory` if the desk was stopped or an allocation failed, and then the
/// messages are not all taken. If an allocation failed, the desk is stopped.
pub(crate) fn take_left<M: Machine + Send, G: Gate, R: Wait + AllocGlobal>(
    rt: &R,
    desk: &Desk<M, Halt>,
    gate: &G,
    ends: &mut Vec<End<M, Halt>>,
    messages: &[u64],
) -> Result<(), Memory>
where
    M::Picture: Send,
    requires { IsCrew (G.told gate.now) desk.now.id messages.now ends.old.items }
    ensures count { vec_len ends.new ≡ vec_len ends.old }
    ensures capacity { vec_capacity ends.new ≡ vec_capacity ends.old }
    ensures works { CrewWorksOn (G.told gate.now) ends.old.items ends.new.items }
    ensures all { OnOk result (All (HasTakenAll messages.now) ends.new.items) }
{
    for end in ends.iter_mut() {
        let count = count_of(end, messages);
        take_messages(rt, desk, gate, end, count)?;
    }
    Ok(())
}
