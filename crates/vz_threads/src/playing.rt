//! What the display does in a run while the threads of the clients take messages.
ghost use Rattle.std.specs.Prelude.{◌≡◌, ◌⊎◌, All, OnOk, OnErr, vec_len, vec_capacity};
ghost use Rattle.vz_rules.specs.declared.entry.Event.TheVariants as event;
ghost use Rattle.vz_desk.specs.Displays.{Displays};
ghost use Rattle.vz_desk.specs.Owners.{IsSameOwner, MakesNone};
ghost use Rattle.vz_threads.specs.Crews.{IsCrew, CrewWorksOn, crew_of, IsToldBy};
ghost use Rattle.vz_threads.specs.Rounds.{IsSomewhere, HasBegunPlay, PlaysRound, PlaysAll, EndsRounds, IsCutFrom, IsCutShort};
ghost use Rattle.vz_threads.specs.Told.{HasToldAll, IsToldOf};

use crate::crew::{Started, serve_all};
use crate::halt::Halt;
use crate::outlet::Outlet;
use crate::rounds::{begin_frame, end_round, tell_over};
use crate::run::Course;
use std::alloc::AllocGlobal;
use std::sync::Wait;
use std::thread::Threads;
use vz_base::Memory;
use vz_desk::{Desk, DisplayEnd};
use vz_machine::Machine;
use vz_outside::{Gate, ShelfError};

/// Begins a frame, and takes messages of the clients without a thread until they are idle. The
/// error is `Memory` if the desk was stopped or an allocation failed.
fn open_round<M: Machine + Send, G: Gate, R: Wait + AllocGlobal>(
    rt: &R,
    desk: &Desk<M, Halt>,
    gate: &G,
    started: &mut Vec<Started<M, G>>,
    messages: &[u64],
    d: &mut DisplayEnd<M, Halt>,
) -> Result<(), Memory>
where
    M::Picture: Send,
    requires desk { d.old.desk ≡ desk.now.id }
    requires crew { IsCrew (G.told gate.now) desk.now.id messages.now (crew_of started.old.items) }
    ensures same { IsSameOwner d.old d.new }
    ensures made { OnOk result (Displays d.old d.new event.Begin) }
    ensures none { OnErr result (Displays d.old d.new event.Begin ⊎ MakesNone d.old d.new) }
    ensures told { IsToldOf (G.told gate.now) d.old → IsToldOf (G.told gate.now) d.new }
    ensures count { vec_len started.new ≡ vec_len started.old }
    ensures works { CrewWorksOn (G.told gate.now)
        (crew_of started.old.items) (crew_of started.new.items) }
    ensures gates { All (IsToldBy gate.now) started.old.items
        → All (IsToldBy gate.now) started.new.items }
{
    begin_frame(rt, desk, gate, d)?;
    serve_all(rt, desk, gate, started, messages)?;
    Ok(())
}

/// Makes a round. After an error a front part of the bytes of its frame was written. Conditions:
/// the end is of this desk, the display is somewhere in its run, and each call of an end without
/// a thread took a message.
fn play_round<M: Machine + Send, O: Outlet, G: Gate, R: Threads + Wait + AllocGlobal + Sync>(
    rt: &R,
    desk: &Desk<M, Halt>,
    gate: &G,
    started: &mut Vec<Started<M, G>>,
    messages: &[u64],
    paced: bool,
    d: &mut DisplayEnd<M, Halt>,
    outlet: &mut O,
) -> Result<(), ShelfError>
where
    M::Picture: Send + Drop,
    requires desk { d.old.desk ≡ desk.now.id }
    requires crew { IsCrew (G.told gate.now) desk.now.id messages.now (crew_of started.old.items) }
    requires somewhere { IsSomewhere (O.stands outlet.old) d.old }
    ensures same { IsSameOwner d.old d.new }
    ensures played { OnOk result
        (PlaysRound paced (O.stands outlet.old) d.old (O.stands outlet.new) d.new) }
    ensures cut { OnErr result
        (IsCutFrom (O.stands outlet.old) d.old (O.stands outlet.new) d.new result) }
    ensures told { IsToldOf (G.told gate.now) d.old → IsToldOf (G.told gate.now) d.new }
    ensures count { vec_len started.new ≡ vec_len started.old }
    ensures works { CrewWorksOn (G.told gate.now)
        (crew_of started.old.items) (crew_of started.new.items) }
    ensures gates { All (IsToldBy gate.now) started.old.items
        → All (IsToldBy gate.now) started.new.items }
{
    let Ok(()) = open_round(rt, desk, gate, started, messages, d) else {
        return Err(ShelfError::Memory);
    };
    end_round(rt, desk, gate, paced, d, outlet)?;
    Ok(())
}

/// Makes the rounds, takes the event Over, and closes the outlet. After an error the desk is
/// stopped, and a front part of the bytes of the frames was written. Conditions: the end is of
/// this desk, the display has made no round yet, and each call of an end without a thread took a
/// message.
pub(crate) fn play<M: Machine + Send, O: Outlet, G: Gate, R: Threads + Wait + AllocGlobal + Sync>(
    rt: &R,
    desk: &Desk<M, Halt>,
    gate: &G,
    started: &mut Vec<Started<M, G>>,
    messages: &[u64],
    course: Course,
    d: &mut DisplayEnd<M, Halt>,
    outlet: &mut O,
) -> Result<(), ShelfError>
where
    M::Picture: Send + Drop,
    requires desk { d.old.desk ≡ desk.now.id }
    requires crew { IsCrew (G.told gate.now) desk.now.id messages.now (crew_of started.old.items) }
    requires begun { HasBegunPlay course.paced (O.stands outlet.old) d.old }
    ensures same { IsSameOwner d.old d.new }
    ensures played { OnOk result
        (PlaysAll course.paced (O.stands outlet.old) d.old (O.stands outlet.new) d.new course.rounds) }
    ensures cut { OnErr result
        (IsCutShort course.paced (O.stands outlet.old) d.old (O.stands outlet.new) d.new result) }
    ensures told { IsToldOf (G.told gate.now) d.old → HasToldAll (G.told gate.now) d.new }
    ensures count { vec_len started.new ≡ vec_len started.old }
    ensures works { CrewWorksOn (G.told gate.now)
        (crew_of started.old.items) (crew_of started.new.items) }
    ensures gates { All (IsToldBy gate.now) started.old.items
        → All (IsToldBy gate.now) started.new.items }
{
    for _ in 0..course.rounds {
        if let Err(error) = play_round(rt, desk, gate, started, messages, course.paced, d, outlet) {
            stop_early(rt, desk, d, outlet, error);
            return Err(error);
        }
    }
    if let Err(error) = end_rounds(rt, desk, gate, d, outlet) {
        stop_early(rt, desk, d, outlet, error);
        return Err(error);
    }
    Ok(())
}

/// Takes the event Over, and closes the outlet. The only error is `Memory`, if the desk was
/// stopped or a frame was not written. Condition: the end is of this desk.
fn end_rounds<M: Machine + Send, O: Outlet, G: Gate, R: Wait>(
    rt: &R,
    desk: &Desk<M, Halt>,
    gate: &G,
    d: &mut DisplayEnd<M, Halt>,
    outlet: &mut O,
) -> Result<(), ShelfError>
where
    M::Picture: Send,
    requires { d.old.desk ≡ desk.now.id }
    ensures same { IsSameOwner d.old d.new }
    ensures ended { OnOk result
        (EndsRounds (O.stands outlet.old) d.old (O.stands outlet.new) d.new) }
    ensures cut { OnErr result
        (IsCutFrom (O.stands outlet.old) d.old (O.stands outlet.new) d.new result) }
    ensures told { IsToldOf (G.told gate.now) d.old → HasToldAll (G.told gate.now) d.new }
{
    let Ok(()) = tell_over(rt, desk, gate, d) else {
        return Err(ShelfError::Memory);
    };
    outlet.close(rt);
    if outlet.is_cut(rt) {
        return Err(ShelfError::Memory);
    }
    Ok(())
}

/// Stops the desk after an error, and closes the outlet. Condition: the end is of this desk.
fn stop_early<M: Machine + Send, O: Outlet, R: Wait>(
    rt: &R,
    desk: &Desk<M, Halt>,
    d: &mut DisplayEnd<M, Halt>,
    outlet: &mut O,
    error: ShelfError,
)
where
    M::Picture: Send,
    requires { d.old.desk ≡ desk.now.id }
    ensures same { IsSameOwner d.old d.new }
    ensures none { MakesNone d.old d.new }
    ensures stands { O.stands outlet.new ≡ O.stands outlet.old }
{
    desk.stop_display(rt, d, halt_for(error));
    outlet.close(rt);
}

/// The reason for which an error stops a run.
fn halt_for(error: ShelfError) -> Halt {
    match error {
        ShelfError::Failed => Halt::Fault,
        ShelfError::Memory => Halt::Memory,
    }
}
