//! What the display does in a round. The gate is called before and after each step.
ghost use Rattle.std.specs.Prelude.{◌≡◌, ◌+◌, true, IfOk, OnOk, OnErr, IsTrue, IsFalse};
ghost use Rattle.vz_rules.specs.declared.entry.Event.TheVariants as event;
ghost use Rattle.vz_outside.specs.Told.{number_of};
ghost use Rattle.vz_desk.specs.Answers.{IsPaused};
ghost use Rattle.vz_desk.specs.Displays.{Displays, EndsFrame};
ghost use Rattle.vz_desk.specs.Drawings.{IsDrawing};
ghost use Rattle.vz_desk.specs.Owners.{IsSameOwner, MakesNone};
ghost use Rattle.vz_threads.specs.Rounds.{IsSomewhere, ShowsOnce, EndsRound, IsCutFrom};
ghost use Rattle.vz_threads.specs.Told.{counted_in, HasToldAll, IsToldOf};

use crate::halt::Halt;
use crate::outlet::Outlet;
use std::alloc::AllocGlobal;
use std::sync::Wait;
use std::thread::Threads;
use vz_base::Memory;
use vz_desk::{Answer, Desk, DisplayEnd, Drawing, Hold};
use vz_machine::Machine;
use vz_outside::{Gate, ShelfError, Turn, gated};

/// The display's next step, as it is named to a gate.
fn next_turn<M: Machine + Send>(d: &DisplayEnd<M, Halt>) -> Turn
where
    M::Picture: Send,
    ensures actor { result.actor ≡ 0 }
    ensures number { result.number ≡ number_of (counted_in d.now.totals + 1) }
{
    let taken = d
        .begins()
        .saturating_add(d.draws())
        .saturating_add(d.dones());
    Turn {
        actor: 0,
        number: taken.saturating_add(1),
    }
}

/// Begins a frame, with the gate around it. The error is `Memory` if the desk was stopped or an
/// allocation failed.
pub(crate) fn begin_frame<M: Machine + Send, G: Gate, R: Wait + AllocGlobal>(
    rt: &R,
    desk: &Desk<M, Halt>,
    gate: &G,
    d: &mut DisplayEnd<M, Halt>,
) -> Result<(), Memory>
where
    M::Picture: Send,
    requires { d.old.desk ≡ desk.now.id }
    ensures same { IsSameOwner d.old d.new }
    ensures made { OnOk result (Displays d.old d.new event.Begin) }
    ensures none { OnErr result (MakesNone d.old d.new) }
    ensures told { IsToldOf (G.told gate.now) d.old → IsToldOf (G.told gate.now) d.new }
{
    let turn = next_turn(d);
    gated(
        gate,
        turn,
        d,
        |d|
            requires { d.now.desk ≡ desk.now.id }
        { begin(rt, desk, d) },
    )
}

/// Begins a frame. The error is `Memory` if the desk was stopped or an allocation failed.
fn begin<M: Machine + Send, R: Wait + AllocGlobal>(
    rt: &R,
    desk: &Desk<M, Halt>,
    d: &mut DisplayEnd<M, Halt>,
) -> Result<(), Memory>
where
    M::Picture: Send,
    requires { d.old.desk ≡ desk.now.id }
    ensures same { IsSameOwner d.old d.new }
    ensures made { OnOk result (Displays d.old d.new event.Begin) }
    ensures none { OnErr result (MakesNone d.old d.new) }
{
    match desk.begin(rt, d)? {
        Answer::Did(_) => Ok(()),
        Answer::Stopped(_) => Err(Memory),
    }
}

/// Takes the event Over, with the gate around it. The error is `Memory` if the desk was stopped or
/// an allocation failed.
pub(crate) fn tell_over<M: Machine + Send, G: Gate, R: Wait>(
    rt: &R,
    desk: &Desk<M, Halt>,
    gate: &G,
    d: &mut DisplayEnd<M, Halt>,
) -> Result<(), Memory>
where
    M::Picture: Send,
    requires { d.old.desk ≡ desk.now.id }
    ensures same { IsSameOwner d.old d.new }
    ensures made { OnOk result (Displays d.old d.new event.Over) }
    ensures none { OnErr result (MakesNone d.old d.new) }
    ensures told { IsToldOf (G.told gate.now) d.old → HasToldAll (G.told gate.now) d.new }
{
    let turn = next_turn(d);
    gated(
        gate,
        turn,
        d,
        |d|
            requires { d.now.desk ≡ desk.now.id }
        { over(rt, desk, d) },
    )
}

/// Takes the event Over. The error is `Memory` if the desk was stopped or an allocation failed.
fn over<M: Machine + Send, R: Wait>(
    rt: &R,
    desk: &Desk<M, Halt>,
    d: &mut DisplayEnd<M, Halt>,
) -> Result<(), Memory>
where
    M::Picture: Send,
    requires { d.old.desk ≡ desk.now.id }
    ensures same { IsSameOwner d.old d.new }
    ensures made { OnOk result (Displays d.old d.new event.Over) }
    ensures none { OnErr result (MakesNone d.old d.new) }
{
    match desk.over(rt, d)? {
        Answer::Did(_) => Ok(()),
        Answer::Stopped(_) => Err(Memory),
    }
}

/// If the run is paced, waits until each attached client is idle or has answered the current
/// begin-frame. The error is `Memory` if the desk was stopped, or if nothing more is written.
fn pause<M: Machine + Send, O: Outlet, R: Wait>(
    rt: &R,
    desk: &Desk<M, Halt>,
    paced: bool,
    d: &mut DisplayEnd<M, Halt>,
    outlet: &O,
) -> Result<(), Memory>
where
    M::Picture: Send,
    requires { d.old.desk ≡ desk.now.id }
    ensures same { IsSameOwner d.old d.new }
    ensures none { MakesNone d.old d.new }
    ensures calm { OnOk result (IsTrue paced → IsPaused d.new) }
    ensures stays { IsFalse paced → d.new ≡ d.old }
{
    if outlet.is_cut(rt) {
        return Err(Memory);
    }
    if !paced {
        return Ok(());
    }
    match desk.pace(rt, d) {
        None => Ok(()),
        Some(_) => Err(Memory),
    }
}

/// Ends a round that was begun: pauses if the run is paced, waits for the buffer that is next,
/// draws, shows the picture, and passes its frame on. After an error a front part of the bytes of
/// the frame was written. Conditions: the end is of this desk, and the display is somewhere in its
/// run.
pub(crate) fn end_round<
    M: Machine + Send,
    O: Outlet,
    G: Gate,
    R: Threads + Wait + AllocGlobal + Sync,
>(
    rt: &R,
    desk: &Desk<M, Halt>,
    gate: &G,
    paced: bool,
    d: &mut DisplayEnd<M, Halt>,
    outlet: &mut O,
) -> Result<(), ShelfError>
where
    M::Picture: Send + Drop,
    requires desk { d.old.desk ≡ desk.now.id }
    requires somewhere { IsSomewhere (O.stands outlet.old) d.old }
    ensures same { IsSameOwner d.old d.new }
    ensures ended { OnOk result
        (EndsRound paced (O.stands outlet.old) d.old (O.stands outlet.new) d.new) }
    ensures cut { OnErr result
        (IsCutFrom (O.stands outlet.old) d.old (O.stands outlet.new) d.new result) }
    ensures told { IsToldOf (G.told gate.now) d.old → IsToldOf (G.told gate.now) d.new }
{
    let Ok(()) = pause(rt, desk, paced, d, outlet) else {
        return Err(ShelfError::Memory);
    };
    outlet.ready(rt);
    show_drawing(rt, desk, gate, d, outlet)?;
    outlet.pass_on(rt);
    Ok(())
}

/// Draws, with the gate around it, and returns the answer.
fn ask_drawing<M: Machine + Send, G: Gate, R: Wait + AllocGlobal>(
    rt: &R,
    desk: &Desk<M, Halt>,
    gate: &G,
    d: &mut DisplayEnd<M, Halt>,
) -> Result<Drawing<M, Halt>, Memory>
where
    M::Picture: Send,
    requires { d.old.desk ≡ desk.now.id }
    ensures same { IsSameOwner d.old d.new }
    ensures drawing { IfOk result (λ x. IsDrawing M.Picture.pictured d.old d.new x) }
    ensures none { OnErr result (MakesNone d.old d.new) }
    ensures told { IsToldOf (G.told gate.now) d.old → IsToldOf (G.told gate.now) d.new }
{
    let turn = next_turn(d);
    gated(
        gate,
        turn,
        d,
        |d|
            requires { d.old.desk ≡ desk.now.id }
            ensures same { IsSameOwner d.old d.new }
            ensures drawing { IfOk result (λ x. IsDrawing M.Picture.pictured d.old d.new x) }
            ensures none { OnErr result (MakesNone d.old d.new) }
        { draw(rt, desk, d) },
    )
}

/// Draws, and returns the answer.
fn draw<M: Machine + Send, R: Wait + AllocGlobal>(
    rt: &R,
    desk: &Desk<M, Halt>,
    d: &mut DisplayEnd<M, Halt>,
) -> Result<Drawing<M, Halt>, Memory>
where
    M::Picture: Send,
    requires { d.old.desk ≡ desk.now.id }
    ensures same { IsSameOwner d.old d.new }
    ensures drawing { IfOk result (λ x. IsDrawing M.Picture.pictured d.old d.new x) }
    ensures none { OnErr result (MakesNone d.old d.new) }
{
    Ok(desk.draw(rt, d)?)
}

/// Draws, shows the picture if there is one, and calls Done. If showing it fails, Done is still
/// called, and a front part of the bytes of the frame was written. Conditions: the end is of this
/// desk, and the display is somewhere in its run.
pub(crate) fn show_drawing<
    M: Machine + Send,
    O: Outlet,
    G: Gate,
    R: Threads + Wait + AllocGlobal + Sync,
>(
    rt: &R,
    desk: &Desk<M, Halt>,
    gate: &G,
    d: &mut DisplayEnd<M, Halt>,
    outlet: &mut O,
) -> Result<(), ShelfError>
where
    M::Picture: Send + Drop,
    requires desk { d.old.desk ≡ desk.now.id }
    requires somewhere { IsSomewhere (O.stands outlet.old) d.old }
    ensures same { IsSameOwner d.old d.new }
    ensures shown { OnOk result
        (ShowsOnce (O.stands outlet.old) d.old (O.stands outlet.new) d.new) }
    ensures cut { OnErr result
        (IsCutFrom (O.stands outlet.old) d.old (O.stands outlet.new) d.new result) }
    ensures told { IsToldOf (G.told gate.now) d.old → IsToldOf (G.told gate.now) d.new }
{
    let Ok(drawing) = ask_drawing(rt, desk, gate, d) else {
        return Err(ShelfError::Memory);
    };
    match drawing {
        Drawing::Drawn(hold, picture) => {
            let shown = outlet.show(rt, picture);
            end_frame(rt, desk, gate, d, hold);
            shown
        }
        Drawing::Other(_) => Ok(()),
        Drawing::Stopped(_) => Err(ShelfError::Memory),
    }
}

/// Calls Done for the drawn frame, with the gate around it: the token of the frame has to be spent,
/// so no closure may hold it. Conditions: the end and the token are of this desk, and a frame is in
/// flight.
fn end_frame<M: Machine + Send, G: Gate, R: Wait>(
    rt: &R,
    desk: &Desk<M, Halt>,
    gate: &G,
    d: &mut DisplayEnd<M, Halt>,
    hold: Hold<M, Halt>,
)
where
    M::Picture: Send,
    requires end { d.old.desk ≡ desk.now.id }
    requires hold { hold ≡ desk.now.id }
    requires flies { d.old.totals.in_flight ≡ true }
    ensures same { IsSameOwner d.old d.new }
    ensures done { EndsFrame d.old d.new }
    ensures told { IsToldOf (G.told gate.now) d.old → IsToldOf (G.told gate.now) d.new }
{
    let turn = next_turn(d);
    gate.before(turn.actor, turn.number);
    desk.done(rt, d, hold);
    gate.after(turn.actor, turn.number);
}
