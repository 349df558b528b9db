//! A desk over each machine, on one thread: a client that does not wait, a display that calls
//! Done with nothing to show, and a stop, after which nobody waits.
ghost use Rattle.std.specs.Prelude.{◌≡◌, false, length, IfOk};
ghost use Rattle.vz_rules.specs.World.{opening};

use crate::row::plan_of;
use std::alloc::Global;
use std::process::Abort;
use std::sync::Wait;
use std::test::Fail;
use vz_base::Memory;
use vz_desk::{Answer, Desk, DisplayEnd, End, Gathered};
use vz_frame::Message;
use vz_machine::Machine;
use vz_manager::Manager;
use vz_rules::Plan;
use vz_slow::PlainMachine;

/// The reasons of two stops.
#[derive(Clone, Copy, PartialEq, Eq)]
enum Why {
    First,
    Second,
}

/// Whether a call made the entry at a place, and whether that refuses a message or not.
fn tells(answer: &Result<Answer<Why>, Memory>, place: u64, refused: bool) -> bool {
    match answer {
        Ok(answer) => match answer {
            Answer::Did(note) => note.place == place && note.refused == refused,
            Answer::Stopped(_) => false,
        },
        Err(_) => false,
    }
}

/// Whether a call tells the reason of the first stop.
fn is_stopped(answer: &Result<Answer<Why>, Memory>) -> bool {
    match answer {
        Ok(answer) => match answer {
            Answer::Did(_) => false,
            Answer::Stopped(why) => *why == Why::First,
        },
        Err(_) => false,
    }
}

/// Tries to take a message that comes too early, calls Done, begins a frame, and tries to take the
/// message again. Returns whether each call made its entry.
fn tries<M: Machine + Send, R: Wait + AllocGlobal>(
    rt: &R,
    desk: &Desk<M, Why>,
    end: &mut End<M, Why>,
    display: &mut DisplayEnd<M, Why>,
) -> bool
where
    M::Picture: Send,
    requires end { end.old.desk ≡ desk.now.id }
    requires display { display.old.desk ≡ desk.now.id }
    requires lands { display.old.totals.in_flight ≡ false }
    ensures end { end.new.desk ≡ end.old.desk }
    ensures display { display.new.desk ≡ display.old.desk }
{
    let early = desk.try_client(rt, end);
    let nothing = desk.empty_done(rt, display);
    let begun = desk.begin(rt, display);
    let in_time = desk.try_client(rt, end);
    let before = tells(&early, 1, true) && tells(&nothing, 2, false);
    before && tells(&begun, 3, false) && tells(&in_time, 4, false)
}

/// Stops the desk twice. Returns whether each call then tells the first reason, also those that
/// would wait for a begin-frame or for a client.
fn stops<M: Machine + Send, R: Wait + AllocGlobal>(
    rt: &R,
    desk: &Desk<M, Why>,
    end: &mut End<M, Why>,
    display: &mut DisplayEnd<M, Why>,
) -> bool
where
    M::Picture: Send,
    requires end { end.old.desk ≡ desk.now.id }
    requires display { display.old.desk ≡ desk.now.id }
    requires lands { display.old.totals.in_flight ≡ false }
    ensures end { end.new.desk ≡ end.old.desk }
    ensures display { display.new.desk ≡ display.old.desk }
{
    desk.stop(rt, end, Why::First);
    desk.stop_display(rt, display, Why::Second);
    let paused = desk.pace(rt, display);
    let done = desk.empty_done(rt, display);
    let tried = desk.try_client(rt, end);
    let waited = desk.client(rt, end);
    let display = paused == Some(Why::First) && is_stopped(&done);
    display && is_stopped(&tried) && is_stopped(&waited)
}

/// Whether the calls of a desk over a machine tell what they must.
fn is_tried_and_stopped<M: Machine + Send + Drop, R: Wait + AllocGlobal + Abort>(
    rt: &R,
    machine: M,
) -> bool
where
    M::Picture: Send,
    requires opening { (M.state machine).world ≡ opening (M.state machine).plan }
    requires one { length (M.state machine).plan.files ≡ 1 }
{
    let Ok((desk, mut ends, mut display)) = Desk::open(rt.alloc(), machine, 1) else {
        return false;
    };
    let mut end = ends.pop().unwrap();
    let tried = tries(rt, &desk, &mut end, &mut display);
    assert!(rt; !display.in_flight());
    let stopped = stops(rt, &desk, &mut end, &mut display);
    assert!(rt; !display.in_flight());
    ends.push_reserved(end);
    let Gathered { machine, history } = desk.gather(ends, display, None);
    drop(machine);
    tried & stopped & (history.as_slice().len() == 4)
}

/// The plan of one client that waits twice.
fn waits_twice(alloc: Global) -> Result<Plan, Fail>
    ensures { IfOk result (λ p. length p.files ≡ 1) }
{
    let messages = Vec::from_array(alloc, [Message::Await, Message::Await])?;
    let plan = plan_of(alloc, messages)?;
    Ok(plan)
}

#[test]
fn a_desk_is_tried_and_stopped(rt: HostRuntime) -> Result<(), Fail> {
    let plan = waits_twice(rt.alloc())?;
    let machine = PlainMachine::new(rt.alloc(), &plan);
    assert!(&rt; is_tried_and_stopped(&rt, machine));
    Ok(())
}

#[test]
fn a_desk_over_the_fast_machine_is_tried_and_stopped(rt: HostRuntime) -> Result<(), Fail> {
    let Ok(machine) = Manager::open(rt.alloc(), waits_twice(rt.alloc())?) else {
        panic!(&rt; "memory")
    };
    assert!(&rt; is_tried_and_stopped(&rt, machine));
    Ok(())
}
