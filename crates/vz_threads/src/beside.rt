//! The threads of the clients and the rounds of the display, at the same time.
ghost use Rattle.std.specs.Prelude.{◌≡◌, ◌≤◌, [], length, vec_len, vec_capacity};
ghost use Rattle.vz_threads.specs.Runs.{CanPlay, PlaysOut};

use crate::crew::{Started, finish_all, start_all};
use crate::halt::Halt;
use crate::outlet::Outlet;
use crate::playing::play;
use crate::run::Course;
use std::alloc::AllocGlobal;
use std::sync::Wait;
use std::sync::atomic::AtomicBool;
use std::thread;
use std::thread::Threads;
use vz_desk::{Desk, DisplayEnd, End};
use vz_machine::Machine;
use vz_outside::{Gate, ShelfError};

/// What is there after all threads have ended.
#[derive(Drop)]
pub(crate) struct Beside<M: Machine + Send, O> {
    pub(crate) ends: Vec<End<M, Halt>>,
    pub(crate) display: DisplayEnd<M, Halt>,
    pub(crate) outlet: O,
    pub(crate) played: Result<(), ShelfError>,
}

/// Starts a thread for each client, makes the rounds of the display on this thread, and waits for
/// all threads. Conditions: each end is of a client of the plan, and each of its calls took a
/// message; the display has made no round yet; and there is room and a flag for each thread.
pub(crate) fn play_beside<
    M: Machine + Send + Drop,
    O: Outlet + Drop,
    G: Gate + Sync,
    R: Threads + Wait + AllocGlobal + Sync,
>(
    rt: &R,
    desk: &Desk<M, Halt>,
    gate: &G,
    refused: &[AtomicBool],
    messages: &[u64],
    course: Course,
    started: Vec<Started<M, G>>,
    ends: Vec<End<M, Halt>>,
    display: DisplayEnd<M, Halt>,
    outlet: O,
) -> Beside<M, O>
where
    M::Picture: Send + Drop,
    requires play { CanPlay (G.told gate.now) desk.now.id messages.now course.paced
        (O.stands outlet) ends.items display }
    requires flags { length refused.now ≡ length messages.now }
    requires room { (started.items ≡ []) × (vec_len ends ≤ vec_capacity started) }
    ensures played { PlaysOut (G.told gate.now) course.rounds course.paced (O.stands outlet)
        (O.stands result.outlet) ends.items result.ends.items display result.display
        result.played }
{
    thread::scope(
        thread::scope_env(),
        rt,
        |scope| -> Beside<M, O>
            requires play { CanPlay (G.told gate.now) desk.now.id messages.now course.paced
                (O.stands outlet) ends.items display }
            requires flags { length refused.now ≡ length messages.now }
            requires room { (started.items ≡ []) × (vec_len ends ≤ vec_capacity started) }
            ensures played { PlaysOut (G.told gate.entry.now) course.rounds course.paced
                (O.stands outlet) (O.stands result.outlet) ends.items result.ends.items display
                result.display result.played }
        {
            let mut ends = ends;
            let mut started = started;
            let mut display = display;
            let mut outlet = outlet;
            let count = ends.len();
            prove!(count <= ends.capacity());
            start_all(
                rt,
                scope,
                desk,
                gate,
                refused,
                messages,
                &mut ends,
                &mut started,
            );
            let played = play(
                rt,
                desk,
                gate,
                &mut started,
                messages,
                course,
                &mut display,
                &mut outlet,
            );
            finish_all(rt, &mut started, &mut ends);
            Beside {
                ends,
                display,
                outlet,
                played,
            }
        },
    )
}
