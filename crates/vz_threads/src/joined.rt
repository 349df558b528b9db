//! The rounds of a run beside a thread that does something else.
ghost use Rattle.std.specs.Prelude.{◌≡◌, ◌≤◌, [], length, vec_len, vec_capacity};
ghost use Rattle.vz_threads.specs.Runs.{CanPlay, PlaysOut};

use crate::beside::{Beside, play_beside};
use crate::crew::Started;
use crate::halt::Halt;
use crate::outlet::Outlet;
use crate::run::Course;
use std::alloc::AllocGlobal;
use std::snapshot::Snapshot;
use std::sync::Wait;
use std::sync::atomic::AtomicBool;
use std::thread;
use std::thread::{Promise, Scope, Threads};
use vz_desk::{Desk, DisplayEnd, End};
use vz_machine::Machine;
use vz_outside::Gate;

/// What a thread does beside the rounds of the display.
pub(crate) trait Chore {
    /// Whether it may be done.
    ghost can: { Self → Type 0 };

    /// What holds after it.
    ghost done: { Self → Self → Type 0 };

    fn carry_out<G: Gate, R: Wait>(&mut self, rt: &R, gate: &G)
        requires { can self.old }
        ensures { done self.old self.new };
}

/// A thread returns the chore that was given to it, after it is done.
#[derive(Drop)]
struct Done<C> {
    given: Snapshot<C>,
}

impl<C: Chore> Promise<C> for Done<C> {
    ghost kept_by = { λ p r. C.done p.given.value r };
}

/// What is there after the rounds, and after the chore.
#[derive(Drop)]
pub(crate) struct Joined<M: Machine + Send, O, C> {
    pub(crate) beside: Beside<M, O>,
    pub(crate) chore: C,
}

/// Carries out a chore, and returns it.
fn carried_out<C: Chore, G: Gate, R: Wait>(rt: &R, gate: &G, mut chore: C) -> C
    requires { C.can chore }
    ensures { C.done chore result }
{
    chore.carry_out(rt, gate);
    chore
}

/// Lets the threads and the display work, and at the same time a thread that carries out a chore.
/// If that thread cannot be made, the chore comes after the rounds.
fn play_with<
    's,
    M: Machine + Send + Drop,
    O: Outlet + Drop,
    C: Chore + Send + Drop + 's,
    G: Gate + Sync + 's,
    E,
    R: Threads + Wait + AllocGlobal + Sync + 's,
>(
    rt: &'s R,
    scope: &Scope<'s, E>,
    chore: C,
    desk: &Desk<M, Halt>,
    gate: &'s G,
    refused: &[AtomicBool],
    messages: &[u64],
    course: Course,
    started: Vec<Started<M, G>>,
    ends: Vec<End<M, Halt>>,
    display: DisplayEnd<M, Halt>,
    outlet: O,
) -> Joined<M, O, C>
where
    M::Picture: Send + Drop,
    requires play { CanPlay (G.told gate.now) desk.now.id messages.now course.paced
        (O.stands outlet) ends.items display }
    requires flags { length refused.now ≡ length messages.now }
    requires room { (started.items ≡ []) × (vec_len ends ≤ vec_capacity started) }
    requires can { C.can chore }
    ensures played { PlaysOut (G.told gate.now) course.rounds course.paced (O.stands outlet)
        (O.stands result.beside.outlet) ends.items result.beside.ends.items display
        result.beside.display result.beside.played }
    ensures done { C.done chore result.chore }
{
    let promise = Done {
        given: Snapshot::of(&chore),
    };
    let begun = scope.spawn_with(
        promise,
        move || -> C
            requires { C.can chore }
            ensures { C.done chore result }
        { carried_out(rt, gate, chore) },
    );
    let beside = play_beside(
        rt, desk, gate, refused, messages, course, started, ends, display, outlet,
    );
    match begun {
        Ok(child) => Joined {
            beside,
            chore: child.join(rt),
        },
        Err(unstarted) => Joined {
            beside,
            chore: (unstarted.value)(),
        },
    }
}

/// Starts a thread for each client, makes the rounds of the display on this thread, and at the
/// same time carries out a chore on a thread of its own. Then it waits for all threads. If there
/// can be no thread for the chore, it comes after the rounds. Conditions: those of `play_beside`,
/// and the chore may be done.
pub(crate) fn play_joined<
    M: Machine + Send + Drop,
    O: Outlet + Drop,
    C: Chore + Send + Drop,
    G: Gate + Sync,
    R: Threads + Wait + AllocGlobal + Sync,
>(
    rt: &R,
    desk: &Desk<M, Halt>,
    gate: &G,
    refused: &[AtomicBool],
    messages: &[u64],
    course: Course,
    started: Vec<Started<M, G>>,
    ends: Vec<End<M, Halt>>,
    display: DisplayEnd<M, Halt>,
    outlet: O,
    chore: C,
) -> Joined<M, O, C>
where
    M::Picture: Send + Drop,
    requires play { CanPlay (G.told gate.now) desk.now.id messages.now course.paced
        (O.stands outlet) ends.items display }
    requires flags { length refused.now ≡ length messages.now }
    requires room { (started.items ≡ []) × (vec_len ends ≤ vec_capacity started) }
    requires can { C.can chore }
    ensures played { PlaysOut (G.told gate.now) course.rounds course.paced (O.stands outlet)
        (O.stands result.beside.outlet) ends.items result.beside.ends.items display
        result.beside.display result.beside.played }
    ensures done { C.done chore result.chore }
{
    thread::scope(
        thread::scope_env(),
        rt,
        |scope| -> Joined<M, O, C>
            requires play { CanPlay (G.told gate.now) desk.now.id messages.now course.paced
                (O.stands outlet) ends.items display }
            requires flags { length refused.now ≡ length messages.now }
            requires room { (started.items ≡ []) × (vec_len ends ≤ vec_capacity started) }
            requires can { C.can chore }
            ensures played { PlaysOut (G.told gate.entry.now) course.rounds course.paced
                (O.stands outlet) (O.stands result.beside.outlet) ends.items
                result.beside.ends.items display result.beside.display result.beside.played }
            ensures done { C.done chore result.chore }
        {
            play_with(
                rt, scope, chore, desk, gate, refused, messages, course, started, ends, display,
                outlet,
            )
        },
    )
}
