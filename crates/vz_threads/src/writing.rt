//! A run beside the thread that writes its frames.
ghost use Rattle.std.specs.Prelude.{◌≡◌, ◌≤◌, [], Some, length, vec_capacity};
ghost use Rattle.vz_outside.specs.Shelved.{Writing};
ghost use Rattle.vz_rules.specs.Step.{world};
ghost use Rattle.vz_threads.specs.Pipes.{bytes_of, Wrote};
ghost use Rattle.vz_threads.specs.Rounds.{Setup};
ghost use Rattle.vz_threads.specs.Runs.{IsReady, IsOpened, HasRun};

use crate::back::give_back;
use crate::joined::{Chore, Joined, play_joined};
use crate::opening::Opened;
use crate::outlet::Outlet;
use crate::progress::Progress;
use crate::ran::{Ran, gather_run};
use crate::run::Course;
use crate::writer::write_frames;
use std::alloc::AllocGlobal;
use std::sync::Wait;
use std::thread::Threads;
use vz_buffers::SharedBuffer;
use vz_machine::Machine;
use vz_outside::{Gate, Shelf, ShelfError};
use vz_pipe::Receiver;

/// What the writer's thread works with: where the frames come from, where they go, how far it is,
/// and how it ended.
#[derive(Drop)]
struct Writer<'a, F: Shelf> {
    progress: &'a Progress,
    receiver: &'a mut Receiver<SharedBuffer>,
    shelf: &'a mut F,
    slot: u32,
    wrote: Result<(), ShelfError>,
}

impl<'a, F: Shelf> Chore for Writer<'a, F> {
    ghost use Rattle.std.specs.Prelude.{◌≡◌, [], Some};
    ghost use Rattle.vz_outside.specs.Shelved.{Writing};
    ghost use Rattle.vz_threads.specs.Pipes.{bytes_of, Wrote};

    ghost can = { λ w. ((F.shelved w.shelf.now).mode w.slot ≡ Some Writing)
        × (w.receiver.now.taken ≡ []) };

    ghost done = { λ old new. (new.receiver.ghost_name ≡ old.receiver.ghost_name)
        × (new.shelf.ghost_name ≡ old.shelf.ghost_name)
        × (new.receiver.now.pipe ≡ old.receiver.now.pipe)
        × Wrote (bytes_of new.receiver.now.taken) old.slot (F.shelved old.shelf.now)
        (F.shelved new.shelf.now) new.wrote };

    fn carry_out<G: Gate, R: Wait>(&mut self, rt: &R, gate: &G) {
        let wrote = write_frames(
            rt,
            gate,
            self.progress,
            self.receiver,
            self.shelf,
            self.slot,
        );
        self.wrote = wrote;
    }
}

/// Makes a run, and at the same time writes the frames that come through the pipe. If no thread
/// can be made, the writer comes after the rounds. Conditions: those of `run_opened`, no frame was
/// taken from the pipe yet, and the slot is open for writing.
pub(crate) fn run_beside<
    M: Machine + Send + Drop,
    O: Outlet + Drop,
    F: Shelf + Send,
    G: Gate + Sync,
    R,
>(
    rt: &R,
    opened: Opened<M, G>,
    messages: &[u64],
    course: Course,
    gate: &G,
    outlet: O,
    progress: &Progress,
    receiver: &mut Receiver<SharedBuffer>,
    shelf: &mut F,
    slot: u32,
) -> (Ran<M, O>, Result<(), ShelfError>)
where
    M::Picture: Send + Drop,
    R: Threads + Wait + AllocGlobal + Sync,
    requires opened { (k : Setup) × IsReady k (O.stands outlet) × IsOpened k.plan messages.now
        opened.desk.id opened.desk.callers opened.ends.items opened.display }
    requires room { (opened.started.items ≡ [])
        × (length messages.now ≤ vec_capacity opened.started) }
    requires flags { length opened.refused.items ≡ length messages.now }
    requires open { (F.shelved shelf.old).mode slot ≡ Some Writing }
    requires none { receiver.old.taken ≡ [] }
    ensures behind { (M.state result.0.machine).world
        ≡ world (M.state result.0.machine).plan result.0.history.list }
    ensures plan { (k : Setup) → IsOpened k.plan messages.now opened.desk.id opened.desk.callers
        opened.ends.items opened.display → (M.state result.0.machine).plan ≡ k.plan }
    ensures run { (k : Setup) → IsReady k (O.stands outlet) → IsOpened k.plan messages.now
        opened.desk.id opened.desk.callers opened.ends.items opened.display
        → HasRun (G.told gate.now) k course.rounds course.paced (O.stands outlet)
        (O.stands result.0.outlet) result.0.history.list result.0.played }
    ensures pipe { receiver.new.pipe ≡ receiver.old.pipe }
    ensures wrote { Wrote (bytes_of receiver.new.taken) slot (F.shelved shelf.old)
        (F.shelved shelf.new) result.1 }
{
    let Opened {
        desk,
        ends,
        display,
        started,
        refused,
    } = opened;
    let writer = Writer {
        progress,
        receiver,
        shelf,
        slot,
        wrote: Ok(()),
    };
    let Joined { beside, chore } = play_joined(
        rt, &desk, gate, &refused, messages, course, started, ends, display, outlet, writer,
    );
    let Writer {
        receiver,
        shelf,
        wrote,
        ..
    } = chore;
    give_back(receiver, shelf);
    (gather_run(rt, desk, messages, gate, beside), wrote)
}
