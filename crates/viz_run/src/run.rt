//! The call that runs the whole program.
ghost use Rattle.std.specs.Prelude.{◌≡◌, ◌≢◌, ◌≤◌, ◌⊎◌, IsTrue};
ghost use Rattle.vz_outside.specs.Faults.{CountRose};
ghost use Rattle.vz_player.specs.Gated.{AreGated};
ghost use Rattle.vz_words.specs.Words.{texts};
ghost use Rattle.viz_run.specs.declared.refused.Refused.{Refused as Refusal};
ghost use Rattle.vz_rules.specs.Command.{Command as Asked};
ghost use Rattle.viz_run.specs.Commands.{Asks, AsksNothing};
ghost use Rattle.viz_run.specs.Inputs.{Inputs, AreAccepted, AreRefused};
ghost use Rattle.viz_run.specs.Causes.{EndsWell, RefusesWords, RefusesInput, LeavesFront, PrintsFront};
ghost use Rattle.viz_run.specs.Causes.{MissesLine, KeepsOthers, FindsInputs};
ghost use Rattle.viz_run.specs.Site.{site, outside, IsCalled, CountsNoFault, CountsOneFault};
ghost use Rattle.viz_run.specs.Site.{IsFaultless, KeepsFaultless};

use crate::perform::perform;
use crate::telling::{tell, tell_stop};
use std::sync::Wait;
use std::sync::ledger::Ledger;
use std::thread::Threads;
use vz_buffers::Steps;
use vz_frame::List;
use vz_outside::{Gate, Shelf, Sink};
use vz_rules::Entry;

/// How a call ended, and the history that it made.
#[derive(Drop)]
pub struct Run {
    /// 0: done. 1: a log or its frames have a fault. 2: the words are refused. 3: an input is
    /// refused. 4: the shelf or the sink had a fault. 5: an allocation failed.
    pub status: u8,
    /// The entries that `run`, `step`, `demo`, `hit` and `turns` made, in order. It is empty if
    /// none was made.
    pub history: List<Entry>,
}

/// Runs the program. `words` are those of the command line after the program's name, `shelf` has
/// the files that they name, and `out` gets the line that reports how it ended. `gate` is called
/// before and after each step, and `steps` counts each pixel that is made or painted. `rt` gives
/// memory, and the threads of `run` and `turns`, for which this call waits; no clause says that
/// they end.
pub fn viz<F: Shelf + Send, O: Sink, G: Gate + Sync, L: Ledger, R>(
    rt: &R,
    words: &[String],
    shelf: &mut F,
    out: &mut O,
    gate: &G,
    steps: &mut Steps<L>,
) -> Run
where
    R: Threads + Wait + AllocGlobal + Sync,
    ensures range { result.status ≤ 5 }

    // Status 0 and 1: all was done that the command asks for, and the line that reports how it
    // ended was printed. With 1, a log or its frames have a fault.
    ensures ends { result.status ≤ 1 → EndsWell (texts words.now) result.status result.history
        (outside (F.shelved shelf.old) (O.sunk out.old) steps.old)
        (outside (F.shelved shelf.new) (O.sunk out.new) steps.new) }

    // Status 2: the words ask for nothing, the line says so, and nothing was begun. Such words
    // get no other status, except 4 or 5 if the line cannot be printed.
    ensures words { result.status ≡ 2 → RefusesWords (texts words.now) result.history
        (outside (F.shelved shelf.old) (O.sunk out.old) steps.old)
        (outside (F.shelved shelf.new) (O.sunk out.new) steps.new) }
    ensures no_other { AsksNothing (texts words.now) → (result.status ≡ 2) ⊎ (4 ≤ result.status) }

    // Status 3: an input, as it was read, is the first that is refused, the line says which,
    // where and why, and nothing was begun. If the shelf's bytes are known, a refused input gets
    // no other status than 3, 4 or 5.
    ensures input { result.status ≡ 3 → RefusesInput (texts words.now) result.history
        (outside (F.shelved shelf.old) (O.sunk out.old) steps.old)
        (outside (F.shelved shelf.new) (O.sunk out.new) steps.new) }
    ensures refuses { (c : Asked) (i : Inputs) (r : Refusal) → Asks (texts words.now) c
        → IsTrue (F.shelved shelf.old).is_known → AreRefused (F.shelved shelf.old) c i r
        → (result.status ≡ 3) ⊎ (4 ≤ result.status) }

    // If the inputs are accepted, the command is done, or there is a fault or a failed
    // allocation.
    ensures complete { (c : Asked) (i : Inputs) → Asks (texts words.now) c
        → IsTrue (F.shelved shelf.old).is_known → AreAccepted (F.shelved shelf.old) c i
        → (result.status ≤ 1) ⊎ (4 ≤ result.status) }

    // With status 4 exactly one fault was counted, and with any other status none.
    ensures fault { result.status ≡ 4 → CountsOneFault
        (outside (F.shelved shelf.old) (O.sunk out.old) steps.old)
        (outside (F.shelved shelf.new) (O.sunk out.new) steps.new) }
    ensures quiet { result.status ≢ 4 → CountsNoFault
        (outside (F.shelved shelf.old) (O.sunk out.old) steps.old)
        (outside (F.shelved shelf.new) (O.sunk out.new) steps.new) }

    // Status 4 without a fault of the shelf: only the printed line is incomplete.
    ensures only_line { result.status ≡ 4
        → (CountRose (F.shelved shelf.old).faults (F.shelved shelf.new).faults → ⊥)
        → MissesLine (texts words.now) result.history
        (site (F.shelved shelf.old) steps.old) (site (F.shelved shelf.new) steps.new) }

    // Status 4 and 5: of the line that was due, and of what this history writes, at most front
    // parts were printed and written.
    ensures printed { 4 ≤ result.status → PrintsFront (texts words.now) result.history
        (outside (F.shelved shelf.old) (O.sunk out.old) steps.old)
        (outside (F.shelved shelf.new) (O.sunk out.new) steps.new) }
    ensures front { 4 ≤ result.status → LeavesFront (texts words.now) result.history
        (site (F.shelved shelf.old) steps.old) (site (F.shelved shelf.new) steps.new) }

    // With any status: names that the words do not ask to write keep their bytes.
    ensures others { KeepsOthers (texts words.now) (F.shelved shelf.old) (F.shelved shelf.new) }
    ensures call { IsCalled (outside (F.shelved shelf.old) (O.sunk out.old) steps.old)
        (outside (F.shelved shelf.new) (O.sunk out.new) steps.new) }

    // With any status: the gate was told before and after the step of each entry of the history:
    // of the n-th entry of an actor, which is the display or a client, as its step n.
    ensures gated { AreGated (G.told gate.now) result.history }

    // Faultless devices stay faultless and count no fault, if the files that are to be read
    // exist.
    ensures sound { IsFaultless (outside (F.shelved shelf.old) (O.sunk out.old) steps.old)
        → FindsInputs (texts words.now) (F.shelved shelf.old)
        → KeepsFaultless (outside (F.shelved shelf.old) (O.sunk out.old) steps.old)
        (outside (F.shelved shelf.new) (O.sunk out.new) steps.new) }
{
    let mut history = List::new(rt.alloc());
    match perform(rt, words, shelf, gate, steps, &mut history) {
        Ok(ended) => Run {
            status: tell(out, &ended.line, ended.status),
            history,
        },
        Err(stop) => Run {
            status: tell_stop(rt.alloc(), out, stop),
            history,
        },
    }
}
