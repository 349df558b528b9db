//! What is printed at the end of a call, and its status.
ghost use Rattle.std.specs.Prelude.{◌≡◌, ◌≢◌, ◌<◌, ◌≤◌, ◌⊎◌, IsTrue};
ghost use Rattle.viz_run.specs.declared.refused.Refused.{Refused as Refusal};
ghost use Rattle.vz_outside.specs.Faults.{one_more};
ghost use Rattle.vz_outside.specs.Sunk.{Takes, TakesFront, StaysFaultless};
ghost use Rattle.viz_run.specs.Lines.{words_line, refused_line};
ghost use Rattle.viz_run.specs.Stops.{IsRefusal, due_line};
ghost use Rattle.viz_run.specs.declared.stop.Stop.TheVariants as stops;

use crate::Refused;
use crate::lines::{WORDS_LINE, refused_text};
use crate::stop::Stop;
use std::alloc::Global;
use vz_outside::{ShelfError, Sink, print};

/// Prints a line, and returns a status: the given one if the whole line was printed, 4 if the
/// sink counted a fault, and 5 if an allocation failed. With 4 and 5 a front part of the line was
/// printed, possibly none.
pub fn tell<O: Sink>(out: &mut O, line: &str, status: u8) -> u8
    requires { status < 4 }
    ensures told { result ≡ status → Takes line.now (O.sunk out.old) (O.sunk out.new) }
    ensures begun { 4 ≤ result → TakesFront line.now (O.sunk out.old) (O.sunk out.new) }
    ensures fault { result ≡ 4 → (O.sunk out.new).faults ≡ one_more (O.sunk out.old).faults }
    ensures quiet { result ≢ 4 → (O.sunk out.new).faults ≡ (O.sunk out.old).faults }
    ensures range { (result ≡ status) ⊎ (result ≡ 4) ⊎ (result ≡ 5) }
    ensures known { (O.sunk out.new).is_known ≡ (O.sunk out.old).is_known }
    ensures stays { IsTrue (O.sunk out.old).is_faultless
        → StaysFaultless (O.sunk out.old) (O.sunk out.new) }
{
    match print(out, line.as_bytes()) {
        Ok(()) => status,
        Err(ShelfError::Failed) => 4,
        Err(ShelfError::Memory) => 5,
    }
}

/// Prints why a call stopped, and returns its status: 2 if the words are refused, 3 if an input
/// is refused, 4 after a fault, also one of the sink while it prints, and 5 after a failed
/// allocation. With 4 and 5 a front part of the line was printed, possibly none.
#[tactic(auto, unfolding(crate::specs::Lines::words_line))]
pub fn tell_stop<O: Sink>(alloc: Global, out: &mut O, stop: Stop) -> u8
    ensures words { result ≡ 2 →
        (stop ≡ stops.Words) × Takes words_line (O.sunk out.old) (O.sunk out.new) }
    ensures input { result ≡ 3 → (r : Refusal) × (stop ≡ stops.Input r)
        × Takes (refused_line r) (O.sunk out.old) (O.sunk out.new) }
    ensures begun { 4 ≤ result → TakesFront (due_line stop) (O.sunk out.old) (O.sunk out.new) }
    ensures at_fault { stop ≡ stops.Fault → result ≡ 4 }
    ensures at_memory { stop ≡ stops.Memory → result ≡ 5 }
    ensures silent { (stop ≡ stops.Fault) ⊎ (stop ≡ stops.Memory)
        → O.sunk out.new ≡ O.sunk out.old }
    ensures fault { result ≡ 4 → (stop ≡ stops.Fault)
        ⊎ (IsRefusal stop × ((O.sunk out.new).faults ≡ one_more (O.sunk out.old).faults)) }
    ensures quiet { result ≢ 4 → (O.sunk out.new).faults ≡ (O.sunk out.old).faults }
    ensures range { (2 ≤ result) × (result ≤ 5) }
    ensures known { (O.sunk out.new).is_known ≡ (O.sunk out.old).is_known }
    ensures stays { IsTrue (O.sunk out.old).is_faultless
        → StaysFaultless (O.sunk out.old) (O.sunk out.new) }
{
    match stop {
        Stop::Words => tell(out, WORDS_LINE, 2),
        Stop::Input(refused) => tell_refused(alloc, out, &refused),
        Stop::Fault => 4,
        Stop::Memory => 5,
    }
}

/// Prints which input is refused, and returns the status.
fn tell_refused<O: Sink>(alloc: Global, out: &mut O, refused: &Refused) -> u8
    ensures told { result ≡ 3
        → Takes (refused_line refused.now) (O.sunk out.old) (O.sunk out.new) }
    ensures begun { 4 ≤ result
        → TakesFront (refused_line refused.now) (O.sunk out.old) (O.sunk out.new) }
    ensures fault { result ≡ 4 → (O.sunk out.new).faults ≡ one_more (O.sunk out.old).faults }
    ensures quiet { result ≢ 4 → (O.sunk out.new).faults ≡ (O.sunk out.old).faults }
    ensures range { (3 ≤ result) × (result ≤ 5) }
    ensures known { (O.sunk out.new).is_known ≡ (O.sunk out.old).is_known }
    ensures stays { IsTrue (O.sunk out.old).is_faultless
        → StaysFaultless (O.sunk out.old) (O.sunk out.new) }
{
    match refused_text(alloc, refused) {
        Ok(line) => tell(out, &line, 3),
        Err(_) => 5,
    }
}
