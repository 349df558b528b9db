//! A sink in memory, for tests. All of its bytes are known, and calls with chosen numbers fail.
ghost use Rattle.std.specs.Prelude.{◌≡◌, ◌<◌, ◌≤◌, [], length, take, IfOk, OnErr};
ghost use Rattle.vz_outside.specs.InMemory.{Collects, sunk_of};
ghost use Rattle.vz_outside.specs.Numbered.{numbered_from_1};
ghost use Rattle.vz_outside.specs.Sunk.{KeepsBytes, Takes, Behaves};

use crate::numbering::Calls;
use crate::{ShelfError, Sink};
use std::alloc::Global;
use std::marker::Model;

/// A sink that keeps in memory what it takes. Each call takes the whole piece.
#[derive(Drop)]
pub struct MemorySink {
    bytes: Vec<u8>,
    calls: Calls,
}

impl Model for MemorySink {
    ghost use Rattle.vz_outside.specs.InMemory.{Collected};

    ghost Value = { Collected };

    ghost view = { λ s. record { bytes = s.bytes.items; calls = s.calls } };
}

impl MemorySink {
    /// Makes an empty sink. The calls whose numbers, from 1 on, are in `failing` fail.
    pub fn new(alloc: Global, failing: Vec<u64>) -> Self
        ensures { result ≡ record { bytes = []; calls = numbered_from_1 failing.items } }
    {
        MemorySink {
            bytes: Vec::new(alloc),
            calls: Calls::new(failing),
        }
    }

    /// The bytes that it took, in order.
    pub fn bytes(&self) -> &[u8]
        ensures { result.now ≡ self.now.bytes }
    {
        self.bytes.as_slice()
    }

    /// Takes a whole piece, in a call that has a number.
    fn take(&mut self, from: &[u8]) -> Result<usize, ShelfError>
        ensures collects { Collects self.old from.now result self.new }
    {
        self.calls.pass()?;
        self.bytes.extend_from_slice(from)?;
        Ok(from.len())
    }
}

impl Sink for MemorySink {
    ghost use Rattle.std.specs.Prelude.{refl};
    ghost use Rattle.std.proofs.lemmas.Bool.{and_parts, ltb-true};
    ghost use Rattle.vz_outside.specs.InMemory.{sunk_of};

    ghost sunk = { sunk_of };

    ghost faultless_known = { λ sink faultless. (refl, ltb-true _ _ (and_parts _ _ faultless).1) };

    /// The call takes the next number, also if it answers `Memory`. It fails exactly if that
    /// number is a failing one.
    fn write(&mut self, from: &[u8]) -> Result<usize, ShelfError>
        requires piece { 0 < length from.now }
        ensures collects { Collects self.old from.now result self.new }
        ensures some { IfOk result (λ n. 0 < n) }
        ensures count { IfOk result (λ n. n ≤ length from.now) }
        ensures taken { IfOk result (λ n.
            Takes (take n from.now) (sunk_of self.old) (sunk_of self.new)) }
        ensures untouched { OnErr result (KeepsBytes (sunk_of self.old) (sunk_of self.new)) }
        ensures behaves { Behaves (sunk_of self.old) (sunk_of self.new) result }
    {
        self.take(from)
    }
}
