//! The shelf of the tests, which tells a gate of each write.
use crate::gate::TestGate;
use vz_outside::{MemoryShelf, Shelf, ShelfError};

/// A shelf in memory, and the gate that is told of each write before it.
#[derive(Drop)]
pub struct TestShelf<'a> {
    pub shelf: MemoryShelf,
    pub gate: &'a TestGate,
}

impl<'a> Shelf for TestShelf<'a> {
    ghost use Rattle.std.specs.Prelude.{refl};
    ghost use Rattle.std.proofs.lemmas.Bool.{and_parts, ltb-true};
    ghost use Rattle.vz_outside.specs.InMemory.{shelved_of};

    ghost shelved = { λ s. shelved_of s.shelf };

    ghost faultless_known = { λ s faultless. (refl, ltb-true _ _ (and_parts _ _ faultless).1) };

    fn open(&mut self, name: &str) -> Result<u32, ShelfError> {
        self.shelf.open(name)
    }

    fn create(&mut self, name: &str) -> Result<u32, ShelfError> {
        self.shelf.create(name)
    }

    fn read(&mut self, slot: u32, into: &mut [u8]) -> Result<usize, ShelfError> {
        self.shelf.read(slot, into)
    }

    fn write(&mut self, slot: u32, from: &[u8]) -> Result<usize, ShelfError> {
        self.gate.write();
        self.shelf.write(slot, from)
    }
}
