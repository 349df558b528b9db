//! The target of printed text.
ghost use Rattle.std.specs.Prelude.{◌<◌, ◌≤◌, IsTrue, length, take, IfOk, OnErr};
ghost use Rattle.vz_outside.specs.Faults.{greatest_count};
ghost use Rattle.vz_outside.specs.Sunk.{Sunk, KeepsBytes, Takes, Behaves};

use crate::ShelfError;

/// A target that takes bytes and keeps their order, as standard output does.
pub trait Sink {
    /// What contracts know of the sink.
    ghost sunk: { Self → Sunk };

    /// Takes bytes from the front of a piece, and returns how many, at least 1.
    ///
    /// It returns `Failed` exactly if the call counted a fault, and `Memory` if an allocation
    /// failed. After either error no byte was taken.
    fn write(&mut self, from: &[u8]) -> Result<usize, ShelfError>
        requires piece { 0 < length from.now }
        ensures some { IfOk result (λ n. 0 < n) }
        ensures count { IfOk result (λ n. n ≤ length from.now) }
        ensures taken { IfOk result (λ n.
            Takes (take n from.now) (sunk self.old) (sunk self.new)) }
        ensures untouched { OnErr result (KeepsBytes (sunk self.old) (sunk self.new)) }
        ensures behaves { Behaves (sunk self.old) (sunk self.new) result };

    /// If a sink is faultless, its bytes are known and its count of faults can rise.
    ghost faultless_known: { (s : Self) → IsTrue (sunk s).is_faultless →
        IsTrue (sunk s).is_known × ((sunk s).faults < greatest_count) };
}
