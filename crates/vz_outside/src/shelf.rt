//! A shelf of named files.
ghost use Rattle.std.specs.Prelude.{◌≡◌, ◌<◌, ◌≤◌, IsTrue, Some, length, take, [], IfOk, OnOk, OnErr, IsErrOf};
ghost use Rattle.vz_outside.specs.Faults.{greatest_count};
ghost use Rattle.vz_outside.specs.Shelved.{Shelved, Reading, Writing, Holds, IsMissing, IsAtEnd, IsOpened, Consumes, Appends, KeepsBytes, ReadsOnly, KeepsOthers, IsUntouched, Behaves, BehavesUnless};
ghost use Rattle.vz_outside.specs.declared.shelf.ShelfError.TheVariants.{Failed, Memory};

use std::alloc::{AllocError, AllocFailed};
use std::error::Error;
use std::fmt;

/// The errors of a call on a shelf or a sink.
#[derive(Clone, Copy, Debug, PartialEq, Eq)]
pub enum ShelfError {
    /// The device failed, or the file is not there. The call counted a fault.
    Failed,
    /// An allocation failed.
    Memory,
}

impl fmt::Display for ShelfError {
    ghost use Rattle.vz_outside.specs.Messages.{error_text};

    ghost output = { λ e. Some (error_text e) };

    fn fmt<W: fmt::Write>(&self, f: &mut fmt::Formatter<W>) -> fmt::Result {
        match self {
            ShelfError::Failed => write!(f, "the device failed"),
            ShelfError::Memory => write!(f, "out of memory"),
        }
    }
}

impl Error for ShelfError {}

impl From<AllocError> for ShelfError {
    ghost from_gives = { λ _ e. e ≡ Memory };

    fn from(_error: AllocError) -> Self {
        ShelfError::Memory
    }
}

impl<T: Drop> From<AllocFailed<T>> for ShelfError {
    ghost from_gives = { λ _ e. e ≡ Memory };

    fn from(_error: AllocFailed<T>) -> Self {
        ShelfError::Memory
    }
}

impl From<vz_base::Memory> for ShelfError {
    ghost from_gives = { λ _ e. e ≡ Memory };

    fn from(_error: vz_base::Memory) -> Self {
        ShelfError::Memory
    }
}

/// Named files. A file is opened in a slot, for reading or for writing, and the slot stays open.
///
/// A call returns `Failed` exactly if it counted a fault, and `Memory` if an allocation failed.
/// After either error, a shelf whose bytes are known has the same slots and bytes as before, and
/// the same bytes left to read.
pub trait Shelf {
    /// What contracts know of the shelf.
    ghost shelved: { Self → Shelved };

    /// Opens an existing file for reading from its first byte, in a slot that was not open. The
    /// error is `Failed` if no file has the name.
    fn open(&mut self, name: &str) -> Result<u32, ShelfError>
        ensures opened { IfOk result (λ slot.
            IsOpened Reading name.now slot (shelved self.old) (shelved self.new)) }
        ensures whole { IfOk result (λ slot.
            Holds ((shelved self.new).rest slot) name.now (shelved self.old)) }
        ensures missing { IsMissing name.now (shelved self.old) → IsErrOf result Failed }
        ensures kept { KeepsBytes (shelved self.old) (shelved self.new) }
        ensures untouched { OnErr result (IsUntouched (shelved self.old) (shelved self.new)) }
        ensures behaves { BehavesUnless (IsMissing name.now (shelved self.old))
            (shelved self.old) (shelved self.new) result };

    /// Creates an empty file, which replaces any file with this name, and opens it for writing in
    /// a slot that was not open.
    fn create(&mut self, name: &str) -> Result<u32, ShelfError>
        ensures opened { IfOk result (λ slot.
            IsOpened Writing name.now slot (shelved self.old) (shelved self.new)) }
        ensures emptied { OnOk result (Holds [] name.now (shelved self.new)) }
        ensures others { KeepsOthers name.now (shelved self.old) (shelved self.new) }
        ensures untouched { OnErr result (IsUntouched (shelved self.old) (shelved self.new)) }
        ensures behaves { Behaves (shelved self.old) (shelved self.new) result };

    /// Reads the next bytes of a slot into the front of a piece, and returns how many. 0 means
    /// that the file has ended. Conditions: the slot is open for reading, and the piece is not
    /// empty.
    fn read(&mut self, slot: u32, into: &mut [u8]) -> Result<usize, ShelfError>
        requires open { (shelved self.old).mode slot ≡ Some Reading }
        requires piece { 0 < length into.old }
        ensures count { IfOk result (λ n. n ≤ length into.old) }
        ensures moved { IfOk result (λ n.
            Consumes (take n into.new) slot (shelved self.old) (shelved self.new)) }
        ensures ended { IfOk result (λ n. n ≡ 0 → IsAtEnd slot (shelved self.old)) }
        ensures kept { ReadsOnly slot (shelved self.old) (shelved self.new) }
        ensures untouched { OnErr result (IsUntouched (shelved self.old) (shelved self.new)) }
        ensures behaves { Behaves (shelved self.old) (shelved self.new) result };

    /// Appends bytes from the front of a piece to the slot's file, and returns how many, at least
    /// 1. Conditions: the slot is open for writing, and the piece is not empty.
    fn write(&mut self, slot: u32, from: &[u8]) -> Result<usize, ShelfError>
        requires open { (shelved self.old).mode slot ≡ Some Writing }
        requires piece { 0 < length from.now }
        ensures some { IfOk result (λ n. 0 < n) }
        ensures count { IfOk result (λ n. n ≤ length from.now) }
        ensures appended { IfOk result (λ n.
            Appends (take n from.now) ((shelved self.old).name slot)
            (shelved self.old) (shelved self.new)) }
        ensures others { KeepsOthers ((shelved self.old).name slot)
            (shelved self.old) (shelved self.new) }
        ensures untouched { OnErr result (IsUntouched (shelved self.old) (shelved self.new)) }
        ensures behaves { Behaves (shelved self.old) (shelved self.new) result };

    /// If a shelf is faultless, its bytes are known and its count of faults can rise.
    ghost faultless_known: { (s : Self) → IsTrue (shelved s).is_faultless →
        IsTrue (shelved s).is_known × ((shelved s).faults < greatest_count) };
}
