//! A shelf in memory, for tests. All of its bytes are known, and calls with chosen numbers fail.
ghost use Rattle.std.specs.Prelude.{◌≡◌, ◌+◌, ◌-◌, ◌<◌, ◌≤◌, [], ◌++◌, Some, min, take, drop, OnOk, length, IfSome, IfOk, OnErr, IsErrOf, vec_len, vec_capacity, string_bytes};
ghost use Rattle.std.specs.Option.{option_copied};
ghost use Rattle.vz_outside.specs.Numbered.{numbered_from_1};
ghost use Rattle.vz_outside.specs.Shelved.{Reading, Writing, Holds, IsMissing, IsAtEnd, IsOpened, Consumes, Appends, KeepsBytes, ReadsOnly, KeepsOthers, IsUntouched, Behaves, BehavesUnless};
ghost use Rattle.vz_outside.specs.declared.shelf.ShelfError.TheVariants.{Failed};
ghost use Rattle.vz_outside.specs.declared.memory.Place.TheVariants.{At};
ghost use Rattle.vz_outside.specs.InMemory.{IsKept, Opens, Creates, Reads, Writes, bytes_in, emptied, extended, files_of, mode_of, first_named, shelved_of};

use crate::numbering::Calls;
use crate::opening::room_for_slot;
use crate::{Shelf, ShelfError};
use std::alloc::Global;
use std::marker::Model;

/// The position of a slot in its file.
#[derive(Clone, Copy)]
enum Place {
    /// The slot is open for reading, and this is the index of the next byte.
    At(usize),
    /// The slot is open for writing at the end of the file.
    End,
}

/// An open slot: the index of its file among the files, and the position in the file.
#[derive(Clone, Copy)]
struct Slot {
    file: usize,
    place: Place,
}

/// A shelf of files in memory.
#[derive(Drop)]
pub struct MemoryShelf {
    files: Vec<(String, Vec<u8>)>,
    slots: Vec<Slot>,
    calls: Calls,
    piece: usize,
}

impl Model for MemoryShelf {
    ghost use Rattle.vz_outside.specs.InMemory.{InMemory, IsKept, files_of};

    ghost Value = { InMemory };

    ghost view = { λ s. record {
      files = files_of s.files.items;
      slots = s.slots.items;
      calls = s.calls;
      piece = s.piece;
    } };

    ghost invariant = { λ s. IsKept (record {
      files = files_of s.files.items;
      slots = s.slots.items;
      calls = s.calls;
      piece = s.piece;
    }) };
}

impl MemoryShelf {
    /// Makes a shelf of these files, each a name and its bytes. If two files have the same name,
    /// the first counts. The calls whose numbers, from 1 on, are in `failing` fail, and each call
    /// moves at most `piece` bytes.
    pub fn new(
        alloc: Global,
        files: Vec<(String, Vec<u8>)>,
        failing: Vec<u64>,
        piece: usize,
    ) -> Self
        requires piece { 0 < piece }
        ensures { result ≡ record {
          files = files_of files.items;
          slots = [];
          calls = numbered_from_1 failing.items;
          piece = piece;
        } }
    {
        MemoryShelf {
            files,
            slots: Vec::new(alloc),
            calls: Calls::new(failing),
            piece,
        }
    }

    /// The bytes of the file with this name, or None if there is none.
    pub fn bytes_of(&self, name: &str) -> Option<&[u8]>
        ensures { option_copied result ≡ bytes_in self.now.files name.now }
    {
        let files = self.files.as_slice();
        let place = first_named(files, name)?;
        Some(files[place].1.as_slice())
    }

    /// Opens the first file with this name for reading.
    fn open_file(&mut self, name: &str) -> Result<u32, ShelfError>
        ensures kept { IsKept self.old }
        ensures opens { Opens self.old name.now result self.new }
    {
        self.calls.pass()?;
        let Some(file) = first_named(&self.files, name) else {
            return Err(self.calls.fail());
        };
        let slot = room_for_slot(&mut self.slots)?;
        self.slots.push_reserved(Slot {
            file,
            place: Place::At(0),
        });
        Ok(slot)
    }

    /// Empties the first file with this name, or makes one if there is none, and opens it for
    /// writing.
    fn create_file(&mut self, name: &str) -> Result<u32, ShelfError>
        ensures kept { IsKept self.old }
        ensures creates { Creates self.old name.now result self.new }
    {
        self.calls.pass()?;
        let slot = room_for_slot(&mut self.slots)?;
        let alloc = *self.slots.allocator();
        let file = empty_file(alloc, &mut self.files, name)?;
        self.slots.push_reserved(Slot {
            file,
            place: Place::End,
        });
        Ok(slot)
    }

    /// Reads the next bytes of a slot into the front of a piece, and returns how many.
    fn read_on(&mut self, slot: u32, into: &mut [u8]) -> Result<usize, ShelfError>
        requires open { (shelved_of self.old).mode slot ≡ Some Reading }
        ensures kept { IsKept self.old }
        ensures reads { Reads self.old slot (length into.old) into.new result self.new }
    {
        self.calls.pass()?;
        let Slot { file, place } = self.slots[slot as usize];
        let next = place.next();
        let moved = copy_piece(self.files[file].1.as_slice(), next, into, self.piece);
        self.slots[slot as usize] = Slot {
            file,
            place: Place::At(next + moved),
        };
        Ok(moved)
    }

    /// Writes the front of a piece to the end of a slot's file, and returns how many bytes.
    fn write_on(&mut self, slot: u32, from: &[u8]) -> Result<usize, ShelfError>
        requires open { (shelved_of self.old).mode slot ≡ Some Writing }
        ensures kept { IsKept self.old }
        ensures writes { Writes self.old slot from.now result self.new }
    {
        self.calls.pass()?;
        let count = self.piece.min(from.len());
        let file = self.slots[slot as usize].file;
        extend_file(&mut self.files, file, &from[..count])?;
        Ok(count)
    }
}

impl Shelf for MemoryShelf {
    ghost use Rattle.std.specs.Prelude.{refl};
    ghost use Rattle.std.proofs.lemmas.Bool.{and_parts, ltb-true};
    ghost use Rattle.vz_outside.specs.InMemory.{shelved_of};

    ghost shelved = { shelved_of };

    ghost faultless_known = { λ shelf faultless. (refl, ltb-true _ _ (and_parts _ _ faultless).1) };

    /// The call takes the next number. It fails exactly if that number is a failing one or no
    /// file has the name.
    fn open(&mut self, name: &str) -> Result<u32, ShelfError>
        ensures opens { Opens self.old name.now result self.new }
        ensures opened { IfOk result (λ slot.
            IsOpened Reading name.now slot (shelved_of self.old) (shelved_of self.new)) }
        ensures whole { IfOk result (λ slot.
            Holds ((shelved_of self.new).rest slot) name.now (shelved_of self.old)) }
        ensures missing { IsMissing name.now (shelved_of self.old) → IsErrOf result Failed }
        ensures kept { KeepsBytes (shelved_of self.old) (shelved_of self.new) }
        ensures untouched { OnErr result (IsUntouched (shelved_of self.old) (shelved_of self.new)) }
        ensures behaves { BehavesUnless (IsMissing name.now (shelved_of self.old))
            (shelved_of self.old) (shelved_of self.new) result }
    {
        self.open_file(name)
    }

    /// The call takes the next number, and fails exactly if that is a failing one.
    fn create(&mut self, name: &str) -> Result<u32, ShelfError>
        ensures creates { Creates self.old name.now result self.new }
        ensures opened { IfOk result (λ slot.
            IsOpened Writing name.now slot (shelved_of self.old) (shelved_of self.new)) }
        ensures emptied { OnOk result (Holds [] name.now (shelved_of self.new)) }
        ensures others { KeepsOthers name.now (shelved_of self.old) (shelved_of self.new) }
        ensures untouched { OnErr result (IsUntouched (shelved_of self.old) (shelved_of self.new)) }
        ensures behaves { Behaves (shelved_of self.old) (shelved_of self.new) result }
    {
        self.create_file(name)
    }

    /// The call takes the next number, and fails exactly if that is a failing one. It moves at
    /// most `piece` bytes.
    fn read(&mut self, slot: u32, into: &mut [u8]) -> Result<usize, ShelfError>
        requires open { (shelved_of self.old).mode slot ≡ Some Reading }
        requires piece { 0 < length into.old }
        ensures reads { Reads self.old slot (length into.old) into.new result self.new }
        ensures count { IfOk result (λ n. n ≤ length into.old) }
        ensures moved { IfOk result (λ n.
            Consumes (take n into.new) slot (shelved_of self.old) (shelved_of self.new)) }
        ensures ended { IfOk result (λ n. n ≡ 0 → IsAtEnd slot (shelved_of self.old)) }
        ensures kept { ReadsOnly slot (shelved_of self.old) (shelved_of self.new) }
        ensures untouched { OnErr result (IsUntouched (shelved_of self.old) (shelved_of self.new)) }
        ensures behaves { Behaves (shelved_of self.old) (shelved_of self.new) result }
    {
        self.read_on(slot, into)
    }

    /// The call takes the next number, and fails exactly if that is a failing one. It moves at
    /// most `piece` bytes.
    fn write(&mut self, slot: u32, from: &[u8]) -> Result<usize, ShelfError>
        requires open { (shelved_of self.old).mode slot ≡ Some Writing }
        requires piece { 0 < length from.now }
        ensures writes { Writes self.old slot from.now result self.new }
        ensures some { IfOk result (λ n. 0 < n) }
        ensures count { IfOk result (λ n. n ≤ length from.now) }
        ensures appended { IfOk result (λ n.
            Appends (take n from.now) ((shelved_of self.old).name slot)
            (shelved_of self.old) (shelved_of self.new)) }
        ensures others { KeepsOthers ((shelved_of self.old).name slot)
            (shelved_of self.old) (shelved_of self.new) }
        ensures untouched { OnErr result (IsUntouched (shelved_of self.old) (shelved_of self.new)) }
        ensures behaves { Behaves (shelved_of self.old) (shelved_of self.new) result }
    {
        self.write_on(slot, from)
    }
}

impl Place {
    /// The index of the next byte to read.
    fn next(self) -> usize
        requires { mode_of self ≡ Reading }
        ensures { self ≡ At result }
    {
        match self {
            Place::At(next) => next,
            Place::End => unreachable!(),
        }
    }
}

/// The index of the first file with this name.
fn first_named(files: &[(String, Vec<u8>)], name: &str) -> Option<usize>
    ensures place { result ≡ first_named (files_of files.now) name.now }
    ensures within { IfSome result (λ place. place < length files.now) }
{
    files.iter().position(|file| file.0.as_str() == name)
}

/// Empties the first file with this name, or appends an empty one, and returns its index.
fn empty_file(
    alloc: Global,
    files: &mut Vec<(String, Vec<u8>)>,
    name: &str,
) -> Result<usize, ShelfError>
    ensures files { OnOk result
        (files_of files.new.items ≡ emptied (files_of files.old.items) name.now) }
    ensures place { IfOk result (λ place.
        first_named (files_of files.new.items) name.now ≡ Some place) }
    ensures same { OnErr result (files_of files.new.items ≡ files_of files.old.items) }
    ensures memory { IsErrOf result Failed → ⊥ }
{
    if let Some(place) = first_named(files, name) {
        files[place].1.clear();
        return Ok(place);
    }
    let place = files.len();
    let name = String::from_str(alloc, name)?;
    files.push((name, Vec::new(alloc)))?;
    Ok(place)
}

/// Appends bytes to the file at an index.
fn extend_file(
    files: &mut Vec<(String, Vec<u8>)>,
    place: usize,
    more: &[u8],
) -> Result<(), ShelfError>
    requires { place < vec_len files.old }
    ensures files { OnOk result
        (files_of files.new.items ≡ extended (files_of files.old.items) place more.now) }
    ensures same { OnErr result (files_of files.new.items ≡ files_of files.old.items) }
    ensures memory { IsErrOf result Failed → ⊥ }
{
    files[place].1.extend_from_slice(more)?;
    Ok(())
}

/// Copies the next bytes of a file, at most `most`, into the front of a piece, and returns how
/// many.
fn copy_piece(bytes: &[u8], next: usize, into: &mut [u8], most: usize) -> usize
    ensures many { result ≡ min most (min (length into.old) (length bytes.now - next)) }
    ensures moved { drop next bytes.now ≡ take result into.new ++ drop (next + result) bytes.now }
{
    if next >= bytes.len() {
        return 0;
    }
    let left = &bytes[next..];
    let count = most.min(into.len().min(left.len()));
    into[..count].copy_from_slice(&left[..count]);
    count
}
