//! The files of the system and standard output, as a shelf and a sink. Other programs may change
//! files, so contracts know no bytes by name. They know what the runtime says of an open file,
//! and the count of faults.
ghost use Rattle.std.specs.Io.KnownBytes.{ReadConsumes, WriteAppends};
ghost use Rattle.std.specs.Prelude.{◌≡◌, ◌<◌, ◌≤◌, [], Some, Ok, Err, IfOk, IfErr, OnOk, OnErr, IsErrOf, MatchResult, length, take, vec_len, vec_capacity};
ghost use Rattle.vz_outside.specs.Faults.{HasCause, one_more};
ghost use Rattle.vz_outside.specs.Outer.{handle_mode, handle_bytes, known_bytes, outer_shelf, outer_sink, KeepsSlots, KeepsOtherSlots, IsLastOpened};
ghost use Rattle.vz_outside.specs.Shelved.{Reading, Writing, Holds, IsMissing, IsAtEnd, IsOpened, Consumes, Appends, KeepsBytes, ReadsOnly, KeepsOthers, IsUntouched, Behaves, BehavesUnless};
ghost use Rattle.vz_outside.specs.Sunk as sinks;
ghost use Rattle.vz_outside.specs.declared.shelf.ShelfError.TheVariants.{Failed};

use crate::opening::room_for_slot;
use crate::{Shelf, ShelfError, Sink};
use std::io::{Read, Write};
use std::marker::Model;
use std::rt::Files;
use std::{fs, io};

/// An open file, and whether it is open for reading or for writing.
#[derive(Drop)]
enum Handle<F: Drop> {
    /// A file that is read.
    Source(F),
    /// A file that is written.
    Target(F),
}

/// A shelf of the files of the system.
///
/// Each error of the system counts as a fault, and so does a write that takes no byte.
#[derive(Drop)]
pub struct RealShelf<R: Files + Drop> {
    rt: R,
    slots: Vec<Handle<R::File>>,
    faults: u64,
}

impl<R: Files + Drop> Model for RealShelf<R> {
    ghost use Rattle.std.specs.Prelude.{map};
    ghost use Rattle.vz_outside.specs.Outer.{Outer, handle_mode, handle_bytes};

    ghost Value = { Outer };

    ghost view = { λ s. record {
      modes = map handle_mode s.slots.items;
      known = map (handle_bytes R.File.remaining R.File.contents) s.slots.items;
      faults = s.faults;
    } };
}

impl<R: Files + AllocGlobal + Drop> RealShelf<R> {
    /// Makes a shelf of the files that a runtime reaches. No slot is open, and no fault is
    /// counted.
    pub fn new(rt: R) -> Self
        ensures { result ≡ record { modes = []; known = []; faults = 0 } }
    {
        let slots = Vec::new(rt.alloc());
        RealShelf {
            rt,
            slots,
            faults: 0,
        }
    }
}

impl<R: Files + AllocGlobal + Drop> Shelf for RealShelf<R> {
    ghost use Rattle.vz_outside.specs.Outer.{outer_shelf};
    ghost use Rattle.std.proofs.lemmas.Bool.{false≢true};

    ghost shelved = { outer_shelf };

    ghost faultless_known = { λ shelf faultless. absurd (false≢true faultless) };

    /// The new slot is the last one. After an error the slots are unchanged.
    fn open(&mut self, name: &str) -> Result<u32, ShelfError>
        ensures last { IfOk result (λ slot. IsLastOpened Reading slot self.old self.new) }
        ensures slots { OnErr result (KeepsSlots self.old self.new) }
        ensures opened { IfOk result (λ slot.
            IsOpened Reading name.now slot (outer_shelf self.old) (outer_shelf self.new)) }
        ensures whole { IfOk result (λ slot.
            Holds ((outer_shelf self.new).rest slot) name.now (outer_shelf self.old)) }
        ensures missing { IsMissing name.now (outer_shelf self.old) → IsErrOf result Failed }
        ensures kept { KeepsBytes (outer_shelf self.old) (outer_shelf self.new) }
        ensures untouched { OnErr result
            (IsUntouched (outer_shelf self.old) (outer_shelf self.new)) }
        ensures behaves { BehavesUnless (IsMissing name.now (outer_shelf self.old))
            (outer_shelf self.old) (outer_shelf self.new) result }
    {
        let slot = room_for_slot(&mut self.slots)?;
        let file = answer(fs::open(&self.rt, name), &mut self.faults)?;
        self.slots.push_reserved(Handle::Source(file));
        Ok(slot)
    }

    /// The new slot is the last one. After an error the slots are unchanged.
    fn create(&mut self, name: &str) -> Result<u32, ShelfError>
        ensures last { IfOk result (λ slot. IsLastOpened Writing slot self.old self.new) }
        ensures slots { OnErr result (KeepsSlots self.old self.new) }
        ensures opened { IfOk result (λ slot.
            IsOpened Writing name.now slot (outer_shelf self.old) (outer_shelf self.new)) }
        ensures emptied { OnOk result (Holds [] name.now (outer_shelf self.new)) }
        ensures others { KeepsOthers name.now (outer_shelf self.old) (outer_shelf self.new) }
        ensures untouched { OnErr result
            (IsUntouched (outer_shelf self.old) (outer_shelf self.new)) }
        ensures behaves { Behaves (outer_shelf self.old) (outer_shelf self.new) result }
    {
        let slot = room_for_slot(&mut self.slots)?;
        let file = answer(fs::create(&self.rt, name), &mut self.faults)?;
        self.slots.push_reserved(Handle::Target(file));
        Ok(slot)
    }

    /// Its only error is `Failed`. If it is known what is left of the file, exactly the bytes in
    /// the answer are taken from it, and none after an error.
    fn read(&mut self, slot: u32, into: &mut [u8]) -> Result<usize, ShelfError>
        requires open { (outer_shelf self.old).mode slot ≡ Some Reading }
        requires piece { 0 < length into.old }
        ensures bytes { ReadConsumes
            (known_bytes slot self.old) (known_bytes slot self.new) result into.new }
        ensures slots { KeepsOtherSlots slot self.old self.new }
        ensures error { IfErr result (λ e. e ≡ Failed) }
        ensures count { IfOk result (λ n. n ≤ length into.old) }
        ensures moved { IfOk result (λ n.
            Consumes (take n into.new) slot (outer_shelf self.old) (outer_shelf self.new)) }
        ensures ended { IfOk result (λ n. n ≡ 0 → IsAtEnd slot (outer_shelf self.old)) }
        ensures kept { ReadsOnly slot (outer_shelf self.old) (outer_shelf self.new) }
        ensures untouched { OnErr result
            (IsUntouched (outer_shelf self.old) (outer_shelf self.new)) }
        ensures behaves { Behaves (outer_shelf self.old) (outer_shelf self.new) result }
    {
        self.slots[slot as usize].read(into, &mut self.faults)
    }

    /// Its only error is `Failed`. If it is known what the file holds, exactly the bytes in the
    /// answer are appended to it, and none after an error.
    fn write(&mut self, slot: u32, from: &[u8]) -> Result<usize, ShelfError>
        requires open { (outer_shelf self.old).mode slot ≡ Some Writing }
        requires piece { 0 < length from.now }
        ensures bytes { WriteAppends
            (known_bytes slot self.old) (known_bytes slot self.new) result from.now }
        ensures slots { KeepsOtherSlots slot self.old self.new }
        ensures error { IfErr result (λ e. e ≡ Failed) }
        ensures some { IfOk result (λ n. 0 < n) }
        ensures count { IfOk result (λ n. n ≤ length from.now) }
        ensures appended { IfOk result (λ n.
            Appends (take n from.now) ((outer_shelf self.old).name slot)
            (outer_shelf self.old) (outer_shelf self.new)) }
        ensures others { KeepsOthers ((outer_shelf self.old).name slot)
            (outer_shelf self.old) (outer_shelf self.new) }
        ensures untouched { OnErr result
            (IsUntouched (outer_shelf self.old) (outer_shelf self.new)) }
        ensures behaves { Behaves (outer_shelf self.old) (outer_shelf self.new) result }
    {
        self.slots[slot as usize].write(from, &mut self.faults)
    }
}

impl<F: Read + Write + Drop> Handle<F> {
    /// Reads the next bytes of the file. If it is known what is left of it, exactly the bytes in
    /// the answer are taken from it, and none after an error. Each error of the system counts as
    /// a fault.
    fn read(&mut self, into: &mut [u8], faults: &mut u64) -> Result<usize, ShelfError>
        requires mode { handle_mode self.old ≡ Reading }
        ensures mode { handle_mode self.new ≡ handle_mode self.old }
        ensures count { IfOk result (λ n. n ≤ length into.old) }
        ensures bytes { ReadConsumes
            (handle_bytes F.remaining F.contents self.old)
            (handle_bytes F.remaining F.contents self.new) result into.new }
        ensures error { IfErr result (λ e. e ≡ Failed) }
        ensures cause { HasCause faults.old faults.new result }
    {
        match self {
            Handle::Source(file) => answer(file.read(into), faults),
            Handle::Target(_) => unreachable!(),
        }
    }

    /// Writes at least one byte to the file. If it is known what the file holds, exactly the
    /// bytes in the answer are appended to it, and none after an error. Each error of the system
    /// counts as a fault, and so does a write that takes no byte.
    fn write(&mut self, from: &[u8], faults: &mut u64) -> Result<usize, ShelfError>
        requires mode { handle_mode self.old ≡ Writing }
        requires piece { 0 < length from.now }
        ensures mode { handle_mode self.new ≡ handle_mode self.old }
        ensures count { IfOk result (λ n. n ≤ length from.now) }
        ensures some { IfOk result (λ n. 0 < n) }
        ensures bytes { WriteAppends
            (handle_bytes F.remaining F.contents self.old)
            (handle_bytes F.remaining F.contents self.new) result from.now }
        ensures error { IfErr result (λ e. e ≡ Failed) }
        ensures cause { HasCause faults.old faults.new result }
    {
        match self {
            Handle::Target(file) => put_some(file, from, faults),
            Handle::Source(_) => unreachable!(),
        }
    }
}

/// Writes at least one byte to a file or a stream. If it is known what that holds, exactly the
/// bytes in the answer are appended to it, and none after an error.
fn put_some<W: Write>(to: &mut W, from: &[u8], faults: &mut u64) -> Result<usize, ShelfError>
    requires piece { 0 < length from.now }
    ensures count { IfOk result (λ n. n ≤ length from.now) }
    ensures some { IfOk result (λ n. 0 < n) }
    ensures bytes { WriteAppends (W.contents to.old) (W.contents to.new) result from.now }
    ensures error { IfErr result (λ e. e ≡ Failed) }
    ensures cause { HasCause faults.old faults.new result }
{
    match to.write(from) {
        Ok(count) if count > 0 => Ok(count),
        _ => Err(fail(faults)),
    }
}

/// Passes on an answer of the system, and counts an error as a fault.
fn answer<T>(given: io::Result<T>, faults: &mut u64) -> Result<T, ShelfError>
    ensures same { MatchResult given (λ value. result ≡ Ok value) (λ _. result ≡ Err Failed) }
    ensures cause { HasCause faults.old faults.new result }
{
    match given {
        Ok(value) => Ok(value),
        Err(_) => Err(fail(faults)),
    }
}

/// Counts a fault, and returns the error for it. The count does not rise above
/// 18,446,744,073,709,551,615.
fn fail(faults: &mut u64) -> ShelfError
    ensures error { result ≡ Failed }
    ensures counted { faults.new ≡ one_more faults.old }
{
    *faults = faults.saturating_add(1);
    ShelfError::Failed
}

/// A stream of the system that is written to, such as standard output. Each error of the system
/// counts as a fault, and so does a write that takes no byte.
#[derive(Drop)]
pub struct RealSink<W: Write + Drop> {
    stream: W,
    faults: u64,
}

impl<W: Write + Drop> Model for RealSink<W> {
    ghost use Rattle.vz_outside.specs.Outer.{Stream};

    ghost Value = { Stream };

    ghost view = { λ s. record { known = W.contents s.stream; faults = s.faults } };
}

impl<W: Write + Drop> RealSink<W> {
    /// Makes a sink of a stream, with no fault counted.
    pub fn new(stream: W) -> Self
        ensures { result ≡ record { known = W.contents stream; faults = 0 } }
    {
        RealSink { stream, faults: 0 }
    }
}

impl<W: Write + Drop> Sink for RealSink<W> {
    ghost use Rattle.vz_outside.specs.Outer.{outer_sink};
    ghost use Rattle.std.proofs.lemmas.Bool.{false≢true};

    ghost sunk = { outer_sink };

    ghost faultless_known = { λ sink faultless. absurd (false≢true faultless) };

    /// Its only error is `Failed`. If it is known what the stream holds, exactly the bytes in the
    /// answer are appended to it, and none after an error.
    fn write(&mut self, from: &[u8]) -> Result<usize, ShelfError>
        requires piece { 0 < length from.now }
        ensures bytes { WriteAppends self.old.known self.new.known result from.now }
        ensures error { IfErr result (λ e. e ≡ Failed) }
        ensures some { IfOk result (λ n. 0 < n) }
        ensures count { IfOk result (λ n. n ≤ length from.now) }
        ensures taken { IfOk result (λ n.
            sinks.Takes (take n from.now) (outer_sink self.old) (outer_sink self.new)) }
        ensures untouched { OnErr result
            (sinks.KeepsBytes (outer_sink self.old) (outer_sink self.new)) }
        ensures behaves { sinks.Behaves (outer_sink self.old) (outer_sink self.new) result }
    {
        put_some(&mut self.stream, from, &mut self.faults)
    }
}
