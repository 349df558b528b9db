//! Reads and writes the line of a single entry.
ghost use Rattle.std.specs.Prelude.{◌≡◌, string_bytes, IfOk};
ghost use Rattle.vz_journal.specs.Answers.{IsFirstEntry};
ghost use Rattle.vz_rules.specs.Log.{entry_text};

use crate::item::Item;
use crate::lines::Entries;
use crate::reader::Reader;
use crate::stop::Stop;
use crate::writer::push_entry;
use std::alloc::Global;
use vz_base::Memory;
use vz_rules::Entry;

/// Reads the entry whose line the text begins with, and returns it with the length of that line
/// in bytes. It returns None if the text does not begin with the line of an entry. The lists of
/// the entry are made on this allocator. The only error is `Memory`.
pub fn read_entry(alloc: Global, text: &[u8]) -> Result<Option<(Entry, usize)>, Memory>
    ensures { IfOk result (λ found. IsFirstEntry text.now found) }
{
    let mut input = Reader::new(text);
    match (Entries { alloc }).read(&mut input) {
        Ok(entry) => Ok(Some((entry, text.len() - input.left()))),
        Err(Stop::Unlike) => Ok(None),
        Err(Stop::Memory) => Err(Memory),
    }
}

/// Returns the line of an entry, in ASCII. The only error is `Memory`.
pub fn write_entry(alloc: Global, entry: &Entry) -> Result<String, Memory>
    ensures { IfOk result (λ line. string_bytes line ≡ entry_text entry.now) }
{
    let mut line = String::new(alloc);
    push_entry(&mut line, entry)?;
    Ok(line)
}
