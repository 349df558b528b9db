//! Decodes message files.
ghost use Rattle.std.specs.Prelude.{IfOk};
ghost use Rattle.vz_frame.specs.declared.message.ClientFile.{ClientFile};
ghost use Rattle.vz_codec.specs.Grammar.{Spells, Decodes, Finds};

use crate::error::ReadError;
use crate::fault::DecodeError;
use crate::file::read_file;
use std::alloc::Global;
use vz_frame::ClientFile;

/// Decodes all of the bytes as one message file. Its lists and blocks are made on this allocator.
///
/// The error is `Refused` at the first fault: the first field that is incomplete or out of its
/// range, or the first byte after the last message. It comes with the place of the fault, in
/// bytes from the front, and with the rule that is broken there. If bytes are missing, the place
/// is the number of bytes. Otherwise the only error is `Memory`.
pub fn decode(alloc: Global, bytes: &[u8]) -> Result<ClientFile, DecodeError>
    // The answer is a file that the bytes spell.
    ensures found { IfOk result (λ file. Spells bytes.now file) }

    // A refusal has the first fault.
    ensures exact { Decodes bytes.now result }

    // If the bytes spell a file, the answer is that file.
    ensures only { (file : ClientFile) → Spells bytes.now file → Finds result file }
{
    match read_file(alloc, bytes) {
        Ok(file) => Ok(file),
        Err(ReadError::Memory) => Err(DecodeError::Memory),
        Err(ReadError::Wrong { left, rule }) => Err(DecodeError::Refused {
            at: bytes.len() - left,
            rule,
        }),
    }
}
