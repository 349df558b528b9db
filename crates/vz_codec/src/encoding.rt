//! Encodes message files.
ghost use Rattle.std.specs.Prelude.{◌≡◌, IsTrue, IfOk};
ghost use Rattle.vz_frame.specs.Fits.{fits_file};
ghost use Rattle.vz_codec.specs.Spelling.{file_bytes};

use crate::file::write_file;
use crate::writer::Writer;
use std::alloc::Global;
use vz_frame::ClientFile;
use vz_pixels::Memory;

/// Encodes a file. Each file that fits the format has exactly one encoding. Condition: it fits.
/// The only error is `Memory`.
pub fn encode(alloc: Global, file: &ClientFile) -> Result<Vec<u8>, Memory>
    requires { IsTrue (fits_file file.now) }
    ensures { IfOk result (λ bytes. bytes.items ≡ file_bytes file.now) }
{
    let mut out = Writer::new(alloc);
    match write_file(file, &mut out) {
        Ok(()) => Ok(out.into_bytes()),
        Err(_) => Err(Memory),
    }
}
