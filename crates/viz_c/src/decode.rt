//! What C is told of bytes that were decoded.
ghost use Rattle.std.specs.Prelude.{◌≡◌, ◌⊎◌};
ghost use Rattle.viz_c.specs.Answers as viz;
ghost use Rattle.viz_c.specs.Numbers.{IsDecodingTold};

use crate::answer::{DONE, MEMORY, rule_number};
use vz_codec::DecodeError;
use vz_frame::ClientFile;

/// The answer for what decoding returned. If the bytes are refused, `at` gets the place;
/// else it stays as it is.
pub fn tell_decoding(decoded: &Result<ClientFile, DecodeError>, at: &mut usize) -> u32
    ensures told { IsDecodingTold decoded.now result at.new }
    ensures at_kept { (result ≡ viz.DONE) ⊎ (result ≡ viz.MEMORY) → at.new ≡ at.old }
{
    match decoded {
        Ok(_) => DONE,
        Err(DecodeError::Refused { at: place, rule }) => {
            *at = *place;
            rule_number(*rule)
        }
        Err(DecodeError::Memory) => MEMORY,
    }
}
