//! Whole files.
ghost use Rattle.std.specs.Prelude.{◌≡◌, ◌++◌, ◌&&◌, ◌==◌, not, nat_le, length, OnOk};
ghost use Rattle.std.specs.List.{list_all};
ghost use Rattle.vz_frame.specs.Fits.{within, fits_sink, fits_message, fits_file};
ghost use Rattle.vz_codec.specs.Giving.{Gives};
ghost use Rattle.vz_codec.specs.Reading.{magic_at, header_at, ended, file_in};
ghost use Rattle.vz_codec.specs.Spelling.{magic, file_bytes};

use crate::error::ReadError;
use crate::fault::FileRule;
use crate::field::{Field, fit_all, write_many};
use crate::ids::Sinks;
use crate::limits::{MOST_MESSAGES, NEWEST_FORMAT};
use crate::messages::{Messages, read_messages};
use crate::reader::Reader;
use crate::writer::Writer;
use std::alloc::{AllocError, Global};
use vz_frame::{ClientFile, List};
use vz_ids::FrameSinkId;

/// The bytes `VIZC` as a number.
const MAGIC: u32 = 0x435a_4956;

/// Reads all of the bytes as one file.
#[tactic(auto, unfolding(crate::specs::Reading::file_in, crate::specs::Reading::file_at, crate::specs::Reading::counted_at))]
pub fn read_file(alloc: Global, bytes: &[u8]) -> Result<ClientFile, ReadError>
    ensures { Gives (λ f. f) result (file_in bytes.now) }
{
    let mut input = Reader::new(alloc, bytes);
    read_magic(&mut input)?;
    let format = input.u16_within(FileRule::Version, 1, u16::from(NEWEST_FORMAT))? as u8;
    let sink = read_header(&mut input)?;
    let count = input.u32_within(FileRule::Limit, 0, MOST_MESSAGES)?;
    let messages = read_messages(format, count as usize, &mut input)?;
    let file = ClientFile {
        format,
        sink,
        messages: List::from_vec(messages),
    };
    ended(file, &input)
}

/// The file, if no byte is left after it.
#[tactic(auto, unfolding(crate::specs::Reading::ended))]
fn ended(file: ClientFile, input: &Reader) -> Result<ClientFile, ReadError>
    ensures { Gives (λ f. f) result (ended (file, input.now)) }
{
    match input.rest() {
        [] => Ok(file),
        [_, ..] => Err(ReadError::refused(input.left(), FileRule::Trailing)),
    }
}

#[tactic(auto, unfolding(crate::specs::Reading::magic_at))]
fn read_magic(input: &mut Reader) -> Result<(), ReadError>
    ensures { Gives (λ x. (x, input.new)) result (magic_at input.old) }
{
    let left = input.left();
    let magic = input.u32()?;
    if magic != MAGIC {
        return Err(ReadError::refused(left, FileRule::Magic));
    }
    Ok(())
}

/// Reads the sink of a file. Its two numbers may not both be 0.
#[tactic(auto, unfolding(crate::specs::Reading::header_at))]
fn read_header(input: &mut Reader) -> Result<FrameSinkId, ReadError>
    ensures { Gives (λ x. (x, input.new)) result (header_at input.old) }
{
    let left = input.left();
    let sink = Sinks.read(input)?;
    if sink.client_id == 0 && sink.sink_id == 0 {
        return Err(ReadError::refused(left, FileRule::Limit));
    }
    Ok(sink)
}

#[tactic(auto, unfolding(crate::specs::Spelling::file_bytes), using(crate::proofs::Appended::appended))]
pub fn write_file(file: &ClientFile, out: &mut Writer) -> Result<(), AllocError>
    ensures { OnOk result (out.new ≡ out.old ++ file_bytes file.now) }
{
    let messages = file.messages.as_slice();
    write_magic(out)?;
    out.u16(u16::from(file.format))?;
    Sinks.write(&file.sink, out)?;
    out.u32_count(messages.len())?;
    write_many(&Messages(file.format), messages, out)
}

#[tactic(auto, unfolding(crate::specs::Spelling::u32_bytes))]
fn write_magic(out: &mut Writer) -> Result<(), AllocError>
    ensures { OnOk result (out.new ≡ out.old ++ magic) }
{
    out.u32(MAGIC)
}

/// Whether a file fits the format, that is, each number in it is in its range:
///
/// - The format is 1 or 2, and in format 1 each mode is Over. The sink is not (0, 0).
/// - There are at most 4,096 messages.
/// - A frame has at most 16 dependencies, 64 references, 64 resources and 16 passes, and 1,024
///   quads in all of its passes together. Its deadline is at most 64.
/// - No number of a local id is 0, nor is its token. No resource id is 0.
/// - The numbers of a rectangle are all 0, or its top left point is within 16,384 of 0 in both
///   directions and its sides are 1 to 16,384. A quad's offset is within 16,384 of 0.
/// - The sides of blocks and resources are 1 to 256, and a tile's first texel is at most
///   (255, 255).
#[tactic(auto, unfolding(vz_frame::specs::Fits::fits_file))]
pub fn fits(file: &ClientFile) -> bool
    ensures { result ≡ fits_file file.now }
{
    let format = file.format;
    let messages = file.messages.as_slice();
    is_format(format)
        && is_file_sink(file.sink)
        && messages.len() <= MOST_MESSAGES as usize
        && fit_all(&Messages(format), messages)
}

/// Whether there is a format with this number.
fn is_format(format: u8) -> bool
    ensures { result ≡ within 1 2 format }
{
    1 <= format && format <= NEWEST_FORMAT
}

/// Whether a file may have this sink.
fn is_file_sink(sink: FrameSinkId) -> bool
    ensures { result ≡ (fits_sink sink && not ((sink.client_id == 0) && (sink.sink_id == 0))) }
{
    sink.client_id != 0 || sink.sink_id != 0
}
