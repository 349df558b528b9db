//! Fields of messages and of blocks of pixels.
ghost use Rattle.std.specs.Prelude.{◌≡◌, ◌≤◌, ◌*◌, IfOk, OnOk, IfErr};
ghost use Rattle.vz_frame.specs.Fits.{fits_block, fits_message};
ghost use Rattle.vz_codec.specs.Fields.{field};
ghost use Rattle.vz_codec.specs.Giving.{Gives, Fails, PutsNext};
ghost use Rattle.vz_codec.specs.Reading.{colour_at, many_at, block_at, message_at};
ghost use Rattle.vz_codec.specs.Spelling.{block_bytes, message_bytes};

use crate::error::ReadError;
use crate::fault::FileRule;
use crate::field::{Field, fit_all, read_many, write_many};
use crate::frames::BoxedFrames;
use crate::ids::{Locals, Sinks, is_number};
use crate::limits::MOST_SIDE;
use crate::reader::Reader;
use crate::shapes::Colours;
use crate::writer::Writer;
use std::alloc::AllocError;
use vz_frame::Message;
use vz_pixels::{BlockError, PixelBlock};

/// How many bytes a texel has.
const TEXEL_BYTES: usize = 4;

const UPLOAD: u8 = 1;

const SUBMIT: u8 = 2;

const DID_NOT_PRODUCE: u8 = 3;

const RECLAIM: u8 = 4;

const SET_ROOT: u8 = 5;

const HIERARCHY: u8 = 6;

const AWAIT: u8 = 7;

const CLOSE: u8 = 8;

/// The field of a message, in a file of this format: a tag, and what a message with this tag has.
#[derive(Drop)]
pub struct Messages(pub u8);

#[tactic(auto, unfolding(crate::specs::Reading::message_at, crate::specs::Reading::tagged, crate::specs::Spelling::message_bytes, vz_frame::specs::Fits::fits_message), using(crate::proofs::Appended::appended))]
impl Field for Messages {
    type Value = Message;

    ghost kind = { λ m. field (message_at m.0) (message_bytes m.0) (fits_message m.0) };

    fn read(&self, input: &mut Reader) -> Result<Message, ReadError> {
        match input.u8_within(FileRule::Tag, UPLOAD, CLOSE)? {
            UPLOAD => {
                let id = input.u32_within(FileRule::Limit, 1, u32::MAX)?;
                let block = Blocks.read(input)?;
                Ok(Message::Upload { id, block })
            }
            SUBMIT => {
                let local = Locals.read(input)?;
                let frame = BoxedFrames(self.0).read(input)?;
                Ok(Message::Submit { local, frame })
            }
            DID_NOT_PRODUCE => Ok(Message::DidNotProduce(input.u32()?)),
            RECLAIM => Ok(Message::Reclaim),
            SET_ROOT => Ok(Message::SetRoot(Locals.read(input)?)),
            HIERARCHY => {
                let parent = Sinks.read(input)?;
                let child = Sinks.read(input)?;
                Ok(Message::Hierarchy { parent, child })
            }
            AWAIT => Ok(Message::Await),
            _ => Ok(Message::Close),
        }
    }

    fn write(&self, message: &Message, out: &mut Writer) -> Result<(), AllocError> {
        match message {
            Message::Upload { id, block } => {
                out.u8(UPLOAD)?;
                out.u32(*id)?;
                Blocks.write(block, out)
            }
            Message::Submit { local, frame } => {
                out.u8(SUBMIT)?;
                Locals.write(local, out)?;
                BoxedFrames(self.0).write(frame, out)
            }
            Message::DidNotProduce(number) => {
                out.u8(DID_NOT_PRODUCE)?;
                out.u32(*number)
            }
            Message::Reclaim => out.u8(RECLAIM),
            Message::SetRoot(local) => {
                out.u8(SET_ROOT)?;
                Locals.write(local, out)
            }
            Message::Hierarchy { parent, child } => {
                out.u8(HIERARCHY)?;
                Sinks.write(parent, out)?;
                Sinks.write(child, out)
            }
            Message::Await => out.u8(AWAIT),
            Message::Close => out.u8(CLOSE),
        }
    }

    fn fits(&self, message: &Message) -> bool {
        match message {
            Message::Upload { id, block } => 1 <= *id && Blocks.fits(block),
            Message::Submit { local, frame } => {
                Locals.fits(local) && BoxedFrames(self.0).fits(frame)
            }
            Message::DidNotProduce(number) => is_number(*number),
            Message::SetRoot(local) => Locals.fits(local),
            Message::Hierarchy { parent, child } => Sinks.fits(parent) && Sinks.fits(child),
            Message::Reclaim | Message::Await | Message::Close => true,
        }
    }
}

/// Reads so many messages, as `read_many` does, but nearly all messages of a long file are tags
/// alone, which are put directly into their places.
pub fn read_messages(
    format: u8,
    count: usize,
    input: &mut Reader,
) -> Result<Vec<Message>, ReadError>
    ensures { let read = many_at (message_at format) count in
        Gives (λ x. (x.items, input.new)) result (read input.old) }
{
    let mut messages = Vec::with_capacity(input.alloc(), count.min(input.left()))?;

    // A copy of the reader is used while the messages are read.
    let mut ahead = input.ahead();
    for _ in 0..count {
        put_next(format, &mut messages, &mut ahead)?;
    }
    *input = ahead;
    Ok(messages)
}

/// Reads a message and puts it behind the others.
#[inline(always)]
fn put_next(format: u8, messages: &mut Vec<Message>, input: &mut Reader) -> Result<(), ReadError>
    ensures read { OnOk result (PutsNext (message_at format)
        input.old input.new messages.old.items messages.new.items) }
    ensures err { IfErr result (λ e. Fails e (message_at format input.old)) }
{
    let mut ahead = input.ahead();
    match ahead.u8_within(FileRule::Tag, UPLOAD, CLOSE)? {
        RECLAIM => {
            *input = ahead;
            messages.push(Message::Reclaim)?;
            Ok(())
        }
        AWAIT => {
            *input = ahead;
            messages.push(Message::Await)?;
            Ok(())
        }
        _ => put_longer(format, messages, input),
    }
}

/// Reads a message of any kind and puts it behind the others.
#[inline(never)]
fn put_longer(format: u8, messages: &mut Vec<Message>, input: &mut Reader) -> Result<(), ReadError>
    ensures read { OnOk result (PutsNext (message_at format)
        input.old input.new messages.old.items messages.new.items) }
    ensures err { IfErr result (λ e. Fails e (message_at format input.old)) }
{
    let message = Messages(format).read(input)?;
    messages.push(message)?;
    Ok(())
}

/// The field of a block: its sides, and its texels row by row.
#[derive(Drop)]
struct Blocks;

#[tactic(auto, unfolding(crate::specs::Reading::block_at, crate::specs::Spelling::block_bytes), using(crate::proofs::Appended::appended))]
impl Field for Blocks {
    type Value = PixelBlock;

    ghost kind = { λ _. field block_at block_bytes fits_block };

    fn read(&self, input: &mut Reader) -> Result<PixelBlock, ReadError> {
        let w = input.u16_within(FileRule::Limit, 1, MOST_SIDE)?;
        let h = input.u16_within(FileRule::Limit, 1, MOST_SIDE)?;
        read_texels(u32::from(w), u32::from(h), input)
    }

    fn write(&self, block: &PixelBlock, out: &mut Writer) -> Result<(), AllocError> {
        out.u16(block.w() as u16)?;
        out.u16(block.h() as u16)?;
        write_many(&Colours, block.pixels(), out)
    }

    /// Each block has sides from 1 to 256.
    fn fits(&self, block: &PixelBlock) -> bool {
        let pixels = block.pixels();
        pixels.len() == block.w() as usize * block.h() as usize && fit_all(&Colours, pixels)
    }
}

/// Reads the texels of a block with these sides.
fn read_texels(w: u32, h: u32, input: &mut Reader) -> Result<PixelBlock, ReadError>
    requires w { (1 ≤ w) × (w ≤ 256) }
    requires h { (1 ≤ h) × (h ≤ 256) }
    ensures pixels { let read = many_at colour_at (w * h) in
        Gives (λ b. (b.pixels, input.new)) result (read input.old) }
    ensures sides { IfOk result (λ b. (b.w ≡ w) × (b.h ≡ h)) }
{
    let count = w as usize * h as usize;
    let size = TEXEL_BYTES * count;
    if input.left() < size {
        return read_each_texel(w, h, input);
    }
    match PixelBlock::of_bytes(input.alloc(), w, h, &input.rest()[..size]) {
        Ok(block) => {
            input.skip(size);
            Ok(block)
        }
        Err(BlockError::Memory) => Err(ReadError::Memory),
        Err(_) => read_each_texel(w, h, input),
    }
}

/// Reads the texels of a block with these sides one by one, to find the first fault.
fn read_each_texel(w: u32, h: u32, input: &mut Reader) -> Result<PixelBlock, ReadError>
    requires w { (1 ≤ w) × (w ≤ 256) }
    requires h { (1 ≤ h) × (h ≤ 256) }
    ensures pixels { let read = many_at colour_at (w * h) in
        Gives (λ b. (b.pixels, input.new)) result (read input.old) }
    ensures sides { IfOk result (λ b. (b.w ≡ w) × (b.h ≡ h)) }
{
    let count = w as usize * h as usize;
    let pixels = read_many(&Colours, count, input)?;
    match PixelBlock::of_pixels(input.alloc(), w, h, pixels) {
        Ok(block) => Ok(block),
        Err(_) => Err(ReadError::Memory),
    }
}
