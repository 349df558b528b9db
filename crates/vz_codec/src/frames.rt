//! Fields of frames: metadata, listed resources and passes.
ghost use Rattle.std.specs.Prelude.{◌≡◌, ◌≤◌, ◌++◌, ◌&&◌, nat_le, length, sum_by, OnOk};
ghost use Rattle.std.specs.List.{list_all};
ghost use Rattle.vz_frame.specs.Fits.{fits_optional, fits_listing, fits_pass, fits_frame, within};
ghost use Rattle.vz_codec.specs.Fields.{field, fits_metadata};
ghost use Rattle.vz_codec.specs.Giving.{Gives};
ghost use Rattle.vz_codec.specs.Reading.{pass_at, passes_at, listing_at, deadline_at, metadata_at, frame_at};
ghost use Rattle.vz_codec.specs.Spelling.{deadline_bytes, listing_bytes, pass_bytes, metadata_bytes, frame_bytes};

use crate::error::ReadError;
use crate::fault::FileRule;
use crate::field::{Counted, Field, fit_all, read_many, write_many};
use crate::ids::{Ranges, Surfaces, is_number};
use crate::limits::{
    GREATEST_DEADLINE, MOST_DEPENDENCIES, MOST_PASSES, MOST_QUADS, MOST_REFERENCES, MOST_RESOURCES,
    MOST_SIDE,
};
use crate::quads::Quads;
use crate::reader::Reader;
use crate::shapes::Rects;
use crate::writer::Writer;
use std::alloc::AllocError;
use vz_frame::{BoxedFrame, CompositorFrame, List, Listing, Metadata, RenderPass};

const DEPENDENCIES: Counted<Surfaces> = Counted(MOST_DEPENDENCIES, Surfaces);

const REFERENCES: Counted<Ranges> = Counted(MOST_REFERENCES, Ranges);

const RESOURCES: Counted<Listings> = Counted(MOST_RESOURCES, Listings);

/// The field of a frame that is kept in a box, in a file of this format.
#[derive(Drop)]
pub struct BoxedFrames(pub u8);

impl Field for BoxedFrames {
    type Value = BoxedFrame;

    ghost kind = { λ f. field (frame_at f.0) (frame_bytes f.0) (fits_frame f.0) };

    fn read(&self, input: &mut Reader) -> Result<BoxedFrame, ReadError> {
        let frame = Frames(self.0).read(input)?;
        Ok(BoxedFrame::new(input.alloc(), frame)?)
    }

    fn write(&self, frame: &BoxedFrame, out: &mut Writer) -> Result<(), AllocError> {
        Frames(self.0).write(frame.as_frame(), out)
    }

    fn fits(&self, frame: &BoxedFrame) -> bool {
        Frames(self.0).fits(frame.as_frame())
    }
}

/// The field of a frame, in a file of this format.
#[derive(Drop)]
struct Frames(u8);

#[tactic(auto, unfolding(crate::specs::Reading::frame_at, crate::specs::Reading::all_passes_at, crate::specs::Spelling::frame_bytes, vz_frame::specs::Fits::fits_frame), using(crate::proofs::Appended::appended))]
impl Field for Frames {
    type Value = CompositorFrame;

    ghost kind = { λ f. field (frame_at f.0) (frame_bytes f.0) (fits_frame f.0) };

    fn read(&self, input: &mut Reader) -> Result<CompositorFrame, ReadError> {
        let metadata = Metadatas.read(input)?;
        let resources = RESOURCES.read(input)?;
        let count = input.u8_within(FileRule::Limit, 0, MOST_PASSES)?;
        let passes = read_passes(self.0, count, input)?;
        Ok(CompositorFrame {
            metadata,
            resources,
            passes,
        })
    }

    fn write(&self, frame: &CompositorFrame, out: &mut Writer) -> Result<(), AllocError> {
        Metadatas.write(&frame.metadata, out)?;
        RESOURCES.write(&frame.resources, out)?;
        let passes = Passes(self.0, usize::from(MOST_QUADS));
        Counted(MOST_PASSES, passes).write(&frame.passes, out)
    }

    fn fits(&self, frame: &CompositorFrame) -> bool {
        let passes = frame.passes.as_slice();
        Metadatas.fits(&frame.metadata)
            && RESOURCES.fits(&frame.resources)
            && passes.len() <= usize::from(MOST_PASSES)
            && have_few_quads(passes)
            && fit_all(&Passes(self.0, usize::from(MOST_QUADS)), passes)
    }
}

#[derive(Drop)]
struct Metadatas;

#[tactic(auto, unfolding(crate::specs::Reading::metadata_at), using(crate::proofs::Appended::appended))]
impl Field for Metadatas {
    type Value = Metadata;

    ghost kind = { λ _. field metadata_at metadata_bytes fits_metadata };

    fn read(&self, input: &mut Reader) -> Result<Metadata, ReadError> {
        let token = input.u32()?;
        let ack = input.u32()?;
        let deadline = Deadlines.read(input)?;
        let dependencies = DEPENDENCIES.read(input)?;
        let references = REFERENCES.read(input)?;
        Ok(Metadata {
            token,
            ack,
            deadline,
            dependencies,
            references,
        })
    }

    fn write(&self, metadata: &Metadata, out: &mut Writer) -> Result<(), AllocError> {
        out.u32(metadata.token)?;
        out.u32(metadata.ack)?;
        Deadlines.write(&metadata.deadline, out)?;
        DEPENDENCIES.write(&metadata.dependencies, out)?;
        REFERENCES.write(&metadata.references, out)
    }

    fn fits(&self, metadata: &Metadata) -> bool {
        is_number(metadata.token)
            && is_number(metadata.ack)
            && Deadlines.fits(&metadata.deadline)
            && DEPENDENCIES.fits(&metadata.dependencies)
            && REFERENCES.fits(&metadata.references)
    }
}

/// The number that means no deadline.
const NO_DEADLINE: u8 = 255;

#[derive(Drop)]
struct Deadlines;

#[tactic(auto, unfolding(crate::specs::Reading::deadline_at))]
impl Field for Deadlines {
    type Value = Option<u8>;

    ghost kind = { λ _. field deadline_at deadline_bytes (fits_optional (λ d. nat_le d 64)) };

    fn read(&self, input: &mut Reader) -> Result<Option<u8>, ReadError> {
        let left = input.left();
        let rounds = input.u8()?;
        if rounds == NO_DEADLINE {
            return Ok(None);
        }
        if rounds > GREATEST_DEADLINE {
            return Err(ReadError::refused(left, FileRule::Limit));
        }
        Ok(Some(rounds))
    }

    fn write(&self, deadline: &Option<u8>, out: &mut Writer) -> Result<(), AllocError> {
        out.u8(deadline.unwrap_or(NO_DEADLINE))
    }

    fn fits(&self, deadline: &Option<u8>) -> bool {
        match deadline {
            None => true,
            Some(rounds) => *rounds <= GREATEST_DEADLINE,
        }
    }
}

/// The field of a listed resource: its id and its sides.
#[derive(Drop)]
struct Listings;

#[tactic(auto, unfolding(crate::specs::Reading::listing_at), using(crate::proofs::Appended::appended))]
impl Field for Listings {
    type Value = Listing;

    ghost kind = { λ _. field listing_at listing_bytes fits_listing };

    fn read(&self, input: &mut Reader) -> Result<Listing, ReadError> {
        let id = input.u32_within(FileRule::Limit, 1, u32::MAX)?;
        let w = input.u16_within(FileRule::Limit, 1, MOST_SIDE)?;
        let h = input.u16_within(FileRule::Limit, 1, MOST_SIDE)?;
        Ok(Listing { id, w, h })
    }

    fn write(&self, listing: &Listing, out: &mut Writer) -> Result<(), AllocError> {
        out.u32(listing.id)?;
        out.u16(listing.w)?;
        out.u16(listing.h)
    }

    fn fits(&self, listing: &Listing) -> bool {
        1 <= listing.id && is_short_side(listing.w) && is_short_side(listing.h)
    }
}

/// Whether a number is 1 to 256.
fn is_short_side(number: u16) -> bool
    ensures { result ≡ within 1 256 number }
{
    1 <= number && number <= MOST_SIDE
}

/// The field of a pass, in a file of this format, if the frame may have only this many more
/// quads.
#[derive(Drop)]
struct Passes(u8, usize);

#[tactic(auto, unfolding(crate::specs::Reading::pass_at, crate::specs::Reading::counted_at, crate::specs::Reading::ranged_at, crate::specs::Spelling::pass_bytes, vz_frame::specs::Fits::fits_pass), using(crate::proofs::Appended::appended))]
impl Field for Passes {
    type Value = RenderPass;

    ghost kind = { λ p. field (pass_at p.0 p.1) (pass_bytes p.0) (fits_pass p.0) };

    fn read(&self, input: &mut Reader) -> Result<RenderPass, ReadError> {
        let id = input.u32()?;
        let output = Rects.read(input)?;
        let damage = Rects.read(input)?;
        let left = input.left();
        let count = usize::from(input.u16()?);
        if count > self.1 {
            return Err(ReadError::refused(left, FileRule::Limit));
        }
        let quads = read_many(&Quads(self.0), count, input)?;
        Ok(RenderPass {
            id,
            output,
            damage,
            quads: List::from_vec(quads),
        })
    }

    fn write(&self, pass: &RenderPass, out: &mut Writer) -> Result<(), AllocError> {
        let quads = pass.quads.as_slice();
        out.u32(pass.id)?;
        Rects.write(&pass.output, out)?;
        Rects.write(&pass.damage, out)?;
        out.u16_count(quads.len())?;
        write_many(&Quads(self.0), quads, out)
    }

    fn fits(&self, pass: &RenderPass) -> bool {
        is_number(pass.id)
            && Rects.fits(&pass.output)
            && Rects.fits(&pass.damage)
            && fit_all(&Quads(self.0), pass.quads.as_slice())
    }
}

/// Reads `count` passes. Their quads together are at most as many as a frame may have.
fn read_passes(format: u8, count: u8, input: &mut Reader) -> Result<List<RenderPass>, ReadError>
    ensures { Gives (λ x. (x, input.new)) result (passes_at format count MOST_QUADS input.old) }
{
    let mut passes = Vec::with_capacity(input.alloc(), usize::from(count).min(input.left()))?;
    let mut room = usize::from(MOST_QUADS);
    for _ in 0..count {
        let pass = Passes(format, room).read(input)?;
        room = room.saturating_sub(pass.quads.as_slice().len());
        passes.push(pass)?;
    }
    Ok(List::from_vec(passes))
}

/// Whether the passes together have at most 1,024 quads.
fn have_few_quads(passes: &[RenderPass]) -> bool
    ensures { result ≡ nat_le (sum_by (λ p. length p.quads) passes.now) MOST_QUADS }
{
    let mut room = usize::from(MOST_QUADS);
    for pass in passes {
        let count = pass.quads.as_slice().len();
        if count > room {
            return false;
        }
        room -= count;
    }
    true
}
