//! Fields of sinks, local ids, surfaces and ranges of surfaces.
ghost use Rattle.vz_frame.specs.Fits.{is_number, fits_sink, fits_local, fits_surface, fits_range};
ghost use Rattle.vz_codec.specs.Fields.{field};
ghost use Rattle.vz_codec.specs.Reading.{sink_at, local_at, surface_at, range_at};
ghost use Rattle.vz_codec.specs.Spelling.{sink_bytes, local_bytes, surface_bytes, range_bytes};
ghost use Rattle.std.specs.Prelude.{◌≡◌};

use crate::error::ReadError;
use crate::fault::FileRule;
use crate::field::{Field, Optional};
use crate::reader::Reader;
use crate::writer::Writer;
use std::alloc::AllocError;
use vz_ids::{EmbedToken, FrameSinkId, LocalSurfaceId, SurfaceId, SurfaceRange};

/// Each `u32` is in range: it has 32 bits.
pub fn is_number(number: u32) -> bool
    ensures { result ≡ is_number number }
{
    true
}

/// The field of a sink: its client number and its sink number.
#[derive(Drop)]
pub struct Sinks;

#[tactic(auto, unfolding(crate::specs::Reading::sink_at))]
impl Field for Sinks {
    type Value = FrameSinkId;

    ghost kind = { λ _. field sink_at sink_bytes fits_sink };

    fn read(&self, input: &mut Reader) -> Result<FrameSinkId, ReadError> {
        let client_id = input.u32()?;
        let sink_id = input.u32()?;
        Ok(FrameSinkId { client_id, sink_id })
    }

    fn write(&self, sink: &FrameSinkId, out: &mut Writer) -> Result<(), AllocError> {
        out.u32(sink.client_id)?;
        out.u32(sink.sink_id)
    }

    fn fits(&self, sink: &FrameSinkId) -> bool {
        is_number(sink.client_id) && is_number(sink.sink_id)
    }
}

/// The field of a local id: the parent number, the child number and the token. None of them is 0.
#[derive(Drop)]
pub struct Locals;

#[tactic(auto, unfolding(crate::specs::Reading::local_at), using(crate::proofs::Appended::appended))]
impl Field for Locals {
    type Value = LocalSurfaceId;

    ghost kind = { λ _. field local_at local_bytes fits_local };

    fn read(&self, input: &mut Reader) -> Result<LocalSurfaceId, ReadError> {
        let left = input.left();
        let parent = input.u32()?;
        let child = input.u32()?;
        let token = EmbedToken(input.u128()?);
        if parent == 0 || child == 0 || token.0 == 0 {
            return Err(ReadError::refused(left, FileRule::Limit));
        }
        Ok(LocalSurfaceId {
            parent,
            child,
            token,
        })
    }

    fn write(&self, local: &LocalSurfaceId, out: &mut Writer) -> Result<(), AllocError> {
        out.u32(local.parent)?;
        out.u32(local.child)?;
        out.u128(local.token.0)
    }

    fn fits(&self, local: &LocalSurfaceId) -> bool {
        local.parent != 0 && local.child != 0 && local.token.0 != 0
    }
}

/// The field of a surface: a sink and a local id.
#[derive(Drop)]
pub struct Surfaces;

#[tactic(auto, unfolding(crate::specs::Reading::surface_at), using(crate::proofs::Appended::appended))]
impl Field for Surfaces {
    type Value = SurfaceId;

    ghost kind = { λ _. field surface_at surface_bytes fits_surface };

    fn read(&self, input: &mut Reader) -> Result<SurfaceId, ReadError> {
        let sink = Sinks.read(input)?;
        let local = Locals.read(input)?;
        Ok(SurfaceId { sink, local })
    }

    fn write(&self, surface: &SurfaceId, out: &mut Writer) -> Result<(), AllocError> {
        Sinks.write(&surface.sink, out)?;
        Locals.write(&surface.local, out)
    }

    fn fits(&self, surface: &SurfaceId) -> bool {
        Sinks.fits(&surface.sink) && Locals.fits(&surface.local)
    }
}

/// The field of a range: an optional start after a flag, and an end.
#[derive(Drop)]
pub struct Ranges;

#[tactic(auto, unfolding(crate::specs::Reading::range_at), using(crate::proofs::Appended::appended))]
impl Field for Ranges {
    type Value = SurfaceRange;

    ghost kind = { λ _. field range_at range_bytes fits_range };

    fn read(&self, input: &mut Reader) -> Result<SurfaceRange, ReadError> {
        let start = Optional(Surfaces).read(input)?;
        let end = Surfaces.read(input)?;
        Ok(SurfaceRange { start, end })
    }

    fn write(&self, range: &SurfaceRange, out: &mut Writer) -> Result<(), AllocError> {
        Optional(Surfaces).write(&range.start, out)?;
        Surfaces.write(&range.end, out)
    }

    fn fits(&self, range: &SurfaceRange) -> bool {
        Optional(Surfaces).fits(&range.start) && Surfaces.fits(&range.end)
    }
}
