//! Fields of quads, of their blend modes and of their materials.
ghost use Rattle.std.specs.Prelude.{◌≡◌, ◌++◌, ◌&&◌, ◌==◌, nat_lt, nat_le, ◌^◌, OnOk};
ghost use Rattle.vz_frame.specs.Fits.{in_reach, fits_mode, fits_material, fits_quad};
ghost use Rattle.vz_codec.specs.Fields.{field};
ghost use Rattle.vz_codec.specs.Giving.{Gives};
ghost use Rattle.vz_codec.specs.Reading.{material_at, mode_at, quad_at};
ghost use Rattle.vz_codec.specs.Spelling.{place_bytes, material_bytes, mode_bytes, quad_bytes};

use crate::error::ReadError;
use crate::fault::FileRule;
use crate::field::{Field, Optional};
use crate::ids::{Ranges, is_number};
use crate::limits::MOST_SIDE;
use crate::reader::{Reader, in_reach};
use crate::shapes::{Colours, Rects};
use crate::writer::Writer;
use std::alloc::AllocError;
use vz_frame::{Blend, DrawQuad, Material};
use vz_geom::Point;

/// The field of a quad, in a file of this format.
#[derive(Drop)]
pub struct Quads(pub u8);

#[tactic(auto, unfolding(crate::specs::Reading::quad_at, crate::specs::Spelling::quad_bytes, vz_frame::specs::Fits::fits_quad), using(crate::proofs::Appended::appended))]
impl Field for Quads {
    type Value = DrawQuad;

    ghost kind = { λ q. field (quad_at q.0) (quad_bytes q.0) (fits_quad q.0) };

    fn read(&self, input: &mut Reader) -> Result<DrawQuad, ReadError> {
        let x = input.coordinate()?;
        let y = input.coordinate()?;
        let area = Rects.read(input)?;
        let visible = Rects.read(input)?;
        let clip = Optional(Rects).read(input)?;
        let opacity = input.u8()?;
        let blend = Modes(self.0).read(input)?;
        let material = Materials.read(input)?;
        Ok(DrawQuad {
            offset: Point { x, y },
            area,
            visible,
            clip,
            opacity,
            blend,
            material,
        })
    }

    fn write(&self, quad: &DrawQuad, out: &mut Writer) -> Result<(), AllocError> {
        write_place(quad, out)?;
        out.u8(quad.opacity)?;
        Modes(self.0).write(&quad.blend, out)?;
        Materials.write(&quad.material, out)
    }

    fn fits(&self, quad: &DrawQuad) -> bool {
        fits_offset(&quad.offset)
            && Rects.fits(&quad.area)
            && Rects.fits(&quad.visible)
            && Optional(Rects).fits(&quad.clip)
            && is_byte(quad.opacity)
            && Modes(self.0).fits(&quad.blend)
            && Materials.fits(&quad.material)
    }
}

fn fits_offset(offset: &Point) -> bool
    ensures { result ≡ (in_reach offset.now.x && in_reach offset.now.y) }
{
    in_reach(offset.x) && in_reach(offset.y)
}

/// Writes a quad's offset, its rectangles and its clip.
#[tactic(auto, using(crate::proofs::Appended::appended))]
fn write_place(quad: &DrawQuad, out: &mut Writer) -> Result<(), AllocError>
    ensures { OnOk result (out.new ≡ out.old ++ place_bytes quad.now) }
{
    out.i32(quad.offset.x)?;
    out.i32(quad.offset.y)?;
    Rects.write(&quad.area, out)?;
    Rects.write(&quad.visible, out)?;
    Optional(Rects).write(&quad.clip, out)
}

/// Each `u8` is in range: it is one byte.
fn is_byte(number: u8) -> bool
    ensures { result ≡ nat_lt number 256 }
{
    true
}

const OVER: u8 = 0;

const SRC: u8 = 1;

const DST_IN: u8 = 2;

/// The field of a blend mode, as its number. A file of format 1 has no byte for it.
#[derive(Drop)]
struct Modes(u8);

#[tactic(auto, unfolding(crate::specs::Reading::mode_at, crate::specs::Reading::tagged))]
impl Field for Modes {
    type Value = Blend;

    ghost kind = { λ m. field (mode_at m.0) (mode_bytes m.0) (fits_mode m.0) };

    fn read(&self, input: &mut Reader) -> Result<Blend, ReadError> {
        if self.0 == 1 {
            return Ok(Blend::Over);
        }
        match input.u8_within(FileRule::Tag, OVER, DST_IN)? {
            OVER => Ok(Blend::Over),
            SRC => Ok(Blend::Src),
            _ => Ok(Blend::DstIn),
        }
    }

    fn write(&self, mode: &Blend, out: &mut Writer) -> Result<(), AllocError> {
        if self.0 == 1 {
            return Ok(());
        }
        match mode {
            Blend::Over => out.u8(OVER),
            Blend::Src => out.u8(SRC),
            Blend::DstIn => out.u8(DST_IN),
        }
    }

    fn fits(&self, mode: &Blend) -> bool {
        match mode {
            Blend::Over => true,
            Blend::Src | Blend::DstIn => self.0 != 1,
        }
    }
}

const SOLID: u8 = 1;

const TILE: u8 = 2;

const SURFACE: u8 = 3;

const PASS: u8 = 4;

/// The field of a material: a tag, and what a material with this tag has.
#[derive(Drop)]
struct Materials;

#[tactic(auto, unfolding(crate::specs::Reading::material_at, crate::specs::Reading::tagged, crate::specs::Spelling::material_bytes, vz_frame::specs::Fits::fits_material), using(crate::proofs::Appended::appended))]
impl Field for Materials {
    type Value = Material;

    ghost kind = { λ _. field material_at material_bytes fits_material };

    fn read(&self, input: &mut Reader) -> Result<Material, ReadError> {
        match input.u8_within(FileRule::Tag, SOLID, PASS)? {
            SOLID => Ok(Material::Solid(Colours.read(input)?)),
            TILE => {
                let resource = input.u32_within(FileRule::Limit, 1, u32::MAX)?;
                let tx = input.u16_within(FileRule::Limit, 0, MOST_SIDE - 1)?;
                let ty = input.u16_within(FileRule::Limit, 0, MOST_SIDE - 1)?;
                Ok(Material::Tile { resource, tx, ty })
            }
            SURFACE => {
                let range = Ranges.read(input)?;
                let background = Colours.read(input)?;
                Ok(Material::Surface { range, background })
            }
            _ => Ok(Material::Pass(input.u32()?)),
        }
    }

    fn write(&self, material: &Material, out: &mut Writer) -> Result<(), AllocError> {
        match material {
            Material::Solid(colour) => {
                out.u8(SOLID)?;
                Colours.write(colour, out)
            }
            Material::Tile { resource, tx, ty } => {
                out.u8(TILE)?;
                out.u32(*resource)?;
                out.u16(*tx)?;
                out.u16(*ty)
            }
            Material::Surface { range, background } => {
                out.u8(SURFACE)?;
                Ranges.write(range, out)?;
                Colours.write(background, out)
            }
            Material::Pass(id) => {
                out.u8(PASS)?;
                out.u32(*id)
            }
        }
    }

    fn fits(&self, material: &Material) -> bool {
        match material {
            Material::Solid(colour) => Colours.fits(colour),
            Material::Tile { resource, tx, ty } => 1 <= *resource
                && *tx < MOST_SIDE
                && *ty < MOST_SIDE,
            Material::Surface { range, background } => Ranges.fits(range)
                && Colours.fits(background),
            Material::Pass(id) => is_number(*id),
        }
    }
}
