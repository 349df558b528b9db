//! What a quad leaves in a piece of a row: at once, or as a level that is still to be painted.
ghost use Rattle.std.specs.Prelude.{◌≡◌, ◌<◌, ◌≤◌, ℕ, List, length};
ghost use Rattle.std.specs.Prelude.{IfOk, IfSome, MatchOption};
ghost use Rattle.vz_ids.specs.Ids.{same_surface};
ghost use Rattle.vz_pixels.specs.Colour.{Colour, transparent};
ghost use Rattle.vz_frame.specs.Blending.{laid};
ghost use Rattle.vz_rules.specs.Paint.{local_point};
ghost use Rattle.vz_plain.specs.declared.span.TheConstants.{PIECE};
ghost use Rattle.vz_plain.specs.Levels.{IsPaintedWith, IsEntered, IsLower, IsNever};
ghost use Rattle.vz_plain.specs.Points.{IsClose};
ghost use Rattle.vz_plain.specs.Painting.{Painter as Stand, embedded, ranges, passes_in};
ghost use Rattle.vz_plain.specs.Painting.{quad_here, group_here};
ghost use Rattle.vz_plain.specs.Painting.{quad_covered, inside_here, shown_here};

use crate::inks::{lay_colour, lay_outside};
use crate::level::{Level, blank, copy_of, moved};
use crate::named::last_named;
use crate::point::{in_rectangle, point_of};
use crate::span::{PIECE, covered, right_of, size_span, span_of};
use crate::tile::lay_tile;
use crate::trail::Trail;
use std::alloc::{AllocError, Global};
use std::marker::Model;
use vz_frame::{Blend, DrawQuad, Material, RenderPass};
use vz_geom::Point;
use vz_ids::SurfaceRange;
use vz_pixels::Pixel;
use vz_scene::{ActiveFrames, SubmittedFrame};

/// A painter inside one frame, with the surfaces on the path and how many more it may have.
#[derive(Drop)]
pub(crate) struct Painter<'p, 'b, 'a> {
    pub(crate) active: &'p ActiveFrames<'b, 'a>,
    pub(crate) levels: u32,
    pub(crate) path: &'p Trail,
    pub(crate) submitted: &'b SubmittedFrame<'a>,
}

impl<'p, 'b, 'a> Model for Painter<'p, 'b, 'a> {
    ghost use Rattle.vz_plain.specs.Painting.{Painter as Stand};

    ghost Value = { Stand };

    ghost view = { λ p. record {
      active = p.active.now;
      levels = p.levels;
      path = p.path.now;
      submitted = p.submitted.now;
    } };
}

/// Whether a submitted frame is on the surface at the end of a range.
fn is_at_end(range: &SurfaceRange, submitted: &SubmittedFrame<'_>) -> bool
    ensures { result ≡ same_surface submitted.now.id range.now.end }
{
    submitted.id() == range.end
}

impl<'p, 'b, 'a> Painter<'p, 'b, 'a> {
    /// What a quad leaves in a row of its pass, on the colours below it. Where the quad does not
    /// cover a point, the colour does not change.
    pub(crate) fn quad(
        &self,
        alloc: Global,
        earlier: &'a [RenderPass],
        pass: &RenderPass,
        quad: &DrawQuad,
        start: Point,
        row: &mut [Pixel],
    ) -> Result<Option<Level<'b, 'a>>, AllocError>
        requires { length row.old ≤ PIECE }
        ensures painted { IfOk result (IsPaintedWith self.now.active
            (quad_covered self.now earlier.now pass.now quad.now) start row.old row.new) }
        ensures lower { IfOk result (λ o. IfSome o (IsLower self.now.levels earlier.now)) }
    {
        let here = covered(pass, quad, start, row.len());
        if here.from >= here.to {
            return Ok(None);
        }
        let first = right_of(start, here.from);
        match point_of(pass, quad, first) {
            None => Ok(None),
            Some(local) => {
                let part = &mut row[here.from..here.to];
                let inner = self.material(alloc, earlier, quad, first, local, part)?;
                Ok(moved(inner, here.from))
            }
        }
    }

    /// What a quad leaves in a row of points that it covers, on the colours below it. Conditions:
    /// `local` is the row's first point relative to the top left point of the quad's rectangle,
    /// and is close to it.
    #[tactic(auto, unfolding(vz_rules::specs::Paint::material_painted))]
    fn material(
        &self,
        alloc: Global,
        earlier: &'a [RenderPass],
        quad: &DrawQuad,
        first: Point,
        local: Point,
        row: &mut [Pixel],
    ) -> Result<Option<Level<'b, 'a>>, AllocError>
        requires local { local ≡ local_point quad.now first }
        requires close { IsClose local }
        requires few { length row.old ≤ PIECE }
        ensures painted { IfOk result (IsPaintedWith self.now.active
            (quad_here self.now earlier.now quad.now) first row.old row.new) }
        ensures long { length row.new ≡ length row.old }
        ensures lower { IfOk result (λ o. IfSome o (IsLower self.now.levels earlier.now)) }
    {
        let mode = quad.blend;
        let opacity = quad.opacity;
        match quad.material {
            Material::Solid(colour) => {
                lay_colour(colour, mode, opacity, row);
                Ok(None)
            }
            Material::Tile { resource, tx, ty } => {
                lay_tile(self.submitted, resource, tx, ty, local, mode, opacity, row);
                Ok(None)
            }
            Material::Surface { range, background } => {
                Ok(self.range(alloc, &range, background, mode, opacity, local, row)?)
            }
            Material::Pass(id) => {
                Ok(self.named(alloc, earlier, id, mode, opacity, local, row.len())?)
            }
        }
    }

    /// What an earlier pass with an id leaves. Condition: the first point is close.
    fn named(
        &self,
        alloc: Global,
        passes: &'a [RenderPass],
        id: u32,
        mode: Blend,
        opacity: u8,
        local: Point,
        count: usize,
    ) -> Result<Option<Level<'b, 'a>>, AllocError>
        requires close { IsClose local }
        requires few { count ≤ PIECE }
        ensures painted { (row : List Colour) → length row ≡ count → IfOk result
            (IsPaintedWith self.now.active (passes_in self.now passes.now id mode opacity)
            local row row) }
        ensures lower { IfOk result (λ o. IfSome o (IsLower self.now.levels passes.now)) }
    {
        match last_named(passes, id) {
            None => Ok(None),
            Some((earlier, pass)) => {
                let start = in_rectangle(local, &pass.output);
                Ok(self.group(alloc, earlier, pass, mode, opacity, start, count)?)
            }
        }
    }

    /// What a pass leaves as a group in a row of so many places: it is painted on transparent,
    /// scaled by the opacity and then blended. Outside its output it leaves nothing.
    fn group(
        &self,
        alloc: Global,
        earlier: &'a [RenderPass],
        pass: &'a RenderPass,
        mode: Blend,
        opacity: u8,
        start: Point,
        count: usize,
    ) -> Result<Option<Level<'b, 'a>>, AllocError>
        requires { count ≤ PIECE }
        ensures painted { (row : List Colour) → length row ≡ count → IfOk result
            (IsPaintedWith self.now.active (group_here self.now earlier.now pass.now mode opacity)
            start row row) }
        ensures lower { (passes : List RenderPass) → length earlier.now < length passes
            → IfOk result (λ o. IfSome o (IsLower self.now.levels passes)) }
    {
        let here = span_of(&pass.output, start, count);
        if here.from >= here.to {
            return Ok(None);
        }
        let row = blank(alloc, here.to - here.from)?;
        let path = self.path.share()?;
        Ok(Some(Level {
            levels: self.levels,
            path,
            submitted: self.submitted,
            earlier,
            pass,
            quads: pass.quads.as_slice(),
            start: right_of(start, here.from),
            row,
            from: here.from,
            mode,
            opacity,
        }))
    }

    /// What the surface that a range shows leaves; nothing if that surface is on the path.
    #[tactic(auto, unfolding(vz_rules::specs::Paint::embeds))]
    fn range(
        &self,
        alloc: Global,
        range: &SurfaceRange,
        background: Pixel,
        mode: Blend,
        opacity: u8,
        local: Point,
        row: &mut [Pixel],
    ) -> Result<Option<Level<'b, 'a>>, AllocError>
        requires { length row.old ≤ PIECE }
        ensures painted { IfOk result (IsPaintedWith self.now.active
            (ranges self.now range.now background mode opacity) local row.old row.new) }
        ensures long { length row.new ≡ length row.old }
        ensures lower { (earlier : List RenderPass)
            → IfOk result (λ o. IfSome o (IsLower self.now.levels earlier)) }
    {
        match self.active.shown_frame(range) {
            None => {
                lay_colour(background, mode, opacity, row);
                Ok(None)
            }
            Some(submitted) => {
                if self.path.has(&submitted.id()) {
                    return Ok(None);
                }
                Ok(self.shown(
                    alloc, range, submitted, background, mode, opacity, local, row,
                )?)
            }
        }
    }

    /// What a shown surface that is not on the path leaves: its content inside its size, and
    /// outside the background, or nothing if it is the end of the range.
    fn shown(
        &self,
        alloc: Global,
        range: &SurfaceRange,
        submitted: &'b SubmittedFrame<'a>,
        background: Pixel,
        mode: Blend,
        opacity: u8,
        local: Point,
        row: &mut [Pixel],
    ) -> Result<Option<Level<'b, 'a>>, AllocError>
        requires { length row.old ≤ PIECE }
        ensures painted { IfOk result (IsPaintedWith self.now.active
            (shown_here self.now range.now background submitted.now mode opacity)
            local row.old row.new) }
        ensures long { length row.new ≡ length row.old }
        ensures lower { (earlier : List RenderPass)
            → IfOk result (λ o. IfSome o (IsLower self.now.levels earlier)) }
    {
        let here = size_span(submitted, local, row.len());
        let at_end = is_at_end(range, submitted);
        lay_outside(at_end, here, background, mode, opacity, row);
        if here.from >= here.to {
            return Ok(None);
        }
        let first = right_of(local, here.from);
        let part = &mut row[here.from..here.to];
        let inner = self.content(alloc, submitted, mode, opacity, first, part)?;
        Ok(moved(inner, here.from))
    }

    /// What the content of a shown surface leaves in a row inside its size: it is drawn directly,
    /// or painted on transparent, scaled and blended.
    fn content(
        &self,
        alloc: Global,
        submitted: &'b SubmittedFrame<'a>,
        mode: Blend,
        opacity: u8,
        first: Point,
        row: &mut [Pixel],
    ) -> Result<Option<Level<'b, 'a>>, AllocError>
        requires { length row.old ≤ PIECE }
        ensures painted { IfOk result (IsPaintedWith self.now.active
            (inside_here self.now submitted.now mode opacity) first row.old row.new) }
        ensures long { length row.new ≡ length row.old }
        ensures lower { (earlier : List RenderPass)
            → IfOk result (λ o. IfSome o (IsLower self.now.levels earlier)) }
    {
        if mode.is_straight(opacity) {
            Ok(self.straight(alloc, submitted, first, row)?)
        } else {
            Ok(self.apart(alloc, submitted, mode, opacity, first, row)?)
        }
    }

    /// What a surface leaves in a row of its own that is drawn directly: on a copy of the row,
    /// which then takes its place.
    pub(crate) fn straight(
        &self,
        alloc: Global,
        submitted: &'b SubmittedFrame<'a>,
        first: Point,
        row: &[Pixel],
    ) -> Result<Option<Level<'b, 'a>>, AllocError>
        requires { length row.now ≤ PIECE }
        ensures painted { IfOk result (IsPaintedWith self.now.active
            (embedded self.now self.now.path submitted.now) first row.now row.now) }
        ensures lower { (earlier : List RenderPass)
            → IfOk result (λ o. IfSome o (IsLower self.now.levels earlier)) }
    {
        let own = copy_of(alloc, row)?;
        Ok(self.entered(alloc, submitted, first, own, Blend::Src, 255)?)
    }

    /// What the content of a shown surface leaves if it is painted on transparent, scaled and
    /// blended.
    fn apart(
        &self,
        alloc: Global,
        submitted: &'b SubmittedFrame<'a>,
        mode: Blend,
        opacity: u8,
        first: Point,
        row: &mut [Pixel],
    ) -> Result<Option<Level<'b, 'a>>, AllocError>
        requires { length row.old ≤ PIECE }
        ensures painted { IfOk result (IsPaintedWith self.now.active
            (λ q d. laid mode
            (embedded self.now self.now.path submitted.now q transparent) opacity d)
            first row.old row.new) }
        ensures long { length row.new ≡ length row.old }
        ensures lower { (earlier : List RenderPass)
            → IfOk result (λ o. IfSome o (IsLower self.now.levels earlier)) }
    {
        let own = blank(alloc, row.len())?;
        match self.entered(alloc, submitted, first, own, mode, opacity)? {
            None => {
                lay_colour(Pixel::transparent(), mode, opacity, row);
                Ok(None)
            }
            Some(level) => Ok(Some(level)),
        }
    }

    /// The level of the root pass of a shown surface, on a row of its own. It is None, and the
    /// surface leaves nothing, if the path may have no more surfaces, or the frame has no pass.
    #[tactic(auto, unfolding(vz_rules::specs::Paint::pix, vz_rules::specs::Paint::root_painted))]
    fn entered(
        &self,
        alloc: Global,
        submitted: &'b SubmittedFrame<'a>,
        first: Point,
        row: Vec<Pixel>,
        mode: Blend,
        opacity: u8,
    ) -> Result<Option<Level<'b, 'a>>, AllocError>
        requires { length row.items ≤ PIECE }
        ensures entered { IfOk result (λ o. MatchOption o
            (IsNever (embedded self.now self.now.path submitted.now))
            (IsEntered self.now submitted.now first row.items mode opacity)) }
        ensures lower { (earlier : List RenderPass)
            → IfOk result (λ o. IfSome o (IsLower self.now.levels earlier)) }
    {
        if self.levels == 0 {
            return Ok(None);
        }
        match submitted.frame().passes.as_slice().split_last() {
            None => Ok(None),
            Some((root, earlier)) => {
                let path = self.path.behind(alloc, submitted.id())?;
                Ok(Some(Level {
                    levels: self.levels - 1,
                    path,
                    submitted,
                    earlier,
                    pass: root,
                    quads: root.quads.as_slice(),
                    start: first,
                    row,
                    from: 0,
                    mode,
                    opacity,
                }))
            }
        }
    }
}
