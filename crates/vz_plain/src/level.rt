//! A pass that is painted on a row of its own.
ghost use Rattle.std.specs.Prelude.{◌≡◌, ◌+◌, ◌≤◌, ◌++◌, ◌∷◌, [], length, replicate};
ghost use Rattle.std.specs.Prelude.{MatchOption, IfSome, IfOk};
ghost use Rattle.std.specs.Option.{option_map};
ghost use Rattle.vz_plain.specs.declared.span.TheConstants.{PIECE};
ghost use Rattle.vz_pixels.specs.Colour.{transparent};
ghost use Rattle.vz_plain.specs.Levels.{IsJoined, IsLower, IsPaintedWith, painter_at, quads_left};
ghost use Rattle.vz_plain.specs.Levels.{row_now, moved};
ghost use Rattle.vz_plain.specs.Going.{GoesOn, IsStopped};
ghost use Rattle.vz_plain.specs.Painting.{quad_covered};

use crate::inks::lay_row;
use crate::paint::Painter;
use crate::span::PIECE;
use crate::trail::Trail;
use std::alloc::{AllocError, Global};
use std::marker::Model;
use vz_frame::{Blend, DrawQuad, RenderPass};
use vz_geom::Point;
use vz_pixels::Pixel;
use vz_scene::{ActiveFrames, SubmittedFrame};

/// A pass of a frame that is painted on a row of its own, which is then laid on the row below it.
#[derive(Drop)]
pub(crate) struct Level<'b, 'a> {
    /// How many more surfaces the path may have.
    pub(crate) levels: u32,
    /// The surfaces on the path, that of the frame first.
    pub(crate) path: Trail,
    /// The frame.
    pub(crate) submitted: &'b SubmittedFrame<'a>,
    /// The passes before this one, which it may draw.
    pub(crate) earlier: &'a [RenderPass],
    /// The pass.
    pub(crate) pass: &'a RenderPass,
    /// Its quads that are not painted yet: those in front.
    pub(crate) quads: &'a [DrawQuad],
    /// The first point of the row.
    pub(crate) start: Point,
    /// The colours of the row.
    pub(crate) row: Vec<Pixel>,
    /// The first place of the row below that this row is laid on.
    pub(crate) from: usize,
    /// The mode by which it is laid there.
    pub(crate) mode: Blend,
    /// The opacity by which it is scaled before.
    pub(crate) opacity: u8,
}

impl<'b, 'a> Model for Level<'b, 'a> {
    ghost use Rattle.std.specs.Prelude.{◌≤◌, length};
    ghost use Rattle.vz_plain.specs.declared.span.TheConstants.{PIECE};
    ghost use Rattle.vz_plain.specs.Levels.{Level as Stand, IsShort};

    ghost Value = { Stand };

    ghost view = { λ l. record {
      levels = l.levels;
      path = l.path;
      submitted = l.submitted.now;
      earlier = l.earlier.now;
      pass = l.pass.now;
      quads = l.quads.now;
      start = l.start;
      row = l.row.items;
      from = l.from;
      mode = l.mode;
      opacity = l.opacity;
    } };

    ghost invariant = { λ l. IsShort l.row.items l.from };
}

impl<'b, 'a> Level<'b, 'a> {
    /// Takes the last of the quads that are not painted yet, if one is left.
    pub(crate) fn next_quad(&mut self) -> Option<&'a DrawQuad>
        ensures { MatchOption result ((self.old.quads ≡ []) × (self.new ≡ self.old))
            (λ q. (self.old.quads ≡ self.new.quads ++ q.now ∷ [])
            × (self.new ≡ quads_left self.old self.new.quads)) }
    {
        match self.quads.split_last() {
            None => None,
            Some((quad, in_front)) => {
                self.quads = in_front;
                Some(quad)
            }
        }
    }

    /// Paints a quad of its pass on its row, and returns the level that is then to be painted and
    /// laid on it, if the quad draws a pass or a surface.
    pub(crate) fn quad(
        &mut self,
        alloc: Global,
        active: &ActiveFrames<'b, 'a>,
        quad: &DrawQuad,
    ) -> Result<Option<Level<'b, 'a>>, AllocError>
        ensures same { self.new ≡ row_now self.old self.new.row }
        ensures painted { IfOk result (IsPaintedWith active.now
            (quad_covered (painter_at active.now self.old) self.old.earlier self.old.pass quad.now)
            self.old.start self.old.row self.new.row) }
        ensures lower { IfOk result (λ o. IfSome o (IsLower self.old.levels self.old.earlier)) }
    {
        let painter = Painter {
            active,
            levels: self.levels,
            path: &self.path,
            submitted: self.submitted,
        };
        let row = self.row.as_mut_slice();
        Ok(painter.quad(alloc, self.earlier, self.pass, quad, self.start, row)?)
    }

    /// Paints its quads, the last one first, up to one that draws a pass or a surface, whose level
    /// it returns, or all of them.
    pub(crate) fn next_level(
        &mut self,
        alloc: Global,
        active: &ActiveFrames<'b, 'a>,
    ) -> Result<Option<Level<'b, 'a>>, AllocError>
        ensures goes { IfOk result (GoesOn active.now self.old self.new) }
        ensures stops { IfOk result (IsStopped self.new) }
    {
        'quads: while let Some(quad) = self.next_quad() {
            if let Some(inner) = self.quad(alloc, active, quad)? {
                return Ok(Some(inner));
            }
        }
        Ok(None)
    }

    /// Lays its row on the row below it. Condition: that row has all its places.
    pub(crate) fn lay_on(&self, under: &mut [Pixel])
        requires { self.now.from + length self.now.row ≤ length under.old }
        ensures { IsJoined self.now self.now.row under.old under.new }
    {
        let to = self.from + self.row.len();
        let row = self.row.as_slice();
        lay_row(row, self.mode, self.opacity, &mut under[self.from..to]);
    }

    /// Lays the row of another level on its own. Condition: its row has all places of that one.
    pub(crate) fn take(&mut self, level: &Level<'b, 'a>)
        requires { level.now.from + length level.now.row ≤ length self.old.row }
        ensures same { self.new ≡ row_now self.old self.new.row }
        ensures joined { IsJoined level.now level.now.row self.old.row self.new.row }
    {
        level.lay_on(self.row.as_mut_slice());
    }

    /// The same, laid further right on the row below. Condition: that is within a piece of a row.
    pub(crate) fn moved(mut self, by: usize) -> Level<'b, 'a>
        requires { self.from + by ≤ PIECE }
        ensures { result ≡ moved by self.entry }
    {
        self.from += by;
        self
    }
}

/// A row of so many transparent places.
pub(crate) fn blank(alloc: Global, count: usize) -> Result<Vec<Pixel>, AllocError>
    ensures { IfOk result (λ v. v.items ≡ replicate count transparent) }
{
    let row = vec![in alloc; Pixel::transparent(); count]?;
    Ok(row)
}

/// A copy of a row.
pub(crate) fn copy_of(alloc: Global, row: &[Pixel]) -> Result<Vec<Pixel>, AllocError>
    ensures { IfOk result (λ v. v.items ≡ row.now) }
{
    let mut own = Vec::new(alloc);
    own.extend_from_slice(row)?;
    Ok(own)
}

/// A level that is laid further right on the row below, if there is one. Condition: that is
/// within a piece of a row.
pub(crate) fn moved<'b, 'a>(level: Option<Level<'b, 'a>>, by: usize) -> Option<Level<'b, 'a>>
    requires { IfSome level (λ l. l.from + by ≤ PIECE) }
    ensures { result ≡ option_map (moved by) level.entry }
{
    match level {
        None => None,
        Some(level) => Some(level.moved(by)),
    }
}
