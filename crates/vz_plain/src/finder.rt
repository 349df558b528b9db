//! What a quad answers at a point.
ghost use Rattle.std.specs.Prelude.{◌≡◌, ◌<◌, List, length, reverse, true, false, None};
ghost use Rattle.std.specs.List.{list_any};
ghost use Rattle.vz_ids.specs.Ids.{same_surface};
ghost use Rattle.vz_frame.specs.declared.frame.RenderPass.{RenderPass as Pass};
ghost use Rattle.vz_rules.specs.Hit.{hit};
ghost use Rattle.vz_rules.specs.Paint.{covers, local_point};
ghost use Rattle.vz_plain.specs.Points.{IsClose};
ghost use Rattle.vz_plain.specs.Finding.{ranges, passes_in, quad_here, group_here, shown_here};
ghost use Rattle.vz_plain.specs.Answered.{answer, IsLowerInside};

use crate::point::{in_rectangle, is_inside, point_of};
use crate::searched::{SearchedPass, entered, root_of};
use std::marker::Model;
use vz_frame::{DrawQuad, Material, RenderPass};
use vz_geom::Point;
use vz_ids::{SurfaceId, SurfaceRange};
use vz_scene::{ActiveFrames, SubmittedFrame};

/// What is hit in a quad.
#[derive(Drop)]
pub(crate) enum QuadAnswer<'b, 'a> {
    /// Nothing.
    Nothing,
    /// The surface that the quad is in.
    Surface,
    /// Whatever is hit in this pass.
    Inside(SearchedPass<'b, 'a>),
}

/// A search in a pass of a frame that was entered at a point, inside of the passes of a stack, the
/// last of which is the one that leads here.
#[derive(Drop)]
pub(crate) struct Finder<'s, 'b, 'a> {
    /// The active frames.
    pub(crate) active: &'s ActiveFrames<'b, 'a>,
    /// The passes that the search is inside of.
    pub(crate) outer: &'s [SearchedPass<'b, 'a>],
    /// Whether the frame was entered at this pass.
    pub(crate) is_root: bool,
    /// How many more surfaces may be entered.
    pub(crate) levels: u32,
    /// The frame.
    pub(crate) submitted: &'b SubmittedFrame<'a>,
    /// The point of its root pass at which it was entered.
    pub(crate) entry: Point,
}

impl<'s, 'b, 'a> Model for Finder<'s, 'b, 'a> {
    ghost use Rattle.std.specs.Prelude.{reverse};
    ghost use Rattle.vz_plain.specs.Finding.{Finder as Stand, onward, path_into};

    ghost Value = { Stand };

    ghost view = { λ f. record {
      active = f.active.now;
      levels = f.levels;
      path = onward f.is_root f.submitted.now.id (path_into (reverse f.outer.now));
      submitted = f.submitted.now;
      entry = f.entry;
    } };
}

impl<'s, 'b, 'a> Finder<'s, 'b, 'a> {
    /// What is hit in a quad; nothing if it does not cover the point of its pass.
    pub(crate) fn quad(
        &self,
        earlier: &'a [RenderPass],
        pass: &RenderPass,
        quad: &DrawQuad,
        point: Point,
    ) -> QuadAnswer<'b, 'a>
        ensures value { answer self.now result ≡ (elim (covers pass.now quad.now point) [
          | true ↦ quad_here self.now earlier.now quad.now point
          | false ↦ None
        ]) }
        ensures lower { IsLowerInside self.now.levels earlier.now result }
    {
        match point_of(pass, quad, point) {
            None => QuadAnswer::Nothing,
            Some(local) => self.material(earlier, quad, point, local),
        }
    }

    /// What is hit in a quad that covers a point of its pass. Conditions: the local point is
    /// counted from the first point of the quad's rectangle, and close.
    #[tactic(auto, unfolding(vz_rules::specs::Hit::material_hit))]
    fn material(
        &self,
        earlier: &'a [RenderPass],
        quad: &DrawQuad,
        point: Point,
        local: Point,
    ) -> QuadAnswer<'b, 'a>
        requires local { local ≡ local_point quad.now point }
        requires close { IsClose local }
        ensures value { answer self.now result ≡ quad_here self.now earlier.now quad.now point }
        ensures lower { IsLowerInside self.now.levels earlier.now result }
    {
        match quad.material {
            Material::Solid(_) => QuadAnswer::Surface,
            Material::Tile { .. } => QuadAnswer::Surface,
            Material::Surface { range, .. } => self.range(&range, local),
            Material::Pass(id) => self.named(earlier, id, local),
        }
    }

    /// What is hit in the last of these passes that has an id. Condition: the point is close.
    fn named(&self, passes: &'a [RenderPass], id: u32, local: Point) -> QuadAnswer<'b, 'a>
        requires { IsClose local }
        ensures value { answer self.now result ≡ passes_in self.now passes.now id local }
        ensures lower { IsLowerInside self.now.levels passes.now result }
    {
        let mut left = passes;
        'passes: while let Some((pass, earlier)) = left.split_last() {
            if pass.id == id {
                return self.group(earlier, pass, in_rectangle(local, &pass.output));
            }
            left = earlier;
        }
        QuadAnswer::Nothing
    }

    /// What is hit in a pass that a quad draws: nothing outside its output.
    #[tactic(auto, unfolding(vz_rules::specs::Hit::group_hit))]
    fn group(
        &self,
        earlier: &'a [RenderPass],
        pass: &'a RenderPass,
        point: Point,
    ) -> QuadAnswer<'b, 'a>
        ensures value { answer self.now result ≡ group_here self.now earlier.now pass.now point }
        ensures lower { (passes : List Pass) → length earlier.now < length passes
            → IsLowerInside self.now.levels passes result }
    {
        if !pass.output.contains(point) {
            return QuadAnswer::Nothing;
        }
        QuadAnswer::Inside(SearchedPass {
            is_root: false,
            levels: self.levels,
            submitted: self.submitted,
            entry: self.entry,
            earlier,
            pass,
            quads: pass.quads.as_slice(),
            point,
        })
    }

    /// What is hit in a range: this surface if it shows none, and nothing if the surface that it
    /// shows is on the path.
    #[tactic(auto, unfolding(vz_rules::specs::Hit::range_hit))]
    fn range(&self, range: &SurfaceRange, local: Point) -> QuadAnswer<'b, 'a>
        ensures value { answer self.now result ≡ ranges self.now range.now local }
        ensures lower { (passes : List Pass) → IsLowerInside self.now.levels passes result }
    {
        match self.active.shown_frame(range) {
            None => QuadAnswer::Surface,
            Some(shown) => {
                if self.is_on_path(&shown.id()) {
                    QuadAnswer::Nothing
                } else {
                    self.shown(range, shown, local)
                }
            }
        }
    }

    /// Whether a surface is on the path.
    fn is_on_path(&self, id: &SurfaceId) -> bool
        ensures { result ≡ list_any (same_surface id.now) self.now.path }
    {
        let here = self.is_root & (*id == self.submitted.id());
        entered(self.outer, id) | here
    }

    /// What is hit in a shown surface. Outside its size it is this surface, unless the shown one
    /// is the range's end.
    #[tactic(auto, unfolding(vz_rules::specs::Hit::shown_hit))]
    fn shown(
        &self,
        range: &SurfaceRange,
        shown: &'b SubmittedFrame<'a>,
        local: Point,
    ) -> QuadAnswer<'b, 'a>
        ensures value { answer self.now result ≡ shown_here self.now range.now shown.now local }
        ensures lower { (passes : List Pass) → IsLowerInside self.now.levels passes result }
    {
        if is_inside(shown, local) {
            return self.surface(shown, local);
        }
        if shown.id() == range.end {
            QuadAnswer::Nothing
        } else {
            QuadAnswer::Surface
        }
    }

    /// What is hit in a surface that is entered at a point: nothing if no more may be entered, or
    /// it has no pass.
    fn surface(&self, entered: &'b SubmittedFrame<'a>, entry: Point) -> QuadAnswer<'b, 'a>
        ensures value { answer self.now result
            ≡ hit self.now.levels self.now.active self.now.path entered.now entry }
        ensures lower { (passes : List Pass) → IsLowerInside self.now.levels passes result }
    {
        match root_of(self.levels, entered, entry) {
            None => QuadAnswer::Nothing,
            Some(root) => QuadAnswer::Inside(root),
        }
    }
}
