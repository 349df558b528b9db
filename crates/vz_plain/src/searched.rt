//! Passes that are searched at a point, one inside another.
ghost use Rattle.std.specs.Prelude.{◌≡◌, ◌∷◌, [], ◌&&◌, List, None, MatchOption, IfSome};
ghost use Rattle.std.specs.List.{list_any};
ghost use Rattle.vz_ids.specs.declared.SurfaceId.{SurfaceId as Surface};
ghost use Rattle.vz_ids.specs.Ids.{same_surface};
ghost use Rattle.vz_frame.specs.declared.frame.RenderPass.{RenderPass as Pass};
ghost use Rattle.vz_rules.specs.World.{FrameData};
ghost use Rattle.vz_rules.specs.Hit.{hit};
ghost use Rattle.vz_plain.specs.Finding.{with_quads, left_here};
ghost use Rattle.vz_plain.specs.Remaining.{IsLower};

use std::marker::Model;
use vz_frame::{DrawQuad, RenderPass};
use vz_geom::Point;
use vz_ids::SurfaceId;
use vz_scene::SubmittedFrame;

/// A pass of a frame that is searched at a point, from front to back.
#[derive(Drop)]
pub(crate) struct SearchedPass<'b, 'a> {
    /// Whether the frame was entered here: it is its root pass.
    pub(crate) is_root: bool,
    /// How many more surfaces may be entered inside of it.
    pub(crate) levels: u32,
    /// The frame.
    pub(crate) submitted: &'b SubmittedFrame<'a>,
    /// The point of the root pass at which the frame was entered.
    pub(crate) entry: Point,
    /// The passes before this one, which it may draw.
    pub(crate) earlier: &'a [RenderPass],
    /// The pass.
    pub(crate) pass: &'a RenderPass,
    /// Its quads that are left: those behind.
    pub(crate) quads: &'a [DrawQuad],
    /// The point.
    pub(crate) point: Point,
}

impl<'b, 'a> Model for SearchedPass<'b, 'a> {
    ghost use Rattle.vz_plain.specs.Finding.{SearchedPass as Stand};

    ghost Value = { Stand };

    ghost view = { λ s. record {
      is_root = s.is_root;
      levels = s.levels;
      submitted = s.submitted.now;
      entry = s.entry;
      earlier = s.earlier.now;
      pass = s.pass.now;
      quads = s.quads.now;
      point = s.point;
    } };
}

impl<'b, 'a> SearchedPass<'b, 'a> {
    /// Takes the first of the quads that are left, if there is one.
    pub(crate) fn next_quad(&mut self) -> Option<&'a DrawQuad>
        ensures { MatchOption result ((self.old.quads ≡ []) × (self.new ≡ self.old))
            (λ q. (self.old.quads ≡ q.now ∷ self.new.quads)
            × (self.new ≡ with_quads self.old self.new.quads)) }
    {
        match self.quads.split_first() {
            None => None,
            Some((quad, behind)) => {
                self.quads = behind;
                Some(quad)
            }
        }
    }

    /// Whether a surface was entered here.
    fn enters(&self, id: &SurfaceId) -> bool
        ensures { result ≡ (self.now.is_root && same_surface id.now self.now.submitted.id) }
    {
        self.is_root && *id == self.submitted.id()
    }
}

/// Whether one of these passes entered a surface.
pub(crate) fn entered(passes: &[SearchedPass<'_, '_>], id: &SurfaceId) -> bool
    ensures { result ≡ list_any (λ s. s.is_root && same_surface id.now s.submitted.id) passes.now }
{
    passes.iter().any(|one| one.enters(id))
}

/// The root pass of a surface that is entered at a point while so many may be entered, or None,
/// and then nothing is hit, if no more may be, or it has no pass.
pub(crate) fn root_of<'b, 'a>(
    levels: u32,
    submitted: &'b SubmittedFrame<'a>,
    entry: Point,
) -> Option<SearchedPass<'b, 'a>>
    ensures value { (active : List FrameData) (path : List Surface)
        → MatchOption result (hit levels active path submitted.now entry ≡ None)
        (λ s. left_here active path s ≡ hit levels active path submitted.now entry) }
    ensures lower { (earlier : List Pass) → IfSome result (IsLower levels earlier) }
{
    if levels == 0 {
        return None;
    }
    match submitted.frame().passes.as_slice().split_last() {
        None => None,
        Some((root, earlier)) => Some(SearchedPass {
            is_root: true,
            levels: levels - 1,
            submitted,
            entry,
            earlier,
            pass: root,
            quads: root.quads.as_slice(),
            point: entry,
        }),
    }
}
