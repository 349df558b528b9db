//! Passes by their ids.
ghost use Rattle.std.specs.Prelude.{◌≡◌, ◌<◌, ℕ, length, IfSome, MatchOption};
ghost use Rattle.vz_geom.specs.Rectangle.{plus, corner};
ghost use Rattle.vz_geom.specs.declared.Point.{Point as Place};
ghost use Rattle.vz_frame.specs.declared.blend.Blend.{Blend as Mode};
ghost use Rattle.vz_pixels.specs.Colour.{Colour};
ghost use Rattle.vz_plain.specs.Painting.{Painter as Stand, passes_in, group_here};

use vz_frame::RenderPass;

/// The last pass with an id, after those before it.
#[tactic(auto, unfolding(vz_rules::specs::Paint::groups))]
pub(crate) fn last_named<'a>(
    passes: &'a [RenderPass],
    id: u32,
) -> Option<(&'a [RenderPass], &'a RenderPass)>
    ensures painted { (p : Stand) (m : Mode) (o : ℕ) (l : Place) (d : Colour) → MatchOption result
        (passes_in p passes.now id m o l d ≡ d)
        (λ r. passes_in p passes.now id m o l d
        ≡ group_here p r.0.now r.1.now m o (plus l (corner r.1.now.output)) d) }
    ensures fewer { IfSome result (λ r. length r.0.now < length passes.now) }
{
    let mut left = passes;
    'passes: while let Some((pass, earlier)) = left.split_last() {
        if pass.id == id {
            return Some((earlier, pass));
        }
        left = earlier;
    }
    None
}
