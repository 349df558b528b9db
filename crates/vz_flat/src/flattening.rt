//! Surfaces, passes and quads as drawing operations, all appended to one list.
ghost use Rattle.std.specs.Prelude.{◌≡◌, ◌++◌, ◌+◌, ◌<◌, Some, length, slice_get, OnOk};
ghost use Rattle.vz_frame.specs.declared.frame.RenderPass.{RenderPass as Pass};
ghost use Rattle.vz_frame.specs.declared.frame.DrawQuad.{DrawQuad as Quad};
ghost use Rattle.vz_rules.specs.Kept.{IsWhole};
ghost use Rattle.vz_rules.specs.Walk.{place_in};
ghost use Rattle.vz_surfaces.specs.Reading.{seen_frames};
ghost use Rattle.vz_surfaces.specs.Keeping.{KeepsStored, KeepsFrames};
ghost use Rattle.vz_surfaces.specs.Names.{place_named};
ghost use Rattle.vz_placement.specs.Limits.{HasRoom, IsPassInReach, coordinates, room_for};
ghost use Rattle.vz_walk.specs.Walking.{ids};
ghost use Rattle.vz_flat.specs.Flat.{content_flat, shown_flat, flat};
ghost use Rattle.vz_flat.specs.Whole.{IsQuadWhole, IsPassWhole};
ghost use Rattle.vz_flat.specs.Parts.{seen_flat};
ghost use Rattle.vz_flat.specs.Flattening.{embedded, ranges_of, earlier_of};
ghost use Rattle.vz_flat.specs.Flattening.{material_here, quads_here, group_here, group_at};

use crate::Op;
use crate::gutter::put_gutter;
use crate::put::put;
use crate::surface::{present_place, surface_place};
use crate::tile::{block_at, put_tile};
use std::marker::Model;
use vz_base::Memory;
use vz_frame::{Blend, DrawQuad, Material, RenderPass};
use vz_ids::{SurfaceId, SurfaceRange};
use vz_pixels::Pixel;
use vz_placement::{Placement, moved};
use vz_surfaces::{Seen, Store};
use vz_walk::Path;

/// A surface whose frame is flattened, with the surfaces on the path and how many more it may
/// have. The store keeps its invariants all the time.
#[derive(Drop)]
struct Flattener<'b, 's> {
    store: &'s Store,
    levels: u32,
    path: &'b Path<'b>,
    seen: &'b Seen<'s>,
}

impl<'b, 's> Model for Flattener<'b, 's> {
    ghost use Rattle.vz_rules.specs.Kept.{IsWhole};
    ghost use Rattle.vz_surfaces.specs.Reading.{seen_frames};
    ghost use Rattle.vz_surfaces.specs.Keeping.{KeepsStored, KeepsFrames};
    ghost use Rattle.vz_flat.specs.Flattening.{Stand};
    ghost use Rattle.vz_walk.specs.Walking.{ids};

    ghost Value = { Stand };

    ghost view = { λ f. record {
      active = seen_frames f.store.now;
      levels = f.levels;
      path = ids f.path.now;
      seen = f.seen.now;
    } };

    ghost invariant = { λ f. KeepsStored f.store.now × KeepsFrames f.store.now
        × IsWhole f.seen.now };
}

/// Appends what a surface draws, given the surfaces on the path and how many more it may have.
/// Conditions: the store keeps its invariants, the surface's frame is valid, and the place has
/// room for the passes of all surfaces that are left.
#[tactic(auto, unfolding(crate::specs::Flat::flat, crate::specs::Flat::root_flat))]
#[cycle(flatten)]
pub(crate) fn surface<'s>(
    store: &'s Store,
    levels: u32,
    path: &Path<'_>,
    seen: &Seen<'s>,
    place: &Placement,
    ops: &mut Vec<Op>,
) -> Result<(), Memory>
    requires keeps { KeepsStored store.now }
    requires frames { KeepsFrames store.now }
    requires whole { IsWhole seen.now }
    requires room { HasRoom (room_for levels 0) place.now.shift }
    ensures { OnOk result (ops.new.items
        ≡ ops.old.items ++ flat levels (seen_frames store.now) (ids path.now) seen.now place.now) }
{
    if levels == 0 {
        return Ok(());
    }
    let behind = Path::Behind {
        id: seen.id(),
        before: &*path,
    };
    let flattener = Flattener {
        store: &*store,
        levels: levels - 1,
        path: &behind,
        seen: &*seen,
    };
    let passes = flattener.passes();
    let count = passes.len();
    if count == 0 {
        return Ok(());
    }
    let last = count - 1;
    flattener.pass(last, &passes[last], place, ops)?;
    Ok(())
}

impl<'b, 's> Flattener<'b, 's> {
    /// The passes of the surface's frame, which is valid.
    fn passes(&self) -> &[RenderPass]
        ensures own { result.now ≡ self.now.seen.frame.passes }
        ensures whole { IsWhole self.now.seen }
    {
        self.seen.held().frame.frame().passes.as_slice()
    }

    /// The place to which the name in a quad leads, given the places of its pass and of the quad.
    fn place_named(&self, pass: usize, quad: usize) -> Option<usize>
        ensures { (p : Pass) (q : Quad) → slice_get self.now.seen.frame.passes pass ≡ Some p
            → slice_get p.quads quad ≡ Some q → result ≡ place_named self.now.seen.frame pass q }
    {
        self.seen.held().frame.place_named(pass, quad)
    }

    /// Appends what one pass of the frame draws, over the earlier ones. Conditions: the pass
    /// exists and is valid, and the place has room for the passes up to it and the surfaces that
    /// are left.
    #[cycle(flatten)]
    fn pass(
        &self,
        k: usize,
        pass: &RenderPass,
        place: &Placement,
        ops: &mut Vec<Op>,
    ) -> Result<(), Memory>
        requires there { slice_get self.now.seen.frame.passes k ≡ Some pass.now }
        requires whole { IsPassWhole self.now.seen pass.now }
        requires room { HasRoom (room_for self.now.levels (k + 1)) place.now.shift }
        ensures { OnOk result (ops.new.items ≡ ops.old.items
            ++ quads_here self.now (earlier_of self.now k) pass.now place.now pass.now.quads) }
    {
        let quads = pass.quads.as_slice();
        let mut n = quads.len();
        while n > 0 {
            n -= 1;
            self.quad(k, n, pass, &quads[n], place, ops)?;
        }
        Ok(())
    }

    /// Appends what the quad at a place of a pass draws, if it is visible.
    #[cycle(flatten)]
    fn quad(
        &self,
        k: usize,
        n: usize,
        pass: &RenderPass,
        quad: &DrawQuad,
        place: &Placement,
        ops: &mut Vec<Op>,
    ) -> Result<(), Memory>
        requires there { k < length self.now.seen.frame.passes }
        requires reach { IsPassInReach pass.now }
        requires whole { IsQuadWhole self.now.seen quad.now }
        requires own { slice_get self.now.seen.frame.passes k ≡ Some pass.now }
        requires at { slice_get pass.now.quads n ≡ Some quad.now }
        requires room { HasRoom (room_for self.now.levels (k + 1)) place.now.shift }
        ensures { OnOk result (ops.new.items ≡ ops.old.items
            ++ seen_flat (place_in place.now pass.now quad.now).window
            (material_here self.now (earlier_of self.now k) quad.now
            (place_in place.now pass.now quad.now))) }
    {
        let inner = place.place_in(pass, quad);
        if inner.window().is_empty() {
            return Ok(());
        }
        self.material(k, n, pass, quad, &inner, ops)?;
        Ok(())
    }

    /// Appends what the quad at a place of a pass draws at its own place.
    #[tactic(auto, unfolding(crate::specs::Flat::material_flat))]
    #[cycle(flatten)]
    fn material(
        &self,
        k: usize,
        n: usize,
        pass: &RenderPass,
        quad: &DrawQuad,
        place: &Placement,
        ops: &mut Vec<Op>,
    ) -> Result<(), Memory>
        requires there { k < length self.now.seen.frame.passes }
        requires own { slice_get self.now.seen.frame.passes k ≡ Some pass.now }
        requires at { slice_get pass.now.quads n ≡ Some quad.now }
        requires room { HasRoom (room_for self.now.levels k + coordinates 1) place.now.shift }
        ensures { OnOk result (ops.new.items
            ≡ ops.old.items ++ material_here self.now (earlier_of self.now k) quad.now place.now) }
    {
        let blend = quad.blend;
        let opacity = quad.opacity;
        match &quad.material {
            Material::Solid(color) => {
                let area = place.window();
                put(
                    ops,
                    Op::Fill {
                        area,
                        color: *color,
                        opacity,
                        blend,
                    },
                )?;
                Ok(())
            }
            Material::Tile { tx, ty, .. } => {
                let blocks = self.seen.held().blocks.as_slice();
                let block = block_at(blocks, self.place_named(k, n));
                put_tile(ops, block, *tx, *ty, blend, opacity, place)?;
                Ok(())
            }
            Material::Surface { range, background } => {
                self.range(range, *background, blend, opacity, place, ops)?;
                Ok(())
            }
            Material::Pass(_) => match self.place_named(k, n) {
                None => Ok(()),
                Some(at) => {
                    self.named(at, blend, opacity, place, ops)?;
                    Ok(())
                }
            },
        }
    }

    /// Appends what a pass quad draws: an earlier pass as a group. Conditions: the pass exists,
    /// and the group's place has room for the passes up to it and the surfaces that are left.
    #[cycle(flatten)]
    fn named(
        &self,
        k: usize,
        mode: Blend,
        opacity: u8,
        place: &Placement,
        ops: &mut Vec<Op>,
    ) -> Result<(), Memory>
        requires there { k < length self.now.seen.frame.passes }
        requires room { HasRoom (room_for self.now.levels (k + 1) + coordinates 1)
            place.now.shift }
        ensures { OnOk result (ops.new.items
            ≡ ops.old.items ++ group_at self.now mode opacity place.now (Some k)) }
    {
        let pass = &self.passes()[k];
        let inner = place.inside(pass);
        self.group(k, pass, mode, opacity, &inner, ops)?;
        Ok(())
    }

    /// Appends what a pass draws as a group, if it has a point on the display.
    #[tactic(auto, unfolding(crate::specs::Flat::group_flat))]
    #[cycle(flatten)]
    fn group(
        &self,
        k: usize,
        pass: &RenderPass,
        mode: Blend,
        opacity: u8,
        place: &Placement,
        ops: &mut Vec<Op>,
    ) -> Result<(), Memory>
        requires there { slice_get self.now.seen.frame.passes k ≡ Some pass.now }
        requires whole { IsPassWhole self.now.seen pass.now }
        requires room { HasRoom (room_for self.now.levels (k + 1)) place.now.shift }
        ensures { OnOk result (ops.new.items ≡ ops.old.items
            ++ group_here self.now (earlier_of self.now k) pass.now mode opacity place.now) }
    {
        let output = moved(&pass.output, place.shift());
        let area = place.window().intersect(&output);
        if area.is_empty() {
            return Ok(());
        }
        put(
            ops,
            Op::Push {
                area,
                opacity,
                blend: mode,
            },
        )?;
        self.pass(k, pass, place, ops)?;
        put(ops, Op::Pop)?;
        Ok(())
    }

    /// Appends what a range draws; nothing if the surface that it shows is on the path.
    #[tactic(auto, unfolding(crate::specs::Flat::range_flat))]
    #[cycle(flatten)]
    fn range(
        &self,
        range: &SurfaceRange,
        background: Pixel,
        mode: Blend,
        opacity: u8,
        place: &Placement,
        ops: &mut Vec<Op>,
    ) -> Result<(), Memory>
        requires room { HasRoom (room_for self.now.levels 0) place.now.shift }
        ensures { OnOk result (ops.new.items
            ≡ ops.old.items ++ ranges_of self.now range.now background mode opacity place.now) }
    {
        match self.store.shown_frame(range) {
            None => {
                let area = place.window();
                put(
                    ops,
                    Op::Fill {
                        area,
                        color: background,
                        opacity,
                        blend: mode,
                    },
                )?;
                Ok(())
            }
            Some(seen) => {
                if self.levels == 0 || self.path.has(&seen.id()) {
                    return Ok(());
                }
                self.shown(range, &seen, background, mode, opacity, place, ops)?;
                Ok(())
            }
        }
    }

    /// Appends what a shown surface draws, directly or as a group, unless it has no content
    /// there.
    #[tactic(auto, unfolding(crate::specs::Flat::laid_flat))]
    #[cycle(flatten)]
    fn shown(
        &self,
        range: &SurfaceRange,
        seen: &Seen<'s>,
        background: Pixel,
        mode: Blend,
        opacity: u8,
        place: &Placement,
        ops: &mut Vec<Op>,
    ) -> Result<(), Memory>
        requires whole { IsWhole seen.now }
        requires room { HasRoom (room_for self.now.levels 0) place.now.shift }
        ensures { OnOk result (ops.new.items ≡ ops.old.items
            ++ shown_flat (embedded self.now) self.now.path
            range.now background mode opacity place.now seen.now) }
    {
        let area = present_place(range, seen, place).window();
        if area.is_empty() {
            return Ok(());
        }
        if mode.is_straight(opacity) {
            self.content(range, seen, background, place, ops)?;
            return Ok(());
        }
        put(
            ops,
            Op::Push {
                area,
                opacity,
                blend: mode,
            },
        )?;
        self.content(range, seen, background, place, ops)?;
        put(ops, Op::Pop)?;
        Ok(())
    }

    /// Appends the background around a shown surface, and then the surface.
    #[tactic(auto, unfolding(crate::specs::Flat::content_flat))]
    #[cycle(flatten)]
    fn content(
        &self,
        range: &SurfaceRange,
        seen: &Seen<'s>,
        background: Pixel,
        place: &Placement,
        ops: &mut Vec<Op>,
    ) -> Result<(), Memory>
        requires whole { IsWhole seen.now }
        requires room { HasRoom (room_for self.now.levels 0) place.now.shift }
        ensures { OnOk result (ops.new.items ≡ ops.old.items
            ++ content_flat (embedded self.now) self.now.path
            range.now background seen.now place.now) }
    {
        let inner = surface_place(seen, place);
        put_gutter(range, seen, background, place, &inner, ops)?;
        if inner.window().is_empty() {
            return Ok(());
        }
        surface(self.store, self.levels, self.path, seen, &inner, ops)?;
        Ok(())
    }
}
