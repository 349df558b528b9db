//! The regions of surfaces, passes and quads, put from front to back.
ghost use Rattle.std.specs.Prelude.{◌≡◌, ◌+◌, ◌<◌, ◌∷◌, [], Some, length, slice_get, OnOk};
ghost use Rattle.vz_frame.specs.declared.frame.RenderPass.{RenderPass as Pass};
ghost use Rattle.vz_frame.specs.declared.frame.DrawQuad.{DrawQuad as Quad};
ghost use Rattle.vz_rules.specs.Kept.{IsWhole};
ghost use Rattle.vz_surfaces.specs.Reading.{seen_frames};
ghost use Rattle.vz_surfaces.specs.Keeping.{KeepsStored, KeepsFrames};
ghost use Rattle.vz_surfaces.specs.Names.{place_named};
ghost use Rattle.vz_placement.specs.Limits.{HasRoom, IsPassInReach, coordinates, room_for};
ghost use Rattle.vz_walk.specs.Walking.{ids};
ghost use Rattle.vz_flat.specs.Whole.{IsQuadWhole, IsPassWhole};
ghost use Rattle.vz_hit.specs.Parts.{StartsAtCorner};
ghost use Rattle.vz_hit.specs.Hitting.{Adds, in_window, entered, own, quads_of, material_of};
ghost use Rattle.vz_hit.specs.Hitting.{group_at, range_of, shown_of, gutter_of};

use crate::parts::{down_from, group_place, past_size, right_from, shift_back, surface_place};
use crate::region::Region;
use crate::regions::Regions;
use std::marker::Model;
use vz_base::Memory;
use vz_frame::{DrawQuad, Material, RenderPass};
use vz_geom::{Point, Rect};
use vz_ids::SurfaceRange;
use vz_placement::Placement;
use vz_surfaces::{Seen, Store};
use vz_walk::Path;

/// A surface whose regions are put, after the surfaces of a path and with so many surfaces left,
/// and what moves a point of the display to its root pass. What the store keeps holds all the
/// time.
#[derive(Drop)]
struct Builder<'b, 's> {
    store: &'s Store,
    levels: u32,
    path: &'b Path<'b>,
    seen: &'b Seen<'s>,
    shift: Point,
}

impl<'b, 's> Model for Builder<'b, 's> {
    ghost use Rattle.vz_rules.specs.Kept.{IsWhole};
    ghost use Rattle.vz_surfaces.specs.Reading.{seen_frames};
    ghost use Rattle.vz_surfaces.specs.Keeping.{KeepsStored, KeepsFrames};
    ghost use Rattle.vz_hit.specs.Hitting.{Stand, IsStanding};
    ghost use Rattle.vz_walk.specs.Walking.{ids};

    ghost Value = { Stand };

    ghost view = { λ b. record {
      active = seen_frames b.store.now;
      levels = b.levels;
      path = ids b.path.now;
      seen = b.seen.now;
      shift = b.shift;
    } };

    ghost invariant = { λ b. IsStanding b.store.now b.seen.now b.shift };
}

/// Puts the regions of a surface, after the surfaces of a path and with so many surfaces left: in
/// its window they answer what is hit in it. Conditions: what always holds is kept, the surface's
/// frame is whole, and the place has room for the passes of all surfaces that are left.
#[cycle(build)]
pub(crate) fn surface<'s>(
    store: &'s Store,
    levels: u32,
    path: &Path<'_>,
    seen: &Seen<'s>,
    place: &Placement,
    regions: &mut Regions,
) -> Result<(), Memory>
    requires keeps { KeepsStored store.now }
    requires frames { KeepsFrames store.now }
    requires whole { IsWhole seen.now }
    requires room { HasRoom (room_for levels 0) place.now.shift }
    ensures { OnOk result (Adds regions.old regions.new (in_window place.now.window
        (entered levels (seen_frames store.now) (ids path.now) seen.now place.now.shift))) }
{
    if levels == 0 {
        return Ok(());
    }
    let behind = Path::Behind {
        id: seen.id(),
        before: &*path,
    };
    let builder = Builder {
        store: &*store,
        levels: levels - 1,
        path: &behind,
        seen: &*seen,
        shift: shift_back(place),
    };
    let passes = builder.passes();
    let count = passes.len();
    if count == 0 {
        return Ok(());
    }
    let last = count - 1;
    builder.pass(last, &passes[last], place, regions)?;
    Ok(())
}

impl<'b, 's> Builder<'b, 's> {
    /// The passes of the surface's frame, which is whole.
    fn passes(&self) -> &[RenderPass]
        ensures own { result.now ≡ self.now.seen.frame.passes }
        ensures whole { IsWhole self.now.seen }
    {
        self.seen.held().frame.frame().passes.as_slice()
    }

    /// The place to which the name in a quad leads, by the places of its pass and of the quad.
    fn place_named(&self, pass: usize, quad: usize) -> Option<usize>
        ensures { (p : Pass) (q : Quad) → slice_get self.now.seen.frame.passes pass ≡ Some p
            → slice_get p.quads quad ≡ Some q → result ≡ place_named self.now.seen.frame pass q }
    {
        self.seen.held().frame.place_named(pass, quad)
    }

    /// Puts a region in which the surface itself is hit, if it has a point.
    fn put(&self, area: Rect, regions: &mut Regions) -> Result<(), Memory>
        ensures { OnOk result (Adds regions.old regions.new (in_window area (own self.now))) }
    {
        if area.is_empty() {
            return Ok(());
        }
        regions.put(Region {
            area,
            id: self.seen.id(),
            shift: self.shift,
        })?;
        Ok(())
    }

    /// Puts the regions of the pass at a place of the frame: in its window they answer what its
    /// quads do. Conditions: it is there, it is whole, and the place has room for those up to it
    /// and the surfaces that are left.
    #[cycle(build)]
    fn pass(
        &self,
        k: usize,
        pass: &RenderPass,
        place: &Placement,
        regions: &mut Regions,
    ) -> Result<(), Memory>
        requires there { slice_get self.now.seen.frame.passes k ≡ Some pass.now }
        requires whole { IsPassWhole self.now.seen pass.now }
        requires room { HasRoom (room_for self.now.levels (k + 1)) place.now.shift }
        ensures { OnOk result (Adds regions.old regions.new (in_window place.now.window
            (quads_of self.now k pass.now pass.now.quads place.now.shift))) }
    {
        let quads = pass.quads.as_slice();
        for n in 0..quads.len() {
            let leads_to = self.place_named(k, n);
            self.quad(k, pass, &quads[n], leads_to, place, regions)?;
        }
        Ok(())
    }

    /// Puts the regions of a quad of the pass at a place. Condition: this is where its name leads.
    #[cycle(build)]
    fn quad(
        &self,
        k: usize,
        pass: &RenderPass,
        quad: &DrawQuad,
        leads_to: Option<usize>,
        place: &Placement,
        regions: &mut Regions,
    ) -> Result<(), Memory>
        requires there { k < length self.now.seen.frame.passes }
        requires reach { IsPassInReach pass.now }
        requires whole { IsQuadWhole self.now.seen quad.now }
        requires named { leads_to ≡ place_named self.now.seen.frame k quad.now }
        requires room { HasRoom (room_for self.now.levels (k + 1)) place.now.shift }
        ensures { OnOk result (Adds regions.old regions.new (in_window place.now.window
            (quads_of self.now k pass.now (quad.now ∷ []) place.now.shift))) }
    {
        let inner = place.place_in(pass, quad);
        if inner.window().is_empty() {
            return Ok(());
        }
        self.material(k, quad, leads_to, &inner, regions)?;
        Ok(())
    }

    /// Puts the regions of what a quad of the pass at a place draws at its own place. Condition:
    /// nothing of it is seen above or left of that place.
    #[cycle(build)]
    fn material(
        &self,
        k: usize,
        quad: &DrawQuad,
        leads_to: Option<usize>,
        place: &Placement,
        regions: &mut Regions,
    ) -> Result<(), Memory>
        requires there { k < length self.now.seen.frame.passes }
        requires named { leads_to ≡ place_named self.now.seen.frame k quad.now }
        requires room { HasRoom (room_for self.now.levels k + coordinates 1) place.now.shift }
        requires corner { StartsAtCorner place.now }
        ensures { OnOk result (Adds regions.old regions.new (in_window place.now.window
            (material_of self.now k quad.now.material place.now.shift))) }
    {
        match quad.material {
            Material::Solid(_) => {
                self.put(place.window(), regions)?;
                Ok(())
            }
            Material::Tile { .. } => {
                self.put(place.window(), regions)?;
                Ok(())
            }
            Material::Surface { range, .. } => {
                self.range(&range, place, regions)?;
                Ok(())
            }
            Material::Pass(_) => match leads_to {
                None => Ok(()),
                Some(at) => {
                    self.named(at, place, regions)?;
                    Ok(())
                }
            },
        }
    }

    /// Puts the regions of the pass at a place of the frame that a quad names. Conditions: it is
    /// there, and the quad's place has room for those up to it and the surfaces that are left.
    #[cycle(build)]
    fn named(&self, k: usize, place: &Placement, regions: &mut Regions) -> Result<(), Memory>
        requires there { k < length self.now.seen.frame.passes }
        requires room { HasRoom (room_for self.now.levels (k + 1) + coordinates 1)
            place.now.shift }
        ensures { OnOk result (Adds regions.old regions.new (in_window place.now.window
            (group_at self.now place.now.shift (Some k)))) }
    {
        let pass = &self.passes()[k];
        let inner = group_place(pass, place);
        if inner.window().is_empty() {
            return Ok(());
        }
        self.pass(k, pass, &inner, regions)?;
        Ok(())
    }

    /// Puts the regions of a range: none if the surface that it shows is on the path. Condition:
    /// nothing of it is seen above or left of its place.
    #[cycle(build)]
    fn range(
        &self,
        range: &SurfaceRange,
        place: &Placement,
        regions: &mut Regions,
    ) -> Result<(), Memory>
        requires room { HasRoom (room_for self.now.levels 0) place.now.shift }
        requires corner { StartsAtCorner place.now }
        ensures { OnOk result (Adds regions.old regions.new (in_window place.now.window
            (range_of self.now range.now place.now.shift))) }
    {
        match self.store.shown_frame(range) {
            None => {
                self.put(place.window(), regions)?;
                Ok(())
            }
            Some(seen) => {
                if self.path.has(&seen.id()) {
                    return Ok(());
                }
                self.shown(range, &seen, place, regions)?;
                Ok(())
            }
        }
    }

    /// Puts the regions of a surface that a range shows: its gutter and its own.
    #[cycle(build)]
    fn shown(
        &self,
        range: &SurfaceRange,
        seen: &Seen<'s>,
        place: &Placement,
        regions: &mut Regions,
    ) -> Result<(), Memory>
        requires whole { IsWhole seen.now }
        requires room { HasRoom (room_for self.now.levels 0) place.now.shift }
        requires corner { StartsAtCorner place.now }
        ensures { OnOk result (Adds regions.old regions.new (in_window place.now.window
            (shown_of self.now range.now seen.now place.now.shift))) }
    {
        self.gutter(range, seen, place, regions)?;
        let inner = surface_place(seen, place);
        if inner.window().is_empty() {
            return Ok(());
        }
        surface(self.store, self.levels, self.path, seen, &inner, regions)?;
        Ok(())
    }

    /// Puts the gutter of a surface that a range shows, two regions at most: the part outside its
    /// size, in which the embedding surface is hit, unless the shown one is the range's end.
    fn gutter(
        &self,
        range: &SurfaceRange,
        seen: &Seen<'s>,
        place: &Placement,
        regions: &mut Regions,
    ) -> Result<(), Memory>
        requires whole { IsWhole seen.now }
        requires room { HasRoom 0 place.now.shift }
        requires corner { StartsAtCorner place.now }
        ensures { OnOk result (Adds regions.old regions.new (in_window place.now.window
            (gutter_of self.now range.now seen.now place.now.shift))) }
    {
        if seen.id() == range.end {
            return Ok(());
        }
        let window = place.window();
        let past = past_size(seen, place);
        self.put(right_from(&window, past), regions)?;
        self.put(down_from(&window, past), regions)?;
        Ok(())
    }
}
