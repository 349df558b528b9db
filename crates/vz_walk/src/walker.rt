//! The walk over a store, quad by quad, as the definitions say.
ghost use Rattle.std.specs.Prelude.{◌≡◌, ◌<◌, ◌+◌, length, slice_get, Some};
ghost use Rattle.vz_geom.specs.Display.{IsDisplaySize};
ghost use Rattle.vz_rules.specs.Walk.{walk};
ghost use Rattle.vz_surfaces.specs.Reading.{seen_frames};
ghost use Rattle.vz_surfaces.specs.Keeping.{KeepsStored, KeepsFrames};
ghost use Rattle.vz_placement.specs.Limits.{FitsFile, HasRoom, IsPassInReach, IsQuadInReach, coordinates, room_for};
ghost use Rattle.vz_walk.specs.Meeting.{Meets};
ghost use Rattle.vz_walk.specs.Scenes.{walked_in};
ghost use Rattle.vz_walk.specs.Walking.{ids, ranges_of, quad_of, pass_of, group_at};
ghost use Rattle.vz_walk.specs.Walking.{shown_at};

use crate::path::Path;
use crate::visitor::Visitor;
use std::marker::Model;
use vz_base::limits::MOST_ON_PATH;
use vz_frame::{DrawQuad, Material, RenderPass};
use vz_geom::Size;
use vz_ids::{SurfaceId, SurfaceRange};
use vz_placement::Placement;
use vz_surfaces::{NamedFrame, Seen, Store};

/// How many surfaces deep the walk goes: one more than the limit allows.
const LEVELS: u32 = MOST_ON_PATH as u32 + 1;

/// Where a walk is: in a frame, with the surfaces on the path and how many more it may have.
#[derive(Drop)]
struct Walker<'b, 's> {
    store: &'b Store,
    levels: u32,
    path: &'b Path<'b>,
    frame: &'s NamedFrame,
}

impl<'b, 's> Model for Walker<'b, 's> {
    ghost use Rattle.vz_surfaces.specs.Reading.{seen_frames};
    ghost use Rattle.vz_walk.specs.Walking.{Stand, IsStanding, ids};

    ghost Value = { Stand };

    ghost view = { λ w. record {
      active = seen_frames w.store.now;
      levels = w.levels;
      path = ids w.path.now;
      frame = w.frame.now;
    } };

    ghost invariant = { λ w. IsStanding w.store.now w.levels (ids w.path.now) w.frame.now };
}

/// The walk in a surface, given the surfaces on the path and how many more it may have.
/// Conditions: the store keeps its invariants, the path and what is left of it are within the
/// limit, the frame fits a message file, and the place has room for the passes of all surfaces
/// that are left.
#[cycle(walk)]
fn surface<V: Visitor>(
    store: &Store,
    levels: u32,
    path: &Path<'_>,
    seen: &Seen<'_>,
    place: &Placement,
    visitor: &mut V,
) -> bool
    requires keeps { KeepsStored store.now }
    requires frames { KeepsFrames store.now }
    requires deep { length (ids path.now) + levels ≡ 65 }
    requires fits { FitsFile seen.now.frame }
    requires room { HasRoom (room_for levels 0) place.now.shift }
    ensures { Meets V.has_met V.has_stopped result visitor.old visitor.new
        (walk levels (seen_frames store.now) (ids path.now) seen.now place.now) }
{
    if levels == 0 {
        return true;
    }
    let frame = &seen.held().frame;
    let count = frame.frame().passes.as_slice().len();
    if count == 0 {
        return true;
    }
    let behind = Path::Behind {
        id: seen.id(),
        before: &*path,
    };
    let walker = Walker {
        store: &*store,
        levels: levels - 1,
        path: &behind,
        frame,
    };
    walker.pass(count - 1, place, visitor)
}

impl<'b, 's> Walker<'b, 's> {
    /// The walk in one pass of the frame. Conditions: the pass exists, and the place has room for
    /// it, those before it and all surfaces that are left.
    #[cycle(walk)]
    fn pass<V: Visitor>(&self, k: usize, place: &Placement, visitor: &mut V) -> bool
        requires there { k < length self.now.frame.passes }
        requires room { HasRoom (room_for self.now.levels (k + 1)) place.now.shift }
        ensures { Meets V.has_met V.has_stopped result visitor.old visitor.new
            (pass_of self.now k place.now) }
    {
        let pass = &self.frame.frame().passes.as_slice()[k];
        let quads = pass.quads.as_slice();
        for n in 0..quads.len() {
            if !self.quad(k, n, pass, &quads[n], place, visitor) {
                return false;
            }
        }
        true
    }

    /// The quad at a place of a pass, and the walk in what it draws. Conditions: the pass exists,
    /// the pass and the quad are within the limits, and the place has room as for the pass.
    #[cycle(walk)]
    fn quad<V: Visitor>(
        &self,
        k: usize,
        n: usize,
        pass: &RenderPass,
        quad: &DrawQuad,
        place: &Placement,
        visitor: &mut V,
    ) -> bool
        requires there { k < length self.now.frame.passes }
        requires pass { IsPassInReach pass.now }
        requires quad { IsQuadInReach quad.now }
        requires own { slice_get self.now.frame.passes k ≡ Some pass.now }
        requires at { slice_get pass.now.quads n ≡ Some quad.now }
        requires room { HasRoom (room_for self.now.levels (k + 1)) place.now.shift }
        ensures { Meets V.has_met V.has_stopped result visitor.old visitor.new
            (quad_of self.now k pass.now place.now quad.now) }
    {
        if !visitor.quad() {
            return false;
        }
        match &quad.material {
            Material::Pass(_) => match self.frame.place_named(k, n) {
                None => true,
                Some(at) => self.group(at, &place.place_in(pass, quad), visitor),
            },
            Material::Surface { range, .. } => {
                self.range(range, &place.place_in(pass, quad), visitor)
            }
            Material::Solid(_) => true,
            Material::Tile { .. } => true,
        }
    }

    /// The walk in an earlier pass that a quad draws. Conditions: the pass exists, and its place
    /// has room for it, those before it and all surfaces that are left.
    #[cycle(walk)]
    fn group<V: Visitor>(&self, k: usize, place: &Placement, visitor: &mut V) -> bool
        requires there { k < length self.now.frame.passes }
        requires room { HasRoom (room_for self.now.levels (k + 1) + coordinates 1)
            place.now.shift }
        ensures { Meets V.has_met V.has_stopped result visitor.old visitor.new
            (group_at (ranges_of self.now) self.now.frame.passes place.now (Some k)) }
    {
        let passes = self.frame.frame().passes.as_slice();
        self.pass(k, &place.inside(&passes[k]), visitor)
    }

    /// A range, and the walk in the surface that it shows, unless that is on the path. Condition:
    /// the place has room for all surfaces that are left.
    #[cycle(walk)]
    fn range<V: Visitor>(&self, range: &SurfaceRange, place: &Placement, visitor: &mut V) -> bool
        requires { HasRoom (room_for self.now.levels 0) place.now.shift }
        ensures { Meets V.has_met V.has_stopped result visitor.old visitor.new
            (ranges_of self.now range.now place.now) }
    {
        let shown = self.store.shown_frame(range);
        if !visitor.shows(range, &shown, &place.window()) {
            return false;
        }
        match &shown {
            None => true,
            Some(seen) => self.shown(seen, place, visitor),
        }
    }

    /// The walk in a shown surface, unless it is on the path. Conditions: its frame fits a
    /// message file, and the place has room for all surfaces that are left.
    #[cycle(walk)]
    fn shown<V: Visitor>(&self, seen: &Seen<'_>, place: &Placement, visitor: &mut V) -> bool
        requires fits { FitsFile seen.now.frame }
        requires room { HasRoom (room_for self.now.levels 0) place.now.shift }
        ensures { Meets V.has_met V.has_stopped result visitor.old visitor.new
            (shown_at self.now seen.now place.now) }
    {
        if self.path.has(&seen.id()) {
            return true;
        }
        if !visitor.enters(LEVELS - self.levels + 1, seen, place) {
            return false;
        }
        surface(self.store, self.levels, self.path, seen, place, visitor)
    }
}

/// Walks from the root pass of the root surface, and reports each visit to the visitor, in order.
/// It allocates nothing. Returns true if the walk went to its end, and false if the visitor
/// stopped it. Conditions: the store keeps its invariants, the frames fit message files, and the
/// size is that of a display.
pub fn walk<V: Visitor>(store: &Store, root: &SurfaceId, size: Size, visitor: &mut V) -> bool
    requires keeps { KeepsStored store.now }
    requires frames { KeepsFrames store.now }
    requires size { IsDisplaySize size }
    ensures { Meets V.has_met V.has_stopped result visitor.old visitor.new
        (walked_in size root.now store.now) }
{
    match store.frame_on(root) {
        None => true,
        Some(seen) => {
            let place = Placement::whole(size);
            if !visitor.enters(1, &seen, &place) {
                return false;
            }
            surface(store, LEVELS, &Path::Start, &seen, &place, visitor)
        }
    }
}
