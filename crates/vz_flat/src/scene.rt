//! What is drawn on a display, from the surfaces of a store.
ghost use Rattle.std.specs.Prelude.{◌≡◌, ◌++◌, true, false, OnOk, IfOk};
ghost use Rattle.vz_geom.specs.declared.Point.{Point};
ghost use Rattle.vz_geom.specs.Display.{IsDisplaySize};
ghost use Rattle.vz_geom.specs.Rectangle.{has, sized};
ghost use Rattle.vz_pixels.specs.Colour.{black};
ghost use Rattle.vz_rules.specs.Paint.{full};
ghost use Rattle.vz_rules.specs.Walk.{walk_of, too_much};
ghost use Rattle.vz_surfaces.specs.Reading.{seen_frames};
ghost use Rattle.vz_surfaces.specs.Keeping.{KeepsStored, KeepsFrames};
ghost use Rattle.vz_flat.specs.Ops.{value};
ghost use Rattle.vz_flat.specs.Flat.{scene_flat};

use crate::flattening::surface;
use crate::put::grow;
use crate::surface::surface_place;
use crate::{Op, Ops};
use std::alloc::Global;
use vz_base::Memory;
use vz_base::limits::MOST_ON_PATH;
use vz_frame::List;
use vz_geom::Size;
use vz_ids::SurfaceId;
use vz_placement::Placement;
use vz_surfaces::Store;
use vz_walk::Path;

/// Appends what the root draws, in the part of the display that it covers.
#[tactic(auto, unfolding(crate::specs::Flat::scene_flat))]
fn put_root(store: &Store, root: &SurfaceId, size: Size, ops: &mut Vec<Op>) -> Result<(), Memory>
    requires size { IsDisplaySize size }
    requires keeps { KeepsStored store.now }
    requires frames { KeepsFrames store.now }
    ensures { OnOk result (ops.new.items ≡ ops.old.items
        ++ scene_flat size (record { root = root.now; active = seen_frames store.now })) }
{
    match store.frame_on(root) {
        None => Ok(()),
        Some(seen) => {
            let place = surface_place(&seen, &Placement::whole(size));
            if place.window().is_empty() {
                return Ok(());
            }
            surface(store, MOST_ON_PATH as u32, &Path::Start, &seen, &place, ops)?;
            Ok(())
        }
    }
}

/// The drawing operations for a display of this size, in pixels, from back to front, with a
/// surface of the store as the root. On opaque black they give at each point of the display the
/// colour that the painting rules give; that is opaque black everywhere if the root has no active
/// frame. A part of the scene without a point on the display has no operation. Blocks are shared,
/// and nothing of a frame is copied. The only error is `Memory`, if an allocation fails.
///
/// Conditions: the size is that of a display, the store keeps its invariants, its frames are
/// valid, and the walk from the root is within the limits on weight and depth.
pub fn flatten(alloc: Global, store: &Store, root: &SurfaceId, size: Size) -> Result<Ops, Memory>
    requires size { IsDisplaySize size }
    requires keeps { KeepsStored store.now }
    requires frames { KeepsFrames store.now }
    requires bounded { too_much
        (walk_of size (record { root = root.now; active = seen_frames store.now })) ≡ false }
    ensures painted { (p : Point) → has (sized size) p ≡ true → IfOk result (λ ops.
        value ops p black ≡ full (record { root = root.now; active = seen_frames store.now }) p) }
{
    let mut ops = Vec::new(alloc);
    grow(&mut ops)?;
    put_root(store, root, size, &mut ops)?;
    match Ops::of(List::from_vec(ops)) {
        Ok(ops) => Ok(ops),
        Err(_) => unreachable!(),
    }
}
