//! The regions of what is seen of a store.
ghost use Rattle.std.specs.Prelude.{◌≡◌, true, false, None, OnOk, IfOk};
ghost use Rattle.vz_geom.specs.declared.Point.{Point};
ghost use Rattle.vz_geom.specs.Display.{IsDisplaySize};
ghost use Rattle.vz_geom.specs.Rectangle.{has, sized};
ghost use Rattle.vz_rules.specs.Hit.{hit_at};
ghost use Rattle.vz_surfaces.specs.Keeping.{KeepsStored, KeepsFrames};
ghost use Rattle.vz_walk.specs.Scenes.{scene_in};
ghost use Rattle.vz_hit.specs.Regions.{found};
ghost use Rattle.vz_hit.specs.Hitting.{Adds, in_window};

use crate::builder::surface;
use crate::parts::surface_place;
use crate::regions::Regions;
use std::alloc::Global;
use vz_base::Memory;
use vz_base::limits::MOST_ON_PATH;
use vz_geom::Size;
use vz_ids::SurfaceId;
use vz_placement::Placement;
use vz_surfaces::Store;
use vz_walk::Path;

/// How many surfaces deep it goes: one more than a drawing does.
const LEVELS: u32 = MOST_ON_PATH as u32 + 1;

/// Puts the regions of the root: on the display they answer what is hit.
fn put_root(
    store: &Store,
    root: &SurfaceId,
    size: Size,
    regions: &mut Regions,
) -> Result<(), Memory>
    requires size { IsDisplaySize size }
    requires keeps { KeepsStored store.now }
    requires frames { KeepsFrames store.now }
    ensures { OnOk result (Adds regions.old regions.new
        (in_window (sized size) (hit_at (scene_in root.now store.now)))) }
{
    match store.frame_on(root) {
        None => Ok(()),
        Some(seen) => {
            let place = surface_place(&seen, &Placement::whole(size));
            if place.window().is_empty() {
                return Ok(());
            }
            surface(store, LEVELS, &Path::Start, &seen, &place, regions)?;
            Ok(())
        }
    }
}

/// The regions of a display of this size whose root is a surface of the store, from front to back.
/// At each point of the display the first region that has it answers what is hit there, and if no
/// region has it, nothing is hit there. No region has a point outside the display.
///
/// Conditions: the size is a display's, the store keeps what always holds, and its frames are
/// whole. It visits the quads that a walk from the root meets: a caller asks for the weight first.
pub fn build(alloc: Global, store: &Store, root: &SurfaceId, size: Size) -> Result<Regions, Memory>
    requires size { IsDisplaySize size }
    requires keeps { KeepsStored store.now }
    requires frames { KeepsFrames store.now }
    ensures hit { (p : Point) → has (sized size) p ≡ true → IfOk result (λ regions.
        found regions p ≡ hit_at (scene_in root.now store.now) p) }
    ensures outside { (p : Point) → has (sized size) p ≡ false → IfOk result (λ regions.
        found regions p ≡ None) }
{
    let mut regions = Regions::new(alloc);
    put_root(store, root, size, &mut regions)?;
    Ok(regions)
}
