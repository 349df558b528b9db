//! Laws of drawing operations: each is the contract of a function with an empty body.
ghost use Rattle.std.specs.Prelude.{◌≡◌, Some, false, true};
ghost use Rattle.vz_geom.specs.declared.Point.{Point};
ghost use Rattle.vz_geom.specs.declared.Size.{Size};
ghost use Rattle.vz_geom.specs.Rectangle.{has, sized};
ghost use Rattle.vz_pixels.specs.Colour.{black};
ghost use Rattle.vz_rules.specs.World.{World, Scene};
ghost use Rattle.vz_rules.specs.Scene.{scene_of};
ghost use Rattle.vz_rules.specs.Kept.{KeepsAlways};
ghost use Rattle.vz_surfaces.specs.Stored.{stored_of};
ghost use Rattle.vz_surfaces.specs.Reading.{seen_frames};
ghost use Rattle.vz_rules.specs.Paint.{full};
ghost use Rattle.vz_rules.specs.Walk.{walk_of, too_much};
ghost use Rattle.vz_flat.specs.Ops.{value};
ghost use Rattle.vz_flat.specs.Flat.{scene_flat};

use vz_surfaces::laws::stores_tell;

/// At each point of the display a scene's operations give the colour that the painting rules
/// give, if the walk through the scene is within the limit.
pub fn flat_is_painted()
    ensures { (size : Size) (scene : Scene) (p : Point) → too_much (walk_of size scene) ≡ false
        → has (sized size) p ≡ true → value (scene_flat size scene) p black ≡ full scene p }
{}

/// What can be seen of the machine's state is what the store of that state shows.
pub fn scenes_are_stored()
    ensures { (w : World) (scene : Scene) → KeepsAlways w → scene_of w ≡ Some scene
        → record { root = scene.root; active = seen_frames (stored_of w) } ≡ scene }
{
    stores_tell();
}
