//! Laws of damage: each is the contract of a function with an empty body.
ghost use Rattle.std.specs.Prelude.{◌≡◌, List};
ghost use Rattle.std.specs.Option.{option_map};
ghost use Rattle.vz_geom.specs.declared.Size.{Size};
ghost use Rattle.vz_ids.specs.declared.SurfaceId.{SurfaceId};
ghost use Rattle.vz_rules.specs.Damage.{damage_since, drawn_damage, aggregation_of};
ghost use Rattle.vz_rules.specs.Walk.{walk_of};
ghost use Rattle.vz_rules.specs.Kept.{KeepsAlways};
ghost use Rattle.vz_rules.specs.Step.{accepted_frames};
ghost use Rattle.vz_rules.specs.World.{World, Aggregation, FrameData};
ghost use Rattle.vz_rules.specs.World.{active_frames};
ghost use Rattle.vz_surfaces.specs.Stored.{stored_of};
ghost use Rattle.vz_damage.specs.Told.{Told, damage_on, told_on, with_seen};
ghost use Rattle.vz_damage.specs.Accepted.{told_of, TellsActive, TellsLast, scene_from};
ghost use Rattle.vz_damage.specs.Measured.{told_damage, without_indices};
ghost use Rattle.vz_walk.specs.Scenes.{scene_in, walked_in};

use vz_surfaces::laws::stores_tell;

/// If the damage of each accepted submission was reported, the damage on a surface since the last
/// aggregation is the one that the draw rules use.
pub fn told_damages_are_drawn()
    ensures { (w : World) (a : Aggregation) (i : FrameData) → KeepsAlways w
        → damage_since a (accepted_frames w) i ≡ damage_on (told_of w a i) }
{}

/// If what was reported of each surface with an active frame agrees with the last aggregation of
/// the machine's state, `measure` gives the damage of a draw from that state, and `remember`
/// leaves what agrees with the state after the draw.
pub fn measured_damages_are_drawn()
    ensures damage { (w : World) (told : List (SurfaceId × Told)) (size : Size) (root : SurfaceId)
        → KeepsAlways w → TellsLast w told
        → told_damage size (option_map without_indices w.last) told root
        (walked_in size root (stored_of w))
        ≡ drawn_damage size w.last (accepted_frames w) root (walk_of size (scene_from root w)) }
    ensures remembered { (w : World) (size : Size) (root : SurfaceId) → KeepsAlways w
        → aggregation_of (scene_in root (stored_of w)) (walked_in size root (stored_of w))
        ≡ aggregation_of (scene_from root w) (walk_of size (scene_from root w)) }
    ensures told { (w : World) (a : Aggregation) (old new : List (SurfaceId × Told)) (size : Size)
        (root : SurfaceId) → KeepsAlways w → TellsActive w a old
        → ((id : SurfaceId) → told_on new id ≡ option_map with_seen (told_on old id))
        → TellsActive w
        (aggregation_of (scene_from root w) (walk_of size (scene_from root w))) new }
{
    stores_tell();
}
