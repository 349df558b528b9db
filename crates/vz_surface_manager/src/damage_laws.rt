//! Laws of what is reported of damage: each is the contract of a function with an empty body.
ghost use Rattle.std.specs.Prelude.{◌≡◌, ◌+◌, Some, None, [], count_by, IsTrue, IsFalse};
ghost use Rattle.std.specs.List.{Contains};
ghost use Rattle.std.specs.Option.{option_map};
ghost use Rattle.vz_geom.specs.declared.Size.{Size};
ghost use Rattle.vz_ids.specs.declared.LocalSurfaceId.{LocalSurfaceId};
ghost use Rattle.vz_ids.specs.declared.SurfaceId.{SurfaceId};
ghost use Rattle.vz_ids.specs.Ids.{same_surface};
ghost use Rattle.vz_frame.specs.declared.frame.CompositorFrame.{CompositorFrame};
ghost use Rattle.vz_frame.specs.Frame.{root_damage};
ghost use Rattle.vz_rules.specs.Singly.{rising, going};
ghost use Rattle.vz_rules.specs.Kept.{KeepsAlways};
ghost use Rattle.vz_rules.specs.Plan.{Plan};
ghost use Rattle.vz_rules.specs.World.{World, Client, Surface, FrameData, Submission, opening, is_on, is_waiting};
ghost use Rattle.vz_rules.specs.Scene.{scene_of};
ghost use Rattle.vz_rules.specs.Walk.{walk_of};
ghost use Rattle.vz_rules.specs.Damage.{aggregation_of};
ghost use Rattle.vz_rules.specs.Messages.{accepted, id_of, new_submission};
ghost use Rattle.vz_rules.specs.Step.{draw_answer};
ghost use Rattle.vz_surfaces.specs.Stored.{stored_of};
ghost use Rattle.vz_surfaces.specs.Reading.{active_on};
ghost use Rattle.vz_walk.specs.Scenes.{scene_in, walked_in};
ghost use Rattle.vz_damage.specs.Told.{Damaged, told_on, next_index, with_damage, with_active, with_seen};
ghost use Rattle.vz_damage.specs.Accepted.{TellsLast, scene_from};
ghost use Rattle.vz_damage.specs.Measured.{told_damage, what_changed, without_indices};
ghost use Rattle.vz_surface_manager.specs.Told_damage.{AreTold};
ghost use Rattle.vz_surface_manager.specs.Allowed.{IsAllowed, Draws, drawn_reply};

/// If nothing was reported and there was no aggregation, the table agrees with the opening state.
pub fn damages_open()
    ensures { (p : Plan) (d : Damaged) → d.surfaces ≡ [] → d.last ≡ None → AreTold (opening p) d }
{}

/// When a submission is accepted, the damage of its frame is to be reported for its surface. Its
/// index, which the store returns too, is the next one there.
pub fn damages_arrive()
    ensures told { (w : World) (c : Client) (local : LocalSurfaceId) (frame : CompositorFrame)
        (old new : Damaged) → KeepsAlways w → IsAllowed w c local frame → AreTold w old
        → told_on new.surfaces (id_of c local)
        ≡ Some (with_damage (told_on old.surfaces (id_of c local)) (root_damage frame))
        → ((other : SurfaceId) → IsFalse (same_surface (id_of c local) other)
        → told_on new.surfaces other ≡ told_on old.surfaces other)
        → new.last ≡ old.last → AreTold (accepted w c local frame).world new }
    ensures index { (w : World) (c : Client) (local : LocalSurfaceId) (frame : CompositorFrame)
        (d : Damaged) → KeepsAlways w → IsAllowed w c local frame → AreTold w d
        → (new_submission w c local frame).submitted.index
        ≡ next_index (told_on d.surfaces (id_of c local)) }
    ensures stored { (w : World) (c : Client) (local : LocalSurfaceId) (frame : CompositorFrame)
        (d : Damaged) → KeepsAlways w → IsAllowed w c local frame → AreTold w d
        → count_by (is_on (id_of c local)) (stored_of w).subs + 1
        ≡ next_index (told_on d.surfaces (id_of c local)) }
{}

/// When a waiting submission becomes active, it is the last one that was reported for its
/// surface.
pub fn damages_rise()
    ensures { (w : World) (s : Submission) (old new : Damaged) → KeepsAlways w
        → Contains w.subs s → IsTrue (is_waiting s) → AreTold w old
        → told_on new.surfaces s.submitted.id
        ≡ option_map with_active (told_on old.surfaces s.submitted.id)
        → ((other : SurfaceId) → IsFalse (same_surface s.submitted.id other)
        → told_on new.surfaces other ≡ told_on old.surfaces other)
        → new.last ≡ old.last → AreTold (rising s w) new }
{}

/// When a surface is destroyed, it is to be removed from the table.
pub fn damages_go()
    ensures { (w : World) (c : Surface) (old new : Damaged) → AreTold w old
        → told_on new.surfaces c.id ≡ None
        → ((other : SurfaceId) → IsFalse (same_surface c.id other)
        → told_on new.surfaces other ≡ told_on old.surfaces other)
        → new.last ≡ old.last → AreTold (going c w) new }
{}

/// What can be seen of the machine's state, and the walk through it, are those of the store of
/// that state.
pub fn scenes_are_stored()
    ensures rootless { (w : World) → w.root ≡ None → scene_of w ≡ None }
    ensures nothing { (w : World) (root : SurfaceId) → KeepsAlways w → w.root ≡ Some root
        → active_on (stored_of w) root ≡ None → scene_of w ≡ None }
    ensures seen { (w : World) (root : SurfaceId) (i : FrameData) → KeepsAlways w
        → w.root ≡ Some root → active_on (stored_of w) root ≡ Some i
        → scene_of w ≡ Some (scene_from root w) }
    ensures walked { (w : World) (root : SurfaceId) (size : Size) → KeepsAlways w
        → walked_in size root (stored_of w) ≡ walk_of size (scene_from root w) }
{}

/// A table that agrees meets the condition of `measured_damages_are_drawn`. If a draw walks, what
/// `measure` finds in the store of the state decides the reply.
pub fn damages_tell()
    ensures last { (w : World) (d : Damaged) → KeepsAlways w → AreTold w d
        → TellsLast w d.surfaces }
    ensures reply { (p : Plan) (w : World) (root : SurfaceId) (d : Damaged) → KeepsAlways w
        → Draws p w root → AreTold w d → (draw_answer p w).reply
        ≡ drawn_reply (what_changed d.last (told_damage p.size d.last d.surfaces root
        (walked_in p.size root (stored_of w)))) }
{}

/// If a draw walks, the table after `remember` agrees with the state after the draw.
pub fn damages_are_seen()
    ensures { (p : Plan) (w : World) (root : SurfaceId) (old new : Damaged) → KeepsAlways w
        → Draws p w root → AreTold w old
        → ((id : SurfaceId) → told_on new.surfaces id
        ≡ option_map with_seen (told_on old.surfaces id))
        → new.last ≡ Some (without_indices (aggregation_of (scene_in root (stored_of w))
        (walked_in p.size root (stored_of w)))) → AreTold (draw_answer p w).world new }
{}
