//! Laws of the store: each is the contract of a function with an empty body. What the store means
//! changes as the machine's state does, and what is read of it agrees with that state.
ghost use Rattle.std.specs.Prelude.{◌≡◌, ℕ, not, ◌&&◌, ◌||◌, ◌==◌, Some, None, false, map, filter, find, count_by};
ghost use Rattle.std.specs.Option.{option_map};
ghost use Rattle.std.specs.List.{Contains, list_any};
ghost use Rattle.vz_ids.specs.declared.LocalSurfaceId.{LocalSurfaceId};
ghost use Rattle.vz_ids.specs.declared.SurfaceId.{SurfaceId};
ghost use Rattle.vz_ids.specs.declared.SurfaceRange.{SurfaceRange};
ghost use Rattle.vz_ids.specs.Ids.{same_sink};
ghost use Rattle.vz_frame.specs.declared.frame.CompositorFrame.{CompositorFrame};
ghost use Rattle.vz_frame.specs.declared.message.Message.TheVariants.{Close};
ghost use Rattle.vz_rules.specs.Plan.{Plan};
ghost use Rattle.vz_rules.specs.World.{World, Client, Surface, Submission, opening, exists, existing, active_frames, frame_on, is_waiting, is_active, is_on, last_created, sub_of};
ghost use Rattle.vz_rules.specs.Scene.{shown};
ghost use Rattle.vz_rules.specs.Settle.{is_met};
ghost use Rattle.vz_rules.specs.Messages.{accepted, blocks_of, message_answer};
ghost use Rattle.vz_rules.specs.Singly.{rising, going};
ghost use Rattle.vz_rules.specs.Kept.{KeepsAlways, KeepsMessages};
ghost use Rattle.vz_surfaces.specs.Stored.{stored_of, nothing_stored, storing, activating, marking, destroying};
ghost use Rattle.vz_surfaces.specs.Reading.{stands, has_mark, existing_count, marked_of, last_of, seen_frames, active_on, waiting_at, shown_in, was_reached};
ghost use Rattle.vz_surfaces.specs.Keeping.{KeepsStored, KeepsFrames};

/// The store changes as the machine's state does when a submission is accepted or becomes active,
/// when a client is closed, and when a surface is destroyed.
pub fn stores_follow()
    ensures opening { (p : Plan) → stored_of (opening p) ≡ nothing_stored }
    ensures accepted { (w : World) (c : Client) (local : LocalSurfaceId) (frame : CompositorFrame)
        → stored_of (accepted w c local frame).world
        ≡ storing c.number c.sink local frame (blocks_of c.resources frame) (stored_of w) }
    ensures activated { (w : World) (s : Submission) → KeepsAlways w → Contains w.subs s
        → stored_of (rising s w) ≡ activating (sub_of s) (stored_of w) }
    ensures closed { (w : World) (c : Client)
        → stored_of (message_answer w c Close).world ≡ marking c.number (stored_of w) }
    ensures destroyed { (w : World) (c : Surface)
        → stored_of (going c w) ≡ destroying c.id (stored_of w) }
{}

/// What is read of the store agrees with the machine's state: the surfaces that exist and their
/// marks, the last surface of a client, what was ever active and, if the invariants hold, the
/// active frames, what waits and is active on a surface, and what ranges show.
pub fn stores_tell()
    ensures exists { (w : World) (id : SurfaceId) → stands (stored_of w) id ≡ exists w id }
    ensures marks { (w : World) (id : SurfaceId) → has_mark (stored_of w) id
        ≡ (elim (existing w id) [ Some c ↦ c.marked | None ↦ false ]) }
    ensures count { (w : World) → existing_count (stored_of w)
        ≡ count_by (λ (s : Surface). not s.destroyed) w.surfaces }
    ensures marked { (w : World) (c : ℕ) → marked_of c (stored_of w)
        ≡ map (λ s. s.id) (filter (λ (s : Surface). (s.client == c) && s.marked && not s.destroyed)
        w.surfaces) }
    ensures last { (w : World) (c : ℕ) → last_of c (stored_of w)
        ≡ option_map (λ (s : Surface). (s.id.local, s.size)) (last_created w c) }
    ensures met { (w : World) (d : SurfaceId) → is_met w d ≡ (was_reached (stored_of w) d
        || list_any (λ (c : Client). c.closed && same_sink c.sink d.sink) w.clients) }
    ensures seen { (w : World) → KeepsAlways w
        → seen_frames (stored_of w) ≡ active_frames w.subs }
    ensures active { (w : World) (id : SurfaceId) → KeepsAlways w
        → active_on (stored_of w) id ≡ frame_on id (active_frames w.subs) }
    ensures acting { (w : World) (id : SurfaceId) → KeepsAlways w → active_on (stored_of w) id
        ≡ option_map (λ s. s.submitted) (find (λ s. is_active s && is_on id s) w.subs) }
    ensures waiting { (w : World) (id : SurfaceId) → KeepsAlways w → waiting_at (stored_of w) id
        ≡ option_map (λ s. s.submitted) (find (λ s. is_waiting s && is_on id s) w.subs) }
    ensures shown { (w : World) (range : SurfaceRange) → KeepsAlways w
        → shown_in (stored_of w) range ≡ shown w range }
{}

/// The invariants of the machine's state hold for the store too.
pub fn stores_keep()
    ensures always { (w : World) → KeepsAlways w → KeepsStored (stored_of w) }
    ensures frames { (w : World) → KeepsMessages w → KeepsFrames (stored_of w) }
{}
