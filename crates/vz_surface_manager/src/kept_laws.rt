//! Laws of which surfaces are kept: each is the contract of a function with an empty body. What
//! is set and what is temporary changes as the machine's state does.
ghost use Rattle.std.specs.Prelude.{◌≡◌, ℕ, ◌+◌, not, ◌&&◌, true, false, Option, Some, None, IfSome, IsTrue, List, [], map, filter, ◌==◌};
ghost use Rattle.std.specs.List.{Contains};
ghost use Rattle.vz_base.specs.declared.limits.TheConstants.{TEMPORARY_TICKS};
ghost use Rattle.vz_ids.specs.declared.SurfaceId.{SurfaceId};
ghost use Rattle.vz_ids.specs.declared.LocalSurfaceId.{LocalSurfaceId};
ghost use Rattle.vz_ids.specs.declared.SurfaceRange.{SurfaceRange};
ghost use Rattle.vz_ids.specs.Ids.{same_surface};
ghost use Rattle.vz_frame.specs.declared.frame.CompositorFrame.{CompositorFrame};
ghost use Rattle.vz_frame.specs.declared.message.Message.TheVariants.{Close};
ghost use Rattle.vz_rules.specs.Plan.{Plan};
ghost use Rattle.vz_rules.specs.World.{World, Client, Surface, Submission, opening, is_waiting, last_created};
ghost use Rattle.vz_rules.specs.Kept.{Keeps, KeepsAlways};
ghost use Rattle.vz_rules.specs.Messages.{accepted, id_of, is_last, violates, message_answer};
ghost use Rattle.vz_rules.specs.Reach.{has_id, naming, has_closed, is_named_now, reach, is_lost, lost_in};
ghost use Rattle.vz_rules.specs.Closure.{IsLeastClosed};
ghost use Rattle.vz_rules.specs.Scene.{shown};
ghost use Rattle.vz_rules.specs.Singly.{rising, going};
ghost use Rattle.vz_rules.specs.Step.{begin_answer, next_tick};
ghost use Rattle.vz_refs.specs.Referring.{Referring, is_set, setting, removing, keeping, unnamed, lasting, of_others, next_in, starts};
ghost use Rattle.vz_refs.specs.Meaning.{AreRoots};
ghost use Rattle.vz_surface_manager.specs.Kept_surfaces.{has_kept, AreKept, root_of};

/// In the opening state nothing is set and nothing is temporary.
pub fn nothing_is_kept()
    ensures { (p : Plan) (r : Referring) → r.sets ≡ [] → r.temporary ≡ []
        → AreKept (opening p) None r }
{}

/// When a submission becomes active, its ranges are set, and the surfaces that they name are no
/// longer temporary.
pub fn ranges_follow()
    ensures { (w : World) (but : Option SurfaceId) (s : Submission) (r : Referring) → KeepsAlways w
        → Contains w.subs s → IsTrue (is_waiting s) → AreKept w but r
        → AreKept (rising s w) but (record r {
          sets = setting s.submitted.id s.submitted.frame.metadata.references r.sets;
          temporary = unnamed s.submitted.frame.metadata.references r.temporary;
        }) }
{}

/// A begin-frame ends the temporary surfaces whose last tick is not after its own.
pub fn ticks_end_some()
    ensures { (p : Plan) (w : World) (but : Option SurfaceId) (r : Referring) → KeepsAlways w
        → AreKept w but r → AreKept (begin_answer p w).world but
        (record r { temporary = lasting (next_tick w.tick) r.temporary }) }
{}

/// When a client is closed, none of its surfaces is temporary any longer.
pub fn closed_clients_keep_none()
    ensures { (w : World) (c : Client) (r : Referring) → KeepsAlways w → Contains w.clients c
        → AreKept w None r → AreKept (message_answer w c Close).world None
        (record r { temporary = of_others c.sink r.temporary }) }
{}

/// If an accepted submission creates a surface, this surface is still to be made temporary, after
/// all that follows has become active. If it creates none, nothing changes.
pub fn new_surfaces_follow()
    ensures created { (w : World) (c : Client) (local : LocalSurfaceId) (frame : CompositorFrame)
        (r : Referring) → Keeps w → Contains w.clients c → AreKept w None r
        → violates (last_created w c.number) local ≡ false
        → is_last (last_created w c.number) local ≡ false
        → AreKept (accepted w c local frame).world (Some (id_of c local)) r }
    ensures accepted { (w : World) (c : Client) (local : LocalSurfaceId) (frame : CompositorFrame)
        (r : Referring) → Keeps w → Contains w.clients c → AreKept w None r
        → is_last (last_created w c.number) local ≡ true
        → AreKept (accepted w c local frame).world None r }
{}

/// After all that follows has become active and the surfaces that active frames name are noted as
/// named, a new surface becomes temporary, unless a range that is set names it.
pub fn new_surfaces_last()
    ensures { (w : World) (c : Surface) (r : Referring) → KeepsAlways w → naming w ≡ w
        → Contains w.surfaces c → c.born ≡ w.tick → c.destroyed ≡ false
        → has_closed w c.client ≡ false → (c.named ≡ true → is_named_now w c.id ≡ true)
        → AreKept w (Some c.id) r → AreKept w None (record r {
          temporary = keeping r.sets c.id (w.tick + TEMPORARY_TICKS) r.temporary;
        }) }
{}

/// After a surface that is not temporary is destroyed, no ranges are set for it. If the surfaces
/// that active frames name were noted as named before, they still are.
pub fn destroyed_surfaces_go()
    ensures { (w : World) (d : Surface) (r : Referring) → naming w ≡ w
        → has_kept r.temporary d.id ≡ false → AreKept w None r
        → AreKept (going d w) None (record r { sets = removing d.id r.sets })
        × (naming (going d w) ≡ going d w) }
{}

/// Each surface that a range shows is set, so that `References::reachable` may be called.
pub fn shown_ones_are_set()
    ensures { (w : World) (but : Option SurfaceId) (r : Referring)
        (shows : SurfaceRange → Option SurfaceId) → ((x : SurfaceRange) → shows x ≡ shown w x)
        → AreKept w but r
        → (x : SurfaceRange) → IfSome (shows x) (λ id. IsTrue (is_set r.sets id)) }
{}

/// After the surfaces that active frames name are noted as named, marking starts at the root, if
/// it exists, and at the temporary surfaces. The list that `References::reachable` gives for them
/// has exactly the surfaces that are reached. A marked surface that exists is lost exactly if it
/// is not in that list (for each client in the order of creation), and no lost surface is
/// temporary.
pub fn roots_are_reached()
    ensures roots { (w : World) (r : Referring) → naming w ≡ w → AreKept w None r
        → AreRoots w (root_of w) r.temporary }
    ensures reached { (w : World) (r : Referring) (shows : SurfaceRange → Option SurfaceId)
        (ids : List SurfaceId) → naming w ≡ w → AreKept w None r
        → ((x : SurfaceRange) → shows x ≡ shown w x)
        → IsLeastClosed same_surface (next_in shows r.sets) (starts (root_of w) r.temporary) ids
        → (id : SurfaceId) → has_id ids id ≡ has_id (reach w) id }
    ensures lost { (w : World) (ids : List SurfaceId)
        → ((id : SurfaceId) → has_id ids id ≡ has_id (reach w) id)
        → lost_in w ≡ filter (is_lost ids) w.surfaces }
    ensures marked { (w : World) (ids : List SurfaceId) (c : ℕ)
        → ((id : SurfaceId) → has_id ids id ≡ has_id (reach w) id)
        → map (λ s. s.id) (filter (λ s. s.client == c) (lost_in w))
        ≡ filter (λ id. not (has_id ids id)) (map (λ s. s.id)
        (filter (λ (s : Surface). (s.client == c) && s.marked && not s.destroyed) w.surfaces)) }
    ensures not_kept { (w : World) (r : Referring) → naming w ≡ w → AreKept w None r
        → (c : Surface) → Contains (lost_in w) c → has_kept r.temporary c.id ≡ false }
{}
