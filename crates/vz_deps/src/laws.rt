//! Laws of dependencies: each is the contract of a function with an empty body.
ghost use Rattle.std.specs.Prelude.{◌≡◌, Bool, not, ◌&&◌, ◌||◌, ◌==◌, true, List, map, filter};
ghost use Rattle.std.specs.List.{list_any, list_all};
ghost use Rattle.vz_ids.specs.declared.SurfaceId.{SurfaceId};
ghost use Rattle.vz_ids.specs.Ids.{same_sink};
ghost use Rattle.vz_rules.specs.Messages.{taking};
ghost use Rattle.vz_rules.specs.World.{World, Client, Submission, sub_of};
ghost use Rattle.vz_rules.specs.Settle.{is_met, is_ready, ready, round};
ghost use Rattle.vz_deps.specs.Tracking.{freed, still, meets, meets_any};
ghost use Rattle.vz_deps.specs.Blocking.{dependencies_of, lacks_in, blocked_by};

/// When more dependencies are met, the submissions whose dependencies are then all met are freed,
/// in the order of acceptance. The others are blocked by what they still lack.
pub fn blocked_are_freed()
    ensures freed { (subs : List Submission) (is_met more : SurfaceId → Bool)
        → freed more (blocked_by is_met subs)
        ≡ map sub_of (filter
        (λ s. lacks_in is_met s && list_all (λ d. is_met d || more d) (dependencies_of s)) subs) }
    ensures still { (subs : List Submission) (is_met more : SurfaceId → Bool)
        → still more (blocked_by is_met subs) ≡ blocked_by (λ d. is_met d || more d) subs }
{}

/// A round meets exactly the dependencies on the surfaces on which a submission becomes active in
/// it, and on older surfaces of their groups.
pub fn rounds_meet()
    ensures { (w : World) (d : SurfaceId)
        → is_met (round w) d ≡ (is_met w d || list_any (λ s. meets s.submitted.id d) (ready w)) }
{}

/// The submissions that are ready after a round are exactly those that it frees, of those that
/// were not ready before. So each round after the first comes from the dependencies alone.
pub fn rounds_free()
    ensures { (w : World)
        → map sub_of (ready (round w))
        ≡ freed (meets_any (map (λ s. s.submitted.id) (ready w))) (blocked_by (is_met w) (filter
        (λ s. not (is_ready w s)) w.subs)) }
{}

/// The others stay blocked by what is not met after the round.
pub fn rounds_leave()
    ensures { (w : World)
        → still (meets_any (map (λ s. s.submitted.id) (ready w))) (blocked_by (is_met w) (filter
        (λ s. not (is_ready w s)) w.subs)) ≡ blocked_by (is_met (round w)) (round w).subs }
{}

/// When a client is closed, the dependencies on its sink are met, and no others that were not met
/// before.
pub fn closing_meets()
    ensures { (w : World) (c : Client) (d : SurfaceId)
        → is_met (taking (λ x. record x { closed = true }) c w) d
        ≡ (is_met w d
        || list_any (λ x. (x.number == c.number) && same_sink x.sink d.sink) w.clients) }
{}
