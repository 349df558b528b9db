//! Laws of the drawn frame: each is the contract of a function with an empty body.
ghost use Rattle.std.specs.Prelude.{◌≡◌, Option, Some, None, is_some, List, IsTrue};
ghost use Rattle.std.specs.List.{Contains};
ghost use Rattle.vz_geom.specs.declared.Size.{Size};
ghost use Rattle.vz_geom.specs.Rectangle.{Rectangle};
ghost use Rattle.vz_ids.specs.declared.Sub.{Sub};
ghost use Rattle.vz_ids.specs.declared.SurfaceId.{SurfaceId};
ghost use Rattle.vz_rules.specs.declared.entry.Reply.TheVariants.{Drawn};
ghost use Rattle.vz_rules.specs.Plan.{Plan};
ghost use Rattle.vz_rules.specs.World.{World, Submission, opening, is_active};
ghost use Rattle.vz_rules.specs.World.{is_in_flight, sub_of, has_sub};
ghost use Rattle.vz_rules.specs.Returns.{holds, feedback_of, feed, fed_in};
ghost use Rattle.vz_rules.specs.Step.{draw_answer, done_answer};
ghost use Rattle.vz_rules.specs.Kept.{KeepsAlways};
ghost use Rattle.vz_surfaces.specs.Stored.{stored_of};
ghost use Rattle.vz_surface_manager.specs.Allowed.{Draws};
ghost use Rattle.vz_surface_manager.specs.Flown.{Flown, AreFlown, subs_of, flies};
ghost use Rattle.vz_surface_manager.specs.Rosters.{IsRosterOf, flown_from};

/// If a draw walks and the reply is Drawn, the drawn frame is the `Flight` of the store of the
/// machine's state, and each submission in it is active.
pub fn flights_are_drawn()
    ensures drawn { (p : Plan) (w : World) (root : SurfaceId) (damage : Rectangle)
        → KeepsAlways w → Draws p w root → (draw_answer p w).reply ≡ Drawn damage
        → AreFlown (draw_answer p w).world (Some (flown_from p.size root (stored_of w))) }
    ensures active { (w : World) (root : SurfaceId) (size : Size) (f : Flown) → KeepsAlways w
        → Contains (flown_from size root (stored_of w)) f
        → (s : Submission) × Contains w.subs s × IsTrue (is_active s) × (sub_of s ≡ f.0)
        × (s.submitted.frame.resources ≡ f.1) }
{}

/// There is no drawn frame before the first step, after it is done, or if the machine's state has
/// none.
pub fn flights_land()
    ensures opening { (p : Plan) → AreFlown (opening p) None }
    ensures done { (w : World) → AreFlown (done_answer w).world None }
    ensures none { (w : World) → w.in_flight ≡ None → AreFlown w None }
{}

/// The submissions of the drawn frame are those in flight in the machine's state. A roster of it
/// has the same submissions, each with the resources that it lists there.
pub fn flights_tell()
    ensures flies { (w : World) (f : Option (List Flown)) (sub : Sub) → AreFlown w f
        → flies f sub ≡ is_in_flight w.in_flight sub }
    ensures some { (w : World) (f : Option (List Flown)) → AreFlown w f
        → is_some f ≡ is_some w.in_flight }
    ensures names { (w : World) (flown roster : List Flown) (sub : Sub)
        → AreFlown w (Some flown) → IsRosterOf flown roster
        → has_sub (subs_of roster) sub ≡ is_in_flight w.in_flight sub }
    ensures listed { (w : World) (flown roster : List Flown) (f : Flown)
        → AreFlown w (Some flown) → IsRosterOf flown roster → Contains roster f
        → (s : Submission) × Contains w.subs s × (sub_of s ≡ f.0)
        × (s.submitted.frame.resources ≡ f.1) }
{}

/// A roster may replace the drawn frame: with the roster in flight each submission holds what it
/// lists and gets its feedback as before, and the same feedback is given when the submissions of
/// the roster are presented.
pub fn rosters_stand()
    ensures holds { (w : World) (flown roster : List Flown) (s : Submission)
        → AreFlown w (Some flown) → IsRosterOf flown roster
        → holds (record w { in_flight = Some (subs_of roster) }) s ≡ holds w s }
    ensures gets { (w : World) (flown roster : List Flown) (presented : List Sub)
        (s : Submission) → AreFlown w (Some flown) → IsRosterOf flown roster
        → feedback_of (record w { in_flight = Some (subs_of roster) }) presented s
        ≡ feedback_of w presented s }
    ensures fed { (w : World) (flown roster : List Flown) → IsRosterOf flown roster
        → fed_in (subs_of roster) w ≡ fed_in (subs_of flown) w }
    ensures feed { (w : World) (flown roster : List Flown) → IsRosterOf flown roster
        → feed (subs_of roster) w ≡ feed (subs_of flown) w }
{}
