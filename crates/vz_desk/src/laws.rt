//! Laws of histories. Each is the contract of an empty function; a caller that calls it may use
//! its clauses.
ghost use Rattle.std.specs.Prelude.{◌≡◌, false, is_some, List};
ghost use Rattle.vz_rules.specs.Plan.{Plan};
ghost use Rattle.vz_rules.specs.Step.{Legal, world};
ghost use Rattle.vz_rules.specs.Course.{displayed};
ghost use Rattle.vz_rules.specs.declared.entry.Entry.{Entry};
ghost use Rattle.vz_desk.specs.Flights.{flies_behind};

/// The display's own entries decide whether a frame is in flight after a history: one is exactly
/// if the display's last Draw that was answered Drawn has no Done after it. The entries of
/// clients in between do not matter.
pub fn flights_are_the_displays()
    ensures { (p : Plan) (h : List Entry) → Legal p h
        → is_some (world p h).in_flight ≡ flies_behind false (displayed h) }
{}
