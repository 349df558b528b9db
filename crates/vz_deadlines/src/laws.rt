//! Laws of deadlines: each is the contract of a function with an empty body.
ghost use Rattle.std.specs.Prelude.{◌≡◌, ℕ, ◌&&◌, not, nat_le, IsTrue, List, [], map, filter};
ghost use Rattle.vz_ids.specs.declared.Sub.{Sub};
ghost use Rattle.vz_rules.specs.World.{World, is_waiting, sub_of, has_sub};
ghost use Rattle.vz_rules.specs.Settle.{ready};
ghost use Rattle.vz_deadlines.specs.Timing.{due_at, left_at, due_of, waiting_in};

/// The submissions that are due at a tick are those that wait and whose deadline has come, in the
/// order of acceptance. Each of them is ready, and the others wait on.
pub fn due_are_overdue()
    ensures due { (w : World) (tick : ℕ)
        → due_at tick (waiting_in w)
        ≡ map sub_of (filter (λ s. is_waiting s && nat_le s.due tick) w.subs) }
    ensures left { (w : World) (tick : ℕ)
        → left_at tick (waiting_in w)
        ≡ map due_of (filter (λ s. is_waiting s && not (nat_le s.due tick)) w.subs) }
    ensures ready { (w : World) (s : Sub) → IsTrue (has_sub (due_at w.tick (waiting_in w)) s)
        → IsTrue (has_sub (map sub_of (ready w)) s) }
{}

/// If nothing was ready before a new tick, the submissions that are ready at it are those that
/// are due.
pub fn new_ticks_make_due()
    ensures { (w : World) (n : ℕ) → ready w ≡ []
        → map sub_of (ready (record w { tick = n })) ≡ due_at n (waiting_in w) }
{}
