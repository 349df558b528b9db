//! Begin-frames, and the end.
ghost use Rattle.std.specs.Prelude.{◌≡◌, true};
ghost use Rattle.vz_rules.specs.Plan.{Plan};
ghost use Rattle.vz_rules.specs.World.{World};
ghost use Rattle.vz_rules.specs.declared.entry.Reply.TheVariants.{Ticked};
ghost use Rattle.vz_rules.specs.Step.{begin_answer};
ghost use Rattle.vz_support.specs.Supporting.{IsSupport};

use crate::support::Support;
use vz_rules::next_tick;

impl Support {
    /// Begins a frame: the tick rises by one and is delivered to each client that is attached and
    /// not closed. Returns the new tick.
    pub fn begin(&mut self) -> u32
        ensures reply { (p : Plan) (w : World) → IsSupport p w self.old
            → (begin_answer p w).reply ≡ Ticked result }
        ensures world { (p : Plan) (w : World) → IsSupport p w self.old
            → IsSupport p (begin_answer p w).world self.new }
    {
        self.tick = next_tick(self.tick);
        self.sinks.begin(self.tick);
        self.tick
    }

    /// Sets the Over mark: no client will wait for a begin-frame any more.
    pub fn over(&mut self)
        ensures { (p : Plan) (w : World) → IsSupport p w self.old
            → IsSupport p (record w { over = true }) self.new }
    {
        self.over = true;
    }
}
