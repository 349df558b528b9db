//! Questions about the machine between steps.
ghost use Rattle.std.specs.Prelude.{◌≡◌, None, IfOk};
ghost use Rattle.vz_rules.specs.Plan.{Plan};
ghost use Rattle.vz_rules.specs.World.{World};
ghost use Rattle.vz_rules.specs.Course.{some_waits};
ghost use Rattle.vz_rules.specs.Log.{rest_in};
ghost use Rattle.vz_rules.specs.Kept.{Keeps, KeepsAlways};
ghost use Rattle.vz_surface_manager.specs.Live.{AreLive};
ghost use Rattle.vz_manager.specs.Serving.{Serves};

use crate::parts::Parts;
use std::alloc::Global;
use vz_base::Memory;
use vz_frame::{List, Room};
use vz_ids::Sub;
use vz_rules::{Rest, Returned};
use vz_surface_manager::LiveSurfaces;

/// The outstanding references, by client and rising resource id. The only error is `Memory`, if
/// an allocation fails.
fn held(alloc: Global, live: &LiveSurfaces) -> Result<List<Returned>, Memory>
    ensures { (w : World) → KeepsAlways w → AreLive w None live.now
        → IfOk result (λ l. l ≡ (rest_in w).held) }
{
    let mut out = Room::new(alloc);
    live.make_room(0, &mut out)?;
    live.held(&mut out);
    Ok(out.into_list())
}

/// The submissions that await feedback, by client and ordinal. The only error is `Memory`, if an
/// allocation fails.
fn unfed(alloc: Global, live: &LiveSurfaces) -> Result<List<Sub>, Memory>
    ensures { (w : World) → Keeps w → AreLive w None live.now
        → IfOk result (λ l. l ≡ (rest_in w).unfed) }
{
    let mut out = Room::new(alloc);
    out.reserve(live.unfed())?;
    live.subs(&mut out);
    Ok(out.into_list())
}

impl Parts {
    /// Whether some submission is waiting to become active.
    pub(crate) fn waiting(&self) -> bool
        ensures { (p : Plan) (w : World) → Serves p w self.now → result ≡ some_waits w }
    {
        0 < self.settling.waiting.count()
    }

    /// What is outstanding: references that were not returned, and submissions without feedback.
    /// The only error is `Memory`, if an allocation fails.
    pub(crate) fn rest(&self, alloc: Global) -> Result<Rest, Memory>
        ensures { (p : Plan) (w : World) → Serves p w self.now
            → IfOk result (λ r. r ≡ rest_in w) }
    {
        let held = held(alloc, &self.settling.live)?;
        let unfed = unfed(alloc, &self.settling.live)?;
        Ok(Rest { held, unfed })
    }
}
