//! The plan of the generated files.
ghost use Rattle.std.specs.Prelude.{◌≡◌, ◌≤◌, IfOk};
ghost use Rattle.vz_base.specs.declared.limits.TheConstants.{MOST_ROUNDS};
ghost use Rattle.viz_run.specs.Planned.{demo_plan};

use std::alloc::Global;
use vz_base::Memory;
use vz_gen::make;
use vz_geom::Size;
use vz_rules::Plan;

/// Makes the plan of the generated files for `n` rounds, on a display of 64 by 32 pixels.
/// Condition: at most `MOST_ROUNDS` rounds. The only error is `Memory`.
pub fn demo_plan(alloc: Global, n: u32) -> Result<Plan, Memory>
    requires { n ≤ MOST_ROUNDS }
    ensures { IfOk result (λ p. p ≡ demo_plan n) }
{
    let files = make(alloc, n)?.into_vec();
    match Plan::new(files, Size { w: 64, h: 32 }) {
        Ok(plan) => Ok(plan),
        Err(_back) => unreachable!(),
    }
}
