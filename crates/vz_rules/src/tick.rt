//! Ticks: the number of begin-frames so far.
ghost use Rattle.std.specs.Prelude.{◌≡◌, ◌≤◌};
ghost use Rattle.vz_base.specs.declared.limits.TheConstants.{LAST_TICK as last};
ghost use Rattle.vz_rules.specs.Step.{next_tick};

use vz_base::limits::LAST_TICK;

/// The next tick. At `LAST_TICK` it stays. Condition: this one is not after the last one.
pub fn next_tick(tick: u32) -> u32
    requires { tick ≤ last }
    ensures value { result ≡ next_tick tick }
    ensures kept { result ≤ last }
{
    if tick == LAST_TICK { tick } else { tick + 1 }
}
