//! The machine of all commands but `gen` and `check`.
ghost use Rattle.std.specs.Prelude.{◌≡◌, IfOk};
ghost use Rattle.vz_rules.specs.World.{opening};

use std::alloc::Global;
use vz_base::Memory;
use vz_manager::Manager;
use vz_rules::Plan;

/// Opens the machine of a plan. The only error is `Memory`, if an allocation fails; the plan is
/// dropped then.
pub(crate) fn open_machine(alloc: Global, plan: Plan) -> Result<Manager, Memory>
    ensures { IfOk result (λ m. m ≡ record { plan = plan; world = opening plan }) }
{
    match Manager::open(alloc, plan) {
        Ok(machine) => Ok(machine),
        Err(_) => Err(Memory),
    }
}
