//! The picture after a part of a history.
ghost use Rattle.std.specs.Prelude.{◌≡◌, ◌≤◌, length, take, IfOk, OnOk};
ghost use Rattle.vz_rules.specs.Step.{step_in, world, NamesClient};
ghost use Rattle.vz_rules.specs.Whole.{picture_in};
ghost use Rattle.vz_slow.specs.Replaying.{NamesClients};

use crate::slow::Slow;
use std::alloc::Global;
use vz_frame::List;
use vz_pixels::{Memory, Pixel};
use vz_plain::picture;
use vz_rules::{Entry, Event, History, Plan};

/// A step of which only the world after it is wanted. Condition: a client's event names a client
/// of the plan.
fn go_on(machine: &mut Slow<'_>, event: Event) -> Result<(), Memory>
    requires { NamesClient machine.old.plan event }
    ensures plan { machine.new.plan ≡ machine.old.plan }
    ensures world { OnOk result (machine.new.world
        ≡ (step_in machine.old.plan machine.old.world event).world) }
{
    match machine.step(event) {
        Ok(_) => Ok(()),
        Err(e) => Err(e),
    }
}

/// The plain machine after the first `n` entries of a history. Conditions: there are that many,
/// and a client's event names a client of the plan.
fn machine_after<'a>(
    alloc: Global,
    plan: &'a Plan,
    h: &[Entry],
    n: usize,
) -> Result<Slow<'a>, Memory>
    requires count { n ≤ length h.now }
    requires named { NamesClients plan.now h.now }
    ensures { IfOk result
        (λ m. m ≡ record { plan = plan.now; world = world plan.now (take n h.now) }) }
{
    let mut machine = Slow::new(alloc, plan);
    for k in 0..n {
        go_on(&mut machine, h[k].event)?;
    }
    Ok(machine)
}

/// The picture after the first `n` entries of a history, a colour for each pixel, row by row: the
/// plain machine steps through them, and the plain painter goes through the scene by recursion.
/// The only error is `Memory`, if an allocation fails. Conditions: the history has so many
/// entries, and a client's event is of a client of the plan, as in each history that the machine
/// makes.
#[tactic(auto, unfolding(vz_rules::specs::Whole::picture_in, vz_rules::specs::Scene::scene_of))]
pub fn plain_frame(alloc: Global, plan: &Plan, h: &History, n: usize) -> Result<List<Pixel>, Memory>
    requires count { n ≤ length h.now }
    requires named { NamesClients plan.now h.now }
    ensures { IfOk result (λ l. l ≡ picture_in plan.now (world plan.now (take n h.now))) }
{
    let machine = machine_after(alloc, plan, h.as_slice(), n)?;
    let active = machine.active()?;
    match picture(alloc, &active, &machine.root(), plan.size()) {
        Ok(colours) => Ok(List::from_vec(colours)),
        Err(_) => Err(Memory),
    }
}
