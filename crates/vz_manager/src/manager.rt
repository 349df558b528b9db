//! The incremental machine, as an implementation of the trait `Machine`.
ghost use Rattle.std.specs.Prelude.{◌≡◌, ◌↔◌, false, None, IfOk, IfErr};
ghost use Rattle.vz_geom.specs.declared.Point.{Point as DisplayPoint};
ghost use Rattle.vz_geom.specs.Rectangle.{has, sized};
ghost use Rattle.vz_rules.specs.World.{opening};
ghost use Rattle.vz_rules.specs.Whole.{drawable_in, hit_in};
ghost use Rattle.vz_machine.specs.Stepping.{IsOnDisplay};
ghost use Rattle.vz_manager.specs.Hitting.{found_in};

use crate::parts::Parts;
use crate::regions::hit_in_regions;
use std::alloc::Global;
use std::marker::Model;
use std::snapshot::Snapshot;
use vz_base::Memory;
use vz_geom::Point;
use vz_ghost::GhostList;
use vz_hit::Regions;
use vz_ids::SurfaceId;
use vz_machine::{Machine, Step};
use vz_occlude::FlatPicture;
use vz_rules::{Event, Plan, Rest};

/// The display compositor's machine over a plan. Contracts see the plan, and the world after the
/// events so far.
///
/// A step's cost grows with what it touches, and a draw's cost with what is on the display. All
/// room of a step is reserved before its first change: if an allocation fails, the step returns
/// `Memory` and the world does not change. The parts have a fixed place in memory, so that little
/// is copied when the machine is moved.
#[derive(Drop)]
pub struct Manager {
    parts: Box<Parts>,
    plan: Snapshot<Plan>,
    told: GhostList<Event>,
}

impl Model for Manager {
    ghost use Rattle.vz_rules.specs.World.{Machine as State};
    ghost use Rattle.vz_manager.specs.Serving.{Serves};
    ghost use Rattle.vz_manager.specs.Managing.{led_to};

    ghost Value = { State };

    ghost view = { λ m. led_to m.plan.value m.told };

    ghost invariant = { λ m. Serves m.plan.value (led_to m.plan.value m.told).world m.parts.value };
}

impl Manager {
    /// Creates the machine in the opening world of a plan. If an allocation fails, the error
    /// gives the plan back.
    pub fn open(alloc: Global, plan: Plan) -> Result<Manager, Plan>
        ensures ok { IfOk result (λ m. m ≡ record { plan = plan; world = opening plan }) }
        ensures back { IfErr result (λ p. p ≡ plan) }
    {
        let shown = Snapshot::of(&plan);
        match Parts::open(alloc, plan) {
            Ok(parts) => Ok(Manager {
                parts,
                plan: shown,
                told: GhostList::new(),
            }),
            Err(plan) => Err(plan),
        }
    }

    /// The regions of the display in which surfaces are hit, from front to back, in the scene that
    /// a drawing would show if no frame were in flight. None exactly if that drawing would answer
    /// NoRoot or TooMuch. An embedder keeps the regions of a drawing, and sends each input event
    /// to the surface that `Regions::find` names at its point: no walk is needed for an event. The
    /// only error is `Memory`, if an allocation fails.
    ///
    /// At each point of the display they answer what `hit` answers, and outside it nothing.
    pub fn regions(&self, alloc: Global) -> Result<Option<Regions>, Memory>
        ensures none { IfOk result (λ r. (r ≡ None)
            ↔ (drawable_in self.now.plan self.now.world ≡ None)) }
        ensures hit { (p : DisplayPoint) → IsOnDisplay self.now p
            → IfOk result (λ r. found_in r p ≡ hit_in self.now.plan self.now.world p) }
        ensures outside { (p : DisplayPoint) → has (sized self.now.plan.size) p ≡ false
            → IfOk result (λ r. found_in r p ≡ None) }
    {
        self.parts.regions(alloc)
    }
}

impl Machine for Manager {
    ghost state = { λ m. m };

    type Picture = FlatPicture;

    fn client(&mut self, _alloc: Global, c: u32) -> Result<Step, Memory> {
        let step = self.parts.client(c)?;
        self.told.show(&Event::Client(c));
        Ok(step)
    }

    fn begin(&mut self, _alloc: Global) -> Result<Step, Memory> {
        let step = self.parts.begin()?;
        self.told.show(&Event::Begin);
        Ok(step)
    }

    fn draw(&mut self, _alloc: Global) -> Result<(Step, Option<FlatPicture>), Memory> {
        let drawn = self.parts.draw()?;
        self.told.show(&Event::Draw);
        Ok(drawn)
    }

    fn done(&mut self) -> Step {
        let step = self.parts.done();
        self.told.show(&Event::Done);
        step
    }

    fn over(&mut self) -> Step {
        let step = self.parts.over();
        self.told.show(&Event::Over);
        step
    }

    fn waits(&self, c: u32) -> bool {
        self.parts.support.waits(c)
    }

    fn idle(&self, c: u32) -> bool {
        self.parts.support.idle(c)
    }

    fn answered(&self, c: u32) -> bool {
        self.parts.support.answered(c)
    }

    fn attached(&self, c: u32) -> bool {
        self.parts.support.attached(c)
    }

    fn listed(&self, c: u32) -> u64 {
        self.parts.support.listed(c)
    }

    fn waiting(&self) -> bool {
        self.parts.waiting()
    }

    fn hit(&self, alloc: Global, p: Point) -> Result<Option<(SurfaceId, Point)>, Memory> {
        match self.regions(alloc)? {
            None => Ok(None),
            Some(regions) => Ok(hit_in_regions(&regions, p)),
        }
    }

    fn rest(&self, alloc: Global) -> Result<Rest, Memory> {
        self.parts.rest(alloc)
    }
}
