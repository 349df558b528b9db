//! The program's machine with pictures that are painted on the caller's thread alone.
//!
//! A static library may start no thread, and it holds all methods of a trait that it passes for a
//! bound, whether it calls them or not. So the machine and its pictures are wrapped, and each
//! method of the wrappers calls one that starts no thread.
ghost use Rattle.std.specs.Prelude.{◌≡◌, IfOk};
ghost use Rattle.vz_rules.specs.World.{opening};

use std::alloc::Global;
use std::sync::ledger::Ledger;
use std::thread::Threads;
use vz_base::Memory;
use vz_buffers::{Buffer, Steps};
use vz_geom::{Point, Rect, Size};
use vz_ids::SurfaceId;
use vz_machine::{Machine, Picture, Step, ThinPicture};
use vz_manager::Manager;
use vz_occlude::{FlatPicture, Thin};
use vz_rules::{Plan, Rest};

/// The picture of a drawing.
#[derive(Drop)]
pub struct SoloPicture {
    flat: FlatPicture,
}

impl SoloPicture {
    /// What was drawn.
    pub fn flat(&self) -> &FlatPicture
        ensures { result.now ≡ self.now.flat }
    {
        &self.flat
    }
}

/// A picture without its occluded items.
#[derive(Drop)]
pub struct SoloThin {
    thin: Thin,
}

/// The machine.
#[derive(Drop)]
pub struct SoloMachine {
    machine: Manager,
}

impl Picture for SoloPicture {
    ghost use Rattle.vz_occlude.specs.Pictures.{flat_picture, occluded_in};

    ghost pictured = { λ p. flat_picture p.flat };

    ghost occluded = { λ p. occluded_in p.flat };

    type Thin = SoloThin;

    fn occlude(self, alloc: Global) -> Result<SoloThin, Memory> {
        let thin = self.flat.occlude(alloc)?;
        Ok(SoloThin { thin })
    }
}

impl ThinPicture for SoloThin {
    ghost use Rattle.vz_occlude.specs.Pictures.{thin_picture};

    ghost pictured = { λ p. thin_picture p.thin };

    ghost gone = { λ p. p.thin.gone };

    fn size(&self) -> Size {
        <Thin as ThinPicture>::size(&self.thin)
    }

    fn damage(&self) -> Rect {
        <Thin as ThinPicture>::damage(&self.thin)
    }

    fn gone(&self) -> u64 {
        <Thin as ThinPicture>::gone(&self.thin)
    }

    /// No thread is started.
    fn paint<L: Ledger, R: Threads + Sync>(
        &self,
        _rt: &R,
        alloc: Global,
        area: Rect,
        buffer: &mut Buffer,
        steps: &mut Steps<L>,
    ) -> Result<(), Memory> {
        self.paint_alone(alloc, area, buffer, steps)
    }

    fn paint_alone<L: Ledger>(
        &self,
        alloc: Global,
        area: Rect,
        buffer: &mut Buffer,
        steps: &mut Steps<L>,
    ) -> Result<(), Memory> {
        self.thin.paint_alone(alloc, area, buffer, steps)
    }
}

impl SoloMachine {
    /// Creates the machine in the opening world of a plan. The only error is `Memory`, if an
    /// allocation fails; the plan is dropped then.
    pub fn open(alloc: Global, plan: Plan) -> Result<SoloMachine, Memory>
        ensures { IfOk result (λ m. m.machine ≡ record { plan = plan; world = opening plan }) }
    {
        match Manager::open(alloc, plan) {
            Ok(machine) => Ok(SoloMachine { machine }),
            Err(_) => Err(Memory),
        }
    }
}

impl Machine for SoloMachine {
    ghost state = { λ m. m.machine };

    type Picture = SoloPicture;

    fn client(&mut self, alloc: Global, c: u32) -> Result<Step, Memory> {
        self.machine.client(alloc, c)
    }

    fn begin(&mut self, alloc: Global) -> Result<Step, Memory> {
        self.machine.begin(alloc)
    }

    fn draw(&mut self, alloc: Global) -> Result<(Step, Option<SoloPicture>), Memory> {
        let (step, picture) = self.machine.draw(alloc)?;
        match picture {
            None => Ok((step, None)),
            Some(flat) => Ok((step, Some(SoloPicture { flat }))),
        }
    }

    fn done(&mut self) -> Step {
        self.machine.done()
    }

    fn over(&mut self) -> Step {
        self.machine.over()
    }

    fn waits(&self, c: u32) -> bool {
        self.machine.waits(c)
    }

    fn idle(&self, c: u32) -> bool {
        self.machine.idle(c)
    }

    fn answered(&self, c: u32) -> bool {
        self.machine.answered(c)
    }

    fn attached(&self, c: u32) -> bool {
        self.machine.attached(c)
    }

    fn listed(&self, c: u32) -> u64 {
        self.machine.listed(c)
    }

    fn waiting(&self) -> bool {
        self.machine.waiting()
    }

    fn hit(&self, alloc: Global, p: Point) -> Result<Option<(SurfaceId, Point)>, Memory> {
        self.machine.hit(alloc, p)
    }

    fn rest(&self, alloc: Global) -> Result<Rest, Memory> {
        self.machine.rest(alloc)
    }
}
