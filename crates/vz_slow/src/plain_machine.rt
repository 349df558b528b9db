//! The plain machine, as an implementation of the trait `Machine`.
ghost use Rattle.std.specs.Prelude.{◌≡◌};
ghost use Rattle.vz_rules.specs.World.{opening};

use crate::Slow;
use crate::picture::picture_of;
use std::alloc::Global;
use std::marker::Model;
use vz_base::Memory;
use vz_geom::Point;
use vz_ids::SurfaceId;
use vz_machine::{Machine, PixelPicture, Step};
use vz_rules::{Event, Plan, Rest};

/// The plain machine over a plan, with a picture for each draw.
#[derive(Drop)]
pub struct PlainMachine<'a> {
    slow: Slow<'a>,
}

impl<'a> Model for PlainMachine<'a> {
    ghost use Rattle.vz_rules.specs.World.{Machine as State};

    ghost Value = { State };

    ghost view = { λ m. m.slow };
}

impl<'a> PlainMachine<'a> {
    /// Creates the machine in the opening world of a plan. It allocates nothing.
    pub fn new(alloc: Global, plan: &'a Plan) -> PlainMachine<'a>
        ensures { result ≡ record { plan = plan.now; world = opening plan.now } }
    {
        PlainMachine {
            slow: Slow::new(alloc, plan),
        }
    }
}

impl<'a> Machine for PlainMachine<'a> {
    ghost state = { λ m. m };

    type Picture = PixelPicture;

    fn client(&mut self, _alloc: Global, c: u32) -> Result<Step, Memory> {
        let (reply, effects) = self.slow.step(Event::Client(c))?;
        Ok(Step { reply, effects })
    }

    fn begin(&mut self, _alloc: Global) -> Result<Step, Memory> {
        let (reply, effects) = self.slow.step(Event::Begin)?;
        Ok(Step { reply, effects })
    }

    fn draw(&mut self, _alloc: Global) -> Result<(Step, Option<PixelPicture>), Memory> {
        let size = self.slow.size();
        let (reply, effects, pixels) = self.slow.draw_picture()?;
        let picture = picture_of(size, &reply, pixels);
        Ok((Step { reply, effects }, picture))
    }

    fn done(&mut self) -> Step {
        let (reply, effects) = self.slow.done();
        Step { reply, effects }
    }

    fn over(&mut self) -> Step {
        let (reply, effects) = self.slow.over();
        Step { reply, effects }
    }

    fn waits(&self, c: u32) -> bool {
        self.slow.waits(c)
    }

    fn idle(&self, c: u32) -> bool {
        self.slow.idle(c)
    }

    fn answered(&self, c: u32) -> bool {
        self.slow.answered(c)
    }

    fn attached(&self, c: u32) -> bool {
        self.slow.attached(c)
    }

    fn listed(&self, c: u32) -> u64 {
        self.slow.listed(c)
    }

    fn waiting(&self) -> bool {
        self.slow.waiting()
    }

    fn hit(&self, _alloc: Global, p: Point) -> Result<Option<(SurfaceId, Point)>, Memory> {
        self.slow.hit(p)
    }

    fn rest(&self, _alloc: Global) -> Result<Rest, Memory> {
        self.slow.rest()
    }
}
