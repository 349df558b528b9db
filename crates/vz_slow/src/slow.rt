//! The plain machine, step by step.
ghost use Rattle.std.specs.Prelude.{◌≡◌, ◌≤◌, None, true, [], IfOk, IfSome, OnOk, OnErr};
ghost use Rattle.vz_rules.specs.declared.entry.Event.TheVariants as event;
ghost use Rattle.vz_rules.specs.World.{opening, active_frames};
ghost use Rattle.vz_rules.specs.Messages.{says, client_answer};
ghost use Rattle.vz_rules.specs.Step.{outcome_of, step_in, NamesClient};
ghost use Rattle.vz_rules.specs.Log.{rest_in};
ghost use Rattle.vz_rules.specs.Kept.{Keeps};
ghost use Rattle.vz_rules.specs.Plan.{Plan as Planned};
ghost use Rattle.vz_slow.specs.Reaching.{IsReached, IsOutcome, HasRoom, world_at};
ghost use Rattle.vz_slow.specs.Quiet.{IsAlone, IsQuietStep, IsUndrawn};

use crate::world::World;
use std::alloc::{AllocError, Global};
use std::marker::Model;
use std::mem;
use vz_frame::{List, Room};
use vz_ids::SurfaceId;
use vz_pixels::Memory;
use vz_rules::{BoxedEffects, EffectsRoom, Event, Fed, Plan, Reply, Rest, Returned};
use vz_scene::SubmittedFrame;
use vz_state::{Client, active_frames, make_room};

/// The state of the machine: still the opening world of its plan, for which nothing was allocated
/// yet, or another world.
#[derive(Drop)]
pub(crate) enum Stage<'a> {
    /// The opening world.
    Opening {
        /// Whether the Over mark is set.
        over: bool,
    },
    /// Another world.
    Running(World<'a>),
}

/// The plain machine over a plan. Contracts see the plan and the world. While a drawn frame is
/// not done, it keeps room for all that the end of that frame returns and for its feedback.
#[derive(Drop)]
pub struct Slow<'a> {
    pub(crate) alloc: Global,
    pub(crate) plan: &'a Plan,
    pub(crate) stage: Stage<'a>,
    returned: Room<Returned>,
    fed: Room<Fed>,
    effects: EffectsRoom,
}

impl<'a> Model for Slow<'a> {
    ghost use Rattle.vz_rules.specs.World.{Machine};
    ghost use Rattle.vz_slow.specs.Reaching.{world_at, IsSlow};

    ghost Value = { Machine };

    ghost view = { λ m. record { plan = m.plan.now; world = world_at m.plan.now m.stage } };

    ghost invariant = { λ m. IsSlow m.plan.now (world_at m.plan.now m.stage) m.returned m.fed m.effects };
}

/// An empty list with room for `n` items.
fn room_for<T: Drop>(alloc: Global, n: usize) -> Result<Room<T>, AllocError>
    ensures { IfOk result (λ r. (r.list ≡ []) × (n ≤ r.spare)) }
{
    let mut room = Room::new(alloc);
    make_room(&mut room, n)?;
    Ok(room)
}

/// Room for what the end of the drawn frame returns and for its feedback, if there is such a
/// frame.
fn rooms_for(
    alloc: Global,
    world: &World<'_>,
) -> Result<(Room<Returned>, Room<Fed>, EffectsRoom), AllocError>
    ensures { IfOk result (λ r. HasRoom world.now r.0 r.1 r.2) }
{
    if !world.in_flight.is_some() {
        return Ok((Room::new(alloc), Room::new(alloc), EffectsRoom::new(alloc)));
    }
    let returned = room_for(alloc, world.outs()?)?;
    let fed = room_for(alloc, world.unfed())?;
    let mut effects = EffectsRoom::new(alloc);
    let Ok(()) = effects.reserve() else {
        return Err(AllocError);
    };
    Ok((returned, fed, effects))
}

impl<'a> Slow<'a> {
    /// Creates the machine in the opening world of a plan. It allocates nothing.
    pub fn new(alloc: Global, plan: &'a Plan) -> Slow<'a>
        ensures { result ≡ record { plan = plan.now; world = opening plan.now } }
    {
        let _ = plan.files();
        Slow {
            alloc,
            plan,
            stage: Stage::Opening { over: false },
            returned: Room::new(alloc),
            fed: Room::new(alloc),
            effects: EffectsRoom::new(alloc),
        }
    }

    /// A copy of the world. A step changes the copy until nothing can fail any more.
    pub(crate) fn copy(&self) -> Result<World<'a>, AllocError>
        ensures { IfOk result (λ w. w ≡ self.now.world) }
    {
        match &self.stage {
            Stage::Opening { over } => Ok(World::new(self.alloc, self.plan, *over)?),
            Stage::Running(world) => Ok(world.copy()?),
        }
    }

    /// Moves the machine to another world, and makes room for the end of its drawn frame. At an
    /// error the machine stays in the world before. Condition: the plan leads to the new world.
    fn go_on(&mut self, next: World<'a>) -> Result<(), AllocError>
        requires { IsReached self.old.plan next }
        ensures ok { OnOk result (self.new ≡ record self.old { world = next.entry }) }
        ensures err { OnErr result (self.new ≡ self.old) }
    {
        let (returned, fed, effects) = rooms_for(self.alloc, &next)?;
        self.returned = returned;
        self.fed = fed;
        self.effects = effects;
        self.stage = Stage::Running(next);
        Ok(())
    }

    /// Computes the effects of a step that presents nothing. Condition: the plan leads to the
    /// world after it.
    pub(crate) fn finish(
        &mut self,
        mut next: World<'a>,
        reply: Reply,
    ) -> Result<(Reply, BoxedEffects), AllocError>
        requires { IsReached self.old.plan (outcome_of [] (says reply next)).world }
        ensures ok { IfOk result
            (λ o. IsOutcome (outcome_of [] (says reply next.entry)) o self.new.world) }
        ensures plan { self.new.plan ≡ self.old.plan }
        ensures err { OnErr result (self.new ≡ self.old) }
    {
        let effects = next.follow()?;
        self.go_on(next)?;
        Ok((reply, effects))
    }
}

impl<'a> Slow<'a> {
    /// Takes the next message of a client in the world itself, if it changes the client alone;
    /// otherwise it answers None and changes nothing. At an error nothing changes.
    fn quiet(&mut self, c: u32) -> Result<Option<Reply>, AllocError>
        ensures ok { IfOk result
            (λ o. IsQuietStep self.old c o self.new) }
        ensures plan { self.new.plan ≡ self.old.plan }
        ensures err { OnErr result (self.new ≡ self.old) }
    {
        let reply = take_quiet(self.plan, &mut self.stage, c)?;
        Ok(reply)
    }

    /// Takes the next message of a client. Condition: the plan has that client.
    fn client(&mut self, c: u32) -> Result<(Reply, BoxedEffects), AllocError>
        requires { NamesClient self.old.plan (event.Client c) }
        ensures ok { IfOk result
            (λ o. IsOutcome (step_in self.old.plan self.old.world (event.Client c)) o self.new.world) }
        ensures plan { self.new.plan ≡ self.old.plan }
        ensures err { OnErr result (self.new ≡ self.old) }
    {
        match self.quiet(c)? {
            Some(reply) => Ok((reply, BoxedEffects::none())),
            None => Ok(self.client_apart(c)?),
        }
    }

    /// Takes the next message of a client in a copy of the world. Condition: the plan has that
    /// client.
    fn client_apart(&mut self, c: u32) -> Result<(Reply, BoxedEffects), AllocError>
        requires { NamesClient self.old.plan (event.Client c) }
        ensures ok { IfOk result
            (λ o. IsOutcome (step_in self.old.plan self.old.world (event.Client c)) o self.new.world) }
        ensures plan { self.new.plan ≡ self.old.plan }
        ensures err { OnErr result (self.new ≡ self.old) }
    {
        let mut next = self.copy()?;
        let reply = next.client(self.plan, c)?;
        Ok(self.finish(next, reply)?)
    }

    /// Takes a begin-frame.
    fn begin(&mut self) -> Result<(Reply, BoxedEffects), AllocError>
        ensures ok { IfOk result
            (λ o. IsOutcome (step_in self.old.plan self.old.world event.Begin) o self.new.world) }
        ensures plan { self.new.plan ≡ self.old.plan }
        ensures err { OnErr result (self.new ≡ self.old) }
    {
        let mut next = self.copy()?;
        let reply = next.begin(self.plan)?;
        Ok(self.finish(next, reply)?)
    }

    /// The reply to a draw that changes nothing, as a drawn frame is not done or no root is named.
    /// None says that it may be another one.
    pub(crate) fn undrawn(&self) -> Option<Reply>
        ensures { IfSome result (λ r. IsUndrawn self.now r) }
    {
        match &self.stage {
            Stage::Opening { .. } => Some(Reply::NoRoot),
            Stage::Running(world) => world.undrawn(),
        }
    }

    /// Draws.
    fn draw(&mut self) -> Result<(Reply, BoxedEffects), AllocError>
        ensures ok { IfOk result
            (λ o. IsOutcome (step_in self.old.plan self.old.world event.Draw) o self.new.world) }
        ensures plan { self.new.plan ≡ self.old.plan }
        ensures err { OnErr result (self.new ≡ self.old) }
    {
        match self.undrawn() {
            Some(reply) => Ok((reply, BoxedEffects::none())),
            None => Ok(self.draw_apart()?),
        }
    }

    /// Draws in a copy of the world.
    fn draw_apart(&mut self) -> Result<(Reply, BoxedEffects), AllocError>
        ensures ok { IfOk result
            (λ o. IsOutcome (step_in self.old.plan self.old.world event.Draw) o self.new.world) }
        ensures plan { self.new.plan ≡ self.old.plan }
        ensures err { OnErr result (self.new ≡ self.old) }
    {
        let mut next = self.copy()?;
        let reply = next.draw(self.plan)?;
        Ok(self.finish(next, reply)?)
    }

    /// Ends the drawn frame, if there is one. It allocates nothing: no submission becomes active,
    /// no surface is destroyed, and there is room for what is returned and for feedback.
    pub fn done(&mut self) -> (Reply, BoxedEffects)
        ensures step { IsOutcome (step_in self.old.plan self.old.world event.Done) result self.new.world }
        ensures plan { self.new.plan ≡ self.old.plan }
    {
        match &mut self.stage {
            Stage::Opening { .. } => (Reply::Nothing, BoxedEffects::none()),
            Stage::Running(world) => done(
                self.alloc,
                world,
                &mut self.returned,
                &mut self.fed,
                &mut self.effects,
            ),
        }
    }

    /// Sets the Over mark: no client will wait for a begin-frame any more. It allocates nothing,
    /// as the step has no effects.
    pub fn over(&mut self) -> (Reply, BoxedEffects)
        ensures step { IsOutcome (step_in self.old.plan self.old.world event.Over) result self.new.world }
        ensures plan { self.new.plan ≡ self.old.plan }
    {
        mark_over(&mut self.stage);
        (Reply::Ended, BoxedEffects::none())
    }

    /// Makes one step and returns its reply and its effects. The only error is `Memory`, if an
    /// allocation fails; then the machine is in the world before. Condition: a client's event
    /// names a client of the plan.
    pub fn step(&mut self, event: Event) -> Result<(Reply, BoxedEffects), Memory>
        requires { NamesClient self.old.plan event }
        ensures step { IfOk result
            (λ o. IsOutcome (step_in self.old.plan self.old.world event) o self.new.world) }
        ensures plan { self.new.plan ≡ self.old.plan }
        ensures err { OnErr result (self.new ≡ self.old) }
    {
        let outcome = match event {
            Event::Client(c) => self.client(c),
            Event::Begin => self.begin(),
            Event::Draw => self.draw(),
            Event::Done => Ok(self.done()),
            Event::Over => Ok(self.over()),
        };
        match outcome {
            Ok(outcome) => Ok(outcome),
            Err(_) => Err(Memory),
        }
    }

    /// The active frames, in the order of acceptance. The only error is `Memory`, if an
    /// allocation fails.
    pub fn active(&self) -> Result<Vec<SubmittedFrame<'a>>, Memory>
        ensures { IfOk result (λ v. v.items ≡ active_frames self.now.world.subs) }
    {
        match self.frames_of_world() {
            Ok(active) => Ok(active),
            Err(_) => Err(Memory),
        }
    }

    /// The active frames of the world, in the order of acceptance.
    pub(crate) fn frames_of_world(&self) -> Result<Vec<SubmittedFrame<'a>>, AllocError>
        ensures { IfOk result (λ v. v.items ≡ active_frames self.now.world.subs) }
    {
        match &self.stage {
            Stage::Opening { .. } => Ok(Vec::new(self.alloc)),
            Stage::Running(world) => Ok(active_frames(self.alloc, &world.subs)?),
        }
    }

    /// The surface that was named as the root, or None.
    pub fn root(&self) -> Option<SurfaceId>
        ensures { result ≡ self.now.world.root }
    {
        match &self.stage {
            Stage::Opening { .. } => None,
            Stage::Running(world) => world.root,
        }
    }

    /// What is outstanding: references that were lent and not returned, by client and resource
    /// id, and submissions without feedback, by client and ordinal. The only error is `Memory`,
    /// if an allocation fails.
    pub fn rest(&self) -> Result<Rest, Memory>
        ensures { IfOk result (λ r. r ≡ rest_in self.now.world) }
    {
        match &self.stage {
            Stage::Opening { .. } => Ok(Rest {
                held: List::new(self.alloc),
                unfed: List::new(self.alloc),
            }),
            Stage::Running(world) => Ok(world.rest()?),
        }
    }
}

/// Takes the next message of a client in the world of a stage, if it changes the client alone;
/// otherwise it answers None and changes nothing. At an error nothing changes. Condition: the plan
/// leads to the world.
fn take_quiet<'a>(
    plan: &'a Plan,
    stage: &mut Stage<'a>,
    c: u32,
) -> Result<Option<Reply>, AllocError>
    requires { IsReached plan.now (world_at plan.now stage.old) }
    ensures ok { IfOk result (λ o. IsAlone (world_at plan.now stage.old)
        (client_answer plan.now (world_at plan.now stage.old) c) o (world_at plan.now stage.new)) }
    ensures err { OnErr result (stage.new ≡ stage.old) }
{
    match stage {
        Stage::Opening { .. } => Ok(None),
        Stage::Running(world) => Ok(world.quiet(plan, c)?),
    }
}

/// Sets the Over mark.
fn mark_over(stage: &mut Stage<'_>)
    ensures { (p : Planned) → world_at p stage.new ≡ record (world_at p stage.old) { over = true } }
{
    match stage {
        Stage::Opening { over } => *over = true,
        Stage::Running(world) => world.end(),
    }
}

/// Ends the drawn frame of a world, if there is one. Conditions: no submission is ready, no
/// surface is to be named or is lost, and if there is a drawn frame there is room for its end.
fn done(
    alloc: Global,
    world: &mut World<'_>,
    returned: &mut Room<Returned>,
    fed: &mut Room<Fed>,
    room: &mut EffectsRoom,
) -> (Reply, BoxedEffects)
    requires kept { Keeps world.old }
    requires room { HasRoom world.old returned.old fed.old room.old }
    ensures step { (p : Planned) → IsOutcome (step_in p world.old event.Done) result world.new }
    ensures none { world.new.in_flight ≡ None }
    ensures returned { returned.new.list ≡ [] }
    ensures fed { fed.new.list ≡ [] }
{
    match world.in_flight.take() {
        None => (Reply::Nothing, BoxedEffects::none()),
        Some(presented) => {
            let mut queued = mem::replace(returned, Room::new(alloc));
            let mut told = mem::replace(fed, Room::new(alloc));
            world.give_back(&mut queued);
            world.feed(presented.as_slice(), &mut told);
            let mut activated = Room::new(alloc);
            let mut destroyed = Room::new(alloc);
            let effects = room.fill(&mut activated, &mut destroyed, &mut queued, &mut told);
            (Reply::Shown, effects)
        }
    }
}
