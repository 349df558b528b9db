//! The submissions that wait to become active.
ghost use Rattle.std.specs.Prelude.{◌≡◌, ◌≤◌, ◌<◌, ◌+◌, ◌++◌, ◌∷◌, [], nat_lt, if◌then◌else◌, map, length, IsTrue, IsFalse, IsOk, OnOk, OnErr, List, option_to_list};
ghost use Rattle.std.specs.List.{Contains};
ghost use Rattle.vz_ids.specs.declared.LocalSurfaceId.{LocalSurfaceId};
ghost use Rattle.vz_frame.specs.declared.frame.CompositorFrame.{CompositorFrame};
ghost use Rattle.vz_frame.specs.declared.message.Message.TheVariants.{Close};
ghost use Rattle.vz_rules.specs.Plan.{Plan};
ghost use Rattle.vz_rules.specs.World.{World, Client, Surface, opening, sub_of};
ghost use Rattle.vz_rules.specs.Settle.{ready, round};
ghost use Rattle.vz_rules.specs.Messages.{accepted, message_answer};
ghost use Rattle.vz_rules.specs.Singly.{going};
ghost use Rattle.vz_rules.specs.Step.{next_tick, begin_answer};
ghost use Rattle.vz_rules.specs.Course.{some_waits};
ghost use Rattle.vz_rules.specs.Kept.{KeepsAlways};
ghost use Rattle.vz_surface_manager.specs.Waits.{AreWaiting, Tells, is_among, waiting_on};
ghost use Rattle.vz_surface_manager.specs.Left_out.{blocked_without, due_without};

use crate::arrival::Arrival;
use std::alloc::Global;
use std::marker::Model;
use vz_base::Memory;
use vz_deadlines::Deadlines;
use vz_deps::Tracker;
use vz_frame::Room;
use vz_ids::{FrameSinkId, Sub, SurfaceId};

/// The submissions that wait to become active, each until its dependencies are met or its
/// deadline comes. Contracts see the unmet dependencies of each, their deadlines, and the room
/// that was reserved before.
///
/// Each call is a change of the machine's state that these submissions depend on. They depend on
/// no other. A submission that becomes active is appended to `out` (`accepted` returns true for
/// it) and no longer waits. Only `ready` allocates.
#[derive(Drop)]
pub struct Waiting {
    tracker: Tracker,
    deadlines: Deadlines,
}

impl Model for Waiting {
    ghost use Rattle.std.specs.Prelude.{◌==◌, if◌then◌else◌};
    ghost use Rattle.vz_surface_manager.specs.Waits.{Waits};

    ghost Value = { Waits };

    ghost view = { λ a. record {
      blocked = a.tracker.list;
      due = a.deadlines.list;
      spare = if a.deadlines.spare == 0 then 0 else a.tracker.spare;
    } };
}

impl Waiting {
    /// Creates the state in which no submission waits. It allocates nothing.
    pub fn new(alloc: Global) -> Waiting
        ensures { (p : Plan) → AreWaiting (opening p) result }
    {
        Waiting {
            tracker: Tracker::new(alloc),
            deadlines: Deadlines::new(alloc),
        }
    }

    /// Makes room for one more submission with `lacked` unmet dependencies or fewer. The only
    /// error is `Memory`, if an allocation fails. In either case nothing else changes and no room
    /// is lost.
    pub fn ready(&mut self, lacked: usize) -> Result<(), Memory>
        ensures blocked { self.new.blocked ≡ self.old.blocked }
        ensures due { self.new.due ≡ self.old.due }
        ensures ok { OnOk result (lacked < self.new.spare) }
        ensures succeeds { lacked < usize.MAX → lacked < self.old.spare → IsOk result }
        ensures spare { self.old.spare ≤ self.new.spare }
    {
        let Some(n) = lacked.checked_add(1) else {
            return Err(Memory);
        };
        self.deadlines.ready(1)?;
        self.tracker.ready(n)?;
        Ok(())
    }

    /// How many submissions wait.
    pub fn count(&self) -> usize
        ensures count { result ≡ length self.now.due }
        ensures some { (w : World) → ready w ≡ [] → AreWaiting w self.now
            → some_waits w ≡ nat_lt 0 result }
    {
        self.deadlines.waiting()
    }

    /// A submission with these unmet dependencies is accepted at a tick, and the one that was
    /// waiting on its surface is dropped. Returns true if the submission becomes active at once;
    /// otherwise it waits. Conditions: it does not wait already, and there is room for it.
    pub fn accepted(&mut self, a: Arrival, tick: u32, lacked: &[SurfaceId]) -> bool
        requires new { IsFalse (is_among self.old a.sub) }
        requires room { length lacked.now < self.old.spare }
        ensures waits { (w : World) (c : Client) (local : LocalSurfaceId) (frame : CompositorFrame)
            → KeepsAlways w → AreWaiting w self.old → Tells w c local frame a tick lacked.now
            → AreWaiting (accepted w c local frame).world self.new }
        ensures active { (w : World) (c : Client) (local : LocalSurfaceId) (frame : CompositorFrame)
            → KeepsAlways w → ready w ≡ [] → Tells w c local frame a tick lacked.now
            → map sub_of (ready (accepted w c local frame).world) ≡ (if result then a.sub ∷ []
            else []) }
        ensures few { length self.new.blocked + (if result then 1 else 0)
            ≤ length self.old.blocked + 1 }
    {
        drop_one(&mut self.tracker, &mut self.deadlines, a.replaced);
        if lacked.is_empty() || a.due <= tick {
            return true;
        }
        self.tracker.block(a.sub, lacked).unwrap();
        self.deadlines.set(a.sub, a.due).unwrap();
        false
    }

    /// A begin-frame with this tick: appends the submissions that become active by it, in the
    /// order of acceptance, and removes them. Condition: `out` has room for all that wait.
    pub fn ticked(&mut self, tick: u32, out: &mut Room<Sub>)
        requires { length self.old.due ≤ out.old.spare }
        ensures waits { (w : World) (p : Plan) → KeepsAlways w → ready w ≡ []
            → AreWaiting w self.old → tick ≡ next_tick w.tick
            → AreWaiting (begin_answer p w).world self.new }
        ensures out { (w : World) (p : Plan) → KeepsAlways w → ready w ≡ []
            → AreWaiting w self.old → tick ≡ next_tick w.tick
            → out.new.list ≡ out.old.list ++ map sub_of (ready (begin_answer p w).world) }
        ensures room { length self.new.due + out.old.spare ≡ length self.old.due + out.new.spare }
    {
        let before = out.as_slice().len();
        self.deadlines.begin(tick, out);
        forget_all(&mut self.tracker, &out.as_slice()[before..]);
    }

    /// The client of a sink is closed: appends the submissions that become active by it, in the
    /// order of acceptance, and removes them. Condition: `out` has room for all that have an
    /// unmet dependency.
    pub fn closed(&mut self, sink: FrameSinkId, out: &mut Room<Sub>)
        requires { length self.old.blocked ≤ out.old.spare }
        ensures waits { (w : World) (c : Client) → KeepsAlways w → Contains w.clients c
            → ready w ≡ [] → AreWaiting w self.old → sink ≡ c.sink
            → AreWaiting (message_answer w c Close).world self.new }
        ensures out { (w : World) (c : Client) → KeepsAlways w → Contains w.clients c
            → ready w ≡ [] → AreWaiting w self.old → sink ≡ c.sink
            → out.new.list ≡ out.old.list ++ map sub_of (ready (message_answer w c Close).world) }
        ensures room { length self.new.blocked + out.old.spare
            ≤ length self.old.blocked + out.new.spare }
    {
        let before = out.as_slice().len();
        self.tracker.sink_gone(sink, out);
        clear_all(&mut self.deadlines, &out.as_slice()[before..]);
    }

    /// Submissions on these surfaces become active in one round: appends the submissions that
    /// become active in the next round, in the order of acceptance, and removes them. Condition:
    /// `out` has room for all that have an unmet dependency.
    pub fn activated(&mut self, ids: &[SurfaceId], out: &mut Room<Sub>)
        requires { length self.old.blocked ≤ out.old.spare }
        ensures waits { (w : World) → KeepsAlways w → AreWaiting w self.old
            → ids.now ≡ map (λ s. s.submitted.id) (ready w) → AreWaiting (round w) self.new }
        ensures out { (w : World) → KeepsAlways w → AreWaiting w self.old
            → ids.now ≡ map (λ s. s.submitted.id) (ready w)
            → out.new.list ≡ out.old.list ++ map sub_of (ready (round w)) }
        ensures room { length self.new.blocked + out.old.spare
            ≤ length self.old.blocked + out.new.spare }
    {
        let before = out.as_slice().len();
        self.tracker.all_activated(ids, out);
        clear_all(&mut self.deadlines, &out.as_slice()[before..]);
    }

    /// A surface is destroyed, and the submission that was waiting on it, if any, is dropped.
    pub fn dropped(&mut self, sub: Option<Sub>)
        ensures waits { (w : World) (c : Surface) → KeepsAlways w → AreWaiting w self.old
            → sub ≡ waiting_on w c.id → AreWaiting (going c w) self.new }
    {
        drop_one(&mut self.tracker, &mut self.deadlines, sub);
    }
}

/// Removes these submissions from the blocked ones.
pub(crate) fn forget_all(tracker: &mut Tracker, subs: &[Sub])
    ensures list { tracker.new.list ≡ blocked_without subs.now tracker.old.list }
    ensures spare { tracker.old.spare ≤ tracker.new.spare }
{
    for s in subs {
        tracker.forget(*s);
    }
}

/// Removes the deadlines of these submissions.
pub(crate) fn clear_all(deadlines: &mut Deadlines, subs: &[Sub])
    ensures list { deadlines.new.list ≡ due_without subs.now deadlines.old.list }
    ensures spare { deadlines.old.spare ≤ deadlines.new.spare }
{
    for s in subs {
        deadlines.clear(*s);
    }
}

/// Removes a submission, if one is given, so that it waits no longer.
pub(crate) fn drop_one(tracker: &mut Tracker, deadlines: &mut Deadlines, sub: Option<Sub>)
    ensures blocked { tracker.new.list ≡ blocked_without (option_to_list sub) tracker.old.list }
    ensures due { deadlines.new.list ≡ due_without (option_to_list sub) deadlines.old.list }
    ensures places { tracker.old.spare ≤ tracker.new.spare }
    ensures spare { deadlines.old.spare ≤ deadlines.new.spare }
{
    if let Some(s) = sub {
        tracker.forget(s);
        deadlines.clear(s);
    }
}
