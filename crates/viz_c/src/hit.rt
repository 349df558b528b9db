//! Gives the events of a schedule to the machine, and finds what is hit at a point.
ghost use Rattle.std.specs.Prelude.{◌≡◌, ◌≢◌, ◌<◌, ◌≤◌, ◌&&◌, All, None, Some, [], length, nat_lt, pos};
ghost use Rattle.std.specs.Prelude.{IsTrue, IfOk, OnOk, IsErrOf};
ghost use Rattle.vz_base.specs.declared.limits.TheConstants.{MOST_FILES, GREATEST_DISPLAY_SIDE};
ghost use Rattle.vz_geom.specs.Display.{IsDisplaySize};
ghost use Rattle.vz_geom.specs.Rectangle.{has, sized};
ghost use Rattle.viz_run.specs.declared.refused.InputError.TheVariants as input_error;
ghost use Rattle.viz_run.specs.declared.refused.Refused.{Refused as Refusal};
ghost use Rattle.vz_rules.specs.Plan.{IsPlan};
ghost use Rattle.vz_rules.specs.Step.{NamesClient};
ghost use Rattle.viz_c.specs.Answers as viz;
ghost use Rattle.viz_c.specs.Calls.{cut, schedule_refused_of};
ghost use Rattle.viz_run.specs.Taken.{HasTested};
ghost use Rattle.viz_c.specs.Hitting.{Hits, IsHitIn, target_of, IsHitTold, IsFoundTold};

use crate::answer::{Cause, DONE, NOTHING, tell_error};
use crate::call::cut;
use crate::given::{Given, admit};
use crate::solo::SoloMachine;
use std::alloc::Global;
use viz_run::InputError;
use vz_base::Memory;
use vz_geom::{Point, Size};
use vz_ids::SurfaceId;
use vz_outside::OpenGate;
use vz_player::HitTester;
use vz_rules::{Event, Plan};

/// A surface that is hit, and the point in it.
#[repr(C)]
#[derive(Clone, Copy)]
pub struct Target {
    /// The number of the client in the surface's sink.
    pub client_id: u32,
    /// The number of the sink among those of the client.
    pub sink_id: u32,
    /// The number that the parent's allocator raised.
    pub parent: u32,
    /// The number that the child's allocator raised.
    pub child: u32,
    /// The lower 64 bits of the token of the embedding.
    pub token_low: u64,
    /// The upper 64 bits of the token of the embedding.
    pub token_high: u64,
    /// The column of the point, in pixels from the left of the surface.
    pub x: i32,
    /// The row of the point, in pixels from the top of the surface.
    pub y: i32,
}

/// Gives the events of a schedule to the machine with the plan of these files, and returns what is
/// hit at a point of the last drawing: None if nothing is there, or if nothing was drawn.
///
/// The error is `Refused` for the first input that is refused, and otherwise `Memory`.
/// Conditions: 1 to `MOST_FILES` files, sides that a display may have, and a point on the display.
pub fn hit(
    alloc: Global,
    size: Size,
    point: Point,
    schedule: &[u8],
    files: &[u8],
    lengths: &[usize],
) -> Result<Option<(SurfaceId, Point)>, InputError>
    requires some { 1 ≤ length lengths.now }
    requires few { length lengths.now ≤ MOST_FILES }
    requires size { IsDisplaySize size }
    requires point { IsTrue (has (sized size) point) }
    ensures hits { IfOk result (λ hit.
        Hits size (cut lengths.now files.now) schedule.now point hit) }
    ensures refused { (r : Refusal) → IsErrOf result (input_error.Refused r)
        → schedule_refused_of size (cut lengths.now files.now) schedule.now ≡ Some r }
{
    let inputs = cut(alloc, files, lengths)?;
    let Given { plan, events } = admit(alloc, size, &inputs, schedule)?;
    let hit = find(alloc, plan, point, &events)?;
    Ok(hit)
}

/// Gives events to the machine with a plan, and returns what is hit at a point of the last
/// drawing.
fn find(
    alloc: Global,
    plan: Plan,
    point: Point,
    events: &[Event],
) -> Result<Option<(SurfaceId, Point)>, Memory>
    requires named { All (NamesClient plan) events.now }
    requires point { IsTrue (has (sized plan.size) point) }
    ensures { IfOk result (λ hit. IsHitIn plan events.now point hit) }
{
    let _ = plan.files();
    let machine = SoloMachine::open(alloc, plan)?;
    let mut tester = HitTester::new(alloc, machine, point);
    take_all(alloc, &mut tester, events)?;
    let _ = tester.history();
    Ok(tester.hit())
}

/// Gives events to a tester one after the other.
fn take_all(
    alloc: Global,
    tester: &mut HitTester<SoloMachine>,
    events: &[Event],
) -> Result<(), Memory>
    requires { All (NamesClient tester.old.plan) events.now }
    ensures { OnOk result (HasTested events.now tester.old tester.new) }
{
    for event in events {
        tester.turn(alloc, &OpenGate, *event)?;
    }
    Ok(())
}

/// Whether this column and this row are on a display with these sides.
pub fn is_inside(w: u32, h: u32, x: u32, y: u32) -> bool
    ensures { result ≡ (nat_lt x w && nat_lt y h) }
{
    x < w && y < h
}

/// The point in this column and row, from 0 on. Condition: both are below the greatest side of a
/// display.
pub fn point_of(x: u32, y: u32) -> Point
    requires column { x < GREATEST_DISPLAY_SIDE }
    requires row { y < GREATEST_DISPLAY_SIDE }
    ensures { result ≡ record { x = pos x; y = pos y } }
{
    Point {
        x: x as i32,
        y: y as i32,
    }
}

/// The answer for what is hit. If it is a surface, `target` gets it.
pub fn tell_hit(
    hit: &Result<Option<(SurfaceId, Point)>, InputError>,
    target: &mut Target,
    cause: &mut Cause,
) -> u32
    ensures told { IsHitTold hit.now result target.new cause.new }
    ensures target_kept { result ≢ viz.DONE → target.new ≡ target.old }
    ensures cause_kept { result ≢ viz.REFUSED → cause.new ≡ cause.old }
{
    match hit {
        Ok(found) => tell_found(found, target),
        Err(error) => tell_error(error, cause),
    }
}

/// The answer for a surface that is hit, or for nothing.
fn tell_found(found: &Option<(SurfaceId, Point)>, target: &mut Target) -> u32
    ensures told { IsFoundTold found.now result target.new }
    ensures target_kept { result ≢ viz.DONE → target.new ≡ target.old }
{
    match found {
        Some((id, local)) => {
            *target = target_of(id, local);
            DONE
        }
        None => NOTHING,
    }
}

/// A surface and the point in it, as C sees them.
fn target_of(id: &SurfaceId, local: &Point) -> Target
    ensures { result ≡ target_of id.now local.now }
{
    let token = id.local.token.0;
    Target {
        client_id: id.sink.client_id,
        sink_id: id.sink.sink_id,
        parent: id.local.parent,
        child: id.local.child,
        token_low: (token % 18_446_744_073_709_551_616) as u64,
        token_high: (token / 18_446_744_073_709_551_616) as u64,
        x: local.x,
        y: local.y,
    }
}
