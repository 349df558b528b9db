//! What is hit at each point of the display: both machines answer the same, and so do the regions
//! of the one that users run.
ghost use Rattle.std.specs.Prelude.{◌≡◌, ◌≤◌, All, IfSome, OnOk};
ghost use Rattle.vz_geom.specs.Display.{IsDisplaySize};
ghost use Rattle.vz_geom.specs.Rectangle.{has, sized};
ghost use Rattle.vz_machine.specs.Stepping.{IsOnDisplay};
ghost use Rattle.vz_rules.specs.Step.{NamesClient};

use crate::call::words_of;
use crate::file::find;
use crate::row::Row;
use std::alloc::Global;
use std::thread::Threads;
use viz_run::{events_of, plan_of};
use vz_base::Memory;
use vz_base::limits::{GREATEST_DISPLAY_SIDE, MOST_FILES};
use vz_geom::{Point, Rect, Size};
use vz_hit::Regions;
use vz_ids::SurfaceId;
use vz_machine::Machine;
use vz_manager::Manager;
use vz_rules::{Event, Plan};
use vz_slow::PlainMachine;

/// Whether both are hit alike at each point of the display, before the first event of a row of
/// `step` or `hit` and after each of them. Of a row that goes wrong no event is taken.
pub fn are_hit_alike<R: Threads + AllocGlobal + Sync>(rt: &R, row: &Row<'_>) -> bool {
    let has_events = row.words.starts_with("step ") || row.words.starts_with("hit ");
    if row.status != 0 || !has_events {
        return true;
    }
    match words_of(rt.alloc(), row.words) {
        Ok(words) => plays_alike(rt, row, &words).unwrap_or(false),
        Err(_) => false,
    }
}

/// The same of a row with these words: the command, the sides of the display, the schedule, two
/// others, and the clients' files. None if a word or a file is missing or wrong, or for want of
/// memory.
fn plays_alike<R: Threads + AllocGlobal + Sync>(
    rt: &R,
    row: &Row<'_>,
    words: &[String],
) -> Option<bool> {
    if words.len() < 7 {
        return None;
    }
    let width = side(words[1].as_str())?;
    let height = side(words[2].as_str())?;
    let schedule = find(&row.given, words[3].as_str())?;
    let files = files_of(rt.alloc(), row, &words[6..])?;
    Some(files_alike(rt, size_of(width, height), &files, schedule))
}

/// The side of a display that a word says, none if it is too small or too large.
fn side(word: &str) -> Option<u32>
    ensures low { IfSome result (λ n. 1 ≤ n) }
    ensures high { IfSome result (λ n. n ≤ GREATEST_DISPLAY_SIDE) }
{
    let side = word.parse::<u32>().ok()?;
    if side < 1 || side > GREATEST_DISPLAY_SIDE {
        return None;
    }
    Some(side)
}

/// The size of a display with these sides.
fn size_of(width: u32, height: u32) -> Size
    requires wide { 1 ≤ width }
    requires not_too_wide { width ≤ GREATEST_DISPLAY_SIDE }
    requires high { 1 ≤ height }
    requires not_too_high { height ≤ GREATEST_DISPLAY_SIDE }
    ensures { IsDisplaySize result }
{
    Size {
        w: width as i32,
        h: height as i32,
    }
}

/// The bytes of files of a row.
fn files_of(alloc: Global, row: &Row<'_>, names: &[String]) -> Option<Vec<Vec<u8>>> {
    let mut files = Vec::new(alloc);
    for name in names {
        let bytes = find(&row.given, name.as_str())?;
        files.push(Vec::from_slice(alloc, bytes).ok()?).ok()?;
    }
    Some(files)
}

/// The same of these files and this schedule.
fn files_alike<R: Threads + AllocGlobal + Sync>(
    rt: &R,
    size: Size,
    files: &[Vec<u8>],
    schedule: &[u8],
) -> bool
    requires { IsDisplaySize size }
{
    if files.is_empty() || files.len() > MOST_FILES {
        return false;
    }
    let Ok(plan) = plan_of(rt, size, files) else {
        return false;
    };
    match plan_of(rt, size, files) {
        Ok(same) => plans_alike(rt.alloc(), &plan, same, schedule),
        Err(_) => false,
    }
}

/// The same of a plan, of which each machine has one.
fn plans_alike(alloc: Global, plan: &Plan, same: Plan, schedule: &[u8]) -> bool
    requires { same ≡ plan.now }
{
    match events_of(alloc, plan, schedule) {
        Ok(events) => events_alike(alloc, plan, same, &events).unwrap_or(false),
        Err(_) => false,
    }
}

/// The same of events of the plan.
fn events_alike(alloc: Global, plan: &Plan, same: Plan, events: &[Event]) -> Result<bool, Memory>
    requires same { same ≡ plan.now }
    requires named { All (NamesClient plan.now) events.now }
{
    let size = plan.size();
    let mut plain = PlainMachine::new(alloc, plan);
    let Ok(mut fast) = Manager::open(alloc, same) else {
        return Err(Memory);
    };
    let mut alike = are_alike(alloc, &plain, &fast, &size)?;
    for event in events {
        take(alloc, &mut plain, *event)?;
        take(alloc, &mut fast, *event)?;
        alike &= are_alike(alloc, &plain, &fast, &size)?;
    }
    Ok(alike)
}

/// Takes an event of a machine's plan.
fn take<M: Machine>(alloc: Global, machine: &mut M, event: Event) -> Result<(), Memory>
where
    M::Picture: Drop,
    requires { NamesClient (M.state machine.old).plan event }
    ensures { OnOk result ((M.state machine.new).plan ≡ (M.state machine.old).plan) }
{
    match event {
        Event::Client(client) => {
            machine.client(alloc, client)?;
            Ok(())
        }
        Event::Begin => {
            machine.begin(alloc)?;
            Ok(())
        }
        Event::Draw => {
            machine.draw(alloc)?;
            Ok(())
        }
        Event::Done => {
            machine.done();
            Ok(())
        }
        Event::Over => {
            machine.over();
            Ok(())
        }
    }
}

/// Whether both machines and the regions are hit alike at each point of the display.
fn are_alike(
    alloc: Global,
    plain: &PlainMachine<'_>,
    fast: &Manager,
    size: &Size,
) -> Result<bool, Memory>
    requires plain { plain.now.plan.size ≡ size.now }
    requires fast { fast.now.plan.size ≡ size.now }
    requires size { IsDisplaySize size.now }
{
    let regions = fast.regions(alloc)?;
    for y in 0..size.h {
        if !is_row_alike(alloc, plain, fast, &regions, size, y)? {
            return Ok(false);
        }
    }
    Ok(true)
}

/// The same at each point of a row.
fn is_row_alike(
    alloc: Global,
    plain: &PlainMachine<'_>,
    fast: &Manager,
    regions: &Option<Regions>,
    size: &Size,
    y: i32,
) -> Result<bool, Memory>
    requires plain { plain.now.plan.size ≡ size.now }
    requires fast { fast.now.plan.size ≡ size.now }
    requires size { IsDisplaySize size.now }
{
    for x in 0..size.w {
        let p = Point { x, y };
        if is_on(size, p) && !is_alike(alloc, plain, fast, regions, p)? {
            return Ok(false);
        }
    }
    Ok(true)
}

/// Whether a point is on a display.
fn is_on(size: &Size, p: Point) -> bool
    requires { IsDisplaySize size.now }
    ensures { result ≡ has (sized size.now) p }
{
    Rect::of_display(*size).contains(p)
}

/// The same at a point.
fn is_alike(
    alloc: Global,
    plain: &PlainMachine<'_>,
    fast: &Manager,
    regions: &Option<Regions>,
    p: Point,
) -> Result<bool, Memory>
    requires plain { IsOnDisplay plain.now p }
    requires fast { IsOnDisplay fast.now p }
{
    let by_plain = plain.hit(alloc, p)?;
    let by_fast = fast.hit(alloc, p)?;
    Ok(by_plain == by_fast && found(regions, p) == by_fast)
}

/// What regions find at a point.
fn found(regions: &Option<Regions>, p: Point) -> Option<(SurfaceId, Point)> {
    match regions {
        Some(regions) => {
            let hit = regions.find(p)?;
            Some((hit.id, hit.local))
        }
        None => None,
    }
}
