//! The walk through a scene, quad by quad. A stack holds what is still to be visited.
ghost use Rattle.std.specs.Prelude.{◌≡◌, ◌≤◌, length, List, ◌+◌, ◌*◌, ◌++◌, false, IfOk, OnOk};
ghost use Rattle.std.specs.Option.{option_to_list};
ghost use Rattle.vz_rules.specs.Walk.{Visit, walk_of, weight, too_much};
ghost use Rattle.vz_geom.specs.Display.{IsDisplaySize};
ghost use Rattle.vz_scene.specs.Walking.{cursor_walked, stack_walked, IsWalk};

use crate::active_frames::ActiveFrames;
use crate::cursor::{Cursor, enter};
use crate::visit::Walked;
use std::alloc::{AllocError, Global};
use vz_base::limits::MOST_ON_PATH;
use vz_geom::Size;
use vz_ids::SurfaceId;
use vz_placement::Placement;

/// How many surfaces deep the walk goes: one more than the limit allows.
pub const LEVELS: u32 = MOST_ON_PATH as u32 + 1;

/// Pushes a cursor onto the stack, if there is one.
fn push_some<'b, 'a>(
    stack: &mut Vec<Cursor<'b, 'a>>,
    cursor: Option<Cursor<'b, 'a>>,
) -> Result<(), AllocError>
    ensures { OnOk result (stack.new.items ≡ stack.old.items ++ option_to_list cursor.entry) }
{
    match cursor {
        None => Ok(()),
        Some(inner) => {
            stack.push(inner)?;
            Ok(())
        }
    }
}

/// Visits the next quad of a cursor, and pushes what is then still to be visited onto the stack.
/// It visits at most one quad, and the stack grows by at most two cursors for it. Condition: the
/// limit was not passed before.
fn advance<'b, 'a>(
    alloc: Global,
    active: &ActiveFrames<'b, 'a>,
    mut cursor: Cursor<'b, 'a>,
    stack: &mut Vec<Cursor<'b, 'a>>,
    walked: &mut Walked<'b, 'a>,
) -> Result<(), AllocError>
    requires { too_much walked.old ≡ false }
    ensures walked { OnOk result (walked.new ++ stack_walked active.now stack.new.items ≡ walked.old
        ++ (cursor_walked active.now cursor.entry ++ stack_walked active.now stack.old.items)) }
    ensures stack { OnOk result (length stack.new.items + 2 * weight walked.old
        ≤ length stack.old.items + 2 * weight walked.new) }
    ensures weight { OnOk result (weight walked.new ≤ weight walked.old + 1) }
{
    match cursor.quad_of() {
        None => Ok(()),
        Some((pass, quad)) => {
            let inner = cursor.quad(alloc, active, pass, quad, walked)?;
            cursor.go_on();
            stack.push(cursor)?;
            push_some(stack, inner)?;
            Ok(())
        }
    }
}

/// Walks the whole stack, cursor by cursor. Returns None if the limit is passed.
fn run<'b, 'a>(
    alloc: Global,
    active: &ActiveFrames<'b, 'a>,
    mut stack: Vec<Cursor<'b, 'a>>,
    mut walked: Walked<'b, 'a>,
) -> Result<Option<Walked<'b, 'a>>, AllocError>
    ensures { (all : List Visit) → all ≡ walked.entry ++ stack_walked active.now stack.entry.items
        → IfOk result (IsWalk all) }
{
    'quads: while !walked.is_too_much() {
        match stack.pop() {
            None => return Ok(Some(walked)),
            Some(cursor) => advance(alloc, active, cursor, &mut stack, &mut walked)?,
        }
    }
    Ok(None)
}

/// The walk from the root pass of the root surface. It returns None if the scene is over the
/// limit, after at most one quad more than `MOST_WEIGHT`. Condition: the size is that of a
/// display.
pub fn walk_of<'b, 'a>(
    alloc: Global,
    active: &ActiveFrames<'b, 'a>,
    root: &SurfaceId,
    size: Size,
) -> Result<Option<Walked<'b, 'a>>, AllocError>
    requires { IsDisplaySize size }
    ensures { IfOk result
        (IsWalk (walk_of size (record { root = root.now; active = active.now }))) }
{
    let mut walked = Walked::new(alloc);
    match active.frame_on(root) {
        None => Ok(Some(walked)),
        Some(submitted) => {
            let place = Placement::whole(size);
            walked.add_enters(1, submitted, place)?;
            let mut stack = Vec::new(alloc);
            push_some(&mut stack, enter(alloc, LEVELS, &[], submitted, place)?)?;
            Ok(run(alloc, active, stack, walked)?)
        }
    }
}
