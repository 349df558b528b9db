//! The levels that are being painted, as a stack.
ghost use Rattle.std.specs.Prelude.{◌≡◌, ◌<◌, ◌≤◌, ◌++◌, ◌∷◌, [], ℕ, List, length};
ghost use Rattle.std.specs.Prelude.{slice_index_or, OnOk};
ghost use Rattle.std.specs.Option.{option_to_list};
ghost use Rattle.vz_pixels.specs.Colour.{Colour, transparent, black};
ghost use Rattle.vz_rules.specs.World.{FrameData};
ghost use Rattle.vz_rules.specs.Paint.{full, pix};
ghost use Rattle.vz_plain.specs.declared.span.TheConstants.{PIECE};
ghost use Rattle.vz_plain.specs.Levels.{StackFits, StackEnds};
ghost use Rattle.vz_plain.specs.Rows.{IsPainted};
ghost use Rattle.vz_plain.specs.Work.{stack_work};

use crate::level::Level;
use crate::paint::Painter;
use crate::span::{PIECE, right_of, size_span};
use crate::trail::Trail;
use std::alloc::{AllocError, Global};
use vz_frame::DrawQuad;
use vz_geom::Point;
use vz_ids::SurfaceId;
use vz_pixels::Pixel;
use vz_scene::{ActiveFrames, LEVELS, SubmittedFrame};

/// Pushes a level onto the stack, if there is one.
fn push_some<'b, 'a>(
    stack: &mut Vec<Level<'b, 'a>>,
    level: Option<Level<'b, 'a>>,
) -> Result<(), AllocError>
    ensures { OnOk result (stack.new.items ≡ stack.old.items ++ option_to_list level.entry) }
{
    match level {
        None => Ok(()),
        Some(inner) => {
            stack.push(inner)?;
            Ok(())
        }
    }
}

/// Lays the row of a level that is painted on the row below it: that of the stack's last level,
/// or the base.
fn finish<'b, 'a>(
    level: Level<'b, 'a>,
    stack: &mut Vec<Level<'b, 'a>>,
    base: &mut [Pixel],
) -> Result<(), AllocError>
    requires done { level.quads ≡ [] }
    requires fits { StackFits base.old (stack.old.items ++ level ∷ []) }
    ensures ends { (active : List FrameData) (last : List Colour)
        → OnOk result (StackEnds active base.new stack.new.items last
        → StackEnds active base.old (stack.old.items ++ level.entry ∷ []) last) }
    ensures fits { OnOk result (StackFits base.new stack.new.items) }
    ensures less { OnOk result (stack_work stack.new.items
        < stack_work (stack.old.items ++ level.entry ∷ [])) }
{
    match stack.pop() {
        None => {
            level.lay_on(base);
            Ok(())
        }
        Some(mut below) => {
            below.take(&level);
            stack.push(below)?;
            Ok(())
        }
    }
}

/// Paints quads of a level up to one that draws a pass or a surface, and pushes what is then still
/// to be painted onto the stack.
fn advance<'b, 'a>(
    alloc: Global,
    active: &ActiveFrames<'b, 'a>,
    mut level: Level<'b, 'a>,
    stack: &mut Vec<Level<'b, 'a>>,
    base: &mut [Pixel],
) -> Result<(), AllocError>
    requires { StackFits base.old (stack.old.items ++ level ∷ []) }
    ensures ends { (last : List Colour)
        → OnOk result (StackEnds active.now base.new stack.new.items last
        → StackEnds active.now base.old (stack.old.items ++ level.entry ∷ []) last) }
    ensures fits { OnOk result (StackFits base.new stack.new.items) }
    ensures less { OnOk result (stack_work stack.new.items
        < stack_work (stack.old.items ++ level.entry ∷ [])) }
{
    match level.next_level(alloc, active)? {
        None => Ok(finish(level, stack, base)?),
        Some(inner) => {
            stack.push(level)?;
            stack.push(inner)?;
            Ok(())
        }
    }
}

/// Paints all levels of a stack, the last one first.
fn unwind<'b, 'a>(
    alloc: Global,
    active: &ActiveFrames<'b, 'a>,
    mut stack: Vec<Level<'b, 'a>>,
    base: &mut [Pixel],
) -> Result<(), AllocError>
    requires { StackFits base.old stack.items }
    ensures { OnOk result (StackEnds active.now base.old stack.entry.items base.new) }
{
    'levels: while let Some(level) = stack.pop() {
        advance(alloc, active, level, &mut stack, base)?;
    }
    Ok(())
}

/// What the root surface leaves in a row of its own, on the colours below it.
#[tactic(auto, unfolding(vz_rules::specs::Paint::levels))]
fn root_row<'b, 'a>(
    alloc: Global,
    active: &ActiveFrames<'b, 'a>,
    submitted: &'b SubmittedFrame<'a>,
    first: Point,
    row: &mut [Pixel],
) -> Result<(), AllocError>
    requires { length row.old ≤ PIECE }
    ensures { OnOk result
        (IsPainted (pix LEVELS active.now [] submitted.now) first row.old row.new) }
{
    let path = Trail::start(alloc)?;
    let painter = Painter {
        active,
        levels: LEVELS,
        path: &path,
        submitted,
    };
    let mut stack = Vec::new(alloc);
    push_some(&mut stack, painter.straight(alloc, submitted, first, row)?)?;
    Ok(unwind(alloc, active, stack, row)?)
}

/// The colours of a row of the display, black if nothing can be seen there. `start` is the row's
/// first point. Condition: the row is black.
#[tactic(auto, unfolding(vz_rules::specs::Paint::full, vz_rules::specs::Paint::levels))]
pub(crate) fn full(
    alloc: Global,
    active: &ActiveFrames<'_, '_>,
    root: &SurfaceId,
    start: Point,
    row: &mut [Pixel],
) -> Result<(), AllocError>
    requires few { length row.old ≤ PIECE }
    requires black { (i : ℕ) → i < length row.old → slice_index_or row.old i transparent ≡ black }
    ensures { OnOk result
        (IsPainted (λ q d. full (record { root = root.now; active = active.now }) q)
        start row.old row.new) }
{
    match active.frame_on(root) {
        None => Ok(()),
        Some(submitted) => {
            let here = size_span(submitted, start, row.len());
            if here.from >= here.to {
                return Ok(());
            }
            let first = right_of(start, here.from);
            let part = &mut row[here.from..here.to];
            Ok(root_row(alloc, active, submitted, first, part)?)
        }
    }
}
