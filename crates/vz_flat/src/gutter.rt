//! The gutter: the background around a shown surface that is too small for its quad.
ghost use Rattle.std.specs.Prelude.{◌≡◌, ◌++◌, OnOk};
ghost use Rattle.std.specs.List.{flat_map};
ghost use Rattle.vz_geom.specs.Rectangle.{Covers};
ghost use Rattle.vz_flat.specs.Gutters.{LiesIn, above, beneath, left_of, right_of, parts_round, part_flat, gutter_flat};
ghost use Rattle.vz_flat.specs.Parts.{surface_place};

use crate::Op;
use crate::put::put;
use vz_base::Memory;
use vz_frame::Blend;
use vz_geom::Rect;
use vz_ids::SurfaceRange;
use vz_pixels::Pixel;
use vz_placement::Placement;
use vz_surfaces::Seen;

/// The part of the outer rectangle above the inner one. Condition: the inner one lies in it.
fn above(outer: &Rect, inner: &Rect) -> Rect
    requires { LiesIn outer.now inner.now }
    ensures { result ≡ above outer.now inner.now }
{
    Rect::new(outer.x(), outer.y(), outer.w(), inner.y() - outer.y())
}

/// The part of the outer rectangle below the inner one.
fn beneath(outer: &Rect, inner: &Rect) -> Rect
    requires { LiesIn outer.now inner.now }
    ensures { result ≡ beneath outer.now inner.now }
{
    let y = inner.bottom();
    Rect::new(outer.x(), y, outer.w(), outer.bottom() - y)
}

/// The part of the outer rectangle left of the inner one.
fn left_of(outer: &Rect, inner: &Rect) -> Rect
    requires { LiesIn outer.now inner.now }
    ensures { result ≡ left_of outer.now inner.now }
{
    Rect::new(outer.x(), inner.y(), inner.x() - outer.x(), inner.h())
}

/// The part of the outer rectangle right of the inner one.
fn right_of(outer: &Rect, inner: &Rect) -> Rect
    requires { LiesIn outer.now inner.now }
    ensures { result ≡ right_of outer.now inner.now }
{
    let x = inner.right();
    Rect::new(x, inner.y(), outer.right() - x, inner.h())
}

/// Appends a fill of a part with a colour, by the mode `Over`.
fn fill_part(ops: &mut Vec<Op>, part: Rect, color: Pixel) -> Result<(), Memory>
    ensures { OnOk result (ops.new.items ≡ ops.old.items ++ part_flat color part) }
{
    if part.is_empty() {
        return Ok(());
    }
    put(
        ops,
        Op::Fill {
            area: part,
            color,
            opacity: 255,
            blend: Blend::Over,
        },
    )?;
    Ok(())
}

/// Appends fills of the outer rectangle, except for the inner one, with a colour by the mode
/// `Over`. Condition: the inner rectangle has no point outside the outer one.
#[tactic(auto, unfolding(crate::specs::Gutters::parts_round))]
pub(crate) fn fill_round(
    ops: &mut Vec<Op>,
    outer: &Rect,
    inner: &Rect,
    color: Pixel,
) -> Result<(), Memory>
    requires { Covers outer.now inner.now }
    ensures { OnOk result (ops.new.items ≡ ops.old.items
        ++ flat_map (part_flat color) (parts_round outer.now inner.now)) }
{
    // The test for points shows that the edges of both are within the limits.
    let _ = outer.is_empty();
    if inner.is_empty() {
        fill_part(ops, *outer, color)?;
        return Ok(());
    }
    fill_part(ops, above(outer, inner), color)?;
    fill_part(ops, beneath(outer, inner), color)?;
    fill_part(ops, left_of(outer, inner), color)?;
    fill_part(ops, right_of(outer, inner), color)?;
    Ok(())
}

/// Appends the background around a surface, if the surface is not the range's end. Condition: the
/// inner place is that of the surface.
#[tactic(auto, unfolding(crate::specs::Gutters::gutter_flat))]
pub(crate) fn put_gutter(
    range: &SurfaceRange,
    seen: &Seen<'_>,
    background: Pixel,
    place: &Placement,
    inner: &Placement,
    ops: &mut Vec<Op>,
) -> Result<(), Memory>
    requires { inner.now ≡ surface_place seen.now place.now }
    ensures { OnOk result
        (ops.new.items ≡ ops.old.items ++ gutter_flat range.now background seen.now place.now) }
{
    if seen.id() == range.end {
        return Ok(());
    }
    fill_round(ops, &place.window(), &inner.window(), background)?;
    Ok(())
}
