//! The rules that a frame must keep, their names, and the test of them.
ghost use Rattle.std.specs.Prelude.{◌≡◌, ◌+ℤ◌, pos, int_lt, not, take, Some, None, IfErr, OnOk};
ghost use Rattle.std.specs.List.{list_any};
ghost use Rattle.vz_frame.specs.Checking.{joined, in_quad, in_quads, in_passes, first_said};
ghost use Rattle.vz_frame.specs.Frame.{bad_root, exceeds, first_broken, has_repeat};
ghost use Rattle.vz_ids.specs.Ids.{is_good, same_surface};
ghost use Rattle.std.specs.Option.{option_copied};

use crate::places::{Places, index_of, is_short};
use crate::{CompositorFrame, DrawQuad, Listing, Material, RenderPass};
use std::error::Error;
use std::fmt;
use vz_geom::Rect;
use vz_ids::{SurfaceId, SurfaceRange};

/// The rules that a frame must keep, in the order in which they are tested. Each comment says
/// what breaks the rule.
#[derive(Clone, Copy, Debug, PartialEq, Eq, Hash)]
pub enum Rule {
    /// The frame has no pass.
    NoPass,
    /// The output of the root pass is empty or does not start at (0, 0).
    BadRoot,
    /// Two passes have the same id.
    PassIds,
    /// A pass quad names a pass that does not come earlier in the list than the quad's own.
    PassOrder,
    /// A visible rectangle has a point outside the quad's rectangle.
    VisibleOutside,
    /// A tile names a resource that is not listed.
    UnlistedResource,
    /// A resource id is listed twice.
    ListedTwice,
    /// A tile reaches outside the listed width or height.
    TileOutside,
    /// A range has its start and its end in one group, and the start is newer than the end.
    BadRange,
    /// Two dependencies are equal.
    BadDependency,
    /// A damage rectangle has a point outside its pass's output.
    DamageOutside,
}

impl Rule {
    /// What breaks the rule, in words.
    fn text(self) -> &'static str {
        match self {
            Rule::NoPass => "there is no pass",
            Rule::BadRoot => "the output of the root pass is empty or does not start at (0, 0)",
            Rule::PassIds => "two passes have one id",
            Rule::PassOrder => "a pass quad names no earlier pass",
            Rule::VisibleOutside => "a visible rectangle has a point outside the quad's rectangle",
            Rule::UnlistedResource => "a tile names a resource that is not listed",
            Rule::ListedTwice => "a resource is listed twice",
            Rule::TileOutside => "a tile reaches outside the listed width or height",
            Rule::BadRange => "a range starts after its end",
            Rule::BadDependency => "two dependencies are equal",
            Rule::DamageOutside => "a damage rectangle has a point outside its pass's output",
        }
    }
}

impl fmt::Display for Rule {
    fn fmt<W: fmt::Write>(&self, f: &mut fmt::Formatter<W>) -> fmt::Result {
        f.write_str(self.text())
    }
}

impl Error for Rule {}

/// Which rules the passes and quads of a frame break. A field is true if one of them breaks that
/// rule.
#[derive(Clone, Copy)]
struct Found {
    /// A pass quad names no earlier pass.
    order: bool,
    /// A visible rectangle has a point outside the quad's rectangle.
    visible: bool,
    /// A tile names a resource that is not listed.
    unlisted: bool,
    /// A tile reaches outside the first listing of its resource.
    outside: bool,
    /// The range of a surface quad starts after its end.
    range: bool,
    /// A damage rectangle has a point outside its pass's output.
    damage: bool,
}

impl Found {
    const NOTHING: Found = Found {
        order: false,
        visible: false,
        unlisted: false,
        outside: false,
        range: false,
        damage: false,
    };

    /// What either of the two found.
    fn join(self, other: Found) -> Found
        ensures { result ≡ joined self other }
    {
        Found {
            order: self.order | other.order,
            visible: self.visible | other.visible,
            unlisted: self.unlisted | other.unlisted,
            outside: self.outside | other.outside,
            range: self.range | other.range,
            damage: self.damage | other.damage,
        }
    }
}

/// Tests whether a frame keeps the eleven rules. The error is the first rule that it breaks, in
/// the order of `Rule`.
///
/// It looks at each quad once. It finds the ids of passes and resources through maps on the
/// stack, and so allocates nothing. Short lists, and those longer than a frame of a file may
/// have, are scanned.
pub fn check(frame: &CompositorFrame) -> Result<(), Rule>
    ensures kept { OnOk result (first_broken frame.now ≡ None) }
    ensures broken { IfErr result (λ rule. first_broken frame.now ≡ Some rule) }
{
    match first_broken(frame) {
        Some(rule) => Err(rule),
        None => Ok(()),
    }
}

/// The first rule that a frame breaks, if it breaks one.
fn first_broken(frame: &CompositorFrame) -> Option<Rule>
    ensures { result ≡ first_broken frame.now }
{
    let passes = frame.passes.as_slice();
    let resources = frame.resources.as_slice();
    if is_short(passes) && is_short(resources) {
        return broken_in(frame, &Places::scanned(passes), &Places::scanned(resources));
    }
    broken_by_maps(frame)
}

/// The first rule that a frame breaks, if it breaks one, with maps of its longer lists.
#[inline(never)]
fn broken_by_maps(frame: &CompositorFrame) -> Option<Rule>
    ensures { result ≡ first_broken frame.now }
{
    let passes = frame.passes.as_slice();
    let resources = frame.resources.as_slice();
    let by_id = index_of(passes);
    let listed = index_of(resources);
    broken_in(
        frame,
        &Places::of(passes, &by_id),
        &Places::of(resources, &listed),
    )
}

/// The first rule that a frame breaks, if it breaks one, by its passes and by what it lists.
fn broken_in(
    frame: &CompositorFrame,
    by_id: &Places<'_, RenderPass>,
    listed: &Places<'_, Listing>,
) -> Option<Rule>
    requires passes { by_id.now ≡ frame.now.passes }
    requires listed { listed.now ≡ frame.now.resources }
    ensures { result ≡ first_broken frame.now }
{
    let passes = frame.passes.as_slice();
    let found = search_passes(passes, by_id, listed);
    let table = [
        (passes.is_empty(), Rule::NoPass),
        (is_bad_root(passes.last()), Rule::BadRoot),
        (by_id.has_repeat(), Rule::PassIds),
        (found.order, Rule::PassOrder),
        (found.visible, Rule::VisibleOutside),
        (found.unlisted, Rule::UnlistedResource),
        (listed.has_repeat(), Rule::ListedTwice),
        (found.outside, Rule::TileOutside),
        (
            found.range | has_bad_range(frame.metadata.references.as_slice()),
            Rule::BadRange,
        ),
        (
            has_repeat(frame.metadata.dependencies.as_slice()),
            Rule::BadDependency,
        ),
        (found.damage, Rule::DamageOutside),
    ];
    first_said(&table)
}

/// The first rule in the table that is marked as broken, if there is one.
fn first_said(table: &[(bool, Rule)]) -> Option<Rule>
    ensures { result ≡ first_said table.now }
{
    for (is_broken, rule) in table {
        if *is_broken {
            return Some(*rule);
        }
    }
    None
}

/// Whether there is no root pass, or its output is empty or does not begin at (0, 0).
fn is_bad_root(root: Option<&RenderPass>) -> bool
    ensures { result ≡ bad_root (option_copied root.entry) }
{
    let Some(pass) = root else {
        return true;
    };
    let output = &pass.output;
    output.is_empty() || output.x() > 0 || output.x() < 0 || output.y() > 0 || output.y() < 0
}

/// Looks at all passes of a frame.
fn search_passes(
    passes: &[RenderPass],
    by_id: &Places<RenderPass>,
    listed: &Places<Listing>,
) -> Found
    requires { by_id.now ≡ passes.now }
    ensures { result ≡ in_passes listed.now passes.now }
{
    let mut found = Found::NOTHING;
    for place in 0..passes.len() {
        let pass = &passes[place];
        let in_quads = search_quads(pass.quads.as_slice(), place, by_id, listed);
        found = found.join(in_quads);
        found.damage |= !pass.output.covers(&pass.damage);
    }
    found
}

/// Looks at the quads of the pass at index `place`.
fn search_quads(
    quads: &[DrawQuad],
    place: usize,
    by_id: &Places<RenderPass>,
    listed: &Places<Listing>,
) -> Found
    ensures { result ≡ in_quads (take place by_id.now) listed.now quads.now }
{
    let mut found = Found::NOTHING;
    for quad in quads {
        found = found.join(search_quad(quad, place, by_id, listed));
    }
    found
}

/// Looks at a quad of the pass at index `place`.
fn search_quad(
    quad: &DrawQuad,
    place: usize,
    by_id: &Places<RenderPass>,
    listed: &Places<Listing>,
) -> Found
    ensures { result ≡ in_quad (take place by_id.now) listed.now quad.now }
{
    let mut found = Found::NOTHING;
    found.visible = !quad.area.covers(&quad.visible);
    match &quad.material {
        Material::Solid(_) => {}
        Material::Tile { resource, tx, ty } => match listed.find(*resource) {
            None => found.unlisted = true,
            Some(listing) => found.outside = exceeds(&quad.area, *tx, *ty, listing),
        },
        Material::Surface { range, .. } => found.range = !range.is_good(),
        Material::Pass(id) => found.order = !by_id.has_before(*id, place),
    }
    found
}

/// Whether the last column or row of a tile lies outside the listed size.
fn exceeds(area: &Rect, tx: u16, ty: u16, listing: &Listing) -> bool
    ensures { result ≡ exceeds area.now tx ty listing.now }
{
    ends_outside(tx, area.w(), listing.w) || ends_outside(ty, area.h(), listing.h)
}

/// Whether a side that starts at texel `from` ends beyond a limit.
fn ends_outside(from: u16, side: i32, limit: u16) -> bool
    ensures { result ≡ int_lt (pos limit) (pos from +ℤ side) }
{
    i64::from(from) + i64::from(side) > i64::from(limit)
}

/// Whether a range starts after its end.
fn has_bad_range(ranges: &[SurfaceRange]) -> bool
    ensures { result ≡ list_any (λ range. not (is_good range)) ranges.now }
{
    for range in ranges {
        if !range.is_good() {
            return true;
        }
    }
    false
}

/// Whether a surface occurs twice.
fn has_repeat(surfaces: &[SurfaceId]) -> bool
    ensures { result ≡ has_repeat same_surface surfaces.now }
{
    for place in 0..surfaces.len() {
        if has_surface(&surfaces[place + 1..], &surfaces[place]) {
            return true;
        }
    }
    false
}

/// Whether one of them is this surface.
fn has_surface(surfaces: &[SurfaceId], surface: &SurfaceId) -> bool
    ensures { result ≡ list_any (same_surface surface.now) surfaces.now }
{
    for other in surfaces {
        if surface == other {
            return true;
        }
    }
    false
}
