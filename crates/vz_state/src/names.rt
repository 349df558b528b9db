//! Which surfaces are named by references, and which are shown.
ghost use Rattle.std.specs.Prelude.{◌≡◌, map, IfOk};
ghost use Rattle.std.specs.List.{filter_map};
ghost use Rattle.vz_state.specs.Naming.{is_named_by, shown_in};

use crate::surface::Surface;
use std::alloc::{AllocError, Global};
use vz_ids::{SurfaceId, SurfaceRange};
use vz_scene::{ActiveFrames, Newest};

/// The ends of ranges, in their order.
pub fn range_ends(alloc: Global, ranges: &[SurfaceRange]) -> Result<Vec<SurfaceId>, AllocError>
    ensures { IfOk result (λ v. v.items ≡ map (λ r. r.end) ranges.now) }
{
    ranges.iter().map(|range| range.end).collect(alloc)
}

impl Surface {
    /// Whether the surface exists, and one of the ends is it or a newer one of its group.
    fn is_named_by(&self, ends: &Newest) -> bool
        ensures { result ≡ is_named_by ends.now self.now }
    {
        !self.destroyed && ends.has(&self.id)
    }
}

/// For each surface, whether it exists and one of the ends is it or a newer one of its group.
pub fn named_flags(
    alloc: Global,
    surfaces: &[Surface],
    ends: &[SurfaceId],
) -> Result<Vec<bool>, AllocError>
    ensures { IfOk result (λ v. v.items ≡ map (is_named_by ends.now) surfaces.now) }
{
    let newest = Newest::of(alloc, ends)?;
    let mut flags = Vec::with_capacity(alloc, surfaces.len())?;
    for surface in surfaces {
        flags.push(surface.is_named_by(&newest))?;
    }
    Ok(flags)
}

/// The surface that a range shows.
fn shown(active: &ActiveFrames<'_, '_>, range: &SurfaceRange) -> Option<SurfaceId>
    ensures { result ≡ shown_in active.now range.now }
{
    match active.shown_frame(range) {
        Some(submitted) => Some(submitted.id()),
        None => None,
    }
}

/// The surfaces that ranges show, in the order of the ranges. A range that shows none adds
/// nothing.
pub fn all_shown(
    alloc: Global,
    active: &ActiveFrames<'_, '_>,
    ranges: &[SurfaceRange],
) -> Result<Vec<SurfaceId>, AllocError>
    ensures { IfOk result (λ v. v.items ≡ filter_map (shown_in active.now) ranges.now) }
{
    ranges
        .iter()
        .filter_map(|range| shown(active, range))
        .collect(alloc)
}
