//! Why a submission is refused.
ghost use Rattle.std.specs.Prelude.{◌≡◌};
ghost use Rattle.std.specs.List.{list_any};
ghost use Rattle.std.specs.Option.{option_copied};
ghost use Rattle.vz_rules.specs.Messages.{is_unknown, violates, is_last, has_other_size, submit_refusal};
ghost use Rattle.vz_frame.specs.Frame.{same_size};

use crate::resource::{Resource, is_unknown};
use crate::surface::Surface;
use vz_frame::{CompositorFrame, Listing, check};
use vz_geom::Size;
use vz_ids::LocalSurfaceId;
use vz_rules::Refusal;

/// Whether both sides of the sizes are equal.
fn is_same_size(a: Size, b: Size) -> bool
    ensures { result ≡ same_size a b }
{
    !(a.w < b.w) && !(b.w < a.w) && !(a.h < b.h) && !(b.h < a.h)
}

/// Whether the id is neither the last one of the client nor allowed after it.
fn violates(last: Option<&Surface>, local: &LocalSurfaceId) -> bool
    ensures { result ≡ violates (option_copied last.entry) local.now }
{
    match last {
        None => false,
        Some(surface) => surface.id.local != *local && !local.is_raised(&surface.id.local),
    }
}

/// Whether the id is that of the last created surface.
pub fn is_last(last: Option<&Surface>, local: &LocalSurfaceId) -> bool
    ensures { result ≡ is_last (option_copied last.entry) local.now }
{
    match last {
        None => false,
        Some(surface) => surface.id.local == *local,
    }
}

/// Whether the id is that of the last created surface, and that surface has another size.
fn has_other_size(last: Option<&Surface>, local: &LocalSurfaceId, frame: &CompositorFrame) -> bool
    ensures { result ≡ has_other_size (option_copied last.entry) local.now frame.now }
{
    match last {
        None => false,
        Some(surface) => surface.id.local == *local && !is_same_size(surface.size, frame.size()),
    }
}

/// Whether a listing has no stored block of its size.
fn has_unknown(resources: &[Resource<'_>], listings: &[Listing]) -> bool
    ensures { result ≡ list_any (is_unknown resources.now) listings.now }
{
    listings
        .iter()
        .any(|listing| is_unknown(resources, listing))
}

/// Why a submission is refused, or None if it is accepted.
pub fn submit_refusal(
    last: Option<&Surface>,
    resources: &[Resource<'_>],
    local: &LocalSurfaceId,
    frame: &CompositorFrame,
) -> Option<Refusal>
    ensures { result ≡ submit_refusal (option_copied last.entry) resources.now local.now frame.now }
{
    match check(frame) {
        Err(rule) => return Some(Refusal::Malformed(rule)),
        Ok(()) => {}
    }
    if has_unknown(resources, frame.resources.as_slice()) {
        return Some(Refusal::UnknownResource);
    }
    if violates(last, local) {
        return Some(Refusal::InvariantsViolation);
    }
    if has_other_size(last, local, frame) {
        return Some(Refusal::SizeMismatch);
    }
    None
}
