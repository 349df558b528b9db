//! Tests whether surfaces are the same.
ghost use Rattle.std.specs.Prelude.{◌≡◌};
ghost use Rattle.std.specs.List.{list_any};
ghost use Rattle.vz_ids.specs.Ids.{same_surface};

use vz_ids::SurfaceId;

/// Whether two surfaces are the same.
pub(crate) fn is_same(a: &SurfaceId, b: &SurfaceId) -> bool
    ensures { result ≡ same_surface a.now b.now }
{
    a == b
}

/// Whether a list contains a surface.
pub(crate) fn has_surface(surfaces: &[SurfaceId], surface: &SurfaceId) -> bool
    ensures { result ≡ list_any (same_surface surface.now) surfaces.now }
{
    for other in surfaces {
        if is_same(surface, other) {
            return true;
        }
    }
    false
}
