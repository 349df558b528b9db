//! The part of the display that a surface covers.
ghost use Rattle.std.specs.Prelude.{◌≡◌};
ghost use Rattle.vz_rules.specs.Kept.{IsWhole};
ghost use Rattle.vz_placement.specs.Limits.{HasRoom};
ghost use Rattle.vz_flat.specs.Parts.{surface_place};
ghost use Rattle.vz_flat.specs.Flat.{present_place};

use vz_ids::SurfaceRange;
use vz_placement::{Placement, frame_rect, moved};
use vz_surfaces::Seen;

/// The place of a surface, in the part of the display that it covers.
pub(crate) fn surface_place(seen: &Seen<'_>, place: &Placement) -> Placement
    requires whole { IsWhole seen.now }
    requires room { HasRoom 0 place.now.shift }
    ensures { result ≡ surface_place seen.now place.now }
{
    let size = frame_rect(seen.held().frame.frame());
    let part = moved(&size, place.shift());
    place.within(&part)
}

/// The place of a shown surface, in the part of the display in which it has content.
#[tactic(auto, unfolding(crate::specs::Flat::present_place))]
pub(crate) fn present_place(range: &SurfaceRange, seen: &Seen<'_>, place: &Placement) -> Placement
    requires whole { IsWhole seen.now }
    requires room { HasRoom 0 place.now.shift }
    ensures { result ≡ present_place range.now seen.now place.now }
{
    if seen.id() == range.end {
        surface_place(seen, place)
    } else {
        *place
    }
}
