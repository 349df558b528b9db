//! Submissions that end.
ghost use Rattle.std.specs.Prelude.{◌≡◌};
ghost use Rattle.std.specs.Option.{option_copied, option_map};
ghost use Rattle.vz_surface_manager.specs.Flown.{flies};
ghost use Rattle.vz_surface_manager.specs.Ended_subs.{listings_of, ended_in, wanted_by};

use crate::Flight;
use vz_frame::Listing;
use vz_ids::Sub;
use vz_returns::Ended;
use vz_surfaces::Held;

/// The resources that a submission lists; none if there is no submission.
pub(crate) fn listings_of(held: Option<&Held>) -> &[Listing]
    ensures { result.now ≡ listings_of (option_copied held.entry) }
{
    match held {
        None => &[],
        Some(held) => held.frame.frame().resources.as_slice(),
    }
}

/// A submission that ends, and whether it is in the drawn frame.
pub(crate) fn ended_in(flight: &Option<Flight>, held: Option<&Held>) -> Option<Ended>
    ensures { result ≡ ended_in flight.now (option_copied held.entry) }
{
    match held {
        None => None,
        Some(held) => Some(Ended {
            sub: held.sub,
            in_flight: flies(flight, held),
        }),
    }
}

/// Whether a submission is in the drawn frame, if there is one.
fn flies(flight: &Option<Flight>, held: &Held) -> bool
    ensures { result ≡ flies flight.now held.now.sub }
{
    match flight {
        None => false,
        Some(flight) => flight.has(&held.sub),
    }
}

/// How many places among the references a waiting submission needs; 0 if there is no submission.
pub(crate) fn wanted_by(held: Option<&Held>) -> usize
    ensures { result ≡ wanted_by (option_copied held.entry) }
{
    match held {
        None => 0,
        Some(held) => held.frame.frame().metadata.references.as_slice().len() + 1,
    }
}

/// The client and ordinal of a submission, if there is one.
pub(crate) fn name_of(held: Option<&Held>) -> Option<Sub>
    ensures { result ≡ option_map (λ h. h.sub) (option_copied held.entry) }
{
    match held {
        None => None,
        Some(held) => Some(held.sub),
    }
}
