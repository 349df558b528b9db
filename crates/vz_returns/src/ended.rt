//! Submissions that have ended.
ghost use Rattle.std.specs.Prelude.{◌≡◌};
ghost use Rattle.vz_returns.specs.Notes.{dropped_by};

use vz_ids::Sub;

/// A submission that ends: it was replaced as the active one, or was dropped.
#[derive(Clone, Copy, Debug, PartialEq, Eq)]
pub struct Ended {
    /// Its client and ordinal.
    pub sub: Sub,
    /// Whether it is in the drawn frame, so that it is presented when that frame is done.
    pub in_flight: bool,
}

/// The submission that gets feedback at once as it ends, or None if it is in the drawn frame or
/// there is none.
pub(crate) fn dropped_by(ended: Option<Ended>) -> Option<Sub>
    ensures { result ≡ dropped_by ended }
{
    match ended {
        None => None,
        Some(ended) => {
            if ended.in_flight {
                return None;
            }
            Some(ended.sub)
        }
    }
}
