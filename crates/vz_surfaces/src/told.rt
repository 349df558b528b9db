//! The history of a store, which only proofs see: every change that was made to it.
ghost use Rattle.std.specs.Prelude.{◌≡◌, ◌++◌, ◌∷◌, []};
ghost use Rattle.vz_surfaces.specs.declared.told.Told.TheVariants.{Accepted};

use vz_frame::{BoxedFrame, ShortList};
use vz_ghost::GhostList;
use vz_ids::{FrameSinkId, LocalSurfaceId, Sub, SurfaceId};
use vz_pixels::PixelBlock;

/// An accepted submission, as the history keeps it.
#[derive(Drop)]
pub(crate) struct Acceptance {
    pub(crate) client: u32,
    pub(crate) sink: FrameSinkId,
    pub(crate) local: LocalSurfaceId,
    pub(crate) frame: BoxedFrame,
    pub(crate) blocks: ShortList<PixelBlock>,
}

/// A change of a store, as the history keeps it.
#[derive(Drop)]
pub(crate) enum Told {
    Accepted(Acceptance),
    Activated(Sub),
    MarkedAll(u32),
    Destroyed(SurfaceId),
}

/// Adds an accepted submission to the history, and gives it back.
pub(crate) fn note(told: &mut GhostList<Told>, acceptance: Acceptance) -> Acceptance
    ensures told { told.new ≡ told.old ++ Accepted acceptance ∷ [] }
    ensures back { result ≡ acceptance }
{
    let change = Told::Accepted(acceptance);
    told.show(&change);
    match change {
        Told::Accepted(acceptance) => acceptance,
        _ => unreachable!(),
    }
}
