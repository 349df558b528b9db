//! Sort keys of frames.
ghost use Rattle.std.specs.Prelude.{◌≡◌};
ghost use Rattle.vz_scene.specs.Order.{frame_key};

use crate::submitted::SubmittedFrame;
use vz_ids::SurfaceId;

/// The key of a frame: its surface and its number among the frames of that surface.
#[derive(PartialEq, Eq, PartialOrd, Ord, Drop)]
pub(crate) struct FrameKey {
    id: SurfaceId,
    index: u32,
}

/// The key of a submitted frame.
pub(crate) fn frame_key(submitted: &SubmittedFrame<'_>) -> FrameKey
    ensures { result ≡ frame_key submitted.now }
{
    FrameKey {
        id: submitted.id,
        index: submitted.index,
    }
}
