//! Active submissions with their surfaces.
ghost use Rattle.std.specs.Prelude.{◌≡◌};
ghost use Rattle.vz_surfaces.specs.Reading.{held_of, frame_at};

use crate::held::Held;
use std::marker::Model;
use vz_ids::SurfaceId;

/// A surface that exists, with its active submission.
#[derive(Drop)]
pub struct Seen<'a> {
    id: SurfaceId,
    held: &'a Held,
}

impl<'a> Model for Seen<'a> {
    ghost use Rattle.vz_rules.specs.World.{FrameData};
    ghost use Rattle.vz_surfaces.specs.Reading.{frame_at};

    ghost Value = { FrameData };

    ghost view = { λ s. frame_at s.id s.held.now };
}

impl<'a> Seen<'a> {
    /// Joins a surface and what is kept of its active submission.
    pub(crate) fn new(id: SurfaceId, held: &'a Held) -> Seen<'a>
        ensures { result ≡ frame_at id held.now }
    {
        Seen { id, held }
    }

    /// The id of the surface.
    pub fn id(&self) -> SurfaceId
        ensures { result ≡ self.now.id }
    {
        self.id
    }

    /// Its active submission.
    pub fn held(&self) -> &'a Held
        ensures { result.now ≡ held_of self.now }
    {
        self.held
    }
}
