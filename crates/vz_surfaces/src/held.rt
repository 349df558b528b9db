//! What the store keeps of a submission, and what its calls return.
use crate::named::NamedFrame;
use vz_frame::ShortList;
use vz_ids::Sub;
use vz_pixels::PixelBlock;
use vz_rules::Lost;

/// A submission that is waiting or active, with what came with it.
#[derive(Drop)]
pub struct Held {
    /// Its client and ordinal.
    pub sub: Sub,
    /// Its number among the submissions on its surface, from 1 on.
    pub index: u32,
    /// Its frame, with the places to which the names in its quads lead.
    pub frame: NamedFrame,
    /// The pixel block of each listed resource of the frame, in the order of the listings.
    pub blocks: ShortList<PixelBlock>,
}

/// What the store returns for an accepted submission.
#[derive(Drop)]
pub struct Taken {
    /// Its client and ordinal.
    pub sub: Sub,
    /// Its number among the submissions on its surface, from 1 on.
    pub index: u32,
    /// The submission that was waiting on the surface and is dropped now, or None. It is moved
    /// out.
    pub replaced: Option<Held>,
}

/// What ended as a surface was destroyed.
#[derive(Clone, Copy, Debug, PartialEq, Eq)]
pub struct Gone {
    /// The surface, by its client and its number among those that the client created.
    pub lost: Lost,
    /// The submission that was waiting on it, or None.
    pub waiting: Option<Sub>,
    /// The submission that was active on it, or None.
    pub active: Option<Sub>,
}
