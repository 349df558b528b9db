//! The ranges that are set, as clauses see them. The type has no data at run time and allocates
//! nothing.
ghost use Rattle.std.specs.Prelude.{◌≡◌, []};
ghost use Rattle.vz_refs.specs.Referring.{removing};
ghost use Rattle.vz_refs.specs.Indexing.{opening, changing, one_more, but_last};

use std::marker::Model;
use std::snapshot::Snapshot;
use vz_ids::{SurfaceId, SurfaceRange};

/// The last change. A link is made for one change at a time and dropped after it.
#[derive(Drop)]
pub(crate) enum Changes {
    Nothing,
    Opened(SurfaceId, Snapshot<Changes>),
    Longer(SurfaceId, SurfaceRange, Snapshot<Changes>),
    Shorter(SurfaceId, Snapshot<Changes>),
    Removed(SurfaceId, Snapshot<Changes>),
}

/// The surfaces that have ranges set, in the order in which they were first set.
#[derive(Drop)]
pub(crate) struct Listing {
    changes: Snapshot<Changes>,
}

impl Model for Listing {
    ghost use Rattle.std.specs.Prelude.{List};
    ghost use Rattle.vz_refs.specs.Referring.{Ranged};
    ghost use Rattle.vz_refs.specs.Indexing.{listed};

    ghost Value = { List Ranged };

    ghost view = { λ a. listed a.changes.value };
}

impl Listing {
    /// A listing in which no surface is set.
    #[tactic(auto, unfolding(crate::specs::Indexing::listed))]
    pub(crate) fn new() -> Listing
        ensures { result ≡ [] }
    {
        Listing {
            changes: Snapshot::of(&Changes::Nothing),
        }
    }

    /// The listing after a surface is set without ranges.
    #[tactic(auto, unfolding(crate::specs::Indexing::listed))]
    pub(crate) fn opened(self, id: SurfaceId) -> Listing
        ensures { result ≡ opening id self }
    {
        let Listing { changes } = self;
        let more = Changes::Opened(id, changes);
        Listing {
            changes: Snapshot::of(&more),
        }
    }

    /// The listing after a surface has one range more, at the end.
    #[tactic(auto, unfolding(crate::specs::Indexing::listed))]
    pub(crate) fn longer(self, id: SurfaceId, range: SurfaceRange) -> Listing
        ensures { result ≡ changing (one_more range) id self }
    {
        let Listing { changes } = self;
        let more = Changes::Longer(id, range, changes);
        Listing {
            changes: Snapshot::of(&more),
        }
    }

    /// The listing after a surface has lost its last range.
    #[tactic(auto, unfolding(crate::specs::Indexing::listed))]
    pub(crate) fn shorter(self, id: SurfaceId) -> Listing
        ensures { result ≡ changing but_last id self }
    {
        let Listing { changes } = self;
        let more = Changes::Shorter(id, changes);
        Listing {
            changes: Snapshot::of(&more),
        }
    }

    /// The listing after a surface is removed.
    #[tactic(auto, unfolding(crate::specs::Indexing::listed))]
    pub(crate) fn removed(self, id: SurfaceId) -> Listing
        ensures { result ≡ removing id self }
    {
        let Listing { changes } = self;
        let more = Changes::Removed(id, changes);
        Listing {
            changes: Snapshot::of(&more),
        }
    }

    /// Sets a surface, without ranges so far.
    pub(crate) fn open(&mut self, id: SurfaceId)
        ensures { self.new ≡ opening id self.old }
    {
        let before = std::mem::replace(self, Listing::new());
        *self = before.opened(id);
    }

    /// Appends a range to those of a surface.
    pub(crate) fn lengthen(&mut self, id: SurfaceId, range: SurfaceRange)
        ensures { self.new ≡ changing (one_more range) id self.old }
    {
        let before = std::mem::replace(self, Listing::new());
        *self = before.longer(id, range);
    }

    /// Removes the last range of a surface.
    pub(crate) fn shorten(&mut self, id: SurfaceId)
        ensures { self.new ≡ changing but_last id self.old }
    {
        let before = std::mem::replace(self, Listing::new());
        *self = before.shorter(id);
    }

    /// Removes a surface.
    pub(crate) fn remove(&mut self, id: SurfaceId)
        ensures { self.new ≡ removing id self.old }
    {
        let before = std::mem::replace(self, Listing::new());
        *self = before.removed(id);
    }
}
