//! What was drawn, as clauses see it.
ghost use Rattle.std.specs.Prelude.{◌≡◌};
ghost use Rattle.vz_surface_manager.specs.Rosters.{flown_from};

use std::marker::Model;
use std::snapshot::Snapshot;
use vz_geom::Size;
use vz_ids::SurfaceId;
use vz_surfaces::Store;

/// The submissions whose surfaces the walk over a store enters, in the order of acceptance. The
/// type has no data at run time.
#[derive(Drop)]
pub(crate) struct Drawing {
    store: Snapshot<Store>,
    root: Snapshot<SurfaceId>,
    size: Snapshot<Size>,
}

impl Model for Drawing {
    ghost use Rattle.std.specs.Prelude.{List as Row};
    ghost use Rattle.vz_surface_manager.specs.Flown.{Flown};
    ghost use Rattle.vz_surface_manager.specs.Rosters.{flown_from};

    ghost Value = { Row Flown };

    ghost view = { λ d. flown_from d.size.value d.root.value d.store.value };
}

impl Drawing {
    /// The value for a store as it is now, a root, and a display of this size.
    pub(crate) fn of(store: &Store, root: &SurfaceId, size: &Size) -> Drawing
        ensures { result ≡ flown_from size.now root.now store.now }
    {
        Drawing {
            store: Snapshot::of(store),
            root: Snapshot::of(root),
            size: Snapshot::of(size),
        }
    }
}
