//! A visitor that gathers the submissions of a walk.
ghost use Rattle.std.specs.Prelude.{◌≡◌, []};
ghost use Rattle.vz_rules.specs.Walk.{walked_subs};
ghost use Rattle.vz_surfaces.specs.Keeping.{KeepsStored};
ghost use Rattle.vz_walk.specs.Scenes.{scene_in, walked_in};
ghost use Rattle.vz_surface_manager.specs.Flown.{subs_of};
ghost use Rattle.vz_surface_manager.specs.Rosters.{flown_from, met_in};

use crate::drawing::Drawing;
use crate::flight::Flight;
use crate::roster::Roster;
use vz_geom::{Rect, Size};
use vz_ids::{SurfaceId, SurfaceRange};
use vz_placement::Placement;
use vz_surfaces::{Seen, Store};
use vz_walk::Visitor;

/// A visitor that keeps the submissions whose surfaces a walk enters, each once, in the order in
/// which they are met.
#[derive(Drop)]
pub struct Flyer {
    roster: Roster,
}

impl Flyer {
    /// Creates a visitor that has met nothing, with a roster whose room it uses and whose
    /// submissions are dropped. It allocates nothing.
    pub fn new(mut roster: Roster) -> Flyer
        ensures { result.roster ≡ met_in [] }
    {
        roster.clear();
        Flyer { roster }
    }

    /// The submissions whose surfaces the walk entered, with what they list. Conditions: the
    /// store keeps its invariants, and the visitor met the whole walk from this root on a display
    /// of this size.
    pub fn flight(self, store: &Store, root: &SurfaceId, size: Size) -> Flight
        requires keeps { KeepsStored store.now }
        requires met { self.roster ≡ met_in (walked_in size root.now store.now) }
        ensures flown { result ≡ flown_from size root.now store.now }
        ensures subs { subs_of result
            ≡ walked_subs (scene_in root.now store.now) (walked_in size root.now store.now) }
    {
        let Flyer { roster } = self;
        Flight {
            roster,
            drawing: Drawing::of(store, root, &size),
        }
    }
}

impl Visitor for Flyer {
    ghost use Rattle.std.specs.Prelude.{◌≡◌};
    ghost use Rattle.vz_surface_manager.specs.Rosters.{met_in};

    ghost has_met = { λ _ f visits. f.roster ≡ met_in visits };

    ghost has_stopped = { λ f visits. Unit {0} };

    fn quad(&mut self) -> bool {
        true
    }

    fn shows(&mut self, _: &SurfaceRange, _: &Option<Seen<'_>>, _: &Rect) -> bool {
        true
    }

    fn enters(&mut self, _: u32, frame: &Seen<'_>, _: &Placement) -> bool {
        let held = frame.held();
        let listings = held.frame.frame().resources.as_slice();
        self.roster.note(held.sub, listings).is_ok()
    }
}
