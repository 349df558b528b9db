//! The drawn frame.
ghost use Rattle.std.specs.Prelude.{◌≡◌, length};
ghost use Rattle.vz_rules.specs.World.{has_sub};
ghost use Rattle.vz_surface_manager.specs.Flown.{subs_of};
ghost use Rattle.vz_surface_manager.specs.Rosters.{IsRosterOf};

use crate::drawing::Drawing;
use crate::roster::Roster;
use std::marker::Model;
use vz_ids::Sub;

/// The submissions of a drawn frame, each with the resources that it lists. It holds these until
/// the frame is done, even if it is no longer active by then. Contracts see the submissions in
/// the order of acceptance.
#[derive(Drop)]
pub struct Flight {
    pub(crate) roster: Roster,
    pub(crate) drawing: Drawing,
}

impl Model for Flight {
    ghost use Rattle.std.specs.Prelude.{List as Row};
    ghost use Rattle.vz_surface_manager.specs.Flown.{Flown};
    ghost use Rattle.vz_surface_manager.specs.Rosters.{IsRosterOf};

    ghost Value = { Row Flown };

    ghost view = { λ f. f.drawing };

    ghost invariant = { λ f. IsRosterOf f.drawing f.roster };
}

impl Flight {
    /// Whether a submission is in the frame.
    pub fn has(&self, sub: &Sub) -> bool
        ensures { result ≡ has_sub (subs_of self.now) sub.now }
    {
        self.roster.has(sub)
    }

    /// How many submissions are in the frame.
    pub fn len(&self) -> usize
        ensures { result ≡ length self.now }
    {
        self.roster.len()
    }

    /// Its roster, for the room that it has.
    pub(crate) fn into_roster(self) -> Roster {
        let Flight { roster, .. } = self;
        roster
    }

    /// The submissions in the order in which the walk met them, each once, with what they list.
    pub fn roster(&self) -> &Roster
        ensures { IsRosterOf self.now result.now }
    {
        &self.roster
    }
}
