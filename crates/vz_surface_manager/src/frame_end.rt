//! The drawn frame is done.
ghost use Rattle.std.specs.Prelude.{◌≡◌, ◌≤◌, ◌+◌, ◌++◌, [], length, None, Some, is_some, List};
ghost use Rattle.vz_ids.specs.declared.Sub.{Sub};
ghost use Rattle.vz_rules.specs.World.{World};
ghost use Rattle.vz_rules.specs.Returns.{returned_in, fed_in};
ghost use Rattle.vz_rules.specs.Ends.{landed, presenting};
ghost use Rattle.vz_returns.specs.Lent.{AreLent, NoneReleased, resources_out};
ghost use Rattle.vz_surface_manager.specs.Live.{AreLive};
ghost use Rattle.vz_surface_manager.specs.Frame_end.{IsFlying, IsLanding, flying_count};

use crate::Roster;
use crate::live::LiveSurfaces;
use vz_frame::Room;
use vz_returns::Lenders;
use vz_rules::{Fed, Returned};

impl LiveSurfaces {
    /// Whether there is a drawn frame that is not done yet.
    pub fn is_flying(&self) -> bool
        ensures { result ≡ is_some self.now.flight }
    {
        self.flight.is_some()
    }

    /// Ends the drawn frame: what its submissions held is released and returned, and they are
    /// presented. It allocates nothing. Conditions: there is a drawn frame, and `returned` and
    /// `fed` have room for all that may be returned and all feedback that may be given.
    pub fn land(&mut self, returned: &mut Room<Returned>, fed: &mut Room<Fed>)
        requires lands { (w : World) × (drawn : List Sub) × IsFlying w drawn self.old }
        requires room { resources_out self.old.lent ≤ returned.old.spare }
        requires places { length self.old.owed.owed.due + flying_count self.old.flight
            ≤ fed.old.spare }
        ensures live { (w : World) (drawn : List Sub) → IsFlying w drawn self.old
            → AreLive (presenting drawn (landed w)).world None self.new }
        ensures returned { (w : World) (drawn : List Sub) → IsFlying w drawn self.old
            → returned.new.list ≡ returned.old.list ++ returned_in (landed w) }
        ensures fed { (w : World) (drawn : List Sub) → IsFlying w drawn self.old
            → fed.new.list ≡ fed.old.list ++ fed_in drawn (landed w) }
        ensures released { NoneReleased self.new.lent }
        ensures rest { self.new ≡ record self.old {
          lent = self.new.lent;
          owed = self.new.owed;
          flight = None;
        } }
    {
        let Some(flight) = self.flight.take() else {
            unreachable!()
        };
        let roster = flight.roster();
        release_each(&mut self.lending, roster);
        self.lending.give_back(returned);
        self.feeding.present(roster.subs(), fed);
        self.idle = flight.into_roster();
    }
}

/// Each submission of the drawn frame releases what it lists.
fn release_each(lending: &mut Lenders, roster: &Roster)
    requires lands { (w : World) × IsLanding w roster.now lending.old }
    ensures lent { (w : World) → IsLanding w roster.now lending.old
        → AreLent (record w { in_flight = Some [] }) lending.new }
    ensures out { resources_out lending.new ≡ resources_out lending.old }
{
    for k in 0..roster.len() {
        let (sub, listings) = roster.get(k);
        lending.landed(sub.client, listings);
    }
}
