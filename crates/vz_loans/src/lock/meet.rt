//! Lets one caller learn what another has seen.
ghost use Rattle.std.specs.Prelude.{◌≡◌, ◌⊎◌};
ghost use mathlib.Core.List.{IsPrefix};
ghost use Rattle.vz_loans.specs.Tokens.{IsAtRest, IsSameCaller, mine};

use super::{Lock, Token};
use crate::kept::Kept;
use crate::plays::{Compare, Glue, Note};

impl<K: Kept> Lock<K> {
    /// After the call, `to` has seen what both had seen before; `from` is unchanged. It waits for
    /// nobody, and takes no memory. Condition: both are tokens of this lock, and neither caller
    /// is in its turn.
    pub fn meet(&self, to: &mut Token<K>, from: &mut Token<K>)
        requires to { IsAtRest self.now.id to.old }
        requires from { IsAtRest self.now.id from.old }
        ensures rests { IsAtRest self.now.id to.new }
        ensures same { IsSameCaller to.old to.new }
        ensures from { from.new ≡ from.old }
        ensures one { (to.new.seen ≡ to.old.seen) ⊎ (to.new.seen ≡ from.old.seen) }
        ensures first { IsPrefix to.old.seen to.new.seen }
        ensures second { IsPrefix from.old.seen to.new.seen }
        ensures mine { mine to.new ≡ mine to.old }
    {
        let shared = &self.table.shared;
        let note = shared.split_seat::<Note>(&mut from.seat);
        shared.join_seat::<Glue>(&mut to.seat, note);
        shared.load::<Compare>(&mut to.seat, 0);
    }
}
