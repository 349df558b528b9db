//! The beginning and the end of a turn.
ghost use Rattle.std.specs.Prelude.{◌≡◌, ◌+◌, ◌++◌, ◌∷◌, [], true, false, Some, length};
ghost use mathlib.Core.List.{IsPrefix};
ghost use Rattle.vz_loans.specs.Tokens.{mine, IsSameCaller, MayLeave};
ghost use Rattle.vz_loans.specs.Rule.{HasTurn, MayEnter};

use super::{Lock, Token};
use crate::kept::Kept;
use crate::plays::{End, Look, Take};
use crate::view::View;
use atomic_table::Seat;
use std::sync::Wait;

impl<K: Kept> Lock<K> {
    // Takes a ticket, and waits until its turn comes.
    fn wait<R: Wait>(&self, rt: &R, seat: &mut Seat<Option<K>, View<K::Plan, K::Entry>>) -> u64
        requires lock { seat.old.table_id ≡ self.now.id }
        requires idle { MayEnter seat.old.me }
        ensures same { (seat.new.table_id ≡ seat.old.table_id) × (seat.new.id ≡ seat.old.id) }
        ensures turn { HasTurn K.plan K.entries seat.old.me result seat.new.me }
    {
        let shared = &self.table.shared;
        self.approach(rt);
        let ticket = shared.fetch_add::<Take>(seat, 0, 1);
        for _ in rt.forever() {
            if shared.load::<Look<K>>(seat, 1) == ticket {
                return ticket;
            }
            self.pause();
        }
        unreachable!()
    }

    /// Waits for the caller's turn, and takes the state out of the lock. Condition: the token is
    /// this lock's, and its caller is not in its turn.
    pub fn enter<R: Wait>(&self, rt: &R, token: &mut Token<K>) -> K
        requires lock { token.old.lock ≡ self.now.id }
        requires outside { token.old.inside ≡ false }
        ensures same { IsSameCaller token.old token.new }
        ensures inside { token.new.inside ≡ true }
        ensures plan { token.new.plan ≡ Some (K.plan result) }
        ensures seen { token.new.seen ≡ K.entries result }
        ensures later { IsPrefix token.old.seen token.new.seen }
        ensures mine { mine token.new ≡ mine token.old }
    {
        token.ticket = self.wait(rt, &mut token.seat);
        match self.table.shared.exchange(&mut token.seat, 0, None) {
            Some(state) => state,
            None => unreachable!(),
        }
    }

    /// Puts the state back, and ends the turn. Conditions: the token is this lock's, and its
    /// caller is in its turn; the plan is unchanged; and the entries are those that the caller
    /// found, possibly with one more with this token's number.
    pub fn leave(&self, token: &mut Token<K>, state: K)
        requires lock { token.old.lock ≡ self.now.id }
        requires inside { token.old.inside ≡ true }
        requires plan { token.old.plan ≡ Some (K.plan state) }
        requires entries { MayLeave token.old (K.entries state) }
        ensures same { IsSameCaller token.old token.new }
        ensures outside { token.new.inside ≡ false }
        ensures seen { token.new.seen ≡ K.entries state }
        ensures none { K.entries state ≡ token.old.seen → mine token.new ≡ mine token.old }
        ensures one { (e : K.Entry) → K.entries state ≡ token.old.seen ++ (token.old.number, e) ∷ []
            → mine token.new ≡ mine token.old ++ (length token.old.seen + 1) ∷ [] }
    {
        let shared = &self.table.shared;
        match shared.exchange(&mut token.seat, 0, Some(state)) {
            None => {}
            Some(_) => unreachable!(),
        }
        let raised = self.lower();
        shared.store::<End<K>>(&mut token.seat, 1, token.ticket.wrapping_add(1));
        self.wake_next(raised);
    }
}
