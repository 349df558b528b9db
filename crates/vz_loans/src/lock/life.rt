//! Opens and closes a lock.
ghost use Rattle.std.specs.Prelude.{◌≡◌, ℕ, ◌+◌, ◌-◌, ◌<◌, ◌≤◌, [], ◌∷◌, length, Some, IfOk, IfErr, All, vec_len, vec_capacity};
ghost use Rattle.vz_loans.specs.declared.kept.TheConstants.{MOST_CALLERS};
ghost use Rattle.vz_loans.specs.Tokens.{unused, unused_from, IsAtRest, IsClosedBy, IsWhole, Covers, numbered};
ghost use Rattle.vz_loans.specs.Rule.{ready, places};

use super::{Lock, Token};
use crate::kept::Kept;
use crate::plays::{About, Cut, Glue};
use crate::view::View;
use atomic_table::{Refused, Seat, Table};
use std::alloc::Global;
use std::snapshot::Snapshot;
use std::sync::atomic::AtomicU64;

impl<K: Kept> Lock<K> {
    // Gives a token the smallest number that the seat keeps and no caller has.
    fn give(&self, seat: &mut Seat<Option<K>, View<K::Plan, K::Entry>>, number: u32) -> Token<K>
        requires lock { seat.old.table_id ≡ self.now.id }
        requires ready { seat.old.me ≡ ready seat.old.me.0.plan number }
        requires below { number < self.now.callers }
        requires planned { (p : K.Plan) × (seat.old.me.0.plan ≡ Some p) }
        ensures token { result ≡ unused self.now.id seat.old.me.0.plan number }
        ensures same { seat.new.table_id ≡ seat.old.table_id }
        ensures ready { seat.new.me ≡ ready seat.old.me.0.plan (number + 1) }
    {
        Token {
            seat: self.table.shared.split_seat::<Cut>(seat),
            number,
            ticket: 0,
        }
    }

    // Makes a token for each number from 1 on.
    fn deal(&self, seat: &mut Seat<Option<K>, View<K::Plan, K::Entry>>, tokens: &mut Vec<Token<K>>)
        requires lock { seat.old.table_id ≡ self.now.id }
        requires ready { seat.old.me ≡ ready seat.old.me.0.plan 1 }
        requires planned { (p : K.Plan) × (seat.old.me.0.plan ≡ Some p) }
        requires empty { tokens.old.items ≡ [] }
        requires room { vec_len tokens.old + self.now.callers ≤ vec_capacity tokens.old }
        ensures tokens { tokens.new.items
            ≡ unused_from self.now.id seat.old.me.0.plan 1 (self.now.callers - 1) }
        ensures room { vec_len tokens.new < vec_capacity tokens.new }
        ensures same { seat.new.table_id ≡ seat.old.table_id }
        ensures ready { seat.new.me ≡ ready seat.old.me.0.plan self.now.callers }
    {
        prove!(self.callers > 0);
        for number in 1..self.callers {
            tokens.push_reserved(self.give(seat, number));
        }
    }

    // Makes the tokens for all numbers of callers, in rising order. Token 0 keeps the numbers
    // that no caller has.
    fn deal_all(
        &self,
        mut seat: Seat<Option<K>, View<K::Plan, K::Entry>>,
        tokens: &mut Vec<Token<K>>,
    )
        requires lock { seat.table_id ≡ self.now.id }
        requires ready { seat.me ≡ ready seat.me.0.plan 1 }
        requires planned { (p : K.Plan) × (seat.me.0.plan ≡ Some p) }
        requires empty { tokens.old.items ≡ [] }
        requires room { vec_len tokens.old + self.now.callers ≤ vec_capacity tokens.old }
        ensures { tokens.new.items ≡ unused_from self.now.id seat.me.0.plan 0 self.now.callers }
    {
        prove!(self.callers > 0);
        self.deal(&mut seat, tokens);
        let first = Token {
            seat,
            number: 0,
            ticket: 0,
        };
        match tokens.insert(0, first) {
            Ok(()) => {}
            Err(_) => unreachable!(),
        }
    }

    /// Makes a lock with this state, and a token for each caller, with the numbers from 0 on, in
    /// rising order. If an allocation fails, the state comes back as the error. Conditions: the
    /// state has no entry, and there are 1 to `MOST_CALLERS` callers.
    pub fn open(alloc: Global, state: K, callers: u32) -> Result<(Lock<K>, Vec<Token<K>>), K>
        requires some { 0 < callers }
        requires few { callers ≤ MOST_CALLERS }
        requires empty { K.entries state ≡ [] }
        ensures lock { IfOk result (λ r. r.0.callers ≡ callers) }
        ensures tokens { IfOk result (λ r. r.1.items
            ≡ unused_from r.0.id (Some (K.plan state)) 0 callers) }
        ensures err { IfErr result (λ s. s ≡ state) }
    {
        let Ok(mut tokens) = Vec::with_capacity(alloc, callers as usize) else {
            return Err(state);
        };
        let Ok(mut slots) = Vec::with_capacity(alloc, 1) else {
            tokens.destroy_empty();
            return Err(state);
        };
        let about = About {
            state: Snapshot::of(&state),
            callers,
        };
        slots.push_reserved(Some(state));
        match Table::new(alloc, &[0, 0], slots, &about) {
            Ok((table, seat)) => {
                let lock = Lock {
                    table,
                    callers,
                    asleep: AtomicU64::new(0),
                };
                lock.deal_all(seat, &mut tokens);
                Ok((lock, tokens))
            }
            Err(Refused { mut slots }) => {
                tokens.destroy_empty();
                let Some(Some(state)) = slots.pop() else {
                    unreachable!()
                };
                slots.destroy_empty();
                Err(state)
            }
        }
    }

    // Joins the seats of all tokens into one seat.
    fn gather(&self, mut tokens: Vec<Token<K>>) -> Seat<Option<K>, View<K::Plan, K::Entry>>
        requires all { length tokens.items ≡ self.now.callers }
        requires ours { All (IsAtRest self.now.id) tokens.items }
        ensures lock { result.table_id ≡ self.now.id }
        ensures whole { IsWhole tokens.items result.me }
        ensures covers { All (Covers result.me.0) tokens.items }
    {
        prove!(self.callers > 0);
        let Some(first) = tokens.pop() else {
            unreachable!()
        };
        let Token {
            mut seat,
            number: _,
            ticket: _,
        } = first;
        while let Some(token) = tokens.pop() {
            let Token {
                seat: other,
                number: _,
                ticket: _,
            } = token;
            self.table.shared.join_seat::<Glue>(&mut seat, other);
        }
        tokens.destroy_empty();
        seat
    }

    /// Closes the lock and returns the state. It takes no memory. Condition: these are all tokens
    /// of this lock, in any order, and no caller is in its turn.
    pub fn close(self, tokens: Vec<Token<K>>) -> K
        requires all { length tokens.items ≡ self.callers }
        requires ours { All (IsAtRest self.id) tokens.items }
        ensures tokens { All (IsClosedBy (K.plan result) (K.entries result)) tokens.items }
        // No entry has a number that no token has.
        ensures others { (n : ℕ) → numbered n tokens.items ≡ 0 → places n (K.entries result) ≡ [] }
    {
        let seat = self.gather(tokens);
        let Lock {
            table,
            callers: _,
            asleep: _,
        } = self;
        let mut closed = table.close_with(seat);
        let state = closed.take(0);
        closed.free();
        match state {
            Some(state) => state,
            None => unreachable!(),
        }
    }
}
