//! The lock and its tokens.
ghost use Rattle.std.specs.Prelude.{◌≡◌};

use crate::kept::Kept;
use crate::plays::{About, Ordered};
use crate::view::View;
use atomic_table::{Seat, Table};
use std::alloc::Global;
use std::marker::Model;
use std::sync::atomic::AtomicU64;

mod life;
mod meet;
mod queue;
mod turns;

/// A state that its callers use in turns.
pub struct Lock<K: Kept> {
    table: Table<Option<K>, View<K::Plan, K::Entry>, About<K>, Ordered<K>, Global>,
    callers: u32,
    // 1 if a caller may sleep that nobody was told to wake yet, and else 0.
    asleep: AtomicU64,
}

impl<K: Kept> Model for Lock<K> {
    ghost use Rattle.std.specs.Prelude.{◌≡◌, ◌<◌, ◌≤◌};
    ghost use Rattle.vz_loans.specs.declared.kept.TheConstants.{MOST_CALLERS};
    ghost use Rattle.vz_loans.specs.Tokens.{Turnstile};

    ghost Value = { Turnstile };

    ghost view = { λ l. record { id = l.table.shared.table_id; callers = l.callers } };

    ghost invariant = { λ l. (l.table.shared.table_id.words ≡ 2)
        × (l.table.shared.table_id.slots ≡ 1)
        × (l.table.shared.key.callers ≡ l.callers)
        × (0 < l.callers)
        × (l.callers ≤ MOST_CALLERS) };
}

/// The token of a caller of a lock.
#[derive(Drop)]
pub struct Token<K: Kept> {
    seat: Seat<Option<K>, View<K::Plan, K::Entry>>,
    number: u32,
    ticket: u64,
}

impl<K: Kept> Model for Token<K> {
    ghost use Rattle.vz_loans.specs.Rule.{IsHeld, is_inside};
    ghost use Rattle.vz_loans.specs.Tokens.{Caller};

    ghost Value = { Caller K.Plan K.Entry };

    ghost view = { λ t. record {
      lock = t.seat.table_id;
      plan = t.seat.me.0.plan;
      number = t.number;
      seen = t.seat.me.0.seen;
      inside = is_inside t.seat.me.0.stage;
    } };

    ghost invariant = { λ t. IsHeld t.number t.ticket t.seat.me };
}

impl<K: Kept> Token<K> {
    /// The caller's number.
    pub fn number(&self) -> u32
        ensures { result ≡ self.now.number }
    {
        self.number
    }
}
