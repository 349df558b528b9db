//! The numbers of the calls of a device in memory, from 1 on.
ghost use Rattle.std.specs.Prelude.{◌≡◌, true, false, OnOk, OnErr, IfErr};
ghost use Rattle.vz_outside.specs.Faults.{one_more};
ghost use Rattle.vz_outside.specs.Numbered.{after_one_call, after_one_fault, is_failing, numbered_from_1};
ghost use Rattle.vz_outside.specs.declared.shelf.ShelfError.TheVariants.{Failed};

use crate::ShelfError;
use std::marker::Model;

/// Numbers calls from 1 on, makes those with chosen numbers fail, and counts the faults. After
/// 18,446,744,073,709,551,615 all calls have that number, and the count of faults does not rise
/// above it.
#[derive(Drop)]
pub struct Calls {
    failing: Vec<u64>,
    next: u64,
    faults: u64,
}

impl Model for Calls {
    ghost use Rattle.vz_outside.specs.Numbered.{Numbered};

    ghost Value = { Numbered };

    ghost view = { λ c. record { failing = c.failing.items; next = c.next; faults = c.faults } };
}

impl Calls {
    /// Starts before the first call. The calls with these numbers will fail.
    pub fn new(failing: Vec<u64>) -> Self
        ensures { result ≡ numbered_from_1 failing.items }
    {
        Calls {
            failing,
            next: 1,
            faults: 0,
        }
    }

    /// Makes the next call. It fails if its number is a failing one.
    pub fn pass(&mut self) -> Result<(), ShelfError>
        ensures passes { OnOk result (is_failing self.old ≡ false) }
        ensures ok { OnOk result (self.new ≡ after_one_call self.old) }
        ensures fails { OnErr result (is_failing self.old ≡ true) }
        ensures failed { OnErr result (self.new ≡ after_one_fault self.old) }
        ensures error { IfErr result (λ e. e ≡ Failed) }
    {
        let number = self.count();
        if self.failing.contains(&number) {
            return Err(self.fail());
        }
        Ok(())
    }

    /// Gives the next call its number.
    fn count(&mut self) -> u64
        ensures number { result ≡ self.old.next }
        ensures counted { self.new ≡ after_one_call self.old }
    {
        let number = self.next;
        self.next = number.saturating_add(1);
        number
    }

    /// Counts a fault, and returns the error for it.
    pub fn fail(&mut self) -> ShelfError
        ensures error { result ≡ Failed }
        ensures failed { self.new ≡ record self.old { faults = one_more self.old.faults } }
    {
        self.faults = self.faults.saturating_add(1);
        ShelfError::Failed
    }
}
