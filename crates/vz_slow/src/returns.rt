//! Resources that are returned, and feedback.
ghost use Rattle.std.specs.Prelude.{◌≡◌, ◌≤◌, IfOk};
ghost use Rattle.vz_rules.specs.Returns.{give_back, returned_in, feed, fed_in};
ghost use Rattle.vz_state.specs.Outs.{all_outs, unfed, IsPutInto};

use crate::world::World;
use std::alloc::AllocError;
use vz_frame::Room;
use vz_ids::Sub;
use vz_rules::{Fed, Returned};
use vz_state::{Holders, feed_all, give_back_clients, outs_of, unfed_of};

impl<'a> World<'a> {
    /// Appends what is returned to the clients' queues, and reports it by client and rising id.
    /// Condition: there is room for all outstanding resources.
    pub(crate) fn give_back(&mut self, told: &mut Room<Returned>)
        requires { all_outs self.old.clients ≤ told.old.spare }
        ensures world { self.new ≡ give_back self.old }
        ensures told { IsPutInto told.old told.new (returned_in self.old) }
    {
        let holders = Holders::new(&self.subs, &self.surfaces, &self.in_flight);
        give_back_clients(&mut self.clients, &holders, told);
    }

    /// Gives feedback, and reports it in the order of acceptance. Condition: there is room for
    /// all submissions without feedback.
    pub(crate) fn feed(&mut self, presented: &[Sub], told: &mut Room<Fed>)
        requires { unfed self.old.subs ≤ told.old.spare }
        ensures world { self.new ≡ feed presented.now self.old }
        ensures told { IsPutInto told.old told.new (fed_in presented.now self.old) }
    {
        feed_all(&mut self.subs, &self.in_flight, presented, told);
    }

    /// How many resources of all clients have outstanding references. If the number does not fit
    /// a `usize`, that is a failed allocation, as there is no room for so many.
    pub(crate) fn outs(&self) -> Result<usize, AllocError>
        ensures { IfOk result (λ n. n ≡ all_outs self.now.clients) }
    {
        Ok(outs_of(&self.clients)?)
    }

    /// How many submissions have no feedback yet.
    pub(crate) fn unfed(&self) -> usize
        ensures { result ≡ unfed self.now.subs }
    {
        unfed_of(&self.subs)
    }
}
