//! The opening world, and what is outstanding at the end.
ghost use Rattle.std.specs.Prelude.{◌≡◌, ◌++◌, IfOk, OnOk};
ghost use Rattle.std.specs.List.{flat_map};
ghost use Rattle.vz_rules.specs.World.{opening};
ghost use Rattle.vz_rules.specs.Log.{unfed_of, rest_in};

use crate::world::World;
use std::alloc::{AllocError, Global};
use vz_frame::List;
use vz_ids::Sub;
use vz_rules::{Plan, Rest};
use vz_state::{Client, all_held, new_clients};

impl<'a> World<'a> {
    /// The world before the first step. The Over mark may be set already.
    #[tactic(auto, unfolding(vz_rules::specs::World::opening))]
    pub(crate) fn new(alloc: Global, plan: &Plan, over: bool) -> Result<World<'a>, AllocError>
        ensures { IfOk result (λ w. w ≡ record (opening plan.now) { over = over }) }
    {
        let clients = new_clients(alloc, plan.files())?;
        Ok(World {
            alloc,
            clients,
            surfaces: Vec::new(alloc),
            subs: Vec::new(alloc),
            tick: 0,
            root: None,
            relations: Vec::new(alloc),
            in_flight: None,
            last: None,
            over,
        })
    }

    /// Appends the submissions of a client that have no feedback yet, by ordinal.
    fn add_unfed(&self, client: &Client<'_>, unfed: &mut Vec<Sub>) -> Result<(), AllocError>
        ensures { OnOk result (unfed.new.items
            ≡ unfed.old.items ++ unfed_of self.now client.now) }
    {
        for submission in &self.subs {
            if submission.is_unfed(client.number()) {
                unfed.push(submission.sub())?;
            }
        }
        Ok(())
    }

    /// The submissions of these clients that have no feedback yet, by client and ordinal.
    fn all_unfed(&self, clients: &[Client<'_>]) -> Result<Vec<Sub>, AllocError>
        ensures { IfOk result (λ v. v.items ≡ flat_map (unfed_of self.now) clients.now) }
    {
        let mut all = Vec::new(self.alloc);
        for client in clients {
            self.add_unfed(client, &mut all)?;
        }
        Ok(all)
    }

    /// What is outstanding: references, by client and resource id, and submissions without
    /// feedback, by client and ordinal.
    #[tactic(auto, unfolding(vz_rules::specs::Log::rest_in))]
    pub(crate) fn rest(&self) -> Result<Rest, AllocError>
        ensures { IfOk result (λ r. r ≡ rest_in self.now) }
    {
        let held = all_held(self.alloc, &self.clients)?;
        let unfed = self.all_unfed(&self.clients)?;
        Ok(Rest {
            held: List::from_vec(held),
            unfed: List::from_vec(unfed),
        })
    }
}
