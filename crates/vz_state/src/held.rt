//! What is outstanding at the end of a run.
ghost use Rattle.std.specs.Prelude.{◌≡◌, ◌&&◌, ◌==◌, ◌++◌, not, IfOk, OnOk};
ghost use Rattle.std.specs.List.{flat_map, filter_map};
ghost use Rattle.vz_rules.specs.World.{Client as ClientState};
ghost use Rattle.vz_rules.specs.Log.{held_resource};

use crate::client::Client;
use crate::resource::Resource;
use crate::submission::Submission;
use std::alloc::{AllocError, Global};
use vz_rules::Returned;

impl<'a> Resource<'a> {
    /// The references of a resource that are lent and not returned, if there are any.
    fn held(&self, c: u32) -> Option<Returned>
        ensures { result ≡ held_resource c self.now }
    {
        if self.queued < self.lent {
            Some(Returned {
                client: c,
                id: self.id,
                count: self.lent - self.queued,
            })
        } else {
            None
        }
    }
}

/// Appends the references of a client that are lent and not returned, by resource id.
fn add_held(all: &mut Vec<Returned>, client: &Client<'_>) -> Result<(), AllocError>
    ensures { OnOk result (all.new.items
        ≡ all.old.items ++ filter_map (held_resource client.now.number) client.now.resources) }
{
    for resource in client.resources() {
        let Some(returned) = resource.held(client.number) else {
            continue;
        };
        all.push(returned)?;
    }
    Ok(())
}

/// The references that are lent and not returned, by client and resource id.
pub fn all_held(alloc: Global, clients: &[Client<'_>]) -> Result<Vec<Returned>, AllocError>
    ensures { IfOk result (λ v. v.items ≡ flat_map
        (λ (c : ClientState). filter_map (held_resource c.number) c.resources) clients.now) }
{
    let mut all = Vec::new(alloc);
    for client in clients {
        add_held(&mut all, client)?;
    }
    Ok(all)
}

impl<'a> Submission<'a> {
    /// Whether the submission is by this client and has no feedback yet.
    pub fn is_unfed(&self, c: u32) -> bool
        ensures { result ≡ ((self.now.submitted.sub.client == c) && not self.now.fed) }
    {
        self.sub().client == c && !self.fed
    }
}
