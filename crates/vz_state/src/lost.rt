//! Surfaces that are destroyed as nothing keeps them, and the submissions on them.
ghost use Rattle.std.specs.Prelude.{◌≡◌, ◌==◌, ◌++◌, map, if◌then◌else◌, Some, None, IfOk, OnOk};
ghost use Rattle.std.specs.List.{list_any, flat_map};
ghost use Rattle.vz_rules.specs.World.{is_on};
ghost use Rattle.vz_rules.specs.Reach.{is_lost, destroy, drop_on, lost_of};

use crate::client::Client;
use crate::submission::Submission;
use crate::surface::{Surface, surface_of};
use std::alloc::{AllocError, Global};
use vz_rules::{Lost, State};
use vz_scene::SurfaceSet;

impl Surface {
    /// Destroys the surface if it is marked and is not among those that are kept.
    fn destroy(&mut self, kept: &SurfaceSet)
        ensures { self.new ≡ destroy kept.now self.old }
    {
        if self.is_lost(kept) {
            self.destroyed = true;
        }
    }

    /// Whether the surface is lost: it is marked, exists, and is not among those that are kept.
    pub fn is_lost(&self, kept: &SurfaceSet) -> bool
        ensures { result ≡ is_lost kept.now self.now }
    {
        self.marked && !self.destroyed && !kept.has(&self.id)
    }

    /// If the surface is this client's: the client's number, and the surface's number among those
    /// that the client created.
    fn name_of(&self, c: u32) -> Option<Lost>
        ensures { result ≡ (if self.now.client == c
            then Some (record { client = self.now.client; surface = self.now.number }) else None) }
    {
        if self.client == c {
            Some(Lost {
                client: self.client,
                surface: self.number,
            })
        } else {
            None
        }
    }
}

/// Destroys each marked surface that is not kept.
pub fn destroy_all(surfaces: &mut [Surface], kept: &SurfaceSet)
    ensures { surfaces.new ≡ map (destroy kept.now) surfaces.old }
{
    for k in 0..surfaces.len() {
        surfaces[k].destroy(kept);
    }
}

/// Whether a submission is on one of these surfaces.
fn is_on_one(submission: &Submission<'_>, surfaces: &[Surface]) -> bool
    ensures { result ≡ list_any (λ c. is_on c.id submission.now) surfaces.now }
{
    surface_of(surfaces, submission).is_some()
}

impl<'a> Submission<'a> {
    /// Ends the submission if it is on one of these surfaces.
    fn drop_on(&mut self, lost: &[Surface])
        ensures { self.new ≡ drop_on lost.now self.old }
    {
        if self.is_current() && is_on_one(self, lost) {
            self.state = State::Dropped;
        }
    }
}

/// Ends the submissions on these surfaces.
pub fn drop_all(submissions: &mut [Submission<'_>], lost: &[Surface])
    ensures { submissions.new ≡ map (drop_on lost.now) submissions.old }
{
    for k in 0..submissions.len() {
        submissions[k].drop_on(lost);
    }
}

/// Appends the lost surfaces of a client, in the order of creation.
fn add_lost(all: &mut Vec<Lost>, lost: &[Surface], client: &Client<'_>) -> Result<(), AllocError>
    ensures { OnOk result (all.new.items ≡ all.old.items ++ lost_of lost.now client.now) }
{
    for surface in lost {
        let Some(name) = surface.name_of(client.number) else {
            continue;
        };
        all.push(name)?;
    }
    Ok(())
}

/// The lost surfaces, by client and then in the order of creation.
pub fn by_client(
    alloc: Global,
    clients: &[Client<'_>],
    lost: &[Surface],
) -> Result<Vec<Lost>, AllocError>
    ensures { IfOk result (λ v. v.items ≡ flat_map (lost_of lost.now) clients.now) }
{
    let mut all = Vec::new(alloc);
    for client in clients {
        add_lost(&mut all, lost, client)?;
    }
    Ok(all)
}
