//! What the acceptance of a submission counts, replaces and stores.
ghost use Rattle.std.specs.Prelude.{◌≡◌, ◌==◌, ◌+◌, ◌*◌, ◌++◌, ◌≤◌, map, OnOk, IfOk, [], count_by};
ghost use Rattle.vz_base.specs.declared.limits.TheConstants.{MOST_FILES, MOST_MESSAGES};
ghost use Rattle.vz_rules.specs.World.{Resource as ResourceState, resource_in, is_on};
ghost use Rattle.std.specs.List.{cons_option};
ghost use Rattle.std.specs.Option.{option_map};
ghost use Rattle.vz_rules.specs.Messages.{blocks_of, replace_on};

use crate::resource::{Resource, resource_of};
use crate::submission::Submission;
use crate::surface::Surface;
use std::alloc::{AllocError, Global};
use vz_frame::{CompositorFrame, Listing};
use vz_ids::SurfaceId;
use vz_pixels::PixelBlock;
use vz_rules::State;

/// The number after this count. Condition: the count is within the limits of a plan.
pub fn number_after(count: usize) -> u32
    requires { count ≤ MOST_FILES * MOST_MESSAGES }
    ensures { result ≡ count + 1 }
{
    count as u32 + 1
}

/// How many submissions of a client were accepted.
pub fn count_of_client(submissions: &[Submission<'_>], c: u32) -> usize
    ensures { result ≡ count_by (λ s. s.submitted.sub.client == c) submissions.now }
{
    submissions
        .iter()
        .filter(|submission| submission.sub().client == c)
        .count()
}

/// How many submissions were accepted on a surface.
pub fn count_on(submissions: &[Submission<'_>], id: &SurfaceId) -> usize
    ensures { result ≡ count_by (is_on id.now) submissions.now }
{
    submissions
        .iter()
        .filter(|submission| submission.is_on(id))
        .count()
}

/// How many surfaces a client created.
pub fn count_created(surfaces: &[Surface], c: u32) -> usize
    ensures { result ≡ count_by (λ s. s.client == c) surfaces.now }
{
    surfaces
        .iter()
        .filter(|surface| surface.client == c)
        .count()
}

impl<'a> Submission<'a> {
    /// If the submission waits on this surface, it is replaced.
    fn replace(&mut self, id: &SurfaceId)
        ensures { self.new ≡ replace_on id.now self.old }
    {
        if self.is_waiting() && self.is_on(id) {
            self.state = State::Dropped;
        }
    }
}

/// Replaces the submission that waits on this surface, if there is one.
pub fn replace_all(submissions: &mut [Submission<'_>], id: &SurfaceId)
    ensures { submissions.new ≡ map (replace_on id.now) submissions.old }
{
    for k in 0..submissions.len() {
        submissions[k].replace(id);
    }
}

/// Appends the block of a resource, if one was ever stored.
fn add_block<'a>(
    blocks: &mut Vec<&'a PixelBlock>,
    resources: &[Resource<'a>],
    listing: &Listing,
) -> Result<(), AllocError>
    ensures { OnOk result (map (λ b. b.now) blocks.new.items
        ≡ map (λ b. b.now) blocks.old.items
        ++ cons_option (option_map
        (λ (s : ResourceState). s.block) (resource_in listing.now.id resources.now)) []) }
{
    match resource_of(resources, listing.id) {
        None => Ok(()),
        Some(resource) => {
            blocks.push(resource.block())?;
            Ok(())
        }
    }
}

/// The blocks that the listings name now, in the order of the listings.
pub fn blocks_of<'a>(
    alloc: Global,
    resources: &[Resource<'a>],
    frame: &CompositorFrame,
) -> Result<Vec<&'a PixelBlock>, AllocError>
    ensures { IfOk result (λ v. map (λ b. b.now) v.items ≡ blocks_of resources.now frame.now) }
{
    let mut blocks = Vec::new(alloc);
    for listing in frame.resources.as_slice() {
        add_block(&mut blocks, resources, listing)?;
    }
    Ok(blocks)
}
