//! The resources of clients, and what changes them.
ghost use Rattle.std.specs.Prelude.{◌≡◌, ◌&&◌, ◌==◌, ◌++◌, ◌<◌, ◌≤◌, length, map, take, drop, slice_index_or, OnOk, OnErr};
ghost use Rattle.std.specs.List.{list_any};
ghost use Rattle.std.specs.Option.{option_copied};
ghost use Rattle.vz_base.specs.declared.limits.TheConstants.{MOST_MESSAGES};
ghost use Rattle.vz_pixels.specs.Block.{Block};
ghost use Rattle.vz_frame.specs.Frame.{lists};
ghost use Rattle.vz_rules.specs.World.{Resource as ResourceState, resource_in};
ghost use Rattle.vz_rules.specs.Messages.{put_resource, in_use, lend, is_unknown};
ghost use Rattle.vz_state.specs.Small.{AreSmallResources};

use std::alloc::AllocError;
use std::marker::Model;
use vz_frame::Listing;
use vz_pixels::PixelBlock;

/// A resource of a client: its block, and how many references were lent, returned and reclaimed.
#[derive(Drop)]
pub struct Resource<'a> {
    pub(crate) id: u32,
    pub(crate) block: &'a PixelBlock,
    pub(crate) lent: u32,
    pub(crate) queued: u32,
    pub(crate) reclaimed: u32,
}

impl<'a> Model for Resource<'a> {
    ghost use Rattle.vz_rules.specs.World.{Resource as ResourceState};

    ghost Value = { ResourceState };

    ghost view = { λ s. record {
      id = s.id;
      block = s.block.now;
      lent = s.lent;
      queued = s.queued;
      reclaimed = s.reclaimed;
    } };
}

impl<'a> Resource<'a> {
    /// Its id.
    pub fn id(&self) -> u32
        ensures { result ≡ self.now.id }
    {
        self.id
    }

    /// Its block.
    pub(crate) fn block(&self) -> &'a PixelBlock
        ensures { result.now ≡ self.now.block }
    {
        self.block
    }

    /// Whether its id and the size of its block are those of the listing.
    fn serves(&self, listing: &Listing) -> bool
        ensures { result ≡ ((self.now.id == listing.now.id)
            && (self.now.block.w == listing.now.w) && (self.now.block.h == listing.now.h)) }
    {
        self.id == listing.id
            && self.block.w() == u32::from(listing.w)
            && self.block.h() == u32::from(listing.h)
    }

    /// Lends a reference if the resource is listed. Condition: the count is within the limits.
    fn lend(&mut self, listings: &[Listing])
        requires { self.old.lent ≤ MOST_MESSAGES }
        ensures { self.new ≡ lend listings.now self.old }
    {
        if is_listed(self.id, listings) {
            self.lent += 1;
        }
    }

    /// Notes that the client reclaims what was returned.
    fn reclaim(&mut self)
        ensures { self.new ≡ record self.old { reclaimed = self.old.queued } }
    {
        self.reclaimed = self.queued;
    }

    /// Replaces the block.
    fn replace(&mut self, block: &'a PixelBlock)
        ensures { self.new ≡ record self.old { block = block.now } }
    {
        self.block = block;
    }
}

/// The resource with this id, if a block was ever stored for it.
pub(crate) fn resource_of<'b, 'a>(
    resources: &'b [Resource<'a>],
    id: u32,
) -> Option<&'b Resource<'a>>
    ensures { option_copied result ≡ resource_in id resources.now }
{
    resources.iter().find(|resource| resource.id == id)
}

/// Whether a resource is in use: more of its references were lent than its client has reclaimed.
pub fn in_use(resources: &[Resource<'_>], id: u32) -> bool
    ensures { result ≡ in_use resources.now id }
{
    match resource_of(resources, id) {
        None => false,
        Some(resource) => resource.reclaimed < resource.lent,
    }
}

/// Whether a resource is listed.
pub(crate) fn is_listed(id: u32, listings: &[Listing]) -> bool
    ensures { result ≡ list_any (lists id) listings.now }
{
    listings.iter().any(|listing| listing.id == id)
}

/// Whether a listing has no stored block of its size.
pub(crate) fn is_unknown(resources: &[Resource<'_>], listing: &Listing) -> bool
    ensures { result ≡ is_unknown resources.now listing.now }
{
    !resources.iter().any(|resource| resource.serves(listing))
}

/// Lends one reference for each listing. Condition: the counts are within the limits.
pub(crate) fn lend_all(resources: &mut [Resource<'_>], listings: &[Listing])
    requires { AreSmallResources resources.old }
    ensures { resources.new ≡ map (lend listings.now) resources.old }
{
    for k in 0..resources.len() {
        resources[k].lend(listings);
    }
}

/// Notes for each resource that the client reclaims what was returned.
pub(crate) fn reclaim_all(resources: &mut [Resource<'_>])
    ensures { resources.new
        ≡ map (λ (s : ResourceState). record s { reclaimed = s.queued }) resources.old }
{
    for k in 0..resources.len() {
        resources[k].reclaim();
    }
}

/// The place of the first resource whose id is not smaller than this.
fn place_for(resources: &[Resource<'_>], id: u32) -> usize
    ensures within { result ≤ length resources.now }
    ensures put { (block : Block) → put_resource id block resources.now
        ≡ take result resources.now ++ put_resource id block (drop result resources.now) }
    ensures not_smaller { (d : ResourceState) → result < length resources.now
        → id ≤ (slice_index_or resources.now result d).id }
{
    let mut k = 0;
    while k < resources.len() {
        if resources[k].id() >= id {
            return k;
        }
        k += 1;
    }
    k
}

/// Stores a block under an id. If it fails, nothing changes.
pub(crate) fn put<'a>(
    resources: &mut Vec<Resource<'a>>,
    id: u32,
    block: &'a PixelBlock,
) -> Result<(), AllocError>
    ensures ok { OnOk result (resources.new.items
        ≡ put_resource id block.now resources.old.items) }
    ensures err { OnErr result (resources.new.items ≡ resources.old.items) }
{
    let place = place_for(resources, id);
    if place < resources.len() && resources[place].id() == id {
        resources[place].replace(block);
        return Ok(());
    }
    resources.insert(
        place,
        Resource {
            id,
            block,
            lent: 0,
            queued: 0,
            reclaimed: 0,
        },
    )?;
    Ok(())
}
