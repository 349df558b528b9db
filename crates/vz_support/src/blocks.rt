//! The pixel blocks that a client uploaded.
ghost use Rattle.std.specs.Prelude.{◌≡◌, ◌++◌, [], Some, None, ◌<◌, nat_eq, IfOk, OnOk};
ghost use Rattle.std.specs.List.{list_all};
ghost use Rattle.std.specs.Option.{option_copied, option_to_list};
ghost use Rattle.indexmap.specs.IndexMap.{insert_entry, spare as spare_of};
ghost use Rattle.vz_support.specs.Sent.{block_in, knows, blocks_in};

use indexmap::IndexMap;
use std::alloc::Global;
use vz_base::Memory;
use vz_frame::{List, Listing, ShortList};
use vz_pixels::PixelBlock;

/// The pixel blocks that a client uploaded, each under its resource id.
#[derive(Drop)]
pub(crate) struct Blocks {
    pub(crate) blocks: IndexMap<u32, PixelBlock>,
}

impl Blocks {
    /// Creates an empty store. It allocates nothing.
    pub(crate) fn new(alloc: Global) -> Blocks
        ensures { result.blocks.entries ≡ [] }
    {
        Blocks {
            blocks: IndexMap::new(alloc),
        }
    }

    /// Makes room for one more block. The only error is `Memory`, if an allocation fails.
    pub(crate) fn reserve(&mut self) -> Result<(), Memory>
        ensures entries { self.new.blocks.entries ≡ self.old.blocks.entries }
        ensures room { OnOk result (0 < spare_of self.new.blocks) }
    {
        self.blocks.reserve(1)?;
        Ok(())
    }

    /// Stores a block under an id, in place of an earlier one. Condition: there is room for one.
    pub(crate) fn put(&mut self, id: u32, block: PixelBlock)
        requires { 0 < spare_of self.old.blocks }
        ensures { self.new.blocks.entries ≡ insert_entry nat_eq self.old.blocks.entries id block }
    {
        self.blocks.insert(id, block).unwrap();
    }

    /// The block that is stored under an id, or None.
    pub(crate) fn get(&self, id: u32) -> Option<&PixelBlock>
        ensures { option_copied result ≡ block_in self.now.blocks.entries id }
    {
        self.blocks.get(&id)
    }

    /// Whether a block of the listing's size is stored under its id.
    fn knows(&self, listing: &Listing) -> bool
        ensures { result ≡ knows self.now.blocks.entries listing.now }
    {
        match self.get(listing.id) {
            None => false,
            Some(block) => {
                block.w() == u32::from(listing.w) && block.h() == u32::from(listing.h)
            }
        }
    }

    /// Whether a block of its size is stored for each listing.
    pub(crate) fn knows_all(&self, listings: &[Listing]) -> bool
        ensures { result ≡ list_all (knows self.now.blocks.entries) listings.now }
    {
        listings.iter().all(|listing| self.knows(listing))
    }

    /// The blocks of some listings, in their order. They are shared: no pixel is copied.
    pub(crate) fn listed(
        &self,
        alloc: Global,
        listings: &[Listing],
    ) -> Result<ShortList<PixelBlock>, Memory>
        ensures { IfOk result (λ list. list ≡ blocks_in self.now.blocks.entries listings.now) }
    {
        if listings.len() == 1 {
            return shared(self.get(listings[0].id));
        }
        let mut list = Vec::with_capacity(alloc, listings.len())?;
        for listing in listings {
            push_shared(&mut list, self.get(listing.id))?;
        }
        ShortList::from_list(alloc, List::from_vec(list))
    }
}

/// A list of this block alone, if there is one. It is shared: no pixel is copied.
fn shared(block: Option<&PixelBlock>) -> Result<ShortList<PixelBlock>, Memory>
    ensures { IfOk result (λ list. list ≡ option_to_list (option_copied block.entry)) }
{
    match block {
        None => Ok(ShortList::new()),
        Some(block) => Ok(ShortList::one(block.share()?)),
    }
}

/// Appends a block, if there is one. It is shared: no pixel is copied.
fn push_shared(list: &mut Vec<PixelBlock>, block: Option<&PixelBlock>) -> Result<(), Memory>
    ensures { OnOk result
        (list.new.items ≡ list.old.items ++ option_to_list (option_copied block.entry)) }
{
    match block {
        None => Ok(()),
        Some(block) => {
            list.push(block.share()?)?;
            Ok(())
        }
    }
}
