//! The surface on which each submission waits, with its key in the table.
ghost use Rattle.std.specs.Prelude.{◌≡◌, ◌≤◌, ◌<◌, Some, None, if◌then◌else◌, OnOk};
ghost use Rattle.indexmap.specs.IndexMap.{spare as spare_of};
ghost use Rattle.vz_ids.specs.declared.Sub.{Sub as Name};
ghost use Rattle.vz_surfaces.specs.Memory.{is_name, link_on};

use crate::groups::Link;
use indexmap::IndexMap;
use std::alloc::Global;
use vz_base::Memory;
use vz_ids::Sub;

/// The surfaces of the submissions that wait.
#[derive(Drop)]
pub(crate) struct Waits {
    surfaces: IndexMap<Sub, Link>,
}

impl Waits {
    /// Creates an empty map. It allocates nothing.
    pub(crate) fn new(alloc: Global) -> Waits
        ensures { (q : Name) → link_on result q ≡ None }
    {
        Waits {
            surfaces: IndexMap::new(alloc),
        }
    }

    /// Makes room for one more submission.
    pub(crate) fn reserve(&mut self) -> Result<(), Memory>
        ensures entries { self.new.surfaces.entries ≡ self.old.surfaces.entries }
        ensures room { OnOk result (0 < spare_of self.new.surfaces) }
    {
        self.surfaces.reserve(1)?;
        Ok(())
    }

    /// The surface on which a submission waits, or None.
    pub(crate) fn get(&self, sub: &Sub) -> Option<Link>
        ensures { result ≡ link_on self.now sub.now }
    {
        self.surfaces.get(sub).copied()
    }

    /// Adds a submission that waits. Condition: there is room for one.
    pub(crate) fn put(&mut self, sub: Sub, link: Link)
        requires { 0 < spare_of self.old.surfaces }
        ensures { (q : Name) → link_on self.new q
            ≡ (if is_name sub q then Some link else link_on self.old q) }
    {
        self.surfaces.insert(sub, link).unwrap();
    }

    /// Removes a submission that waits, and returns its surface, or None if it does not wait.
    pub(crate) fn take(&mut self, sub: &Sub) -> Option<Link>
        ensures found { result ≡ link_on self.old sub.now }
        ensures others { (q : Name)
            → link_on self.new q ≡ (if is_name sub.now q then None else link_on self.old q) }
    {
        self.surfaces.swap_remove(sub)
    }

    /// Removes a submission, if one is given.
    pub(crate) fn remove(&mut self, sub: Option<Sub>)
        ensures none { sub ≡ None → self.new ≡ self.old }
        ensures others { (s : Name) → sub ≡ Some s → (q : Name)
            → link_on self.new q ≡ (if is_name s q then None else link_on self.old q) }
        ensures room { spare_of self.old.surfaces ≤ spare_of self.new.surfaces }
    {
        if let Some(sub) = sub {
            self.surfaces.swap_remove(&sub);
        }
    }
}
