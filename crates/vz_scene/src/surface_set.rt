//! A set of surfaces that is built step by step, with a fast lookup.
ghost use Rattle.std.specs.Prelude.{◌≡◌, [], ◌∷◌, OnOk};
ghost use Rattle.vz_ids.specs.Ids.{same_surface};
ghost use Rattle.vz_rules.specs.Closure.{adding};
ghost use Rattle.vz_rules.specs.Reach.{has_id};

use std::alloc::{AllocError, Global};
use std::collections::BTreeSet;
use std::marker::Model;
use vz_ids::SurfaceId;

/// A set of surfaces in the order in which they were added.
#[derive(Drop)]
pub struct SurfaceSet {
    list: Vec<SurfaceId>,
    set: BTreeSet<SurfaceId>,
}

impl Model for SurfaceSet {
    ghost use Rattle.std.specs.Prelude.{List};
    ghost use Rattle.vz_ids.specs.declared.SurfaceId.{SurfaceId};
    ghost use Rattle.vz_scene.specs.Gathered.{AreIn};

    ghost Value = { List SurfaceId };

    ghost view = { λ s. s.list.items };

    ghost invariant = { λ s. AreIn s.set s.list.items };
}

impl SurfaceSet {
    /// Creates an empty set.
    pub fn new(alloc: Global) -> SurfaceSet
        ensures { result ≡ [] }
    {
        SurfaceSet {
            list: Vec::new(alloc),
            set: BTreeSet::new(alloc),
        }
    }

    /// Whether the set has a surface.
    pub fn has(&self, id: &SurfaceId) -> bool
        ensures { result ≡ has_id self.now id.now }
    {
        self.set.contains(id)
    }

    /// Adds a surface, unless the set has it. The only error is a failed allocation.
    pub fn add(&mut self, id: &SurfaceId) -> Result<(), AllocError>
        ensures { OnOk result (self.new ≡ adding same_surface self.old (id.now ∷ [])) }
    {
        self.list.try_reserve(1)?;
        if !self.set.insert(*id)? {
            return Ok(());
        }
        self.list.push_reserved(*id);
        Ok(())
    }

    /// Adds the surfaces that the set does not have yet. The only error is a failed allocation.
    pub fn add_all(&mut self, ids: &[SurfaceId]) -> Result<(), AllocError>
        ensures { OnOk result (self.new ≡ adding same_surface self.old ids.now) }
    {
        for id in ids {
            self.add(id)?;
        }
        Ok(())
    }

    /// The surfaces, in the order in which they were added.
    pub fn as_slice(&self) -> &[SurfaceId]
        ensures { result.now ≡ self.now }
    {
        self.list.as_slice()
    }
}
