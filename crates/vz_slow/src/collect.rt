//! Garbage collection: the destruction of marked surfaces that are not reached.
ghost use Rattle.std.specs.Prelude.{◌≡◌, IfOk, OnOk};
ghost use Rattle.vz_rules.specs.Reach.{reach, lost_in, clearing, collect, destroyed_in};

use crate::world::World;
use std::alloc::AllocError;
use vz_rules::Lost;
use vz_scene::SurfaceSet;
use vz_state::{Surface, by_client, destroy_all, drop_all};

impl<'a> World<'a> {
    /// The surfaces that are lost. Condition: `kept` has exactly the surfaces that are reached.
    #[tactic(auto, unfolding(vz_rules::specs::Reach::lost_in))]
    fn lost(&self, kept: &SurfaceSet) -> Result<Vec<Surface>, AllocError>
        requires { kept.now ≡ reach self.now }
        ensures { IfOk result (λ v. v.items ≡ lost_in self.now) }
    {
        self.surfaces
            .iter()
            .filter(|surface| surface.is_lost(kept))
            .map(|surface| surface.copy())
            .collect(self.alloc)
    }

    /// Destroys the lost surfaces, and ends the submissions on them. Conditions: `kept` has
    /// exactly the surfaces that are reached, and `lost` those that are lost.
    fn clear(&mut self, kept: &SurfaceSet, lost: &[Surface])
        requires kept { kept.now ≡ reach self.old }
        requires lost { lost.now ≡ lost_in self.old }
        ensures { self.new ≡ clearing self.old }
    {
        destroy_all(&mut self.surfaces, kept);
        drop_all(&mut self.subs, lost);
    }

    /// Notes which surfaces are named, and then destroys the marked ones that are not reached.
    /// Returns these, by client and then in the order of creation.
    pub(crate) fn collect(&mut self) -> Result<Vec<Lost>, AllocError>
        ensures destroyed { IfOk result (λ v. v.items ≡ destroyed_in self.old) }
        ensures world { OnOk result (self.new ≡ collect self.old) }
    {
        self.name_all()?;
        let kept = self.reach()?;
        let lost = self.lost(&kept)?;
        let names = by_client(self.alloc, &self.clients, &lost)?;
        self.clear(&kept, &lost);
        Ok(names)
    }
}
