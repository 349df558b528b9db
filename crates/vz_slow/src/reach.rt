//! Which surfaces are reached: from the root, and from each temporary surface.
ghost use Rattle.std.specs.Prelude.{◌≡◌, ◌∷◌, [], map, filter, length, IfOk};
ghost use Rattle.std.specs.List.{flat_map};
ghost use Rattle.vz_ids.specs.Ids.{same_surface};
ghost use Rattle.vz_rules.specs.World.{active_frames};
ghost use Rattle.vz_rules.specs.Closure.{closure};
ghost use Rattle.vz_rules.specs.Reach.{is_temporary, root_list, roots, referenced, reach};

use crate::world::World;
use std::alloc::{AllocError, Global};
use vz_base::limits::TEMPORARY_TICKS;
use vz_ids::SurfaceId;
use vz_scene::{ActiveFrames, SurfaceSet};
use vz_state::{Surface, active_frames, all_shown, exists, has_closed};

impl<'a> World<'a> {
    /// Whether a surface is temporary: it exists, was never named, its client is not closed, and
    /// fewer than `TEMPORARY_TICKS` begin-frames have come since it was created.
    fn is_temporary(&self, surface: &Surface) -> bool
        ensures { result ≡ is_temporary self.now surface.now }
    {
        !surface.is_destroyed()
            && !surface.is_named()
            && !has_closed(&self.clients, surface.client())
            && u64::from(self.tick) < u64::from(surface.born()) + u64::from(TEMPORARY_TICKS)
    }

    /// The temporary surfaces.
    fn temporary(&self) -> Result<Vec<SurfaceId>, AllocError>
        ensures { IfOk result (λ v. v.items
            ≡ map (λ c. c.id) (filter (is_temporary self.now) self.now.surfaces)) }
    {
        let mut ids = Vec::new(self.alloc);
        for surface in &self.surfaces {
            if self.is_temporary(surface) {
                ids.push(surface.id())?;
            }
        }
        Ok(ids)
    }

    /// The root, if it exists; otherwise none.
    fn root_list(&self) -> Result<SurfaceSet, AllocError>
        ensures { IfOk result (λ s. s ≡ root_list self.now) }
    {
        match self.root {
            None => Ok(SurfaceSet::new(self.alloc)),
            Some(id) => {
                if !exists(&self.surfaces, &id) {
                    return Ok(SurfaceSet::new(self.alloc));
                }
                Ok(one(self.alloc, id)?)
            }
        }
    }

    /// The root, if it exists, and each temporary surface.
    #[tactic(auto, unfolding(vz_rules::specs::Reach::roots))]
    fn roots(&self) -> Result<SurfaceSet, AllocError>
        ensures { IfOk result (λ s. s ≡ roots self.now) }
    {
        let mut ids = self.root_list()?;
        let others = self.temporary()?;
        ids.add_all(&others)?;
        Ok(ids)
    }

    /// The surfaces that the references of a surface's active frame show. Condition: `active` has
    /// the active frames.
    #[tactic(auto, unfolding(vz_rules::specs::Scene::shown))]
    fn referenced(
        &self,
        active: &ActiveFrames<'_, 'a>,
        id: &SurfaceId,
    ) -> Result<Vec<SurfaceId>, AllocError>
        requires { active.now ≡ active_frames self.now.subs }
        ensures { IfOk result (λ v. v.items ≡ referenced self.now id.now) }
    {
        match active.frame_on(id) {
            None => Ok(Vec::new(self.alloc)),
            Some(submitted) => Ok(all_shown(
                self.alloc,
                active,
                submitted.frame().metadata.references.as_slice(),
            )?),
        }
    }

    /// The same for several surfaces. Condition: `active` has the active frames.
    fn all_referenced(
        &self,
        active: &ActiveFrames<'_, 'a>,
        ids: &[SurfaceId],
    ) -> Result<Vec<SurfaceId>, AllocError>
        requires { active.now ≡ active_frames self.now.subs }
        ensures { IfOk result (λ v. v.items ≡ flat_map (referenced self.now) ids.now) }
    {
        let mut all = Vec::new(self.alloc);
        for id in ids {
            let mut some = self.referenced(active, id)?;
            all.append(&mut some)?;
        }
        Ok(all)
    }

    /// The reached surfaces. The references of each surface are looked up once, and the search
    /// ends at the first round that adds none. Condition: `active` has the active frames.
    fn reach_over(&self, active: &ActiveFrames<'_, 'a>) -> Result<SurfaceSet, AllocError>
        requires { active.now ≡ active_frames self.now.subs }
        ensures { IfOk result (λ s. s
            ≡ closure same_surface (referenced self.now) (length active.now) (roots self.now)) }
    {
        let mut ids = self.roots()?;
        let mut asked = 0;
        let mut left = active.as_slice().len();
        while left > 0 {
            left -= 1;
            let others = self.all_referenced(active, &ids.as_slice()[asked..])?;
            asked = ids.as_slice().len();
            ids.add_all(&others)?;
            if ids.as_slice().len() == asked {
                return Ok(ids);
            }
        }
        Ok(ids)
    }

    /// The reached surfaces.
    pub(crate) fn reach(&self) -> Result<SurfaceSet, AllocError>
        ensures { IfOk result (λ s. s ≡ reach self.now) }
    {
        let frames = active_frames(self.alloc, &self.subs)?;
        let active = ActiveFrames::new(self.alloc, &frames)?;
        Ok(self.reach_over(&active)?)
    }
}

/// A set of one surface.
fn one(alloc: Global, id: SurfaceId) -> Result<SurfaceSet, AllocError>
    ensures { IfOk result (λ s. s ≡ id ∷ []) }
{
    let mut ids = SurfaceSet::new(alloc);
    ids.add(&id)?;
    Ok(ids)
}
