//! Which surfaces are named: those that an active submission on an existing surface references.
ghost use Rattle.std.specs.Prelude.{◌≡◌, IfOk, OnOk};
ghost use Rattle.std.specs.List.{flat_map};
ghost use Rattle.vz_rules.specs.Reach.{naming};
ghost use Rattle.vz_state.specs.Naming.{ends_of};

use crate::world::World;
use std::alloc::AllocError;
use vz_ids::SurfaceId;
use vz_state::{Submission, exists, name_by, named_flags, range_ends};

impl<'a> World<'a> {
    /// The ends of the ranges that a submission references, if it is active and its surface
    /// exists; otherwise none.
    fn ends_of(&self, submission: &Submission<'_>) -> Result<Vec<SurfaceId>, AllocError>
        ensures { IfOk result (λ v. v.items ≡ ends_of self.now submission.now) }
    {
        let references = submission.frame().metadata.references.as_slice();
        if submission.is_active() && exists(&self.surfaces, &submission.id()) {
            return Ok(range_ends(self.alloc, references)?);
        }
        Ok(Vec::new(self.alloc))
    }

    /// The ends of the ranges that active submissions on existing surfaces reference.
    fn ends(&self, submissions: &[Submission<'_>]) -> Result<Vec<SurfaceId>, AllocError>
        ensures { IfOk result (λ v. v.items ≡ flat_map (ends_of self.now) submissions.now) }
    {
        let mut all = Vec::new(self.alloc);
        for submission in submissions {
            let mut some = self.ends_of(submission)?;
            all.append(&mut some)?;
        }
        Ok(all)
    }

    /// Notes each existing surface that is named now as named, which it stays.
    pub(crate) fn name_all(&mut self) -> Result<(), AllocError>
        ensures { OnOk result (self.new ≡ naming self.old) }
    {
        let ends = self.ends(&self.subs)?;
        let flags = named_flags(self.alloc, &self.surfaces, &ends)?;
        name_by(&mut self.surfaces, &flags);
        Ok(())
    }
}
