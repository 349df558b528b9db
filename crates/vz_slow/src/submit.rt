//! Submissions: why one is refused, and what accepting one changes.
ghost use Rattle.std.specs.Prelude.{◌≡◌, ◌++◌, ◌∷◌, [], Some, map, ◌*◌, ◌≤◌, length, IfOk, OnOk};
ghost use Rattle.vz_base.specs.declared.limits.TheConstants.{MOST_FILES, MOST_MESSAGES};
ghost use Rattle.vz_ids.specs.declared.LocalSurfaceId.{LocalSurfaceId as Local};
ghost use Rattle.vz_rules.specs.World.{Client as ClientState, client_at, last_created};
ghost use Rattle.vz_rules.specs.Messages.{says, submit_refusal, id_of, blocks_of, new_submission, with_surface, replace_on, accepted, submit_answer};
ghost use Rattle.vz_placement.specs.Limits.{FitsFile};
ghost use Rattle.vz_state.specs.Small.{IsSmall};
ghost use Rattle.vz_slow.specs.Quiet.{IsOwn};

use crate::world::World;
use std::alloc::AllocError;
use vz_frame::CompositorFrame;
use vz_ids::{Sub, SurfaceId};
use vz_pixels::PixelBlock;
use vz_rules::{Refusal, Reply};
use vz_scene::SubmittedFrame;
use vz_state::{
    Change, Submission, Surface, count_created, count_of_client, count_on, is_last, last_created,
    number_after, replace_all,
};

impl<'a> World<'a> {
    /// A submission as it is accepted, with the pixel blocks of its listed resources.
    #[tactic(auto, unfolding(vz_rules::specs::Messages::new_submission))]
    fn new_submission(
        &self,
        c: u32,
        id: SurfaceId,
        blocks: Vec<&'a PixelBlock>,
        frame: &'a CompositorFrame,
    ) -> Result<Submission<'a>, AllocError>
        requires small { IsSmall self.now }
        requires fits { FitsFile frame.now }
        ensures { (x : ClientState) (local : Local) → x.number ≡ c → id_of x local ≡ id
            → map (λ b. b.now) blocks.entry.items ≡ blocks_of x.resources frame.now
            → IfOk result (λ r. r ≡ new_submission self.now x local frame.now) }
    {
        let ordinal = number_after(count_of_client(&self.subs, c));
        let index = number_after(count_on(&self.subs, &id));
        let sub = Sub { client: c, ordinal };
        let submitted = SubmittedFrame::new(self.alloc, id, sub, index, frame, blocks)?;
        let due = u64::from(self.tick) + u64::from(frame.metadata.deadline.unwrap_or(4));
        Ok(Submission::new(submitted, due))
    }

    /// Creates a surface, if the local id is not that of the client's last one.
    #[tactic(auto, unfolding(vz_rules::specs::Messages::with_surface))]
    fn add_surface(
        &mut self,
        c: u32,
        id: SurfaceId,
        frame: &CompositorFrame,
    ) -> Result<(), AllocError>
        requires { length self.old.surfaces ≤ MOST_FILES * MOST_MESSAGES }
        ensures { (x : ClientState) (local : Local) → x.number ≡ c → id_of x local ≡ id
            → OnOk result (self.new
            ≡ record self.old { surfaces = with_surface self.old x local frame.now }) }
    {
        if is_last(last_created(&self.surfaces, c), &id.local) {
            return Ok(());
        }
        let number = number_after(count_created(&self.surfaces, c));
        let size = frame.size();
        self.surfaces
            .push(Surface::new(c, number, id, size, self.tick))?;
        Ok(())
    }

    /// Adds the submission, which waits on its surface. One that waited there is replaced.
    fn add_submission(
        &mut self,
        id: &SurfaceId,
        submission: Submission<'a>,
    ) -> Result<(), AllocError>
        ensures { OnOk result (self.new
            ≡ record self.old {
              subs = map (replace_on id.now) self.old.subs ++ submission.entry
                  ∷ [];
            }) }
    {
        replace_all(&mut self.subs, id);
        self.subs.push(submission)?;
        Ok(())
    }

    /// Accepts a submission: it waits, and one that waited on its surface is dropped.
    fn accept(
        &mut self,
        c: u32,
        id: SurfaceId,
        blocks: Vec<&'a PixelBlock>,
        frame: &'a CompositorFrame,
    ) -> Result<Reply, AllocError>
        requires small { IsOwn self.old }
        requires fits { FitsFile frame.now }
        ensures { (x : ClientState) (local : Local) → client_at self.old c ≡ Some x
            → id_of x local ≡ id
            → map (λ b. b.now) blocks.entry.items ≡ blocks_of x.resources frame.now
            → IfOk result (λ r. says r self.new ≡ accepted self.old x local frame.now) }
    {
        let tick = self.tick;
        let submission = self.new_submission(c, id, blocks, frame)?;
        let ordinal = submission.sub().ordinal;
        let index = submission.index();
        self.add_surface(c, id, frame)?;
        self.add_submission(&id, submission)?;
        self.change(c, &Change::Submit { frame, tick })?;
        Ok(Reply::Accepted { ordinal, index })
    }

    /// Accepts a submission, or refuses it.
    pub(crate) fn submit(
        &mut self,
        c: u32,
        refusal: Option<Refusal>,
        id: SurfaceId,
        blocks: Vec<&'a PixelBlock>,
        frame: &'a CompositorFrame,
    ) -> Result<Reply, AllocError>
        requires small { IsOwn self.old }
        requires fits { FitsFile frame.now }
        ensures { (x : ClientState) (local : Local) → client_at self.old c ≡ Some x
            → refusal ≡ submit_refusal (last_created self.old x.number) x.resources local frame.now
            → id_of x local ≡ id
            → map (λ b. b.now) blocks.entry.items ≡ blocks_of x.resources frame.now
            → IfOk result (λ r. says r self.new ≡ submit_answer self.old x local frame.now) }
    {
        match refusal {
            Some(reason) => Ok(self.refuse(c, reason)?),
            None => Ok(self.accept(c, id, blocks, frame)?),
        }
    }
}
