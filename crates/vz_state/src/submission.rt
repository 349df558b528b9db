//! Submissions that were accepted, and their state.
ghost use Rattle.std.specs.Prelude.{◌≡◌, ◌||◌, ◌++◌, map, OnOk, IfOk, [], ◌∷◌, false, if◌then◌else◌};
ghost use Rattle.vz_rules.specs.World.{is_active, is_waiting, is_on, active_frames, sub_of};
ghost use Rattle.vz_ids.specs.declared.SurfaceId.{SurfaceId as Surface};
ghost use Rattle.vz_scene.specs.Reached.{is_reached};
ghost use Rattle.vz_state.specs.Rising.{meets, IsMetBy};
ghost use Rattle.vz_rules.specs.declared.entry.State.TheVariants.{Waiting as Waits};

use std::alloc::{AllocError, Global};
use std::marker::Model;
use vz_frame::CompositorFrame;
use vz_ids::{Sub, SurfaceId};
use vz_rules::State;
use vz_scene::{Newest, SubmittedFrame};

/// An accepted submission.
#[derive(Drop)]
pub struct Submission<'a> {
    pub(crate) submitted: SubmittedFrame<'a>,
    pub(crate) due: u64,
    pub(crate) state: State,
    pub(crate) was_active: bool,
    pub(crate) fed: bool,
}

impl<'a> Model for Submission<'a> {
    ghost use Rattle.vz_rules.specs.World.{Submission as SubmissionState};

    ghost Value = { SubmissionState };

    ghost view = { λ r. record {
      submitted = r.submitted;
      due = r.due;
      state = r.state;
      was_active = r.was_active;
      fed = r.fed;
    } };
}

impl<'a> Submission<'a> {
    /// A new submission, which waits until its deadline `due` (a tick): it was never active and
    /// has no feedback.
    pub fn new(submitted: SubmittedFrame<'a>, due: u64) -> Submission<'a>
        ensures { result ≡ record {
          submitted = submitted.entry;
          due = due;
          state = Waits;
          was_active = false;
          fed = false;
        } }
    {
        Submission {
            submitted,
            due,
            state: State::Waiting,
            was_active: false,
            fed: false,
        }
    }

    /// Whether it waits to become active.
    pub fn is_waiting(&self) -> bool
        ensures { result ≡ is_waiting self.now }
    {
        match self.state {
            State::Waiting => true,
            _ => false,
        }
    }

    /// Whether it is active on its surface.
    pub fn is_active(&self) -> bool
        ensures { result ≡ is_active self.now }
    {
        match self.state {
            State::Active => true,
            _ => false,
        }
    }

    /// Whether it waits or is active.
    pub(crate) fn is_current(&self) -> bool
        ensures { result ≡ (is_waiting self.now || is_active self.now) }
    {
        match self.state {
            State::Waiting => true,
            State::Active => true,
            State::Past => false,
            State::Dropped => false,
        }
    }

    /// Whether it is on this surface.
    pub(crate) fn is_on(&self, id: &SurfaceId) -> bool
        ensures { result ≡ is_on id.now self.now }
    {
        self.submitted.id() == *id
    }

    /// Its client and ordinal.
    pub fn sub(&self) -> Sub
        ensures { result ≡ sub_of self.now }
    {
        self.submitted.sub()
    }

    /// The surface that it is on.
    pub fn id(&self) -> SurfaceId
        ensures { result ≡ self.now.submitted.id }
    {
        self.submitted.id()
    }

    /// Its number among the submissions that were accepted on the surface, from 1.
    pub fn index(&self) -> u32
        ensures { result ≡ self.now.submitted.index }
    {
        self.submitted.index()
    }

    /// Its frame.
    pub fn frame(&self) -> &'a CompositorFrame
        ensures { result.now ≡ self.now.submitted.frame }
    {
        self.submitted.frame()
    }

    /// The tick of its deadline, at which it becomes active even if dependencies are unmet.
    pub fn due(&self) -> u64
        ensures { result ≡ self.now.due }
    {
        self.due
    }
}

/// Adds the surface of a submission if the submission was ever active.
fn add_met(met: &mut Newest, submission: &Submission<'_>) -> Result<(), AllocError>
    ensures { (d : Surface) → OnOk result
        (is_reached met.new d ≡ (is_reached met.old d || meets d submission.now)) }
{
    if submission.was_active {
        met.add(&submission.id())?;
    }
    Ok(())
}

/// The surfaces on which a submission was ever active.
pub fn met_by(alloc: Global, submissions: &[Submission<'_>]) -> Result<Newest, AllocError>
    ensures { IfOk result (λ n. IsMetBy n submissions.now) }
{
    let mut met = Newest::new(alloc);
    for submission in submissions {
        add_met(&mut met, submission)?;
    }
    Ok(met)
}

/// Appends the frame of a submission if it is active.
fn add_active<'a>(
    alloc: Global,
    active: &mut Vec<SubmittedFrame<'a>>,
    submission: &Submission<'a>,
) -> Result<(), AllocError>
    ensures { OnOk result (active.new.items
        ≡ active.old.items ++ (if is_active submission.now then submission.now.submitted ∷ []
        else [])) }
{
    if submission.is_active() {
        active.push(submission.submitted.share()?)?;
    }
    Ok(())
}

/// The active frames, in the order of acceptance.
pub fn active_frames<'a>(
    alloc: Global,
    submissions: &[Submission<'a>],
) -> Result<Vec<SubmittedFrame<'a>>, AllocError>
    ensures { IfOk result (λ v. v.items ≡ active_frames submissions.now) }
{
    let mut active = Vec::new(alloc);
    for submission in submissions {
        add_active(alloc, &mut active, submission)?;
    }
    Ok(active)
}

/// The frames of all submissions, in the order of acceptance.
pub fn accepted_frames<'a>(
    alloc: Global,
    submissions: &[Submission<'a>],
) -> Result<Vec<SubmittedFrame<'a>>, AllocError>
    ensures { IfOk result (λ v. v.items ≡ map (λ s. s.submitted) submissions.now) }
{
    let mut frames = Vec::with_capacity(alloc, submissions.len())?;
    for submission in submissions {
        frames.push(submission.submitted.share()?)?;
    }
    Ok(frames)
}
