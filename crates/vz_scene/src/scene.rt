//! A linear search for frames on a surface or in a range.
ghost use Rattle.std.specs.Prelude.{◌≡◌, filter};
ghost use Rattle.std.specs.Option.{option_copied};
ghost use Rattle.vz_ids.specs.Ids.{same_surface};
ghost use Rattle.vz_rules.specs.World.{frame_on};
ghost use Rattle.vz_rules.specs.Scene.{in_range, after_start, newest, newer_frame};

use crate::submitted::SubmittedFrame;
use vz_ids::{SurfaceId, SurfaceRange};

impl<'a> SubmittedFrame<'a> {
    /// Whether the frame is in the range and in the group of its end.
    pub(crate) fn is_in(&self, range: &SurfaceRange) -> bool
        ensures { result ≡ in_range range.now self.now }
    {
        range.end.is_at_least(&self.id)
            && match range.start {
                None => true,
                Some(start) => !start.same_group(&range.end) || self.id.is_at_least(&start),
            }
    }

    /// Whether the frame is in the group of the range's start, and that is another group than the
    /// end's.
    pub(crate) fn is_after(&self, range: &SurfaceRange) -> bool
        ensures { result ≡ after_start range.now.start range.now.end self.now }
    {
        match range.start {
            None => false,
            Some(start) => !start.same_group(&range.end) && self.id.is_at_least(&start),
        }
    }

    /// Whether it is on this surface.
    pub(crate) fn is_of(&self, id: &SurfaceId) -> bool
        ensures { result ≡ same_surface self.now.id id.now }
    {
        self.id == *id
    }
}

/// The frame on a surface, if there is one.
pub(crate) fn frame_on<'b, 'a>(
    active: &'b [SubmittedFrame<'a>],
    id: &SurfaceId,
) -> Option<&'b SubmittedFrame<'a>>
    ensures { option_copied result ≡ frame_on id.now active.now }
{
    active.iter().find(|submitted| submitted.is_of(id))
}

/// The newer one of a frame and another of its group, if there is another.
fn newer_of<'b, 'a>(
    submitted: &'b SubmittedFrame<'a>,
    best: Option<&'b SubmittedFrame<'a>>,
) -> Option<&'b SubmittedFrame<'a>>
    ensures { option_copied result ≡ newer_frame submitted.now (option_copied best.entry) }
{
    match best {
        Some(other) => {
            if other.id.local.newer(&submitted.id.local) {
                Some(other)
            } else {
                Some(submitted)
            }
        }
        None => Some(submitted),
    }
}

/// The newest frame that is in the range and in the group of its end.
pub(crate) fn newest_in<'b, 'a>(
    active: &'b [SubmittedFrame<'a>],
    range: &SurfaceRange,
) -> Option<&'b SubmittedFrame<'a>>
    ensures { option_copied result ≡ newest (filter (in_range range.now) active.now) }
{
    let mut best: Option<&'b SubmittedFrame<'a>> = None;
    let mut k = active.len();
    while k > 0 {
        k -= 1;
        let submitted = &active[k];
        if submitted.is_in(range) {
            best = newer_of(submitted, best);
        }
    }
    best
}

/// The newest frame in the group of the range's start, if that is another group than the end's.
pub(crate) fn newest_after<'b, 'a>(
    active: &'b [SubmittedFrame<'a>],
    range: &SurfaceRange,
) -> Option<&'b SubmittedFrame<'a>>
    ensures { option_copied result
        ≡ newest (filter (after_start range.now.start range.now.end) active.now) }
{
    let mut best: Option<&'b SubmittedFrame<'a>> = None;
    let mut k = active.len();
    while k > 0 {
        k -= 1;
        let submitted = &active[k];
        if submitted.is_after(range) {
            best = newer_of(submitted, best);
        }
    }
    best
}
