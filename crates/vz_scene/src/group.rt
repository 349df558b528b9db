//! The frames of one group. The newest one up to a surface is found fast.
ghost use Rattle.std.specs.Prelude.{◌≡◌, ◌++◌, ◌∷◌, [], ◌≤◌, length, true, false, IsTrue, OnOk};
ghost use Rattle.std.specs.Option.{option_copied};
ghost use Rattle.std.specs.List.Sorted.{IsPartitionPoint};
ghost use Rattle.vz_ids.specs.Ids.{at_least};
ghost use Rattle.vz_rules.specs.World.{FrameData};
ghost use Rattle.vz_scene.specs.Groups.{is_newer, IsChain, FindsNewest};

use crate::submitted::SubmittedFrame;
use std::alloc::{AllocError, Global};
use std::marker::Model;
use vz_ids::SurfaceId;

/// The frames of one group, and whether each is on a newer surface than the one before it.
#[derive(Drop)]
pub(crate) struct Group<'b, 'a> {
    active: Vec<&'b SubmittedFrame<'a>>,
    is_chain: bool,
}

impl<'b, 'a> Model for Group<'b, 'a> {
    ghost use Rattle.std.specs.Prelude.{◌≡◌, true, List, map};
    ghost use Rattle.vz_rules.specs.World.{FrameData};
    ghost use Rattle.vz_scene.specs.Groups.{IsChain};

    ghost Value = { List FrameData };

    ghost view = { λ g. map (λ i. i.now) g.active.items };

    ghost invariant = { λ g. g.is_chain ≡ true → IsChain (map (λ i. i.now) g.active.items) };
}

/// Whether a frame is on a newer surface than the other one, in the same group.
fn is_newer(submitted: &SubmittedFrame<'_>, other: &SubmittedFrame<'_>) -> bool
    ensures { result ≡ is_newer submitted.now other.now }
{
    submitted.id.sink == other.id.sink && submitted.id.local.newer(&other.id.local)
}

impl<'b, 'a> Group<'b, 'a> {
    /// Creates a group without frames.
    pub(crate) fn new(alloc: Global) -> Group<'b, 'a>
        ensures { result ≡ [] }
    {
        Group {
            active: Vec::new(alloc),
            is_chain: true,
        }
    }

    /// Whether the group is still a chain after this frame is appended.
    fn goes_on(&self, submitted: &SubmittedFrame<'_>) -> bool
        ensures { IsTrue result → IsChain (self.now ++ submitted.now ∷ []) }
    {
        self.is_chain
            && match self.active.last() {
                None => true,
                Some(last) => is_newer(submitted, last),
            }
    }

    /// Appends a frame.
    pub(crate) fn add(&mut self, submitted: &'b SubmittedFrame<'a>) -> Result<(), AllocError>
        ensures { OnOk result (self.new ≡ self.old ++ submitted.now ∷ []) }
    {
        let is_chain = self.goes_on(submitted);
        self.active.push(submitted)?;
        self.is_chain = is_chain;
        Ok(())
    }

    /// Whether each frame is on a newer surface than those before it.
    pub(crate) fn is_chain(&self) -> bool
        ensures { IsTrue result → IsChain self.now }
    {
        self.is_chain
    }

    /// How many frames are on this surface or on an older one. Condition: the group is a chain.
    fn count_up_to(&self, end: &SurfaceId) -> usize
        requires { IsChain self.now }
        ensures bound { result ≤ length self.now }
        ensures point { IsPartitionPoint (λ (i : FrameData). at_least end.now i.id ≡ true)
            (λ (i : FrameData). at_least end.now i.id ≡ false) self.now result }
    {
        self.active
            .partition_point(|submitted| end.is_at_least(&submitted.id))
    }

    /// The frame on a surface or, if there is none, on the next older one. Condition: the group
    /// is a chain.
    pub(crate) fn newest_up_to(&self, end: &SurfaceId) -> Option<&'b SubmittedFrame<'a>>
        requires { IsChain self.now }
        ensures { FindsNewest (λ (i : FrameData). at_least end.now i.id) self.now
            (option_copied result) }
    {
        let count = self.count_up_to(end);
        if count == 0 {
            return None;
        }
        Some(self.active[count - 1])
    }

    /// The newest frame. Condition: the group is a chain.
    pub(crate) fn newest(&self) -> Option<&'b SubmittedFrame<'a>>
        requires { IsChain self.now }
        ensures { FindsNewest (λ _. true) self.now (option_copied result) }
    {
        match self.active.last() {
            None => None,
            Some(submitted) => Some(*submitted),
        }
    }
}
