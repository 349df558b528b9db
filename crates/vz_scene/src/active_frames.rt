//! The active frames by groups, so that the frame that a range shows is found fast.
ghost use Rattle.std.specs.Prelude.{◌≡◌, ◌++◌, ◌∷◌, [], if◌then◌else◌, filter, None, IfOk, OnOk};
ghost use Rattle.std.specs.BTreeMap.{get};
ghost use Rattle.std.specs.Ordering.{is_eq};
ghost use Rattle.std.specs.Option.{option_copied};
ghost use Rattle.vz_ids.specs.declared.SurfaceId.{SurfaceId as Surface};
ghost use Rattle.vz_ids.specs.Ids.{same_group, same_surface};
ghost use Rattle.vz_ids.specs.declared.GroupKey.{GroupKey as Key};
ghost use Rattle.vz_rules.specs.World.{FrameData, frame_on};
ghost use Rattle.vz_rules.specs.Scene.{in_range, after_start, newest, shown_frame};
ghost use Rattle.vz_scene.specs.Groups.{by_group, HasGroups, frames_at, frames_in, that_passes};

use crate::group::Group;
use crate::scene;
use crate::submitted::SubmittedFrame;
use std::alloc::{AllocError, Global};
use std::collections::BTreeMap;
use std::marker::Model;
use vz_ids::{GroupKey, SurfaceId, SurfaceRange};

/// The active frames in the order of acceptance, and an index of them by group. A group is
/// searched by halves if each of its frames is newer than the one before it, as it is for those
/// that a client made. Otherwise all frames are looked at.
#[derive(Drop)]
pub struct ActiveFrames<'b, 'a> {
    all: &'b [SubmittedFrame<'a>],
    groups: BTreeMap<GroupKey, Group<'b, 'a>>,
}

impl<'b, 'a> Model for ActiveFrames<'b, 'a> {
    ghost use Rattle.std.specs.Prelude.{List};
    ghost use Rattle.vz_rules.specs.World.{FrameData};
    ghost use Rattle.vz_scene.specs.Groups.{HasGroups};

    ghost Value = { List FrameData };

    ghost view = { λ i. i.all.now };

    ghost invariant = { λ i. HasGroups i.groups i.all.now };
}

/// Takes the frames of a group out of the index. They are none if the group is not there.
fn take_group<'b, 'a>(
    alloc: Global,
    groups: &mut BTreeMap<GroupKey, Group<'b, 'a>>,
    key: &GroupKey,
) -> Group<'b, 'a>
    ensures group { result ≡ frames_at groups.old key.now }
    ensures rest { (q : Key) → get by_group groups.new q
        ≡ (if is_eq (by_group key.now q) then None else get by_group groups.old q) }
{
    match groups.remove(key) {
        Some(group) => group,
        None => Group::new(alloc),
    }
}

/// Adds a frame to its group.
fn add<'b, 'a>(
    alloc: Global,
    groups: &mut BTreeMap<GroupKey, Group<'b, 'a>>,
    submitted: &'b SubmittedFrame<'a>,
) -> Result<(), AllocError>
    ensures { (id : Surface) → OnOk result (frames_in groups.new id
        ≡ frames_in groups.old id
        ++ (if same_group submitted.now.id id then submitted.now ∷ [] else [])) }
{
    let key = submitted.id.group();
    let mut group = take_group(alloc, groups, &key);
    group.add(submitted)?;
    groups.insert(key, group)?;
    Ok(())
}

/// The frames of each group.
fn groups_of<'b, 'a>(
    alloc: Global,
    active: &'b [SubmittedFrame<'a>],
) -> Result<BTreeMap<GroupKey, Group<'b, 'a>>, AllocError>
    ensures { IfOk result (λ m. HasGroups m active.now) }
{
    let mut groups = BTreeMap::new(alloc);
    for submitted in active {
        add(alloc, &mut groups, submitted)?;
    }
    Ok(groups)
}

/// The frame that was found, if it is on this surface.
fn only_on<'b, 'a>(
    found: Option<&'b SubmittedFrame<'a>>,
    id: &SurfaceId,
) -> Option<&'b SubmittedFrame<'a>>
    ensures { option_copied result
        ≡ that_passes (λ (i : FrameData). same_surface i.id id.now) (option_copied found.entry) }
{
    match found {
        None => None,
        Some(submitted) => {
            if submitted.is_of(id) {
                Some(submitted)
            } else {
                None
            }
        }
    }
}

/// The frame that was found, if it is in the range and in the group of its end.
fn only_in<'b, 'a>(
    found: Option<&'b SubmittedFrame<'a>>,
    range: &SurfaceRange,
) -> Option<&'b SubmittedFrame<'a>>
    ensures { option_copied result ≡ that_passes (in_range range.now) (option_copied found.entry) }
{
    match found {
        None => None,
        Some(submitted) => {
            if submitted.is_in(range) {
                Some(submitted)
            } else {
                None
            }
        }
    }
}

/// The frame that was found, if it is on a surface of the group of the range's start and that is
/// another group.
fn only_after<'b, 'a>(
    found: Option<&'b SubmittedFrame<'a>>,
    range: &SurfaceRange,
) -> Option<&'b SubmittedFrame<'a>>
    ensures { option_copied result
        ≡ that_passes (after_start range.now.start range.now.end) (option_copied found.entry) }
{
    match found {
        None => None,
        Some(submitted) => {
            if submitted.is_after(range) {
                Some(submitted)
            } else {
                None
            }
        }
    }
}

impl<'b, 'a> ActiveFrames<'b, 'a> {
    /// Makes the index of these frames, which are in the order of acceptance.
    pub fn new(
        alloc: Global,
        all: &'b [SubmittedFrame<'a>],
    ) -> Result<ActiveFrames<'b, 'a>, AllocError>
        ensures { IfOk result (λ i. i ≡ all.now) }
    {
        let groups = groups_of(alloc, all)?;
        Ok(ActiveFrames { all, groups })
    }

    /// All frames, in the order of acceptance.
    pub fn as_slice(&self) -> &'b [SubmittedFrame<'a>]
        ensures { result.now ≡ self.now }
    {
        self.all
    }

    /// The frame on a surface, or None if the surface has no active frame.
    pub fn frame_on(&self, id: &SurfaceId) -> Option<&'b SubmittedFrame<'a>>
        ensures { option_copied result ≡ frame_on id.now self.now }
    {
        match self.groups.get(&id.group()) {
            None => None,
            Some(group) => {
                if !group.is_chain() {
                    return scene::frame_on(self.all, id);
                }
                let found = group.newest_up_to(id);
                only_on(found, id)
            }
        }
    }

    /// The newest frame that is in the range and in the group of its end, or None.
    fn newest_in(&self, range: &SurfaceRange) -> Option<&'b SubmittedFrame<'a>>
        ensures { option_copied result ≡ newest (filter (in_range range.now) self.now) }
    {
        match self.groups.get(&range.end.group()) {
            None => None,
            Some(group) => {
                if !group.is_chain() {
                    return scene::newest_in(self.all, range);
                }
                let found = group.newest_up_to(&range.end);
                only_in(found, range)
            }
        }
    }

    /// The newest frame in the group of the range's start, if that is another group, or None.
    fn newest_after(&self, range: &SurfaceRange) -> Option<&'b SubmittedFrame<'a>>
        ensures { option_copied result
            ≡ newest (filter (after_start range.now.start range.now.end) self.now) }
    {
        match range.start {
            None => None,
            Some(start) => match self.groups.get(&start.group()) {
                None => None,
                Some(group) => {
                    if !group.is_chain() {
                        return scene::newest_after(self.all, range);
                    }
                    let found = group.newest();
                    only_after(found, range)
                }
            },
        }
    }

    /// The frame of the surface that a range shows, or None if it shows none.
    #[tactic(auto, unfolding(vz_rules::specs::Scene::shown_frame))]
    pub fn shown_frame(&self, range: &SurfaceRange) -> Option<&'b SubmittedFrame<'a>>
        ensures { option_copied result ≡ shown_frame self.now range.now }
    {
        match self.newest_in(range) {
            Some(submitted) => Some(submitted),
            None => self.newest_after(range),
        }
    }
}
