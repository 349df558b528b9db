//! A submission that arrives: what is read of it before the first change, and the room that is
//! made for it.
ghost use Rattle.std.specs.Prelude.{◌≡◌, ◌≤◌, ◌<◌, ◌+◌, None, IsTrue, is_some, length};
ghost use Rattle.std.specs.Prelude.{IfOk, OnOk, OnErr};
ghost use Rattle.vz_ids.specs.declared.LocalSurfaceId.{LocalSurfaceId as Local};
ghost use Rattle.vz_frame.specs.declared.frame.CompositorFrame.{CompositorFrame as Frame};
ghost use Rattle.vz_frame.specs.declared.message.Message.TheVariants.{Submit};
ghost use Rattle.vz_rules.specs.Plan.{Plan};
ghost use Rattle.vz_rules.specs.World.{World, Client};
ghost use Rattle.vz_rules.specs.Messages.{id_of};
ghost use Rattle.vz_surfaces.specs.Memory.{HasNumber};
ghost use Rattle.vz_returns.specs.Lent.{IsLender, NoneReleased, resources_out};
ghost use Rattle.vz_surface_manager.specs.Live.{AreLive};
ghost use Rattle.vz_surface_manager.specs.Acceptance.{HasRoomFor, IsReadier};
ghost use Rattle.vz_surface_manager.specs.Last_surface.{is_last_named};
ghost use Rattle.vz_surface_manager.specs.Settles.{AreSettling};
ghost use Rattle.vz_support.specs.Supporting.{IsNext};
ghost use Rattle.vz_manager.specs.Followed.{IsBetween};
ghost use Rattle.vz_manager.specs.Submitted.{IsSubmitting, IsComing, created_by};
ghost use Rattle.vz_manager.specs.Submitted.{HasRoomToSubmit, StillServe};

use crate::judging::{due, lacked, submission};
use crate::outcome::{Following, New};
use crate::room::ready_to_follow;
use std::alloc::Global;
use vz_base::Memory;
use vz_base::limits::TEMPORARY_TICKS;
use vz_frame::{CompositorFrame, Room, ShortList};
use vz_geom::Size;
use vz_ids::{FrameSinkId, LocalSurfaceId, SurfaceId};
use vz_pixels::PixelBlock;
use vz_rules::Returned;
use vz_support::Support;
use vz_surface_manager::{LiveSurfaces, SurfaceManager};

/// What is read of a submission before the first change.
#[derive(Drop)]
pub(crate) struct Coming {
    /// The sink of its client.
    pub(crate) sink: FrameSinkId,
    /// The deadline: the tick at which it becomes active even if it lacks a dependency.
    pub(crate) due: u32,
    /// The surface that it creates, or None.
    pub(crate) new: Option<New>,
    /// How many resources it lists.
    pub(crate) listings: usize,
    /// How many references (surface ranges) it has.
    pub(crate) references: usize,
    /// The unmet dependencies, in the order of the frame.
    pub(crate) lacked: Room<SurfaceId>,
    /// The pixel block of each listed resource, in the order of the listings.
    pub(crate) blocks: ShortList<PixelBlock>,
}

/// Whether a local id is that of the last surface that a client created, if it created one.
fn is_last(last: Option<(LocalSurfaceId, Size)>, local: &LocalSurfaceId) -> bool
    ensures { result ≡ is_last_named last local.now }
{
    match last {
        None => false,
        Some((last, _)) => last == *local,
    }
}

/// The surface that a submission creates at a tick, or None if it is on its client's last
/// surface. Conditions: the client's number is 1 to 16, and the last tick of a temporary surface
/// does not overflow.
fn created(live: &LiveSurfaces, c: u32, id: SurfaceId, tick: u32) -> Option<New>
    requires number { HasNumber c }
    requires late { tick + TEMPORARY_TICKS ≤ u32.MAX }
    ensures { (w : World) (x : Client) (local : Local) → AreLive w None live.now → x.number ≡ c
        → id ≡ id_of x local → tick ≡ w.tick → result ≡ created_by w x local }
{
    if is_last(live.last(c), &id.local) {
        return None;
    }
    Some(New {
        id,
        until: tick + TEMPORARY_TICKS,
    })
}

/// Reads a submission of a client. No pixel is copied. The only error is `Memory`, if an
/// allocation fails. Conditions: the client exists, and its submission is not refused.
fn read(
    alloc: Global,
    support: &Support,
    settling: &SurfaceManager,
    c: u32,
    local: &LocalSurfaceId,
    frame: &CompositorFrame,
) -> Result<Coming, Memory>
    requires some { 1 ≤ c }
    requires known { c ≤ length support.now.clients }
    requires submits { (p : Plan) × (w : World) × (x : Client)
        × IsSubmitting p w c x local.now frame.now support.now settling.now }
    ensures { (p : Plan) (w : World) (x : Client)
        → IsSubmitting p w c x local.now frame.now support.now settling.now
        → IfOk result (IsComing w x local.now frame.now) }
{
    let live = &settling.live;
    let tick = support.tick();
    let sink = support.sink(c);
    let listings = frame.resources.as_slice();
    let blocks = support.blocks(alloc, c, listings)?;
    let mut lacks = Room::new(alloc);
    lacks.reserve(frame.metadata.dependencies.as_slice().len())?;
    lacked(support, live, frame, &mut lacks);
    let local = *local;
    Ok(Coming {
        sink,
        due: due(tick, frame),
        new: created(live, c, SurfaceId { sink, local }, tick),
        listings: listings.len(),
        references: frame.metadata.references.as_slice().len(),
        lacked: lacks,
        blocks,
    })
}

/// Reads the submission that a client sends next. No pixel is copied. The only error is `Memory`,
/// if an allocation fails. Conditions: the client exists, and its next message is a submission
/// that is not refused.
pub(crate) fn read_submission(
    alloc: Global,
    support: &Support,
    settling: &SurfaceManager,
    c: u32,
) -> Result<Coming, Memory>
    requires some { 1 ≤ c }
    requires known { c ≤ length support.now.clients }
    requires next { (local : Local) × (frame : Frame)
        × IsNext support.now c (Submit frame local) }
    requires submits { (p : Plan) × (w : World) × (x : Client) × (local : Local) × (frame : Frame)
        × IsSubmitting p w c x local frame support.now settling.now }
    ensures { (p : Plan) (w : World) (x : Client) (local : Local) (frame : Frame)
        → IsSubmitting p w c x local frame support.now settling.now
        → IfOk result (IsComing w x local frame) }
{
    let (local, frame) = submission(support, c);
    let coming = read(alloc, support, settling, c, local, frame)?;
    Ok(coming)
}

/// If there is a drawn frame, makes room for its end after a submission with this many listings
/// is accepted. The only error is `Memory`, if an allocation fails; then nothing changes.
fn ready_to_land(
    live: &LiveSurfaces,
    listings: usize,
    returned: &mut Room<Returned>,
) -> Result<(), Memory>
    ensures list { returned.new.list ≡ returned.old.list }
    ensures room { OnOk result (IsTrue (is_some live.now.flight)
        → resources_out live.now.lent + listings ≤ returned.new.spare) }
    ensures err { OnErr result (returned.new ≡ returned.old) }
{
    if !live.is_flying() {
        return Ok(());
    }
    live.make_room(listings, returned)
}

/// Makes room for a submission of a client among the surfaces and the waiting submissions. The
/// only error is `Memory`, if an allocation fails. In either case nothing else changes and no
/// room is lost. Condition: the client exists.
fn ready_to_wait(settling: &mut SurfaceManager, c: u32, coming: &Coming) -> Result<(), Memory>
    requires known { IsLender c settling.old.live.lent }
    ensures live { OnOk result (HasRoomFor c coming.now.listings coming.now.references
        settling.new.live) }
    ensures keeps { OnOk result (IsTrue (is_some coming.now.new)
        → 0 < settling.new.live.kept.room) }
    ensures waiting { OnOk result (length coming.now.lacked.list < settling.new.waiting.spare) }
    ensures stands { (w : World) → AreSettling w None settling.old
        → AreSettling w None settling.new }
    ensures same { IsReadier settling.old.live settling.new.live }
    ensures released { NoneReleased settling.old.live.lent → NoneReleased settling.new.live.lent }
{
    let creates = coming.new.is_some();
    settling
        .live
        .ready(c, coming.listings, coming.references, creates)?;
    settling.waiting.ready(coming.lacked.as_slice().len())
}

/// Makes room for a submission of a client, for all that may follow it and, if there is a drawn
/// frame, for the end of that frame. The only error is `Memory`, if an allocation fails. In
/// either case nothing else changes. Conditions: the client exists, and the state is one between
/// steps.
pub(crate) fn make_room(
    settling: &mut SurfaceManager,
    returned: &mut Room<Returned>,
    following: &mut Following,
    c: u32,
    coming: &Coming,
) -> Result<(), Memory>
    requires known { IsLender c settling.old.live.lent }
    requires between { (w : World) × IsBetween w settling.old }
    ensures room { OnOk result
        (HasRoomToSubmit c coming.now settling.new returned.new following.new) }
    ensures serves { StillServe settling.old returned.old settling.new returned.new }
{
    ready_to_wait(settling, c, coming)?;
    ready_to_land(&settling.live, coming.listings, returned)?;
    ready_to_follow(settling, coming.listings, following)?;
    Ok(())
}
