//! Questions about a client's submission before anything changes: why it is refused, which of its
//! dependencies are unmet, and at which tick its deadline is.
ghost use Rattle.std.specs.Prelude.{◌≡◌, ◌≤◌, ◌<◌, ◌+◌, ◌++◌, ◌∷◌, [], not, filter, length, Some};
ghost use Rattle.vz_base.specs.declared.limits.TheConstants.{GREATEST_DEADLINE, LAST_TICK, MOST_FILES};
ghost use Rattle.vz_ids.specs.declared.LocalSurfaceId.{LocalSurfaceId as Local};
ghost use Rattle.vz_frame.specs.declared.frame.CompositorFrame.{CompositorFrame as Frame};
ghost use Rattle.vz_frame.specs.declared.message.Message.TheVariants.{Submit};
ghost use Rattle.vz_rules.specs.Plan.{Plan};
ghost use Rattle.vz_rules.specs.World.{World, Client, client_at, next_message};
ghost use Rattle.vz_rules.specs.Settle.{is_met};
ghost use Rattle.vz_surface_manager.specs.Last_surface.{violates_named, has_other_size_named};
ghost use Rattle.vz_support.specs.Supporting.{IsNext, IsSupport};
ghost use Rattle.vz_manager.specs.Judging.{shape_refusal, refusal_in, deadline_of, AreAsked};

use vz_base::limits::DEFAULT_DEADLINE;
use vz_frame::{CompositorFrame, Message, Room, check};
use vz_geom::Size;
use vz_ids::{LocalSurfaceId, SurfaceId};
use vz_rules::Refusal;
use vz_support::Support;
use vz_surface_manager::LiveSurfaces;

/// The submission that a client sends next: the local id of its surface, and its frame.
/// Conditions: the client exists, and its next message is a submission.
pub(crate) fn submission(support: &Support, c: u32) -> (&LocalSurfaceId, &CompositorFrame)
    requires some { 1 ≤ c }
    requires known { c ≤ length support.now.clients }
    requires next { (local : Local) × (frame : Frame) × IsNext support.now c (Submit frame local) }
    ensures next { IsNext support.now c (Submit result.1.now result.0.now) }
    ensures sent { (p : Plan) (w : World) (x : Client) (local : Local) (frame : Frame)
        → IsSupport p w support.now → client_at w c ≡ Some x
        → next_message p x ≡ Some (Submit frame local)
        → (result.0.now ≡ local) × (result.1.now ≡ frame) }
{
    let Some(message) = support.next(c) else {
        unreachable!()
    };
    let Message::Submit { local, frame } = message else {
        unreachable!()
    };
    (local, frame.as_frame())
}

/// Whether a local id is neither the last one of the client nor allowed after it.
fn violates(last: Option<(LocalSurfaceId, Size)>, local: &LocalSurfaceId) -> bool
    ensures { result ≡ violates_named last local.now }
{
    match last {
        None => false,
        Some((last, _)) => last != *local && !local.is_raised(&last),
    }
}

/// Whether a local id is the last one of the client, and that surface has another size.
fn has_other_size(last: Option<(LocalSurfaceId, Size)>, local: &LocalSurfaceId, size: Size) -> bool
    ensures { result ≡ has_other_size_named last local.now size }
{
    match last {
        None => false,
        Some((last, then)) => last == *local && then != size,
    }
}

/// Why a frame of this size is refused on a local id, or None, given the local id and the size of
/// its client's last surface.
fn shape_refusal(
    last: Option<(LocalSurfaceId, Size)>,
    local: &LocalSurfaceId,
    size: Size,
) -> Option<Refusal>
    ensures { result ≡ shape_refusal last local.now size }
{
    if violates(last, local) {
        return Some(Refusal::InvariantsViolation);
    }
    if has_other_size(last, local, size) {
        return Some(Refusal::SizeMismatch);
    }
    None
}

/// Why a client's submission is refused, or None if it is not. Conditions: the client exists, and
/// its number is one of a plan.
pub(crate) fn refusal(
    support: &Support,
    live: &LiveSurfaces,
    c: u32,
    local: &LocalSurfaceId,
    frame: &CompositorFrame,
) -> Option<Refusal>
    requires some { 1 ≤ c }
    requires known { c ≤ length support.now.clients }
    requires few { c ≤ MOST_FILES }
    ensures { (p : Plan) (w : World) (x : Client) → AreAsked p w support.now live.now
        → client_at w c ≡ Some x → result ≡ refusal_in w x local.now frame.now }
{
    if let Err(rule) = check(frame) {
        return Some(Refusal::Malformed(rule));
    }
    if support.is_unknown(c, frame.resources.as_slice()) {
        return Some(Refusal::UnknownResource);
    }
    shape_refusal(live.last(c), local, frame.size())
}

/// Whether a dependency is met: a submission on its surface or on a newer one of its group was
/// ever active, or the client of its sink is closed.
pub(crate) fn is_met(support: &Support, live: &LiveSurfaces, d: &SurfaceId) -> bool
    ensures { (p : Plan) (w : World) → AreAsked p w support.now live.now → result ≡ is_met w d.now }
{
    live.ever_active(d) || support.is_gone(&d.sink)
}

/// Appends a dependency, unless it is met. It allocates nothing. Condition: `out` has room for
/// it.
fn put_lacked(support: &Support, live: &LiveSurfaces, d: &SurfaceId, out: &mut Room<SurfaceId>)
    requires room { 0 < out.old.spare }
    ensures list { (p : Plan) (w : World) → AreAsked p w support.now live.now
        → out.new.list ≡ out.old.list ++ filter (λ x. not (is_met w x)) (d.now ∷ []) }
    ensures room { out.old.spare ≤ out.new.spare + 1 }
{
    if !is_met(support, live, d) {
        out.put(*d);
    }
}

/// Appends the unmet dependencies of a frame, in their order. It allocates nothing. Condition:
/// `out` has room for all its dependencies.
pub(crate) fn lacked(
    support: &Support,
    live: &LiveSurfaces,
    frame: &CompositorFrame,
    out: &mut Room<SurfaceId>,
)
    requires room { length frame.now.metadata.dependencies ≤ out.old.spare }
    ensures list { (p : Plan) (w : World) → AreAsked p w support.now live.now
        → out.new.list
        ≡ out.old.list ++ filter (λ d. not (is_met w d)) frame.now.metadata.dependencies }
{
    let dependencies = frame.metadata.dependencies.as_slice();
    for d in dependencies {
        put_lacked(support, live, d, out);
    }
}

/// The deadline of a frame that is submitted at a tick: the tick at which it becomes active even
/// if it lacks a dependency. Conditions: the tick is one of the machine's, and the frame's
/// deadline is within the limit.
pub(crate) fn due(tick: u32, frame: &CompositorFrame) -> u32
    requires early { tick ≤ LAST_TICK }
    requires soon { deadline_of frame.now ≤ GREATEST_DEADLINE }
    ensures { result ≡ tick + deadline_of frame.now }
{
    tick + u32::from(frame.metadata.deadline.unwrap_or(DEFAULT_DEADLINE))
}
