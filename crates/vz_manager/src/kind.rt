//! What kind of message a client sends next.
ghost use Rattle.std.specs.Prelude.{◌≡◌, ◌≤◌, Some, length};
ghost use Rattle.vz_rules.specs.Plan.{Plan};
ghost use Rattle.vz_rules.specs.World.{World, Client, client_at, next_message};
ghost use Rattle.vz_support.specs.Supporting.{IsSupport};
ghost use Rattle.vz_manager.specs.Kinds.{Comes, kind_of};

use vz_frame::Message;
use vz_support::Support;

/// What kind of message a client sends next.
#[derive(Clone, Copy)]
pub(crate) enum Kind {
    /// The client has no message left.
    Nothing,
    /// The client is closed, but has a message left.
    Closed,
    /// It uploads a block.
    Upload,
    /// It submits a frame.
    Submit,
    /// It answers a begin-frame without a frame.
    DidNotProduce,
    /// It reclaims its returned resources.
    Reclaim,
    /// It names the root surface.
    SetRoot,
    /// It registers a relation between sinks.
    Hierarchy,
    /// It waits for a begin-frame.
    Await,
    /// It closes.
    Close,
}

/// What kind of message a client sends next. Condition: the client exists.
pub(crate) fn kind_of(support: &Support, c: u32) -> Kind
    requires some { 1 ≤ c }
    requires known { c ≤ length support.now.clients }
    ensures comes { Comes support.now c result }
    ensures kind { (p : Plan) (w : World) (x : Client) → IsSupport p w support.now
        → client_at w c ≡ Some x → result ≡ kind_of x.closed (next_message p x) }
{
    let Some(message) = support.next(c) else {
        return Kind::Nothing;
    };
    if support.is_closed(c) {
        return Kind::Closed;
    }
    match message {
        Message::Upload { id: _, block: _ } => Kind::Upload,
        Message::Submit { local: _, frame: _ } => Kind::Submit,
        Message::DidNotProduce(_) => Kind::DidNotProduce,
        Message::Reclaim => Kind::Reclaim,
        Message::SetRoot(_) => Kind::SetRoot,
        Message::Hierarchy {
            parent: _,
            child: _,
        } => Kind::Hierarchy,
        Message::Await => Kind::Await,
        Message::Close => Kind::Close,
    }
}
