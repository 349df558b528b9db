//! Laws of what is kept for clients: each is the contract of a function with an empty body.
ghost use Rattle.std.specs.Prelude.{ℕ, ◌≤◌, List, length, ◌≡◌, not, Some, None, false, map};
ghost use Rattle.std.specs.List.{list_any, list_all};
ghost use Rattle.vz_ids.specs.declared.Sub.{Sub};
ghost use Rattle.vz_ids.specs.declared.LocalSurfaceId.{LocalSurfaceId};
ghost use Rattle.vz_pixels.specs.Block.{Block};
ghost use Rattle.vz_frame.specs.Frame.{first_of};
ghost use Rattle.vz_frame.specs.declared.frame.CompositorFrame.{CompositorFrame};
ghost use Rattle.vz_frame.specs.declared.message.Message.TheVariants.{Close};
ghost use Rattle.vz_rules.specs.Plan.{Plan};
ghost use Rattle.vz_rules.specs.World.{World, Machine, Surface, Submission, Client, opening, client_at, next_message};
ghost use Rattle.vz_rules.specs.Settle.{round};
ghost use Rattle.vz_rules.specs.Reach.{naming};
ghost use Rattle.vz_rules.specs.Returns.{give_back, feed};
ghost use Rattle.vz_rules.specs.Singly.{rising, going};
ghost use Rattle.vz_rules.specs.Step.{draw_answer, done_answer, begin_answer};
ghost use Rattle.vz_rules.specs.Kept.{KeepsPlan, KeepsClients, AreRising};
ghost use Rattle.vz_rules.specs.Messages.{accepted, taking, reclaim, answer_tick, is_unknown, blocks_of, in_use, message_answer, upload_answer};
ghost use Rattle.vz_machine.specs.Stepping.{HasClient};
ghost use Rattle.vz_support.specs.Supporting.{Supported, IsSupport};
ghost use Rattle.vz_support.specs.Sent.{Sender, opened, sender_at, taking_one, closing, answered_by, storing_block, knows, blocks_in};
ghost use Rattle.vz_support.specs.Changed.{ChangesOne};
ghost use Rattle.vz_support.specs.Sending.{AreSenders};

/// Each client of the plan has its entry.
pub fn clients_are_known()
    ensures { (m : Machine) (c : ℕ) (v : Supported) → KeepsPlan m.plan m.world
        → IsSupport m.plan m.world v → HasClient m c → (1 ≤ c) × (c ≤ length v.clients) }
{}

/// Before the first message of any file is taken, what is kept of clients is that of the opening
/// state.
pub fn clients_open()
    ensures { (p : Plan) → AreSenders p (opening p) (map opened p.files) }
{}

/// When a message of a client is taken, what is kept of the client changes as the machine's state
/// does: one message fewer is left, an upload stores a block, an answer to a tick is noted, and
/// the client may be closed.
pub fn clients_follow()
    ensures taken { (p : Plan) (w : World) (x : Client) (old new : List Sender)
        → KeepsClients w.clients → AreSenders p w old
        → client_at w x.number ≡ Some x → ChangesOne x.number taking_one old new
        → AreSenders p (taking (λ y. y) x w) new × AreSenders p (taking reclaim x w) new
        × AreSenders p (taking (λ (y : Client). record y { delivered = None }) x w) new }
    ensures stored { (p : Plan) (w : World) (x : Client) (id : ℕ) (block : Block)
        (old new : List Sender) → KeepsClients w.clients → AreSenders p w old
        → client_at w x.number ≡ Some x → in_use x.resources id ≡ false
        → ChangesOne x.number (λ s. storing_block id block (taking_one s)) old new
        → AreSenders p (upload_answer w x id block).world new }
    ensures noted { (p : Plan) (w : World) (x : Client) (n : ℕ) (old new : List Sender)
        → KeepsClients w.clients → AreSenders p w old → client_at w x.number ≡ Some x
        → ChangesOne x.number (λ s. answered_by w.tick n (taking_one s)) old new
        → AreSenders p (taking (answer_tick w.tick n) x w) new }
    ensures accepted { (p : Plan) (w : World) (x : Client) (local : LocalSurfaceId)
        (frame : CompositorFrame) (old new : List Sender) → KeepsClients w.clients
        → AreSenders p w old → client_at w x.number ≡ Some x
        → ChangesOne x.number (λ s. answered_by w.tick frame.metadata.ack (taking_one s)) old new
        → AreSenders p (accepted w x local frame).world new }
    ensures closed { (p : Plan) (w : World) (x : Client) (old new : List Sender)
        → KeepsClients w.clients → AreSenders p w old → client_at w x.number ≡ Some x
        → ChangesOne x.number (λ s. closing (taking_one s)) old new
        → AreSenders p (message_answer w x Close).world new }
{}

/// No other change of the machine's state changes a client's messages and blocks.
pub fn clients_stay()
    ensures rising { (p : Plan) (w : World) (s : Submission) (list : List Sender)
        → AreSenders p w list → AreSenders p (rising s w) list }
    ensures round { (p : Plan) (w : World) (list : List Sender)
        → AreSenders p w list → AreSenders p (round w) list }
    ensures naming { (p : Plan) (w : World) (list : List Sender)
        → AreSenders p w list → AreSenders p (naming w) list }
    ensures going { (p : Plan) (w : World) (c : Surface) (list : List Sender)
        → AreSenders p w list → AreSenders p (going c w) list }
    ensures returns { (p : Plan) (w : World) (list : List Sender)
        → AreSenders p w list → AreSenders p (give_back w) list }
    ensures feedback { (p : Plan) (w : World) (presented : List Sub) (list : List Sender)
        → AreSenders p w list → AreSenders p (feed presented w) list }
    ensures begin { (p : Plan) (w : World) (list : List Sender)
        → AreSenders p w list → AreSenders p (begin_answer p w).world list }
    ensures draw { (p : Plan) (w : World) (list : List Sender)
        → AreSenders p w list → AreSenders p (draw_answer p w).world list }
    ensures done { (p : Plan) (w : World) (list : List Sender)
        → AreSenders p w list → AreSenders p (done_answer w).world list }
{}

/// What is read of a client agrees with the machine's state: the next message, the sinks of
/// closed clients, which listings are unknown, and the blocks of listings.
pub fn clients_tell()
    ensures next { (p : Plan) (w : World) (x : Client) (list : List Sender)
        → AreSenders p w list → client_at w x.number ≡ Some x
        → first_of (sender_at list x.number).left ≡ next_message p x }
    ensures unknown { (p : Plan) (w : World) (x : Client) (frame : CompositorFrame)
        (list : List Sender) → AreRising x.resources
        → AreSenders p w list → client_at w x.number ≡ Some x
        → list_any (is_unknown x.resources) frame.resources
        ≡ not (list_all (knows (sender_at list x.number).blocks) frame.resources) }
    ensures blocks { (p : Plan) (w : World) (x : Client) (frame : CompositorFrame)
        (list : List Sender)
        → AreSenders p w list → client_at w x.number ≡ Some x
        → blocks_of x.resources frame
        ≡ blocks_in (sender_at list x.number).blocks frame.resources }
{}
