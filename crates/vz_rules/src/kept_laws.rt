//! Laws of the invariants of the world. Each is the contract of an empty function; a caller that
//! calls it may use its clauses.
ghost use Rattle.std.specs.Prelude.{◌≡◌, true, ℕ, ◌+◌, ◌<◌, ◌≤◌, ◌⊎◌, Some, None, List, [], slice_get, IsTrue, IsFalse};
ghost use Rattle.std.specs.List.{Contains, list_all, sum_by};
ghost use Rattle.vz_base.specs.declared.limits.TheConstants.{MOST_MESSAGES};
ghost use Rattle.vz_pixels.specs.Block.{Block, IsBlock};
ghost use Rattle.vz_frame.specs.Frame.{frame_size};
ghost use Rattle.vz_ids.specs.declared.FrameSinkId.{FrameSinkId};
ghost use Rattle.vz_ids.specs.declared.SurfaceId.{SurfaceId};
ghost use Rattle.vz_ids.specs.declared.SurfaceRange.{SurfaceRange};
ghost use Rattle.vz_ids.specs.declared.Sub.{Sub};
ghost use Rattle.vz_ids.specs.Ids.{same_sink, same_surface, same_sub, same_group, at_least, newer};
ghost use Rattle.vz_rules.specs.declared.entry.Entry.{Entry};
ghost use Rattle.vz_rules.specs.declared.entry.Event.{Event};
ghost use Rattle.vz_rules.specs.declared.entry.Event.TheVariants as event;
ghost use Rattle.vz_rules.specs.declared.entry.Refusal.{Refusal};
ghost use Rattle.vz_rules.specs.declared.entry.Returned.{Returned};
ghost use Rattle.vz_rules.specs.Plan.{Plan, IsPlan};
ghost use Rattle.vz_rules.specs.World.{World, Client, Surface, FrameData, Resource, Submission, opening, active_frames, frame_on, is_waiting, is_active, is_in_flight, last_created, exists, sub_of};
ghost use Rattle.vz_rules.specs.Scene.{shown, in_range, after_start};
ghost use Rattle.vz_rules.specs.Settle.{is_met, ready, has_come, round, settle};
ghost use Rattle.vz_rules.specs.Reach.{has_id, reach, lost_in, naming, clearing, collect};
ghost use Rattle.vz_rules.specs.Returns.{is_held, give_back, feed};
ghost use Rattle.vz_rules.specs.Messages.{Answer, refused, taking, answer_tick, reclaim, upload_answer, hierarchy_answer, await_answer};
ghost use Rattle.vz_rules.specs.Step.{answer_to, draw_answer, outcome_of, step_in, world, Legal};
ghost use Rattle.vz_rules.specs.Log.{Spellable, rest_of};
ghost use Rattle.vz_rules.specs.Singly.{rising, all_rising, going, all_going, IsMarked};
ghost use Rattle.vz_rules.specs.declared.entry.Reply.TheVariants as reply;
ghost use Rattle.vz_rules.specs.Ends.{landed, presenting};
ghost use Rattle.vz_rules.specs.Kept.{Keeps, KeepsAlways, KeepsPlan, KeepsMessages, AreShort, HasSmallClient, IsSmallReturn, IsSmallResource, IsSmallSubmission, IsSmallSurface, count_of, is_open, no_effects, out_of};

/// The invariants between steps hold in the opening world and after each history, and each step
/// establishes them.
pub fn steps_keep()
    ensures opening { (p : Plan) → IsPlan p → Keeps (opening p) }
    ensures step { (p : Plan) (w : World) (e : Event) → KeepsAlways w
        → Keeps (step_in p w e).world }
    ensures history { (p : Plan) (h : List Entry) → IsPlan p → Keeps (world p h) }
{}

/// The same is true of the invariants that involve the plan.
pub fn steps_keep_the_plan()
    ensures opening { (p : Plan) → KeepsPlan p (opening p) }
    ensures step { (p : Plan) (w : World) (e : Event) → IsPlan p → KeepsAlways w → KeepsPlan p w
        → KeepsPlan p (step_in p w e).world }
    ensures history { (p : Plan) (h : List Entry) → IsPlan p → KeepsPlan p (world p h) }
{}

/// The same is true of the invariants that involve the messages that clients sent.
pub fn steps_keep_the_messages()
    ensures opening { (p : Plan) → KeepsMessages (opening p) }
    ensures step { (p : Plan) (w : World) (e : Event) → IsPlan p → KeepsAlways w → KeepsMessages w
        → KeepsMessages (step_in p w e).world }
    ensures history { (p : Plan) (h : List Entry) → IsPlan p → KeepsMessages (world p h) }
{}

/// Inside a step, both the event's own change and each part of what follows preserve the
/// invariants that hold at all times.
pub fn changes_keep()
    ensures answer { (p : Plan) (w : World) (e : Event) → KeepsAlways w
        → KeepsAlways (answer_to p w e).world }
    ensures round { (w : World) → KeepsAlways w → KeepsAlways (round w) }
    ensures settle { (w : World) → KeepsAlways w → KeepsAlways (settle w) }
    ensures naming { (w : World) → KeepsAlways w → KeepsAlways (naming w) }
    ensures clearing { (w : World) → KeepsAlways w → KeepsAlways (clearing w) }
    ensures returns { (w : World) → KeepsAlways w → KeepsAlways (give_back w) }
    ensures feedback { (presented : List Sub) (w : World) → KeepsAlways w
        → KeepsAlways (feed presented w) }
{}

/// No two clients, surfaces or submissions have the same name.
pub fn names_differ()
    ensures clients { (w : World) (c d : Client) → KeepsAlways w → Contains w.clients c
        → Contains w.clients d → c.number ≡ d.number → c ≡ d }
    ensures sinks { (w : World) (c d : Client) → KeepsAlways w → Contains w.clients c
        → Contains w.clients d → c.sink ≡ d.sink → c ≡ d }
    ensures surfaces { (w : World) (n m : ℕ) (s t : Surface) → KeepsAlways w
        → slice_get w.surfaces n ≡ Some s → slice_get w.surfaces m ≡ Some t
        → IsTrue (same_surface s.id t.id) → n ≡ m }
    ensures submissions { (w : World) (n m : ℕ) (s t : Submission) → KeepsAlways w
        → slice_get w.subs n ≡ Some s → slice_get w.subs m ≡ Some t
        → IsTrue (same_sub (sub_of s) (sub_of t)) → n ≡ m }
{}

/// All surfaces of one sink, and all submissions to one surface, belong to one client. The
/// surface that a client created last has the greatest number. An active submission is the one
/// that is seen on its surface.
pub fn surfaces_are_owned()
    ensures sinks { (w : World) (s t : Surface) → KeepsAlways w → Contains w.surfaces s
        → Contains w.surfaces t → IsTrue (same_sink s.id.sink t.id.sink) → s.client ≡ t.client }
    ensures submissions { (w : World) (s t : Submission) → KeepsAlways w → Contains w.subs s
        → Contains w.subs t → IsTrue (same_surface s.submitted.id t.submitted.id)
        → s.submitted.sub.client ≡ t.submitted.sub.client }
    ensures last { (w : World) (c : ℕ) (s t : Surface) → KeepsAlways w → last_created w c ≡ Some s
        → Contains w.surfaces t → t.client ≡ c → t.number ≤ s.number }
    ensures seen { (w : World) (s : Submission) → KeepsAlways w → Contains w.subs s
        → IsTrue (is_active s) → frame_on s.submitted.id (active_frames w.subs) ≡ Some s.submitted }
{}

/// Numbers in the world stay below the limits.
pub fn numbers_are_small()
    ensures clients { (p : Plan) (w : World) → IsPlan p → KeepsAlways w → KeepsPlan p w
        → (c : Client)
        → Contains w.clients c → HasSmallClient c.number × (c.taken ≤ MOST_MESSAGES) }
    ensures surfaces { (p : Plan) (w : World) → IsPlan p → KeepsAlways w → KeepsPlan p w
        → (s : Surface) → Contains w.surfaces s → IsSmallSurface s }
    ensures submissions { (p : Plan) (w : World) → IsPlan p → KeepsAlways w → KeepsPlan p w
        → (s : Submission) → Contains w.subs s → IsSmallSubmission s }
    ensures resources { (p : Plan) (w : World) → IsPlan p → KeepsAlways w → KeepsPlan p w
        → (c : Client) (s : Resource) → Contains w.clients c → Contains c.resources s
        → IsSmallResource s }
    ensures returns { (p : Plan) (w : World) → IsPlan p → KeepsAlways w → KeepsPlan p w
        → (c : Client) (r : Returned) → Contains w.clients c → Contains c.queue r
        → IsSmallReturn r }
{}

/// Lists in the world stay below the limits.
pub fn lists_are_short()
    ensures { (p : Plan) (w : World) → IsPlan p → KeepsAlways w → KeepsPlan p w → KeepsMessages w
        → AreShort w }
{}

/// A surface has one size, and each frame accepted on it has that size. Each block has sides from
/// 1 to 256.
pub fn sizes_are_kept()
    ensures surface { (w : World) (s : Submission) (c : Surface) → KeepsAlways w → KeepsMessages w
        → Contains w.subs s → Contains w.surfaces c → IsTrue (same_surface c.id s.submitted.id)
        → c.size ≡ frame_size s.submitted.frame }
    ensures frames { (w : World) (s t : Submission) → KeepsAlways w → KeepsMessages w
        → Contains w.subs s → Contains w.subs t
        → IsTrue (same_surface s.submitted.id t.submitted.id)
        → frame_size s.submitted.frame ≡ frame_size t.submitted.frame }
    ensures stored { (w : World) (c : Client) (s : Resource) → KeepsMessages w
        → Contains w.clients c
        → Contains c.resources s → IsBlock s.block }
    ensures listed { (w : World) (s : Submission) (b : Block) → KeepsMessages w → Contains w.subs s
        → Contains s.submitted.blocks b → IsBlock b }
{}

/// Each lent reference is either queued or outstanding, and each queued one is reclaimed or still
/// in the queue. Between steps a resource has outstanding references only if it is held.
pub fn references_are_counted()
    ensures lent { (w : World) (c : Client) (s : Resource) → KeepsAlways w → Contains w.clients c
        → Contains c.resources s → s.lent ≡ s.queued + out_of s }
    ensures queued { (w : World) (c : Client) (s : Resource) → KeepsAlways w → Contains w.clients c
        → Contains c.resources s → s.queued ≡ s.reclaimed + sum_by (count_of s.id) c.queue }
    ensures held { (w : World) (c : Client) (s : Resource) → KeepsAlways w → Contains w.clients c
        → Contains c.resources s → IsTrue (is_held w c.number s.id) → 1 ≤ out_of s }
    ensures unheld { (w : World) (c : Client) (s : Resource) → Keeps w → Contains w.clients c
        → Contains c.resources s → IsFalse (is_held w c.number s.id) → out_of s ≡ 0 }
{}

/// If surfaces that are not reached are destroyed, nothing changes for the reached ones, so that
/// one collection is enough. Each reached surface exists.
pub fn one_collection_is_enough()
    ensures shown { (w : World) (id : SurfaceId) (i : FrameData) (range : SurfaceRange)
        → KeepsAlways w
        → IsTrue (has_id (reach w) id) → frame_on id (active_frames w.subs) ≡ Some i
        → Contains i.frame.metadata.references range → shown (clearing w) range ≡ shown w range }
    ensures submitted { (w : World) (id : SurfaceId) → IsTrue (has_id (reach w) id)
        → frame_on id (active_frames (clearing w).subs) ≡ frame_on id (active_frames w.subs) }
    ensures reached { (w : World) (id : SurfaceId) → KeepsAlways w
        → has_id (reach (clearing w)) id ≡ has_id (reach w) id }
    ensures once { (w : World) → KeepsAlways w → collect (collect w) ≡ collect w }
    ensures exists { (w : World) (id : SurfaceId) → KeepsAlways w → IsTrue (has_id (reach w) id)
        → IsTrue (exists w id) }
{}

/// Between steps nothing is late. A waiting submission lacks a dependency, and its deadline is
/// still to come. A marked surface that exists is reached. A submission without feedback is
/// waiting, active or in flight.
pub fn nothing_is_late()
    ensures waits { (w : World) (s : Submission) → Keeps w → Contains w.subs s
        → IsTrue (is_waiting s)
        → IsFalse (has_come w s) }
    ensures due { (w : World) (s : Submission) → Keeps w → Contains w.subs s → IsTrue (is_waiting s)
        → IsFalse (list_all (is_met w) s.submitted.frame.metadata.dependencies) × (w.tick < s.due) }
    ensures marked { (w : World) (s : Surface) → Keeps w → Contains w.surfaces s → IsTrue s.marked
        → IsFalse s.destroyed → IsTrue (has_id (reach w) s.id) }
    ensures unfed { (w : World) (s : Submission) → Keeps w → Contains w.subs s → IsFalse s.fed
        → IsTrue (is_open s) ⊎ IsTrue (is_in_flight w.in_flight (sub_of s)) }
{}

/// If an event's own change leaves a world in which the invariants between steps hold, the step
/// has no effects and does not change that world further.
pub fn nothing_follows()
    ensures { (a : Answer) → Keeps a.world
        → outcome_of [] a ≡ record { reply = a.reply; effects = no_effects; world = a.world } }
{}

/// Between steps, Done with a frame in flight only queues returns and gives feedback, Done
/// without one changes nothing, and Over only notes that it has come. None of them makes a
/// submission active or destroys a surface, so none needs room for that.
pub fn ends_take_no_room()
    ensures shown { (p : Plan) (w : World) (drawn : List Sub) → Keeps w → w.in_flight ≡ Some drawn
        → step_in p w event.Done ≡ presenting drawn (landed w) }
    ensures nothing { (p : Plan) (w : World) → Keeps w → w.in_flight ≡ None
        → step_in p w event.Done
        ≡ record { reply = reply.Nothing; effects = no_effects; world = w } }
    ensures over { (p : Plan) (w : World) → Keeps w
        → step_in p w event.Over
        ≡ record { reply = reply.Ended; effects = no_effects; world = record w { over = true } } }
{}

/// These changes preserve the invariants between steps too: a refused message, each message other
/// than Submit, SetRoot and Close, a drawing, and Over.
pub fn idle_changes_keep()
    ensures refused { (w : World) (c : Client) (r : Refusal) → Keeps w
        → Keeps (refused w c r).world }
    ensures upload { (w : World) (c : Client) (id : ℕ) (block : Block) → Keeps w
        → Keeps (upload_answer w c id block).world }
    ensures noted { (w : World) (c : Client) (n : ℕ) → Keeps w
        → Keeps (taking (answer_tick w.tick n) c w) }
    ensures reclaimed { (w : World) (c : Client) → Keeps w → Keeps (taking reclaim c w) }
    ensures hierarchy { (w : World) (c : Client) (parent child : FrameSinkId) → Keeps w
        → Keeps (hierarchy_answer w c parent child).world }
    ensures begun { (w : World) (c : Client) → Keeps w → Keeps (await_answer w c).world }
    ensures draw { (p : Plan) (w : World) → Keeps w → Keeps (draw_answer p w).world }
    ensures over { (p : Plan) (w : World) → Keeps w → Keeps (answer_to p w event.Over).world }
{}

/// Each legal history and what is outstanding at its end can be written as a log: each of their
/// numbers fits.
pub fn histories_are_spelled()
    ensures { (p : Plan) (h : List Entry) → IsPlan p → Legal p h → Spellable h (rest_of p h) }
{}

/// The existing surfaces of a group form a chain: of any two, one is the other or newer than it.
pub fn groups_are_chains()
    ensures surfaces { (w : World) (s t : Surface) → KeepsAlways w → Contains w.surfaces s
        → Contains w.surfaces t → IsTrue (same_group s.id t.id)
        → IsTrue (at_least s.id t.id) ⊎ IsTrue (at_least t.id s.id) }
    ensures submissions { (w : World) (s t : Submission) → KeepsAlways w → Contains w.subs s
        → Contains w.subs t → IsTrue (same_group s.submitted.id t.submitted.id)
        → IsTrue (at_least s.submitted.id t.submitted.id)
        ⊎ IsTrue (at_least t.submitted.id s.submitted.id) }
{}

/// A range shows the newest active surface in the end's group that is not newer than the end and,
/// if the start is in that group, not older than the start. If there is none and the start is in
/// another group, it shows the newest active surface in that group that is not older than the
/// start. Otherwise it shows nothing.
pub fn ranges_show_the_newest()
    ensures end { (w : World) (range : SurfaceRange) (i : FrameData) → KeepsAlways w
        → Contains (active_frames w.subs) i → IsTrue (in_range range i) → ((j : FrameData)
        → Contains (active_frames w.subs) j → IsTrue (in_range range j)
        → (j ≡ i) ⊎ IsTrue (newer i.id.local j.id.local)) → shown w range ≡ Some i.id }
    ensures start { (w : World) (range : SurfaceRange) (i : FrameData) → KeepsAlways w
        → ((j : FrameData)
        → Contains (active_frames w.subs) j → IsFalse (in_range range j))
        → Contains (active_frames w.subs) i → IsTrue (after_start range.start range.end i)
        → ((j : FrameData) → Contains (active_frames w.subs) j
        → IsTrue (after_start range.start range.end j)
        → (j ≡ i) ⊎ IsTrue (newer i.id.local j.id.local)) → shown w range ≡ Some i.id }
    ensures neither { (w : World) (range : SurfaceRange) → ((j : FrameData)
        → Contains (active_frames w.subs) j → IsFalse (in_range range j)) → ((j : FrameData)
        → Contains (active_frames w.subs) j → IsFalse (after_start range.start range.end j))
        → shown w range ≡ None }
{}

/// A round of settling makes the ready submissions active one after another, in order. A
/// collection destroys the lost surfaces one after another, in any order.
pub fn changes_go_one_by_one()
    ensures round { (w : World) → KeepsAlways w → round w ≡ all_rising (ready w) w }
    ensures clearing { (w : World) (cs : List Surface) → KeepsAlways w → ((c : Surface)
        → Contains cs c → Contains (lost_in w) c) → ((c : Surface) → Contains (lost_in w) c
        → Contains cs c) → clearing w ≡ all_going cs w }
{}

/// The invariants that hold at all times also hold inside a round and inside a collection, after
/// each single change, so that calls may follow one another. If one waiting submission becomes
/// active, the others still wait; if one marked surface is destroyed, the others stay marked.
pub fn single_changes_keep()
    ensures rising { (w : World) (s : Submission) → KeepsAlways w → Contains w.subs s
        → IsTrue (is_waiting s) → KeepsAlways (rising s w) }
    ensures waits { (w : World) (s t : Submission) → Contains w.subs t → IsTrue (is_waiting t)
        → IsFalse (same_sub (sub_of t) (sub_of s)) → Contains (rising s w).subs t }
    ensures going { (w : World) (c : Surface) → KeepsAlways w → IsMarked w c.id
        → KeepsAlways (going c w) }
    ensures marked { (w : World) (id : SurfaceId) (c : Surface) → IsMarked w id
        → IsMarked (going c w) id }
    ensures lost { (w : World) (c : Surface) → KeepsAlways w → Contains (lost_in w) c
        → IsMarked w c.id }
{}
