//! Laws of references and of feedback, of one client and of all: each is the contract of a
//! function with an empty body.
ghost use Rattle.std.specs.Prelude.{◌≡◌, ℕ, ◌+◌, ◌-◌, ◌<◌, ◌==◌, not, ◌&&◌, ◌||◌, if◌then◌else◌, List, IsTrue, IsFalse, false, [], ◌∷◌, ◌++◌, map, Some, None};
ghost use Rattle.std.specs.List.{Contains};
ghost use Rattle.vz_ids.specs.declared.Sub.{Sub};
ghost use Rattle.vz_ids.specs.Ids.{same_sub};
ghost use Rattle.vz_rules.specs.World.{World, Client, Submission, sub_of, has_sub};
ghost use Rattle.vz_rules.specs.Kept.{AreRising, KeepsShelf, KeepsAlways};
ghost use Rattle.vz_rules.specs.Messages.{in_use as refused_in_use};
ghost use Rattle.vz_rules.specs.Returns.{holds, returns_of, queue_returns, give_back};
ghost use Rattle.vz_rules.specs.Singly.{rising};
ghost use Rattle.vz_returns.specs.Unfed.{in_order, is_open, opened, fed, AreUnfed, mark_of};
ghost use Rattle.vz_returns.specs.Held.{Holding, received_of, alive_of, is_rising, lent, shared, released, is_last, in_use};
ghost use Rattle.vz_returns.specs.Released.{are_some, is_sorted, AreCounts, release_all, returns_in};
ghost use Rattle.vz_returns.specs.Lent.{Lent, AreLent, IsLender};
ghost use Rattle.vz_returns.specs.Quiet.{AreAlike};

/// After `opened` a submission awaits feedback, after `fed` it does not, and the others do not
/// change. The list stays in the order of clients and ordinals.
pub fn feedback_is_kept()
    ensures opened { (list : List Sub) (s t : Sub)
        → is_open (opened s list) t ≡ (same_sub s t || is_open list t) }
    ensures in_order { (list : List Sub) (s : Sub) → IsTrue (in_order list)
        → IsFalse (is_open list s) → IsTrue (in_order (opened s list)) }
    ensures fed { (list : List Sub) (s t : Sub)
        → is_open (fed s list) t ≡ (not (same_sub s t) && is_open list t) }
    ensures fed_in_order { (list : List Sub) (s : Sub) → IsTrue (in_order list)
        → IsTrue (in_order (fed s list)) }
{}

/// The list stays that of the submissions without feedback in the machine's state, after one more
/// is accepted and opened, and after one gets its feedback.
pub fn unfed_are_those()
    ensures accepted { (subs : List Submission) (list : List Sub) (s : Submission) → s.fed ≡ false
        → AreUnfed subs list → AreUnfed (subs ++ s ∷ []) (opened (sub_of s) list) }
    ensures marked { (subs : List Submission) (list : List Sub) (f : Sub) → AreUnfed subs list
        → AreUnfed (map (mark_of f) subs) (fed f list) }
{}

/// After one more reference of a resource is lent, one more of it is received and alive. The
/// other resources do not change, and the ids stay in order.
pub fn lending_counts()
    ensures received { (h : Holding) (id j : ℕ) → received_of j (lent id h).counted
        ≡ (if id == j then received_of j h.counted + 1 else received_of j h.counted) }
    ensures alive { (h : Holding) (id j : ℕ) → alive_of j (lent id h).counted
        ≡ (if id == j then alive_of j h.counted + 1 else alive_of j h.counted) }
    ensures rising { (h : Holding) (id : ℕ) → IsTrue (is_rising h.counted)
        → IsTrue (is_rising (lent id h).counted) }
    ensures some { (h : Holding) (id : ℕ) → IsTrue (are_some h.counted)
        → IsTrue (are_some (lent id h).counted) }
{}

/// After one more reference is held, one more is alive, and none more is received.
pub fn holding_counts()
    ensures received { (h : Holding) (id j : ℕ)
        → received_of j (shared id h).counted ≡ received_of j h.counted }
    ensures alive { (h : Holding) (id j : ℕ) → alive_of j (shared id h).counted
        ≡ (if id == j then alive_of j h.counted + 1 else alive_of j h.counted) }
    ensures rising { (h : Holding) (id : ℕ) → IsTrue (is_rising h.counted)
        → IsTrue (is_rising (shared id h).counted) }
    ensures some { (h : Holding) (id : ℕ) → 0 < alive_of id h.counted
        → IsTrue (are_some h.counted) → IsTrue (are_some (shared id h).counted) }
{}

/// After a reference is released, one fewer is alive. If it was the last, the count of those
/// received is 0 again.
pub fn releasing_counts()
    ensures received { (h : Holding) (id j : ℕ) → received_of j (released id h).counted
        ≡ (if id == j then (if is_last j h then 0 else received_of j h.counted)
        else received_of j h.counted) }
    ensures alive { (h : Holding) (id j : ℕ) → alive_of j (released id h).counted
        ≡ (if id == j then alive_of j h.counted - 1 else alive_of j h.counted) }
    ensures rising { (h : Holding) (id : ℕ) → IsTrue (is_rising h.counted)
        → IsTrue (is_rising (released id h).counted) }
    ensures some { (h : Holding) (id : ℕ) → 0 < alive_of id h.counted
        → IsTrue (are_some h.counted) → IsTrue (are_some (released id h).counted) }
{}

/// Suppose the counts are those of a client's references after the references of a list are
/// released. If these are then released by rising id, the returned resources are those that the
/// machine's state gives back to the client, in the same order, and the counts are those of the
/// client after it.
pub fn releases_give_back()
    ensures returns { (w : World) (c : Client) (h : Holding) (ids : List ℕ)
        → AreCounts w c h ids → AreRising c.resources → IsTrue (is_sorted ids)
        → returns_in ids h ≡ returns_of w c }
    ensures counts { (w : World) (c : Client) (h : Holding) (ids : List ℕ)
        → AreCounts w c h ids → AreRising c.resources → IsTrue (is_sorted ids)
        → AreCounts (give_back w) (queue_returns w c) (release_all ids h) [] }
{}

/// If the counts are those of a client's references, a resource is in use exactly if the
/// machine's state refuses an upload of it.
pub fn uses_are_refused()
    ensures { (w : World) (c : Client) (h : Holding) (id : ℕ) → AreCounts w c h []
        → KeepsShelf (holds w) w.subs c → in_use id h ≡ refused_in_use c.resources id }
{}

/// Each client of a state has its record. A record that is right for one state is right for each
/// other state with the same clients, surfaces, submissions and drawn frame, in whatever order
/// the submissions are listed. A drawn frame without submissions holds no references.
pub fn references_are_of_the_state()
    ensures lender { (w : World) (c : Client) (lenders : List Lent) → KeepsAlways w
        → Contains w.clients c → AreLent w lenders → IsLender c.number lenders }
    ensures alike { (w v : World) (lenders : List Lent) → AreAlike w v → AreLent w lenders
        → AreLent v lenders }
    ensures order { (w : World) (a b : List Sub) (lenders : List Lent)
        → ((sub : Sub) → has_sub a sub ≡ has_sub b sub)
        → AreLent (record w { in_flight = Some a }) lenders
        → AreLent (record w { in_flight = Some b }) lenders }
    ensures begun { (w : World) (lenders : List Lent) → w.in_flight ≡ None → AreLent w lenders
        → AreLent (record w { in_flight = Some [] }) lenders }
    ensures over { (w : World) (lenders : List Lent)
        → AreLent (record w { in_flight = Some [] }) lenders
        → AreLent (record w { in_flight = None }) lenders }
{}
