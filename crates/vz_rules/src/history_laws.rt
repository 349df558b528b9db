//! Laws of whole histories. Each is the contract of an empty function; a caller that calls it may
//! use its clauses.
ghost use Rattle.std.specs.Prelude.{◌≡◌, ℕ, ◌<◌, ◌↔◌, Some, List, [], ◌∷◌, ◌++◌, length, slice_get, count_by, if◌then◌else◌, IsTrue, IsFalse};
ghost use Rattle.vz_rules.specs.Plan.{Plan, IsPlan};
ghost use Rattle.vz_rules.specs.declared.entry.Entry.{Entry};
ghost use Rattle.vz_rules.specs.declared.entry.Event.TheVariants as event;
ghost use Rattle.vz_rules.specs.declared.entry.Refusal.{Refusal};
ghost use Rattle.vz_rules.specs.declared.entry.Reply.TheVariants as reply;
ghost use Rattle.vz_rules.specs.World.{World, Submission, is_waiting, sub_of, has_sub};
ghost use Rattle.vz_rules.specs.Settle.{has_come};
ghost use Rattle.vz_rules.specs.Step.{world, step_in, entry_in, NamesClient, Legal};
ghost use Rattle.vz_rules.specs.Whole.{is_in_time};
ghost use Rattle.vz_rules.specs.Accounts.{takes, taken_in, IsTaking, accepts, IsAcceptance, AreAccounts, ReturnsEachOnce, TellsEachOnce, IsTimely, answered_in, AnswersTick};

/// Each front part of a legal history is legal, and each entry is the one that the machine makes
/// after the entries before it.
pub fn prefixes_are_legal()
    ensures front { (p : Plan) (h k : List Entry) → Legal p (h ++ k) → Legal p h }
    ensures entries { (p : Plan) (h : List Entry) (e : Entry) (k : List Entry)
        → Legal p (h ++ e ∷ k)
        → NamesClient p e.event × (e ≡ entry_in p (world p h) e.event) }
{}

/// A client took as many messages as it has entries, not counting those refused as `NotYet` or
/// `NoMessage`. They are the first messages of its file: the first such entry answers the first
/// message, the second entry the second, and so on.
pub fn messages_are_taken_in_order()
    ensures count { (p : Plan) (h : List Entry) (c : ℕ) → Legal p h
        → taken_in (world p h) c ≡ length (takes h c) }
    ensures order { (p : Plan) (h : List Entry) (c k : ℕ) (e : Entry) → Legal p h
        → slice_get (takes h c) k ≡ Some e → IsTaking p h c k e }
{}

/// The submissions of the world are those of the entries that accept one, with the frames of the
/// client files, in the order of the entries.
pub fn submissions_are_those_accepted()
    ensures count { (p : Plan) (h : List Entry) → Legal p h
        → length (world p h).subs ≡ count_by accepts h }
    ensures order { (p : Plan) (h : List Entry) (n : ℕ) (s : Submission) → Legal p h
        → slice_get (world p h).subs n ≡ Some s → IsAcceptance p h n s.submitted }
{}

/// For each resource of each client, the numbers of references that were lent, queued, reclaimed
/// and are held agree with the history.
pub fn references_are_accounted()
    ensures { (p : Plan) (h : List Entry) (c id : ℕ) → Legal p h → NamesClient p (event.Client c)
        → AreAccounts p h c id }
{}

/// Each lent reference is returned once, in the step after which no surface and no drawn frame
/// holds its resource. A reference that is still held at the end is in the rest.
pub fn references_are_returned_once()
    ensures { (p : Plan) (h : List Entry) → IsPlan p → Legal p h → ReturnsEachOnce p h }
{}

/// An accepted submission that got feedback got it once, and one that was ever active became
/// active once.
pub fn feedback_is_given_once()
    ensures { (p : Plan) (h : List Entry) → Legal p h → TellsEachOnce p h }
{}

/// A submission becomes active in the step after which its dependencies are met or its deadline
/// has come. For a submission that waits after a step, neither is so.
pub fn activations_are_timely()
    ensures activated { (p : Plan) (h : List Entry) (e : Entry) (k : List Entry) (n : ℕ)
        (s : Submission)
        → IsPlan p → Legal p (h ++ e ∷ k) → slice_get (world p (h ++ e ∷ [])).subs n ≡ Some s
        → IsTrue (has_sub e.effects.activated (sub_of s)) → IsTimely p h e n s }
    ensures waiting { (p : Plan) (h : List Entry) (n : ℕ) (s : Submission) → IsPlan p
        → slice_get (world p h).subs n ≡ Some s → IsTrue (is_waiting s)
        → IsFalse (has_come (world p h) s) }
{}

/// If the tick is above 0, a client has answered it exactly if, after the begin-frame of that
/// tick, some entry is an accepted submission or a DidNotProduce of this client that carries the
/// tick's number.
pub fn ticks_are_answered()
    ensures { (p : Plan) (h : List Entry) (c : ℕ) → Legal p h → NamesClient p (event.Client c)
        → 0 < (world p h).tick
        → (answered_in (world p h) c ≡ (world p h).tick) ↔ AnswersTick p h c (world p h).tick }
{}

ghost use Rattle.vz_rules.specs.Kept.{Keeps, no_effects};
ghost use Rattle.vz_rules.specs.Unchanged.{ChangesNothing, after_taking};

/// A refused message has no effects. It changes the world only in that the message is taken, and
/// not even so if it is refused as `NotYet` or `NoMessage`.
pub fn refusals_change_nothing()
    ensures steps { (p : Plan) (w : World) (c : ℕ) (r : Refusal) → Keeps w
        → (step_in p w (event.Client c)).reply ≡ reply.Refused r
        → ChangesNothing w c r (step_in p w (event.Client c)) }
    ensures entries { (p : Plan) (h : List Entry) (e : Entry) (k : List Entry) (c : ℕ) (r : Refusal)
        → IsPlan p → Legal p (h ++ e ∷ k) → e.event ≡ event.Client c → e.reply ≡ reply.Refused r
        → (e.effects ≡ no_effects) × (world p (h ++ e ∷ [])
        ≡ (if is_in_time e.reply then after_taking c (world p h) else world p h)) }
{}

ghost use Rattle.vz_geom.specs.Rectangle.{Rectangle, is_empty_rect};
ghost use Rattle.vz_rules.specs.Whole.{damage_after};

/// If a drawing is answered `Drawn`, the reply has the damage since the last aggregation. If it
/// is answered `Unchanged`, that damage is empty.
pub fn drawings_tell_the_damage()
    ensures drawn { (p : Plan) (h : List Entry) (e : Entry) (k : List Entry) (damage : Rectangle)
        → Legal p (h ++ e ∷ k) → e.reply ≡ reply.Drawn damage → damage ≡ damage_after p h }
    ensures unchanged { (p : Plan) (h : List Entry) (e : Entry) (k : List Entry)
        → Legal p (h ++ e ∷ k) → e.reply ≡ reply.Unchanged
        → IsTrue (is_empty_rect (damage_after p h)) }
{}
