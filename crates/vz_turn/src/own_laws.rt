//! Laws on the entries that one caller made. They are the contract of an empty function; a
//! caller that calls it may use its clauses.
ghost use Rattle.std.specs.Prelude.{◌≡◌, ◌++◌, ◌∷◌, [], length};
ghost use mathlib.Core.List.{IsPrefix};
ghost use Rattle.vz_loans.specs.Rule.{Log};
ghost use Rattle.vz_loans.specs.Tokens.{Caller, mine, IsSameCaller, IsClosedBy};
ghost use Rattle.vz_rules.specs.Plan.{Plan};
ghost use Rattle.vz_rules.specs.declared.entry.Entry.{Entry};
ghost use Rattle.vz_rules.specs.declared.entry.Event.{Event};
ghost use Rattle.vz_turn.specs.declared.brief.Told.{Told};
ghost use Rattle.vz_turn.specs.Calls.{Makes};
ghost use Rattle.vz_turn.specs.Own.{own_entries, made_with};

/// The entries that a caller made are those of its calls, in their order. `counted`: there are
/// as many as places of its own. `made`, `event`: a call adds the entry that it made, which is
/// of the call's event. `same`: a call that made no entry leaves them, and so does a meeting.
/// `closed`: at the end, the whole history has exactly these entries with the caller's number.
pub fn entries_are_ones_own()
    ensures counted { (t : Caller Plan Entry) → length (made_with t) ≡ length (mine t) }
    ensures made { (old new : Caller Plan Entry) (e : Event) (told : Told)
        → IsSameCaller old new → (m : Makes old new e told)
        → made_with new ≡ made_with old ++ m.made ∷ [] }
    ensures event { (old new : Caller Plan Entry) (e : Event) (told : Told)
        (m : Makes old new e told) → m.made.event ≡ e }
    ensures same { (old new : Caller Plan Entry) → IsSameCaller old new
        → IsPrefix old.seen new.seen → mine new ≡ mine old → made_with new ≡ made_with old }
    ensures closed { (plan : Plan) (log : Log Entry) (t : Caller Plan Entry)
        → IsClosedBy plan log t → own_entries t.number log ≡ made_with t }
{}
