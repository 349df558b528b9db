//! A law on briefs. It is the contract of an empty function; a caller that calls it may use its
//! clause.
ghost use Rattle.std.specs.Prelude.{◌≡◌, List, length};
ghost use Rattle.vz_rules.specs.Plan.{Plan, IsPlan};
ghost use Rattle.vz_rules.specs.Step.{entry_in, world};
ghost use Rattle.vz_rules.specs.declared.entry.Entry.{Entry};
ghost use Rattle.vz_rules.specs.declared.entry.Event.{Event};
ghost use Rattle.vz_rules.specs.declared.entry.Reply.TheVariants as reply;
ghost use Rattle.vz_rules.specs.declared.entry.Returned.{Returned};
ghost use Rattle.vz_turn.specs.Briefs.{brief_in};
ghost use Rattle.vz_turn.specs.declared.brief.Brief.TheVariants as brief;
ghost use Rattle.vz_turn.specs.declared.brief.ClientBrief.TheVariants as client;

/// The brief of a reply has the exact number of its returns, whatever legal history came before:
/// there are never more than `GREATEST_NUMBER` at a time.
pub fn returns_are_counted()
    ensures counted { (p : Plan) (h : List Entry) (e : Event) (returns : List Returned) → IsPlan p
        → (entry_in p (world p h) e).reply ≡ reply.Reclaimed returns
        → brief_in (entry_in p (world p h) e).reply
        ≡ brief.Client (client.Reclaimed (length returns)) }
{}
