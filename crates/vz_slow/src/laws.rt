//! Laws of the replay: each is the contract of a function with an empty body. A caller gets its
//! clauses by a call.
ghost use Rattle.std.specs.Prelude.{List};
ghost use Rattle.vz_rules.specs.Plan.{Plan};
ghost use Rattle.vz_rules.specs.declared.entry.Entry.{Entry};
ghost use Rattle.vz_rules.specs.Step.{Legal};
ghost use Rattle.vz_slow.specs.Replaying.{NamesClients};

/// In a history that the machine makes, each event of a client names a client of the plan, as
/// `plain_frame` requires.
pub fn histories_name_clients()
    ensures { (p : Plan) (h : List Entry) → Legal p h → NamesClients p h }
{}
