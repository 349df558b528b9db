//! Laws of verdicts. Each is the contract of an empty function; a caller that calls it may use
//! its clauses.
ghost use Rattle.std.specs.Prelude.{◌≡◌, ℕ, List};
ghost use Rattle.vz_rules.specs.Plan.{Plan, IsPlan};
ghost use Rattle.vz_check.specs.declared.verdict.Verdict.{Verdict};
ghost use Rattle.vz_check.specs.Verdict.{IsVerdict};

/// At most one verdict is true of a log and the bytes of its frames.
pub fn verdicts_are_determined()
    ensures { (p : Plan) (log bytes : List ℕ) (v w : Verdict) → IsPlan p
        → IsVerdict p log bytes v → IsVerdict p log bytes w → v ≡ w }
{}
