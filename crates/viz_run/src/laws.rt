//! Laws of the demonstration's plan. Each is the contract of an empty function; a caller that
//! calls it may use its clauses.
ghost use Rattle.std.specs.Prelude.{ℕ, ◌≤◌};
ghost use Rattle.vz_base.specs.declared.limits.TheConstants.{MOST_ROUNDS};
ghost use Rattle.vz_rules.specs.Plan.{IsPlan};
ghost use Rattle.viz_run.specs.Planned.{demo_plan};

/// For up to `MOST_ROUNDS` rounds the generated files make a plan: each fits the format, and no
/// two have the same sink.
pub fn demo_files_are_a_plan()
    ensures { (n : ℕ) → n ≤ MOST_ROUNDS → IsPlan (demo_plan n) }
{}
