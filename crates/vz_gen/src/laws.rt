//! Laws of the generated files. Each is the contract of an empty function; a caller that calls it
//! may use its clauses.
ghost use Rattle.std.specs.Prelude.{◌≡◌, ◌≤◌, ℕ, IsTrue, false, length, map};
ghost use Rattle.std.specs.List.{list_all};
ghost use Rattle.vz_base.specs.declared.limits.TheConstants.{MOST_ROUNDS};
ghost use Rattle.vz_ids.specs.Ids.{same_sink};
ghost use Rattle.vz_frame.specs.Fits.{fits_file};
ghost use Rattle.vz_frame.specs.Frame.{has_repeat};
ghost use Rattle.vz_gen.specs.Make.{make};

/// Three files are generated, and no two have the same sink. For up to `MOST_ROUNDS` rounds each
/// of them fits the format, so that it can be encoded and run.
pub fn made_files_fit()
    ensures three { (n : ℕ) → length (make n) ≡ 3 }
    ensures fit { (n : ℕ) → n ≤ MOST_ROUNDS → IsTrue (list_all fits_file (make n)) }
    ensures distinct { (n : ℕ) → has_repeat same_sink (map (λ f. f.sink) (make n)) ≡ false }
{}
