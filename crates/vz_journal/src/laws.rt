//! Laws of the text of logs. Each is the contract of an empty function; a caller that calls it
//! may use its clauses.
ghost use Rattle.std.specs.Prelude.{◌≡◌, ℕ, ◌⊎◌, Result, List, [], ◌++◌};
ghost use Rattle.vz_journal.specs.declared.stop.LogError.{LogError};
ghost use Rattle.vz_journal.specs.Answers.{IsLog, IsReading, Finds};
ghost use Rattle.vz_rules.specs.declared.entry.Entry.{Entry};
ghost use Rattle.vz_rules.specs.declared.entry.Rest.{Rest};
ghost use Rattle.vz_rules.specs.Log.{Spellable, log_text, IsFirstBadLine};

/// No text is the log of two histories, or of two rests.
pub fn logs_stand_for_one_history()
    ensures { (bytes : List ℕ) (g h : List Entry) (rest_g rest_h : Rest)
        → IsLog bytes g rest_g → IsLog bytes h rest_h → (g ≡ h) × (rest_g ≡ rest_h) }
{}

/// No log is the beginning of another.
pub fn no_log_begins_another()
    ensures { (bytes more : List ℕ) (g h : List Entry) (rest_g rest_h : Rest)
        → IsLog bytes g rest_g → IsLog (bytes ++ more) h rest_h → more ≡ [] }
{}

/// If a log is written and then read, the answer is the same history and rest, unless an
/// allocation fails. A text that was read is exactly the text that is written for the answer.
pub fn reading_undoes_writing()
    ensures found { (h : List Entry) (rest : Rest) → Spellable h rest
        → (found : Result (List Entry × Rest) LogError) → IsReading (log_text h rest) found
        → Finds found h rest }
    ensures again { (bytes : List ℕ) (h : List Entry) (rest : Rest)
        → IsReading bytes (Ok (h, rest)) → log_text h rest ≡ bytes }
{}

/// A text is either a log or has a first bad line, and never both. It has only one first bad
/// line.
pub fn texts_are_logs_or_have_a_bad_line()
    ensures each { (bytes : List ℕ) → ((h : List Entry) × (rest : Rest) × IsLog bytes h rest)
        ⊎ ((line : ℕ) × IsFirstBadLine bytes line) }
    ensures apart { (bytes : List ℕ) (h : List Entry) (rest : Rest) (line : ℕ)
        → IsLog bytes h rest → IsFirstBadLine bytes line → ⊥ }
    ensures one { (bytes : List ℕ) (a b : ℕ)
        → IsFirstBadLine bytes a → IsFirstBadLine bytes b → a ≡ b }
{}
