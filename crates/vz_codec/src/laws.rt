//! Laws of the format of message files. Each is the contract of an empty function; a caller that
//! calls it may use its clauses.
ghost use Rattle.std.specs.Prelude.{◌≡◌, ◌≢◌, ◌<◌, ◌↔◌, ℕ, Some, None, Result, Ok, List, [], ◌++◌, length, All, IsTrue};
ghost use Rattle.vz_frame.specs.declared.message.ClientFile.{ClientFile};
ghost use Rattle.vz_codec.specs.declared.fault.FileRule.TheVariants as rules;
ghost use Rattle.vz_frame.specs.Fits.{fits_file};
ghost use Rattle.vz_codec.specs.declared.fault.DecodeError.{DecodeError};
ghost use Rattle.vz_codec.specs.Spelling.{file_bytes};
ghost use Rattle.vz_codec.specs.Grammar.{Spells, Decodes, Finds, Wrong, wrong};

/// A file has at most one encoding, and no bytes encode two files.
pub fn files_have_one_spelling()
    ensures spelling { (a b : List ℕ) (file : ClientFile) → Spells a file → Spells b file → a ≡ b }
    ensures file { (bytes : List ℕ) (a b : ClientFile) → Spells bytes a → Spells bytes b → a ≡ b }
{}

/// No encoding is the beginning of another.
pub fn no_spelling_begins_another()
    ensures { (bytes more : List ℕ) (a b : ClientFile)
        → Spells bytes a → Spells (bytes ++ more) b → more ≡ [] }
{}

/// Bytes encode a file exactly if they have no fault.
pub fn bytes_without_fault_spell()
    ensures { (bytes : List ℕ) → All (λ b. b < 256) bytes
        → (wrong bytes ≡ None) ↔ ((file : ClientFile) × Spells bytes file) }
{}

/// If bytes are missing, the place of the fault is the number of bytes. The place of any other
/// fault is that of a byte that is there.
pub fn faults_have_places()
    ensures missing { (bytes : List ℕ) (fault : Wrong) → wrong bytes ≡ Some fault
        → fault.rule ≡ rules.Short → fault.at ≡ length bytes }
    ensures others { (bytes : List ℕ) (fault : Wrong) → wrong bytes ≡ Some fault
        → fault.rule ≢ rules.Short → fault.at < length bytes }
{}

/// A file that fits is encoded by its own bytes. Conversely, bytes that encode a file are its own
/// bytes, and the file fits.
pub fn bytes_of_a_file_spell_it()
    ensures spelled { (file : ClientFile) → IsTrue (fits_file file)
        → Spells (file_bytes file) file }
    ensures own { (bytes : List ℕ) (file : ClientFile) → Spells bytes file
        → bytes ≡ file_bytes file }
    ensures fitting { (bytes : List ℕ) (file : ClientFile) → Spells bytes file
        → IsTrue (fits_file file) }
{}

/// Decoding the bytes of a file that fits gives that file, unless an allocation fails. A file
/// that was decoded fits, and its bytes are those that it was decoded from.
pub fn decoding_undoes_encoding()
    ensures found { (file : ClientFile) → IsTrue (fits_file file)
        → (found : Result ClientFile DecodeError)
        → Decodes (file_bytes file) found → Finds found file }
    ensures again { (bytes : List ℕ) (file : ClientFile) → All (λ b. b < 256) bytes
        → Decodes bytes (Ok file) → file_bytes file ≡ bytes }
    ensures fitting { (bytes : List ℕ) (file : ClientFile) → All (λ b. b < 256) bytes
        → Decodes bytes (Ok file) → IsTrue (fits_file file) }
{}
