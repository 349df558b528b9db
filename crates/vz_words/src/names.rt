//! Words that are names of files.
ghost use Rattle.std.specs.Prelude.{◌≡◌, ◌&&◌, ◌∷◌};
ghost use Rattle.std.specs.List.{list_any, list_all};
ghost use Rattle.vz_frame.specs.Frame.{has_repeat};
ghost use Rattle.vz_rules.specs.Command.{is_name, are_names, are_files, same_text};
ghost use Rattle.vz_words.specs.Words.{texts};

use vz_base::limits::{MOST_FILES, MOST_NAME_BYTES};

/// Whether each of the names is the name of a file, all of them differ, and there are 1 to
/// `MOST_FILES` files.
pub(crate) fn are_names_with(names: &[String], files: &[String]) -> bool
    ensures { result ≡ (are_files (texts files.now) && are_names (texts names.now)) }
{
    are_files(files) && are_names(names)
}

/// Whether the name and each of the files is the name of a file, all differ, and there are 1 to
/// `MOST_FILES` files.
pub(crate) fn is_name_before(name: &str, files: &[String]) -> bool
    ensures { result ≡ (are_files (texts files.now) && are_names (name.now ∷ texts files.now)) }
{
    are_files(files) && is_name(name) && !has_word(files, name) && are_names(files)
}

/// Whether there are 1 to `MOST_FILES` files.
fn are_files(files: &[String]) -> bool
    ensures { result ≡ are_files (texts files.now) }
{
    !files.is_empty() && files.len() <= MOST_FILES
}

/// Whether each word is the name of a file, and all differ.
pub(crate) fn are_names(words: &[String]) -> bool
    ensures { result ≡ are_names (texts words.now) }
{
    all_are_names(words) && !has_repeat(words)
}

/// Whether a word is the name of a file: it has 1 to `MOST_NAME_BYTES` bytes and begins with no
/// dash.
fn is_name(word: &str) -> bool
    ensures { result ≡ is_name word.now }
{
    let bytes = word.as_bytes();
    !bytes.is_empty() && bytes.len() <= MOST_NAME_BYTES && bytes[0] != b'-'
}

/// Whether each word is the name of a file.
fn all_are_names(words: &[String]) -> bool
    ensures { result ≡ list_all is_name (texts words.now) }
{
    match words {
        [] => true,
        [first, rest @ ..] => is_name(first.as_str()) && all_are_names(rest),
    }
}

/// Whether two of the words are the same.
fn has_repeat(words: &[String]) -> bool
    ensures { result ≡ has_repeat same_text (texts words.now) }
{
    match words {
        [] => false,
        [first, rest @ ..] => has_word(rest, first.as_str()) || has_repeat(rest),
    }
}

/// Whether the words include this one.
fn has_word(words: &[String], word: &str) -> bool
    ensures { result ≡ list_any (same_text word.now) (texts words.now) }
{
    match words {
        [] => false,
        [first, rest @ ..] => is_same(word, first.as_str()) || has_word(rest, word),
    }
}

/// Whether two words are the same.
pub(crate) fn is_same(a: &str, b: &str) -> bool
    ensures { result ≡ same_text a.now b.now }
{
    a == b
}
