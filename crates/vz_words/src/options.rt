//! The options at the front of a list of words.
ghost use Rattle.std.specs.Prelude.{codes, ℕ, List, Option, IfSome, IfNone};
ghost use Rattle.vz_rules.specs.Command.{Word};
ghost use Rattle.vz_words.specs.Words.{texts, IsFlag, IsBuffers};

use crate::names::is_same;
use crate::numbers::number;
use vz_base::limits::MOST_BUFFERS;

/// Whether the first word is this option. If so, the words after it come with the answer, and else
/// all words.
pub(crate) fn flag<'a>(words: &'a [String], name: &str) -> (bool, &'a [String])
    ensures { IsFlag name.now (texts words.now) result.0 (texts result.1.now) }
{
    if let [first, rest @ ..] = words {
        if is_same(first.as_str(), name) {
            return (true, rest);
        }
    }
    (false, words)
}

/// Reads the number of buffers if the first word is the option for it, and returns it with the
/// words after it. It returns None if that option comes without a valid number of buffers.
pub(crate) fn buffers(words: &[String]) -> Option<(Option<u32>, &[String])>
    ensures found { IfSome result (λ b. IsBuffers (texts words.now) b.0 (texts b.1.now)) }
    ensures none { IfNone result ((b : Option ℕ) (rest : List Word)
        → IsBuffers (texts words.now) b rest → ⊥) }
{
    let (given, rest) = flag(words, "--buffers");
    if !given {
        return Some((None, rest));
    }
    let [word, rest @ ..] = rest else {
        return None;
    };
    let count = number(word.as_str(), 1, MOST_BUFFERS as u32)?;
    Some((Some(count), rest))
}
