//! Words that spell numbers.
ghost use Rattle.std.specs.Prelude.{◌≡◌, ◌^◌, ◌<◌, ℕ, IsTrue, IfSome, IfNone};
ghost use Rattle.std.specs.Fmt.{decimal};
ghost use Rattle.vz_frame.specs.Fits.{within};
ghost use Rattle.vz_words.specs.Words.{is_plain};

/// The number that a word spells in decimal digits, without a sign or a leading zero. It is None
/// if the word spells none, or one below `least` or above `most`.
pub(crate) fn number(word: &str, least: u32, most: u32) -> Option<u32>
    ensures found { IfSome result (λ n. word.now ≡ decimal n) }
    ensures within { IfSome result (λ n. IsTrue (within least most n)) }
    ensures none { IfNone result ((n : ℕ) → IsTrue (within least most n)
        → word.now ≡ decimal n → ⊥) }
{
    let number = digits(word)?;
    if number < least || number > most {
        return None;
    }
    Some(number)
}

/// The number that a word spells in decimal digits, without a sign or a leading zero, if it
/// spells one.
fn digits(word: &str) -> Option<u32>
    ensures found { IfSome result (λ n. word.now ≡ decimal n) }
    ensures none { IfNone result ((n : ℕ) → n < 2 ^ 32 → word.now ≡ decimal n → ⊥) }
{
    if !is_plain(word.as_bytes()) {
        return None;
    }
    word.parse::<u32>().ok()
}

/// Whether a text begins with no plus sign, and with no zero followed by other bytes.
fn is_plain(bytes: &[u8]) -> bool
    ensures { result ≡ is_plain bytes.now }
{
    match bytes {
        [b'+', ..] | [b'0', _, ..] => false,
        _ => true,
    }
}
