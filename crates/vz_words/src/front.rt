//! The numbers at the front of a list of words.
ghost use Rattle.std.specs.Prelude.{◌≡◌, ◌≤◌, ◌+◌, ℕ, List, IfSome, IfNone};
ghost use Rattle.vz_rules.specs.Command.{Word, frames_fit};
ghost use Rattle.vz_words.specs.Words.{texts, IsDisplay, IsTimed};
ghost use Rattle.vz_base.specs.declared.limits.TheConstants.{GREATEST_DISPLAY_SIDE, MOST_TICKS};

use crate::numbers::number;
use vz_base::limits::{GREATEST_DISPLAY_SIDE, MOST_DRAWN_BYTES, MOST_TICKS};

/// The sides of the display, and the words after them.
pub(crate) struct Display<'a> {
    /// The width of the display in pixels.
    pub width: u32,
    /// The height of the display in pixels.
    pub height: u32,
    /// The words after the sides.
    pub rest: &'a [String],
}

/// The sides of the display, the number of begin-frames, and the words after them.
pub(crate) struct Timed<'a> {
    /// The width of the display in pixels.
    pub width: u32,
    /// The height of the display in pixels.
    pub height: u32,
    /// How many begin-frames the display makes.
    pub ticks: u32,
    /// The words after the numbers.
    pub rest: &'a [String],
}

/// Reads the sides of the display from the first two words. It returns None if they spell none.
pub(crate) fn sides(words: &[String]) -> Option<Display<'_>>
    ensures found { IfSome result (λ d. IsDisplay (texts words.now) d.width d.height
        (texts d.rest.now)) }
    ensures none { IfNone result ((w h : ℕ) (rest : List Word)
        → IsDisplay (texts words.now) w h rest → ⊥) }
{
    let [width, height, rest @ ..] = words else {
        return None;
    };
    let width = number(width.as_str(), 1, GREATEST_DISPLAY_SIDE)?;
    let height = number(height.as_str(), 1, GREATEST_DISPLAY_SIDE)?;
    Some(Display {
        width,
        height,
        rest,
    })
}

/// Reads the sides of the display and the number of begin-frames from the first three words. It
/// returns None if they spell none, or if the frames drawn then could have more than
/// `MOST_DRAWN_BYTES` bytes together.
pub(crate) fn sides_and_ticks(words: &[String]) -> Option<Timed<'_>>
    ensures found { IfSome result (λ t. IsTimed (texts words.now) t.width t.height t.ticks
        (texts t.rest.now)) }
    ensures none { IfNone result ((w h ticks : ℕ) (rest : List Word)
        → IsTimed (texts words.now) w h ticks rest → ⊥) }
{
    let Display {
        width,
        height,
        rest,
    } = sides(words)?;
    let [ticks, rest @ ..] = rest else {
        return None;
    };
    let ticks = number(ticks.as_str(), 0, MOST_TICKS)?;
    if !frames_fit(width, height, ticks + 1) {
        return None;
    }
    Some(Timed {
        width,
        height,
        ticks,
        rest,
    })
}

/// Whether `frames` frames of this size have at most `MOST_DRAWN_BYTES` bytes together.
/// Conditions: the sides are those of a display, and there are no more frames than a run draws.
fn frames_fit(width: u32, height: u32, frames: u32) -> bool
    requires width { width ≤ GREATEST_DISPLAY_SIDE }
    requires height { height ≤ GREATEST_DISPLAY_SIDE }
    requires frames { frames ≤ MOST_TICKS + 1 }
    ensures { result ≡ frames_fit width height frames }
{
    u64::from(width) * u64::from(height) * 4 * u64::from(frames) <= MOST_DRAWN_BYTES
}
