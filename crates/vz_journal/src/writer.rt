//! Writes a history, and what is outstanding at its end, as the text of a log.
ghost use Rattle.std.specs.Prelude.{◌≡◌, ◌<◌, [], ◌∷◌, ◌++◌, map, nat_abs, string_bytes, codes};
ghost use Rattle.std.specs.Prelude.{IfOk, OnOk};
ghost use Rattle.std.specs.Fmt.{decimal};
ghost use Rattle.std.specs.List.{flat_map};
ghost use Rattle.vz_journal.specs.Appending.{IsAppended};
ghost use Rattle.vz_rules.specs.Log.{log_text, entry_text, event_text, reply_text, refusal_text};
ghost use Rattle.vz_rules.specs.Log.{effects_text, activated_text, destroyed_text, returned_text};
ghost use Rattle.vz_rules.specs.Log.{fed_text, held_text, open_text, rule_number as rule_number_of};

use itoa::Buffer;
use std::alloc::{AllocError, Global};
use vz_base::Memory;
use vz_frame::{List, Rule};
use vz_geom::Rect;
use vz_ids::Sub;
use vz_rules::{Effects, Entry, Event, Fed, Lost, Refusal, Reply, Rest, Returned};

/// Returns the text of a log, in ASCII: a line for each entry of the history, the `held` lines
/// and the `open` lines of the rest, and the line `end`. The only error is `Memory`.
pub fn write(alloc: Global, history: &List<Entry>, rest: &Rest) -> Result<String, Memory>
    ensures { IfOk result (λ text. string_bytes text ≡ log_text history.now rest.now) }
{
    let mut text = String::new(alloc);
    push_log(&mut text, history.as_slice(), rest)?;
    Ok(text)
}

#[tactic(auto, unfolding(vz_rules::specs::Log::log_text))]
fn push_log(out: &mut String, history: &[Entry], rest: &Rest) -> Result<(), AllocError>
    ensures { OnOk result (IsAppended out.old out.new (log_text history.now rest.now)) }
{
    push_entries(out, history)?;
    push_rest(out, rest)
}

/// Appends what follows the last entry of a log: the `held` lines and the `open` lines of the
/// rest, and the line `end`. The only error is `AllocError`.
#[tactic(auto, unfolding(vz_rules::specs::Log::log_text))]
pub fn push_rest(out: &mut String, rest: &Rest) -> Result<(), AllocError>
    ensures { OnOk result (IsAppended out.old out.new (log_text [] rest.now)) }
{
    push_held(out, rest.held.as_slice())?;
    push_open(out, rest.unfed.as_slice())?;
    out.push_str("end\n")
}

fn push_entries(out: &mut String, history: &[Entry]) -> Result<(), AllocError>
    ensures { OnOk result (IsAppended out.old out.new (flat_map entry_text history.now)) }
{
    for entry in history {
        push_entry(out, entry)?;
    }
    Ok(())
}

/// Appends the line of an entry. The only error is `AllocError`. It is inlined, as are the lines
/// that a long history has most of: a client's, with one word and without effects.
#[tactic(auto, unfolding(vz_rules::specs::Log::entry_text))]
#[inline(always)]
pub fn push_entry(out: &mut String, entry: &Entry) -> Result<(), AllocError>
    ensures { OnOk result (IsAppended out.old out.new (entry_text entry.now)) }
{
    push_event(out, entry.event)?;
    match entry.effects.get() {
        None => push_plain(out, &entry.reply),
        Some(effects) => push_rich(out, &entry.reply, effects),
    }
}

/// Appends what follows the event in a line without effects.
#[tactic(auto, unfolding(vz_rules::specs::Log::reply_text))]
#[inline(always)]
fn push_plain(out: &mut String, reply: &Reply) -> Result<(), AllocError>
    ensures { OnOk result (IsAppended out.old out.new (32 ∷ reply_text reply.now ++ 10 ∷ [])) }
{
    match reply {
        Reply::Noted => out.push_str(" noted\n"),
        Reply::Over => out.push_str(" over\n"),
        Reply::Reclaimed(returns) => push_taken(out, returns.as_slice()),
        _ => push_other(out, reply),
    }
}

/// Appends the references that a client takes, of which there are mostly none.
#[tactic(auto, unfolding(vz_rules::specs::Log::reply_text))]
#[inline(always)]
fn push_taken(out: &mut String, returns: &[Returned]) -> Result<(), AllocError>
    ensures { OnOk result (IsAppended out.old out.new
        (32 ∷ reply_text (Reply.Reclaimed returns.now) ++ 10 ∷ [])) }
{
    match returns {
        [] => out.push_str(" reclaimed\n"),
        [_, ..] => push_some_taken(out, returns),
    }
}

#[inline(never)]
fn push_some_taken(out: &mut String, returns: &[Returned]) -> Result<(), AllocError>
    ensures { OnOk result (IsAppended out.old out.new
        (32 ∷ reply_text (Reply.Reclaimed returns.now) ++ 10 ∷ [])) }
{
    push_reclaimed(out, returns)?;
    out.push_str("\n")
}

#[inline(never)]
fn push_other(out: &mut String, reply: &Reply) -> Result<(), AllocError>
    ensures { OnOk result (IsAppended out.old out.new (32 ∷ reply_text reply.now ++ 10 ∷ [])) }
{
    push_reply(out, reply)?;
    out.push_str("\n")
}

/// Appends what follows the event in a line with these effects.
#[inline(never)]
fn push_rich(out: &mut String, reply: &Reply, effects: &Effects) -> Result<(), AllocError>
    ensures { OnOk result (IsAppended out.old out.new
        (32 ∷ reply_text reply.now ++ effects_text effects.now ++ 10 ∷ [])) }
{
    push_reply(out, reply)?;
    push_effects(out, effects)?;
    out.push_str("\n")
}

/// Appends a word and then a number. It is inlined, so that a word that is known at the call is
/// stored directly.
#[inline(always)]
fn push_number(out: &mut String, word: &str, number: u32) -> Result<(), AllocError>
    ensures { OnOk result (IsAppended out.old out.new (word.now ++ decimal number)) }
{
    out.push_str(word)?;
    push_decimal(out, number)
}

/// Appends a number in decimal.
#[inline(never)]
fn push_decimal(out: &mut String, number: u32) -> Result<(), AllocError>
    ensures { OnOk result (IsAppended out.old out.new (decimal number)) }
{
    push_short(out, number)
}

/// Appends a number in decimal. It is inlined for the numbers of clients, one of which nearly each
/// line has: they have at most two digits.
#[inline(always)]
fn push_short(out: &mut String, number: u32) -> Result<(), AllocError>
    ensures { OnOk result (IsAppended out.old out.new (decimal number)) }
{
    if number < 10 {
        return push_digit(out, number);
    }
    if number < 100 {
        push_digit(out, number / 10)?;
        return push_digit(out, number % 10);
    }
    push_longer(out, number)
}

#[tactic(auto, using(std::proofs::lemmas::Fmt::decimal_digit))]
#[inline(always)]
fn push_digit(out: &mut String, digit: u32) -> Result<(), AllocError>
    requires { digit < 10 }
    ensures { OnOk result (IsAppended out.old out.new (decimal digit)) }
{
    out.push(char::from(b'0' + digit as u8))
}

#[inline(never)]
fn push_longer(out: &mut String, number: u32) -> Result<(), AllocError>
    ensures { OnOk result (IsAppended out.old out.new (decimal number)) }
{
    let mut digits = Buffer::new();
    out.push_str(digits.format(number))
}

#[tactic(auto, unfolding(vz_rules::specs::Log::event_text))]
#[inline(always)]
fn push_event(out: &mut String, event: Event) -> Result<(), AllocError>
    ensures { OnOk result (IsAppended out.old out.new (event_text event)) }
{
    match event {
        Event::Client(client) => push_client(out, client),
        Event::Begin => out.push_str("begin"),
        Event::Draw => out.push_str("draw"),
        Event::Done => out.push_str("done"),
        Event::Over => out.push_str("over"),
    }
}

#[inline(always)]
fn push_client(out: &mut String, client: u32) -> Result<(), AllocError>
    ensures { OnOk result (IsAppended out.old out.new (99 ∷ decimal client)) }
{
    out.push_str("c")?;
    push_short(out, client)
}

#[tactic(auto, unfolding(vz_rules::specs::Log::reply_text))]
fn push_reply(out: &mut String, reply: &Reply) -> Result<(), AllocError>
    ensures { OnOk result (IsAppended out.old out.new (32 ∷ reply_text reply.now)) }
{
    match reply {
        Reply::Stored => out.push_str(" stored"),
        Reply::Accepted { ordinal, index } => push_accepted(out, *ordinal, *index),
        Reply::Noted => out.push_str(" noted"),
        Reply::Reclaimed(returns) => push_reclaimed(out, returns.as_slice()),
        Reply::Rooted => out.push_str(" rooted"),
        Reply::Joined => out.push_str(" joined"),
        Reply::Began(number) => push_number(out, " began ", *number),
        Reply::Over => out.push_str(" over"),
        Reply::Left => out.push_str(" left"),
        Reply::Refused(refusal) => push_refused(out, *refusal),
        Reply::Ticked(number) => push_number(out, " ticked ", *number),
        Reply::Drawn(damage) => push_drawn(out, damage),
        Reply::Unchanged => out.push_str(" unchanged"),
        Reply::NoRoot => out.push_str(" noroot"),
        Reply::TooMuch => out.push_str(" toomuch"),
        Reply::Busy => out.push_str(" busy"),
        Reply::Shown => out.push_str(" shown"),
        Reply::Nothing => out.push_str(" nothing"),
        Reply::Ended => out.push_str(" ended"),
    }
}

#[tactic(auto, unfolding(vz_rules::specs::Log::reply_text))]
fn push_accepted(out: &mut String, ordinal: u32, index: u32) -> Result<(), AllocError>
    ensures { OnOk result
        (IsAppended out.old out.new (32 ∷ reply_text (Reply.Accepted ordinal index))) }
{
    push_number(out, " accepted ", ordinal)?;
    push_number(out, " ", index)
}

#[tactic(auto, unfolding(vz_rules::specs::Log::reply_text))]
fn push_reclaimed(out: &mut String, returns: &[Returned]) -> Result<(), AllocError>
    ensures { OnOk result
        (IsAppended out.old out.new (32 ∷ reply_text (Reply.Reclaimed returns.now))) }
{
    out.push_str(" reclaimed")?;
    for back in returns {
        push_number(out, " ", back.id)?;
        push_number(out, "x", back.count)?;
    }
    Ok(())
}

#[tactic(auto, unfolding(vz_rules::specs::Log::refusal_text, vz_rules::specs::Log::rule_number))]
fn push_refused(out: &mut String, refusal: Refusal) -> Result<(), AllocError>
    ensures { OnOk result (IsAppended out.old out.new (codes " refused " ++ refusal_text refusal)) }
{
    match refusal {
        Refusal::AlreadyClosed => out.push_str(" refused 1"),
        Refusal::Malformed(rule) => push_number(out, " refused 2 ", rule_number(rule)),
        Refusal::UnknownResource => out.push_str(" refused 3"),
        Refusal::InvariantsViolation => out.push_str(" refused 4"),
        Refusal::SizeMismatch => out.push_str(" refused 5"),
        Refusal::InUse => out.push_str(" refused 6"),
        Refusal::NotRoot => out.push_str(" refused 7"),
        Refusal::Loop => out.push_str(" refused 8"),
        Refusal::UnknownSink => out.push_str(" refused 9"),
        Refusal::ParentOfOther => out.push_str(" refused 10"),
        Refusal::NotYet => out.push_str(" refused 11"),
        Refusal::NoMessage => out.push_str(" refused 12"),
    }
}

#[tactic(auto, unfolding(vz_rules::specs::Log::rule_number))]
fn rule_number(rule: Rule) -> u32
    ensures { result ≡ rule_number_of rule }
{
    match rule {
        Rule::NoPass => 1,
        Rule::BadRoot => 2,
        Rule::PassIds => 3,
        Rule::PassOrder => 4,
        Rule::VisibleOutside => 5,
        Rule::UnlistedResource => 6,
        Rule::ListedTwice => 7,
        Rule::TileOutside => 8,
        Rule::BadRange => 9,
        Rule::BadDependency => 10,
        Rule::DamageOutside => 11,
    }
}

#[tactic(auto, unfolding(vz_rules::specs::Log::reply_text))]
fn push_drawn(out: &mut String, damage: &Rect) -> Result<(), AllocError>
    ensures { OnOk result
        (IsAppended out.old out.new (32 ∷ reply_text (Reply.Drawn damage.now))) }
{
    let [x, y, w, h] = numbers_of(damage);
    push_number(out, " drawn ", x)?;
    push_number(out, " ", y)?;
    push_number(out, " ", w)?;
    push_number(out, " ", h)
}

/// The numbers of a drawn damage as they are printed. They have no sign, as none is negative.
fn numbers_of(damage: &Rect) -> [u32; 4]
    ensures { result
        ≡ map nat_abs (damage.now.x ∷ damage.now.y ∷ damage.now.w ∷ damage.now.h ∷ []) }
{
    [
        damage.x().unsigned_abs(),
        damage.y().unsigned_abs(),
        damage.w().unsigned_abs(),
        damage.h().unsigned_abs(),
    ]
}

#[tactic(auto, unfolding(vz_rules::specs::Log::effects_text))]
fn push_effects(out: &mut String, effects: &Effects) -> Result<(), AllocError>
    ensures { OnOk result (IsAppended out.old out.new (effects_text effects.now)) }
{
    push_activated(out, effects.activated.as_slice())?;
    push_destroyed(out, effects.destroyed.as_slice())?;
    push_returned(out, effects.returned.as_slice())?;
    push_fed(out, effects.fed.as_slice())
}

fn push_activated(out: &mut String, subs: &[Sub]) -> Result<(), AllocError>
    ensures { OnOk result (IsAppended out.old out.new (flat_map activated_text subs.now)) }
{
    for sub in subs {
        push_number(out, " +", sub.client)?;
        push_number(out, ".", sub.ordinal)?;
    }
    Ok(())
}

fn push_destroyed(out: &mut String, surfaces: &[Lost]) -> Result<(), AllocError>
    ensures { OnOk result (IsAppended out.old out.new (flat_map destroyed_text surfaces.now)) }
{
    for lost in surfaces {
        push_number(out, " x", lost.client)?;
        push_number(out, ".", lost.surface)?;
    }
    Ok(())
}

fn push_returned(out: &mut String, returns: &[Returned]) -> Result<(), AllocError>
    ensures { OnOk result (IsAppended out.old out.new (flat_map returned_text returns.now)) }
{
    for back in returns {
        push_number(out, " <", back.client)?;
        push_number(out, ".", back.id)?;
        push_number(out, "x", back.count)?;
    }
    Ok(())
}

fn push_fed(out: &mut String, feedback: &[Fed]) -> Result<(), AllocError>
    ensures { OnOk result (IsAppended out.old out.new (flat_map fed_text feedback.now)) }
{
    for fed in feedback {
        let before = if fed.presented { " p" } else { " d" };
        push_number(out, before, fed.sub.client)?;
        push_number(out, ".", fed.sub.ordinal)?;
    }
    Ok(())
}

fn push_held(out: &mut String, held: &[Returned]) -> Result<(), AllocError>
    ensures { OnOk result (IsAppended out.old out.new (flat_map held_text held.now)) }
{
    for reference in held {
        push_number(out, "held ", reference.client)?;
        push_number(out, ".", reference.id)?;
        push_number(out, "x", reference.count)?;
        out.push_str("\n")?;
    }
    Ok(())
}

fn push_open(out: &mut String, unfed: &[Sub]) -> Result<(), AllocError>
    ensures { OnOk result (IsAppended out.old out.new (flat_map open_text unfed.now)) }
{
    for sub in unfed {
        push_number(out, "open ", sub.client)?;
        push_number(out, ".", sub.ordinal)?;
        out.push_str("\n")?;
    }
    Ok(())
}
