//! Reads the reply of an entry.
ghost use Rattle.std.specs.Prelude.{◌≡◌, IsTrue};
ghost use Rattle.vz_journal.specs.Giving.{Gives};
ghost use Rattle.vz_journal.specs.Reading.{rule_of, refusal_of, malformed_at, refused_at, accepted_at, began_at, reclaim_at, one_of};
ghost use Rattle.vz_journal.specs.Reading.{client_replies, client_reply_at, ticked_at, drawn_on, is_drawn, drawn_at, draw_replies, draw_reply_at, done_replies, over_replies, reply_at};

use crate::effects::read_counted;
use crate::item::{Item, short};
use crate::reader::Reader;
use crate::stop::Stop;
use std::alloc::Global;
use vz_base::limits::GREATEST_DISPLAY_SIDE;
use vz_frame::Rule;
use vz_geom::Rect;
use vz_rules::{Event, Refusal, Reply, Returned};

/// The rule with this number. The rules are numbered in the order in which they are tested.
#[tactic(auto, unfolding(crate::specs::Reading::rule_of))]
fn rule_of(number: u32) -> Result<Rule, Stop>
    ensures { Gives (λ r. r) result (rule_of number) }
{
    match number {
        1 => Ok(Rule::NoPass),
        2 => Ok(Rule::BadRoot),
        3 => Ok(Rule::PassIds),
        4 => Ok(Rule::PassOrder),
        5 => Ok(Rule::VisibleOutside),
        6 => Ok(Rule::UnlistedResource),
        7 => Ok(Rule::ListedTwice),
        8 => Ok(Rule::TileOutside),
        9 => Ok(Rule::BadRange),
        10 => Ok(Rule::BadDependency),
        11 => Ok(Rule::DamageOutside),
        _ => Err(Stop::Unlike),
    }
}

/// The refusal with this number, if it is one without the number of a rule after it.
#[tactic(auto, unfolding(crate::specs::Reading::refusal_of))]
fn refusal_of(number: u32) -> Result<Refusal, Stop>
    ensures { Gives (λ r. r) result (refusal_of number) }
{
    match number {
        1 => Ok(Refusal::AlreadyClosed),
        3 => Ok(Refusal::UnknownResource),
        4 => Ok(Refusal::InvariantsViolation),
        5 => Ok(Refusal::SizeMismatch),
        6 => Ok(Refusal::InUse),
        7 => Ok(Refusal::NotRoot),
        8 => Ok(Refusal::Loop),
        9 => Ok(Refusal::UnknownSink),
        10 => Ok(Refusal::ParentOfOther),
        11 => Ok(Refusal::NotYet),
        12 => Ok(Refusal::NoMessage),
        _ => Err(Stop::Unlike),
    }
}

/// Reads the number of the rule that a malformed frame breaks.
#[tactic(auto, unfolding(crate::specs::Reading::malformed_at))]
fn read_malformed(input: &mut Reader) -> Result<Reply, Stop>
    ensures { Gives (λ x. (x, input.new)) result (malformed_at input.old) }
{
    let number = input.next_number()?;
    let rule = rule_of(number)?;
    Ok(Reply::Refused(Refusal::Malformed(rule)))
}

/// Reads the number of a refusal and, after 2, the number of the broken rule.
#[tactic(auto, unfolding(crate::specs::Reading::refused_at))]
fn read_refused(input: &mut Reader) -> Result<Reply, Stop>
    ensures { Gives (λ x. (x, input.new)) result (refused_at input.old) }
{
    let number = input.next_number()?;
    if number == 2 {
        return read_malformed(input);
    }
    let refusal = refusal_of(number)?;
    Ok(Reply::Refused(refusal))
}

/// Reads the ordinal and the index of a submission.
#[tactic(auto, unfolding(crate::specs::Reading::accepted_at))]
fn read_accepted(input: &mut Reader) -> Result<Reply, Stop>
    ensures { Gives (λ x. (x, input.new)) result (accepted_at input.old) }
{
    let ordinal = input.next_count()?;
    let index = input.next_count()?;
    Ok(Reply::Accepted { ordinal, index })
}

/// Reads the number of the begin-frame that a client awaited.
#[tactic(auto, unfolding(crate::specs::Reading::began_at))]
fn read_began(input: &mut Reader) -> Result<Reply, Stop>
    ensures { Gives (λ x. (x, input.new)) result (began_at input.old) }
{
    let number = input.next_number()?;
    Ok(Reply::Began(number))
}

/// The item of references that a client reclaimed.
#[derive(Drop)]
struct Reclaims {
    client: u32,
}

impl Item for Reclaims {
    type Value = Returned;

    ghost value_at = { λ r. reclaim_at r.client };

    #[tactic(auto, unfolding(crate::specs::Reading::reclaim_at))]
    fn read(&self, input: &mut Reader) -> Result<Returned, Stop> {
        input.word(b" ")?;
        read_counted(self.client, input)
    }
}

/// Reads the reply to a client.
#[tactic(auto, unfolding(crate::specs::Reading::client_reply_at))]
fn read_client_reply(alloc: Global, client: u32, input: &mut Reader) -> Result<Reply, Stop>
    ensures { Gives (λ x. (x, input.new)) result (client_reply_at client input.old) }
{
    if input.has(b"accepted") {
        return read_accepted(input);
    }
    if input.has(b"began") {
        return read_began(input);
    }
    if input.has(b"reclaimed") {
        let returns = short(alloc, &Reclaims { client }, input)?;
        return Ok(Reply::Reclaimed(returns));
    }
    if input.has(b"refused") {
        return read_refused(input);
    }
    read_plain_client_reply(input)
}

/// Reads a reply to a client that has no number.
#[tactic(auto, unfolding(crate::specs::Reading::one_of))]
fn read_plain_client_reply(input: &mut Reader) -> Result<Reply, Stop>
    ensures { Gives (λ x. (x, input.new)) result (one_of client_replies input.old) }
{
    if input.has(b"stored") {
        Ok(Reply::Stored)
    } else if input.has(b"noted") {
        Ok(Reply::Noted)
    } else if input.has(b"rooted") {
        Ok(Reply::Rooted)
    } else if input.has(b"joined") {
        Ok(Reply::Joined)
    } else if input.has(b"over") {
        Ok(Reply::Over)
    } else if input.has(b"left") {
        Ok(Reply::Left)
    } else {
        Err(Stop::Unlike)
    }
}

/// Reads the number of a tick.
#[tactic(auto, unfolding(crate::specs::Reading::ticked_at))]
fn read_ticked(input: &mut Reader) -> Result<Reply, Stop>
    ensures { Gives (λ x. (x, input.new)) result (ticked_at input.old) }
{
    input.word(b"ticked")?;
    let number = input.next_number()?;
    Ok(Reply::Ticked(number))
}

/// Reads the damage of a drawn frame.
#[tactic(auto, unfolding(crate::specs::Reading::drawn_at))]
fn read_drawn(input: &mut Reader) -> Result<Reply, Stop>
    ensures { Gives (λ x. (x, input.new)) result (drawn_at input.old) }
{
    let x = input.next_number()?;
    let y = input.next_number()?;
    let w = input.next_number()?;
    let h = input.next_number()?;
    if !is_drawn(x, y, w, h) {
        return Err(Stop::Unlike);
    }
    Ok(Reply::Drawn(drawn_on(x, y, w, h)))
}

/// The rectangle with these numbers. Condition: it is not empty, and no edge is beyond the
/// greatest side of a display.
fn drawn_on(x: u32, y: u32, w: u32, h: u32) -> Rect
    requires { IsTrue (is_drawn x y w h) }
    ensures { result ≡ drawn_on x y w h }
{
    Rect::new(x as i32, y as i32, w as i32, h as i32)
}

/// Whether the rectangle is not empty, and no edge is beyond the greatest side of a display.
fn is_drawn(x: u32, y: u32, w: u32, h: u32) -> bool
    ensures { result ≡ is_drawn x y w h }
{
    0 < w
        && 0 < h
        && u64::from(x) + u64::from(w) <= u64::from(GREATEST_DISPLAY_SIDE)
        && u64::from(y) + u64::from(h) <= u64::from(GREATEST_DISPLAY_SIDE)
}

/// Reads the reply to Draw.
#[tactic(auto, unfolding(crate::specs::Reading::draw_reply_at, crate::specs::Reading::one_of))]
fn read_draw_reply(input: &mut Reader) -> Result<Reply, Stop>
    ensures { Gives (λ x. (x, input.new)) result (draw_reply_at input.old) }
{
    if input.has(b"drawn") {
        read_drawn(input)
    } else if input.has(b"unchanged") {
        Ok(Reply::Unchanged)
    } else if input.has(b"noroot") {
        Ok(Reply::NoRoot)
    } else if input.has(b"toomuch") {
        Ok(Reply::TooMuch)
    } else if input.has(b"busy") {
        Ok(Reply::Busy)
    } else {
        Err(Stop::Unlike)
    }
}

/// Reads the reply to Done.
#[tactic(auto, unfolding(crate::specs::Reading::one_of))]
fn read_done_reply(input: &mut Reader) -> Result<Reply, Stop>
    ensures { Gives (λ x. (x, input.new)) result (one_of done_replies input.old) }
{
    if input.has(b"shown") {
        Ok(Reply::Shown)
    } else if input.has(b"nothing") {
        Ok(Reply::Nothing)
    } else {
        Err(Stop::Unlike)
    }
}

/// Reads the reply to Over.
#[tactic(auto, unfolding(crate::specs::Reading::one_of))]
fn read_over_reply(input: &mut Reader) -> Result<Reply, Stop>
    ensures { Gives (λ x. (x, input.new)) result (one_of over_replies input.old) }
{
    if input.has(b"ended") {
        Ok(Reply::Ended)
    } else {
        Err(Stop::Unlike)
    }
}

/// Reads the reply to this event.
#[tactic(auto, unfolding(crate::specs::Reading::reply_at))]
pub fn read_reply(alloc: Global, event: Event, input: &mut Reader) -> Result<Reply, Stop>
    ensures { Gives (λ x. (x, input.new)) result (reply_at event input.old) }
{
    match event {
        Event::Client(client) => read_client_reply(alloc, client, input),
        Event::Begin => read_ticked(input),
        Event::Draw => read_draw_reply(input),
        Event::Done => read_done_reply(input),
        Event::Over => read_over_reply(input),
    }
}
