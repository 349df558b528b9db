//! The lines that the commands print.
ghost use Rattle.std.specs.Prelude.{◌≡◌, ◌+◌, Some, None, IfOk, string_bytes, length};
ghost use Rattle.vz_check.specs.declared.verdict.Verdict.TheVariants as verdicts;
ghost use Rattle.vz_display.specs.Displayed.{upto_most};
ghost use Rattle.vz_rules.specs.Course.{is_drawn};
ghost use Rattle.viz_run.specs.Lines.{done_text, demo_text, hit_text, refused_line, reason_text};
ghost use Rattle.viz_run.specs.Lines.{made_line};
ghost use Rattle.viz_run.specs.Lines.{drawn_count, return_count, verdict_line, what_text};

use crate::{Reason, Refused};
use std::alloc::Global;
use vz_base::Memory;
use vz_check::{Verdict, What};
use vz_codec::FileRule;
use vz_geom::Point;
use vz_ids::{EmbedToken, FrameSinkId, LocalSurfaceId, SurfaceId};
use vz_rules::{BoxedEffects, Entry, Reply};

/// The line if the words are those of no command.
pub const WORDS_LINE: &str = "words refused\n";

/// The line if a log and its frames are those that the machine makes.
const YES_LINE: &str = "yes\n";

/// The line of `hit` if nothing is hit.
const NOTHING_HIT_LINE: &str = "hit none\n";

/// The line after the generated files are written.
pub const MADE_LINE: &str = "made 3 files\n";

/// The line of `run`, `step` and `turns`: how many entries the history has, and how many frames.
#[tactic(auto, unfolding(crate::specs::Lines::done_text))]
pub fn done_line(alloc: Global, history: &[Entry]) -> Result<String, Memory>
    ensures { IfOk result (λ text. string_bytes text
        ≡ done_text (length history.now) (drawn_count history.now)) }
{
    let entries = history.len();
    let frames = drawn_count(history);
    let mut text = String::new(alloc);
    write!(text, "done {entries}")?;
    write!(text, " entries {frames}")?;
    text.push_str(" frames\n")?;
    Ok(text)
}

/// The line of `demo`: how many entries the history has, how many frames, how many returns were
/// queued, and how many points were painted.
#[tactic(auto, unfolding(crate::specs::Lines::demo_text))]
pub fn demo_line(alloc: Global, history: &[Entry], painted: u64) -> Result<String, Memory>
    ensures { IfOk result (λ text. string_bytes text ≡ demo_text (length history.now)
        (drawn_count history.now) (upto_most (return_count history.now)) painted) }
{
    let entries = history.len();
    let frames = drawn_count(history);
    let returns = return_count(history);
    let mut text = String::new(alloc);
    write!(text, "entries {entries}")?;
    write!(text, " frames {frames}")?;
    write!(text, " returns {returns}")?;
    write!(text, " painted {painted}")?;
    text.push_str("\n")?;
    Ok(text)
}

/// The line of `hit`: the surface with the point from its top left, or that nothing is hit.
pub fn hit_line(alloc: Global, hit: &Option<(SurfaceId, Point)>) -> Result<String, Memory>
    ensures { IfOk result (λ text. string_bytes text ≡ hit_text hit.now) }
{
    match hit {
        Some((id, local)) => surface_text(alloc, id, *local),
        None => nothing_text(alloc),
    }
}

/// The line if a surface is hit: its client and sink, the numbers and the token of its local id,
/// and the point from its top left.
#[tactic(auto, unfolding(crate::specs::Lines::hit_text))]
fn surface_text(alloc: Global, id: &SurfaceId, local: Point) -> Result<String, Memory>
    ensures { IfOk result (λ text. string_bytes text ≡ hit_text (Some (id.now, local))) }
{
    let FrameSinkId { client_id, sink_id } = id.sink;
    let LocalSurfaceId {
        parent,
        child,
        token,
    } = id.local;
    let EmbedToken(token) = token;
    let x = local.x.unsigned_abs();
    let y = local.y.unsigned_abs();
    let mut text = String::new(alloc);
    write!(text, "hit {client_id}")?;
    write!(text, " {sink_id}")?;
    write!(text, " {parent}")?;
    write!(text, " {child}")?;
    write!(text, " {token}")?;
    write!(text, " {x}")?;
    write!(text, " {y}")?;
    text.push_str("\n")?;
    Ok(text)
}

/// The line if nothing is hit.
#[tactic(auto, unfolding(crate::specs::Lines::hit_text))]
fn nothing_text(alloc: Global) -> Result<String, Memory>
    ensures { IfOk result (λ text. string_bytes text ≡ hit_text None) }
{
    let mut text = String::new(alloc);
    text.push_str(NOTHING_HIT_LINE)?;
    Ok(text)
}

/// The line after the generated files are written.
#[tactic(auto, unfolding(crate::specs::Lines::made_line))]
pub fn made_text(alloc: Global) -> Result<String, Memory>
    ensures { IfOk result (λ text. string_bytes text ≡ made_line) }
{
    let mut text = String::new(alloc);
    text.push_str(MADE_LINE)?;
    Ok(text)
}

/// The line for a verdict.
pub fn verdict_text(alloc: Global, verdict: &Verdict) -> Result<String, Memory>
    ensures { IfOk result (λ text. string_bytes text ≡ verdict_line verdict.now) }
{
    match *verdict {
        Verdict::Yes => yes_text(alloc),
        Verdict::No { entry, what } => no_text(alloc, entry, what),
    }
}

/// The line for the verdict yes.
#[tactic(auto, unfolding(crate::specs::Lines::verdict_line))]
fn yes_text(alloc: Global) -> Result<String, Memory>
    ensures { IfOk result (λ text. string_bytes text ≡ verdict_line verdicts.Yes) }
{
    let mut text = String::new(alloc);
    text.push_str(YES_LINE)?;
    Ok(text)
}

/// The line for the verdict no: the place, and what is wrong there.
fn no_text(alloc: Global, entry: u64, what: What) -> Result<String, Memory>
    ensures { IfOk result (λ text. string_bytes text ≡ verdict_line (verdicts.No entry what)) }
{
    let mut text = String::new(alloc);
    write!(text, "no {entry}")?;
    text.push_str(" ")?;
    text.push_str(what_text(what))?;
    text.push_str("\n")?;
    Ok(text)
}

/// The word for what is wrong at a place of a log.
#[tactic(auto, unfolding(crate::specs::Lines::what_text))]
fn what_text(what: What) -> &'static str
    ensures { result.now ≡ what_text what }
{
    match what {
        What::LogText => "LogText",
        What::Reply => "Reply",
        What::Frame => "Frame",
        What::Rest => "Rest",
        What::Length => "Length",
    }
}

/// The line for a refused input: which one, where and why.
pub fn refused_text(alloc: Global, refused: &Refused) -> Result<String, Memory>
    ensures { IfOk result (λ text. string_bytes text ≡ refused_line refused.now) }
{
    let (file, at) = (refused.file, refused.at);
    let mut text = String::new(alloc);
    write!(text, "file {file}")?;
    write!(text, " refused at {at}")?;
    text.push_str(": ")?;
    text.push_str(reason_text(refused.reason))?;
    text.push_str("\n")?;
    Ok(text)
}

/// The word for what is wrong with an input.
#[tactic(auto, unfolding(crate::specs::Lines::reason_text))]
fn reason_text(reason: Reason) -> &'static str
    ensures { result.now ≡ reason_text reason }
{
    match reason {
        Reason::Rule(FileRule::Magic) => "Magic",
        Reason::Rule(FileRule::Version) => "Version",
        Reason::Rule(FileRule::Short) => "Short",
        Reason::Rule(FileRule::Tag) => "Tag",
        Reason::Rule(FileRule::Limit) => "Limit",
        Reason::Rule(FileRule::Colour) => "Colour",
        Reason::Rule(FileRule::Trailing) => "Trailing",
        Reason::SinkTaken => "SinkTaken",
        Reason::Long => "Long",
    }
}

/// How many entries drew a frame.
fn drawn_count(history: &[Entry]) -> usize
    ensures { result ≡ drawn_count history.now }
{
    history
        .iter()
        .filter(|entry| is_drawn(&entry.reply))
        .count()
}

fn is_drawn(reply: &Reply) -> bool
    ensures { result ≡ is_drawn reply.now }
{
    matches!(reply, Reply::Drawn(_))
}

/// How many returns were queued as these effects, or `u64::MAX` if there are more.
fn returned_in(effects: &BoxedEffects) -> u64
    ensures { result ≡ length effects.now.returned }
{
    match effects.get() {
        None => 0,
        Some(effects) => effects.returned.len() as u64,
    }
}

/// How many returns were queued, or `u64::MAX` if there are more. A return is a resource with a
/// count.
fn return_count(history: &[Entry]) -> u64
    ensures { result ≡ upto_most (return_count history.now) }
{
    let mut count: u64 = 0;
    for entry in history {
        count = count.saturating_add(returned_in(&entry.effects));
    }
    count
}
