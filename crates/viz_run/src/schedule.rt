//! The schedule, which has one byte for each event.
ghost use Rattle.std.specs.Prelude.{◌≡◌, ◌≤◌, None, Some, All, [], ◌∷◌, ◌++◌, ◌*◌, pos, ◌≤ℤ◌, nat_abs};
ghost use Rattle.std.specs.Prelude.{IfOk, OnOk, IsErrOf, ◌<◌, ◌+◌, length, vec_len, vec_capacity};
ghost use Rattle.vz_base.specs.declared.limits.TheConstants.{MOST_EVENTS, GREATEST_DISPLAY_SIDE};
ghost use Rattle.vz_frame.specs.Fits.{within};
ghost use Rattle.vz_geom.specs.Display.{IsDisplaySize};
ghost use Rattle.vz_rules.specs.Command.{frames_fit};
ghost use Rattle.vz_rules.specs.Step.{NamesClient};
ghost use Rattle.viz_run.specs.Schedule.{event_of, events_of, is_event, is_draw};
ghost use Rattle.viz_run.specs.Schedule.{rule_broken, schedule_refused};
ghost use Rattle.viz_run.specs.declared.refused.InputError.TheVariants as input_error;
ghost use Rattle.viz_run.specs.declared.refused.Refused.{Refused as Refusal};

use crate::refused::{InputError, Reason, Refused};
use std::alloc::Global;
use vz_base::limits::{MOST_DRAWN_BYTES, MOST_EVENTS};
use vz_codec::FileRule;
use vz_geom::Size;
use vz_rules::{Event, Plan};

/// The byte of a drawing.
const DRAW: u8 = 0x12;

/// The event of a byte, or None if the byte is no event. 1 to 16 mean the next message of that
/// client, and 17 to 20 mean Begin, Draw, Done and Over.
#[tactic(auto, unfolding(crate::specs::Schedule::event_of))]
pub fn event_of(byte: u8) -> Option<Event>
    ensures { result ≡ event_of byte }
{
    if 0x01 <= byte && byte <= 0x10 {
        return Some(Event::Client(u32::from(byte)));
    }
    match byte {
        0x11 => Some(Event::Begin),
        DRAW => Some(Event::Draw),
        0x13 => Some(Event::Done),
        0x14 => Some(Event::Over),
        _ => None,
    }
}

/// Reads the events of a schedule for a plan, in their order. The list may be empty.
///
/// The error is `Refused`, as file 0, if the schedule is longer than `MOST_EVENTS` bytes; else at
/// its first byte that is no event of the plan (`Tag`), or at the first drawing with which the
/// frames would have more than `MOST_DRAWN_BYTES` bytes together (`Limit`), whichever comes
/// first. Otherwise the only error is `Memory`.
pub fn events_of(alloc: Global, plan: &Plan, bytes: &[u8]) -> Result<Vec<Event>, InputError>
    ensures events { IfOk result (λ events. events.items ≡ events_of bytes.now) }
    ensures named { IfOk result (λ events. All (NamesClient plan.now) events.items) }
    ensures accepted { OnOk result (schedule_refused plan.now bytes.now ≡ None) }
    ensures refused { (r : Refusal) → IsErrOf result (input_error.Refused r)
        → schedule_refused plan.now bytes.now ≡ Some r }
{
    if bytes.len() > MOST_EVENTS {
        return Err(refused(MOST_EVENTS, Reason::Long));
    }
    let Ok(mut events) = Vec::with_capacity(alloc, bytes.len()) else {
        return Err(InputError::Memory);
    };
    match fill(plan, bytes, &mut events) {
        Ok(()) => Ok(events),
        Err(error) => Err(error),
    }
}

/// Puts the events of a schedule for a plan into an empty list that has room for them. It is a
/// separate function, as the number of events would be kept in two halves in one that returns
/// them. Conditions: the schedule is not too long, and the list is empty and has the room.
#[inline(never)]
fn fill(plan: &Plan, bytes: &[u8], events: &mut Vec<Event>) -> Result<(), InputError>
    requires short { length bytes.now ≤ MOST_EVENTS }
    requires none { events.old.items ≡ [] }
    requires empty { vec_len events.old ≡ 0 }
    requires room { length bytes.now ≤ vec_capacity events.old }
    ensures events { OnOk result (events.new.items ≡ events_of bytes.now) }
    ensures named { OnOk result (All (NamesClient plan.now) events.new.items) }
    ensures accepted { OnOk result (schedule_refused plan.now bytes.now ≡ None) }
    ensures refused { (r : Refusal) → IsErrOf result (input_error.Refused r)
        → schedule_refused plan.now bytes.now ≡ Some r }
{
    let clients = plan.files().len();
    let size = plan.size();
    let mut draws = 0;
    for at in 0..bytes.len() {
        let byte = bytes[at];
        draws += u32::from(is_draw(byte));
        if let Some(rule) = rule_broken(clients, &size, draws, byte) {
            return Err(refused(at, Reason::Rule(rule)));
        }
        push_event(events, byte);
    }
    Ok(())
}

/// The rule that a byte breaks in a plan with `clients` clients, if it breaks one. If the byte is
/// a drawing, it is the one after `draws` others.
fn rule_broken(clients: usize, size: &Size, draws: u32, byte: u8) -> Option<FileRule>
    requires size { IsDisplaySize size.now }
    requires few { draws ≤ MOST_EVENTS }
    ensures { result ≡ rule_broken clients size.now draws byte }
{
    if !is_draw(byte) {
        return if is_event(clients, byte) {
            None
        } else {
            Some(FileRule::Tag)
        };
    }
    if !is_event(clients, byte) {
        Some(FileRule::Tag)
    } else if !frames_fit(size, draws) {
        Some(FileRule::Limit)
    } else {
        None
    }
}

/// Whether a byte is an event in a plan with `clients` clients.
fn is_event(clients: usize, byte: u8) -> bool
    ensures { result ≡ is_event clients byte }
{
    if 1 <= byte && usize::from(byte) <= clients {
        return true;
    }
    is_of_display(byte)
}

/// Whether a byte is an event of the display.
fn is_of_display(byte: u8) -> bool
    ensures { result ≡ within 0x11 0x14 byte }
{
    0x11 <= byte && byte <= 0x14
}

/// Whether a byte is a drawing.
fn is_draw(byte: u8) -> bool
    ensures { result ≡ is_draw byte }
{
    byte == DRAW
}

/// Whether `frames` frames of the display have at most `MOST_DRAWN_BYTES` bytes together.
fn frames_fit(size: &Size, frames: u32) -> bool
    requires size { IsDisplaySize size.now }
    requires few { frames ≤ MOST_EVENTS }
    ensures { result ≡ frames_fit (nat_abs size.now.w) (nat_abs size.now.h) frames }
{
    let frame = 4 * pixel_count(size);
    frame * u64::from(frames) <= MOST_DRAWN_BYTES
}

/// How many pixels a display has.
fn pixel_count(size: &Size) -> u64
    requires { IsDisplaySize size.now }
    ensures value { result ≡ nat_abs size.now.w * nat_abs size.now.h }
    ensures few { result ≤ 4194304 }
{
    side(size.w) * side(size.h)
}

/// A side of a display as an unsigned number.
fn side(side: i32) -> u64
    requires short { side ≤ℤ pos GREATEST_DISPLAY_SIDE }
    requires some { pos 1 ≤ℤ side }
    ensures value { result ≡ nat_abs side }
    ensures short { result ≤ GREATEST_DISPLAY_SIDE }
{
    u64::from(side.unsigned_abs())
}

/// Appends the event of a byte, if the byte is one. Condition: there is room for one.
fn push_event(events: &mut Vec<Event>, byte: u8)
    requires { vec_len events.old < vec_capacity events.old }
    ensures pushed { events.new.items ≡ events.old.items ++ events_of (byte ∷ []) }
    ensures one { vec_len events.new ≤ vec_len events.old + 1 }
    ensures room { vec_capacity events.new ≡ vec_capacity events.old }
{
    if let Some(event) = event_of(byte) {
        events.push_reserved(event);
    }
}

/// The error that the schedule is refused.
fn refused(at: usize, reason: Reason) -> InputError
    ensures { result ≡ input_error.Refused (record { file = 0; at = at; reason = reason }) }
{
    InputError::Refused(Refused {
        file: 0,
        at,
        reason,
    })
}
