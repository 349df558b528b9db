//! The calls that C and C++ make in process. `viz.h` says what each takes and answers.
//!
//! No call but those of a session keeps anything: what it allocates it gives back before it
//! returns, and what it answers stands in the rooms of the caller. So any number of threads may
//! call at once. What a session keeps, its struct owns, which is the caller's.
#![tactic(auto)]

ghost use Rattle.std.specs.Prelude.{◌≡◌, ◌≢◌, ◌≤◌, ◌⊎◌, None, Some, false, true, is_some};
ghost use Rattle.std.specs.Prelude.{pos, take, length, map};
ghost use Rattle.vz_check.specs.declared.verdict.Verdict.TheVariants.{Yes};
ghost use Rattle.vz_codec.specs.Grammar.{wrong};
ghost use Rattle.vz_codec.specs.Spelling.{file_bytes};
ghost use Rattle.vz_codec.specs.declared.fault.FileRule.{FileRule as Rule};
ghost use Rattle.vz_gen.specs.Make.{make};
ghost use Rattle.viz_c.specs.Answers as viz;
ghost use Rattle.viz_c.specs.Calls.{is_call, is_hit_call, is_gen_call, size_of, cut};
ghost use Rattle.viz_c.specs.Calls.{schedule_refused_of, log_refused_of};
ghost use Rattle.viz_c.specs.Hitting.{Hits, HitsSome};
ghost use Rattle.viz_c.specs.Judging.{Judges, JudgesNo};
ghost use Rattle.viz_c.specs.Making.{AreLengths, MakesMore};
ghost use Rattle.viz_c.specs.Numbers.{rule_number, IsCause, IsWithin};
ghost use Rattle.viz_c.specs.Rooms.{Keeps, KeepsRest, IsLengthIn};
ghost use Rattle.viz_c.specs.Stepping.{AreStepped, NeedsRoom};
ghost use Rattle.viz_c.specs.Telling.{may_open, Opens, IsGivenTo, IsEntryTold, IsDrawingTold};
ghost use Rattle.viz_run.specs.Refusals.{file_refused};

mod answer;
mod call;
mod check;
mod decode;
mod given;
mod handle;
mod hit;
mod loose;
mod next;
mod open;
mod room;
mod rounds;
mod session;
mod shot;
mod solo;
mod stage;
mod step;

use crate::answer::{CALL, Cause, DONE};
use crate::call::{is_call, size_of};
use crate::check::{judge, tell_check};
use crate::decode::tell_decoding;
use crate::hit::{Target, hit, is_inside, point_of, tell_hit};
use crate::next::{Area, give, tell_entry, tell_picture};
use crate::open::{open_stage, tell_open};
use crate::rounds::{is_gen_call, make_files, tell_made};
use crate::session::Session;
use crate::step::{step, tell_step};
use std::alloc::Global;
use std::marker::Brand;
use std::sync::ledger::Blank;

/// The version of these calls. It rises if one of them changes.
const VERSION: u32 = 1;

/// The version of these calls: that of `viz.h` is `VIZ_VERSION`.
#[unsafe(no_mangle)]
pub extern "C" fn viz_version() -> u32
    ensures { result ≡ 1 }
{
    VERSION
}

/// Whether these bytes are a message file. The answer is 0 if they are; 1 to 7 if they are not,
/// which is the rule that the first field that is wrong breaks, and then `at` gets the place of
/// that field in bytes from the front; or 8 if an allocation failed.
#[unsafe(no_mangle)]
pub extern "C" fn viz_decode(alloc: Global, bytes: &[u8], at: &mut usize) -> u32
    ensures accepted { result ≡ viz.DONE → wrong bytes.now ≡ None }
    ensures refused { (rule : Rule) → result ≡ rule_number rule
        → wrong bytes.now ≡ Some (record { at = at.new; rule = rule }) }
    ensures range { result ≤ viz.MEMORY }
    // Otherwise the place stays.
    ensures at_kept { (result ≡ viz.DONE) ⊎ (result ≡ viz.MEMORY) → at.new ≡ at.old }
{
    tell_decoding(&vz_codec::decode(alloc, bytes), at)
}

/// Gives the events of a schedule to the machine. The display has these sides. The files of the
/// clients come one after the other in `files`, and have these lengths.
///
/// The answer is 0 if the frames and the log stand at the front of their rooms, and then the two
/// lengths are theirs. It is 8 if an allocation failed; 9 if the sides, the number of files or
/// their lengths are not allowed; 10 if a room is too small, and then the lengths are those that
/// are needed; 11 if an input is refused, and then `cause` says which, where and why. The rooms
/// keep what is in them unless the answer is 0.
#[unsafe(no_mangle)]
pub extern "C" fn viz_step(
    alloc: Global,
    w: u32,
    h: u32,
    schedule: &[u8],
    files: &[u8],
    lengths: &[usize],
    frames: &mut [u8],
    frames_len: &mut usize,
    log: &mut [u8],
    log_len: &mut usize,
    cause: &mut Cause,
) -> u32
    // With 0 a legal history of exactly these events came about, the frames are those that it
    // writes on two buffers, the log is its text, and no input is refused.
    ensures done { result ≡ viz.DONE
        → AreStepped (size_of w h) (cut lengths.now files.now) schedule.now
        (take frames_len.new frames.new) (take log_len.new log.new) }
    // With 10 the same holds of some frames and some log of these lengths, and one of them is
    // longer than its room.
    ensures room { result ≡ viz.ROOM → NeedsRoom (size_of w h) (cut lengths.now files.now)
        schedule.now (length frames.old) (length log.old) frames_len.new log_len.new }
    // With 11 the cause is that of the first input that is refused.
    ensures refused { result ≡ viz.REFUSED → IsCause
        (schedule_refused_of (size_of w h) (cut lengths.now files.now) schedule.now) cause.new }
    // With 9 the call is not allowed, and a call that is not allowed gets no other answer.
    ensures call { result ≡ viz.CALL → is_call w h files.now lengths.now ≡ false }
    ensures no_other { is_call w h files.now lengths.now ≡ false → result ≡ viz.CALL }
    // There is no other answer than these and 8, so that a call with accepted inputs and large
    // rooms gets 0 unless an allocation failed.
    ensures range { (result ≡ viz.DONE) ⊎ IsWithin viz.MEMORY viz.REFUSED result }
    // Nothing else is written into the rooms.
    ensures kept { result ≢ viz.DONE → Keeps frames.old frames.new × Keeps log.old log.new }
    ensures behind { result ≡ viz.DONE → KeepsRest frames_len.new frames.old frames.new
        × KeepsRest log_len.new log.old log.new }
    // With 0 the lengths are those of the frames and of the log: no length goes beyond its room.
    ensures lengths { result ≡ viz.DONE → IsLengthIn frames_len.new frames.new
        × IsLengthIn log_len.new log.new }
    // The lengths stay with all answers but 0 and 10, and the cause with all but 11.
    ensures lengths_kept { result ≢ viz.DONE → result ≢ viz.ROOM
        → (frames_len.new ≡ frames_len.old) × (log_len.new ≡ log_len.old) }
    ensures cause_kept { result ≢ viz.REFUSED → cause.new ≡ cause.old }
{
    if !is_call(w, h, files, lengths) {
        return CALL;
    }
    let size = size_of(w, h);
    let left = step::<Brand>(alloc, Blank::new(1), size, schedule, files, lengths);
    tell_step(&left, frames, frames_len, log, log_len, cause)
}

/// Checks a log and its frames, with the plain machine and the plain painter.
///
/// The answer is 0 if the log is that of a history that the machine makes and the bytes are its
/// frames; 12 if not, and then `entry` is the first entry that has a fault, from 1 on, and `what`
/// its first fault: 1 to 5 for the text, the reply, the frame, the rest and the length. It is 8 if
/// an allocation failed; 9 if the sides, the number of files or their lengths are not allowed; 11
/// if an input is refused, and then `cause` says which, where and why.
#[unsafe(no_mangle)]
pub extern "C" fn viz_check(
    alloc: Global,
    w: u32,
    h: u32,
    frames: &[u8],
    log: &[u8],
    files: &[u8],
    lengths: &[usize],
    entry: &mut u64,
    what: &mut u32,
    cause: &mut Cause,
) -> u32
    ensures agrees { result ≡ viz.DONE → Judges (size_of w h) (cut lengths.now files.now)
        log.now frames.now Yes }
    ensures differs { result ≡ viz.FAULT → JudgesNo (size_of w h) (cut lengths.now files.now)
        log.now frames.now entry.new what.new }
    ensures refused { result ≡ viz.REFUSED → IsCause
        (log_refused_of (cut lengths.now files.now) log.now) cause.new }
    ensures call { result ≡ viz.CALL → is_call w h files.now lengths.now ≡ false }
    ensures no_other { is_call w h files.now lengths.now ≡ false → result ≡ viz.CALL }
    ensures range { (result ≡ viz.DONE) ⊎ IsWithin viz.MEMORY viz.FAULT result }
    ensures no_room { result ≢ viz.ROOM }
    // The entry and the fault stay with all answers but 12, and the cause with all but 11.
    ensures found_kept { result ≢ viz.FAULT → (entry.new ≡ entry.old) × (what.new ≡ what.old) }
    ensures cause_kept { result ≢ viz.REFUSED → cause.new ≡ cause.old }
{
    if !is_call(w, h, files, lengths) {
        return CALL;
    }
    let verdict = judge(alloc, size_of(w, h), frames, log, files, lengths);
    tell_check(&verdict, entry, what, cause)
}

/// Gives the events of a schedule to the machine without painting, and finds which surface is hit
/// in column `x` and row `y` of the last drawing, both from 0 on.
///
/// The answer is 0 if a surface is hit, which `target` gets; 13 if none is there, or nothing was
/// drawn. It is 8 if an allocation failed; 9 if the sides, the number of files or their lengths
/// are not allowed, or the point is not on the display; 11 if an input is refused, and then
/// `cause` says which, where and why.
#[unsafe(no_mangle)]
pub extern "C" fn viz_hit(
    alloc: Global,
    w: u32,
    h: u32,
    schedule: &[u8],
    x: u32,
    y: u32,
    files: &[u8],
    lengths: &[usize],
    target: &mut Target,
    cause: &mut Cause,
) -> u32
    ensures hit { result ≡ viz.DONE
        → HitsSome (size_of w h) (cut lengths.now files.now) schedule.now
        (record { x = pos x; y = pos y }) target.new }
    ensures nothing { result ≡ viz.NOTHING → Hits (size_of w h) (cut lengths.now files.now)
        schedule.now (record { x = pos x; y = pos y }) None }
    ensures refused { result ≡ viz.REFUSED → IsCause
        (schedule_refused_of (size_of w h) (cut lengths.now files.now) schedule.now) cause.new }
    ensures call { result ≡ viz.CALL → is_hit_call w h x y files.now lengths.now ≡ false }
    ensures no_other { is_hit_call w h x y files.now lengths.now ≡ false → result ≡ viz.CALL }
    ensures range { (result ≡ viz.DONE) ⊎ IsWithin viz.MEMORY viz.NOTHING result }
    ensures no_room { result ≢ viz.ROOM }
    ensures no_fault { result ≢ viz.FAULT }
    // The target stays with all answers but 0, and the cause with all but 11.
    ensures target_kept { result ≢ viz.DONE → target.new ≡ target.old }
    ensures cause_kept { result ≢ viz.REFUSED → cause.new ≡ cause.old }
{
    if !is_call(w, h, files, lengths) {
        return CALL;
    }
    if !is_inside(w, h, x, y) {
        return CALL;
    }
    let point = point_of(x, y);
    let found = hit(alloc, size_of(w, h), point, schedule, files, lengths);
    tell_hit(&found, target, cause)
}

/// Makes the message files of a page and its two children for so many rounds, one after the other
/// in `files`. There has to be room for three lengths.
///
/// The answer is 0 if the files stand at the front of their room; 10 if it is too small. With
/// either, `files_len` is the length of all of them, and `lengths` has that of each. It is 8 if an
/// allocation failed; 9 if there may not be so many rounds, or not three lengths.
#[unsafe(no_mangle)]
pub extern "C" fn viz_gen(
    alloc: Global,
    rounds: u32,
    files: &mut [u8],
    files_len: &mut usize,
    lengths: &mut [usize],
) -> u32
    ensures done { result ≡ viz.DONE
        → cut lengths.new (take files_len.new files.new) ≡ map file_bytes (make rounds) }
    // With 0 and 10 each length is that of its file, and `files_len` is their sum.
    ensures lengths { result ≡ viz.DONE → AreLengths rounds files_len.new lengths.new }
    ensures room { result ≡ viz.ROOM
        → MakesMore rounds (length files.old) files_len.new lengths.new }
    ensures call { result ≡ viz.CALL → is_gen_call rounds lengths.old ≡ false }
    ensures no_other { is_gen_call rounds lengths.old ≡ false → result ≡ viz.CALL }
    ensures range { (result ≡ viz.DONE) ⊎ IsWithin viz.MEMORY viz.ROOM result }
    ensures kept { result ≢ viz.DONE → Keeps files.old files.new }
    ensures behind { result ≡ viz.DONE → KeepsRest files_len.new files.old files.new }
    // The lengths stay with all answers but 0 and 10.
    ensures lengths_kept { result ≢ viz.DONE → result ≢ viz.ROOM
        → (files_len.new ≡ files_len.old) × (lengths.new ≡ lengths.old) }
{
    if !is_gen_call(rounds, lengths) {
        return CALL;
    }
    tell_made(&make_files(alloc, rounds), files, files_len, lengths)
}

/// Opens a session over the message files of the clients, which come one after the other in
/// `files`, and have these lengths. The display has these sides. The session is closed before.
///
/// The answer is 0 if the session is open now, before the first event. It is 8 if an allocation
/// failed; 9 if the session is open already, or the sides, the number of files or their lengths are
/// not allowed; 11 if a file is refused, and then `cause` says which, where and why. With these the
/// session is as before.
#[unsafe(no_mangle)]
pub extern "C" fn viz_open(
    alloc: Global,
    w: u32,
    h: u32,
    files: &[u8],
    lengths: &[usize],
    session: &mut Session,
    cause: &mut Cause,
) -> u32
    ensures done { result ≡ viz.DONE
        → Opens (size_of w h) (cut lengths.now files.now) session.new.handle.stage }
    ensures refused { result ≡ viz.REFUSED
        → IsCause (file_refused (cut lengths.now files.now)) cause.new }
    ensures call { result ≡ viz.CALL
        → may_open w h files.now lengths.now session.old.handle.stage ≡ false }
    ensures no_other { may_open w h files.now lengths.now session.old.handle.stage ≡ false
        → result ≡ viz.CALL }
    ensures range { (result ≡ viz.DONE) ⊎ IsWithin viz.MEMORY viz.REFUSED result }
    ensures no_room { result ≢ viz.ROOM }
    ensures kept { result ≢ viz.DONE → session.new.handle.stage ≡ session.old.handle.stage }
    ensures cause_kept { result ≢ viz.REFUSED → cause.new ≡ cause.old }
{
    if session.is_open {
        return CALL;
    }
    if !is_call(w, h, files, lengths) {
        return CALL;
    }
    let opened = open_stage(alloc, size_of(w, h), files, lengths);
    tell_open(opened, session, cause)
}

/// Gives the machine of a session one event, by its byte in a schedule.
///
/// The answer is 0 if the machine has taken it, and then the session has the entry of the event,
/// and the picture if something is drawn. It is 8 if an allocation failed; 9 if the session is
/// closed, or the byte is no event for its plan. With these the session is as before.
#[unsafe(no_mangle)]
pub extern "C" fn viz_next(alloc: Global, session: &mut Session, event: u8) -> u32
    ensures { IsGivenTo session.old.handle.stage event result session.new.handle.stage }
{
    if !session.is_open {
        return CALL;
    }
    let mut stage = session.take(alloc);
    let answer = give(alloc, &mut stage, event);
    session.put(stage);
    answer
}

/// Tells the last entry of a session: its line of the log, with the event, the reply and the
/// effects.
///
/// The answer is 0 if the line stands at the front of its room, and then the length is its own. It
/// is 8 if an allocation failed; 9 if the session is closed; 10 if the room is too small, and then
/// the length is what is needed; 13 if there was no event yet. The room keeps what is in it unless
/// the answer is 0, and the session stays.
#[unsafe(no_mangle)]
pub extern "C" fn viz_entry(
    alloc: Global,
    session: &mut Session,
    line: &mut [u8],
    line_len: &mut usize,
) -> u32
    ensures told { IsEntryTold session.old.handle.stage result
        (record { before = line.old; after = line.new; count = line_len.new }) }
    ensures len_kept { result ≢ viz.DONE → result ≢ viz.ROOM → line_len.new ≡ line_len.old }
    ensures kept { session.new.handle.stage ≡ session.old.handle.stage }
{
    if !session.is_open {
        return CALL;
    }
    let stage = session.take(alloc);
    let answer = tell_entry(alloc, &stage, line, line_len);
    session.put(stage);
    answer
}

/// Tells the picture of the last drawing of a session, and the rectangle that changed since the
/// drawing before.
///
/// The answer is 0 if the pixels stand at the front of their room, and then the length is theirs,
/// and `damage` has the rectangle. It is 8 if an allocation failed; 9 if the session is closed; 10
/// if the room is too small, and then the length is what is needed; 13 if nothing was drawn yet.
/// The room keeps what is in it unless the answer is 0, and the session stays.
#[unsafe(no_mangle)]
pub extern "C" fn viz_picture(
    alloc: Global,
    session: &mut Session,
    pixels: &mut [u8],
    pixels_len: &mut usize,
    damage: &mut Area,
) -> u32
    ensures told { IsDrawingTold session.old.handle.stage result
        (record { before = pixels.old; after = pixels.new; count = pixels_len.new }) damage.new }
    ensures len_kept { result ≢ viz.DONE → result ≢ viz.ROOM → pixels_len.new ≡ pixels_len.old }
    ensures damage_kept { result ≢ viz.DONE → damage.new ≡ damage.old }
    ensures kept { session.new.handle.stage ≡ session.old.handle.stage }
{
    if !session.is_open {
        return CALL;
    }
    let stage = session.take(alloc);
    let answer = tell_picture::<Brand>(alloc, Blank::new(1), &stage, pixels, pixels_len, damage);
    session.put(stage);
    answer
}

/// Closes a session, and gives back all that it allocated. The answer is 0, or 9 if it is closed
/// already.
#[unsafe(no_mangle)]
pub extern "C" fn viz_close(alloc: Global, session: &mut Session) -> u32
    ensures closed { session.new.handle.stage ≡ None }
    ensures done { result ≡ viz.DONE → is_some session.old.handle.stage ≡ true }
    ensures call { result ≡ viz.CALL → session.old.handle.stage ≡ None }
    ensures range { (result ≡ viz.DONE) ⊎ (result ≡ viz.CALL) }
{
    if !session.is_open {
        return CALL;
    }
    drop(session.take(alloc));
    DONE
}
