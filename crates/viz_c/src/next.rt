//! Gives a stage one event, and tells what it left.
ghost use Rattle.std.specs.Prelude.{◌≡◌, ◌≢◌, ◌<◌};
ghost use Rattle.vz_rules.specs.Log.{entry_text};
ghost use Rattle.viz_c.specs.Answers as viz;
ghost use Rattle.viz_c.specs.Telling.{area_of, IsGiven, IsLineTold, IsPictureTold, IsTextTold};
ghost use Rattle.viz_c.specs.Telling.{IsPutTold, IsShotTold};

use crate::answer::{CALL, DONE, MEMORY, NOTHING, ROOM};
use crate::room::put;
use crate::shot::Shot;
use crate::stage::Stage;
use std::alloc::Global;
use std::sync::ledger::{Blank, Ledger};
use viz_run::event_of;
use vz_geom::Rect;
use vz_journal::write_entry;
use vz_rules::Entry;

/// A rectangle of the display, in pixels from its top left.
#[repr(C)]
#[derive(Clone, Copy)]
pub struct Area {
    /// The first column.
    pub x: i32,
    /// The first row.
    pub y: i32,
    /// How many columns there are.
    pub w: i32,
    /// How many rows there are.
    pub h: i32,
}

/// Gives a stage the event of a byte of a schedule, and returns the answer.
pub fn give(alloc: Global, stage: &mut Stage, byte: u8) -> u32
    ensures { IsGiven stage.old byte result stage.new }
{
    let Some(event) = event_of(byte) else {
        return CALL;
    };
    if !stage.knows(event) {
        return CALL;
    }
    match stage.next(alloc, event) {
        Ok(_) => DONE,
        Err(_) => MEMORY,
    }
}

/// Puts the line of a stage's last entry into the room of the caller, and returns the answer.
pub fn tell_entry(alloc: Global, stage: &Stage, room: &mut [u8], count: &mut usize) -> u32
    ensures told { IsLineTold stage.now.last result
        (record { before = room.old; after = room.new; count = count.new }) }
    ensures count_kept { result ≢ viz.DONE → result ≢ viz.ROOM → count.new ≡ count.old }
{
    match stage.last() {
        Some(entry) => tell_line(alloc, entry, room, count),
        None => NOTHING,
    }
}

/// Puts the line of an entry into the room of the caller, and returns the answer.
fn tell_line(alloc: Global, entry: &Entry, room: &mut [u8], count: &mut usize) -> u32
    ensures told { IsTextTold (entry_text entry.now) result
        (record { before = room.old; after = room.new; count = count.new }) }
    ensures count_kept { result ≢ viz.DONE → result ≢ viz.ROOM → count.new ≡ count.old }
{
    match write_entry(alloc, entry) {
        Ok(line) => put_told(line.as_bytes(), room, count),
        Err(_) => MEMORY,
    }
}

/// Puts bytes into the room of the caller, and returns the answer.
fn put_told(bytes: &[u8], room: &mut [u8], count: &mut usize) -> u32
    ensures { IsPutTold bytes.now result
        (record { before = room.old; after = room.new; count = count.new }) }
{
    if put(bytes, room, count) { DONE } else { ROOM }
}

/// Puts the pixels of a stage's last drawing into the room of the caller, and the rectangle that
/// changed into `damage`, and returns the answer. `blank` makes the counter of painted pixels.
pub fn tell_picture<L: Ledger>(
    alloc: Global,
    blank: Blank,
    stage: &Stage,
    room: &mut [u8],
    count: &mut usize,
    damage: &mut Area,
) -> u32
    requires name { blank.name ≡ L.name }
    requires parts { blank.parts ≡ L.parts }
    requires owned { 0 < L.parts }
    ensures told { IsPictureTold stage.now.picture result
        (record { before = room.old; after = room.new; count = count.new }) damage.new }
    ensures count_kept { result ≢ viz.DONE → result ≢ viz.ROOM → count.new ≡ count.old }
    ensures damage_kept { result ≢ viz.DONE → damage.new ≡ damage.old }
{
    match stage.shot::<L>(alloc, blank) {
        Ok(Some(shot)) => tell_shot(&shot, room, count, damage),
        Ok(None) => NOTHING,
        Err(_) => MEMORY,
    }
}

/// Puts pixels into the room of the caller, and the rectangle that changed into `damage`, and
/// returns the answer.
fn tell_shot(shot: &Shot, room: &mut [u8], count: &mut usize, damage: &mut Area) -> u32
    ensures told { IsShotTold shot.now result
        (record { before = room.old; after = room.new; count = count.new }) damage.new }
    ensures damage_kept { result ≢ viz.DONE → damage.new ≡ damage.old }
{
    if put(shot.buffer.bytes(), room, count) {
        *damage = area_of(&shot.damage);
        DONE
    } else {
        ROOM
    }
}

/// A rectangle as C sees it.
fn area_of(r: &Rect) -> Area
    ensures { result ≡ area_of r.now }
{
    Area {
        x: r.x(),
        y: r.y(),
        w: r.w(),
        h: r.h(),
    }
}
