//! The plain machine on the files by rule, and its plain pictures.
ghost use Rattle.std.specs.Prelude.{◌≡◌, ◌<◌, All, IfOk};
ghost use Rattle.vz_rules.specs.Step.{Legal, NamesClient};

use crate::plans::{by_rule, events_of};
use std::alloc::{AllocError, Global};
use std::marker::Brand;
use std::sync::ledger::{Blank, Ledger};
use std::thread::Threads;
use vz_base::Memory;
use vz_buffers::Steps;
use vz_pixels::Pixel;
use vz_player::{Results, play};
use vz_rules::{Event, Plan};
use vz_slow::{PlainMachine, histories_name_clients, plain_frame};

/// The schedule of three rounds: the page, and then in each round a begin-frame that both children
/// answer, and a drawing.
const THREE_ROUNDS: [u8; 37] = [
    1, 1, 1, 1, //
    0x11, 2, 2, 2, 2, 3, 3, 3, 3, 0x12, 0x13, //
    0x11, 2, 2, 2, 2, 3, 3, 3, 3, 0x12, 0x13, //
    0x11, 2, 2, 2, 2, 3, 3, 3, 3, 0x12, 0x13,
];

/// How many entries there are up to each drawing.
const DRAWINGS: [usize; 3] = [14, 25, 36];

/// How many pixels each frame takes: two buffers are made and painted whole, and then what changed
/// is painted, 44 by 4.
const PAINTED: [u64; 3] = [4096, 4096, 176];

/// What events leave of a plan on the plain machine, on a display of two buffers.
fn left_by_plain<L: Ledger, R: Threads + AllocGlobal + Sync>(
    rt: &R,
    plan: &Plan,
    events: &[Event],
    blank: Blank,
) -> Result<Results, Memory>
    requires named { All (NamesClient plan.now) events.now }
    requires name { blank.name ≡ L.name }
    requires parts { blank.parts ≡ L.parts }
    requires some { 0 < L.parts }
    ensures legal { IfOk result (λ p. Legal plan.now p.history) }
{
    let _files = plan.files();
    let machine = PlainMachine::new(rt.alloc(), plan);
    let mut steps = Steps::<L>::new(blank);
    play(rt.alloc(), machine, plan.size(), events, 2, &mut steps)
}

/// Appends the bytes of pixels.
fn put_pixels(bytes: &mut Vec<u8>, pixels: &[Pixel]) -> Result<(), AllocError> {
    for p in pixels {
        bytes.extend_from_slice(&[p.r(), p.g(), p.b(), p.a()])?;
    }
    Ok(())
}

/// Appends the plain picture after so many entries of a history; whether there was memory.
fn put_picture(
    alloc: Global,
    plan: &Plan,
    left: &Results,
    count: usize,
    bytes: &mut Vec<u8>,
) -> bool
    requires { Legal plan.now left.now.history }
{
    histories_name_clients();
    if count > left.history.as_slice().len() {
        return false;
    }
    match plain_frame(alloc, plan, &left.history, count) {
        Ok(pixels) => put_pixels(bytes, pixels.as_slice()).is_ok(),
        Err(_) => false,
    }
}

/// Appends the plain pictures after each drawing; whether there was memory.
fn put_pictures(alloc: Global, plan: &Plan, left: &Results, bytes: &mut Vec<u8>) -> bool
    requires { Legal plan.now left.now.history }
{
    for count in DRAWINGS {
        if !put_picture(alloc, plan, left, count, bytes) {
            return false;
        }
    }
    true
}

/// Whether a history of three rounds left the plain pictures after each drawing, and took as many
/// pixels as it must.
fn are_pictures(alloc: Global, plan: &Plan, left: &Results) -> bool
    requires { Legal plan.now left.now.history }
{
    let mut bytes = Vec::new(alloc);
    let whole = put_pictures(alloc, plan, left, &mut bytes);
    whole & (bytes == left.frames) & (left.painted.as_slice() == PAINTED.as_slice())
}

/// Whether events leave the plain pictures.
fn leave_pictures<R: Threads + AllocGlobal + Sync>(rt: &R, plan: &Plan, events: &[Event]) -> bool
    requires { All (NamesClient plan.now) events.now }
{
    match left_by_plain::<Brand, _>(rt, plan, events, Blank::new(1)) {
        Ok(left) => are_pictures(rt.alloc(), plan, &left),
        Err(_) => false,
    }
}

/// Whether three rounds leave the plain pictures.
fn rounds_leave_pictures<R: Threads + AllocGlobal + Sync>(rt: &R) -> bool {
    match by_rule(rt.alloc(), 3) {
        Some(plan) => leave_pictures(rt, &plan, &events_of(rt.alloc(), &plan, &THREE_ROUNDS)),
        None => false,
    }
}

#[test]
fn plain_pictures(rt: HostRuntime) {
    assert!(rt; rounds_leave_pictures(&rt));
}
