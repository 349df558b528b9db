//! Tests of what no clause says: that two threads pass frames through the channel at once, when
//! the channel hands a frame back, and that `left` waits for nobody.
ghost use Rattle.std.specs.Prelude.{◌≡◌, ◌++◌, true, IfOk};

use crate::{Receiver, Sender, Sent, pipe};
use std::alloc::Global;
use std::sync::Wait;
use std::sync::atomic::{AtomicBool, Ordering};
use std::test::Fail;
use std::thread;
use std::thread::{Threads, join_mut};
use vz_base::Memory;

// How often a thread looks whether the other one has begun.
const MOST_LOOKS: u32 = 1_000_000;

// Whether the flag is set at one of the looks.
fn waits_for(flag: &AtomicBool) -> bool {
    for _ in 0..MOST_LOOKS {
        if flag.load(Ordering::SeqCst) {
            return true;
        }
        thread::yield_now();
    }
    false
}

// Sends the items, through the channel if the other thread has begun. Returns whether all were
// sent.
fn feed<R: Wait>(rt: &R, sender: &mut Sender<u64>, items: &[u64], begun: &AtomicBool) -> bool
    ensures pipe { sender.new.pipe ≡ sender.old.pipe }
    ensures sent { result ≡ true → sender.new.sent ≡ sender.old.sent ++ items.now }
{
    let go = waits_for(begun);
    for item in items {
        if sender.send(rt, *item, go).is_err() {
            sender.shut(rt);
            return false;
        }
    }
    sender.shut(rt);
    true
}

// Takes frames until none comes, and keeps them. Returns whether all were kept.
fn drain<R: Wait>(
    rt: &R,
    receiver: &mut Receiver<u64>,
    kept: &mut Vec<u64>,
    begun: &AtomicBool,
) -> bool
    requires { kept.old.items ≡ receiver.old.taken }
    ensures pipe { receiver.new.pipe ≡ receiver.old.pipe }
    ensures kept { result ≡ true → kept.new.items ≡ receiver.new.taken }
{
    begun.store(true, Ordering::SeqCst);
    for _ in rt.forever() {
        let Some(frame) = receiver.take(rt) else {
            return true;
        };
        if kept.push(frame).is_err() {
            break;
        }
    }
    for _ in rt.forever() {
        if receiver.take(rt).is_none() {
            break;
        }
    }
    false
}

// Takes what is left, and keeps it.
fn drain_left<R: Wait>(
    rt: &R,
    receiver: &mut Receiver<u64>,
    sent: &mut Sent<u64>,
    kept: &mut Vec<u64>,
) -> Result<(), Memory>
    requires pipe { sent.old.pipe ≡ receiver.old.pipe }
    requires kept { kept.old.items ≡ receiver.old.taken }
    ensures { IfOk result (λ _. kept.new.items ≡ sent.old.sent) }
{
    for _ in rt.forever() {
        let Some(frame) = receiver.left(rt, sent) else {
            break;
        };
        kept.push(frame)?;
    }
    Ok(())
}

// A copy of the items that went through a pipe, and how many of them the other thread took.
fn through<R: Threads + Wait + Sync>(
    rt: &R,
    alloc: Global,
    items: &[u64],
) -> Result<(Vec<u64>, usize), Memory>
    ensures { IfOk result (λ r. r.0.items ≡ items.now) }
{
    let (mut sender, mut receiver) = pipe::<u64>(alloc, 2)?;
    let mut kept = Vec::new(alloc);
    let begun = AtomicBool::new(false);
    // If no thread can be made, the first closure runs last.
    let (drained, fed) = join_mut(
        rt,
        &mut || drain(rt, &mut receiver, &mut kept, &begun),
        &mut || feed(rt, &mut sender, items, &begun),
    );
    let taken = kept.len();
    let mut sent = sender.end(rt);
    if !fed || !drained {
        return Err(Memory);
    }
    drain_left(rt, &mut receiver, &mut sent, &mut kept)?;
    Ok((kept, taken))
}

#[test]
fn two_threads_pass_frames_in_order(rt: HostRuntime) -> Result<(), Fail> {
    let mut items = Vec::new(rt.alloc());
    for number in 0..500u64 {
        items.push(number)?;
    }
    let (kept, taken) = through(&rt, rt.alloc(), items.as_slice())?;
    let same = kept == items;
    assert!(&rt; same & (taken == 500));
    Ok(())
}

#[test]
fn a_frame_that_is_handed_back_stays_in_the_list(rt: HostRuntime) -> Result<(), Fail> {
    let (mut sender, receiver) = pipe::<u64>(rt.alloc(), 1)?;
    drop(receiver);
    let mut fits = sender.send(&rt, 1, true).is_ok();
    fits &= sender.send(&rt, 2, true).is_ok();
    let sent = sender.end(&rt);
    let waiting = sent.waiting();
    assert!(&rt; fits & (waiting == 2));
    Ok(())
}

#[test]
fn what_is_left_waits_for_no_mark(rt: HostRuntime) -> Result<(), Fail> {
    let (mut sender, mut receiver) = pipe::<u64>(rt.alloc(), 2)?;
    let fits = sender.send(&rt, 1, true).is_ok() & sender.send(&rt, 2, false).is_ok();
    let mut sent = sender.end(&rt);
    let first = receiver.left(&rt, &mut sent) == Some(1);
    let second = receiver.left(&rt, &mut sent) == Some(2);
    assert!(&rt; fits & first & second);
    Ok(())
}
