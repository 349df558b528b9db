//! How a caller waits before it takes a ticket, and how it is woken. No clause says anything of it.
//!
//! A caller takes a ticket only once the lock looks free, so that who just left may enter again at once, with the state
//! still in its caches. A caller that slept in vain some times takes a ticket whatever the lock looks like: then nobody
//! else enters before it.

use super::Lock;
use crate::kept::Kept;
use std::hint::spin_loop;
use std::sync::Wait;
use std::sync::atomic::Ordering::SeqCst;
use std::thread;

/// How often a caller looks at the lock before it sleeps.
const LOOKS: u32 = 100;

/// How often a caller sleeps before it takes a ticket whatever the lock looks like.
const SLEEPS: u32 = 8;

impl<K: Kept> Lock<K> {
    // Whether no ticket is out.
    fn is_free(&self) -> bool {
        self.table.shared.peek(1) == self.table.shared.peek(0)
    }

    // Waits until the lock looks free, or for so long that a ticket is to be taken whatever it looks like.
    pub(super) fn approach<R: Wait>(&self, rt: &R) {
        if self.is_free() {
            return;
        }
        self.stand_by(rt);
    }

    // Looks for a while whether the lock is free.
    fn watch(&self) -> bool {
        for _ in 0..LOOKS {
            if self.is_free() {
                return true;
            }
            spin_loop();
        }
        false
    }

    // Looks at the lock, and sleeps in between.
    fn stand_by<R: Wait>(&self, rt: &R) {
        if self.watch() {
            return;
        }
        for _ in 0..SLEEPS {
            self.sleep(rt);
            if self.watch() {
                break;
            }
        }
        // Others may sleep, whom the next caller that leaves is to wake.
        self.asleep.store(1, SeqCst);
    }

    // Sleeps until a caller leaves, if the lock is not free. A caller that leaves lowers `asleep` first and then ends
    // its turn, so who reads the new end of turns sees that it has to raise it again.
    fn sleep<R: Wait>(&self, rt: &R) {
        self.asleep.store(1, SeqCst);
        let ended = self.table.shared.peek(1);
        if self.table.shared.peek(0) != ended && self.asleep.load(SeqCst) == 1 {
            self.table.shared.park(rt, 1, (ended & 0xffff_ffff) as u32);
        }
    }

    // Waits a little for the turns of the tickets before.
    pub(super) fn pause(&self) {
        let ended = self.table.shared.peek(1);
        for _ in 0..LOOKS {
            if self.table.shared.peek(1) != ended {
                return;
            }
            spin_loop();
        }
        thread::yield_now();
    }

    // Before a turn ends: nobody is asleep any more of whom is not known that it is to be woken. Returns whether somebody
    // was.
    pub(super) fn lower(&self) -> bool {
        if self.asleep.load(SeqCst) == 0 {
            return false;
        }
        self.asleep.store(0, SeqCst);
        true
    }

    // After a turn ended: wakes one that sleeps, if somebody did before the end or fell asleep just then. Who fell
    // asleep after `lower` and before the end raised `asleep` again, which stays raised for the next that leaves.
    pub(super) fn wake_next(&self, raised: bool) {
        if raised || self.asleep.load(SeqCst) == 1 {
            self.table.shared.wake_one(1);
        }
    }
}
