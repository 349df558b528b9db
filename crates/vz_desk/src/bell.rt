//! A bell that threads wait for.
ghost use Rattle.std.specs.Prelude.{◌≢◌, IfSome};

use std::hint::spin_loop;
use std::sync::atomic::{AtomicU64, Ordering};
use std::sync::{Condvar, Mutex, Wait};

/// How often who watches a bell looks at it before it sleeps: in each turn `GLANCES` times. That
/// is about 30 microseconds.
const TURNS: u32 = 3_000;

/// How often who watches a bell looks at it between two pauses of the processor.
const GLANCES: u32 = 16;

/// For how many waits at most nobody watches a bell after it was watched in vain.
const MOST_SKIPS: u64 = 64;

/// A bell, which wakes the threads that wait for it. Who waits returns only after it saw another
/// number of rings than it had heard; no clause says that a ring wakes it.
///
/// `rings` is how often it has rung, modulo 2^64, and `shown` is the same number, for those who
/// look without the lock. `vain` is how often it was watched in vain, one time after the other, and
/// `skips` how often it is not to be watched now.
#[derive(Drop)]
pub struct Bell {
    rings: Mutex<u64>,
    rung: Condvar,
    shown: AtomicU64,
    vain: AtomicU64,
    skips: AtomicU64,
}

impl Bell {
    /// Makes a bell that has not rung.
    pub fn new() -> Bell {
        Bell {
            rings: Mutex::new(0),
            rung: Condvar::new(),
            shown: AtomicU64::new(0),
            vain: AtomicU64::new(0),
            skips: AtomicU64::new(0),
        }
    }

    /// How often it has rung, modulo 2^64.
    pub fn rings(&self) -> u64 {
        self.shown.load(Ordering::SeqCst)
    }

    /// Rings, and wakes all threads that wait.
    pub fn ring<R: Wait>(&self, rt: &R) {
        let mut rings = self.rings.lock(rt);
        let count = (*rings).wrapping_add(1);
        *rings = count;
        self.shown.store(count, Ordering::SeqCst);
        drop(rings);
        self.rung.notify_all();
    }

    /// Rings if `due` is true.
    pub fn ring_if<R: Wait>(&self, rt: &R, due: bool) {
        if due {
            self.ring(rt);
        }
    }

    /// Waits until it has rung more often than `heard`. Returns how often it has rung then, modulo
    /// 2^64.
    pub fn wait_beyond<R: Wait>(&self, rt: &R, heard: u64) -> u64
        ensures { result ≢ heard }
    {
        let rings = self.rings.lock(rt);
        let rings = self.rung.wait_while(rt, rings, |rings| *rings == heard);
        *rings
    }

    /// Waits until it has rung more often than `heard`, as `wait_beyond` does, but looks for some
    /// microseconds before it sleeps. Who is about to ring then need not wake it, and it goes on
    /// at once, where the system would take longer to wake it than it waited. Each time that this
    /// was in vain, it sleeps at once for one wait more than the last time.
    pub fn watch_beyond<R: Wait>(&self, rt: &R, heard: u64) -> u64
        ensures { result ≢ heard }
    {
        if self.may_watch() {
            if let Some(rings) = self.watches_beyond(heard) {
                return rings;
            }
        }
        self.wait_beyond(rt, heard)
    }

    // Whether the bell is to be watched now. If not, there is one skip less.
    fn may_watch(&self) -> bool {
        let skips = self.skips.load(Ordering::SeqCst);
        if skips == 0 {
            return true;
        }
        self.skips.store(skips.saturating_sub(1), Ordering::SeqCst);
        false
    }

    // Looks for some microseconds whether it has rung more often than `heard`, and keeps whether
    // that was in vain. Returns how often it has rung, or None if that was in vain.
    fn watches_beyond(&self, heard: u64) -> Option<u64>
        ensures { IfSome result (λ rings. rings ≢ heard) }
    {
        if let Some(rings) = self.hears_beyond(heard) {
            self.vain.store(0, Ordering::SeqCst);
            return Some(rings);
        }
        let vain = self.vain.load(Ordering::SeqCst).saturating_add(1);
        self.vain.store(vain, Ordering::SeqCst);
        self.skips.store(vain.min(MOST_SKIPS), Ordering::SeqCst);
        None
    }

    // Looks for some microseconds whether it has rung more often than `heard`. Returns how often
    // it has rung, or None if it has not.
    fn hears_beyond(&self, heard: u64) -> Option<u64>
        ensures { IfSome result (λ rings. rings ≢ heard) }
    {
        for _ in 0..TURNS {
            if let Some(rings) = self.glances_beyond(heard) {
                return Some(rings);
            }
            spin_loop();
        }
        None
    }

    // Looks some times whether it has rung more often than `heard`. Returns how often it has rung,
    // or None if it has not.
    fn glances_beyond(&self, heard: u64) -> Option<u64>
        ensures { IfSome result (λ rings. rings ≢ heard) }
    {
        for _ in 0..GLANCES {
            let rings = self.rings();
            if rings != heard {
                return Some(rings);
            }
        }
        None
    }
}
