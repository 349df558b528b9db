//! A bell that wakes, whether who waits for it sleeps or watches it.
use std::thread;
use vz_desk::Bell;

#[test]
fn a_ring_wakes_who_waits(rt: HostRuntime) {
    let bell = Bell::new();
    let heard = bell.rings();
    thread::join(&rt, || bell.wait_beyond(&rt, heard), || bell.ring(&rt));
    assert!(&rt; bell.rings() == 1);
}

#[test]
fn a_ring_is_heard_by_who_watches(rt: HostRuntime) {
    let bell = Bell::new();
    for heard in 0..200 {
        thread::join(&rt, || bell.watch_beyond(&rt, heard), || bell.ring(&rt));
        assert!(&rt; bell.rings() == heard + 1);
    }
}
