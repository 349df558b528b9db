//! An allocator of ids that runs out of numbers. A parent's begin at 1, so that it would take four
//! thousand million calls to see it run out; its contract says when it does.
use vz_ids::{ChildAllocator, EmbedToken, LocalSurfaceId};

#[test]
fn a_child_runs_out_of_numbers(rt: HostRuntime) {
    let last = LocalSurfaceId {
        parent: 3,
        child: u32::MAX,
        token: EmbedToken(1),
    };
    let mut child = ChildAllocator::new(last);
    let is_spent = child.next().is_err();
    assert!(rt; is_spent && child.current() == last);
}

#[test]
fn a_child_adopts_a_later_parent_number(rt: HostRuntime) {
    let first = id_of(3, 7);
    let mut child = ChildAllocator::new(first);
    let older = child.adopt(id_of(2, 1));
    let stays = child.current() == first;
    let newer = child.adopt(id_of(4, 1));
    let adopts = child.current() == id_of(4, 7);
    assert!(rt; !older && stays && newer && adopts);
}

/// An id with these numbers, all of one token.
fn id_of(parent: u32, child: u32) -> LocalSurfaceId {
    LocalSurfaceId {
        parent,
        child,
        token: EmbedToken(1),
    }
}
