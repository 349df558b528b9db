//! A submission that waits for a deadline.
use vz_ids::Sub;

/// A submission that waits, and the tick of its deadline.
#[derive(Clone, Copy)]
pub(crate) struct Due {
    pub(crate) sub: Sub,
    pub(crate) tick: u32,
}
