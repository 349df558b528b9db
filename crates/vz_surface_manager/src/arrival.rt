//! A submission as it is accepted.
use vz_ids::Sub;

/// What is reported of a submission that is accepted.
#[derive(Clone, Copy, Debug, PartialEq, Eq)]
pub struct Arrival {
    /// Its client and ordinal.
    pub sub: Sub,
    /// The deadline: the tick at which it becomes active even if it lacks a dependency.
    pub due: u32,
    /// The submission that was waiting on its surface and is dropped now, or None.
    pub replaced: Option<Sub>,
}
