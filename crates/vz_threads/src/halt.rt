//! Why a run is stopped.

/// Why a run is stopped before its end.
#[derive(Clone, Copy, Debug, PartialEq, Eq)]
pub(crate) enum Halt {
    /// Writing a frame failed.
    Fault,
    /// An allocation failed.
    Memory,
}
