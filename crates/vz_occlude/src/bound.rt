//! How many occluders are remembered.

/// The greatest number of occluders of a list that are looked at for each item: the last ones.
pub const MOST_OCCLUDERS: usize = 64;
