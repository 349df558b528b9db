//! Operations on rows of pixels, sixteen pixels at a time. Each call leaves the same pixels as a
//! plain loop over single pixels.
#![tactic(auto)]

mod groups;
mod lanes;
mod mixes;
mod rows;
mod walks;

pub use rows::{dst_in_fill, dst_in_row, fill_row, over_fill, over_row, src_row};
