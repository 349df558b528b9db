//! The buffers of a display, the queue in which they are used, and the counter of the pixels that
//! are put into them.
#![tactic(auto)]

mod bands;
mod buffer;
mod crew;
mod holding;
pub mod laws;
mod pages;
mod queue;
mod shared;
mod slots;
mod steps;

pub use bands::RowPainter;
pub use buffer::Buffer;
pub use queue::Queue;
pub use shared::SharedBuffer;
pub use steps::Steps;
