//! Where passes and surfaces are on the display, for both walks: the plain machine's and the fast
//! one's.
//!
//! A placement is the offset from the points of a pass or a surface to display pixels, and the
//! part of the display that its path leaves. A walk moves it by coordinates that fit a message
//! file, so that no sum overflows.
#![tactic(auto)]

mod frame;
mod placement;

pub use frame::{frame_rect, inside_frame};
pub use placement::{Placement, moved};
