//! What is returned to clients: their resources, and the feedback for their submissions.
//!
//! A `Holder` counts the references that one client lent, and `Feedbacks` are the submissions
//! that await feedback. `Lenders` are the references of all clients, and `PendingFeedback` is the
//! feedback that is owed to all: each accepted submission gets one report, presented or dropped,
//! in the order of acceptance over all clients.
#![tactic(auto)]

mod counts;
mod due;
mod ended;
mod feedbacks;
mod holder;
pub mod laws;
mod lender;
mod lenders;
mod pending_feedback;
mod queue;

pub use ended::Ended;
pub use feedbacks::Feedbacks;
pub use holder::Holder;
pub use lenders::Lenders;
pub use pending_feedback::PendingFeedback;
