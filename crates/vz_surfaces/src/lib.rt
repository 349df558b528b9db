//! The surfaces and submissions of the incremental machine.
//!
//! Contracts see a store as all surfaces that were ever created and all submissions that were
//! ever accepted. In memory it has at most one waiting and one active frame for each surface that
//! exists.
#![tactic(auto)]

mod groups;
mod growing;
mod held;
pub mod laws;
mod marks;
mod named;
mod owners;
mod rising;
mod seen;
mod showing;
mod standing;
mod store;
mod table;
mod told;
mod waits;

pub use held::{Gone, Held, Taken};
pub use named::NamedFrame;
pub use rising::Rising;
pub use seen::Seen;
pub use store::Store;
