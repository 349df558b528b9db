//! A desk: several threads drive one machine in turns, and each of them has seen a front part of
//! one legal history.
#![tactic(auto)]

mod answer;
mod bell;
mod book;
mod desk;
mod display;
mod display_end;
mod drawing;
mod end;
mod ending;
mod gathered;
mod hold;
pub mod laws;
mod note;
mod opening;
mod pause;
mod show;
mod totals;

pub use answer::{Answer, Note};
pub use bell::Bell;
pub use book::Book;
pub use desk::Desk;
pub use display_end::DisplayEnd;
pub use drawing::Drawing;
pub use end::End;
pub use gathered::Gathered;
pub use hold::Hold;
pub use totals::Totals;
