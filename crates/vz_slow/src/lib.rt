//! The plain machine: a simple reference implementation of the definitions.
//!
//! Its contracts are the definitions of `vz_rules`, and its bodies stay close to them: it keeps
//! every submission and scans all of them. `check` replays a log on it, and tests compare the
//! incremental machine with it, by the trait that both implement (`PlainMachine`). Each of its
//! pictures has all pixels.
#![tactic(auto)]

mod asked;
mod attached;
mod collect;
mod copy;
mod display;
mod draw;
mod drawn;
mod hits;
mod laws;
mod messages;
mod naming;
mod picture;
mod plain_machine;
mod quiet;
mod reach;
mod replay;
mod rest;
mod returns;
mod settle;
mod slow;
mod submit;
mod world;

pub use laws::histories_name_clients;
pub use plain_machine::PlainMachine;
pub use replay::plain_frame;
pub use slow::Slow;
