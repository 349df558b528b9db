//! Callers on threads: each client of a plan has a thread that makes its calls on a hub, while the
//! calling thread makes the calls of the display.
//!
//! Example: a plan has two clients, whose files have 3 and 5 messages. For two rounds the history
//! has 14 entries: three of client 1, five of client 2, and Begin, Draw and Done twice, in
//! whatever order the calls got their turns.
#![tactic(auto)]

mod beside;
mod calls;
mod crew;
mod opening;
mod play;

pub use play::play_turns;
