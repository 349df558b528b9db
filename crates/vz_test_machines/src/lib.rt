//! Tests of what no clause says of the machines and of the gate. Both machines play the files by
//! rule and tell the same, and the plain one leaves the plain pictures. The gate is told of each
//! step of the program, the display and two clients can be before their first step at once, and a
//! frame is written before the display calls Done, or by a thread of its own while it goes on. A
//! bell wakes who waits, and none of its rings is missed. A desk is tried without waiting, and
//! stopped. Callers of a hub meet, and make calls from threads. An allocator of ids runs out of
//! numbers, and adopts an id.
#![tactic(auto)]

#[cfg(test)]
mod bell;
#[cfg(test)]
mod between;
#[cfg(test)]
mod call;
#[cfg(test)]
mod course;
#[cfg(test)]
mod desk;
#[cfg(test)]
mod gate;
#[cfg(test)]
mod ids;
#[cfg(test)]
mod meeting;
#[cfg(test)]
mod order;
#[cfg(test)]
mod pictures;
#[cfg(test)]
mod piped;
#[cfg(test)]
mod plans;
#[cfg(test)]
mod row;
#[cfg(test)]
mod shelf;
#[cfg(test)]
mod shown;
#[cfg(test)]
mod told;
#[cfg(test)]
mod turns;
#[cfg(test)]
mod waits;
