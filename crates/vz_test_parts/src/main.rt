//! Plays histories of the machine's parts: worked ones, whose answers are written in tables, and
//! long ones that are drawn, in which each call must have memory. A line is printed a history: its
//! name, and how many of its calls are answered as they must be, up to the first that is not.
//!
//! Another part comes in as one more file like `holder.rt`, with a line in `main`.
#![tactic(auto)]

mod deadlines;
mod deps;
mod holder;
mod occluded;
mod painted;
mod references;
mod sinks;
mod telling;
mod thinned;

use anyhow::Result;

fn main(rt: HostRuntime) -> Result<()> {
    holder::play(&rt)?;
    deadlines::play(&rt)?;
    sinks::play(&rt)?;
    deps::play(&rt)?;
    references::play(&rt)?;
    painted::play(&rt)?;
    occluded::play(&rt)?;
    thinned::play(&rt)
}
