//! Plays a table of worked rows through public calls of the base crates: what no clause says of message files, frames,
//! logs, words, rows of pixels and devices.
//!
//! The one word of the command line names the table. Its groups are parted by blank lines; the first line of a group
//! is its name, and each other line is a row, as `row` reads it. For each group a line is printed: its name, and that
//! all its rows are as expected, or the first one that is not. The status is 1 if there is one.
#![tactic(auto)]

mod devices;
mod files;
mod holds;
mod logs;
mod pixels;
mod row;
mod texts;
mod words;

use anyhow::{Context, Result, bail};
use std::{env, fs};

fn main(rt: HostRuntime) -> Result<()> {
    let Some(table) = env::args(&rt)?.nth(1) else {
        bail!("no table of rows");
    };
    let text = fs::read_to_string(&rt, table.as_str()).context("reading the table")?;
    let mut differing = 0u32;
    for group in text.split("\n\n") {
        if !is_as_expected(&rt, group)? {
            differing = differing.saturating_add(1);
        }
    }
    if differing > 0 {
        bail!("{differing} groups differ");
    }
    Ok(())
}

/// Plays a group, prints how it went, and answers whether all its rows are as expected.
fn is_as_expected(rt: &HostRuntime, group: &str) -> Result<bool> {
    let (name, rows) = group.split_once('\n').unwrap_or((group, ""));
    match row::first_other(rt, rows) {
        None => {
            println!(rt; "{name}: as expected")?;
            Ok(true)
        }
        Some(other) => {
            println!(rt; "{name}: other than expected in the row {other}")?;
            Ok(false)
        }
    }
}
