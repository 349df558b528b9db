//! Calls the program over devices in memory, row by row of a table, and compares what each call
//! leaves with what must come.
//!
//! The one word of the command line names the table. Its rows are parted by blank lines, and each
//! line of a row has a key and a value; `Row` says which there are. For each row a line is printed,
//! its name and `same` or the first difference, and the status is 1 where there is one. The events
//! of a row of `step` or `hit` are also given to both machines, which must answer the same when they
//! are asked what is hit at each point of the display, after each event.
#![tactic(auto)]

ghost use Rattle.std.specs.Prelude.{◌≡◌, ◌<◌};

mod call;
mod compare;
mod failing;
mod file;
mod hits;
mod playing;
mod row;

use anyhow::{Context, Result, bail};
use playing::{How, played};
use std::marker::Brand;
use std::rt::{Env, Files};
use std::sync::Wait;
use std::sync::ledger::{Blank, Ledger};
use std::thread::Threads;
use std::{env, fs};
use vz_buffers::Steps;

fn main(rt: HostRuntime) -> Result<()> {
    run::<Brand, _>(&rt, Blank::new(1))
}

/// Plays the rows of the table that the command line names.
fn run<L: Ledger, R>(rt: &R, blank: Blank) -> Result<()>
where
    R: Threads + Wait + AllocGlobal + Env + Files + Print + Sync,
    requires name { blank.name ≡ L.name }
    requires parts { blank.parts ≡ L.parts }
    requires some { 0 < L.parts }
{
    let Some(table) = table_name(rt)? else {
        bail!("no table of rows");
    };
    let text = fs::read_to_string(rt, table.as_str()).context("reading the table")?;
    let mut steps = Steps::<L>::new(blank);
    let mut differing = 0u32;
    for part in text.split("\n\n") {
        if !is_same(rt, part, &mut steps)? {
            differing = differing.saturating_add(1);
        }
    }
    if differing > 0 {
        bail!("{differing} rows differ");
    }
    Ok(())
}

/// The one word behind the program's name.
fn table_name<R: Env + AllocGlobal>(rt: &R) -> Result<Option<String>> {
    Ok(env::args(rt)?.nth(1))
}

/// Plays a row, prints how it went, and tells whether all was as it must be.
fn is_same<L: Ledger, R>(rt: &R, text: &str, steps: &mut Steps<L>) -> Result<bool>
where
    R: Threads + Wait + AllocGlobal + Files + Print + Sync,
{
    let (name, how) = played(rt, text, steps);
    tell(rt, name, how)
}

/// Prints how a row went, and answers whether all was as it must be.
fn tell<R: AllocGlobal + Print>(rt: &R, name: &str, how: How) -> Result<bool> {
    match how {
        How::Same => {
            println!(rt; "{name} same")?;
            Ok(true)
        }
        How::SameInTurn(calls) => {
            println!(rt; "{name} same, also where one of {calls} calls fails")?;
            Ok(true)
        }
        How::Differs(what) => {
            println!(rt; "{name} differs: {what}")?;
            Ok(false)
        }
    }
}
