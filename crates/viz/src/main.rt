//! The program `viz`. It passes the command line, the files and standard output of the system to
//! the call `viz` of the crate `viz_run`.
#![tactic(auto)]

ghost use Rattle.std.specs.Prelude.{◌≡◌, ◌<◌, ℕ};
ghost use Rattle.std.specs.Process.{exit_status};
ghost use Rattle.vz_words.specs.Words.{texts};
ghost use Rattle.viz_run.specs.Site.{outside};
ghost use Rattle.viz.specs.Ended.{EndsWith};

use std::alloc::AllocError;
use std::io::ErrorKind;
use std::marker::Brand;
use std::process::ExitCode;
use std::rt::Env;
use std::sync::Wait;
use std::sync::ledger::{Blank, Ledger};
use std::thread::Threads;
use std::{env, mem};
use viz_run::viz;
use vz_buffers::Steps;
use vz_outside::{OpenGate, RealShelf, RealSink, Shelf, Sink};

/// The status after a failed allocation.
const MEMORY: u8 = 5;

/// How many bytes of memory are asked for at first. From 32 MiB on the C library forgets it.
const LARGE: usize = 33_000_000;

/// Asks for a large piece of memory and gives it back untouched. From then on the C library keeps
/// pieces up to that size as they are given back, where it would else return each large one to the
/// system: what comes after the files were read is then made in memory that is there already.
fn keep_memory<R: AllocGlobal>(rt: &R) {
    if let Ok(piece) = Vec::<u8>::with_capacity(rt.alloc(), LARGE) {
        drop(piece);
    }
}

fn main(rt: HostRuntime) -> ExitCode {
    keep_memory(&rt);
    let Ok(words) = words_of(&rt) else {
        return ExitCode::from(MEMORY);
    };
    let Ok(files) = rt.clone() else {
        return ExitCode::from(MEMORY);
    };
    let mut shelf = RealShelf::new(files);
    let mut out = RealSink::new(rt.stdout());
    run::<Brand, _, _, _>(&rt, &words, &mut shelf, &mut out, Blank::new(1))
}

/// Runs the words of a command line. The process ends with the status of the call: contracts say
/// of that number, for some history and some count of pixels, what `viz` says of its status.
fn run<L: Ledger, F: Shelf + Send, O: Sink, R: Threads + Wait + AllocGlobal + Sync>(
    rt: &R,
    words: &[String],
    shelf: &mut F,
    out: &mut O,
    blank: Blank,
) -> ExitCode
    requires name { blank.name ≡ L.name }
    requires parts { blank.parts ≡ L.parts }
    requires some { 0 < L.parts }
    ensures { (painted : ℕ) × EndsWith (texts words.now) (exit_status result)
        (outside (F.shelved shelf.old) (O.sunk out.old) 0)
        (outside (F.shelved shelf.new) (O.sunk out.new) painted) }
{
    let mut steps = Steps::<L>::new(blank);
    let ended = viz(rt, words, shelf, out, &OpenGate, &mut steps);
    let status = ended.status;
    // The system takes the memory of the history back with the process.
    mem::forget(ended);
    ExitCode::from(status)
}

/// The words after the program's name. If one of them is not UTF-8, the list is empty, so that
/// the command line is refused.
fn words_of<R: Env + AllocGlobal>(rt: &R) -> Result<Vec<String>, AllocError> {
    let mut words = Vec::new(rt.alloc());
    let given = match env::args(rt) {
        Ok(given) => given,
        Err(error) if error.kind() == ErrorKind::OutOfMemory => return Err(AllocError),
        Err(_) => return Ok(words),
    };
    for word in given.skip(1) {
        words.push(word)?;
    }
    Ok(words)
}
