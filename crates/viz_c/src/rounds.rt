//! The message files that are made by rule, as bytes.
ghost use Rattle.std.specs.Prelude.{◌≡◌, ◌≢◌, ◌≤◌, ◌==◌, ◌&&◌, length, map, take, vec_len, IsTrue, IfOk};
ghost use Rattle.std.specs.List.{flat_map, list_all, sum};
ghost use Rattle.vz_base.specs.declared.limits.TheConstants.{MOST_ROUNDS};
ghost use Rattle.vz_frame.specs.Fits.{fits_file};
ghost use Rattle.vz_codec.specs.Spelling.{file_bytes};
ghost use Rattle.vz_gen.specs.Make.{make};
ghost use Rattle.viz_c.specs.Answers as viz;
ghost use Rattle.viz_c.specs.Calls.{is_gen_call};
ghost use Rattle.viz_c.specs.Making.{lengths_of, IsMadeTold, AreMadeTold};

use crate::answer::{DONE, MEMORY, ROOM};
use crate::room::put;
use std::alloc::Global;
use vz_base::Memory;
use vz_base::limits::MOST_ROUNDS;
use vz_codec::encode;
use vz_frame::ClientFile;

/// Message files as bytes, one after the other, and the length of each.
#[derive(Drop)]
pub struct Made {
    pub bytes: Vec<u8>,
    pub lengths: Vec<usize>,
}

/// Whether files can be made for so many rounds, and there is room for three lengths.
pub fn is_gen_call(rounds: u32, lengths: &[usize]) -> bool
    ensures { result ≡ is_gen_call rounds lengths.now }
{
    1 <= rounds && rounds <= MOST_ROUNDS && lengths.len() == 3
}

/// Makes the message files of a page and its two children for so many rounds. Condition: at most
/// `MOST_ROUNDS` rounds. The only error is `Memory`.
pub fn make_files(alloc: Global, rounds: u32) -> Result<Made, Memory>
    requires { rounds ≤ MOST_ROUNDS }
    ensures bytes { IfOk result (λ made.
        made.bytes.items ≡ flat_map file_bytes (make rounds)) }
    ensures lengths { IfOk result (λ made. made.lengths.items ≡ lengths_of (make rounds)) }
{
    let files = vz_gen::make(alloc, rounds)?;
    let made = encode_all(alloc, files.as_slice())?;
    Ok(made)
}

/// Encodes files, one after the other. Condition: they fit the format.
fn encode_all(alloc: Global, files: &[ClientFile]) -> Result<Made, Memory>
    requires { IsTrue (list_all fits_file files.now) }
    ensures bytes { IfOk result (λ made. made.bytes.items ≡ flat_map file_bytes files.now) }
    ensures lengths { IfOk result (λ made. made.lengths.items ≡ lengths_of files.now) }
{
    let mut bytes = Vec::new(alloc);
    let mut lengths = Vec::new(alloc);
    for place in 0..files.len() {
        let file = encode(alloc, &files[place])?;
        let count = file.len();
        bytes.extend_from_slice(&file)?;
        lengths.push(count)?;
    }
    Ok(Made { bytes, lengths })
}

/// Puts the files and their lengths into the rooms of the caller, and returns the answer.
/// Condition: there is room for as many lengths as there are files.
pub fn tell_made(
    made: &Result<Made, Memory>,
    files: &mut [u8],
    files_len: &mut usize,
    lengths: &mut [usize],
) -> u32
    requires { IfOk made.now (λ made. length made.lengths.items ≡ length lengths.old) }
    ensures told { IsMadeTold made.now result
        (record { before = files.old; after = files.new; count = files_len.new })
        lengths.old lengths.new }
    ensures lengths_kept { result ≢ viz.DONE → result ≢ viz.ROOM
        → (files_len.new ≡ files_len.old) × (lengths.new ≡ lengths.old) }
{
    match made {
        Ok(made) => put_made(made, files, files_len, lengths),
        Err(_) => MEMORY,
    }
}

/// Puts files and their lengths into the rooms of the caller, and returns the answer.
fn put_made(made: &Made, files: &mut [u8], files_len: &mut usize, lengths: &mut [usize]) -> u32
    requires { length made.now.lengths.items ≡ length lengths.old }
    ensures { AreMadeTold made.now result
        (record { before = files.old; after = files.new; count = files_len.new })
        lengths.new }
{
    lengths.copy_from_slice(&made.lengths);
    if put(&made.bytes, files, files_len) {
        DONE
    } else {
        ROOM
    }
}
