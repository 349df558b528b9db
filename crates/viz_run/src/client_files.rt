//! The files of the clients, accepted or refused one after the other.
ghost use Rattle.std.specs.Prelude.{◌≡◌, ◌≤◌, ◌<◌, ◌+◌, None, Some, [], true, false};
ghost use Rattle.std.specs.Prelude.{length, slice_index_or, IsTrue};
ghost use Rattle.std.specs.Prelude.{IfOk, IfErr, OnOk, OnErr, IsErrOf};
ghost use Rattle.std.specs.List.{list_all};
ghost use Rattle.vz_base.specs.declared.limits.TheConstants.{MOST_FILES};
ghost use Rattle.vz_frame.specs.Fits.{fits_file};
ghost use Rattle.vz_geom.specs.Display.{IsDisplaySize};
ghost use Rattle.vz_rules.specs.Plan.{first_taken};
ghost use Rattle.viz_run.specs.Read.{contents};
ghost use Rattle.viz_run.specs.Decoded.{IsDecoded, AreDecoded};
ghost use Rattle.viz_run.specs.Refusals.{sink_place, takes_sink, file_refused, files_in, plan_read};
ghost use Rattle.viz_run.specs.declared.refused.Reason.TheVariants.{SinkTaken};
ghost use Rattle.viz_run.specs.declared.refused.InputError.TheVariants as input_error;
ghost use Rattle.viz_run.specs.declared.refused.Refused.{Refused as Refusal};

use crate::refused::{InputError, Reason, Refused};
use std::alloc::Global;
use std::thread;
use std::thread::Threads;
use vz_base::Memory;
use vz_base::limits::MOST_FILE_BYTES;
use vz_codec::DecodeError;
use vz_frame::ClientFile;
use vz_geom::Size;
use vz_rules::Plan;

/// What one file gives by itself: the messages that its bytes spell, or why it is refused.
type Decoded = Result<ClientFile, InputError>;

/// How many bytes come before the sink in a client's file.
const SINK_PLACE: usize = 6;

/// From how many bytes together the files are decoded in parallel. To start a thread that allocates takes some 100
/// microseconds, in which one thread decodes 300,000 bytes.
const PARALLEL_BYTES: usize = 1_048_576;

/// Makes the plan of the clients' files on a display of this size. `inputs` has the bytes of each
/// file, the first those of client 1. The files are decoded one after the other, or, if they have
/// `PARALLEL_BYTES` together, in parallel, each as one piece of work.
///
/// The error is `Refused` for the first file that is refused, with its number, the place in bytes
/// and the reason. A file is refused if it is longer than `MOST_FILE_BYTES`, else by the first
/// rule of the format that it breaks, else if an earlier file has its sink. Otherwise the only
/// error is `Memory`. Conditions: 1 to `MOST_FILES` files, and sides that a display may have.
pub fn plan_of<R: Threads + AllocGlobal + Sync>(
    rt: &R,
    size: Size,
    inputs: &[Vec<u8>],
) -> Result<Plan, InputError>
    requires some { 1 ≤ length inputs.now }
    requires few { length inputs.now ≤ MOST_FILES }
    requires size { IsDisplaySize size }
    ensures plan { IfOk result (λ p. p ≡ plan_read size (contents inputs.now)) }
    ensures accepted { OnOk result (file_refused (contents inputs.now) ≡ None) }
    ensures refused { (r : Refusal) → IsErrOf result (input_error.Refused r)
        → file_refused (contents inputs.now) ≡ Some r }
{
    if bytes_of(inputs) < PARALLEL_BYTES {
        return plan_in_turn(rt.alloc(), size, inputs);
    }
    let answers = decode_all(rt, inputs)?;
    plan_from(rt.alloc(), size, inputs, answers)
}

/// How many bytes the inputs have together.
fn bytes_of(inputs: &[Vec<u8>]) -> usize {
    let mut bytes: usize = 0;
    for input in inputs {
        bytes = bytes.saturating_add(input.len());
    }
    bytes
}

/// Makes the same plan as `plan_of`, with the same errors under the same conditions, but decodes
/// the files one after the other on the caller's thread. So it needs no runtime, and a static
/// library can call it.
pub fn plan_in_turn(alloc: Global, size: Size, inputs: &[Vec<u8>]) -> Result<Plan, InputError>
    requires some { 1 ≤ length inputs.now }
    requires few { length inputs.now ≤ MOST_FILES }
    requires size { IsDisplaySize size }
    ensures plan { IfOk result (λ p. p ≡ plan_read size (contents inputs.now)) }
    ensures accepted { OnOk result (file_refused (contents inputs.now) ≡ None) }
    ensures refused { (r : Refusal) → IsErrOf result (input_error.Refused r)
        → file_refused (contents inputs.now) ≡ Some r }
{
    let answers = decode_each(alloc, inputs)?;
    plan_from(alloc, size, inputs, answers)
}

/// The plan of decoded files, if all were decoded and no two have the same sink.
fn plan_from(
    alloc: Global,
    size: Size,
    inputs: &[Vec<u8>],
    answers: Vec<Decoded>,
) -> Result<Plan, InputError>
    requires some { 1 ≤ length inputs.now }
    requires few { length inputs.now ≤ MOST_FILES }
    requires size { IsDisplaySize size }
    requires all { length answers.items ≡ length inputs.now }
    requires each { AreDecoded 0 (contents inputs.now) answers.items }
    ensures plan { IfOk result (λ p. p ≡ plan_read size (contents inputs.now)) }
    ensures accepted { OnOk result (file_refused (contents inputs.now) ≡ None) }
    ensures refused { (r : Refusal) → IsErrOf result (input_error.Refused r)
        → file_refused (contents inputs.now) ≡ Some r }
{
    let files = accepted_files(alloc, inputs, answers)?;
    match Plan::new(files, size) {
        Ok(plan) => Ok(plan),
        Err((_, place)) => Err(refused(place, SINK_PLACE, Reason::SinkTaken)),
    }
}

/// Decodes the files one after the other, and returns for each, in their order, what `decode_one`
/// answers for it.
fn decode_each(alloc: Global, inputs: &[Vec<u8>]) -> Result<Vec<Decoded>, Memory>
    requires { length inputs.now ≤ MOST_FILES }
    ensures all { IfOk result (λ answers. length answers.items ≡ length inputs.now) }
    ensures each { IfOk result (λ answers. AreDecoded 0 (contents inputs.now) answers.items) }
{
    let mut answers = Vec::new(alloc);
    for place in 0..inputs.len() {
        answers.push(decode_at(alloc, inputs, place))?;
    }
    Ok(answers)
}

/// Decodes the files in parallel, each as one piece of work, and returns for each, in their
/// order, what `decode_one` answers for it.
fn decode_all<R: Threads + AllocGlobal + Sync>(
    rt: &R,
    inputs: &[Vec<u8>],
) -> Result<Vec<Decoded>, Memory>
    requires { length inputs.now ≤ MOST_FILES }
    ensures all { IfOk result (λ answers. length answers.items ≡ length inputs.now) }
    ensures each { IfOk result (λ answers. AreDecoded 0 (contents inputs.now) answers.items) }
{
    let alloc = rt.alloc();
    let piece = |place: usize| -> Decoded
        requires { (place < length inputs.now) × (length inputs.now ≤ MOST_FILES) }
        ensures { IsDecoded place (slice_index_or (contents inputs.entry.now) place []) result }
    { decode_at(alloc, inputs, place) };
    let answers = thread::map_indices(rt, alloc, inputs.len(), &piece)?;
    Ok(answers)
}

/// What the input at an index gives, whatever the others are.
fn decode_at(alloc: Global, inputs: &[Vec<u8>], place: usize) -> Decoded
    requires inside { place < length inputs.now }
    requires few { length inputs.now ≤ MOST_FILES }
    ensures { IsDecoded place (slice_index_or (contents inputs.now) place []) result }
{
    decode_one(alloc, place, &inputs[place])
}

/// The file that these bytes spell, as the one after `others` other inputs. It does not depend on
/// them.
fn decode_one(alloc: Global, others: usize, bytes: &[u8]) -> Decoded
    requires { others < MOST_FILES }
    ensures { IsDecoded others bytes.now result }
{
    if bytes.len() > MOST_FILE_BYTES {
        return Err(refused(others, MOST_FILE_BYTES, Reason::Long));
    }
    match vz_codec::decode(alloc, bytes) {
        Ok(file) => Ok(file),
        Err(DecodeError::Memory) => Err(InputError::Memory),
        Err(DecodeError::Refused { at, rule }) => { Err(refused(others, at, Reason::Rule(rule))) }
    }
}

/// The decoded files of the inputs, if all were decoded and no two have the same sink.
fn accepted_files(
    alloc: Global,
    inputs: &[Vec<u8>],
    answers: Vec<Decoded>,
) -> Result<Vec<ClientFile>, InputError>
    requires few { length inputs.now ≤ MOST_FILES }
    requires all { length answers.items ≡ length inputs.now }
    requires each { AreDecoded 0 (contents inputs.now) answers.items }
    ensures files { IfOk result (λ files. files.items ≡ files_in (contents inputs.now)) }
    ensures count { IfOk result (λ files. length files.items ≡ length inputs.now) }
    ensures fitting { IfOk result (λ files. IsTrue (list_all fits_file files.items)) }
    ensures free { IfOk result (λ files. first_taken files.items ≡ None) }
    ensures accepted { OnOk result (file_refused (contents inputs.now) ≡ None) }
    ensures refused { (r : Refusal) → IsErrOf result (input_error.Refused r)
        → file_refused (contents inputs.now) ≡ Some r }
{
    let mut files = Vec::new(alloc);
    for answer in answers {
        let file = free_file(&files, answer?)?;
        files.push(file)?;
    }
    Ok(files)
}

/// The file, if no earlier one has its sink.
fn free_file(earlier: &[ClientFile], file: ClientFile) -> Result<ClientFile, InputError>
    requires { length earlier.now < MOST_FILES }
    ensures same { IfOk result (λ f. f ≡ file) }
    ensures free { OnOk result (takes_sink earlier.now file ≡ false) }
    ensures taken { OnErr result (takes_sink earlier.now file ≡ true) }
    ensures refused { IfErr result (λ e. e ≡ input_error.Refused (record {
      file = length earlier.now + 1;
      at = sink_place;
      reason = SinkTaken;
    })) }
{
    if takes_sink(earlier, &file) {
        Err(refused(earlier.len(), SINK_PLACE, Reason::SinkTaken))
    } else {
        Ok(file)
    }
}

/// Whether one of the earlier files has the sink of this one.
fn takes_sink(earlier: &[ClientFile], file: &ClientFile) -> bool
    ensures { result ≡ takes_sink earlier.now file.now }
{
    earlier.iter().any(|other| file.sink == other.sink)
}

/// The error that the file after `others` other files is refused.
fn refused(others: usize, at: usize, reason: Reason) -> InputError
    requires { others < MOST_FILES }
    ensures { result ≡ input_error.Refused (record {
      file = others + 1;
      at = at;
      reason = reason;
    }) }
{
    InputError::Refused(Refused {
        file: others as u32 + 1,
        at,
        reason,
    })
}
