//! The plan of a command that reads the clients' files alone.
ghost use Rattle.std.specs.Prelude.{◌≡◌, ◌≤◌, ℕ, List, length, IfOk, IsErrOf};
ghost use Rattle.vz_base.specs.declared.limits.TheConstants.{MOST_FILES};
ghost use Rattle.vz_geom.specs.Display.{IsDisplaySize};
ghost use Rattle.viz_run.specs.Read.{MissesOne, texts};
ghost use Rattle.viz_run.specs.declared.refused.Refused.{Refused as Refusal};
ghost use Rattle.vz_outside.specs.Shelved.{SameFiles};
ghost use Rattle.viz_run.specs.Planning.{ArePlanned, AreUnplanned};
ghost use Rattle.viz_run.specs.Ran.{counts_of};
ghost use Rattle.viz_run.specs.Stops.{Behaves};
ghost use Rattle.viz_run.specs.declared.stop.Stop.TheVariants as stops;

use crate::stop::Stop;
use crate::{plan_of, read_files};
use std::alloc::Global;
use std::thread::Threads;
use vz_base::Memory;
use vz_base::limits::MOST_FILE_BYTES;
use vz_frame::ClientFile;
use vz_geom::Size;
use vz_outside::Shelf;
use vz_rules::Plan;

/// Reads the clients' files before it tests any of them, and returns the plan that they make.
/// Conditions: 1 to `MOST_FILES` files, and a size that a display may have.
pub fn read_plan<F: Shelf, R: Threads + AllocGlobal + Sync>(
    rt: &R,
    shelf: &mut F,
    size: Size,
    files: &[String],
) -> Result<Plan, Stop>
    requires some { 1 ≤ length files.now }
    requires few { length files.now ≤ MOST_FILES }
    requires size { IsDisplaySize size }
    ensures planned { IfOk result (λ plan. (bytes : List (List ℕ))
        × ArePlanned (F.shelved shelf.old) size (texts files.now) bytes plan) }
    ensures words { IsErrOf result stops.Words → ⊥ }
    ensures input { (r : Refusal) → IsErrOf result (stops.Input r) → (bytes : List (List ℕ))
        × AreUnplanned (F.shelved shelf.old) (texts files.now) bytes r }
    ensures files { SameFiles (F.shelved shelf.old) (F.shelved shelf.new) }
    ensures behaves { Behaves (MissesOne (texts files.now) (F.shelved shelf.old))
        (F.shelved shelf.old) (F.shelved shelf.new) result }
{
    let inputs = read_files(rt.alloc(), shelf, files, MOST_FILE_BYTES)?;
    Ok(plan_of(rt, size, &inputs)?)
}

/// How many messages each client's file has, in the order of the files.
pub fn message_counts(alloc: Global, files: &[ClientFile]) -> Result<Vec<u64>, Memory>
    ensures counts { IfOk result (λ counts. counts.items ≡ counts_of files.now) }
{
    let mut counts = Vec::new(alloc);
    for file in files {
        counts.push(file.messages.as_slice().len() as u64)?;
    }
    Ok(counts)
}
