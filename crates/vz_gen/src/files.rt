//! The three generated files.
ghost use Rattle.std.specs.Prelude.{◌≡◌, ◌≤◌, IfOk};
ghost use Rattle.vz_gen.specs.Make.{make};

use crate::child::child_file;
use crate::page::page_file;
use crate::parts::listed;
use std::alloc::Global;
use vz_base::Memory;
use vz_base::limits::MOST_ROUNDS;
use vz_frame::{ClientFile, List};

/// Makes the message files of a page and its two children, in this order, for `n` rounds.
/// Condition: at most `MOST_ROUNDS` rounds. The only error is `Memory`.
#[tactic(auto, unfolding(crate::specs::Make::make))]
pub fn make(alloc: Global, n: u32) -> Result<List<ClientFile>, Memory>
    requires { n ≤ MOST_ROUNDS }
    ensures { IfOk result (λ files. files ≡ make n) }
{
    let page = page_file(alloc)?;
    let second = child_file(alloc, n, 2)?;
    let third = child_file(alloc, n, 3)?;
    listed(alloc, [page, second, third])
}
