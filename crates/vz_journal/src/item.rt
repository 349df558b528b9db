//! Items in a row.
ghost use Rattle.std.specs.Prelude.{ℕ, List, Some, length};
ghost use Rattle.vz_journal.specs.Giving.{Gives};
ghost use Rattle.vz_journal.specs.Reading.{Read, all_at};

use crate::reader::Reader;
use crate::stop::Stop;
use std::alloc::Global;
use vz_frame::{List, ShortList};

/// A kind of item, and how it is read.
pub trait Item {
    type Value: Drop;

    /// The value at the front of some bytes and the bytes after it, if there is such a value.
    ghost value_at: { Self → List ℕ → Read Self.Value };

    fn read(&self, input: &mut Reader) -> Result<Self::Value, Stop>
        ensures { Gives (λ x. (x, input.new)) result (value_at self.now input.old) };
}

/// Reads as many values as there are. It may be none.
pub fn all<I: Item>(alloc: Global, item: &I, input: &mut Reader) -> Result<List<I::Value>, Stop>
    ensures { Gives (λ xs. (xs, input.new)) result
        (Some (all_at (I.value_at item.now) input.old)) }
{
    let mut values = Vec::new(alloc);
    let mut here = input.ahead();
    let most = input.left();
    for _ in 0..most {
        let mut ahead = here.ahead();
        match item.read(&mut ahead) {
            Ok(value) => {
                values.push(value)?;
                here = ahead;
            }
            Err(Stop::Memory) => return Err(Stop::Memory),
            Err(Stop::Unlike) => {
                *input = here;
                return Ok(List::from_vec(values));
            }
        }
    }
    *input = here;
    Ok(List::from_vec(values))
}

/// Reads as many values as there are, into a short list. It may be none.
pub fn short<I: Item>(
    alloc: Global,
    item: &I,
    input: &mut Reader,
) -> Result<ShortList<I::Value>, Stop>
    ensures { Gives (λ xs. (xs, input.new)) result
        (Some (all_at (I.value_at item.now) input.old)) }
{
    let values = all(alloc, item, input)?;
    Ok(ShortList::from_list(alloc, values)?)
}
