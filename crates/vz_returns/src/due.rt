//! Feedback to be given at the end of the step.
ghost use Rattle.std.specs.Prelude.{◌≡◌, ◌≤◌, ◌+◌, ◌++◌, length, map, vec_len, vec_capacity};
ghost use Rattle.std.specs.List.Sorted.{IsNonDecreasingBy, IsPermutation};

use vz_frame::Room;
use vz_rules::Fed;

/// Feedback, and the place of its submission in the order of acceptance, from 0.
#[derive(Clone, Copy)]
pub(crate) struct Due {
    pub(crate) place: u64,
    pub(crate) fed: Fed,
}

/// Sorts feedback into the order of acceptance.
pub(crate) fn sort(list: &mut Vec<Due>)
    ensures same { IsPermutation list.old.items list.new.items }
    ensures len { vec_len list.new ≡ vec_len list.old }
    ensures order { IsNonDecreasingBy (λ d. d.place) list.new.items }
    ensures room { vec_capacity list.new ≡ vec_capacity list.old }
{
    list.sort_unstable_by_key(|due| due.place);
}

/// Appends the feedback of a list. Condition: `out` has room for all.
pub(crate) fn put_all(list: &[Due], out: &mut Room<Fed>)
    requires { length list.now ≤ out.old.spare }
    ensures list { out.new.list ≡ out.old.list ++ map (λ d. d.fed) list.now }
    ensures room { out.old.spare ≡ out.new.spare + length list.now }
{
    for due in list {
        out.put(due.fed);
    }
}
