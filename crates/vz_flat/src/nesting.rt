//! How deep the groups of a list of operations are nested.
ghost use Rattle.std.specs.Prelude.{◌≡◌, ◌≤◌, ◌+◌, ◌-◌, ◌&&◌, pos, ◌+ℤ◌, int_le, nat_lt, max, true, false, List, ◌∷◌, MatchOption};
ghost use Rattle.vz_flat.specs.declared.op.Op.{Op as Step};
ghost use Rattle.vz_flat.specs.Ops.{is_whole, is_whole_from, is_inside, deepest};
ghost use Rattle.vz_flat.specs.Nesting.{NestsOn};

use crate::{MOST_OPEN, Op};

/// How many groups are open, and the most that were open at once.
#[derive(Clone, Copy)]
struct Nesting {
    now_open: u32,
    deepest: u32,
}

/// Whether `count` texels from `from` on are inside a side of a block.
fn is_span_inside(from: i32, count: i32, side: u32) -> bool
    ensures { result ≡ (int_le (pos 0) from && int_le (from +ℤ count) (pos side)) }
{
    0 <= from && i64::from(from) + i64::from(count) <= i64::from(side)
}

/// Whether the texels of an operation are inside its block. For other operations it is true.
#[tactic(auto, unfolding(crate::specs::Ops::is_inside))]
fn is_inside(op: &Op) -> bool
    ensures { result ≡ is_inside op.now }
{
    match op {
        Op::Blit {
            area,
            block,
            tx,
            ty,
            ..
        } => {
            area.is_empty()
                || (is_span_inside(*tx, area.w(), block.w())
                    && is_span_inside(*ty, area.h(), block.h()))
        }
        Op::Fill { .. } => true,
        Op::Push { .. } => true,
        Op::Pop => true,
    }
}

/// The nesting after one more operation, or None if that is not allowed here.
fn after(nesting: Nesting, op: &Op) -> Option<Nesting>
    requires { nesting.now_open ≤ nesting.deepest }
    ensures { MatchOption result
        ((rest : List Step) → is_whole_from nesting.now_open (op.now ∷ rest) ≡ false)
        (λ n. NestsOn nesting op.now n) }
{
    if !is_inside(op) {
        return None;
    }
    match op {
        Op::Fill { .. } => Some(nesting),
        Op::Blit { .. } => Some(nesting),
        Op::Push { .. } => pushed(nesting),
        Op::Pop => popped(nesting),
    }
}

/// The nesting after one more group is opened, or None if that is over the limit.
fn pushed(nesting: Nesting) -> Option<Nesting>
    requires { nesting.now_open ≤ nesting.deepest }
    ensures { MatchOption result (nat_lt nesting.now_open MOST_OPEN ≡ false)
        (λ n. (nat_lt nesting.now_open MOST_OPEN ≡ true) × (n.now_open ≡ nesting.now_open + 1)
        × (n.deepest ≡ max nesting.deepest (nesting.now_open + 1))) }
{
    if nesting.now_open >= MOST_OPEN {
        return None;
    }
    let now_open = nesting.now_open + 1;
    let deepest = if nesting.deepest < now_open {
        now_open
    } else {
        nesting.deepest
    };
    Some(Nesting { now_open, deepest })
}

/// The nesting after the innermost group is ended, or None if no group is open.
fn popped(nesting: Nesting) -> Option<Nesting>
    requires { nesting.now_open ≤ nesting.deepest }
    ensures { MatchOption result (nat_lt 0 nesting.now_open ≡ false)
        (λ n. (nat_lt 0 nesting.now_open ≡ true) × (n.now_open ≡ nesting.now_open - 1)
        × (n.deepest ≡ nesting.deepest)) }
{
    if nesting.now_open == 0 {
        return None;
    }
    Some(Nesting {
        now_open: nesting.now_open - 1,
        deepest: nesting.deepest,
    })
}

/// The greatest number of groups that are open at once, or None if the operations break a rule of
/// `Ops`.
pub(crate) fn deepest_of(ops: &[Op]) -> Option<u32>
    ensures { MatchOption result (is_whole ops.now ≡ false)
        (λ n. (is_whole ops.now ≡ true) × (n ≡ deepest 0 ops.now)) }
{
    let mut nesting = Nesting {
        now_open: 0,
        deepest: 0,
    };
    for op in ops {
        nesting = after(nesting, op)?;
    }
    if nesting.now_open == 0 {
        Some(nesting.deepest)
    } else {
        None
    }
}
