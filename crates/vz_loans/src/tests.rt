//! Tests with threads that take turns.
ghost use Rattle.std.specs.Prelude.{◌≡◌, ◌++◌, ◌∷◌, [], false};
ghost use Rattle.vz_loans.specs.Tokens.{IsAtRest};

use crate::{Kept, Lock, MOST_CALLERS, Token};
use std::sync::Wait;
use std::test::Fail;
use std::thread;

/// A state for the tests: a limit, which is the plan, and a list of amounts.
#[derive(Drop)]
struct Tally {
    limit: u64,
    made: Vec<(u32, u64)>,
}

impl Kept for Tally {
    type Plan = u64;

    type Entry = u64;

    ghost plan = { λ t. t.limit };

    ghost entries = { λ t. t.made.items };
}

// Adds one entry, if there is room for it.
fn add<R: Wait>(rt: &R, lock: &Lock<Tally>, token: &mut Token<Tally>, amount: u64) -> bool
    requires { IsAtRest lock.now.id token.old }
    ensures { IsAtRest lock.now.id token.new }
{
    let mut tally = lock.enter(rt, token);
    let fits = tally.made.push((token.number(), amount)).is_ok();
    lock.leave(token, tally);
    fits
}

// Adds the three amounts of a caller in three turns, and returns the token.
fn add_three<R: Wait>(
    rt: &R,
    lock: &Lock<Tally>,
    mut token: Token<Tally>,
    amounts: [u64; 3],
) -> (Token<Tally>, bool)
    requires { IsAtRest lock.now.id token }
    ensures { IsAtRest lock.now.id result.0 }
{
    let first = add(rt, lock, &mut token, amounts[0]);
    let second = add(rt, lock, &mut token, amounts[1]);
    let third = add(rt, lock, &mut token, amounts[2]);
    (token, first & second & third)
}

// Whether the caller's amounts are these, in this order.
fn has_made(made: &[(u32, u64)], number: u32, amounts: &[u64]) -> bool {
    let mut left = amounts;
    for entry in made {
        if entry.0 == number {
            match left {
                [amount, rest @ ..] if *amount == entry.1 => left = rest,
                _ => return false,
            }
        }
    }
    left.is_empty()
}

#[test]
fn threads_add_to_one_list(rt: HostRuntime) -> Result<(), Fail> {
    let tally = Tally {
        limit: 7,
        made: Vec::new(rt.alloc()),
    };
    let Ok((lock, mut tokens)) = Lock::open(rt.alloc(), tally, 2) else {
        panic!(&rt; "memory")
    };
    let second = tokens.pop().unwrap();
    let first = tokens.pop().unwrap();
    let (a, b) = thread::join(
        &rt,
        || -> (Token<Tally>, bool)
            requires { IsAtRest lock.id first }
            ensures { IsAtRest lock.id result.0 }
        { add_three(&rt, &lock, first, [10, 11, 12]) },
        || -> (Token<Tally>, bool)
            requires { IsAtRest lock.id second }
            ensures { IsAtRest lock.id result.0 }
        { add_three(&rt, &lock, second, [20, 21, 22]) },
    );
    let (mut first, a) = a;
    let (mut second, b) = b;
    lock.meet(&mut first, &mut second);
    tokens.push_reserved(first);
    tokens.push_reserved(second);
    let tally = lock.close(tokens);
    let made = tally.made.as_slice();
    let has_first = has_made(made, 0, &[10, 11, 12]);
    let has_second = has_made(made, 1, &[20, 21, 22]);
    assert!(&rt; a & b & has_first & has_second & (made.len() == 6) & (tally.limit == 7));
    Ok(())
}

// Whether the tokens have the numbers from 0 on, in rising order.
fn are_numbered(tokens: &[Token<Tally>]) -> bool {
    for (number, token) in tokens.iter().enumerate() {
        if token.number() as usize != number {
            return false;
        }
    }
    true
}

#[test]
fn most_callers_have_their_numbers(rt: HostRuntime) -> Result<(), Fail> {
    let tally = Tally {
        limit: 7,
        made: Vec::new(rt.alloc()),
    };
    let Ok((lock, tokens)) = Lock::open(rt.alloc(), tally, MOST_CALLERS as u32) else {
        panic!(&rt; "memory")
    };
    let numbered = are_numbered(tokens.as_slice()) & (tokens.len() == MOST_CALLERS);
    let tally = lock.close(tokens);
    assert!(&rt; numbered & tally.made.is_empty());
    Ok(())
}
