//! How a desk begins.
ghost use Rattle.std.specs.Prelude.{◌≡◌, ◌+◌, ◌<◌, ◌≤◌, [], length, map, take, drop, All, IfOk, vec_len, vec_capacity};
ghost use Rattle.vz_base.specs.declared.limits.TheConstants.{MOST_FILES};
ghost use Rattle.vz_loans.specs.declared.kept.TheConstants.{MOST_CALLERS};
ghost use Rattle.vz_rules.specs.World.{opening};
ghost use Rattle.vz_desk.specs.Totals.{no_totals, no_display_totals};
ghost use Rattle.vz_desk.specs.Owners.{owner_of, fresh, fresh_from, IsPlanned, IsUnused};

use crate::{Bell, Book, Desk, DisplayEnd, End, Totals};
use std::alloc::Global;
use vz_base::Memory;
use vz_loans::{Lock, MOST_CALLERS, Token};
use vz_machine::Machine;

impl<M: Machine + Send + Drop, S: Copy + Send + Sync> Desk<M, S>
where
    M::Picture: Send,
{
    /// Makes a desk of a machine. It returns the desk, an end for each client by rising number,
    /// and the display's end. The only error is `Memory`, and then the machine is lost.
    /// Conditions: the machine is in the opening world of its plan, which has this number of
    /// clients, at most `MOST_FILES`.
    pub fn open(
        alloc: Global,
        machine: M,
        clients: u32,
    ) -> Result<(Desk<M, S>, Vec<End<M, S>>, DisplayEnd<M, S>), Memory>
        requires opening { (M.state machine).world ≡ opening (M.state machine).plan }
        requires clients { clients ≡ length (M.state machine).plan.files }
        requires few { clients ≤ MOST_FILES }
        ensures desk { IfOk result (λ r. r.0.callers ≡ clients + 1) }
        ensures ends { IfOk result (λ r. r.1.items
            ≡ fresh_from r.0.id (M.state machine).plan 1 clients) }
        ensures display { IfOk result (λ r. r.2
            ≡ fresh r.0.id (M.state machine).plan no_display_totals 0) }
    {
        let book = Book::new(alloc, machine, clients);
        let room = Vec::with_capacity(alloc, MOST_CALLERS)?;
        let mut ends = Vec::with_capacity(alloc, clients as usize)?;
        let Ok((lock, mut tokens)) = Lock::open(alloc, book, clients + 1) else {
            return Err(Memory);
        };
        take_ends(&mut tokens, &mut ends);
        let Some(token) = tokens.pop() else {
            unreachable!()
        };
        let display = display_of(token, room);
        let desk = Desk {
            lock,
            clients: Bell::new(),
            display: Bell::new(),
        };
        Ok((desk, ends, display))
    }
}

/// Makes a client's end of each token but the first, in their order.
fn take_ends<M: Machine + Send, S: Copy + Send + Sync>(
    tokens: &mut Vec<Token<Book<M, S>>>,
    ends: &mut Vec<End<M, S>>,
)
where
    M::Picture: Send,
    requires some { 0 < length tokens.old.items }
    requires unused { All IsUnused (drop 1 tokens.old.items) }
    requires empty { ends.old.items ≡ [] }
    requires room { vec_len tokens.old ≤ vec_capacity ends.old + 1 }
    ensures tokens { tokens.new.items ≡ take 1 tokens.old.items }
    ensures ends { ends.new.items ≡ map (λ t. owner_of t no_totals) (drop 1 tokens.old.items) }
{
    while tokens.len() > 1 {
        let Some(token) = tokens.pop() else {
            unreachable!()
        };
        match ends.insert(0, end_of(token)) {
            Ok(()) => {}
            Err(_) => unreachable!(),
        }
    }
}

/// Makes the end of the client that this token belongs to.
fn end_of<M: Machine + Send, S: Copy + Send + Sync>(token: Token<Book<M, S>>) -> End<M, S>
where
    M::Picture: Send,
    requires unused { IsUnused token }
    ensures { result ≡ owner_of token no_totals }
{
    End {
        token,
        totals: Totals::NONE,
    }
}

/// Makes the display's end of its token.
fn display_of<M: Machine + Send, S: Copy + Send + Sync>(
    token: Token<Book<M, S>>,
    room: Vec<Token<Book<M, S>>>,
) -> DisplayEnd<M, S>
where
    M::Picture: Send,
    requires display { token.number ≡ 0 }
    requires unused { IsPlanned token }
    requires empty { room.items ≡ [] }
    requires room { MOST_CALLERS ≤ vec_capacity room }
    ensures { result ≡ owner_of token no_display_totals }
{
    DisplayEnd {
        token,
        begins: 0,
        draws: 0,
        drawn: 0,
        dones: 0,
        in_flight: false,
        room,
    }
}
