//! How a desk ends.
ghost use Rattle.std.specs.Prelude.{◌≡◌, ◌+◌, ◌≤◌, All, length, is_some, List};
ghost use Rattle.atomic_table.specs.Seated.{TableId};
ghost use Rattle.vz_loans.specs.declared.kept.TheConstants.{MOST_CALLERS};
ghost use Rattle.vz_loans.specs.Tokens.{IsAtRest, IsClosedBy};
ghost use Rattle.vz_rules.specs.Plan.{Plan};
ghost use Rattle.vz_rules.specs.Step.{Legal, world};
ghost use Rattle.vz_rules.specs.declared.entry.Entry.{Entry};
ghost use Rattle.vz_desk.specs.Books.{numbered};
ghost use Rattle.vz_desk.specs.Gathering.{IsGatheredClient, IsGatheredDisplay};

use crate::{Book, Desk, DisplayEnd, End, Gathered, Hold};
use vz_loans::Token;
use vz_machine::Machine;

// The tokens of all ends, in the room that the display's end keeps for them.
fn tokens_of<M: Machine + Send, S: Copy + Send + Sync>(
    mut ends: Vec<End<M, S>>,
    d: DisplayEnd<M, S>,
) -> Vec<Token<Book<M, S>>>
    requires { length ends.items + 1 ≤ MOST_CALLERS }
    ensures all { length result.items ≡ length ends.items + 1 }
    ensures ours { (id : TableId) → d.desk ≡ id → All (λ e. e.desk ≡ id) ends.items
        → All (IsAtRest id) result.items }
    ensures ends { (p : Plan) (h : List Entry) → All (IsClosedBy p (numbered h)) result.items
        → All (IsGatheredClient p h) ends.items }
    ensures display { (p : Plan) (h : List Entry) → All (IsClosedBy p (numbered h)) result.items
        → IsGatheredDisplay p h d }
{
    let DisplayEnd {
        token,
        begins: _,
        draws: _,
        drawn: _,
        dones: _,
        in_flight: _,
        mut room,
    } = d;
    room.push_reserved(token);
    while let Some(end) = ends.pop() {
        let End { token, totals: _ } = end;
        room.push_reserved(token);
    }
    ends.destroy_empty();
    room
}

impl<M: Machine + Send, S: Copy + Send + Sync> Desk<M, S>
where
    M::Picture: Send,
{
    /// Ends a desk, and returns its machine with the whole history. It takes no memory.
    /// Conditions: `ends` are all client ends of this desk, in any order, and there is a hold
    /// exactly if a frame is in flight.
    pub fn gather(
        self,
        ends: Vec<End<M, S>>,
        d: DisplayEnd<M, S>,
        hold: Option<Hold<M, S>>,
    ) -> Gathered<M>
        requires all { length ends.items + 1 ≡ self.callers }
        requires ours { All (λ e. e.desk ≡ self.id) ends.items }
        requires display { d.desk ≡ self.id }
        requires hold { is_some hold ≡ d.totals.in_flight }
        ensures behind { (M.state result.machine).world
            ≡ world (M.state result.machine).plan result.history.list }
        ensures legal { Legal (M.state result.machine).plan result.history.list }
        ensures clients { All (IsGatheredClient (M.state result.machine).plan result.history.list)
            ends.items }
        ensures display { IsGatheredDisplay (M.state result.machine).plan result.history.list d }
    {
        match hold {
            Some(hold) => hold.spend(),
            None => {}
        }
        let Desk {
            lock,
            clients: _,
            display: _,
        } = self;
        lock.close(tokens_of(ends, d)).into_gathered()
    }
}
