//! The submissions that await feedback, and the feedback that is due.
ghost use Rattle.std.specs.Prelude.{◌≡◌, ◌≤◌, ◌<◌, ◌+◌, [], ◌++◌, length, true, Option, List, None, Some, IsOk, OnOk};
ghost use Rattle.vz_ids.specs.declared.LocalSurfaceId.{LocalSurfaceId};
ghost use Rattle.vz_frame.specs.declared.frame.CompositorFrame.{CompositorFrame};
ghost use Rattle.vz_rules.specs.Plan.{Plan};
ghost use Rattle.vz_rules.specs.World.{World, Client, Surface, Submission, opening, is_waiting, is_on, sub_of, has_sub};
ghost use Rattle.vz_rules.specs.Messages.{accepted, new_submission, id_of};
ghost use Rattle.vz_rules.specs.Returns.{feed, fed_in};
ghost use Rattle.vz_rules.specs.Singly.{rising, going};
ghost use Rattle.vz_rules.specs.Ends.{landed, presenting};
ghost use Rattle.vz_rules.specs.Log.{rest_in};
ghost use Rattle.vz_rules.specs.Kept.{Keeps, KeepsAlways};
ghost use Rattle.vz_rules.specs.declared.entry.Fed.{Fed as Feedback};
ghost use Rattle.std.specs.List.{Contains, filter_map};
ghost use Rattle.std.specs.Option.{option_map};
ghost use Rattle.vz_returns.specs.Owed.{Owes, AreOwed, place_of, ended_of, waiting_on, active_on};
ghost use Rattle.vz_returns.specs.Notes.{IsNoted, IsAdded, noted, owed_count, without_due};

use crate::Feedbacks;
use crate::due::{Due, put_all, sort};
use crate::ended::{Ended, dropped_by};
use std::alloc::Global;
use std::marker::Model;
use vz_base::Memory;
use vz_frame::Room;
use vz_ids::Sub;
use vz_rules::Fed;

/// The feedback that is owed: the submissions that await it, each with its place in the order of
/// acceptance, and what is due at the end of the step. Contracts see it, and the room that was
/// reserved before.
///
/// Each submission is reported once as it ends. Its feedback is due from then on, unless it is in
/// the drawn frame.
#[derive(Drop)]
pub struct PendingFeedback {
    unfed: Feedbacks,
    due: Vec<Due>,
    accepted: u64,
}

impl Model for PendingFeedback {
    ghost use Rattle.std.specs.Prelude.{◌+◌, ◌-◌, length, min, vec_len, vec_capacity};
    ghost use Rattle.vz_returns.specs.Owed.{OwedAndRoom};
    ghost use Rattle.vz_returns.specs.Notes.{AreKept};

    ghost Value = { OwedAndRoom };

    ghost view = { λ a. record {
      owed = record {
        unfed = a.unfed.list;
        places = a.unfed.places;
        due = a.due.items;
        accepted = a.accepted;
      };
      spare = min a.unfed.spare
          (vec_capacity a.due - vec_len a.due - length a.unfed.places);
    } };

    ghost invariant = { λ a. AreKept a.unfed.list a.unfed.places
        (vec_capacity a.due - vec_len a.due) };
}

impl PendingFeedback {
    /// Creates the state before any submission is accepted. It allocates nothing.
    pub fn new(alloc: Global) -> PendingFeedback
        ensures owed { (p : Plan) → AreOwed (opening p) result.owed }
    {
        PendingFeedback {
            unfed: Feedbacks::new(alloc),
            due: Vec::new(alloc),
            accepted: 0,
        }
    }

    /// Makes room for at least one more submission. The only error is `Memory`, if an allocation
    /// fails. In either case nothing else changes and no room is lost.
    pub fn ready(&mut self) -> Result<(), Memory>
        ensures owed { self.new.owed ≡ self.old.owed }
        ensures ok { OnOk result (0 < self.new.spare) }
        ensures succeeds { 0 < self.old.spare → IsOk result }
        ensures spare { self.old.spare ≤ self.new.spare }
    {
        self.unfed.ready(1)?;
        self.due.try_reserve(self.unfed.unfed() + 1)?;
        Ok(())
    }

    /// Notes that a submission is accepted, which awaits feedback from now on, and that the one
    /// that waited on its surface is replaced and ends. Conditions: there is room for one, the
    /// submission does not await feedback yet, and fewer than 2^64 - 1 were accepted.
    pub fn accept(&mut self, sub: Sub, replaced: Option<Ended>)
        requires room { 0 < self.old.spare }
        requires new { place_of self.old.owed sub ≡ None }
        requires few { self.old.owed.accepted < u64.MAX }
        ensures owed { (w : World) (c : Client) (local : LocalSurfaceId) (frame : CompositorFrame)
            → KeepsAlways w → AreOwed w self.old.owed
            → sub ≡ sub_of (new_submission w c local frame)
            → replaced ≡ option_map (ended_of w) (waiting_on w (id_of c local))
            → AreOwed (accepted w c local frame).world self.new.owed }
        ensures count { owed_count self.new.owed ≡ owed_count self.old.owed + 1 }
        ensures due { length self.new.owed.due ≤ length self.old.owed.due + 1 }
        ensures spare { self.old.spare ≤ self.new.spare + 1 }
    {
        self.note(dropped_by(replaced), false);
        self.add(sub);
    }

    /// Notes that a submission becomes active, so that the one that was active on its surface, if
    /// there was one, ends.
    pub fn activate(&mut self, past: Option<Ended>)
        ensures owed { (w : World) (s : Submission) → KeepsAlways w → AreOwed w self.old.owed
            → Contains w.subs s → is_waiting s ≡ true
            → past ≡ option_map (ended_of w) (active_on w s.submitted.id)
            → AreOwed (rising s w) self.new.owed }
        ensures count { owed_count self.new.owed ≡ owed_count self.old.owed }
        ensures due { length self.new.owed.due ≤ length self.old.owed.due + 1 }
        ensures spare { self.old.spare ≤ self.new.spare }
    {
        self.note(dropped_by(past), false);
    }

    /// Notes that a surface is destroyed: its waiting and its active submission, if it has them,
    /// are dropped.
    pub fn destroy(&mut self, waiting: Option<Ended>, active: Option<Ended>)
        ensures owed { (w : World) (c : Surface) → KeepsAlways w → AreOwed w self.old.owed
            → waiting ≡ option_map (ended_of w) (waiting_on w c.id)
            → active ≡ option_map (ended_of w) (active_on w c.id)
            → AreOwed (going c w) self.new.owed }
        ensures count { owed_count self.new.owed ≡ owed_count self.old.owed }
        ensures due { length self.new.owed.due ≤ length self.old.owed.due + 2 }
        ensures spare { self.old.spare ≤ self.new.spare }
    {
        self.note(dropped_by(waiting), false);
        self.note(dropped_by(active), false);
    }

    /// Appends the feedback that is due, in the order of acceptance; afterwards none is due. It
    /// allocates nothing. Condition: `out` has room for what is due.
    pub fn feed(&mut self, out: &mut Room<Fed>)
        requires { length self.old.owed.due ≤ out.old.spare }
        ensures fed { (w : World) → AreOwed w self.old.owed
            → out.new.list ≡ out.old.list ++ fed_in [] w }
        ensures owed { (w : World) → AreOwed w self.old.owed
            → AreOwed (feed [] w) self.new.owed }
        ensures none { self.new.owed.due ≡ [] }
        ensures unfed { length self.new.owed.unfed ≡ length self.old.owed.unfed }
        ensures spare { self.old.spare ≤ self.new.spare }
        ensures room { out.old.spare + length out.old.list
            ≡ out.new.spare + length out.new.list }
    {
        self.give(out);
    }

    /// Notes that the drawn frame is done: the submissions in it that await feedback are
    /// presented. Appends their feedback with what else is due, in the order of acceptance;
    /// afterwards none is due. It allocates nothing. Condition: `out` has room for what is due
    /// and for as many more as were drawn.
    pub fn present(&mut self, drawn: &[Sub], out: &mut Room<Fed>)
        requires { length self.old.owed.due + length drawn.now ≤ out.old.spare }
        ensures fed { (w : World) → AreOwed w self.old.owed → w.in_flight ≡ Some drawn.now
            → out.new.list ≡ out.old.list ++ fed_in drawn.now (landed w) }
        ensures owed { (w : World) → AreOwed w self.old.owed → w.in_flight ≡ Some drawn.now
            → AreOwed (presenting drawn.now (landed w)).world self.new.owed }
        ensures none { self.new.owed.due ≡ [] }
        ensures spare { self.old.spare ≤ self.new.spare }
        ensures room { out.old.spare + length out.old.list
            ≡ out.new.spare + length out.new.list }
    {
        self.note_all(drawn);
        self.give(out);
    }

    /// How many submissions await feedback.
    pub fn unfed(&self) -> usize
        ensures { result ≡ length self.now.owed.unfed }
    {
        self.unfed.unfed()
    }

    /// Appends the submissions that await feedback, by client and ordinal. It allocates nothing.
    /// Condition: `out` has room for all.
    pub fn subs(&self, out: &mut Room<Sub>)
        requires { length self.now.owed.unfed ≤ out.old.spare }
        ensures list { out.new.list ≡ out.old.list ++ self.now.owed.unfed }
        ensures rest { (w : World) → Keeps w → AreOwed w self.now.owed
            → out.new.list ≡ out.old.list ++ (rest_in w).unfed }
        ensures room { out.old.spare ≡ out.new.spare + length self.now.owed.unfed }
    {
        self.unfed.subs(out);
    }

    /// Makes the feedback of a submission due, if one is given that awaits it.
    fn note(&mut self, sub: Option<Sub>, presented: bool)
        ensures noted { IsNoted sub presented self.old.owed self.new.owed }
        ensures count { owed_count self.new.owed ≡ owed_count self.old.owed }
        ensures due { length self.new.owed.due ≤ length self.old.owed.due + 1 }
        ensures spare { self.old.spare ≤ self.new.spare }
    {
        let Some(sub) = sub else {
            return;
        };
        let Some(place) = self.unfed.take(sub) else {
            return;
        };
        self.due.push_reserved(Due {
            place,
            fed: Fed { sub, presented },
        });
    }

    /// Makes the feedback of the drawn submissions due that await it: they are presented.
    fn note_all(&mut self, drawn: &[Sub])
        ensures owed { (gets : Submission → Option Feedback) (subs : List Submission)
            → Owes gets subs self.old.owed
            → Owes (noted (has_sub drawn.now) true gets) subs self.new.owed }
        ensures due { length self.new.owed.due ≤ length self.old.owed.due + length drawn.now }
        ensures spare { self.old.spare ≤ self.new.spare }
    {
        for sub in drawn {
            self.note(Some(*sub), true);
        }
    }

    /// Appends the feedback that is due, in the order of acceptance; afterwards none is due.
    /// Condition: `out` has room for it.
    fn give(&mut self, out: &mut Room<Fed>)
        requires { length self.old.owed.due ≤ out.old.spare }
        ensures fed { (gets : Submission → Option Feedback) (subs : List Submission)
            → Owes gets subs self.old.owed
            → out.new.list ≡ out.old.list ++ filter_map gets subs }
        ensures rest { self.new.owed ≡ without_due self.old.owed }
        ensures spare { self.old.spare ≤ self.new.spare }
        ensures room { out.old.spare + length out.old.list
            ≡ out.new.spare + length out.new.list }
    {
        sort(&mut self.due);
        put_all(&self.due, out);
        self.due.clear();
    }

    /// Adds a submission, which awaits feedback. Conditions: there is room for one, it does not
    /// await feedback yet, and fewer than 2^64 - 1 were accepted.
    fn add(&mut self, sub: Sub)
        requires room { 0 < self.old.spare }
        requires new { place_of self.old.owed sub ≡ None }
        requires few { self.old.owed.accepted < u64.MAX }
        ensures added { IsAdded sub self.old.owed self.new.owed }
        ensures count { owed_count self.new.owed ≡ owed_count self.old.owed + 1 }
        ensures spare { self.old.spare ≤ self.new.spare + 1 }
    {
        self.unfed.put(sub, self.accepted).unwrap();
        self.accepted += 1;
    }
}
