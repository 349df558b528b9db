//! Activation, in rounds.
ghost use Rattle.std.specs.Prelude.{◌≡◌, ◌==◌, ◌&&◌, ◌++◌, ◌∷◌, nat_lt, map, [], if◌then◌else◌, length, IsTrue, IsFalse, IfOk, OnOk};
ghost use Rattle.std.specs.List.{list_any, list_all};
ghost use Rattle.vz_ids.specs.Ids.{same_surface};
ghost use Rattle.vz_rules.specs.World.{sub_of};
ghost use Rattle.vz_rules.specs.Settle.{is_met, has_come, is_ready, ready, round, settle, activated_in};
ghost use Rattle.vz_state.specs.Rising.{risen_of, AreSigns, IsMetBy};

use crate::world::World;
use std::alloc::{AllocError, Global};
use std::marker::Model;
use vz_ids::{Sub, SurfaceId};
use vz_scene::Newest;
use vz_state::{
    Risen, Signs, Submission, add_risen, go_on_by, is_before_one, is_gone, is_one_on, mark_by,
    met_by, number_of,
};

/// A world at the start of a round, with the surfaces on which a submission was ever active.
#[derive(Drop)]
struct Round<'w, 'a> {
    world: &'w World<'a>,
    ever_active: &'w Newest,
}

impl<'w, 'a> Model for Round<'w, 'a> {
    ghost use Rattle.vz_rules.specs.World.{World as State};
    ghost use Rattle.vz_state.specs.Rising.{IsMetBy};

    ghost Value = { State };

    ghost view = { λ r. r.world.now };

    ghost invariant = { λ r. IsMetBy r.ever_active.now r.world.now.subs };
}

impl<'w, 'a> Round<'w, 'a> {
    /// Whether a dependency is met.
    #[tactic(auto, unfolding(vz_rules::specs::Settle::is_met))]
    fn is_met(&self, d: &SurfaceId) -> bool
        ensures { result ≡ is_met self.now d.now }
    {
        let world = self.world;
        self.ever_active.has(d) || is_gone(&world.clients, d.sink)
    }

    /// Whether all dependencies of a submission are met, or its deadline has come.
    #[tactic(auto, unfolding(vz_rules::specs::Settle::has_come))]
    fn has_come(&self, submission: &Submission<'_>) -> bool
        ensures { result ≡ has_come self.now submission.now }
    {
        let world = self.world;
        self.are_met(submission.frame().metadata.dependencies.as_slice())
            || submission.due() <= u64::from(world.tick)
    }

    /// Whether all of these dependencies are met.
    fn are_met(&self, dependencies: &[SurfaceId]) -> bool
        ensures { result ≡ list_all (is_met self.now) dependencies.now }
    {
        dependencies.iter().all(|d| self.is_met(d))
    }

    /// Whether a submission becomes active in the round.
    #[tactic(auto, unfolding(vz_rules::specs::Settle::is_ready))]
    fn is_ready(&self, submission: &Submission<'_>) -> bool
        ensures { result ≡ is_ready self.now submission.now }
    {
        submission.is_waiting() && self.has_come(submission)
    }

    /// Notes whether a submission becomes active in the round, and if so, what it is.
    fn note(
        &self,
        submission: &Submission<'_>,
        becomes: &mut Vec<bool>,
        risen: &mut Vec<Risen>,
    ) -> Result<(), AllocError>
        ensures becomes { OnOk result (becomes.new.items
            ≡ becomes.old.items ++ is_ready self.now submission.now ∷ []) }
        ensures risen { OnOk result (risen.new.items
            ≡ risen.old.items ++ (if is_ready self.now submission.now
            then risen_of self.now.surfaces submission.now ∷ []
            else [])) }
    {
        let ready = self.is_ready(submission);
        becomes.push(ready)?;
        if ready {
            risen.push(self.world.risen_of(submission))?;
        }
        Ok(())
    }

    /// For each submission, whether it becomes active in the round; and those that do.
    #[tactic(auto, unfolding(vz_rules::specs::Settle::ready))]
    fn notes(&self) -> Result<(Vec<bool>, Vec<Risen>), AllocError>
        ensures { IfOk result (λ n. (n.0.items ≡ map (is_ready self.now) self.now.subs)
            × (n.1.items ≡ map (risen_of self.now.surfaces) (ready self.now))) }
    {
        let world = self.world;
        let mut becomes = Vec::new(world.alloc);
        let mut risen = Vec::new(world.alloc);
        for submission in &world.subs {
            self.note(submission, &mut becomes, &mut risen)?;
        }
        Ok((becomes, risen))
    }

    /// What is computed of the round before it changes anything.
    fn signs(&self) -> Result<Signs, AllocError>
        ensures { IfOk result (λ s. AreSigns self.now s) }
    {
        let (becomes, risen) = self.notes()?;
        let replaced = self.world.replaced_flags(&risen)?;
        let marked = self.world.marked_flags(&risen)?;
        Ok(Signs {
            risen,
            becomes,
            replaced,
            marked,
        })
    }
}

impl<'a> World<'a> {
    /// What is noted of a submission that becomes active.
    fn risen_of(&self, submission: &Submission<'_>) -> Risen
        ensures { result ≡ risen_of self.now.surfaces submission.now }
    {
        Risen {
            id: submission.id(),
            sub: submission.sub(),
            number: number_of(&self.surfaces, submission),
        }
    }

    /// For each submission, whether one that becomes active is on its surface.
    fn replaced_flags(&self, risen: &[Risen]) -> Result<Vec<bool>, AllocError>
        ensures { IfOk result (λ v. v.items
            ≡ map (λ s. list_any (λ r. same_surface r.id s.submitted.id) risen.now) self.now.subs) }
    {
        self.subs
            .iter()
            .map(|submission| is_one_on(risen, &submission.id()))
            .collect(self.alloc)
    }

    /// For each surface, whether a submission becomes active on a later surface of its client.
    fn marked_flags(&self, risen: &[Risen]) -> Result<Vec<bool>, AllocError>
        ensures { IfOk result (λ v. v.items
            ≡ map (λ c. list_any (λ r. (c.client == r.sub.client)
            && nat_lt c.number r.number) risen.now) self.now.surfaces) }
    {
        self.surfaces
            .iter()
            .map(|surface| is_before_one(risen, surface))
            .collect(self.alloc)
    }

    /// What is computed of a round before it changes anything. Condition: `ever_active` has the
    /// surfaces on which a submission was ever active.
    fn signs(&self, ever_active: &Newest) -> Result<Signs, AllocError>
        requires { IsMetBy ever_active.now self.now.subs }
        ensures { IfOk result (λ s. AreSigns self.now s) }
    {
        let round = Round {
            world: self,
            ever_active,
        };
        Ok(round.signs()?)
    }

    /// Applies one round.
    fn round(&mut self, signs: &Signs)
        requires { AreSigns self.old signs.now }
        ensures { self.new ≡ round self.old }
    {
        go_on_by(&mut self.subs, &signs.becomes, &signs.replaced);
        mark_by(&mut self.surfaces, &signs.marked);
    }

    /// Does one round, and notes what becomes active in it: the surfaces in `ever_active`, and the
    /// submissions in `all`. Returns whether something becomes active. Condition: `ever_active`
    /// has the surfaces on which a submission was ever active.
    fn settle_once(
        &mut self,
        ever_active: &mut Newest,
        all: &mut Vec<Sub>,
    ) -> Result<bool, AllocError>
        requires { IsMetBy ever_active.old self.old.subs }
        ensures world { OnOk result (self.new ≡ round self.old) }
        ensures met { OnOk result (IsMetBy ever_active.new self.new.subs) }
        ensures all { OnOk result (all.new.items ≡ all.old.items ++ map sub_of (ready self.old)) }
        ensures end { IfOk result (λ some. IsFalse some → map sub_of (ready self.old) ≡ []) }
    {
        let signs = self.signs(&*ever_active)?;
        self.round(&signs);
        add_risen(ever_active, &signs.risen)?;
        all.append(&mut subs_of(self.alloc, &signs.risen)?)?;
        Ok(!is_none(&signs.risen))
    }

    /// How many submissions were accepted.
    fn accepted(&self) -> usize
        ensures { result ≡ length self.now.subs }
    {
        self.subs.len()
    }

    /// Does rounds until one changes nothing. Returns the submissions that became active, by
    /// round, and in a round in the order of acceptance.
    pub(crate) fn settle(&mut self) -> Result<Vec<Sub>, AllocError>
        ensures activated { IfOk result (λ v. v.items ≡ activated_in self.old) }
        ensures world { OnOk result (self.new ≡ settle self.old) }
    {
        let mut all = Vec::new(self.alloc);
        let mut ever_active = met_by(self.alloc, &self.subs)?;
        let mut left = self.accepted();
        while left > 0 {
            left -= 1;
            if !self.settle_once(&mut ever_active, &mut all)? {
                return Ok(all);
            }
        }
        Ok(all)
    }
}

/// Whether no submission becomes active.
fn is_none(risen: &[Risen]) -> bool
    ensures { IsTrue result → risen.now ≡ [] }
{
    risen.is_empty()
}

/// The client and ordinal of each of these submissions.
fn subs_of(alloc: Global, risen: &[Risen]) -> Result<Vec<Sub>, AllocError>
    ensures { IfOk result (λ v. v.items ≡ map (λ r. r.sub) risen.now) }
{
    risen.iter().map(|other| other.sub).collect(alloc)
}
