//! The effects of a step: submissions become active, surfaces that are not reached are destroyed,
//! resources are returned, and feedback is given.
ghost use Rattle.std.specs.Prelude.{◌≡◌, ◌==◌, ◌≤◌, ◌+◌, ◌++◌, ◌||◌, not, length, true, None, []};
ghost use Rattle.vz_rules.specs.World.{World};
ghost use Rattle.vz_rules.specs.declared.entry.Reply.{Reply as Answered};
ghost use Rattle.vz_rules.specs.Messages.{says};
ghost use Rattle.vz_rules.specs.Step.{outcome_of};
ghost use Rattle.vz_rules.specs.Reach.{clearing, destroyed_in};
ghost use Rattle.vz_surfaces.specs.Reading.{existing_count};
ghost use Rattle.vz_returns.specs.Lent.{NoneReleased, resources_out};
ghost use Rattle.vz_returns.specs.Notes.{owed_count};
ghost use Rattle.vz_surface_manager.specs.Settles.{AreSettling};
ghost use Rattle.vz_surface_manager.specs.Collects.{HaveRoom};
ghost use Rattle.vz_manager.specs.Followed.{IsFollowed, IsKeeping, IsAsked, CanKeep, CanFollow, Tells};

use std::alloc::Global;
use vz_frame::{Room, ShortRoom};
use vz_ids::{Sub, SurfaceId};
use vz_machine::Step;
use vz_rules::{BoxedEffects, EffectsRoom, Fed, Lost, Reply, Returned};
use vz_surface_manager::{Lists, SurfaceManager};

/// The lists for the effects of a step, and the work lists. Their room is reserved before the
/// step.
#[derive(Drop)]
pub(crate) struct Following {
    pub(crate) activated: Room<Sub>,
    pub(crate) destroyed: Room<Lost>,
    pub(crate) returned: Room<Returned>,
    pub(crate) fed: Room<Fed>,
    pub(crate) ids: Room<SurfaceId>,
    pub(crate) lists: Lists,
    pub(crate) effects: EffectsRoom,
    pub(crate) reclaimed: ShortRoom<Returned>,
}

/// A surface that the step created, and the last tick at which it is kept as temporary.
#[derive(Clone, Copy)]
pub(crate) struct New {
    pub(crate) id: SurfaceId,
    pub(crate) until: u32,
}

/// Makes a new surface temporary, if there is one.
fn keep(settling: &mut SurfaceManager, new: Option<New>)
    requires room { CanKeep new settling.old }
    ensures kept { (w : World) → IsKeeping w new settling.old
        → AreSettling w None settling.new }
    ensures rest { settling.new ≡ record settling.old {
      live = record settling.old.live { kept = settling.new.live.kept };
    } }
    ensures few { length settling.new.live.kept.temporary
        ≤ length settling.old.live.kept.temporary + 1 }
    ensures sets { settling.new.live.kept.sets ≡ settling.old.live.kept.sets }
{
    if let Some(new) = new {
        settling.live.keep(new.id, new.until);
    }
}

/// Whether surfaces may be lost: the step's own change marked, named or showed something new, or
/// some submissions become active. `ready` has the first of these.
fn may_lose(anew: bool, ready: &[Sub]) -> bool
    ensures { result ≡ (anew || not (length ready.now == 0)) }
{
    anew || !ready.is_empty()
}

/// Destroys each marked surface that is not reached, and reports it, if this is asked for.
/// Conditions: each surface that an active frame names is noted as named, there is room for the
/// report, and it is asked for whenever a surface is lost.
fn collect(
    settling: &mut SurfaceManager,
    root: Option<SurfaceId>,
    asked: bool,
    lists: &mut Lists,
    destroyed: &mut Room<Lost>,
)
    requires collects { (w : World) × IsAsked w root asked settling.old }
    requires lists { HaveRoom settling.old lists.old }
    requires room { existing_count settling.old.live.store ≤ destroyed.old.spare }
    ensures cleared { (w : World) → IsAsked w root asked settling.old
        → AreSettling (clearing w) None settling.new }
    ensures destroyed { (w : World) → IsAsked w root asked settling.old
        → destroyed.new.list ≡ destroyed.old.list ++ destroyed_in w }
    ensures out { resources_out settling.new.live.lent ≡ resources_out settling.old.live.lent }
    ensures count { owed_count settling.new.live.owed.owed
        ≡ owed_count settling.old.live.owed.owed }
{
    if !asked {
        return;
    }
    settling.collect(root, lists, destroyed);
}

/// Computes all effects of a step's own change. At the start `activated` has the submissions that
/// are ready. It allocates nothing. Conditions: the root is that of the state, there is room for
/// all, and nothing is lost if the change marked, named and showed nothing new.
pub(crate) fn follow(
    settling: &mut SurfaceManager,
    root: Option<SurfaceId>,
    new: Option<New>,
    anew: bool,
    following: &mut Following,
)
    requires follows { (w : World) × IsFollowed w root new anew settling.old following.old }
    requires room { CanFollow new settling.old following.old }
    ensures stands { (w : World) (r : Answered)
        → IsFollowed w root new anew settling.old following.old
        → AreSettling (outcome_of [] (says r w)).world None settling.new }
    ensures effects { (w : World) (r : Answered)
        → IsFollowed w root new anew settling.old following.old
        → Tells (outcome_of [] (says r w)).effects following.new }
    ensures released { NoneReleased settling.new.live.lent }
    ensures out { resources_out settling.new.live.lent ≤ resources_out settling.old.live.lent }
    ensures place { following.new.effects ≡ following.old.effects }
{
    let asked = may_lose(anew, following.activated.as_slice());
    settling.settle(&mut following.ids, &mut following.activated);
    keep(settling, new);
    collect(
        settling,
        root,
        asked,
        &mut following.lists,
        &mut following.destroyed,
    );
    settling.live.give_back(&mut following.returned);
    settling.live.feed(&mut following.fed);
}

/// Computes all effects of a step's own change, and joins them with its reply. It allocates
/// nothing. Conditions: the root is that of the state, there is room for all, and nothing is lost
/// if the change marked, named and showed nothing new.
pub(crate) fn finish(
    alloc: Global,
    reply: Reply,
    settling: &mut SurfaceManager,
    root: Option<SurfaceId>,
    new: Option<New>,
    anew: bool,
    following: &mut Following,
) -> Step
    requires follows { (w : World) × IsFollowed w root new anew settling.old following.old }
    requires room { CanFollow new settling.old following.old }
    ensures stands { (w : World) (r : Answered)
        → IsFollowed w root new anew settling.old following.old
        → AreSettling (outcome_of [] (says r w)).world None settling.new }
    ensures reply { result.reply ≡ reply }
    ensures effects { (w : World) (r : Answered)
        → IsFollowed w root new anew settling.old following.old
        → result.effects ≡ (outcome_of [] (says r w)).effects }
    ensures released { NoneReleased settling.new.live.lent }
    ensures out { resources_out settling.new.live.lent ≤ resources_out settling.old.live.lent }
{
    follow(settling, root, new, anew, following);
    Step {
        reply,
        effects: following.take_effects(),
    }
}

impl Following {
    /// Creates empty lists. It allocates nothing.
    pub(crate) fn new(alloc: Global) -> Following {
        Following {
            activated: Room::new(alloc),
            destroyed: Room::new(alloc),
            returned: Room::new(alloc),
            fed: Room::new(alloc),
            ids: Room::new(alloc),
            lists: Lists::new(alloc),
            effects: EffectsRoom::new(alloc),
            reclaimed: ShortRoom::new(),
        }
    }

    /// Takes the effects out. A list of several is replaced by a new one, and a shorter one keeps
    /// its room. Condition: there is room for the effects.
    pub(crate) fn take_effects(&mut self) -> BoxedEffects
        requires { self.old.effects ≡ true }
        ensures { Tells result self.old }
    {
        self.effects.fill(
            &mut self.activated,
            &mut self.destroyed,
            &mut self.returned,
            &mut self.fed,
        )
    }
}
