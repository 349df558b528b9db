//! The surfaces and the waiting submissions, as they settle and as surfaces are collected.
ghost use Rattle.std.specs.Prelude.{◌≡◌, ◌≤◌, ◌+◌, [], length, Option, ◌<◌, ◌++◌, ◌∷◌, None};
ghost use Rattle.vz_ids.specs.declared.SurfaceId.{SurfaceId as Id};
ghost use Rattle.vz_rules.specs.World.{World, Surface};
ghost use Rattle.vz_rules.specs.Settle.{settle, activated_in};
ghost use Rattle.vz_rules.specs.Reach.{naming, clearing, destroyed_in};
ghost use Rattle.vz_rules.specs.Singly.{going, IsMarked};
ghost use Rattle.vz_returns.specs.Lent.{resources_out};
ghost use Rattle.vz_returns.specs.Notes.{owed_count};
ghost use Rattle.vz_surfaces.specs.Reading.{existing_count};
ghost use Rattle.vz_surface_manager.specs.Settles.{AreSettling, IsToSettle};
ghost use Rattle.vz_surface_manager.specs.Changes.{IsGoing};
ghost use Rattle.vz_surface_manager.specs.Collects.{IsToCollect, IsDestroying, HaveRoom};

use crate::index::Index;
use crate::lists::Lists;
use crate::rounds::{rise_all, since};
use crate::{LiveSurfaces, Waiting};
use vz_frame::Room;
use vz_ids::{Sub, SurfaceId};
use vz_rules::Lost;

/// The surfaces with what belongs to them, and the waiting submissions.
#[derive(Drop)]
pub struct SurfaceManager {
    /// The surfaces with what belongs to them.
    pub live: LiveSurfaces,
    /// The submissions that wait to become active.
    pub waiting: Waiting,
}

impl SurfaceManager {
    /// Does rounds until no submission is ready. At the start `activated` has the submissions
    /// that are ready; all that become active later are appended, round by round. `ids` is a work
    /// list. It allocates nothing.
    ///
    /// Conditions: `ids` is empty, and there is room for all that wait.
    pub fn settle(&mut self, ids: &mut Room<SurfaceId>, activated: &mut Room<Sub>)
        requires settles { (w : World) × (but : Option Id)
            × IsToSettle w but self.old activated.old.list }
        requires empty { ids.old.list ≡ [] }
        requires room { length self.old.waiting.blocked ≤ activated.old.spare }
        requires beside { length activated.old.list + length self.old.waiting.blocked
            ≤ ids.old.spare }
        ensures settled { (w : World) (but : Option Id)
            → IsToSettle w but self.old activated.old.list → AreSettling (settle w) but self.new }
        ensures activated { (w : World) (but : Option Id)
            → IsToSettle w but self.old activated.old.list → activated.new.list ≡ activated_in w }
        ensures out { resources_out self.new.live.lent ≡ resources_out self.old.live.lent }
        ensures count { owed_count self.new.live.owed.owed ≡ owed_count self.old.live.owed.owed }
        ensures surfaces { existing_count self.new.live.store
            ≡ existing_count self.old.live.store }
        ensures sets { length self.new.live.kept.sets ≤ length self.old.live.kept.sets
            + (length activated.old.list + length self.old.waiting.blocked) }
        ensures kept { self.old.live.kept.room ≤ self.new.live.kept.room }
        ensures temporary { length self.new.live.kept.temporary
            ≤ length self.old.live.kept.temporary }
    {
        let mut from = 0;
        while from < activated.as_slice().len() {
            let to = activated.as_slice().len();
            rise_all(&mut self.live, since(activated, from), ids);
            self.waiting.activated(since(ids, from), activated);
            from = to;
        }
    }

    /// Collects garbage: destroys each marked surface that is not reached from the root or from a
    /// temporary surface, and reports it, by client and then in the order of creation. If no
    /// surface is marked, nothing is searched. It allocates nothing.
    ///
    /// Conditions: each surface that an active frame names is noted as named, and there is room
    /// for the report and the lists.
    pub fn collect(
        &mut self,
        root: Option<SurfaceId>,
        lists: &mut Lists,
        destroyed: &mut Room<Lost>,
    )
        requires collects { (w : World) × IsToCollect w root self.old }
        requires lists { HaveRoom self.old lists.old }
        requires room { existing_count self.old.live.store ≤ destroyed.old.spare }
        ensures cleared { (w : World) → IsToCollect w root self.old
            → AreSettling (clearing w) None self.new }
        ensures named { (w : World) → IsToCollect w root self.old
            → naming (clearing w) ≡ clearing w }
        ensures destroyed { (w : World) → IsToCollect w root self.old
            → destroyed.new.list ≡ destroyed.old.list ++ destroyed_in w }
        ensures out { resources_out self.new.live.lent ≡ resources_out self.old.live.lent }
        ensures count { owed_count self.new.live.owed.owed ≡ owed_count self.old.live.owed.owed }
    {
        self.live.marked(&mut lists.marked);
        if lists.marked.as_slice().is_empty() {
            return;
        }
        self.live.reachable(root, &mut lists.reached);
        lists.index.fill(lists.reached.as_slice());
        destroy_all(self, lists.marked.as_slice(), &lists.index, destroyed);
    }
}

/// Destroys a surface, with the submission that waits on it, and reports it.
fn destroy(settling: &mut SurfaceManager, id: &SurfaceId, destroyed: &mut Room<Lost>)
    requires goes { (w : World) × (c : Surface) × IsGoing w c id.now settling.old.live }
    requires room { 0 < destroyed.old.spare }
    ensures stands { (w : World) (c : Surface) → AreSettling w None settling.old
        → IsGoing w c id.now settling.old.live → IsMarked w c.id
        → AreSettling (going c w) None settling.new }
    ensures named { (w : World) (c : Surface) → IsGoing w c id.now settling.old.live
        → naming (going c w) ≡ going c w }
    ensures destroyed { (w : World) (c : Surface) → IsGoing w c id.now settling.old.live
        → destroyed.new.list ≡ destroyed.old.list
        ++ record { client = c.client; surface = c.number } ∷ [] }
    ensures room { destroyed.old.spare ≡ destroyed.new.spare + 1 }
    ensures temporary { settling.new.live.kept.temporary ≡ settling.old.live.kept.temporary }
    ensures out { resources_out settling.new.live.lent ≡ resources_out settling.old.live.lent }
    ensures count { owed_count settling.new.live.owed.owed
        ≡ owed_count settling.old.live.owed.owed }
{
    let gone = settling.live.go(id);
    settling.waiting.dropped(gone.waiting);
    destroyed.put(gone.lost);
}

/// Destroys those of these marked surfaces that are not reached. Condition: there is room to
/// report all of them.
fn destroy_all(
    settling: &mut SurfaceManager,
    marked: &[SurfaceId],
    reached: &Index,
    destroyed: &mut Room<Lost>,
)
    requires destroys { (w : World) × IsDestroying w marked.now reached.now.list settling.old }
    requires room { length marked.now ≤ destroyed.old.spare }
    ensures cleared { (w : World) → IsDestroying w marked.now reached.now.list settling.old
        → AreSettling (clearing w) None settling.new }
    ensures named { (w : World) → IsDestroying w marked.now reached.now.list settling.old
        → naming (clearing w) ≡ clearing w }
    ensures destroyed { (w : World) → IsDestroying w marked.now reached.now.list settling.old
        → destroyed.new.list ≡ destroyed.old.list ++ destroyed_in w }
    ensures out { resources_out settling.new.live.lent ≡ resources_out settling.old.live.lent }
    ensures count { owed_count settling.new.live.owed.owed
        ≡ owed_count settling.old.live.owed.owed }
{
    for id in marked {
        if !reached.has(id) {
            destroy(settling, id, destroyed);
        }
    }
}
