//! The surfaces with what belongs to them, and questions about them.
ghost use Rattle.std.specs.Prelude.{◌≡◌, None, length, IfOk, ◌≤◌, ◌+◌, ◌++◌, ◌&&◌, Option, OnOk, OnErr, ◌<◌, [], IsFalse};
ghost use Rattle.std.specs.List.{Contains, list_any};
ghost use Rattle.std.specs.Option.{option_map};
ghost use Rattle.vz_ids.specs.declared.SurfaceId.{SurfaceId as Id};
ghost use Rattle.vz_ids.specs.Ids.{at_least, same_surface};
ghost use Rattle.vz_frame.specs.Frame.{has_repeat};
ghost use Rattle.vz_rules.specs.Plan.{Plan};
ghost use Rattle.vz_rules.specs.World.{opening, World, Client, Submission, last_created};
ghost use Rattle.vz_rules.specs.Messages.{in_use};
ghost use Rattle.vz_rules.specs.Log.{rest_in};
ghost use Rattle.vz_rules.specs.Kept.{Keeps, KeepsAlways};
ghost use Rattle.vz_rules.specs.Reach.{has_id, naming, reach};
ghost use Rattle.vz_returns.specs.Lent.{NoneReleased, IsLender, resources_out};
ghost use Rattle.vz_surfaces.specs.Memory.{HasNumber};
ghost use Rattle.vz_surfaces.specs.Reading.{existing_count, marked_to};
ghost use Rattle.vz_surface_manager.specs.Live.{AreLive};
ghost use Rattle.vz_surface_manager.specs.Last_surface.{name_and_size};
ghost use Rattle.vz_surface_manager.specs.Roots.{if_stands};

use crate::{Flight, Roster};
use std::alloc::Global;
use std::marker::Model;
use vz_base::Memory;
use vz_damage::Damage;
use vz_frame::Room;
use vz_geom::Size;
use vz_ids::{LocalSurfaceId, Sub, SurfaceId};
use vz_refs::References;
use vz_returns::{Lenders, PendingFeedback};
use vz_rules::Returned;
use vz_surfaces::Store;

/// The surfaces of the machine with what belongs to them. Contracts see a value for each part.
///
/// The room for the references of a waiting submission is reserved when it is accepted, so that
/// nothing that follows a step's own change allocates. The roster of the last drawn frame is kept
/// for the room that it has (`idle`), which contracts do not see.
#[derive(Drop)]
pub struct LiveSurfaces {
    pub(crate) store: Store,
    pub(crate) lending: Lenders,
    pub(crate) feeding: PendingFeedback,
    pub(crate) references: References,
    pub(crate) damage: Damage,
    pub(crate) flight: Option<Flight>,
    pub(crate) idle: Roster,
    pub(crate) wanted: usize,
}

impl Model for LiveSurfaces {
    ghost use Rattle.vz_surface_manager.specs.Live.{Live};

    ghost Value = { Live };

    ghost view = { λ a. record {
      store = a.store;
      lent = a.lending;
      owed = a.feeding;
      kept = a.references;
      damaged = a.damage;
      flight = a.flight;
      wanted = a.wanted;
    } };
}

impl LiveSurfaces {
    /// Creates the parts for clients 1 to `clients`, without surfaces. The only error is
    /// `Memory`, if an allocation fails.
    pub fn open(alloc: Global, clients: u32) -> Result<LiveSurfaces, Memory>
        ensures live { IfOk result (λ s. (p : Plan) → length p.files ≡ clients
            → AreLive (opening p) None s) }
        ensures released { IfOk result (λ s. NoneReleased s.lent) }
    {
        Ok(LiveSurfaces {
            store: Store::new(alloc)?,
            lending: Lenders::new(alloc, clients)?,
            feeding: PendingFeedback::new(alloc),
            references: References::new(alloc),
            damage: Damage::new(alloc),
            flight: None,
            idle: Roster::new(alloc),
            wanted: 0,
        })
    }

    /// The local id and the size, in pixels, of the last surface that a client created, or None
    /// exactly if it created none. Surfaces that were destroyed count too. Condition: the
    /// client's number is 1 to 16.
    pub fn last(&self, client: u32) -> Option<(LocalSurfaceId, Size)>
        requires number { HasNumber client }
        ensures last { (w : World) (but : Option Id) → AreLive w but self.now
            → result ≡ option_map name_and_size (last_created w client) }
    {
        self.store.last(client)
    }

    /// Whether this surface or a newer one of its group ever had an active submission. Surfaces
    /// that were destroyed count too.
    pub fn ever_active(&self, id: &SurfaceId) -> bool
        ensures active { (w : World) (but : Option Id) → AreLive w but self.now
            → result ≡ list_any (λ (s : Submission). s.was_active && at_least s.submitted.id id.now)
            w.subs }
    {
        self.store.ever_active(id)
    }

    /// Whether an upload of a resource is refused as the resource is in use: a reference of it is
    /// alive, or a return of it is in the queue. Condition: the client exists.
    pub fn in_use(&self, client: u32, id: u32) -> bool
        requires known { IsLender client self.now.lent }
        ensures { (w : World) (but : Option Id) (c : Client) → KeepsAlways w
            → AreLive w but self.now → Contains w.clients c → c.number ≡ client
            → NoneReleased self.now.lent → result ≡ in_use c.resources id }
    {
        self.lending.in_use(client, id)
    }

    /// Makes room in `out` for each resource of which some reference is outstanding, and for
    /// `more` others. The only error is `Memory`, if an allocation fails; then nothing changes.
    /// The list itself never changes.
    pub fn make_room(&self, more: usize, out: &mut Room<Returned>) -> Result<(), Memory>
        ensures ok { OnOk result (resources_out self.now.lent + more ≤ out.new.spare) }
        ensures list { out.new.list ≡ out.old.list }
        ensures err { OnErr result (out.new ≡ out.old) }
    {
        self.lending.make_room(more, out)
    }

    /// Appends the outstanding references, by client and rising resource id. Condition: `out` has
    /// room for each resource of which some reference is outstanding.
    pub fn held(&self, out: &mut Room<Returned>)
        requires room { resources_out self.now.lent ≤ out.old.spare }
        ensures { (w : World) (but : Option Id) → KeepsAlways w → AreLive w but self.now
            → out.new.list ≡ out.old.list ++ (rest_in w).held }
    {
        self.lending.held(out);
    }

    /// How many submissions await feedback.
    pub fn unfed(&self) -> usize
        ensures { result ≡ length self.now.owed.owed.unfed }
    {
        self.feeding.unfed()
    }

    /// Appends the submissions that await feedback, by client and ordinal. It allocates nothing.
    /// Condition: `out` has room for all.
    pub fn subs(&self, out: &mut Room<Sub>)
        requires room { length self.now.owed.owed.unfed ≤ out.old.spare }
        ensures { (w : World) (but : Option Id) → Keeps w → AreLive w but self.now
            → out.new.list ≡ out.old.list ++ (rest_in w).unfed }
    {
        self.feeding.subs(out);
    }

    /// How many surfaces exist.
    pub fn surfaces(&self) -> usize
        ensures { result ≡ existing_count self.now.store }
    {
        self.store.surfaces()
    }

    /// How many surfaces have references set.
    pub fn referencing(&self) -> usize
        ensures { result ≡ length self.now.kept.sets }
    {
        self.references.surfaces()
    }

    /// How many surfaces are temporary.
    pub fn temporary(&self) -> usize
        ensures { result ≡ length self.now.kept.temporary }
    {
        self.references.temporary()
    }

    /// Appends the marked surfaces that exist, by client and then in the order of creation.
    /// Condition: `out` has room for as many surfaces as exist.
    pub fn marked(&self, out: &mut Room<SurfaceId>)
        requires { existing_count self.now.store ≤ out.old.spare }
        ensures list { out.new.list ≡ out.old.list ++ marked_to 16 self.now.store }
        ensures room { out.old.spare ≡ out.new.spare + length (marked_to 16 self.now.store) }
    {
        self.store.marked(out);
    }

    /// Appends the reachable surfaces, each once, given the root, if there is one. It allocates
    /// nothing. Conditions: `out` is empty and has room for one more than the set and the
    /// temporary surfaces together.
    pub fn reachable(&self, root: Option<SurfaceId>, out: &mut Room<SurfaceId>)
        requires live { (w : World) × (but : Option Id) × KeepsAlways w × AreLive w but self.now }
        requires empty { out.old.list ≡ [] }
        requires room { length self.now.kept.sets + length self.now.kept.temporary < out.old.spare }
        ensures reached { (w : World) → KeepsAlways w → AreLive w None self.now → naming w ≡ w
            → root ≡ w.root → (id : Id) → has_id out.new.list id ≡ has_id (reach w) id }
        ensures once { IsFalse (has_repeat same_surface out.new.list) }
        ensures few { length out.new.list
            ≤ length self.now.kept.sets + length self.now.kept.temporary + 1 }
    {
        let root = if_exists(&self.store, root);
        self.references.reachable(root, &self.store, out);
    }
}

/// The root, if one is given and it exists.
fn if_exists(store: &Store, root: Option<SurfaceId>) -> Option<SurfaceId>
    ensures { result ≡ if_stands store.now root }
{
    match root {
        None => None,
        Some(id) => { if store.exists(&id) { Some(id) } else { None } }
    }
}
