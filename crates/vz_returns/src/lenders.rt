//! The references that all clients lent.
ghost use Rattle.std.specs.Prelude.{◌≡◌, ℕ, ◌≤◌, ◌+◌, Some, List, [], ◌∷◌, ◌++◌, length, IfOk, IsOk, OnOk, OnErr, IfSome};
ghost use Rattle.std.specs.List.{Contains, flat_map};
ghost use Rattle.vz_ids.specs.declared.LocalSurfaceId.{LocalSurfaceId};
ghost use Rattle.vz_ids.specs.declared.Sub.{Sub};
ghost use Rattle.vz_frame.specs.declared.frame.CompositorFrame.{CompositorFrame};
ghost use Rattle.vz_rules.specs.Plan.{Plan};
ghost use Rattle.vz_rules.specs.World.{World, Client, Surface, Submission, opening, sub_of};
ghost use Rattle.vz_rules.specs.Messages.{accepted, in_use, taking, reclaim};
ghost use Rattle.vz_rules.specs.Returns.{returned_in, give_back};
ghost use Rattle.vz_rules.specs.Singly.{rising, going};
ghost use Rattle.vz_rules.specs.Log.{rest_in};
ghost use Rattle.vz_rules.specs.Kept.{KeepsAlways};
ghost use Rattle.vz_returns.specs.Held.{held};
ghost use Rattle.vz_returns.specs.Lent.{Lent, AreLent, IsLender, IsOf, NoneReleased, HasRoom, HasPlaces, AreRoomier, resources_out};
ghost use Rattle.vz_returns.specs.Changes.{IsAccepted, IsRising, IsGoing, IsDrawn, IsDone};

use crate::lender::Lender;
use std::alloc::Global;
use std::marker::Model;
use vz_base::Memory;
use vz_frame::{Listing, Room};
use vz_rules::Returned;

/// The references that all clients lent, and those released since resources were last given back.
/// Contracts see a record for each client, by its number: what it lent, what is released, and the
/// room that was reserved before. Only `new`, `ready`, `ready_to_draw` and (for its list)
/// `make_room` allocate.
#[derive(Drop)]
pub struct Lenders {
    lenders: Vec<Lender>,
}

impl Model for Lenders {
    ghost use Rattle.std.specs.Prelude.{List as Row};
    ghost use Rattle.vz_returns.specs.Lent.{Lent};

    ghost Value = { Row Lent };

    ghost view = { λ a. a.lenders.items };
}

impl Lenders {
    /// Creates the records of the clients 1 to `clients`, who have lent nothing. The only error
    /// is `Memory`, if an allocation fails.
    pub fn new(alloc: Global, clients: u32) -> Result<Lenders, Memory>
        ensures lent { IfOk result (λ l. (p : Plan) → length p.files ≡ clients
            → AreLent (opening p) l) }
        ensures released { IfOk result NoneReleased }
    {
        let mut lenders = Vec::with_capacity(alloc, clients as usize)?;
        for k in 0..clients {
            lenders.push_reserved(Lender::new(alloc, k + 1));
        }
        Ok(Lenders { lenders })
    }

    /// Makes room for the next submission of a client with `listings` listed resources: to lend
    /// them, and to release their references. The only error is `Memory`, if an allocation fails.
    /// If no released reference is noted and there is the room, it returns Ok. In either case
    /// nothing else changes and no room is lost.
    pub fn ready(&mut self, client: u32, listings: usize) -> Result<(), Memory>
        requires known { IsLender client self.old }
        ensures room { OnOk result (HasRoom listings client self.new) }
        ensures succeeds { NoneReleased self.old → HasRoom listings client self.old
            → IsOk result }
        ensures same { AreRoomier self.old self.new }
        ensures lent { (w : World) → AreLent w self.old → AreLent w self.new }
        ensures released { NoneReleased self.old → NoneReleased self.new }
        ensures out { resources_out self.new ≡ resources_out self.old }
    {
        self.lenders[client as usize - 1].ready(listings)
    }

    /// Makes room for a drawn frame whose submissions list `listings` resources in all. The only
    /// error is `Memory`, if an allocation fails. In either case nothing else changes and no room
    /// is lost.
    pub fn ready_to_draw(&mut self, listings: usize) -> Result<(), Memory>
        ensures room { OnOk result ((client : ℕ) → HasPlaces listings client self.new) }
        ensures same { AreRoomier self.old self.new }
        ensures lent { (w : World) → AreLent w self.old → AreLent w self.new }
        ensures released { NoneReleased self.old → NoneReleased self.new }
        ensures out { resources_out self.new ≡ resources_out self.old }
    {
        make_places(&mut self.lenders, listings)
    }

    /// Makes room in `out` for a return of each resource with a reference that is alive, and for
    /// `more` others. The only error is `Memory`, if an allocation fails; then nothing changes.
    pub fn make_room(&self, more: usize, out: &mut Room<Returned>) -> Result<(), Memory>
        ensures ok { OnOk result (resources_out self.now + more ≤ out.new.spare) }
        ensures list { out.new.list ≡ out.old.list }
        ensures err { OnErr result (out.new ≡ out.old) }
    {
        match count_out(&self.lenders, more) {
            Some(places) => out.reserve(places),
            None => Err(Memory),
        }
    }

    /// Whether an upload of a resource is refused as the resource is in use: a reference of it is
    /// alive, or a return of it is in the queue.
    pub fn in_use(&self, client: u32, id: u32) -> bool
        requires known { IsLender client self.now }
        ensures { (w : World) (c : Client) → KeepsAlways w → Contains w.clients c
            → c.number ≡ client → NoneReleased self.now → AreLent w self.now
            → result ≡ in_use c.resources id }
    {
        self.lenders[client as usize - 1].in_use(id)
    }

    /// Notes that a submission of a client is accepted: each resource that it lists is lent once
    /// more, and those of the submission that it replaces are released. `replaced` is empty if
    /// there is no such submission. Conditions: the client is not closed and may submit it, no
    /// released reference is noted, and there is room for its listings.
    pub fn accepted(&mut self, client: u32, listings: &[Listing], replaced: &[Listing])
        requires known { IsLender client self.old }
        requires accepted { (p : Plan) × (w : World) × (c : Client) × (local : LocalSurfaceId)
            × (frame : CompositorFrame)
            × IsAccepted p w c local frame client listings.now replaced.now self.old }
        requires room { HasRoom (length listings.now) client self.old }
        ensures lent { (p : Plan) (w : World) (c : Client) (local : LocalSurfaceId)
            (frame : CompositorFrame)
            → IsAccepted p w c local frame client listings.now replaced.now self.old
            → AreLent (accepted w c local frame).world self.new }
        ensures out { resources_out self.new ≤ resources_out self.old + length listings.now }
    {
        self.lenders[client as usize - 1].accept(listings, replaced);
    }

    /// Notes that a waiting submission becomes active: the resources of the submission that was
    /// active on its surface are released. Condition: `listings` are those of that submission,
    /// and empty if there is none.
    pub fn past(&mut self, client: u32, listings: &[Listing])
        requires known { IsLender client self.old }
        requires rises { (w : World) × (s : Submission)
            × IsRising w s client listings.now self.old }
        ensures lent { (w : World) (s : Submission) → IsRising w s client listings.now self.old
            → AreLent (rising s w) self.new }
        ensures out { resources_out self.new ≡ resources_out self.old }
    {
        self.lenders[client as usize - 1].release_all(listings);
    }

    /// Notes that a surface is destroyed: the resources of its waiting and of its active
    /// submission are released. Condition: these are the listings of the two, each empty if there
    /// is no such submission.
    pub fn dropped(&mut self, client: u32, waiting: &[Listing], active: &[Listing])
        requires known { IsLender client self.old }
        requires goes { (w : World) × (d : Surface)
            × IsGoing w d client waiting.now active.now self.old }
        ensures lent { (w : World) (d : Surface)
            → IsGoing w d client waiting.now active.now self.old
            → AreLent (going d w) self.new }
        ensures out { resources_out self.new ≡ resources_out self.old }
    {
        self.lenders[client as usize - 1].drop_all(waiting, active);
    }

    /// Notes that an active submission is in a drawn frame, which holds its resources once more.
    /// Conditions: it is not in the frame yet, no released reference is noted, and there are
    /// places for its listings.
    pub fn drawn(&mut self, client: u32, listings: &[Listing])
        requires known { IsLender client self.old }
        requires drawn { (p : Plan) × (w : World) × (before : List Sub) × (s : Submission)
            × IsDrawn p w before s client listings.now self.old }
        requires room { HasPlaces (length listings.now) client self.old }
        ensures lent { (p : Plan) (w : World) (before : List Sub) (s : Submission)
            → IsDrawn p w before s client listings.now self.old
            → AreLent (record w { in_flight = Some (before ++ sub_of s ∷ []) }) self.new }
        ensures released { NoneReleased self.old → NoneReleased self.new }
        ensures places { (n : ℕ) (q : ℕ) → HasPlaces (n + length listings.now) q self.old
            → HasPlaces n q self.new }
        ensures out { resources_out self.new ≡ resources_out self.old }
    {
        self.lenders[client as usize - 1].hold_all(listings);
    }

    /// Notes that the drawn frame is done for the first submission in it: that is removed from
    /// the frame, and its resources are released. Condition: these are its listings.
    pub fn landed(&mut self, client: u32, listings: &[Listing])
        requires known { IsLender client self.old }
        requires done { (w : World) × (s : Submission) × (others : List Sub)
            × IsDone w s others client listings.now self.old }
        ensures lent { (w : World) (s : Submission) (others : List Sub)
            → IsDone w s others client listings.now self.old
            → AreLent (record w { in_flight = Some others }) self.new }
        ensures out { resources_out self.new ≡ resources_out self.old }
    {
        self.lenders[client as usize - 1].release_all(listings);
    }

    /// Gives back what was released: each released resource of which no reference is alive any
    /// more is returned with all references received as its count, by client and rising id.
    /// Conditions: the records are right for a state that keeps the invariants, and `out` has room
    /// for each resource that had a reference alive.
    pub fn give_back(&mut self, out: &mut Room<Returned>)
        requires stands { (w : World) × KeepsAlways w × AreLent w self.old }
        requires room { resources_out self.old ≤ out.old.spare }
        ensures returned { (w : World) → KeepsAlways w → AreLent w self.old
            → out.new.list ≡ out.old.list ++ returned_in w }
        ensures lent { (w : World) → KeepsAlways w → AreLent w self.old
            → AreLent (give_back w) self.new }
        ensures released { NoneReleased self.new }
        ensures out { resources_out self.new ≤ resources_out self.old }
    {
        give_back_each(&mut self.lenders, out);
    }

    /// How many returned resources are in a client's queue.
    pub fn queued(&self, client: u32) -> usize
        requires known { IsLender client self.now }
        ensures own { (l : Lent) → IsOf client self.now l → result ≡ length l.holding.queue }
        ensures queue { (w : World) (c : Client) → KeepsAlways w → Contains w.clients c
            → c.number ≡ client → AreLent w self.now → result ≡ length c.queue }
    {
        self.lenders[client as usize - 1].queued()
    }

    /// Appends the queue of a client to `out`, oldest first, and empties it. Condition: `out` has
    /// room for all of it.
    pub fn reclaim(&mut self, client: u32, out: &mut Room<Returned>)
        requires known { IsLender client self.old }
        requires room { (l : Lent) → IsOf client self.old l
            → length l.holding.queue ≤ out.old.spare }
        ensures returned { (w : World) (c : Client) → KeepsAlways w → Contains w.clients c
            → c.number ≡ client → AreLent w self.old
            → out.new.list ≡ out.old.list ++ c.queue }
        ensures lent { (w : World) (c : Client) → KeepsAlways w → Contains w.clients c
            → c.number ≡ client → AreLent w self.old
            → AreLent (taking reclaim c w) self.new }
        ensures released { NoneReleased self.old → NoneReleased self.new }
        ensures out { resources_out self.new ≡ resources_out self.old }
    {
        self.lenders[client as usize - 1].take(out);
    }

    /// Appends each resource of which some reference is alive, by client and rising id, with all
    /// references received as its count. Condition: `out` has room for all.
    pub fn held(&self, out: &mut Room<Returned>)
        requires room { resources_out self.now ≤ out.old.spare }
        ensures { (w : World) → KeepsAlways w → AreLent w self.now
            → out.new.list ≡ out.old.list ++ (rest_in w).held }
    {
        put_held(&self.lenders, out);
    }
}

/// How many resources have a reference that is alive, plus `more`, or None if that is too large
/// to count.
fn count_out(lenders: &[Lender], more: usize) -> Option<usize>
    ensures { IfSome result (λ n. n ≡ resources_out lenders.now + more) }
{
    let mut places = more;
    for lender in lenders {
        match places.checked_add(lender.listed()) {
            Some(all) => places = all,
            None => return None,
        }
    }
    Some(places)
}

/// Reserves places for `n` more references of each client. The only error is `Memory`, if an
/// allocation fails.
fn make_places(lenders: &mut [Lender], n: usize) -> Result<(), Memory>
    ensures same { AreRoomier lenders.old lenders.new }
    ensures room { OnOk result ((client : ℕ) → HasPlaces n client lenders.new) }
{
    for k in 0..lenders.len() {
        lenders[k].make_places(n)?;
    }
    Ok(())
}

/// Gives back what each client's released references return. Condition: `out` has room for each
/// resource that had a reference alive.
fn give_back_each(lenders: &mut [Lender], out: &mut Room<Returned>)
    requires stands { (w : World) × KeepsAlways w × AreLent w lenders.old }
    requires room { resources_out lenders.old ≤ out.old.spare }
    ensures returned { (w : World) → KeepsAlways w → AreLent w lenders.old
        → out.new.list ≡ out.old.list ++ returned_in w }
    ensures lent { (w : World) → KeepsAlways w → AreLent w lenders.old
        → AreLent (give_back w) lenders.new }
    ensures released { NoneReleased lenders.new }
    ensures out { resources_out lenders.new ≤ resources_out lenders.old }
{
    for k in 0..lenders.len() {
        lenders[k].give_back(out);
    }
}

/// Appends each client's resources of which some reference is alive. Condition: `out` has room
/// for all.
fn put_held(lenders: &[Lender], out: &mut Room<Returned>)
    requires room { resources_out lenders.now ≤ out.old.spare }
    ensures out { out.new.list
        ≡ out.old.list ++ flat_map (λ (l : Lent). held l.holding) lenders.now }
{
    for lender in lenders {
        lender.held(out);
    }
}
