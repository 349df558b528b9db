//! The store of surfaces and submissions.
ghost use Rattle.std.specs.Prelude.{◌≡◌, ◌≤◌, ◌<◌, ◌+◌, ◌++◌, length, Some, None, is_some, count_by, false, IsTrue, IfOk, OnOk, OnErr, IfErr};
ghost use Rattle.std.specs.List.{Contains};
ghost use Rattle.std.specs.Option.{option_copied, option_map};
ghost use Rattle.vz_rules.specs.World.{Surface, Submission, is_on, is_waiting, sub_of};
ghost use Rattle.vz_rules.specs.Messages.{violates, is_last};
ghost use Rattle.vz_rules.specs.Scene.{shown_frame};
ghost use Rattle.vz_rules.specs.Kept.{is_by, last_in};
ghost use Rattle.vz_surfaces.specs.Stored.{nothing_stored, surface_of, storing, activating, marking, destroying};
ghost use Rattle.vz_surfaces.specs.Reading.{stands, standing, existing_count, last_of, active_on, waiting_at, seen_frames, shown_in, held_of, has_mark, marked_to, was_reached};
ghost use Rattle.vz_surfaces.specs.Keeping.{KeepsStored};
ghost use Rattle.vz_surfaces.specs.Memory.{HasNumber, IsSinkOf, held_in, waiting_on, acting_on, is_waiting_in, past_by};

use crate::groups::{Groups, Link};
use crate::growing::grow;
use crate::held::{Gone, Held, Taken};
use crate::marks::{mark_all, mark_before};
use crate::named::{NamedFrame, places_of};
use crate::owners::Owners;
use crate::rising::Rising;
use crate::seen::Seen;
use crate::showing::shown_by;
use crate::standing::Standing;
use crate::table::{Table, sub_of as name_of};
use crate::told::{Acceptance, Told, note};
use crate::waits::Waits;
use std::alloc::Global;
use std::marker::Model;
use vz_base::Memory;
use vz_frame::{BoxedFrame, Room, ShortList};
use vz_geom::Size;
use vz_ghost::GhostList;
use vz_ids::{FrameSinkId, LocalSurfaceId, Sub, SurfaceId, SurfaceRange};
use vz_pixels::PixelBlock;
use vz_rules::Lost;

/// The surfaces and submissions of the machine's state, as Chromium's `SurfaceManager` keeps
/// them. Contracts see all that were ever created and accepted. In memory there are at most one
/// waiting and one active frame for each surface that exists.
#[derive(Drop)]
pub struct Store {
    alloc: Global,
    table: Table,
    waits: Waits,
    owners: Owners,
    groups: Groups,
    standing: Standing,
    told: GhostList<Told>,
}

impl Model for Store {
    ghost use Rattle.vz_surfaces.specs.Stored.{Stored};
    ghost use Rattle.vz_surfaces.specs.Told.{stored};
    ghost use Rattle.vz_surfaces.specs.Chains.{Stands};
    ghost use Rattle.vz_surfaces.specs.Numbers.{KeepsLists};

    ghost Value = { Stored };

    ghost view = { λ s. stored s.told };

    ghost invariant = { λ s. Stands s.table s.waits s.owners s.groups (stored s.told)
        × KeepsLists s.standing (stored s.told) };
}

impl Store {
    /// Creates an empty store. The only error is `Memory`, if an allocation fails.
    pub fn new(alloc: Global) -> Result<Store, Memory>
        ensures { IfOk result (λ s. s ≡ nothing_stored) }
    {
        let owners = Owners::new(alloc)?;
        Ok(Store {
            alloc,
            table: Table::new(alloc),
            waits: Waits::new(alloc),
            owners,
            groups: Groups::new(alloc),
            standing: Standing::new(alloc),
            told: GhostList::new(),
        })
    }

    /// The local id and the size of the last surface that a client created, or None if it created
    /// none. Condition: the client's number is 1 to 16.
    pub fn last(&self, c: u32) -> Option<(LocalSurfaceId, Size)>
        requires { HasNumber c }
        ensures { result ≡ last_of c self.now }
    {
        self.owners.get(c).last
    }

    /// Whether the surface of an id exists.
    pub fn exists(&self, id: &SurfaceId) -> bool
        ensures { result ≡ stands self.now id.now }
    {
        self.table.get(id).is_some()
    }

    /// The number of the client that created a surface, or None if the surface does not exist.
    pub fn client(&self, id: &SurfaceId) -> Option<u32>
        ensures { result ≡ option_map (λ c. c.client) (standing id.now self.now.surfaces) }
    {
        match self.table.get(id) {
            None => None,
            Some(surface) => Some(surface.client),
        }
    }

    /// How many surfaces exist.
    pub fn surfaces(&self) -> usize
        ensures { result ≡ existing_count self.now }
    {
        self.table.len()
    }

    /// The active submission of a surface, or None if the surface does not exist or has none.
    pub fn active(&self, id: &SurfaceId) -> Option<&Held>
        ensures { option_copied result ≡ option_map held_of (active_on self.now id.now) }
    {
        match self.table.get(id) {
            None => None,
            Some(surface) => surface.active.as_ref(),
        }
    }

    /// The submission that waits on a surface, or None if the surface does not exist or has none.
    pub fn waiting(&self, id: &SurfaceId) -> Option<&Held>
        ensures { option_copied result ≡ option_map held_of (waiting_at self.now id.now) }
    {
        match self.table.get(id) {
            None => None,
            Some(surface) => surface.waiting.as_ref(),
        }
    }

    /// The surface on which a submission waits, or None if it does not wait.
    pub fn waits_on(&self, s: Sub) -> Option<SurfaceId>
        ensures found { (x : Submission) → Contains self.now.subs x → IsTrue (is_waiting x)
            → sub_of x ≡ s → result ≡ Some x.submitted.id }
        ensures only { is_some result ≡ is_waiting_in self.now s }
    {
        match self.waits.get(&s) {
            None => None,
            Some(surface) => Some(surface.id),
        }
    }

    /// The surface on which a submission waits, with what waits and what is active there.
    /// Condition: it waits.
    pub fn rising(&self, s: Sub) -> Rising<'_>
        requires { IsTrue (is_waiting_in self.now s) }
        ensures surface { (x : Submission) → Contains self.now.subs x → IsTrue (is_waiting x)
            → sub_of x ≡ s → result.id ≡ x.submitted.id }
        ensures waiting { Some result.waiting.now
            ≡ option_map held_of (waiting_at self.now result.id) }
        ensures active { option_copied result.active
            ≡ option_map held_of (active_on self.now result.id) }
    {
        let Some(link) = self.waits.get(&s) else {
            unreachable!()
        };
        let Some(surface) = self.table.by_key(link.key) else {
            unreachable!()
        };
        let Some(waiting) = surface.waiting.as_ref() else {
            unreachable!()
        };
        Rising {
            id: link.id,
            waiting,
            active: surface.active.as_ref(),
        }
    }

    /// The active submission of a surface, with the surface, or None if the surface does not
    /// exist or has none.
    pub fn frame_on(&self, id: &SurfaceId) -> Option<Seen<'_>>
        ensures { result ≡ active_on self.now id.now }
    {
        match self.active(id) {
            None => None,
            Some(held) => Some(Seen::new(*id, held)),
        }
    }

    /// The active submission of the surface that a range shows, or None if it shows none.
    /// Condition: the store keeps its invariants.
    pub fn shown_frame(&self, range: &SurfaceRange) -> Option<Seen<'_>>
        requires { KeepsStored self.now }
        ensures { result ≡ shown_frame (seen_frames self.now) range.now }
    {
        let Some(link) = shown_by(&self.groups, &self.table, range) else {
            return None;
        };
        match self.table.active(link.key) {
            None => None,
            Some(held) => Some(Seen::new(link.id, held)),
        }
    }

    /// The surface that a range shows, among those that exist and have an active submission.
    pub fn shown(&self, range: &SurfaceRange) -> Option<SurfaceId>
        ensures { result ≡ shown_in self.now range.now }
    {
        match shown_by(&self.groups, &self.table, range) {
            None => None,
            Some(link) => Some(link.id),
        }
    }

    /// Whether a surface exists and is marked for destruction.
    pub fn is_marked(&self, id: &SurfaceId) -> bool
        ensures { result ≡ has_mark self.now id.now }
    {
        match self.table.get(id) {
            None => false,
            Some(surface) => surface.number <= self.owners.get(surface.client).marked_to,
        }
    }

    /// Appends the marked surfaces that exist, by client and then in the order of creation.
    /// Condition: `out` has room for as many surfaces as exist.
    pub fn marked(&self, out: &mut Room<SurfaceId>)
        requires { existing_count self.now ≤ out.old.spare }
        ensures list { out.new.list ≡ out.old.list ++ marked_to 16 self.now }
        ensures room { out.old.spare ≡ out.new.spare + length (marked_to 16 self.now) }
    {
        for k in 0..self.owners.marking() {
            let to = self.owners.get(k + 1).marked_to;
            self.standing.put_to(k + 1, to, out);
        }
    }

    /// Whether the surface `d`, or a newer one of its group, ever had an active submission.
    /// Surfaces that were destroyed count too.
    pub fn ever_active(&self, d: &SurfaceId) -> bool
        ensures { result ≡ was_reached self.now d.now }
    {
        self.groups.was_active(d)
    }

    /// Accepts a submission of client `c` on a surface of its sink. If `local` is not the
    /// client's last local id, this creates the surface. The submission waits, and one that
    /// already waited there is dropped. `blocks` has the pixel block of each listed resource. If
    /// an allocation fails, the error gives the frame back and nothing changes.
    ///
    /// Conditions: the client's number is 1 to 16; the store keeps its invariants; `sink` is that
    /// of all earlier calls for the client, and of none for another; the local id is allowed
    /// after the client's last one; if it is that last one, the surface exists; and fewer than
    /// 4,294,967,295 submissions of the client were accepted.
    pub fn accept(
        &mut self,
        c: u32,
        sink: FrameSinkId,
        local: LocalSurfaceId,
        frame: BoxedFrame,
        blocks: ShortList<PixelBlock>,
    ) -> Result<Taken, BoxedFrame>
        requires number { HasNumber c }
        requires keeps { KeepsStored self.old }
        requires sink { IsSinkOf c sink self.old }
        requires goes_on { violates (last_in self.old.surfaces c) local ≡ false }
        requires exists { IsTrue (is_last (last_in self.old.surfaces c) local)
            → IsTrue (stands self.old (surface_of sink local)) }
        requires few { count_by (is_by c) self.old.subs < u32.MAX }
        ensures ok { OnOk result (self.new ≡ storing c sink local frame blocks self.old) }
        ensures sub { IfOk result (λ t. t.sub
            ≡ record { client = c; ordinal = count_by (is_by c) self.old.subs + 1 }) }
        ensures index { IfOk result (λ t. t.index
            ≡ count_by (is_on (surface_of sink local)) self.old.subs + 1) }
        ensures replaced { IfOk result (λ t. t.replaced
            ≡ held_in is_waiting (surface_of sink local) self.old.subs) }
        ensures err { OnErr result (self.new ≡ self.old) }
        ensures back { IfErr result (λ f. f ≡ frame) }
    {
        let id = SurfaceId { sink, local };
        let owner = self.owners.get(c);
        let last = owner.is_last(&local);
        let Ok(places) = places_of(self.alloc, frame.as_frame()) else {
            return Err(frame);
        };
        let Ok(()) = grow(
            self.alloc,
            &mut self.table,
            &mut self.waits,
            &mut self.groups,
            &mut self.standing,
            id,
            c,
            last,
        ) else {
            return Err(frame);
        };
        let size = frame.as_frame().size();
        let acceptance = note(
            &mut self.told,
            Acceptance {
                client: c,
                sink,
                local,
                frame,
                blocks,
            },
        );
        self.table.open(id, c, owner.created, last);
        self.standing.open(c, owner.created, id, last);
        let sub = Sub {
            client: c,
            ordinal: owner.accepted + 1,
        };
        let frame = NamedFrame::new(acceptance.frame, places);
        let (index, replaced, key) = self.table.hold(&id, sub, frame, acceptance.blocks);
        let waited = name_of(&replaced);
        self.waits.remove(waited);
        self.waits.put(sub, Link { id, key });
        self.owners.set(c, owner.counting(last, local, size));
        Ok(Taken {
            sub,
            index,
            replaced,
        })
    }

    /// Makes a waiting submission active and marks the earlier surfaces of its client. Returns
    /// the submission that was active on the surface until now, or None. It allocates nothing.
    ///
    /// Conditions: it waits, and the store keeps its invariants.
    pub fn activate(&mut self, s: Sub) -> Option<Sub>
        requires keeps { KeepsStored self.old }
        requires waits { IsTrue (is_waiting_in self.old s) }
        ensures activated { self.new ≡ activating s self.old }
        ensures past { result ≡ past_by self.old s }
    {
        let change = Told::Activated(s);
        self.told.show(&change);
        let Some(link) = self.waits.take(&s) else {
            unreachable!()
        };
        self.groups.note_active(&link.id);
        let (number, past) = self.table.raise(&link);
        mark_before(&mut self.owners, s.client, number);
        past
    }

    /// Marks all surfaces of a client, as it is closed. It allocates nothing. Condition: the
    /// client's number is 1 to 16.
    pub fn mark_all(&mut self, c: u32)
        requires { HasNumber c }
        ensures { self.new ≡ marking c self.old }
    {
        let change = Told::MarkedAll(c);
        self.told.show(&change);
        mark_all(&mut self.owners, c);
    }

    /// Destroys a surface and returns it with its waiting and its active submission, which end.
    /// It allocates nothing. Conditions: the surface exists, and the store keeps its invariants.
    pub fn destroy(&mut self, id: &SurfaceId) -> Gone
        requires keeps { KeepsStored self.old }
        requires exists { IsTrue (stands self.old id.now) }
        ensures destroyed { self.new ≡ destroying id.now self.old }
        ensures lost { (c : Surface) → standing id.now self.old.surfaces ≡ Some c
            → result.lost ≡ record { client = c.client; surface = c.number } }
        ensures waiting { result.waiting ≡ waiting_on self.old id.now }
        ensures active { result.active ≡ acting_on self.old id.now }
    {
        let change = Told::Destroyed(*id);
        self.told.show(&change);
        let Some(surface) = self.table.remove(id) else {
            unreachable!()
        };
        let waiting = name_of(&surface.waiting);
        self.waits.remove(waiting);
        self.groups.remove(id);
        self.standing.remove(surface.client, id);
        Gone {
            lost: Lost {
                client: surface.client,
                surface: surface.number,
            },
            waiting,
            active: name_of(&surface.active),
        }
    }
}
