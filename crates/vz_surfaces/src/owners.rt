//! The counts that are kept for each client.
ghost use Rattle.std.specs.Prelude.{◌≡◌, ◌≤◌, ◌<◌, ◌+◌, ◌-◌, ℕ, Some, None, get_or, if◌then◌else◌, ◌==◌, IfOk};
ghost use Rattle.vz_surfaces.specs.Memory.{owner_at, no_owner, counting, is_named_last, marked_up, MarksUpTo};

use std::alloc::Global;
use vz_base::Memory;
use vz_geom::Size;
use vz_ids::LocalSurfaceId;

/// For a client: how many submissions were accepted and how many surfaces created, the local id
/// and the size of the last surface, and up to which number its surfaces are marked.
#[derive(Clone, Copy)]
pub(crate) struct Owner {
    pub(crate) accepted: u32,
    pub(crate) created: u32,
    pub(crate) last: Option<(LocalSurfaceId, Size)>,
    pub(crate) marked_to: u32,
}

impl Owner {
    /// Whether a local id is that of the client's last surface.
    pub(crate) fn is_last(&self, local: &LocalSurfaceId) -> bool
        ensures { result ≡ is_named_last self.now.last local.now }
    {
        match self.last {
            None => false,
            Some((last, _)) => last == *local,
        }
    }

    /// The counts after one more submission, on the last surface or on a new one. Condition: the
    /// numbers do not overflow.
    pub(crate) fn counting(self, last: bool, local: LocalSurfaceId, size: Size) -> Owner
        requires accepted { self.accepted < u32.MAX }
        requires created { self.created < u32.MAX }
        ensures { result ≡ counting last local size self }
    {
        let accepted = self.accepted + 1;
        if last {
            return Owner { accepted, ..self };
        }
        Owner {
            accepted,
            created: self.created + 1,
            last: Some((local, size)),
            marked_to: self.marked_to,
        }
    }

    /// The counts after the surfaces are marked up to this number.
    pub(crate) fn marked_up(self, number: u32) -> Owner
        ensures { result ≡ marked_up number self }
    {
        if number <= self.marked_to {
            return self;
        }
        Owner {
            marked_to: number,
            ..self
        }
    }
}

/// The counts of the clients 1 to 16. They lie on the heap, so that a store is small where it is
/// moved.
#[derive(Drop)]
pub(crate) struct Owners {
    owners: Box<[Owner; 16]>,
    /// No client with a number above this one has marked surfaces.
    marking: u32,
}

impl Owners {
    /// The counts before any submission is accepted. The only error is `Memory`, if an allocation
    /// fails.
    pub(crate) fn new(alloc: Global) -> Result<Owners, Memory>
        ensures owners { IfOk result (λ o. (q : ℕ) → owner_at o q ≡ no_owner) }
        ensures marking { IfOk result MarksUpTo }
    {
        let owner = Owner {
            accepted: 0,
            created: 0,
            last: None,
            marked_to: 0,
        };
        let owners = Box::new(alloc, [owner; 16])?;
        Ok(Owners { owners, marking: 0 })
    }

    /// The number above which no client has marked surfaces.
    pub(crate) fn marking(&self) -> u32
        ensures { result ≡ self.now.marking }
    {
        self.marking
    }

    /// The counts of a client. Condition: its number is 1 to 16.
    pub(crate) fn get(&self, c: u32) -> Owner
        requires least { 1 ≤ c }
        requires most { c ≤ 16 }
        ensures { result ≡ owner_at self.now c }
    {
        self.owners[(c - 1) as usize]
    }

    /// Replaces the counts of a client. Condition: its number is 1 to 16.
    pub(crate) fn set(&mut self, c: u32, owner: Owner)
        requires least { 1 ≤ c }
        requires most { c ≤ 16 }
        ensures owners { (q : ℕ) → 1 ≤ q → owner_at self.new q
            ≡ (if q == c then owner else owner_at self.old q) }
        ensures marking { MarksUpTo self.old → MarksUpTo self.new }
    {
        self.marking = marking_with(self.marking, c, owner.marked_to);
        replace(&mut self.owners, c, owner);
    }
}

/// Replaces the counts of a client. Condition: its number is 1 to 16.
fn replace(owners: &mut [Owner; 16], c: u32, owner: Owner)
    requires least { 1 ≤ c }
    requires most { c ≤ 16 }
    ensures { (q : ℕ) → 1 ≤ q → get_or owners.new (q - 1) no_owner
        ≡ (if q == c then owner else get_or owners.old (q - 1) no_owner) }
{
    owners[(c - 1) as usize] = owner;
}

/// The number above which no client has marked surfaces, once those of client `c` are marked up to
/// `marked_to`.
fn marking_with(marking: u32, c: u32, marked_to: u32) -> u32
    ensures least { marking ≤ result }
    ensures client { 0 < marked_to → c ≤ result }
    ensures most { c ≤ 16 → marking ≤ 16 → result ≤ 16 }
{
    if marked_to == 0 || c <= marking {
        return marking;
    }
    c
}
