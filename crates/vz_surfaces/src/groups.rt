//! The surfaces that exist, by groups, so that the newest one up to a given one is found fast.
ghost use Rattle.std.specs.Prelude.{◌≡◌, ◌++◌, ◌∷◌, [], None, Some, if◌then◌else◌, not, filter, is_some, IsTrue, OnOk, OnErr};
ghost use Rattle.std.specs.Option.{option_copied};
ghost use Rattle.vz_ids.specs.declared.SurfaceId.{SurfaceId as Id};
ghost use Rattle.vz_ids.specs.Ids.{same_surface, at_least};
ghost use Rattle.vz_surfaces.specs.declared.groups.Link.{Link as One};
ghost use Rattle.vz_surfaces.specs.Chains.{is_group, group_at, links_at, ids_of, chain_at, newest_at, reaches, newer_local, IsRising, last_acting, newest_to};

use crate::table::Table;
use indexmap::IndexMap;
use smallvec::SmallVec;
use std::alloc::Global;
use vz_base::Memory;
use vz_ids::{EmbedToken, FrameSinkId, GroupKey, LocalSurfaceId, SurfaceId};

/// A surface of a group, with its key in the table.
#[derive(Clone, Copy)]
pub(crate) struct Link {
    pub(crate) id: SurfaceId,
    pub(crate) key: usize,
}

impl Default for Link {
    ghost use Rattle.vz_surfaces.specs.Chains.{no_link};

    ghost is_default = { λ l. l ≡ no_link };

    /// A link of no surface, which fills the free places of a short list.
    fn default() -> Link {
        Link {
            id: SurfaceId {
                sink: FrameSinkId {
                    client_id: 0,
                    sink_id: 0,
                },
                local: LocalSurfaceId {
                    parent: 0,
                    child: 0,
                    token: EmbedToken(0),
                },
            },
            key: 0,
        }
    }
}

/// How many surfaces of a group are kept without an allocation of their own.
const FEW: usize = 2;

/// The surfaces of a group that exist, each newer than those before it, and the newest surface of
/// the group that was ever active, even if it no longer exists.
#[derive(Drop)]
pub(crate) struct Group {
    chain: SmallVec<Link, FEW>,
    newest: Option<LocalSurfaceId>,
}

/// The surfaces that exist, by groups.
#[derive(Drop)]
pub(crate) struct Groups {
    groups: IndexMap<GroupKey, Group>,
}

/// Appends a surface.
fn append(chain: &mut SmallVec<Link, FEW>, link: Link) -> Result<(), Memory>
    ensures ok { OnOk result (chain.new.items ≡ chain.old.items ++ link ∷ []) }
    ensures err { OnErr result (chain.new.items ≡ chain.old.items) }
{
    chain.push(link)?;
    Ok(())
}

impl Groups {
    /// Creates an index without groups. It allocates nothing.
    pub(crate) fn new(alloc: Global) -> Groups
        ensures { (q : Id) → group_at result q ≡ None }
    {
        Groups {
            groups: IndexMap::new(alloc),
        }
    }

    /// Adds a surface, the newest of its group.
    pub(crate) fn add(&mut self, alloc: Global, link: Link) -> Result<(), Memory>
        ensures chain { (q : Id) → OnOk result (links_at self.new q
            ≡ (if is_group link.id q then links_at self.old q ++ link ∷ []
            else links_at self.old q)) }
        ensures err { (q : Id) → OnErr result (links_at self.new q ≡ links_at self.old q) }
        ensures newest { (q : Id) → newest_at self.new q ≡ newest_at self.old q }
    {
        let key = link.id.group();
        match self.groups.get_mut(&key) {
            Some(group) => append(&mut group.chain, link),
            None => {
                let mut chain = SmallVec::new(alloc);
                append(&mut chain, link)?;
                self.groups.insert(
                    key,
                    Group {
                        chain,
                        newest: None,
                    },
                )?;
                Ok(())
            }
        }
    }

    /// Notes that a surface became active. Condition: its group is in the index.
    pub(crate) fn note_active(&mut self, id: &SurfaceId)
        requires { IsTrue (is_some (group_at self.old id.now)) }
        ensures chain { (q : Id) → links_at self.new q ≡ links_at self.old q }
        ensures newest { (q : Id) → newest_at self.new q
            ≡ (if is_group id.now q then newer_local id.now.local (newest_at self.old q)
            else newest_at self.old q) }
    {
        if let Some(group) = self.groups.get_mut(&id.group()) {
            group.newest = newer_of(group.newest, id.local);
        }
    }

    /// Removes a surface.
    pub(crate) fn remove(&mut self, id: &SurfaceId)
        ensures chain { (q : Id) → links_at self.new q
            ≡ (if is_group id.now q
            then filter (λ (l : One). not (same_surface l.id id.now)) (links_at self.old q)
            else links_at self.old q) }
        ensures newest { (q : Id) → newest_at self.new q ≡ newest_at self.old q }
    {
        if let Some(group) = self.groups.get_mut(&id.group()) {
            forget(&mut group.chain, id);
        }
    }

    /// Whether the surface `d`, or a newer one of its group, was ever active.
    pub(crate) fn was_active(&self, d: &SurfaceId) -> bool
        ensures { result ≡ reaches (newest_at self.now d.now) d.now }
    {
        match self.groups.get(&d.group()) {
            None => false,
            Some(group) => match group.newest {
                None => false,
                Some(local) => {
                    let newest = SurfaceId {
                        sink: d.sink,
                        local,
                    };
                    newest.is_at_least(d)
                }
            },
        }
    }

    /// The newest surface with an active frame that is `end` or an older one of its group, or
    /// None.
    #[tactic(auto, unfolding(crate::specs::Chains::last_acting))]
    pub(crate) fn newest_up_to<'a>(&'a self, end: &SurfaceId, table: &Table) -> Option<&'a Link>
        requires { IsRising (chain_at self.now end.now) }
        ensures { option_copied result ≡ newest_to table.now self.now end.now }
    {
        match self.groups.get(&end.group()) {
            None => None,
            Some(group) => last_active(up_to(group.chain.as_slice(), end), table),
        }
    }

    /// The newest surface with an active frame in the group of a surface, or None.
    #[tactic(auto, unfolding(crate::specs::Chains::last_acting))]
    pub(crate) fn newest<'a>(&'a self, start: &SurfaceId, table: &Table) -> Option<&'a Link>
        ensures { option_copied result ≡ last_acting table.now (links_at self.now start.now) }
    {
        match self.groups.get(&start.group()) {
            None => None,
            Some(group) => last_active(group.chain.as_slice(), table),
        }
    }
}

/// The newer one of two surfaces of a group.
#[tactic(auto, unfolding(crate::specs::Chains::newer_local))]
fn newer_of(newest: Option<LocalSurfaceId>, local: LocalSurfaceId) -> Option<LocalSurfaceId>
    ensures { result ≡ newer_local local newest }
{
    match newest {
        Some(other) if !local.newer(&other) => Some(other),
        _ => Some(local),
    }
}

/// Whether a link is that of another surface.
fn differs(link: &Link, id: &SurfaceId) -> bool
    ensures { result ≡ not (same_surface link.now.id id.now) }
{
    link.id != *id
}

/// Removes a surface from a list.
fn forget(chain: &mut SmallVec<Link, FEW>, id: &SurfaceId)
    ensures { chain.new.items
        ≡ filter (λ (l : One). not (same_surface l.id id.now)) chain.old.items }
{
    chain.retain(|link| differs(link, id));
}

/// The part of a chain up to a surface: that surface and older ones.
fn up_to<'a>(chain: &'a [Link], end: &SurfaceId) -> &'a [Link]
    requires { IsRising (ids_of chain.now) }
    ensures { result.now ≡ filter (λ (l : One). at_least end.now l.id) chain.now }
{
    let count = chain.partition_point(|link| end.is_at_least(&link.id));
    &chain[..count]
}

/// The last link of a chain whose surface has an active frame, or None.
#[tactic(auto, unfolding(crate::specs::Chains::last_acting))]
fn last_active<'a>(chain: &'a [Link], table: &Table) -> Option<&'a Link>
    ensures { option_copied result ≡ last_acting table.now chain.now }
{
    let mut left = chain.len();
    while left > 0 {
        left -= 1;
        let link = &chain[left];
        if table.has_active(link.key) {
            return Some(link);
        }
    }
    None
}
