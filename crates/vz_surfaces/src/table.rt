//! The surfaces that exist, each found by its id.
ghost use Rattle.std.specs.Prelude.{◌≡◌, ◌<◌, ◌+◌, ◌&&◌, not, false, Some, None, if◌then◌else◌, is_some, length, OnOk};
ghost use Rattle.std.specs.Option.{option_copied, option_map};
ghost use Rattle.vz_ids.specs.declared.SurfaceId.{SurfaceId as Id};
ghost use Rattle.vz_surfaces.specs.declared.table.Surface.{Surface as Kept};
ghost use Rattle.vz_surfaces.specs.Memory.{is_key, key_at, under, look, IsKeyed, HasSame, HasSpare, holding, raised, empty_surface};
ghost use Rattle.vz_surfaces.specs.Chains.{acting_under};

use crate::groups::Link;
use crate::held::Held;
use crate::named::NamedFrame;
use indexmap::IndexMap;
use slab::Slab;
use std::alloc::Global;
use std::mem;
use vz_base::Memory;
use vz_frame::ShortList;
use vz_ids::{Sub, SurfaceId};
use vz_pixels::PixelBlock;

/// A surface that exists.
#[derive(Drop)]
pub(crate) struct Surface {
    /// The client that created it.
    pub(crate) client: u32,
    /// Its number among those that the client created, from 1 on.
    pub(crate) number: u32,
    /// How many submissions were accepted on it.
    pub(crate) accepted: u32,
    /// Its waiting submission, or None.
    pub(crate) waiting: Option<Held>,
    /// Its active submission, or None.
    pub(crate) active: Option<Held>,
}

/// The surfaces that exist. Each stays at its place in memory, under a key, until it is removed.
/// Its key is found by its id.
#[derive(Drop)]
pub(crate) struct Table {
    surfaces: Slab<Surface>,
    keys: IndexMap<SurfaceId, usize>,
}

impl Table {
    /// Creates an empty table. It allocates nothing.
    pub(crate) fn new(alloc: Global) -> Table
        ensures none { (q : Id) → look result q ≡ None }
        ensures len { length result.keys.entries ≡ 0 }
        ensures keyed { IsKeyed result }
    {
        Table {
            surfaces: Slab::new(alloc),
            keys: IndexMap::new(alloc),
        }
    }

    /// Makes room for one more surface.
    pub(crate) fn reserve(&mut self) -> Result<(), Memory>
        ensures same { HasSame self.old self.new }
        ensures room { OnOk result (HasSpare self.new) }
    {
        self.surfaces.reserve(1)?;
        self.keys.reserve(1)?;
        Ok(())
    }

    /// How many surfaces exist.
    pub(crate) fn len(&self) -> usize
        ensures { result ≡ length self.now.keys.entries }
    {
        self.keys.len()
    }

    /// The surface with an id, or None if it does not exist.
    pub(crate) fn get(&self, id: &SurfaceId) -> Option<&Surface>
        ensures { option_copied result ≡ look self.now id.now }
    {
        match self.keys.get(id) {
            None => None,
            Some(key) => self.surfaces.get(*key),
        }
    }

    /// The surface under a key, if there is one.
    pub(crate) fn by_key(&self, key: usize) -> Option<&Surface>
        ensures { option_copied result ≡ under self.now key }
    {
        self.surfaces.get(key)
    }

    /// The key that the next surface will get.
    pub(crate) fn next_key(&self) -> usize
        ensures { result ≡ self.now.surfaces.vacant_key }
    {
        self.surfaces.vacant_key()
    }

    /// Whether there is a surface under a key that has an active submission.
    pub(crate) fn has_active(&self, key: usize) -> bool
        ensures { result ≡ is_some (acting_under self.now key) }
    {
        match self.surfaces.get(key) {
            None => false,
            Some(surface) => surface.active.is_some(),
        }
    }

    /// The active submission of the surface under a key, if there is one.
    pub(crate) fn active(&self, key: usize) -> Option<&Held>
        ensures { option_copied result ≡ acting_under self.now key }
    {
        match self.surfaces.get(key) {
            None => None,
            Some(surface) => surface.active.as_ref(),
        }
    }

    /// Adds a surface. Conditions: it is not in the table, and there is room for one.
    fn put(&mut self, id: SurfaceId, surface: Surface)
        requires keyed { IsKeyed self.old }
        requires new { look self.old id ≡ None }
        requires room { HasSpare self.old }
        ensures surfaces { (q : Id) → look self.new q
            ≡ (if is_key id q then Some surface else look self.old q) }
        ensures keys { (q : Id) → key_at self.new q
            ≡ (if is_key id q then Some self.old.surfaces.vacant_key else key_at self.old q) }
        ensures len { length self.new.keys.entries ≡ length self.old.keys.entries + 1 }
        ensures keyed { IsKeyed self.new }
    {
        let key = self.surfaces.insert_reserved(surface);
        self.keys.insert(id, key).unwrap();
    }

    /// Adds a new surface of a client that created `created` before, unless it is the client's
    /// last one. Conditions: if it is new, it is not in the table and there is room for one; and
    /// its number does not overflow.
    pub(crate) fn open(&mut self, id: SurfaceId, client: u32, created: u32, last: bool)
        requires keyed { IsKeyed self.old }
        requires new { last ≡ false → look self.old id ≡ None }
        requires room { HasSpare self.old }
        requires few { created < u32.MAX }
        ensures surfaces { (q : Id) → look self.new q
            ≡ (if not last && is_key id q then Some (empty_surface client (created + 1))
            else look self.old q) }
        ensures keys { (q : Id) → key_at self.new q
            ≡ (if not last && is_key id q then Some self.old.surfaces.vacant_key
            else key_at self.old q) }
        ensures len { length self.new.keys.entries
            ≡ length self.old.keys.entries + (if last then 0 else 1) }
        ensures keyed { IsKeyed self.new }
    {
        if last {
            return;
        }
        self.put(
            id,
            Surface {
                client,
                number: created + 1,
                accepted: 0,
                waiting: None,
                active: None,
            },
        );
    }

    /// Makes a submission wait on a surface, in place of the one that waited. Returns its number
    /// on the surface, the one that waited, if one did, and the surface's key. Conditions: the
    /// surface is in the table, and the number does not overflow.
    pub(crate) fn hold(
        &mut self,
        id: &SurfaceId,
        sub: Sub,
        frame: NamedFrame,
        blocks: ShortList<PixelBlock>,
    ) -> (u32, Option<Held>, usize)
        requires keyed { IsKeyed self.old }
        requires there { (s : Kept) × (look self.old id.now ≡ Some s) × (s.accepted < u32.MAX) }
        ensures surfaces { (q : Id) → look self.new q
            ≡ (if is_key id.now q then option_map (holding sub frame blocks) (look self.old q)
            else look self.old q) }
        ensures index { (s : Kept) → look self.old id.now ≡ Some s → result.0 ≡ s.accepted + 1 }
        ensures replaced { (s : Kept) → look self.old id.now ≡ Some s
            → result.1 ≡ s.waiting }
        ensures key { key_at self.new id.now ≡ Some result.2 }
        ensures keys { self.new.keys.entries ≡ self.old.keys.entries }
        ensures keyed { IsKeyed self.new }
    {
        let Some(key) = self.keys.get(id) else {
            unreachable!()
        };
        match self.surfaces.get_mut(*key) {
            None => unreachable!(),
            Some(surface) => {
                let (index, replaced) = wait(surface, sub, frame, blocks);
                (index, replaced, *key)
            }
        }
    }

    /// Makes the submission that waits on a surface its active one. Returns the number of the
    /// surface, and the submission that was active, if there was one. Condition: the surface is in
    /// the table, and the link has its key.
    pub(crate) fn raise(&mut self, link: &Link) -> (u32, Option<Sub>)
        requires keyed { IsKeyed self.old }
        requires there { key_at self.old link.now.id ≡ Some link.now.key }
        ensures surfaces { (q : Id) → look self.new q ≡ (if is_key link.now.id q
            then option_map raised (look self.old q) else look self.old q) }
        ensures number { (s : Kept) → look self.old link.now.id ≡ Some s → result.0 ≡ s.number }
        ensures past { (s : Kept) → look self.old link.now.id ≡ Some s
            → result.1 ≡ option_map (λ h. h.sub) s.active }
        ensures keys { self.new.keys.entries ≡ self.old.keys.entries }
        ensures keyed { IsKeyed self.new }
    {
        match self.surfaces.get_mut(link.key) {
            None => unreachable!(),
            Some(surface) => rise(surface),
        }
    }

    /// Removes a surface and returns it, if it was in the table.
    pub(crate) fn remove(&mut self, id: &SurfaceId) -> Option<Surface>
        requires { IsKeyed self.old }
        ensures gone { result ≡ look self.old id.now }
        ensures surfaces { (q : Id) → look self.new q
            ≡ (if is_key id.now q then None else look self.old q) }
        ensures keys { (q : Id) → key_at self.new q
            ≡ (if is_key id.now q then None else key_at self.old q) }
        ensures len { (s : Kept) → look self.old id.now ≡ Some s
            → length self.new.keys.entries + 1 ≡ length self.old.keys.entries }
        ensures keyed { IsKeyed self.new }
    {
        match self.keys.swap_remove(id) {
            None => None,
            Some(key) => self.surfaces.try_remove(key),
        }
    }
}

/// Makes a submission wait on a surface, in place of the one that waited.
fn wait(
    surface: &mut Surface,
    sub: Sub,
    frame: NamedFrame,
    blocks: ShortList<PixelBlock>,
) -> (u32, Option<Held>)
    requires { surface.old.accepted < u32.MAX }
    ensures surface { surface.new ≡ holding sub frame blocks surface.old }
    ensures index { result.0 ≡ surface.old.accepted + 1 }
    ensures replaced { result.1 ≡ surface.old.waiting }
{
    let index = surface.accepted + 1;
    let held = Held {
        sub,
        index,
        frame,
        blocks,
    };
    surface.accepted = index;
    let replaced = mem::replace(&mut surface.waiting, Some(held));
    (index, replaced)
}

/// Makes the submission that waits the active one.
fn rise(surface: &mut Surface) -> (u32, Option<Sub>)
    ensures surface { surface.new ≡ raised surface.old }
    ensures number { result.0 ≡ surface.old.number }
    ensures past { result.1 ≡ option_map (λ h. h.sub) surface.old.active }
{
    let risen = mem::replace(&mut surface.waiting, None);
    let past = mem::replace(&mut surface.active, risen);
    (surface.number, sub_of(&past))
}

/// The client and ordinal of a submission, if there is one.
pub(crate) fn sub_of(held: &Option<Held>) -> Option<Sub>
    ensures { result ≡ option_map (λ h. h.sub) held.now }
{
    match held {
        None => None,
        Some(held) => Some(held.sub),
    }
}
