//! The surfaces of each client that exist, in the order of creation.
ghost use Rattle.std.specs.Prelude.{◌≡◌, ◌≤◌, ◌<◌, ◌+◌, ◌++◌, ◌∷◌, ◌&&◌, [], ℕ, None, false, if◌then◌else◌, not, filter, map, length, nat_le, nat_eq, vec_len, vec_capacity, IsTrue, OnOk};
ghost use Rattle.std.specs.List.{Contains};
ghost use Rattle.vz_ids.specs.Ids.{same_surface};
ghost use Rattle.vz_surfaces.specs.declared.standing.Numbered.{Numbered as One};
ghost use Rattle.vz_surfaces.specs.Numbers.{list_in, list_at, has_room, Rises};

use indexmap::IndexMap;
use std::alloc::Global;
use vz_base::Memory;
use vz_frame::Room;
use vz_ids::SurfaceId;

/// A surface, with its number among those that its client created.
#[derive(Clone, Copy)]
pub(crate) struct Numbered {
    pub(crate) number: u32,
    pub(crate) id: SurfaceId,
}

/// The surfaces of a client that exist.
#[derive(Drop)]
pub(crate) struct Row {
    all: Vec<Numbered>,
}

/// The surfaces that exist, by client.
#[derive(Drop)]
pub(crate) struct Standing {
    lists: IndexMap<u32, Row>,
}

/// Makes room for one more surface.
fn spare_one(all: &mut Vec<Numbered>) -> Result<(), Memory>
    ensures items { all.new.items ≡ all.old.items }
    ensures room { OnOk result (vec_len all.new < vec_capacity all.new) }
{
    all.try_reserve(1)?;
    Ok(())
}

impl Standing {
    /// Creates an empty list. It allocates nothing.
    pub(crate) fn new(alloc: Global) -> Standing
        ensures { (q : ℕ) → list_in result q ≡ None }
    {
        Standing {
            lists: IndexMap::new(alloc),
        }
    }

    /// Makes room for one more surface of a client.
    pub(crate) fn reserve(&mut self, alloc: Global, c: u32) -> Result<(), Memory>
        ensures lists { (q : ℕ) → list_at self.new q ≡ list_at self.old q }
        ensures room { OnOk result (IsTrue (has_room self.new c)) }
    {
        match self.lists.get_mut(&c) {
            Some(row) => spare_one(&mut row.all),
            None => {
                let mut all = Vec::new(alloc);
                spare_one(&mut all)?;
                self.lists.insert(c, Row { all })?;
                Ok(())
            }
        }
    }

    /// Appends a surface of a client. Condition: there is room for one.
    fn put(&mut self, c: u32, one: Numbered)
        requires { IsTrue (has_room self.old c) }
        ensures { (q : ℕ) → list_at self.new q
            ≡ (if nat_eq c q then list_at self.old q ++ one ∷ [] else list_at self.old q) }
    {
        match self.lists.get_mut(&c) {
            None => unreachable!(),
            Some(row) => append(&mut row.all, one),
        }
    }

    /// Appends a new surface of a client that created `created` before, unless it is the client's
    /// last one. Conditions: if it is new there is room for one, and its number does not
    /// overflow.
    pub(crate) fn open(&mut self, c: u32, created: u32, id: SurfaceId, last: bool)
        requires room { last ≡ false → IsTrue (has_room self.old c) }
        requires few { created < u32.MAX }
        ensures { (q : ℕ) → list_at self.new q
            ≡ (if not last && nat_eq c q
            then list_at self.old q ++ record { number = created + 1; id = id } ∷ []
            else list_at self.old q) }
    {
        if last {
            return;
        }
        self.put(
            c,
            Numbered {
                number: created + 1,
                id,
            },
        );
    }

    /// Removes a surface of a client.
    pub(crate) fn remove(&mut self, c: u32, id: &SurfaceId)
        ensures { (q : ℕ) → list_at self.new q
            ≡ (if nat_eq c q
            then filter (λ (x : One). not (same_surface x.id id.now)) (list_at self.old q)
            else list_at self.old q) }
    {
        if let Some(row) = self.lists.get_mut(&c) {
            forget(&mut row.all, id);
        }
    }

    /// Appends the surfaces of a client whose number is `to` or less, in the order of creation;
    /// for 0 there are none. Conditions: numbers rise from 1, and there is room for the surfaces.
    pub(crate) fn put_to(&self, c: u32, to: u32, out: &mut Room<SurfaceId>)
        requires rise { Rises (list_at self.now c) }
        requires first { (x : One) → Contains (list_at self.now c) x → 1 ≤ x.number }
        requires room { length (filter (λ (x : One). nat_le x.number to) (list_at self.now c))
            ≤ out.old.spare }
        ensures list { out.new.list ≡ out.old.list
            ++ map (λ (x : One). x.id) (filter (λ (x : One). nat_le x.number to)
            (list_at self.now c)) }
        ensures spare { out.old.spare ≡ out.new.spare
            + length (filter (λ (x : One). nat_le x.number to) (list_at self.now c)) }
    {
        if to == 0 {
            return;
        }
        if let Some(row) = self.lists.get(&c) {
            put_all(up_to(&row.all, to), out);
        }
    }
}

/// Appends a surface. Condition: there is room for it.
fn append(all: &mut Vec<Numbered>, one: Numbered)
    requires { vec_len all.old < vec_capacity all.old }
    ensures { all.new.items ≡ all.old.items ++ one ∷ [] }
{
    all.push_reserved(one);
}

/// Whether a surface is another one.
fn differs(one: &Numbered, id: &SurfaceId) -> bool
    ensures { result ≡ not (same_surface one.now.id id.now) }
{
    one.id != *id
}

/// Removes a surface from a list.
fn forget(list: &mut Vec<Numbered>, id: &SurfaceId)
    ensures { list.new.items
        ≡ filter (λ (x : One). not (same_surface x.id id.now)) list.old.items }
{
    list.retain(|one| differs(one, id));
}

/// The part of a list up to a number. Condition: numbers rise.
fn up_to(list: &[Numbered], to: u32) -> &[Numbered]
    requires { Rises list.now }
    ensures { result.now ≡ filter (λ (x : One). nat_le x.number to) list.now }
{
    let count = list.partition_point(|one| one.number <= to);
    &list[..count]
}

/// Appends these surfaces. Condition: there is room for them.
fn put_all(list: &[Numbered], out: &mut Room<SurfaceId>)
    requires { length list.now ≤ out.old.spare }
    ensures list { out.new.list ≡ out.old.list ++ map (λ (x : One). x.id) list.now }
    ensures spare { out.old.spare ≡ out.new.spare + length list.now }
{
    for one in list {
        out.put(one.id);
    }
}
