//! The returned resources that a client has not reclaimed yet.
ghost use Rattle.std.specs.Prelude.{◌≡◌, ℕ, ◌≤◌, ◌<◌, ◌+◌, not, ◌&&◌, ◌==◌, nat_eq, [], ◌∷◌, ◌++◌, length, IsOk, OnOk, OnErr};
ghost use Rattle.std.specs.List.{list_any};
ghost use Rattle.indexmap.specs.IndexSet.{contains, spare as spare_of};

use indexmap::IndexSet;
use std::alloc::Global;
use std::marker::Model;
use vz_base::Memory;
use vz_frame::Room;
use vz_rules::Returned;

/// Returned resources in the order in which they were appended. Contracts see them, and the room
/// that was reserved before. An index of their ids saves a search.
#[derive(Drop)]
pub(crate) struct Queue {
    list: Vec<Returned>,
    ids: IndexSet<u32>,
}

impl Model for Queue {
    ghost use Rattle.std.specs.Prelude.{◌≡◌, ℕ, ◌-◌, min, nat_eq, ◌==◌, vec_len, vec_capacity};
    ghost use Rattle.std.specs.List.{list_any};
    ghost use Rattle.indexmap.specs.IndexSet.{contains, spare as spare_of};
    ghost use Rattle.vz_frame.specs.Roomy.{Roomy};
    ghost use Rattle.vz_rules.specs.declared.entry.Returned.{Returned};

    ghost Value = { Roomy Returned };

    ghost view = { λ a. record {
      list = a.list.items;
      spare = min (vec_capacity a.list - vec_len a.list) (spare_of a.ids);
    } };

    ghost invariant = { λ a. (id : ℕ)
        → contains nat_eq a.ids id ≡ list_any (λ r. r.id == id) a.list.items };
}

impl Queue {
    /// Creates an empty queue.
    pub(crate) fn new(alloc: Global) -> Queue
        ensures { result.list ≡ [] }
    {
        Queue {
            list: Vec::new(alloc),
            ids: IndexSet::new(alloc),
        }
    }

    /// Makes room for at least `n` and `more` resources together.
    pub(crate) fn reserve(&mut self, n: usize, more: usize) -> Result<(), Memory>
        ensures list { self.new.list ≡ self.old.list }
        ensures ok { OnOk result (n + more ≤ self.new.spare) }
        ensures succeeds { n + more ≤ self.old.spare → IsOk result }
        ensures spare { self.old.spare ≤ self.new.spare }
    {
        match n.checked_add(more) {
            Some(all) => {
                self.list.try_reserve(all)?;
                self.ids.reserve(all)?;
                Ok(())
            }
            None => Err(Memory),
        }
    }

    /// How many returned resources are in the queue.
    pub(crate) fn len(&self) -> usize
        ensures { result ≡ length self.now.list }
    {
        self.list.len()
    }

    /// Whether a return of a resource is in the queue.
    pub(crate) fn has(&self, id: u32) -> bool
        ensures { result ≡ list_any (λ r. r.id == id) self.now.list }
    {
        self.ids.contains(&id)
    }

    /// Appends a returned resource. It allocates nothing. Condition: there is room for one.
    pub(crate) fn put(&mut self, returned: Returned)
        requires { 0 < self.old.spare }
        ensures list { self.new.list ≡ self.old.list ++ returned ∷ [] }
        ensures spare { self.old.spare ≤ self.new.spare + 1 }
    {
        self.ids.insert(returned.id).unwrap();
        self.list.push_reserved(returned);
    }

    /// Appends the whole queue to `out` and empties it. Condition: `out` has room for all.
    pub(crate) fn take(&mut self, out: &mut Room<Returned>)
        requires { length self.old.list ≤ out.old.spare }
        ensures out { out.new.list ≡ out.old.list ++ self.old.list }
        ensures list { self.new.list ≡ [] }
        ensures spare { self.old.spare ≤ self.new.spare }
        ensures room { out.old.spare ≡ out.new.spare + length self.old.list }
    {
        put_all(&self.list, out);
        forget_all(&self.list, &mut self.ids);
        self.list.clear();
    }
}

/// Appends all of a list.
fn put_all(list: &[Returned], out: &mut Room<Returned>)
    requires { length list.now ≤ out.old.spare }
    ensures list { out.new.list ≡ out.old.list ++ list.now }
    ensures room { out.old.spare ≡ out.new.spare + length list.now }
{
    for returned in list {
        out.put(*returned);
    }
}

/// Removes the ids of a list from the index.
fn forget_all(list: &[Returned], ids: &mut IndexSet<u32>)
    ensures others { (id : ℕ) → contains nat_eq ids.new id
        ≡ (not (list_any (λ r. r.id == id) list.now) && contains nat_eq ids.old id) }
    ensures spare { spare_of ids.old ≤ spare_of ids.new }
{
    for returned in list {
        ids.swap_remove(&returned.id);
    }
}
