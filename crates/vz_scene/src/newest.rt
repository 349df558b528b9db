//! The newest of some surfaces, so that it is found fast whether one of them is a given surface
//! or a newer one of its group.
ghost use Rattle.std.specs.Prelude.{◌≡◌, ◌||◌, ◌++◌, ◌∷◌, [], IfOk, OnOk, OnErr};
ghost use Rattle.std.specs.Option.{option_copied};
ghost use Rattle.vz_ids.specs.declared.SurfaceId.{SurfaceId as Surface};
ghost use Rattle.vz_ids.specs.Ids.{at_least};
ghost use Rattle.vz_scene.specs.Reached.{is_at_least_in, reaches, is_reached};

use std::alloc::{AllocError, Global};
use std::collections::BTreeMap;
use std::marker::Model;
use vz_ids::{GroupKey, SurfaceId};

/// Some surfaces, and the newest of them: one of each group, and in a list those that are neither
/// newer nor older than it. A client's surfaces of one group never need that list.
#[derive(Drop)]
pub struct Newest {
    all: Vec<SurfaceId>,
    groups: BTreeMap<GroupKey, SurfaceId>,
    others: Vec<SurfaceId>,
}

impl Model for Newest {
    ghost use Rattle.std.specs.Prelude.{List};
    ghost use Rattle.vz_ids.specs.declared.SurfaceId.{SurfaceId};
    ghost use Rattle.vz_scene.specs.Reached.{AreNewest};

    ghost Value = { List SurfaceId };

    ghost view = { λ n. n.all.items };

    ghost invariant = { λ n. AreNewest n.groups n.others.items n.all.items };
}

/// Notes a surface as one of the newest, unless it or a newer one is noted already.
fn put(
    groups: &mut BTreeMap<GroupKey, SurfaceId>,
    others: &mut Vec<SurfaceId>,
    id: &SurfaceId,
) -> Result<(), AllocError>
    ensures ok { (d : Surface) → OnOk result (reaches groups.new others.new.items d
        ≡ (reaches groups.old others.old.items d || at_least id.now d)) }
    ensures err { (d : Surface) → OnErr result (reaches groups.new others.new.items d
        ≡ reaches groups.old others.old.items d) }
{
    let key = id.group();
    match groups.get(&key) {
        None => {
            groups.insert(key, *id)?;
            Ok(())
        }
        Some(newest) => {
            if newest.is_at_least(id) {
                return Ok(());
            }
            if id.is_at_least(newest) {
                groups.insert(key, *id)?;
                return Ok(());
            }
            others.push(*id)?;
            Ok(())
        }
    }
}

impl Newest {
    /// Creates an empty set.
    pub fn new(alloc: Global) -> Newest
        ensures { result ≡ [] }
    {
        Newest {
            all: Vec::new(alloc),
            groups: BTreeMap::new(alloc),
            others: Vec::new(alloc),
        }
    }

    /// Whether one of the surfaces is `d` or a newer one of its group.
    pub fn has(&self, d: &SurfaceId) -> bool
        ensures { result ≡ is_reached self.now d.now }
    {
        is_at_least_in(self.groups.get(&d.group()), d) || is_one_at_least(&self.others, d)
    }

    /// Adds a surface. The only error is a failed allocation.
    pub fn add(&mut self, id: &SurfaceId) -> Result<(), AllocError>
        ensures { OnOk result (self.new ≡ self.old ++ id.now ∷ []) }
    {
        self.all.try_reserve(1)?;
        put(&mut self.groups, &mut self.others, id)?;
        self.all.push_reserved(*id);
        Ok(())
    }

    /// Makes the set of these surfaces. The only error is a failed allocation.
    pub fn of(alloc: Global, ids: &[SurfaceId]) -> Result<Newest, AllocError>
        ensures { IfOk result (λ n. n ≡ ids.now) }
    {
        let mut newest = Newest::new(alloc);
        for id in ids {
            newest.add(id)?;
        }
        Ok(newest)
    }
}

/// Whether a surface is given that is `d` or a newer one of its group.
fn is_at_least_in(newest: Option<&SurfaceId>, d: &SurfaceId) -> bool
    ensures { result ≡ is_at_least_in (option_copied newest.entry) d.now }
{
    match newest {
        None => false,
        Some(id) => id.is_at_least(d),
    }
}

/// Whether one of these surfaces is `d` or a newer one of its group.
fn is_one_at_least(ids: &[SurfaceId], d: &SurfaceId) -> bool
    ensures { result ≡ is_reached ids.now d.now }
{
    ids.iter().any(|id| id.is_at_least(d))
}
