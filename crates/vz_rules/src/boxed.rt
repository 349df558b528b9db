//! Effects behind a box, so that an entry is small.
ghost use Rattle.std.specs.Prelude.{◌≡◌, [], true, None, is_some, IfOk, OnOk, OnErr, IfSome};
ghost use Rattle.vz_rules.specs.Kept.{no_effects};

use crate::{Effects, Fed, Lost, Returned};
use std::alloc::Global;
use std::marker::Model;
use vz_base::Memory;
use vz_frame::{Room, ShortRoom};
use vz_ids::Sub;

/// What follows from an event, at a place of its own in memory. Contracts see the effects. If
/// nothing follows, as from most messages, it takes no memory.
#[derive(Drop)]
pub struct BoxedEffects {
    effects: Option<Box<Effects>>,
}

impl Model for BoxedEffects {
    ghost use Rattle.std.specs.Prelude.{unwrap_or};
    ghost use Rattle.std.specs.Option.{option_map};
    ghost use Rattle.vz_rules.specs.declared.entry.Effects.{Effects};
    ghost use Rattle.vz_rules.specs.Kept.{no_effects};

    ghost Value = { Effects };

    ghost view = { λ b. unwrap_or (option_map (λ x. x.value) b.effects) no_effects };
}

impl BoxedEffects {
    /// Nothing follows. It takes no memory.
    pub fn none() -> BoxedEffects
        ensures { result ≡ no_effects }
    {
        BoxedEffects { effects: None }
    }

    /// Moves effects to a place of their own, unless they are empty. The only error is `Memory`.
    pub fn new(alloc: Global, effects: Effects) -> Result<BoxedEffects, Memory>
        ensures { IfOk result (λ boxed. boxed ≡ effects) }
    {
        if effects.is_nothing() {
            return Ok(BoxedEffects::none());
        }
        let effects = Box::new(alloc, effects)?;
        Ok(BoxedEffects {
            effects: Some(effects),
        })
    }

    /// The effects, or None only if nothing follows.
    pub fn get(&self) -> Option<&Effects>
        ensures some { IfSome result (λ effects. effects.now ≡ self.now) }
        ensures none { result ≡ None → self.now ≡ no_effects }
    {
        match &self.effects {
            None => None,
            Some(effects) => Some(effects),
        }
    }
}

/// Puts effects into a place, unless they are empty: then the place stays. It takes no memory.
/// Condition: there is a place.
fn put(place: &mut Option<Box<Effects>>, effects: Effects) -> BoxedEffects
    requires { is_some place.old ≡ true }
    ensures { result ≡ effects }
{
    if effects.is_nothing() {
        return BoxedEffects::none();
    }
    let Some(mut place) = place.take() else {
        unreachable!()
    };
    *place = effects;
    BoxedEffects {
        effects: Some(place),
    }
}

/// Room for the effects of one step and for each of their lists, for steps that may not fail once
/// they have begun. Contracts see whether there is room.
#[derive(Drop)]
pub struct EffectsRoom {
    alloc: Global,
    place: Option<Box<Effects>>,
    activated: ShortRoom<Sub>,
    destroyed: ShortRoom<Lost>,
    returned: ShortRoom<Returned>,
    fed: ShortRoom<Fed>,
}

impl Model for EffectsRoom {
    ghost use Rattle.std.specs.Prelude.{Bool, ◌&&◌, is_some};

    ghost Value = { Bool };

    ghost view = { λ r. is_some r.place && r.activated && r.destroyed && r.returned && r.fed };
}

impl EffectsRoom {
    /// No room, which will be made on this allocator. It takes no memory.
    pub fn new(alloc: Global) -> EffectsRoom {
        EffectsRoom {
            alloc,
            place: None,
            activated: ShortRoom::new(),
            destroyed: ShortRoom::new(),
            returned: ShortRoom::new(),
            fed: ShortRoom::new(),
        }
    }

    /// Makes room. The only error is `Memory`, and then there is room exactly if there was before.
    pub fn reserve(&mut self) -> Result<(), Memory>
        ensures ok { OnOk result (self.new ≡ true) }
        ensures err { OnErr result (self.new ≡ self.old) }
    {
        if self.place.is_none() {
            let place = Box::new(self.alloc, Effects::none())?;
            self.place = Some(place);
        }
        self.activated.reserve(self.alloc)?;
        self.destroyed.reserve(self.alloc)?;
        self.returned.reserve(self.alloc)?;
        self.fed.reserve(self.alloc)
    }

    /// Takes effects out of these lists, into the room unless all are empty: then the room stays.
    /// It takes no memory. Condition: there is room.
    pub fn fill(
        &mut self,
        activated: &mut Room<Sub>,
        destroyed: &mut Room<Lost>,
        returned: &mut Room<Returned>,
        fed: &mut Room<Fed>,
    ) -> BoxedEffects
        requires { self.old ≡ true }
        ensures effects { result ≡ record {
          activated = activated.old.list;
          destroyed = destroyed.old.list;
          returned = returned.old.list;
          fed = fed.old.list;
        } }
        ensures none_activated { activated.new.list ≡ [] }
        ensures none_destroyed { destroyed.new.list ≡ [] }
        ensures none_returned { returned.new.list ≡ [] }
        ensures none_fed { fed.new.list ≡ [] }
    {
        let effects = Effects {
            activated: self.activated.take(self.alloc, activated),
            destroyed: self.destroyed.take(self.alloc, destroyed),
            returned: self.returned.take(self.alloc, returned),
            fed: self.fed.take(self.alloc, fed),
        };
        put(&mut self.place, effects)
    }
}
