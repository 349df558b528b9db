//! Short lists: a list that keeps one value itself, and room for such a list.
ghost use Rattle.std.specs.Prelude.{◌≡◌, ◌==◌, [], ◌∷◌, length, true, option_to_list, IfOk, IsOk, OnOk, OnErr};

use crate::{List, Room};
use std::alloc::Global;
use std::marker::Model;
use std::mem;
use vz_base::Memory;

/// Where the values of a short list are.
#[derive(Drop)]
enum Kept<T> {
    /// There is none.
    None,
    /// The only one, in the list itself.
    One([T; 1]),
    /// Several, at a place of their own.
    Many(Box<Vec<T>>),
}

/// A list that takes no memory for none or one value, as most effects of a step have. Contracts
/// see the values in order, and nothing else of it.
#[derive(Drop)]
pub struct ShortList<T> {
    kept: Kept<T>,
}

impl<T> Model for ShortList<T> {
    ghost use Rattle.std.specs.Prelude.{List as Row};
    ghost use Rattle.vz_frame.specs.Short.{kept_values};

    ghost Value = { Row T };

    ghost view = { λ a. kept_values a.kept };
}

impl<T> ShortList<T> {
    /// Makes an empty list. It takes no memory.
    pub fn new() -> ShortList<T>
        ensures { result ≡ [] }
    {
        ShortList { kept: Kept::None }
    }

    /// Makes a list of one value. It takes no memory.
    pub fn one(value: T) -> ShortList<T>
        ensures { result ≡ value ∷ [] }
    {
        ShortList {
            kept: Kept::One([value]),
        }
    }

    /// The values in order.
    pub fn as_slice(&self) -> &[T]
        ensures { result.now ≡ self.now }
    {
        match &self.kept {
            Kept::None => &[],
            Kept::One(values) => values,
            Kept::Many(values) => values.as_slice(),
        }
    }

    /// How many values it has.
    pub fn len(&self) -> usize
        ensures { result ≡ length self.now }
    {
        self.as_slice().len()
    }

    /// Whether it has no value.
    pub fn is_empty(&self) -> bool
        ensures { result ≡ (length self.now == 0) }
    {
        self.as_slice().is_empty()
    }

    /// Makes a list of a value, if there is one.
    fn of(value: Option<T>) -> ShortList<T>
        ensures { result ≡ option_to_list value }
    {
        match value {
            None => ShortList::new(),
            Some(value) => ShortList::one(value),
        }
    }
}

impl<T: Drop> ShortList<T> {
    /// Makes a short list of a list's values. The only error is `Memory`, and it does not come if
    /// the list has none or one.
    pub fn from_list(alloc: Global, list: List<T>) -> Result<ShortList<T>, Memory>
        ensures { IfOk result (λ short. short ≡ list) }
    {
        let mut values = list.into_vec();
        if values.len() < 2 {
            return Ok(ShortList::of(values.pop()));
        }
        let place = Box::new(alloc, values)?;
        Ok(ShortList {
            kept: Kept::Many(place),
        })
    }
}

/// Room for a short list, for steps that may not fail once they have begun. Contracts see whether
/// there is room.
#[derive(Drop)]
pub struct ShortRoom<T> {
    place: Option<Box<Vec<T>>>,
}

impl<T> Model for ShortRoom<T> {
    ghost use Rattle.std.specs.Prelude.{Bool, is_some};

    ghost Value = { Bool };

    ghost view = { λ r. is_some r.place };
}

impl<T: Drop> ShortRoom<T> {
    /// No room. It takes no memory.
    pub fn new() -> ShortRoom<T> {
        ShortRoom { place: None }
    }

    /// Makes room. The only error is `Memory`, which does not come if there is room, and then
    /// nothing changes.
    pub fn reserve(&mut self, alloc: Global) -> Result<(), Memory>
        ensures ok { OnOk result (self.new ≡ true) }
        ensures succeeds { self.old ≡ true → IsOk result }
        ensures err { OnErr result (self.new ≡ self.old) }
    {
        if self.place.is_none() {
            let place = Box::new(alloc, Vec::new(alloc))?;
            self.place = Some(place);
        }
        Ok(())
    }

    /// Takes the values out of a list. Several go into the room with the list's own memory, which
    /// uses the room up; if there are fewer, both keep their memory. It takes no memory.
    /// Condition: there is room.
    pub fn take(&mut self, alloc: Global, list: &mut Room<T>) -> ShortList<T>
        requires { self.old ≡ true }
        ensures values { result ≡ list.old.list }
        ensures none { list.new.list ≡ [] }
    {
        if list.as_slice().len() < 2 {
            return ShortList::of(list.items.pop());
        }
        let Some(mut place) = self.place.take() else {
            unreachable!()
        };
        *place = mem::replace(&mut list.items, Vec::new(alloc));
        ShortList {
            kept: Kept::Many(place),
        }
    }
}
