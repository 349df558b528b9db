//! A list that only clauses read.
ghost use Rattle.std.specs.Prelude.{◌≡◌, [], ◌∷◌, ◌++◌};

use std::marker::Model;
use std::mem;
use std::snapshot::Snapshot;

/// A list that grows by one value at a time, with the newest in front. A link is made when a
/// value is shown, and dropped at once.
#[derive(Drop)]
pub(crate) enum Link<E> {
    Start,
    After(Snapshot<E>, Snapshot<Link<E>>),
}

/// All values that were shown to it, in the order of the calls. It takes no bytes. A value that
/// was shown may still be moved, changed and dropped.
#[derive(Drop)]
pub struct GhostList<E> {
    last: Snapshot<Link<E>>,
}

impl<E> Model for GhostList<E> {
    ghost use Rattle.std.specs.Prelude.{List};
    ghost use Rattle.vz_ghost.specs.Shown.{shown};

    ghost Value = { List E };

    ghost view = { λ g. shown g.last.value };
}

impl<E> GhostList<E> {
    /// Makes the empty list. It takes no memory.
    #[tactic(auto, unfolding(crate::specs::Shown::shown))]
    pub fn new() -> GhostList<E>
        ensures { result ≡ [] }
    {
        let start = Link::Start;
        GhostList {
            last: Snapshot::of(&start),
        }
    }

    /// Returns the list with one more value at its end.
    #[tactic(auto, unfolding(crate::specs::Shown::shown))]
    fn with(self, value: &E) -> GhostList<E>
        ensures { result ≡ self ++ value.now ∷ [] }
    {
        let GhostList { last } = self;
        let link = Link::After(Snapshot::of(value), last);
        GhostList {
            last: Snapshot::of(&link),
        }
    }

    /// Appends a value to the list. It takes no memory.
    pub fn show(&mut self, value: &E)
        ensures { self.new ≡ self.old ++ value.now ∷ [] }
    {
        let before = mem::replace(self, GhostList::new());
        *self = before.with(value);
    }
}
