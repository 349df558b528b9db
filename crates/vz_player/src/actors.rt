//! Actors, which are the display and the clients, and the numbers of their steps.
ghost use Rattle.std.specs.Prelude.{◌≡◌, ◌<◌, ◌+◌, ◌++◌, ◌∷◌, replicate, take, drop, slice_index_or};
ghost use Rattle.std.specs.List.{All};
ghost use Rattle.vz_rules.specs.declared.entry.Entry.{Entry as OneEntry};
ghost use Rattle.vz_player.specs.Played.{next_number, actor_in, HasCounted};

use std::marker::Model;
use vz_base::limits::MOST_FILES;
use vz_outside::Turn;
use vz_rules::{Entry, Event};

/// The greatest number of actors: the display and the clients of a plan.
pub const MOST_ACTORS: usize = MOST_FILES + 1;

/// The number of the display.
pub(crate) const DISPLAY: u32 = 0;

/// How many steps each actor has taken: first the display's number, then each client's. A number
/// does not rise above `u64::MAX`.
#[derive(Drop)]
pub struct Actors {
    taken: [u64; MOST_ACTORS],
}

impl Model for Actors {
    ghost use Rattle.std.specs.Prelude.{List, ℕ};

    ghost Value = { List ℕ };

    ghost view = { λ a. a.taken };
}

impl Actors {
    /// Starts with no step taken.
    pub fn new() -> Actors
        ensures { result ≡ replicate MOST_ACTORS 0 }
    {
        Actors {
            taken: [0; MOST_ACTORS],
        }
    }

    /// Counts the steps of a history. Condition: each entry is a step of one of the actors.
    pub fn after(history: &[Entry]) -> Actors
        requires { All (λ (e : OneEntry). actor_in e.event < MOST_ACTORS) history.now }
        ensures { HasCounted MOST_ACTORS history.now result }
    {
        let mut actors = Actors::new();
        for entry in history {
            actors.count(actor_of(entry.event));
        }
        actors
    }

    /// The name of an actor's next step for a gate. Condition: it is one of the actors.
    pub fn next_turn(&self, actor: u32) -> Turn
        requires { actor < MOST_ACTORS }
        ensures actor { result.actor ≡ actor }
        ensures number { result.number ≡ next_number (slice_index_or self.now actor 0) }
    {
        Turn {
            actor,
            number: self.taken[actor as usize].saturating_add(1),
        }
    }

    /// Counts a step of an actor that was taken. Condition: it is one of the actors.
    pub fn count(&mut self, actor: u32)
        requires { actor < MOST_ACTORS }
        ensures { self.new ≡ take actor self.old
            ++ next_number (slice_index_or self.old actor 0) ∷ drop (actor + 1) self.old }
    {
        self.taken[actor as usize] = self.taken[actor as usize].saturating_add(1);
    }
}

/// The actor whose step an event is: 0 for the display, or the number of the client.
pub fn actor_of(event: Event) -> u32
    ensures { result ≡ actor_in event }
{
    match event {
        Event::Client(client) => client,
        _ => 0,
    }
}
