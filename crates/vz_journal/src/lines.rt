//! Reads the lines of a log.
ghost use Rattle.vz_journal.specs.Giving.{Gives};
ghost use Rattle.vz_journal.specs.Reading.{plain_events, client_event_at, event_at, one_of, entry_at, held_at, open_at};

use crate::effects::{read_effects, read_return, read_sub};
use crate::item::Item;
use crate::reader::Reader;
use crate::replies::read_reply;
use crate::stop::Stop;
use std::alloc::Global;
use vz_ids::Sub;
use vz_rules::{Entry, Event, Returned};

/// Reads the number of a client and the blank after it.
#[tactic(auto, unfolding(crate::specs::Reading::client_event_at))]
fn read_client_event(input: &mut Reader) -> Result<Event, Stop>
    ensures { Gives (λ x. (x, input.new)) result (client_event_at input.old) }
{
    let client = input.client()?;
    input.word(b" ")?;
    Ok(Event::Client(client))
}

/// Reads an event of the display and the blank after it.
#[tactic(auto, unfolding(crate::specs::Reading::one_of))]
fn read_plain_event(input: &mut Reader) -> Result<Event, Stop>
    ensures { Gives (λ x. (x, input.new)) result (one_of plain_events input.old) }
{
    if input.has(b"begin ") {
        Ok(Event::Begin)
    } else if input.has(b"draw ") {
        Ok(Event::Draw)
    } else if input.has(b"done ") {
        Ok(Event::Done)
    } else if input.has(b"over ") {
        Ok(Event::Over)
    } else {
        Err(Stop::Unlike)
    }
}

/// Reads an event and the blank after it.
#[tactic(auto, unfolding(crate::specs::Reading::event_at))]
fn read_event(input: &mut Reader) -> Result<Event, Stop>
    ensures { Gives (λ x. (x, input.new)) result (event_at input.old) }
{
    if input.has(b"c") {
        read_client_event(input)
    } else {
        read_plain_event(input)
    }
}

/// The line of an entry.
#[derive(Drop)]
pub struct Entries {
    pub alloc: Global,
}

impl Item for Entries {
    type Value = Entry;

    ghost value_at = { λ _. entry_at };

    #[tactic(auto, unfolding(crate::specs::Reading::entry_at))]
    fn read(&self, input: &mut Reader) -> Result<Entry, Stop> {
        let event = read_event(input)?;
        let reply = read_reply(self.alloc, event, input)?;
        let effects = read_effects(self.alloc, input)?;
        input.word(b"\n")?;
        Ok(Entry {
            event,
            reply,
            effects,
        })
    }
}

/// The line of a resource with outstanding references.
#[derive(Drop)]
pub struct HeldLines;

impl Item for HeldLines {
    type Value = Returned;

    ghost value_at = { λ _. held_at };

    #[tactic(auto, unfolding(crate::specs::Reading::held_at))]
    fn read(&self, input: &mut Reader) -> Result<Returned, Stop> {
        input.word(b"held ")?;
        let held = read_return(input)?;
        input.word(b"\n")?;
        Ok(held)
    }
}

/// The line of a submission without feedback.
#[derive(Drop)]
pub struct OpenLines;

impl Item for OpenLines {
    type Value = Sub;

    ghost value_at = { λ _. open_at };

    #[tactic(auto, unfolding(crate::specs::Reading::open_at))]
    fn read(&self, input: &mut Reader) -> Result<Sub, Stop> {
        input.word(b"open ")?;
        let sub = read_sub(input)?;
        input.word(b"\n")?;
        Ok(sub)
    }
}
