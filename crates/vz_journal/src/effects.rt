//! Reads the effects of an entry.
ghost use Rattle.std.specs.Prelude.{Some};
ghost use Rattle.vz_journal.specs.Giving.{Gives};
ghost use Rattle.vz_journal.specs.Reading.{sub_at, counted_at, return_at, activated_at, destroyed_at, returned_at, fed_by, fed_at, effects_at};

use crate::item::{Item, short};
use crate::reader::Reader;
use crate::stop::Stop;
use std::alloc::Global;
use vz_ids::Sub;
use vz_rules::{BoxedEffects, Effects, Fed, Lost, Returned};

/// Reads a submission: a client number, a dot and an ordinal.
#[tactic(auto, unfolding(crate::specs::Reading::sub_at))]
pub fn read_sub(input: &mut Reader) -> Result<Sub, Stop>
    ensures { Gives (λ x. (x, input.new)) result (sub_at input.old) }
{
    let client = input.client()?;
    input.word(b".")?;
    let ordinal = input.count()?;
    Ok(Sub { client, ordinal })
}

/// Reads a resource id of this client and a count.
#[tactic(auto, unfolding(crate::specs::Reading::counted_at))]
pub fn read_counted(client: u32, input: &mut Reader) -> Result<Returned, Stop>
    ensures { Gives (λ x. (x, input.new)) result (counted_at client input.old) }
{
    let id = input.count()?;
    input.word(b"x")?;
    let count = input.count()?;
    Ok(Returned { client, id, count })
}

/// Reads a client number, a resource id of the client and a count.
#[tactic(auto, unfolding(crate::specs::Reading::return_at))]
pub fn read_return(input: &mut Reader) -> Result<Returned, Stop>
    ensures { Gives (λ x. (x, input.new)) result (return_at input.old) }
{
    let client = input.client()?;
    input.word(b".")?;
    read_counted(client, input)
}

/// The item of a submission that became active.
#[derive(Drop)]
struct Activated;

impl Item for Activated {
    type Value = Sub;

    ghost value_at = { λ _. activated_at };

    #[tactic(auto, unfolding(crate::specs::Reading::activated_at))]
    fn read(&self, input: &mut Reader) -> Result<Sub, Stop> {
        input.word(b" +")?;
        read_sub(input)
    }
}

/// The item of a surface that was destroyed.
#[derive(Drop)]
struct Destroyed;

impl Item for Destroyed {
    type Value = Lost;

    ghost value_at = { λ _. destroyed_at };

    #[tactic(auto, unfolding(crate::specs::Reading::destroyed_at))]
    fn read(&self, input: &mut Reader) -> Result<Lost, Stop> {
        input.word(b" x")?;
        let sub = read_sub(input)?;
        Ok(Lost {
            client: sub.client,
            surface: sub.ordinal,
        })
    }
}

/// The item of references that were queued for their client.
#[derive(Drop)]
struct Queued;

impl Item for Queued {
    type Value = Returned;

    ghost value_at = { λ _. returned_at };

    #[tactic(auto, unfolding(crate::specs::Reading::returned_at))]
    fn read(&self, input: &mut Reader) -> Result<Returned, Stop> {
        input.word(b" <")?;
        read_return(input)
    }
}

/// The item of a submission's feedback.
#[derive(Drop)]
struct Feedback;

impl Item for Feedback {
    type Value = Fed;

    ghost value_at = { λ _. fed_at };

    #[tactic(auto, unfolding(crate::specs::Reading::fed_at))]
    fn read(&self, input: &mut Reader) -> Result<Fed, Stop> {
        if input.has(b" p") {
            return read_fed(true, input);
        }
        input.word(b" d")?;
        read_fed(false, input)
    }
}

/// Reads the submission of a feedback.
#[tactic(auto, unfolding(crate::specs::Reading::fed_by))]
fn read_fed(presented: bool, input: &mut Reader) -> Result<Fed, Stop>
    ensures { Gives (λ x. (x, input.new)) result (fed_by presented input.old) }
{
    let sub = read_sub(input)?;
    Ok(Fed { sub, presented })
}

/// Reads the effects of an entry, kind by kind in their order.
#[tactic(auto, unfolding(crate::specs::Reading::effects_at))]
pub fn read_effects(alloc: Global, input: &mut Reader) -> Result<BoxedEffects, Stop>
    ensures { Gives (λ x. (x, input.new)) result (Some (effects_at input.old)) }
{
    let activated = short(alloc, &Activated, input)?;
    let destroyed = short(alloc, &Destroyed, input)?;
    let returned = short(alloc, &Queued, input)?;
    let fed = short(alloc, &Feedback, input)?;
    let effects = Effects {
        activated,
        destroyed,
        returned,
        fed,
    };
    Ok(BoxedEffects::new(alloc, effects)?)
}
