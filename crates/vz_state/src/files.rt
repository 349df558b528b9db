//! The message that a client takes next from its file.
ghost use Rattle.std.specs.Prelude.{◌≡◌, slice_get, IfSome};
ghost use Rattle.std.specs.Option.{option_copied};
ghost use Rattle.vz_rules.specs.Plan.{IsPlan};
ghost use Rattle.vz_rules.specs.World.{file_of, next_message};
ghost use Rattle.vz_state.specs.Fitting.{FitsSome};

use crate::client::Client;
use vz_frame::{ClientFile, Message};
use vz_rules::Plan;

/// The file of a client, whose numbers start at 1, or None if there is no such client.
#[tactic(auto, using(std::proofs::lemmas::Option::gets))]
pub fn file_of(plan: &Plan, c: u32) -> Option<&ClientFile>
    ensures value { option_copied result ≡ file_of plan.now c }
    ensures kept { IsPlan plan.now }
{
    plan.files().get((c as usize).saturating_sub(1))
}

/// The message at a place of a file, from 0.
#[tactic(auto, using(std::proofs::lemmas::Option::gets))]
fn message_at(file: &ClientFile, place: usize) -> Option<&Message>
    ensures { option_copied result ≡ slice_get file.now.messages place }
{
    file.messages.as_slice().get(place)
}

/// The message that a client takes next, or None if it has taken all.
pub fn next_message<'a>(plan: &'a Plan, client: &Client<'_>) -> Option<&'a Message>
    ensures value { option_copied result ≡ next_message plan.now client.now }
    ensures fits { IfSome result (λ m. FitsSome m.now) }
{
    match file_of(plan, client.number) {
        None => None,
        Some(file) => message_at(file, client.taken),
    }
}
