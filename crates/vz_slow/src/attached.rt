//! Which sinks the first client's sink reaches, computed without an allocation.
ghost use Rattle.std.specs.Prelude.{◌≡◌, ◌<◌, ◌≤◌, ◌++◌, [], ◌∷◌, length, IsFalse};
ghost use Rattle.std.specs.List.{list_any};
ghost use Rattle.vz_ids.specs.declared.FrameSinkId.{FrameSinkId as Id};
ghost use Rattle.vz_ids.specs.Ids.{same_sink};
ghost use Rattle.vz_rules.specs.Closure.{adding};
ghost use Rattle.vz_rules.specs.Messages.{children, reaches};
ghost use Rattle.vz_rules.specs.Plan.{has_sink};
ghost use Rattle.vz_slow.specs.Asked.{AreFew, AreFewFrom, is_below};

use std::marker::Model;
use vz_base::limits::MOST_FILES;
use vz_ids::FrameSinkId;
use vz_rules::Plan;
use vz_state::has_sink;

/// A list of sinks that allocates nothing. It holds at most as many as a plan has files.
#[derive(Drop)]
struct Sinks {
    places: [FrameSinkId; MOST_FILES],
    count: usize,
}

impl Model for Sinks {
    ghost use Rattle.std.specs.Prelude.{◌≡◌, ◌≤◌, List, length, take};
    ghost use Rattle.vz_base.specs.declared.limits.TheConstants.{MOST_FILES};
    ghost use Rattle.vz_ids.specs.declared.FrameSinkId.{FrameSinkId as Sink};

    ghost Value = { List Sink };

    ghost view = { λ s. take s.count s.places };

    ghost invariant = { λ s. (s.count ≤ MOST_FILES) × (length s.places ≡ MOST_FILES) };
}

impl Sinks {
    /// A list of one sink.
    fn one(sink: FrameSinkId) -> Sinks
        ensures { result ≡ sink ∷ [] }
    {
        Sinks {
            places: [sink; MOST_FILES],
            count: 1,
        }
    }

    /// The sinks, in the order in which they were appended.
    fn as_slice(&self) -> &[FrameSinkId]
        ensures { result.now ≡ self.now }
    {
        &self.places[..self.count]
    }

    /// Appends a sink. Condition: there is room.
    fn push(&mut self, sink: FrameSinkId)
        requires { length self.old < MOST_FILES }
        ensures { self.new ≡ self.old ++ sink ∷ [] }
    {
        let count = self.count;
        self.places[count] = sink;
        self.count = count + 1;
    }

    /// Appends a sink, unless the list has it. Condition: there is room for it.
    fn add(&mut self, sink: FrameSinkId)
        requires { IsFalse (list_any (same_sink sink) self.old) → length self.old < MOST_FILES }
        ensures { self.new ≡ adding same_sink self.old (sink ∷ []) }
    {
        if !has_sink(self.as_slice(), sink) {
            self.push(sink);
        }
    }

    /// Appends the children of a sink, each unless the list has it. Condition: there is room for
    /// them.
    fn follow(&mut self, relations: &[(FrameSinkId, FrameSinkId)], from: FrameSinkId)
        requires { length (adding same_sink self.old (children relations.now from)) ≤ MOST_FILES }
        ensures { self.new ≡ adding same_sink self.old (children relations.now from) }
    {
        for relation in relations {
            if relation.0 == from {
                self.add(relation.1);
            }
        }
    }
}

/// The sinks that a sink reaches, each once. Condition: this sink and all that are related fit
/// into the list.
fn reached(relations: &[(FrameSinkId, FrameSinkId)], from: FrameSinkId) -> Sinks
    requires { AreFew relations.now from }
    ensures { (sink : Id) → has_sink result sink ≡ reaches relations.now from sink }
{
    let mut sinks = Sinks::one(from);
    let mut at = 0;
    while at < sinks.as_slice().len() {
        let sink = sinks.as_slice()[at];
        sinks.follow(relations, sink);
        at += 1;
    }
    sinks
}

/// Whether the first client's sink reaches this sink. Condition: it and all that are related fit
/// into the list.
pub(crate) fn is_below(
    plan: &Plan,
    relations: &[(FrameSinkId, FrameSinkId)],
    sink: FrameSinkId,
) -> bool
    requires { AreFewFrom plan.now relations.now }
    ensures { result ≡ is_below plan.now relations.now sink }
{
    match plan.files().first() {
        None => false,
        Some(file) => has_sink(reached(relations, file.sink).as_slice(), sink),
    }
}
