//! The sinks that a sink reaches.
ghost use Rattle.std.specs.Prelude.{◌≡◌, ◌≤◌, ◌<◌, ◌+◌, [], ◌∷◌, length, IsFalse};
ghost use Rattle.std.specs.List.{list_any};
ghost use Rattle.vz_ids.specs.declared.FrameSinkId.{FrameSinkId as Id};
ghost use Rattle.vz_ids.specs.Ids.{same_sink};
ghost use Rattle.vz_rules.specs.Closure.{adding};
ghost use Rattle.vz_rules.specs.Plan.{has_sink};
ghost use Rattle.vz_rules.specs.Messages.{children, reaches};

use vz_frame::Room;
use vz_ids::FrameSinkId;

/// Whether two sinks are the same.
pub(crate) fn is_same(a: &FrameSinkId, b: &FrameSinkId) -> bool
    ensures { result ≡ same_sink a.now b.now }
{
    a == b
}

/// Whether a list contains a sink.
pub(crate) fn has_sink(sinks: &[FrameSinkId], sink: &FrameSinkId) -> bool
    ensures { result ≡ has_sink sinks.now sink.now }
{
    for other in sinks {
        if is_same(sink, other) {
            return true;
        }
    }
    false
}

/// Appends a sink unless the list contains it.
fn add(out: &mut Room<FrameSinkId>, sink: FrameSinkId)
    requires { IsFalse (list_any (same_sink sink) out.old.list) → 0 < out.old.spare }
    ensures list { out.new.list ≡ adding same_sink out.old.list (sink ∷ []) }
    ensures room { length out.old.list + out.old.spare ≤ length out.new.list + out.new.spare }
{
    if !has_sink(out.as_slice(), &sink) {
        out.put(sink);
    }
}

/// Appends the children of a sink, each unless the list contains it.
fn follow(relations: &[(FrameSinkId, FrameSinkId)], from: FrameSinkId, out: &mut Room<FrameSinkId>)
    requires { length (adding same_sink out.old.list (children relations.now from))
        ≤ length out.old.list + out.old.spare }
    ensures list { out.new.list ≡ adding same_sink out.old.list (children relations.now from) }
    ensures room { length out.old.list + out.old.spare ≤ length out.new.list + out.new.spare }
{
    for relation in relations {
        if is_same(&relation.0, &from) {
            add(out, relation.1);
        }
    }
}

/// Appends the sinks that a sink reaches, itself among them, each once. It allocates nothing.
/// Conditions: `out` is empty and has room for one more than the relations.
pub(crate) fn put_reached(
    relations: &[(FrameSinkId, FrameSinkId)],
    from: FrameSinkId,
    out: &mut Room<FrameSinkId>,
)
    requires empty { out.old.list ≡ [] }
    requires room { length relations.now < out.old.spare }
    ensures { (sink : Id) → has_sink out.new.list sink ≡ reaches relations.now from sink }
{
    out.put(from);
    let mut at = 0;
    while at < out.as_slice().len() {
        let sink = out.as_slice()[at];
        follow(relations, sink, out);
        at += 1;
    }
}
