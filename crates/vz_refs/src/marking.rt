//! Lists of surfaces without duplicates. The place of each surface in the list is noted, so that
//! it is found without a search.
ghost use Rattle.std.specs.Prelude.{◌≡◌, ◌≤◌, ◌<◌, ◌+◌, [], ◌∷◌, length, map, false, IsFalse, Some, slice_get};
ghost use Rattle.std.specs.List.{list_any};
ghost use Rattle.std.specs.Option.{option_map, option_map_or};
ghost use Rattle.vz_ids.specs.Ids.{same_surface};
ghost use Rattle.vz_rules.specs.Closure.{adding};
ghost use Rattle.vz_refs.specs.Referring.{next_in, starts};
ghost use Rattle.vz_refs.specs.Noted.{noted, AreNoted};
ghost use Rattle.vz_refs.specs.Lasting.{all_in};

use crate::notes::{Notes, note, noted};
use crate::references::Shows;
use crate::seats::{Kept, Name};
use crate::sets::Sets;
use crate::surfaces::{has_surface, is_same};
use indexmap::IndexMap;
use vz_frame::Room;
use vz_ids::SurfaceId;

/// Whether the list has a surface at a place.
fn stands_at(out: &[SurfaceId], place: usize, id: &SurfaceId) -> bool
    ensures { result ≡ option_map_or (same_surface id.now) (slice_get out.now place) false }
{
    match out.get(place) {
        Some(other) => is_same(id, other),
        None => false,
    }
}

/// Whether the list contains a surface. It searches the list if no place could be noted for the
/// surface.
fn is_out(sets: &Sets, id: &SurfaceId, notes: &Option<Notes>, out: &[SurfaceId]) -> bool
    requires { AreNoted (noted sets.now.keys notes.now) out.now }
    ensures { result ≡ list_any (same_surface id.now) out.now }
{
    match noted(sets, id, notes) {
        Some(place) => stands_at(out, place, id),
        None => has_surface(out, id),
    }
}

/// Appends a surface unless the list contains it.
pub(crate) fn add(sets: &Sets, id: SurfaceId, notes: &mut Option<Notes>, out: &mut Room<SurfaceId>)
    requires noted { AreNoted (noted sets.now.keys notes.old) out.old.list }
    requires room { IsFalse (list_any (same_surface id) out.old.list) → 0 < out.old.spare }
    ensures list { out.new.list ≡ adding same_surface out.old.list (id ∷ []) }
    ensures room { length out.old.list + out.old.spare ≤ length out.new.list + out.new.spare }
    ensures noted { AreNoted (noted sets.now.keys notes.new) out.new.list }
{
    if !is_out(sets, &id, notes, out.as_slice()) {
        note(sets, &id, notes, out.as_slice().len());
        out.put(id);
    }
}

/// Appends the surfaces at which marking starts, each unless the list contains it: the root, if
/// there is one, and the temporary surfaces.
pub(crate) fn start(
    sets: &Sets,
    root: Option<SurfaceId>,
    kept: &IndexMap<Name, Kept>,
    notes: &mut Option<Notes>,
    out: &mut Room<SurfaceId>,
)
    requires noted { AreNoted (noted sets.now.keys notes.old) out.old.list }
    requires room { length (adding same_surface out.old.list (starts root (all_in kept.now.entries)))
        ≤ length out.old.list + out.old.spare }
    ensures list { out.new.list ≡ adding same_surface out.old.list (starts root (all_in kept.now.entries)) }
    ensures room { length out.old.list + out.old.spare ≤ length out.new.list + out.new.spare }
    ensures noted { AreNoted (noted sets.now.keys notes.new) out.new.list }
{
    match root {
        None => add_kept(sets, kept, notes, out),
        Some(id) => {
            add(sets, id, notes, out);
            add_kept(sets, kept, notes, out);
        }
    }
}

/// Appends the temporary surfaces, each unless the list contains it.
fn add_kept(
    sets: &Sets,
    kept: &IndexMap<Name, Kept>,
    notes: &mut Option<Notes>,
    out: &mut Room<SurfaceId>,
)
    requires noted { AreNoted (noted sets.now.keys notes.old) out.old.list }
    requires room { length (adding same_surface out.old.list (map (λ t. t.id) (all_in kept.now.entries)))
        ≤ length out.old.list + out.old.spare }
    ensures list { out.new.list ≡ adding same_surface out.old.list (map (λ t. t.id) (all_in kept.now.entries)) }
    ensures room { length out.old.list + out.old.spare ≤ length out.new.list + out.new.spare }
    ensures noted { AreNoted (noted sets.now.keys notes.new) out.new.list }
{
    for at in 0..kept.len() {
        add(sets, id_at(kept, at), notes, out);
    }
}

/// The temporary surface at a place. Condition: there is one.
fn id_at(kept: &IndexMap<Name, Kept>, at: usize) -> SurfaceId
    requires { at < length kept.now.entries }
    ensures { option_map (λ t. t.id) (slice_get (all_in kept.now.entries) at) ≡ Some result }
{
    kept[at].id
}

/// Appends the surfaces that the ranges of a surface show, each unless the list contains it.
pub(crate) fn follow<S: Shows>(
    sets: &Sets,
    from: SurfaceId,
    s: &S,
    notes: &mut Option<Notes>,
    out: &mut Room<SurfaceId>,
)
    requires noted { AreNoted (noted sets.now.keys notes.old) out.old.list }
    requires room { length (adding same_surface out.old.list (next_in (S.shows s.now) sets.now.list from))
        ≤ length out.old.list + out.old.spare }
    ensures list { out.new.list
        ≡ adding same_surface out.old.list (next_in (S.shows s.now) sets.now.list from) }
    ensures room { length out.old.list + out.old.spare ≤ length out.new.list + out.new.spare }
    ensures noted { AreNoted (noted sets.now.keys notes.new) out.new.list }
{
    for nth in 0..sets.count(&from) {
        let range = sets.nth(from, nth);
        match s.shown(&range) {
            Some(id) => add(sets, id, notes, out),
            None => {}
        }
    }
}
