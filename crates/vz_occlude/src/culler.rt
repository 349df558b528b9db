//! The walk that removes occluded items, from the last operation to the first.
ghost use Rattle.std.specs.Prelude.{◌≡◌, ◌≤◌, ◌<◌, ℕ, [], ◌∷◌, drop, length, vec_len, true, List as Row, IfOk, OnOk, IsTrue};
ghost use Rattle.vz_geom.specs.declared.Point.{Point as Place};
ghost use Rattle.vz_pixels.specs.Colour.{Colour};
ghost use Rattle.vz_flat.specs.declared.op.Op.{Op as Step};
ghost use Rattle.vz_flat.specs.Ops.{is_whole, value, deepest};
ghost use Rattle.vz_occlude.specs.Items.{Done, levels};
ghost use Rattle.vz_occlude.specs.Roles.{role_of};
ghost use Rattle.vz_occlude.specs.declared.role.Role.TheVariants.{Single, Begins, Ends};
ghost use Rattle.vz_occlude.specs.Occlusion.{kept as kept_of, gone as gone_of};
ghost use Rattle.vz_occlude.specs.Walk_so_far.{IsAt, IsKeptAt, Precedes, HasTaken};

use crate::cover::{Cover, FEW_COVERS};
use crate::occluder::{is_occluded, put_occluder};
use crate::role::{Role, role_of};
use smallvec::SmallVec;
use std::alloc::Global;
use vz_base::Memory;
use vz_flat::{Op, Ops};
use vz_frame::List;
use vz_geom::Rect;

/// What is remembered of a list while a group of it is walked: the index of its first occluder,
/// and of what comes after the group, the index of the first operation that was kept and how many
/// items were removed.
#[derive(Clone, Copy, Default)]
struct Level {
    start: usize,
    kept: usize,
    removed: u64,
}

/// How many levels take no memory of the allocator.
const FEW_LEVELS: usize = 4;

/// A walk over operations, from the last one to the first, that removes occluded items in place.
/// The operations that were kept stand at the end of `ops`, in their order.
#[derive(Drop)]
struct OcclusionCuller {
    /// The operations not yet walked, removed ones, and from `kept` on those that were kept.
    ops: Vec<Op>,
    kept: usize,
    /// The areas of the occluders of the open groups, with those of the innermost one from `start`
    /// on.
    occluders: SmallVec<Cover, FEW_COVERS>,
    start: usize,
    /// How many items were removed.
    removed: u64,
    /// What is remembered of the lists round the innermost group.
    behind: SmallVec<Level, FEW_LEVELS>,
}

impl OcclusionCuller {
    /// A walk that has taken none of these operations yet. It takes no memory.
    fn new(alloc: Global, ops: Vec<Op>) -> OcclusionCuller
        ensures nothing { IsAt (Done ∷ []) result }
        ensures ops { result.ops.items ≡ ops.items }
        ensures kept { result.kept ≡ length ops.items }
    {
        let kept = ops.len();
        OcclusionCuller {
            ops,
            kept,
            occluders: SmallVec::new(alloc),
            start: 0,
            removed: 0,
            behind: SmallVec::new(alloc),
        }
    }

    /// Keeps the operation at an index: it goes to the front of those that were kept.
    fn keep(&mut self, place: usize)
        requires before { place < self.old.kept }
        requires low { self.old.kept ≤ vec_len self.old.ops }
        ensures kept { (op : Step) → IsKeptAt place op self.old self.new }
        ensures occluders { self.new.occluders.items ≡ self.old.occluders.items }
        ensures start { self.new.start ≡ self.old.start }
        ensures removed { self.new.removed ≡ self.old.removed }
        ensures behind { self.new.behind.items ≡ self.old.behind.items }
    {
        self.kept -= 1;
        self.ops.swap(place, self.kept);
    }

    /// Takes an item, which is kept if it is not occluded.
    fn take_single(&mut self, place: usize, area: &Rect) -> Result<(), Memory>
        requires place { (n : ℕ) × (op : Step) × (later : Row Step)
            × Precedes n op later place self.old × (role_of op ≡ Single area.now) }
        ensures { (n : ℕ) (op : Step) (later : Row Step) → Precedes n op later place self.old
            → OnOk result (HasTaken place (levels (op ∷ later)) self.old self.new) }
    {
        let occluded = is_occluded(&self.occluders, self.start, area);
        put_occluder(&mut self.occluders, self.start, area, &self.ops[place])?;
        if occluded {
            self.removed += 1;
            return Ok(());
        }
        self.keep(place);
        Ok(())
    }

    /// Takes the begin of a group. If the group is occluded, nothing of it is kept.
    fn take_begin(&mut self, place: usize, area: &Rect) -> Result<(), Memory>
        requires place { (n : ℕ) × (op : Step) × (later : Row Step)
            × Precedes n op later place self.old × (role_of op ≡ Begins area.now) }
        ensures { (n : ℕ) (op : Step) (later : Row Step) → Precedes n op later place self.old
            → OnOk result (HasTaken place (levels (op ∷ later)) self.old self.new) }
    {
        let Some(level) = self.behind.pop() else {
            unreachable!()
        };
        self.occluders.truncate(self.start);
        self.start = level.start;
        if is_occluded(&self.occluders, level.start, area) {
            self.kept = level.kept;
            self.removed = level.removed + 1;
            return Ok(());
        }
        self.keep(place);
        Ok(())
    }

    /// Takes the end of a group.
    fn take_end(&mut self, place: usize) -> Result<(), Memory>
        requires place { (n : ℕ) × (op : Step) × (later : Row Step)
            × Precedes n op later place self.old × (role_of op ≡ Ends) }
        ensures { (n : ℕ) (op : Step) (later : Row Step) → Precedes n op later place self.old
            → OnOk result (HasTaken place (levels (op ∷ later)) self.old self.new) }
    {
        self.behind.push(Level {
            start: self.start,
            kept: self.kept,
            removed: self.removed,
        })?;
        self.start = self.occluders.len();
        self.keep(place);
        Ok(())
    }

    /// Takes the operation at an index, which stands before those that were taken.
    fn take(&mut self, place: usize) -> Result<(), Memory>
        requires place { (n : ℕ) × (op : Step) × (later : Row Step)
            × Precedes n op later place self.old }
        ensures { (n : ℕ) (op : Step) (later : Row Step) → Precedes n op later place self.old
            → OnOk result (HasTaken place (levels (op ∷ later)) self.old self.new) }
    {
        match role_of(&self.ops[place]) {
            Role::Single { area } => self.take_single(place, &area),
            Role::Begins { area } => self.take_begin(place, &area),
            Role::Ends => self.take_end(place),
        }
    }
}

/// A walk over all operations.
fn walked(alloc: Global, ops: Vec<Op>) -> Result<OcclusionCuller, Memory>
    requires { is_whole ops.items ≡ true }
    ensures { IfOk result (λ culler. IsAt (levels ops.items) culler) }
{
    let mut left = ops.len();
    let mut culler = OcclusionCuller::new(alloc, ops);
    while left > 0 {
        left -= 1;
        culler.take(left)?;
    }
    Ok(culler)
}

/// Removes the first `count` operations.
fn remove_first(ops: &mut Vec<Op>, count: usize)
    requires { count ≤ vec_len ops.old }
    ensures { ops.new.items ≡ drop count ops.old.items }
{
    if count == 0 {
        return;
    }
    let left = ops.len() - count;
    ops.rotate_left(count);
    ops.truncate(left);
}

/// Removes the items that a later one of their list occludes, and returns the rest with how many
/// were removed, where a group counts once. What is left gives every pixel the same colour, and
/// has no more groups open at once. The list is changed in place. The only error is `Memory`, and
/// then the operations are given up.
pub(crate) fn remove_occluded(alloc: Global, ops: Ops) -> Result<(Ops, u64), Memory>
    ensures nested { OnOk result (IsTrue (is_whole ops)) }
    ensures kept { IfOk result (λ culled. culled.0 ≡ kept_of ops) }
    ensures gone { IfOk result (λ culled. culled.1 ≡ gone_of ops) }
    ensures same { (p : Place) (d : Colour) → IfOk result
        (λ culled. value culled.0 p d ≡ value ops p d) }
    ensures deep { IfOk result (λ culled. deepest 0 culled.0 ≤ deepest 0 ops) }
{
    let deepest = ops.deepest();
    let culler = walked(alloc, ops.into_list().into_vec())?;
    let OcclusionCuller {
        mut ops,
        kept,
        occluders: _,
        start: _,
        removed,
        behind: _,
    } = culler;
    remove_first(&mut ops, kept);
    let left = List::from_vec(ops);
    if removed == 0 {
        return Ok((Ops::known(left, deepest), 0));
    }
    match Ops::of(left) {
        Ok(left) => Ok((left, removed)),
        Err(_) => unreachable!(),
    }
}
