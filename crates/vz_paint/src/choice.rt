//! Which operations are needed to paint some rows.
ghost use Rattle.std.specs.Prelude.{◌≡◌, ◌≤◌, ◌<◌, ◌+◌, ◌-◌, ◌==◌, ◌&&◌, ◌++◌, Bool, List, map, length, vec_len, vec_capacity, [], ◌∷◌, ◌^◌, if◌then◌else◌};
ghost use Rattle.vz_flat.specs.declared.op.Op.{Op as Step};
ghost use Rattle.vz_paint.specs.Choice.{meets, seen};

use vz_flat::Op;
use vz_geom::Rect;

/// Whether an operation is visible, and how many invisible groups the next one is inside of.
#[derive(Clone, Copy)]
struct Fate {
    is_seen: bool,
    hidden: usize,
}

/// Whether an area inside this many invisible groups shares points with a part of the display.
fn is_shown(area: &Rect, part: &Rect, hidden: usize) -> bool
    ensures { result ≡ ((hidden == 0) && meets area.now part.now) }
{
    hidden == 0 && !area.intersect(part).is_empty()
}

/// Whether an operation inside this many invisible groups is visible in a part of the display.
fn fate_of(op: &Op, part: &Rect, hidden: usize) -> Fate
    requires few { hidden + 1 < 2 ^ 64 }
    ensures few { result.hidden ≤ hidden + 1 }
    ensures seen { (rest : List Step) → seen part.now hidden (op.now ∷ rest)
        ≡ (if result.is_seen then op.now ∷ seen part.now result.hidden rest
        else seen part.now result.hidden rest) }
{
    match op {
        Op::Fill { area, .. } => Fate {
            is_seen: is_shown(area, part, hidden),
            hidden,
        },
        Op::Blit { area, .. } => Fate {
            is_seen: is_shown(area, part, hidden),
            hidden,
        },
        Op::Push { area, .. } => begun(is_shown(area, part, hidden), hidden),
        Op::Pop => ended(hidden),
    }
}

/// The fate of a group's start.
fn begun(is_seen: bool, hidden: usize) -> Fate
    requires few { hidden + 1 < 2 ^ 64 }
    ensures seen { result.is_seen ≡ is_seen }
    ensures hidden { result.hidden ≡ (if is_seen then hidden else hidden + 1) }
{
    if is_seen {
        Fate { is_seen, hidden }
    } else {
        Fate {
            is_seen,
            hidden: hidden + 1,
        }
    }
}

/// The fate of a group's end.
fn ended(hidden: usize) -> Fate
    ensures seen { result.is_seen ≡ (hidden == 0) }
    ensures hidden { result.hidden ≡ (if hidden == 0 then hidden else hidden - 1) }
{
    if hidden == 0 {
        Fate {
            is_seen: true,
            hidden,
        }
    } else {
        Fate {
            is_seen: false,
            hidden: hidden - 1,
        }
    }
}

/// Appends an operation to those that are chosen, if it is visible.
fn keep<'a>(chosen: &mut Vec<&'a Op>, op: &'a Op, is_seen: bool)
    requires room { vec_len chosen.old < vec_capacity chosen.old }
    ensures room { vec_capacity chosen.new ≡ vec_capacity chosen.old }
    ensures few { vec_len chosen.new ≤ vec_len chosen.old + 1 }
    ensures kept { map (λ r. r.now) chosen.new.items
        ≡ (if is_seen then map (λ r. r.now) chosen.old.items ++ op.now ∷ []
        else map (λ r. r.now) chosen.old.items) }
{
    if is_seen {
        chosen.push_reserved(op);
    }
}

/// Chooses the operations that are visible in a part of the display, in their order. It allocates
/// nothing. Condition: there is room for all of them.
pub(crate) fn choose<'a>(ops: &'a [Op], part: &Rect, chosen: &mut Vec<&'a Op>)
    requires room { length ops.now ≤ vec_capacity chosen.old }
    ensures room { vec_capacity chosen.new ≡ vec_capacity chosen.old }
    ensures chosen { map (λ r. r.now) chosen.new.items ≡ seen part.now 0 ops.now }
{
    chosen.clear();
    let mut hidden = 0;
    for op in ops {
        let fate = fate_of(op, part, hidden);
        hidden = fate.hidden;
        keep(chosen, op, fate.is_seen);
    }
}
