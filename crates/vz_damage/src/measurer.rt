//! A visitor that gathers the claims of a walk.
ghost use Rattle.std.specs.Prelude.{◌≡◌, [], if◌then◌else◌};
ghost use Rattle.vz_geom.specs.Rectangle.{IsRectangle, join, no_rectangle};
ghost use Rattle.vz_rules.specs.Damage.{is_switched};
ghost use Rattle.vz_rules.specs.World.{Aggregation};
ghost use Rattle.vz_placement.specs.Limits.{FitsFile, HasRoom};
ghost use Rattle.vz_damage.specs.Told.{told_on, damage_in};
ghost use Rattle.vz_damage.specs.Measured.{seen_damage};

use crate::noted::Noted;
use crate::ranges::Ranges;
use crate::running::Running;
use indexmap::IndexMap;
use vz_geom::Rect;
use vz_ids::{SurfaceId, SurfaceRange};
use vz_placement::{Placement, inside_frame, moved};
use vz_surfaces::Seen;
use vz_walk::Visitor;

/// The damage on a surface since the last aggregation; empty if nothing was reported of it.
pub(crate) fn damage_of(told: &IndexMap<SurfaceId, Running>, id: &SurfaceId) -> Rect
    ensures { result ≡ damage_in (told_on told.now.entries id.now) }
{
    match told.get(id) {
        Some(running) => running.damage(),
        None => Rect::empty(),
    }
}

/// The part of a surface's damage that is visible at a place. Conditions: the frame fits a
/// message file, and the place is within the limits.
fn seen_damage(damage: &Rect, frame: &Seen<'_>, place: &Placement) -> Rect
    requires fits { FitsFile frame.now.frame }
    requires room { HasRoom 0 place.now.shift }
    ensures value { result ≡ seen_damage damage.now frame.now place.now }
    ensures proper { IsRectangle result }
{
    let part = inside_frame(frame.held().frame.frame(), damage);
    place.window().intersect(&moved(&part, place.shift()))
}

/// A visitor that keeps the smallest rectangle around the claims so far, and what each range
/// showed.
#[derive(Drop)]
pub(crate) struct Measurer<'d> {
    told: &'d IndexMap<SurfaceId, Running>,
    last: &'d Ranges,
    damage: Rect,
    ranges: Noted,
}

impl<'d> Measurer<'d> {
    /// Creates a measurer that has met nothing. It notes ranges over those of an earlier walk.
    pub(crate) fn new(
        told: &'d IndexMap<SurfaceId, Running>,
        last: &'d Ranges,
        earlier: Ranges,
    ) -> Measurer<'d>
        ensures { result ≡ record {
          told = told.entry;
          last = last.entry;
          damage = no_rectangle;
          ranges = [];
        } }
    {
        Measurer {
            told,
            last,
            damage: Rect::empty(),
            ranges: Noted::over(earlier),
        }
    }

    /// The damage and the ranges that were found.
    pub(crate) fn parts(self) -> (Rect, Ranges)
        ensures damage { result.0 ≡ self.entry.damage }
        ensures ranges { result.1 ≡ self.entry.ranges }
    {
        let Measurer { damage, ranges, .. } = self;
        (damage, ranges.end())
    }

    /// The rectangle around the claims so far, after a range is met.
    fn with_range(&self, range: &SurfaceRange, shown: &Option<Seen<'_>>, seen: &Rect) -> Rect
        ensures value { (a : Aggregation) → a.ranges ≡ self.now.last.now → result
            ≡ (if is_switched a range.now shown.now then join self.now.damage seen.now
            else self.now.damage) }
        ensures proper { IsRectangle seen.now }
    {
        let _ = seen.is_empty();
        if self.last.is_switched(self.ranges.len(), range, shown) {
            self.damage.bound(seen)
        } else {
            self.damage
        }
    }
}

impl<'d> Visitor for Measurer<'d> {
    ghost use Rattle.std.specs.Prelude.{◌≡◌};
    ghost use Rattle.vz_damage.specs.Measured.{IsMeasured};

    ghost has_met = { λ first m visits.
        IsMeasured first.told.now.entries first.last.now m.damage m.ranges visits
        × (m.told ≡ first.told) × (m.last ≡ first.last) };

    ghost has_stopped = { λ m visits. Unit {0} };

    fn quad(&mut self) -> bool {
        true
    }

    fn shows(&mut self, range: &SurfaceRange, shown: &Option<Seen<'_>>, seen: &Rect) -> bool {
        self.damage = self.with_range(range, shown, seen);
        self.ranges.note(range, shown).is_ok()
    }

    fn enters(&mut self, _: u32, frame: &Seen<'_>, place: &Placement) -> bool {
        let damage = damage_of(self.told, &frame.id());
        let seen = seen_damage(&damage, frame, place);
        self.damage = self.damage.bound(&seen);
        true
    }
}
