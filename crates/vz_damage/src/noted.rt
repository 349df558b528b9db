//! What each range shows during a walk.
ghost use Rattle.std.specs.Prelude.{◌≡◌, [], ◌∷◌, length, OnOk};
ghost use Rattle.vz_rules.specs.Closure.{adding};
ghost use Rattle.vz_rules.specs.Scene.{id_of_frame};
ghost use Rattle.vz_rules.specs.Damage.{of_same_range};

use crate::ranges::{Ranges, id_of, is_at};
use indexmap::IndexMap;
use std::marker::Model;
use vz_base::Memory;
use vz_ids::{SurfaceId, SurfaceRange};
use vz_surfaces::Seen;

/// The ranges that a walk has met so far, each once, in the order in which they were met, and what
/// each shows. They are noted over those of an earlier walk: as most walks meet the same ranges in
/// the same order, the next one mostly stands at its place already.
#[derive(Drop)]
pub(crate) struct Noted {
    /// Those that this walk met, and behind them what is left of the earlier one.
    shown: IndexMap<SurfaceRange, Option<SurfaceId>>,
    met: usize,
}

impl Model for Noted {
    ghost use Rattle.std.specs.Prelude.{◌≤◌, take, length};
    ghost use Rattle.vz_damage.specs.Measured.{Shown};

    ghost Value = { Shown };

    ghost view = { λ n. take n.met n.shown.entries };

    ghost invariant = { λ n. n.met ≤ length n.shown.entries };
}

impl Noted {
    /// Begins a walk that has met nothing, over the ranges of an earlier one.
    pub(crate) fn over(earlier: Ranges) -> Noted
        ensures { result ≡ [] }
    {
        let Ranges { shown } = earlier;
        Noted { shown, met: 0 }
    }

    /// How many ranges were met.
    pub(crate) fn len(&self) -> usize
        ensures { result ≡ length self.now }
    {
        self.met
    }

    /// Notes a range and what it shows. If the range was noted before, that stays.
    pub(crate) fn note(
        &mut self,
        range: &SurfaceRange,
        now: &Option<Seen<'_>>,
    ) -> Result<(), Memory>
        ensures { OnOk result (self.new
            ≡ adding of_same_range self.old ((range.now, id_of_frame now.now) ∷ [])) }
    {
        if is_at(&self.shown, self.met, range, now) {
            self.met += 1;
            return Ok(());
        }
        self.put(range, now)
    }

    /// Notes a range of which nothing is known. What is left of the earlier walk goes.
    fn put(&mut self, range: &SurfaceRange, now: &Option<Seen<'_>>) -> Result<(), Memory>
        ensures { OnOk result (self.new
            ≡ adding of_same_range self.old ((range.now, id_of_frame now.now) ∷ [])) }
    {
        self.shown.truncate(self.met);
        if self.shown.get(range).is_some() {
            return Ok(());
        }
        self.shown.insert(*range, id_of(now))?;
        self.met = self.shown.len();
        Ok(())
    }

    /// Ends the walk.
    pub(crate) fn end(self) -> Ranges
        ensures { result ≡ self }
    {
        let Noted { mut shown, met } = self;
        shown.truncate(met);
        Ranges { shown }
    }
}
