//! The damage of all surfaces.
ghost use Rattle.std.specs.Prelude.{◌≡◌, ◌<◌, ◌≤◌, ◌+◌, [], length, Some, None, is_some};
ghost use Rattle.std.specs.Prelude.{is_none, IfSome};
ghost use Rattle.std.specs.Prelude.{IsTrue, IsFalse, IsOk, OnOk, IfOk, OnErr};
ghost use Rattle.std.specs.Option.{option_map};
ghost use Rattle.vz_ids.specs.declared.SurfaceId.{SurfaceId as Surface};
ghost use Rattle.vz_ids.specs.Ids.{same_surface};
ghost use Rattle.vz_geom.specs.Display.{IsDisplaySize};
ghost use Rattle.vz_rules.specs.Walk.{too_much};
ghost use Rattle.vz_surfaces.specs.Keeping.{KeepsStored, KeepsFrames};
ghost use Rattle.vz_damage.specs.Measured.{what_changed, has_root, IsMeasureOf};
ghost use Rattle.vz_walk.specs.Scenes.{walked_in};
ghost use Rattle.vz_damage.specs.Told.{told_on, next_index, damage_in};
ghost use Rattle.vz_damage.specs.Told.{with_damage, with_active, with_seen};

use crate::measured::Measured;
use crate::measurer::{Measurer, damage_of};
use crate::ranges::Ranges;
use crate::running::Running;
use indexmap::IndexMap;
use std::alloc::Global;
use std::marker::Model;
use std::mem;
use vz_base::Memory;
use vz_geom::{Rect, Size};
use vz_ids::SurfaceId;
use vz_surfaces::Store;
use vz_walk::{Both, Visitor, Weigher, walk};

/// What changed on each surface. Contracts see, for each surface, the damage of each submission
/// by its index (from 1), which submission is active, and which one was at the last aggregation.
/// In memory there are two rectangles for each surface, however many submissions were reported.
#[derive(Drop)]
pub struct Damage {
    alloc: Global,
    surfaces: IndexMap<SurfaceId, Running>,
    root: Option<SurfaceId>,
    shown: Ranges,
    free: Ranges,
}

impl Model for Damage {
    ghost use Rattle.indexmap.specs.IndexMap.{spare as spare_of};
    ghost use Rattle.std.specs.Prelude.{[]};
    ghost use Rattle.std.specs.Option.{option_map};
    ghost use Rattle.vz_damage.specs.Told.{Damaged};

    ghost Value = { Damaged };

    ghost view = { λ d. record {
      surfaces = d.surfaces.entries;
      spare = spare_of d.surfaces;
      last = option_map (λ root. record { root = root; indices = []; ranges = d.shown }) d.root;
    } };
}

impl Damage {
    /// Creates a table in which nothing was reported and there was no aggregation. It allocates
    /// nothing.
    pub fn new(alloc: Global) -> Damage
        ensures surfaces { result.surfaces ≡ [] }
        ensures last { result.last ≡ None }
    {
        Damage {
            alloc,
            surfaces: IndexMap::new(alloc),
            root: None,
            shown: Ranges::new(alloc),
            free: Ranges::new(alloc),
        }
    }

    /// Makes room for at least `n` more surfaces. The only error is `Memory`, if an allocation
    /// fails. In either case nothing else changes and no room is lost.
    pub fn ready(&mut self, n: usize) -> Result<(), Memory>
        ensures surfaces { self.new.surfaces ≡ self.old.surfaces }
        ensures ok { OnOk result (n ≤ self.new.spare) }
        ensures succeeds { n ≤ self.old.spare → IsOk result }
        ensures spare { self.old.spare ≤ self.new.spare }
        ensures last { self.new.last ≡ self.old.last }
    {
        self.surfaces.reserve(n)?;
        Ok(())
    }

    /// Adds a surface with the damage of its first submission.
    fn begin(&mut self, id: SurfaceId, damage: Rect) -> Result<(), Memory>
        requires { told_on self.old.surfaces id ≡ None }
        ensures told { OnOk result (told_on self.new.surfaces id
            ≡ Some (with_damage None damage)) }
        ensures others { (other : Surface) → IsFalse (same_surface id other)
            → told_on self.new.surfaces other ≡ told_on self.old.surfaces other }
        ensures err { OnErr result (self.new.surfaces ≡ self.old.surfaces) }
        ensures kept { OnErr result (self.old.spare ≤ self.new.spare) }
        ensures succeeds { 0 < self.old.spare → IsOk result }
        ensures spare { self.old.spare ≤ self.new.spare + 1 }
        ensures last { self.new.last ≡ self.old.last }
    {
        self.surfaces.insert(id, Running::new(damage))?;
        Ok(())
    }

    /// Reports the damage of an accepted submission: the part of its surface that may differ from
    /// the submission before, in pixels of the surface. It returns `Memory` if an allocation
    /// fails; then nothing changes and no room is lost. If the surface was reported before or
    /// there is room for one, it returns Ok. Condition: the index is one more than the last one
    /// reported for the surface, and 1 for the first.
    pub fn accepted(&mut self, id: SurfaceId, index: u32, damage: Rect) -> Result<(), Memory>
        requires { index ≡ next_index (told_on self.old.surfaces id) }
        ensures told { OnOk result (told_on self.new.surfaces id
            ≡ Some (with_damage (told_on self.old.surfaces id) damage)) }
        ensures others { (other : Surface) → IsFalse (same_surface id other)
            → told_on self.new.surfaces other ≡ told_on self.old.surfaces other }
        ensures err { OnErr result (self.new.surfaces ≡ self.old.surfaces) }
        ensures kept { OnErr result (self.old.spare ≤ self.new.spare) }
        ensures known { IsTrue (is_some (told_on self.old.surfaces id)) → IsOk result }
        ensures succeeds { 0 < self.old.spare → IsOk result }
        ensures spare { self.old.spare ≤ self.new.spare + 1 }
        ensures last { self.new.last ≡ self.old.last }
    {
        match self.surfaces.get_mut(&id) {
            Some(running) => {
                running.accepted(index, damage);
                Ok(())
            }
            None => self.begin(id, damage),
        }
    }

    /// Reports that the last submission of a surface becomes active. It allocates nothing.
    pub fn activated(&mut self, id: &SurfaceId)
        ensures told { told_on self.new.surfaces id.now
            ≡ option_map with_active (told_on self.old.surfaces id.now) }
        ensures others { (other : Surface) → IsFalse (same_surface id.now other)
            → told_on self.new.surfaces other ≡ told_on self.old.surfaces other }
        ensures spare { self.old.spare ≤ self.new.spare }
        ensures last { self.new.last ≡ self.old.last }
    {
        if let Some(running) = self.surfaces.get_mut(id) {
            running.activated();
        }
    }

    /// Reports that a surface is destroyed, which removes it. It allocates nothing.
    pub fn destroyed(&mut self, id: &SurfaceId)
        ensures none { told_on self.new.surfaces id.now ≡ None }
        ensures others { (other : Surface) → IsFalse (same_surface id.now other)
            → told_on self.new.surfaces other ≡ told_on self.old.surfaces other }
        ensures spare { self.old.spare ≤ self.new.spare }
        ensures last { self.new.last ≡ self.old.last }
    {
        self.surfaces.swap_remove(id);
    }

    /// The damage on a surface since the last aggregation, in pixels of the surface. It is empty
    /// if nothing changed.
    pub fn since(&self, id: &SurfaceId) -> Rect
        ensures { result ≡ damage_in (told_on self.now.surfaces id.now) }
    {
        damage_of(&self.surfaces, id)
    }

    /// Notes an aggregation: the active submission of each surface was seen. It allocates
    /// nothing.
    pub fn aggregated(&mut self)
        ensures told { (id : Surface) → told_on self.new.surfaces id
            ≡ option_map with_seen (told_on self.old.surfaces id) }
        ensures spare { self.new.spare ≡ self.old.spare }
        ensures last { self.new.last ≡ self.old.last }
    {
        for place in 0..self.surfaces.len() {
            if let Some(running) = self.surfaces.get_index_mut(place) {
                running.aggregated();
            }
        }
    }

    /// Whether the last aggregation had this root.
    fn has_root(&self, root: &SurfaceId) -> bool
        ensures { result ≡ has_root self.now.last root.now }
    {
        match self.root {
            None => false,
            Some(last) => last == *root,
        }
    }

    /// The result of a walk from a root, given the damage and the ranges that it found. If there
    /// was an aggregation before and the damage is empty, nothing changed.
    fn measured(&self, damage: Rect, root: &SurfaceId, ranges: Ranges) -> Measured
        ensures changed { result.changed ≡ what_changed self.now.last damage }
        ensures kept { result.kept ≡ record { root = root.now; indices = []; ranges = ranges } }
    {
        let changed = if self.root.is_some() && damage.is_empty() {
            None
        } else {
            Some(damage)
        };
        Measured {
            changed,
            root: *root,
            ranges,
        }
    }

    /// The result of the walk from the root, with the second visitor after it, or None exactly if
    /// the scene is over the limit. The conditions are those of `measure`.
    fn walked<V: Visitor + Drop>(
        &self,
        free: Ranges,
        store: &Store,
        root: &SurfaceId,
        size: Size,
        beside: V,
    ) -> Result<Option<(Measured, V)>, Memory>
        requires keeps { KeepsStored store.now }
        requires frames { KeepsFrames store.now }
        requires size { IsDisplaySize size }
        requires starts { V.has_met beside beside [] }
        ensures heavy { IfOk result (λ o. too_much (walked_in size root.now store.now)
            ≡ is_none o) }
        ensures measured { IfOk result (λ o. IfSome o (λ r.
            IsMeasureOf self.now store.now root.now size r.0)) }
        ensures beside { IfOk result (λ o. IfSome o (λ r.
            V.has_met beside r.1 (walked_in size root.now store.now))) }
    {
        let measurer = Measurer::new(&self.surfaces, &self.shown, free);
        let mut visitor = Both::new(Weigher::new(), Both::new(measurer, beside));
        if !walk(store, root, size, &mut visitor) {
            if visitor.first_stopped {
                return Ok(None);
            }
            return Err(Memory);
        }
        let Both { second, .. } = visitor;
        let Both {
            first: measurer,
            second: beside,
            ..
        } = second;
        let (damage, ranges) = measurer.parts();
        if self.has_root(root) {
            Ok(Some((self.measured(damage, root, ranges), beside)))
        } else {
            let whole = Rect::of_display(size);
            Ok(Some((self.measured(whole, root, ranges), beside)))
        }
    }

    /// Remembers this root and these ranges as those of the last aggregation.
    fn keep(&mut self, root: SurfaceId, ranges: Ranges)
        ensures { self.new ≡ record self.old {
          last = Some (record { root = root; indices = []; ranges = ranges });
        } }
    {
        self.root = Some(root);
        self.free = mem::replace(&mut self.shown, ranges);
    }

    /// Measures a draw from this root. The damage is the smallest rectangle around all claims, in
    /// display pixels; nothing changed if it is empty and there was an aggregation before. The
    /// result also holds what `remember` will keep of the walk. It is None exactly if the scene
    /// is over the limit on weight or depth; the walk ends there. The only error is `Memory`, if
    /// an allocation fails. Contracts see no change in any case.
    ///
    /// A second visitor, `beside`, goes along on the walk and is returned with what it met.
    /// Conditions: the store keeps its invariants, and its frames fit message files; the size is
    /// that of a display; the visitor has met nothing yet.
    pub fn measure<V: Visitor + Drop>(
        &mut self,
        store: &Store,
        root: &SurfaceId,
        size: Size,
        beside: V,
    ) -> Result<Option<(Measured, V)>, Memory>
        requires keeps { KeepsStored store.now }
        requires frames { KeepsFrames store.now }
        requires size { IsDisplaySize size }
        requires starts { V.has_met beside beside [] }
        ensures heavy { IfOk result (λ o. too_much (walked_in size root.now store.now)
            ≡ is_none o) }
        ensures measured { IfOk result (λ o. IfSome o (λ r.
            IsMeasureOf self.old store.now root.now size r.0)) }
        ensures beside { IfOk result (λ o. IfSome o (λ r.
            V.has_met beside r.1 (walked_in size root.now store.now))) }
        ensures same { self.new ≡ self.old }
    {
        let free = mem::replace(&mut self.free, Ranges::new(self.alloc));
        let found = self.walked(free, store, root, size, beside)?;
        Ok(found)
    }

    /// Notes an aggregation that `measure` measured: it is the last aggregation from now on,
    /// whether anything changed and was drawn or not. It allocates nothing.
    pub fn remember(&mut self, measured: Measured)
        ensures last { self.new.last ≡ Some measured.kept }
        ensures told { (id : Surface) → told_on self.new.surfaces id
            ≡ option_map with_seen (told_on self.old.surfaces id) }
        ensures spare { self.new.spare ≡ self.old.spare }
    {
        let Measured { root, ranges, .. } = measured;
        self.aggregated();
        self.keep(root, ranges);
    }
}
