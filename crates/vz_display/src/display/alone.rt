//! Showing a picture without a runtime.
ghost use Rattle.std.specs.Prelude.{◌≡◌, ◌+◌, OnOk};
ghost use Rattle.vz_display.specs.Displayed.{shown, cost, removed_with};

use crate::Display;
use crate::display::next_buffer;
use std::alloc::Global;
use std::sync::ledger::Ledger;
use vz_base::Memory;
use vz_buffers::{SharedBuffer, Steps};
use vz_machine::ThinPicture;

impl Display {
    /// Shows a picture as `show` does, and paints on the caller's thread alone. So it needs no
    /// runtime, and a static library can call it.
    pub fn show_alone<P: ThinPicture, L: Ledger>(
        &mut self,
        alloc: Global,
        p: &P,
        steps: &mut Steps<L>,
    ) -> Result<(), Memory>
        requires { (P.pictured p.now).size ≡ self.old.shown.turns.size }
        ensures shown { OnOk result (self.new.shown ≡ shown self.old.shown (P.pictured p.now)) }
        ensures counted { OnOk result (steps.new ≡ steps.old + cost self.old (P.pictured p.now)) }
        ensures removed { OnOk result (self.new.removed ≡ removed_with self.old (P.gone p.now)) }
    {
        let _proper = p.size();
        self.queue.add_damage(&p.damage());
        let area = self.queue.stale();
        let (mut buffer, made) = next_buffer(alloc, self.size, &mut self.kept, steps)?;
        p.paint_alone(alloc, area, &mut buffer, steps)?;
        let shown = SharedBuffer::new(alloc, buffer)?;
        self.queue.painted();
        self.kept.insert(0, Some(shown));
        self.painted = self
            .painted
            .saturating_add(made)
            .saturating_add(area.area());
        self.removed = self.removed.saturating_add(p.gone());
        Ok(())
    }
}
