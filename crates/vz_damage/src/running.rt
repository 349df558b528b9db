//! The damage of one surface, as it is reported.
ghost use Rattle.std.specs.Prelude.{◌≡◌, ◌+◌, ◌≤◌, [], ◌∷◌, ◌++◌, length};
ghost use Rattle.vz_geom.specs.Rectangle.{IsRectangle};
ghost use Rattle.vz_damage.specs.Told.{damage_on};

use std::marker::Model;
use vz_geom::Rect;
use vz_ghost::GhostList;

/// The damages reported for a surface. In memory they are two rectangles: one around those since
/// the last aggregation up to the active submission, and one around those after it.
#[derive(Drop)]
pub(crate) struct Running {
    shown: Rect,
    waiting: Rect,
    told: u32,
    active: u32,
    seen: u32,
    damages: GhostList<Rect>,
}

impl Model for Running {
    ghost use Rattle.vz_damage.specs.Told.{Told, AreRunning};

    ghost Value = { Told };

    ghost view = { λ r. record { damages = r.damages; active = r.active; seen = r.seen } };

    ghost invariant = { λ r. AreRunning r.shown r.waiting r.told (record {
      damages = r.damages;
      active = r.active;
      seen = r.seen;
    }) };
}

impl Running {
    /// The damage of the first submission on a surface.
    pub(crate) fn new(damage: Rect) -> Running
        ensures { result ≡ record { damages = damage ∷ []; active = 0; seen = 0 } }
    {
        let _ = damage.is_empty();
        let mut damages = GhostList::new();
        damages.show(&damage);
        Running {
            shown: Rect::empty(),
            waiting: damage,
            told: 1,
            active: 0,
            seen: 0,
            damages,
        }
    }

    /// Reports the damage of the next submission, which has this index.
    pub(crate) fn accepted(&mut self, index: u32, damage: Rect)
        requires { index ≡ length self.old.damages + 1 }
        ensures { self.new ≡ record self.old { damages = self.old.damages ++ damage ∷ [] } }
    {
        let _ = damage.is_empty();
        self.damages.show(&damage);
        self.waiting = self.waiting.bound(&damage);
        self.told = index;
    }

    /// Reports that the last submission becomes active.
    pub(crate) fn activated(&mut self)
        ensures { self.new ≡ record self.old { active = length self.old.damages } }
    {
        self.shown = self.shown.bound(&self.waiting);
        self.waiting = Rect::empty();
        self.active = self.told;
    }

    /// Notes an aggregation: the active submission was seen.
    pub(crate) fn aggregated(&mut self)
        ensures { self.new ≡ record self.old { seen = self.old.active } }
    {
        self.shown = Rect::empty();
        self.seen = self.active;
    }

    /// The smallest rectangle around the damages since the last aggregation up to the active
    /// submission.
    pub(crate) fn damage(&self) -> Rect
        ensures { result ≡ damage_on self.now }
    {
        self.shown
    }
}
